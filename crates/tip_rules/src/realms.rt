//! The realms, each with tables of its own, which are lent to the work of one event.
ghost use Rattle.std.specs.Prelude.{◌≡◌, ◌≢◌, ◌<◌, ℕ, [], length, IfOk};
ghost use Rattle.std.specs.Option.{option_and_then};
ghost use Rattle.tip_table.specs.Kept.{of};
ghost use Rattle.tip_machine.specs.Answers.{silence};
ghost use Rattle.tip_machine.specs.Connections.{key_of, key_queried};
ghost use Rattle.tip_machine.specs.Counts.{HasCounts};
ghost use Rattle.tip_machine.specs.Order.{concerned, key_found, key_on, named_by};
ghost use Rattle.tip_machine.specs.Requests.{may_take_on, must_wait_on, owner};
ghost use Rattle.tip_machine.specs.States.{identified_by, seated};
ghost use Rattle.tip_rules.specs.Needs.{HasNeeds, Suits, happened};
ghost use Rattle.tip_rules.specs.Standing.{standing_on};
ghost use Rattle.tip_rules.specs.Works.{Does, state_in, tables_in, working};

use crate::finding::key_named;
use crate::making::Making;
use crate::needs::key_queried;
use crate::opening::seat_place;
use crate::room::Room;
use crate::standing::{Standing, standing_of};
use crate::work::Work;
use std::alloc::{AllocError, Global};
use std::mem;
use tip_branch::HeldParty;
use tip_line::{Command, Id, Response};
use tip_machine::{Concerned, Connection, Event, Head, Heard, Outcome, Role, Seat, Transaction};
use tip_outlook::Endings;
use tip_rows::Key;
use tip_table::{Linked, Table};

/// The connections and the transactions of one realm.
#[derive(Drop)]
pub struct Tables<C: Linked = Connection, T: Linked = Transaction> {
    pub connections: Table<C>,
    pub transactions: Table<T>,
}

impl<C: Linked + Drop, T: Linked + Drop> Tables<C, T> {
    /// A realm that has none. It takes no memory.
    pub fn new(alloc: Global) -> Self
        ensures connections { (realm : ℕ) → of result.connections realm ≡ [] }
        ensures transactions { (realm : ℕ) → of result.transactions realm ≡ [] }
    {
        Tables {
            connections: Table::new(alloc),
            transactions: Table::new(alloc),
        }
    }
}

/// What is declared and counted of each realm, and its tables: as many as there are realms. What a realm has makes no event of
/// another dearer.
#[derive(Drop)]
pub struct Realms<C: Linked = Connection, T: Linked = Transaction> {
    pub heads: Vec<Head>,
    pub tables: Vec<Tables<C, T>>,
    pub alloc: Global,
}

impl Realms<Connection, Transaction> {
    /// Room for an event of a realm. The realms stay as they are.
    pub fn room(&mut self, alloc: Global, realm: usize, event: &Event) -> Result<Room, AllocError>
        requires here { realm < length self.old.heads.items }
        requires tables { realm < length self.old.tables.items }
        requires counts { HasCounts (state_in realm self.old) }
        ensures ok { IfOk result (Suits (state_in realm self.new)
            (tables_in realm self.new).connections.free
            (tables_in realm self.new).transactions.free
            (of (tables_in realm self.new).transactions realm) event.now) }
        ensures heads { self.new.heads ≡ self.old.heads }
        ensures realms { (place : ℕ) → state_in place self.new ≡ state_in place self.old }
        ensures count { length self.new.tables.items ≡ length self.old.tables.items }
    {
        let idle = Making::idle(self.alloc);
        let mut work = self.lend(realm, Outcome::NoChange, Endings::none(), idle);
        let room = work.prepare(alloc, event);
        self.take_back(&mut work);
        room
    }

    /// One event of a realm, which has what it needs, with what became of the change that it wanted, and how its transaction goes
    /// on by that.
    pub fn step(
        &mut self,
        realm: usize,
        event: Event,
        outcome: Outcome,
        endings: Endings,
        making: Making,
    ) -> Making
        requires here { realm < length self.old.heads.items }
        requires tables { realm < length self.old.tables.items }
        requires counts { HasCounts (state_in realm self.old) }
        requires silent { making.answer ≡ silence }
        requires needs { HasNeeds event (working realm outcome endings making self.old) }
        ensures does { Does (working realm outcome endings making self.old)
            (working realm outcome endings result self.new)
            (happened (state_in realm self.old) event outcome) }
        ensures others { (other : ℕ) → other ≢ realm →
            tables_in other self.new ≡ tables_in other self.old }
        ensures count { length self.new.tables.items ≡ length self.old.tables.items }
    {
        let mut work = self.lend(realm, outcome, endings, making);
        work.step(event);
        self.take_back(&mut work);
        work.making
    }

    /// Whether a line of this seat may be taken.
    #[tactic(auto, using(crate::proofs::Lending::seating))]
    pub fn may_take(&self, realm: usize, seat: Seat) -> bool
        requires here { realm < length self.now.heads.items }
        requires tables { realm < length self.now.tables.items }
        requires counts { HasCounts (state_in realm self.now) }
        ensures { result ≡ may_take_on (seated seat (state_in realm self.now)) }
    {
        let connections = self.connections(realm);
        match seat_place(&self.heads[realm], connections, realm, seat) {
            Some(place) => connections.item(place).may_take(),
            None => false,
        }
    }

    /// Whether a line of this seat must wait.
    #[tactic(auto, using(crate::proofs::Lending::waiting))]
    pub fn must_wait(&self, realm: usize, seat: Seat) -> bool
        requires here { realm < length self.now.heads.items }
        requires tables { realm < length self.now.tables.items }
        requires counts { HasCounts (state_in realm self.now) }
        ensures { result ≡ must_wait_on (seated seat (state_in realm self.now)) }
    {
        let connections = self.connections(realm);
        match seat_place(&self.heads[realm], connections, realm, seat) {
            Some(place) => !connections.item(place).may_take(),
            None => false,
        }
    }

    /// How the connection of a seat stands.
    #[tactic(auto, using(crate::proofs::Lending::standing))]
    pub fn standing(&self, realm: usize, seat: Seat) -> Standing
        requires here { realm < length self.now.heads.items }
        requires tables { realm < length self.now.tables.items }
        requires counts { HasCounts (state_in realm self.now) }
        ensures { result ≡ standing_on (seated seat (state_in realm self.now)) }
    {
        let connections = self.connections(realm);
        match seat_place(&self.heads[realm], connections, realm, seat) {
            Some(place) => standing_of(connections.item(place)),
            None => Standing::Gone,
        }
    }

    /// The transactions that an event concerns.
    pub fn concerned(&self, realm: usize, event: &Event) -> Concerned
        requires here { realm < length self.now.heads.items }
        requires tables { realm < length self.now.tables.items }
        requires counts { HasCounts (state_in realm self.now) }
        ensures { result ≡ concerned (state_in realm self.now) event.now }
    {
        match event {
            Event::Line { seat, heard } => Concerned {
                own: self.key_on(realm, *seat),
                named: self.named_by(realm, *seat, heard),
            },
            Event::Lost { seat } | Event::AskPush { seat, .. } | Event::AskPull { seat, .. } => {
                Concerned {
                    own: self.key_on(realm, *seat),
                    named: None,
                }
            }
            Event::Voted(party) | Event::Settled(party) => Concerned {
                own: None,
                named: self.owner(realm, party),
            },
            Event::Open { .. } | Event::Dial { .. } | Event::Resume { .. } => Concerned {
                own: None,
                named: None,
            },
        }
    }

    /// The transaction that the connection of a seat is on.
    #[tactic(auto, using(crate::proofs::Lending::being_on))]
    fn key_on(&self, realm: usize, seat: Seat) -> Option<Key>
        requires here { realm < length self.now.heads.items }
        requires tables { realm < length self.now.tables.items }
        requires counts { HasCounts (state_in realm self.now) }
        ensures { result ≡ key_on (seated seat (state_in realm self.now)) }
    {
        let connections = self.connections(realm);
        let place = seat_place(&self.heads[realm], connections, realm, seat)?;
        key_of(connections.item(place).role)
    }

    /// The transaction that a line on the connection of a seat concerns beside that connection's own.
    fn named_by(&self, realm: usize, seat: Seat, heard: &Heard) -> Option<Key>
        requires here { realm < length self.now.heads.items }
        requires tables { realm < length self.now.tables.items }
        requires counts { HasCounts (state_in realm self.now) }
        ensures { result
            ≡ named_by heard.now (seated seat (state_in realm self.now)) (state_in realm self.now) }
    {
        match heard {
            Heard::Command(Command::Reconnect { subordinate }) => {
                self.identified(realm, subordinate)
            }
            Heard::Response(Response::QueriedNotFound) => self.queried(realm, seat),
            _ => None,
        }
    }

    /// The transaction that the connection of a seat asks for.
    #[tactic(auto, using(crate::proofs::Lending::asking))]
    fn queried(&self, realm: usize, seat: Seat) -> Option<Key>
        requires here { realm < length self.now.heads.items }
        requires tables { realm < length self.now.tables.items }
        requires counts { HasCounts (state_in realm self.now) }
        ensures { result ≡ option_and_then (λ connection. key_queried connection.awaited)
            (seated seat (state_in realm self.now)) }
    {
        let connections = self.connections(realm);
        let place = seat_place(&self.heads[realm], connections, realm, seat)?;
        key_queried(&connections.item(place).awaited)
    }

    /// The transaction of an identifier.
    #[tactic(auto, using(crate::proofs::Lending::identifying))]
    fn identified(&self, realm: usize, id: &Id) -> Option<Key>
        requires here { realm < length self.now.heads.items }
        requires tables { realm < length self.now.tables.items }
        ensures { result ≡ key_found (identified_by id.now (state_in realm self.now)) }
    {
        let transactions = self.transactions(realm);
        key_named(&self.heads[realm].name, transactions, realm, id)
    }

    /// The transaction that gave a party out in this start.
    #[tactic(auto, using(crate::proofs::Lending::owning))]
    fn owner(&self, realm: usize, party: &HeldParty) -> Option<Key>
        requires here { realm < length self.now.heads.items }
        requires tables { realm < length self.now.tables.items }
        ensures { result ≡ key_found (owner party.now (state_in realm self.now)) }
    {
        let party = party.party();
        if party.epoch() != self.heads[realm].epoch {
            return None;
        }
        self.identified(realm, party.id())
    }

    /// The connections of a realm.
    pub fn connections(&self, realm: usize) -> &Table<Connection>
        requires { realm < length self.now.tables.items }
        ensures { result.now ≡ (tables_in realm self.now).connections }
    {
        &self.tables[realm].connections
    }

    /// The transactions of a realm.
    pub fn transactions(&self, realm: usize) -> &Table<Transaction>
        requires { realm < length self.now.tables.items }
        ensures { result.now ≡ (tables_in realm self.now).transactions }
    {
        &self.tables[realm].transactions
    }

    /// Lends its tables to the work of an event of a realm, with an answer to be made.
    fn lend(
        &mut self,
        realm: usize,
        outcome: Outcome,
        endings: Endings,
        making: Making,
    ) -> Work<Connection, Transaction, Making>
        requires { realm < length self.old.tables.items }
        ensures lent { result ≡ working realm outcome endings making self.old }
        ensures others { (other : ℕ) → other ≢ realm →
            tables_in other self.new ≡ tables_in other self.old }
        ensures count { length self.new.tables.items ≡ length self.old.tables.items }
    {
        let Tables {
            connections,
            transactions,
        } = mem::replace(&mut self.tables[realm], Tables::new(self.alloc));
        Work {
            heads: mem::replace(&mut self.heads, Vec::new(self.alloc)),
            connections,
            transactions,
            realm,
            outcome,
            endings,
            making,
        }
    }

    /// Takes the tables back from the work of an event, which keeps its answer.
    fn take_back(&mut self, work: &mut Work<Connection, Transaction, Making>)
        requires { work.old.realm < length self.old.tables.items }
        ensures taken { working work.old.realm work.old.outcome work.old.endings work.old.making
            self.new ≡ work.old }
        ensures answer { work.new.making ≡ work.old.making }
        ensures others { (other : ℕ) → other ≢ work.old.realm →
            tables_in other self.new ≡ tables_in other self.old }
        ensures count { length self.new.tables.items ≡ length self.old.tables.items }
    {
        work.connections.relink();
        work.transactions.relink();
        mem::swap(&mut self.heads, &mut work.heads);
        let tables = &mut self.tables[work.realm];
        mem::swap(&mut tables.connections, &mut work.connections);
        mem::swap(&mut tables.transactions, &mut work.transactions);
    }
}

/// The transaction that a connection of this role is on.
fn key_of(role: Option<Role>) -> Option<Key>
    ensures { result ≡ key_of role }
{
    Some(role?.key())
}
