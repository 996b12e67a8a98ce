//! A connection that was opened to ask for a transaction in doubt, once it is identified (RFC 2371, section 13, QUERY).
ghost use Rattle.std.specs.Prelude.{◌≡◌, ◌≤◌, ◌<◌, ◌+◌, ℕ, List, false, length, Some};
ghost use Rattle.std.specs.Option.{option_and_then, option_map_or};
ghost use Rattle.tip_line.specs.declared.command.CommandName.TheVariants.{Identify as AnIdentify};
ghost use Rattle.tip_line.specs.declared.response.ResponseName.TheVariants.{Identified as AnIdentified};
ghost use Rattle.tip_table.specs.Kept.{StandsAt};
ghost use Rattle.tip_machine.specs.Connections.{has_number};
ghost use Rattle.tip_machine.specs.Responses.{ask_superior, go_on, greeted, query_for};
ghost use Rattle.tip_machine.specs.States.{connection_of, identified_by, transaction_of};
ghost use Rattle.tip_machine.specs.Steps.{chosen};
ghost use Rattle.tip_machine.specs.Transactions.{is_decided_at};
ghost use Rattle.tip_machine.specs.Types.{Connection as AConnection, Transaction as ATransaction};
ghost use Rattle.tip_machine.specs.declared.connection.Purpose.TheVariants.{Query as ToQuery};
ghost use Rattle.tip_outlook.specs.Noting.{identifying, version_of};
ghost use Rattle.tip_rules.specs.Pursuing.{asked_for, key_of, superior_of, word_at};
ghost use Rattle.tip_rules.specs.Works.{Does, IsIdle, lines_as, lines_at, work_of};

use crate::finding::key_named;
use crate::making::Making;
use crate::work::Work;
use tip_line::{Address, CommandName, Id, Response, ResponseName};
use tip_machine::{Asked, Awaited, Connection, Origin, Purpose, Role, Transaction};
use tip_outlook::{ends, version_of};
use tip_rows::Key;

impl Work<Connection, Transaction, Making> {
    /// A response to IDENTIFY, on a connection that was opened to ask for a transaction.
    pub(crate) fn respond_to_ask(&mut self, number: u32, place: usize, response: Response)
        requires here { self.old.realm < length self.old.heads.items }
        requires stands { StandsAt self.old.connections self.old.realm (has_number number) place }
        requires lines { lines_at number (work_of self.old).state + 2 ≤ self.old.making.free }
        requires word { self.old.making.word ≡ word_at number (work_of self.old).state }
        requires none { IsIdle self.old.making.answer }
        ensures { (connection : AConnection) (id : List ℕ) →
            connection_of number (work_of self.old).state ≡ Some connection →
            asked_for connection.awaited ≡ Some id →
            Does self.old self.new (chosen (identifying (version_of response) (ToQuery id) response
            connection (work_of self.old)) self.old.outcome) }
    {
        match version_of(&response) {
            Some(version) => self.greet_to_ask(number, place, version),
            None => self.refuse_line(number, place, ends(&response)),
        }
    }

    /// IDENTIFIED: the version is 3 or one above, of which we speak 3.
    #[tactic(auto, using(crate::proofs::Purposes::greeting_to_ask))]
    fn greet_to_ask(&mut self, number: u32, place: usize, version: u32)
        requires here { self.old.realm < length self.old.heads.items }
        requires stands { StandsAt self.old.connections self.old.realm (has_number number) place }
        requires lines { lines_at number (work_of self.old).state + 2 ≤ self.old.making.free }
        requires word { self.old.making.word ≡ word_at number (work_of self.old).state }
        requires none { IsIdle self.old.making.answer }
        ensures { (connection : AConnection) (id : List ℕ) →
            connection_of number (work_of self.old).state ≡ Some connection →
            asked_for connection.awaited ≡ Some id →
            Does self.old self.new (greeted version (ToQuery id) connection (work_of self.old)) }
    {
        if version >= 3 {
            self.pursue_query(number, place);
        } else {
            self.reject(number, place);
        }
    }

    /// The connection goes on by the connection table, and asks.
    fn pursue_query(&mut self, number: u32, place: usize)
        requires here { self.old.realm < length self.old.heads.items }
        requires stands { StandsAt self.old.connections self.old.realm (has_number number) place }
        requires lines { lines_at number (work_of self.old).state + 2 ≤ self.old.making.free }
        requires word { self.old.making.word ≡ word_at number (work_of self.old).state }
        requires none { IsIdle self.old.making.answer }
        ensures { (connection : AConnection) (id : List ℕ) →
            connection_of number (work_of self.old).state ≡ Some connection →
            asked_for connection.awaited ≡ Some id →
            Does self.old self.new (query_for (identified_by id (work_of self.old).state) connection
            (go_on AnIdentify AnIdentified connection (work_of self.old))) }
    {
        let connection = self.connection(number, place);
        let role = connection.role;
        let key = self.key_asked(&connection.awaited);
        self.go(
            number,
            place,
            CommandName::Identify,
            ResponseName::Identified,
        );
        match key {
            Some(key) => self.query_about(number, place, role, key),
            None => self.close_as(number, place, role),
        }
    }

    /// The key of the transaction that a connection was opened to ask for, if it is open.
    fn key_asked(&self, awaited: &Option<Awaited>) -> Option<Key>
        requires { self.now.realm < length self.now.heads.items }
        ensures { result
            ≡ option_and_then (key_of (work_of self.now).state) (asked_for awaited.now) }
    {
        match awaited {
            Some(Awaited::Identify(Purpose::Query(id))) => self.key_of(id),
            _ => None,
        }
    }

    /// The key of the transaction of an identifier.
    pub(crate) fn key_of(&self, id: &Id) -> Option<Key>
        requires { self.now.realm < length self.now.heads.items }
        ensures { result ≡ key_of (work_of self.now).state id.now }
    {
        key_named(self.name(), &self.transactions, self.realm, id)
    }

    /// A transaction in doubt is asked for, if its superior is there; else we hang up.
    #[tactic(auto, using(crate::proofs::Purposes::asking_about))]
    fn query_about(&mut self, number: u32, place: usize, role: Option<Role>, key: Key)
        requires stands { StandsAt self.old.connections self.old.realm (has_number number) place }
        requires lines { lines_as role (work_of self.old).state + 1 ≤ self.old.making.free }
        requires word { self.old.making.word
            ≡ superior_of (transaction_of key (work_of self.old).state) }
        requires none { IsIdle self.old.making.answer }
        ensures { (connection : AConnection) →
            connection_of number (work_of self.old).state ≡ Some connection →
            Does self.old self.new (query_for (transaction_of key (work_of self.old).state)
            (record connection { role = role }) (work_of self.old)) }
    {
        if !self.is_in_doubt(key) {
            return self.close_as(number, place, role);
        }
        if self.is_decided_on(number, place, key) {
            self.ask_superior(number, place, role, key);
        } else {
            self.close_as(number, place, role);
        }
    }

    /// Whether the superior of the transaction of a key is at the other side of a connection.
    fn is_decided_on(&self, number: u32, place: usize, key: Key) -> bool
        requires { StandsAt self.now.connections self.now.realm (has_number number) place }
        ensures { (connection : AConnection) →
            connection_of number (work_of self.now).state ≡ Some connection →
            result ≡ option_map_or (λ t. is_decided_at connection.peer t.origin)
            (transaction_of key (work_of self.now).state) false }
    {
        match self.transaction(key) {
            Some(at) => is_decided_at(
                &self.connection(number, place).peer,
                &self.at(key, at).origin,
            ),
            None => false,
        }
    }

    /// The superior is asked whether its transaction exists still.
    #[tactic(auto, using(crate::proofs::Purposes::asking_superior))]
    fn ask_superior(&mut self, number: u32, place: usize, role: Option<Role>, key: Key)
        requires stands { StandsAt self.old.connections self.old.realm (has_number number) place }
        requires lines { lines_as role (work_of self.old).state + 1 ≤ self.old.making.free }
        requires word { self.old.making.word
            ≡ superior_of (transaction_of key (work_of self.old).state) }
        requires none { IsIdle self.old.making.answer }
        ensures { (connection : AConnection) (t : ATransaction) →
            connection_of number (work_of self.old).state ≡ Some connection →
            transaction_of key (work_of self.old).state ≡ Some t →
            Does self.old self.new (ask_superior t.origin t.key (record connection { role = role })
            (work_of self.old)) }
    {
        match self.making.take_word() {
            Some(superior) => self.send(number, place, Awaited::Query(key), Asked::Query(superior)),
            None => self.close_as(number, place, role),
        }
    }
}

/// Whether a transaction's superior is at this address.
fn is_decided_at(peer: &Option<Address>, origin: &Origin) -> bool
    ensures { result ≡ is_decided_at peer.now origin.now }
{
    match (peer, origin) {
        (
            Some(peer),
            Origin::Subordinate {
                address: Some(address),
                superior: _,
            },
        ) => address == peer,
        _ => false,
    }
}
