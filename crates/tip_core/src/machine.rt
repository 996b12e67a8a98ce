//! The machines of all realms.
ghost use Rattle.std.specs.Prelude.{◌≡◌, ◌≢◌, ℕ, ◌+◌, ◌≤◌, ◌<◌, [], None, Some, true, IfOk, OnOk, map, length, slice_get, option_map};
ghost use Rattle.tip_branch.specs.Always.{Always};
ghost use Rattle.tip_machine.specs.Counts.{HasCounts};
ghost use Rattle.tip_machine.specs.Heads.{starting};
ghost use Rattle.tip_machine.specs.Moves.{risen};
ghost use Rattle.tip_machine.specs.Recovery.{restarted};
ghost use Rattle.tip_machine.specs.Steps.{fits};
ghost use Rattle.tip_machine.specs.States.{State, started};
ghost use Rattle.tip_machine.specs.Types.{seen};
ghost use Rattle.tip_recovery.specs.Adopting.{are_adopted, loaded};
ghost use Rattle.tip_rows.specs.Logs.{last_epoch};
ghost use Rattle.tip_table.specs.Kept.{of};
ghost use Rattle.tip_rules.specs.Works.{state_in, tables_in};
ghost use Rattle.tip_core.specs.Hosted.{realm as realm_at, free_in, room_in, tables_at, may_take_in, must_wait_in, standing_in, HaveNames, IsRoomFor, Steps};
ghost use Rattle.tip_core.specs.Starting.{AreEmpty};
ghost use Rattle.tip_core.specs.Ordering.{AreKnown};
ghost use Rattle.tip_core.specs.Recovering.{IsOf, taking_up};
ghost use Rattle.tip_core.specs.Renewing.{HasRoom};
ghost use Rattle.tip_core.specs.Usages.{is_owed, is_with_superior, usage_of};

use crate::happened::Happened;
use crate::recovering::reopen_in;
use crate::renewing::{Left, Parting, renew, room_to_renew};
use crate::starts::Starts;
use crate::usage::{Usage, count_committed, count_in_doubt, is_owed, is_with_superior};
use std::alloc::{AllocError, Global};
use std::marker::Model;
use tip_line::{Address, Id, Realm, Refusal};
use tip_machine::{Connection, Event, Head, Outcome, Seat, Start, Transaction};
use tip_outlook::{Next, Turns};
use tip_recovery::Recovery;
use tip_rows::Key;
use tip_rules::{Realms, Room, Standing, Tables};
use tip_table::Items;

/// All realms of the process, each by its place in the order of declaration.
#[derive(Drop)]
pub struct Core {
    realms: Realms,
    turns: Turns,
}

impl Model for Core {
    ghost use Rattle.std.specs.Prelude.{◌≡◌, length};
    ghost use Rattle.tip_core.specs.Hosted.{HaveNames, Hosted};
    ghost use Rattle.tip_rules.specs.Works.{HaveCounts};

    ghost Value = { Hosted };

    ghost view = { λ c. record {
      heads = c.realms.heads.items;
      tables = c.realms.tables.items;
      turns = c.turns.capacity;
    } };

    ghost invariant = { λ c. HaveCounts c.realms × HaveNames (record {
      heads = c.realms.heads.items;
      tables = c.realms.tables.items;
      turns = c.turns.capacity;
    }) × (length c.realms.tables.items ≡ length c.realms.heads.items) };
}

impl Core {
    /// No realms.
    pub fn new(alloc: Global) -> Core
        requires { Always }
        ensures { (place : ℕ) → realm_at result place ≡ None }
    {
        Core {
            realms: Realms {
                heads: Vec::new(alloc),
                tables: Vec::new(alloc),
                alloc,
            },
            turns: Turns::new(alloc),
        }
    }

    /// These realms start, in place of those that were.
    pub fn start(self, alloc: Global, starts: Starts) -> Result<Core, AllocError>
        requires { Always }
        ensures realms { IfOk result (λ core. (place : ℕ) → realm_at core place
            ≡ option_map (λ start. started (starting start)) (slice_get starts place)) }
        ensures named { IfOk result HaveNames }
    {
        let heads = heads_of(alloc, starts.into_vec())?;
        let tables = tables_of(alloc, heads.len())?;
        Ok(Core {
            realms: Realms {
                heads,
                tables,
                alloc,
            },
            turns: Turns::new(alloc),
        })
    }

    /// Room for so many transactions more of a realm. The realms stay as they are.
    pub fn reserve(&mut self, realm: usize, transactions: usize) -> Result<(), AllocError>
        requires { Always }
        ensures realms { (place : ℕ) → realm_at self.new place ≡ realm_at self.old place }
        ensures ok { OnOk result
            (realm_at self.old realm ≢ None → transactions ≤ free_in realm self.new) }
        ensures others { (other : ℕ) → other ≢ realm →
            free_in other self.new ≡ free_in other self.old }
        ensures named { HaveNames self.new }
    {
        if realm >= self.realms.heads.len() {
            return Ok(());
        }
        reserve(&mut self.realms, realm, transactions)
    }

    /// The transactions that recovery makes of a realm's rows join it, in room that is there.
    pub fn take_up(&mut self, realm: usize, recovery: Recovery)
        requires room { length recovery.rows ≤ free_in realm self.old }
        requires adopted { are_adopted recovery.rows ≡ true }
        ensures own { (state : State) → realm_at self.old realm ≡ Some state →
            IsOf recovery state.head →
            realm_at self.new realm ≡ Some (taking_up recovery.rows state) }
        ensures others { (other : ℕ) → other ≢ realm →
            realm_at self.new other ≡ realm_at self.old other }
        ensures room { realm_at self.old realm ≢ None →
            free_in realm self.new + length recovery.rows ≡ free_in realm self.old }
        ensures room_of_others { (other : ℕ) → other ≢ realm →
            free_in other self.new ≡ free_in other self.old }
        ensures named { HaveNames self.new }
    {
        if realm >= self.realms.heads.len() {
            return;
        }
        let epoch = recovery.epoch();
        reopen_in(&mut self.realms, realm, epoch, recovery.into_rows());
    }

    /// Room for a realm to start again with so many rows.
    pub fn room_to_renew(
        &self,
        alloc: Global,
        realm: usize,
        rows: usize,
    ) -> Result<Parting, AllocError>
        requires always { Always }
        requires here { realm_at self.now realm ≢ None }
        ensures { IfOk result (HasRoom (tables_at realm self.now) realm rows) }
    {
        room_to_renew(&self.realms, alloc, realm, rows)
    }

    /// A realm starts again in its next epoch, by these rows, and what it had leaves. It takes no memory.
    pub fn renew(&mut self, realm: usize, recovery: Recovery, room: Parting) -> Left
        requires always { Always }
        requires here { (state : State) × (realm_at self.old realm ≡ Some state)
            × (state.head.epoch < last_epoch) }
        requires room { HasRoom (tables_at realm self.old) realm (length recovery.rows) room }
        requires adopted { are_adopted recovery.rows ≡ true }
        ensures own { (state : State) → realm_at self.old realm ≡ Some state →
            IsOf recovery (risen state.head) → realm_at self.new realm
            ≡ Some (restarted (risen state.head) (map loaded recovery.rows)) }
        ensures others { (other : ℕ) → other ≢ realm →
            realm_at self.new other ≡ realm_at self.old other }
        ensures connections { (state : State) → realm_at self.old realm ≡ Some state →
            result.connections.items ≡ state.connections }
        ensures transactions { (state : State) → realm_at self.old realm ≡ Some state →
            map seen result.transactions.items ≡ state.transactions }
        ensures named { HaveNames self.new }
    {
        renew(&mut self.realms, realm, recovery, room)
    }

    /// Room for an event. The realms stay as they are.
    pub fn room(&mut self, alloc: Global, realm: usize, event: &Event) -> Result<Room, AllocError>
        requires { Always }
        ensures realms { (place : ℕ) → realm_at self.new place ≡ realm_at self.old place }
        ensures ok { IfOk result (IsRoomFor self.new realm event.now) }
    {
        if realm >= self.realms.heads.len() {
            return Room::nothing(alloc);
        }
        self.turns
            .reserve(self.realms.connections(realm).count(realm))?;
        self.realms.room(alloc, realm, event)
    }

    /// One event of one realm, with what became of the change that it wanted. It takes no memory.
    pub fn apply(&mut self, realm: usize, event: Event, room: Room, outcome: Outcome) -> Happened
        requires room { IsRoomFor self.old realm event room }
        requires fits { fits room.change outcome ≡ true }
        ensures steps { Steps self.old self.new realm event outcome result.answer }
        ensures change { result.change ≡ room.change }
        ensures outcome { result.outcome ≡ outcome }
        ensures named { HaveNames self.new }
        ensures room { (place : ℕ) → room_in place self.new ≡ room_in place self.old }
    {
        let (mut making, Next { change, endings }) = room.into_parts();
        if realm >= self.realms.heads.len() {
            making.turn_down(Refusal::NoRealm, event);
            let answer = making.finish(&self.turns);
            return Happened {
                change,
                outcome,
                answer,
            };
        }
        note_turns(&mut self.turns, &self.realms, realm, &event);
        let made = self.realms.step(realm, event, outcome, endings, making);
        let answer = made.finish(&self.turns);
        Happened {
            change,
            outcome,
            answer,
        }
    }

    /// The name of a realm.
    pub fn name(&self, realm: usize) -> Option<&Realm>
        ensures { option_map (λ name. name.now) result
            ≡ option_map (λ state. state.head.name) (realm_at self.now realm) }
    {
        Some(&self.realms.heads.get(realm)?.name)
    }

    /// What is known of each realm, in the order of declaration.
    pub fn heads(&self) -> &[Head]
        requires { Always }
        ensures { (place : ℕ) → slice_get result.now place
            ≡ option_map (λ state. state.head) (realm_at self.now place) }
    {
        &self.realms.heads
    }

    /// The transactions of a realm, in the order made.
    pub fn transactions(&self, realm: usize) -> Items<'_, Transaction>
        requires always { Always }
        requires here { realm_at self.now realm ≢ None }
        ensures { (state : State) → realm_at self.now realm ≡ Some state →
            map seen result ≡ state.transactions }
    {
        self.realms.transactions(realm).items(realm)
    }

    /// How much of its limits a realm takes up, and how far its transactions have come.
    pub fn usage(&self, realm: usize) -> Option<Usage>
        ensures { result ≡ option_map usage_of (realm_at self.now realm) }
    {
        let head = self.realms.heads.get(realm)?;
        let transactions = self.realms.transactions(realm);
        Some(Usage {
            epoch: head.epoch,
            connections: self.realms.connections(realm).count(realm),
            transactions: transactions.count(realm),
            in_doubt: count_in_doubt(transactions, realm),
            committed: count_committed(transactions, realm),
            entries: head.entries,
        })
    }

    /// Whether the superior of a realm's transaction is on a connection.
    pub fn is_with_superior(&self, realm: usize, key: Key) -> bool
        ensures { result ≡ is_with_superior key (realm_at self.now realm) }
    {
        realm < self.realms.heads.len()
            && is_with_superior(self.realms.connections(realm), realm, key)
    }

    /// Whether a realm's transaction still owes the commit to the subordinate of an address and identifier.
    pub fn is_owed(&self, realm: usize, key: Key, address: &Address, id: &Id) -> bool
        ensures { result ≡ is_owed key address.now id.now (realm_at self.now realm) }
    {
        realm < self.realms.heads.len()
            && is_owed(self.realms.transactions(realm), realm, key, address, id)
    }

    /// Whether a line of this seat may be taken now; else it is held until it may.
    pub fn may_take(&self, realm: usize, seat: Seat) -> bool
        ensures { result ≡ may_take_in seat (realm_at self.now realm) }
    {
        realm < self.realms.heads.len() && self.realms.may_take(realm, seat)
    }

    /// Whether a line of this seat must wait until a response has gone out or is awaited. On a connection that is gone it need
    /// not: it is refused.
    pub fn must_wait(&self, realm: usize, seat: Seat) -> bool
        ensures { result ≡ must_wait_in seat (realm_at self.now realm) }
    {
        realm < self.realms.heads.len() && self.realms.must_wait(realm, seat)
    }

    /// How the connection of a seat stands.
    pub fn standing(&self, realm: usize, seat: Seat) -> Standing
        ensures { result ≡ standing_in seat (realm_at self.now realm) }
    {
        if realm >= self.realms.heads.len() {
            return Standing::Gone;
        }
        self.realms.standing(realm, seat)
    }
}

/// Tables for so many realms, which have nothing yet.
fn tables_of(alloc: Global, count: usize) -> Result<Vec<Tables>, AllocError>
    ensures count { IfOk result (λ tables. length tables.items ≡ count) }
    ensures empty { IfOk result (λ tables. AreEmpty tables.items) }
{
    let mut tables = Vec::with_capacity(alloc, count)?;
    for _ in 0..count {
        tables.push(Tables::new(alloc))?;
    }
    Ok(tables)
}

/// Room for so many transactions more of a realm.
fn reserve(realms: &mut Realms, realm: usize, transactions: usize) -> Result<(), AllocError>
    requires { realm < length realms.old.tables.items }
    ensures ok { OnOk result (transactions ≤ (tables_in realm realms.new).transactions.free) }
    ensures same { state_in realm realms.new ≡ state_in realm realms.old }
    ensures heads { realms.new.heads ≡ realms.old.heads }
    ensures others { (other : ℕ) → other ≢ realm →
        tables_in other realms.new ≡ tables_in other realms.old }
    ensures count { length realms.new.tables.items ≡ length realms.old.tables.items }
{
    realms.tables[realm].transactions.reserve_for(transactions)
}

/// Each realm's head at its start.
fn heads_of(alloc: Global, starts: Vec<Start>) -> Result<Vec<Head>, AllocError>
    ensures { IfOk result (λ heads. heads.items ≡ map starting starts.items) }
{
    let mut heads = Vec::with_capacity(alloc, starts.len())?;
    for start in starts {
        heads.push(Head::new(start))?;
    }
    Ok(heads)
}

/// Notes the turns of the connections that are on the transactions which an event concerns.
fn note_turns(turns: &mut Turns, realms: &Realms, realm: usize, event: &Event)
    requires here { realm < length realms.now.heads.items }
    requires tables { realm < length realms.now.tables.items }
    requires counts { HasCounts (state_in realm realms.now) }
    requires room { length (state_in realm realms.now).connections ≤ turns.old.capacity }
    ensures turns { AreKnown (state_in realm realms.now) event.now turns.new.turns }
    ensures room { turns.new.capacity ≡ turns.old.capacity }
{
    let concerned = realms.concerned(realm, event);
    turns.note(realm, realms.connections(realm), concerned);
}
