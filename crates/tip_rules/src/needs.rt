//! What an event needs, made before it happens: lines, places in the tables, a transaction that begins, and what follows.
ghost use Rattle.std.specs.Prelude.{if◌then◌else◌, ◌≡◌, ◌+◌, ◌<◌, ◌≤◌, ℕ, length, map, true, IfOk, OnOk};
ghost use Rattle.std.specs.Option.{option_and_then, option_copied, option_map_or};
ghost use Rattle.tip_table.specs.Kept.{of};
ghost use Rattle.tip_machine.specs.Connections.{key_queried};
ghost use Rattle.tip_machine.specs.Counts.{HasCounts};
ghost use Rattle.tip_machine.specs.Given.{are_numbered};
ghost use Rattle.tip_machine.specs.Steps.{is_open, wants};
ghost use Rattle.tip_machine.specs.Requests.{owner};
ghost use Rattle.tip_machine.specs.States.{identified_by};
ghost use Rattle.tip_machine.specs.Types.{seen};
ghost use Rattle.tip_outlook.specs.Endings.{EndsBy};
ghost use Rattle.tip_outlook.specs.Wanting.{foreseen};
ghost use Rattle.tip_rules.specs.Needs.{MayJoin, Suits, begins_on, connections_for, joined_by, lines_needed, number_in, ours_needed, own_of, peer_needed, room_needed, transactions_for, word_needed};
ghost use Rattle.tip_rules.specs.Pursuing.{named_in, named_of, superior_in, superior_of, word_for};
ghost use Rattle.tip_rules.specs.Works.{lines_as, lines_asked, lines_for, lines_of, lines_on, work_of};

use crate::making::{Making, Words};
use crate::reaching::subordinate_of;
use crate::room::Room;
use crate::transaction_room::HeldRoom;
use crate::work::Work;
use std::alloc::{AllocError, Global};
use tip_branch::HeldParty;
use tip_line::{Address, Command, Id};
use tip_machine::{Awaited, Connection, Event, Heard, Origin, Purpose, Role, Transaction};
use tip_outlook::{Next, OnKey};
use tip_rows::Key;

impl Work<Connection, Transaction, Making> {
    /// Room for an event of the realm at hand. The realms stay as they are.
    pub fn prepare(&mut self, alloc: Global, event: &Event) -> Result<Room, AllocError>
        requires here { self.old.realm < length self.old.heads.items }
        requires counts { HasCounts (work_of self.old).state }
        ensures ok { IfOk result (Suits (work_of self.new).state self.new.connections.free
            self.new.transactions.free (of self.new.transactions self.new.realm) event.now) }
        ensures connections { (realm : ℕ) →
            of self.new.connections realm ≡ of self.old.connections realm }
        ensures transactions { (realm : ℕ) →
            map seen (of self.new.transactions realm) ≡ map seen (of self.old.transactions realm) }
        ensures rest { self.new ≡ record self.old
            { connections = self.new.connections; transactions = self.new.transactions } }
    {
        self.reserve(event)?;
        self.reserve_part(event)?;
        self.grant(alloc, event, self.own(event))
    }

    /// The connection that an event comes on, if it is there.
    #[tactic(auto, using(crate::proofs::Needing::owning))]
    fn own(&self, event: &Event) -> Option<&Connection>
        requires { are_numbered (work_of self.now).state ≡ true }
        ensures { option_copied result ≡ own_of event.now (work_of self.now).state }
    {
        let number = number_in(event)?;
        let place = self.connection_at(number)?;
        Some(self.connections.item(place))
    }

    /// What an event needs beside places, which comes on this connection.
    fn grant(
        &self,
        alloc: Global,
        event: &Event,
        own: Option<&Connection>,
    ) -> Result<Room, AllocError>
        requires here { self.now.realm < length self.now.heads.items }
        requires counts { HasCounts (work_of self.now).state }
        requires own { option_copied own ≡ own_of event.now (work_of self.now).state }
        ensures lines { IfOk result
            (λ room. lines_needed event.now (work_of self.now).state ≤ room.lines) }
        ensures transaction { IfOk result (λ room. is_open (work_of self.now).state ≡ true →
            room.transaction ≡ room_needed event.now (work_of self.now).state) }
        ensures peer { IfOk result
            (λ room. room.peer ≡ peer_needed event.now (work_of self.now).state) }
        ensures ours { IfOk result
            (λ room. room.ours ≡ ours_needed event.now (work_of self.now).state) }
        ensures word { IfOk result
            (λ room. room.word ≡ word_needed event.now (work_of self.now).state) }
        ensures change { IfOk result
            (λ room. room.change ≡ wants (work_of self.now).state event.now) }
        ensures endings { IfOk result (λ room. is_open (work_of self.now).state ≡ true →
            EndsBy (foreseen event.now (work_of self.now).state) room.endings) }
    {
        let lines = self.lines_needed(event, own)?;
        let transaction = self.room_to_begin(alloc, event, own)?;
        let words = self.words_needed(event, own)?;
        let next = self.follows(alloc, event, own)?;
        Room::new(alloc, lines, transaction, words, next)
    }

    /// Makes a place for a connection or a transaction, where the event may add one.
    fn reserve(&mut self, event: &Event) -> Result<(), AllocError>
        ensures places { OnOk result (connections_for event.now ≤ self.new.connections.free) }
        ensures open { OnOk result (transactions_for event.now ≤ self.new.transactions.free) }
        ensures connections { (realm : ℕ) →
            of self.new.connections realm ≡ of self.old.connections realm }
        ensures transactions { (realm : ℕ) →
            of self.new.transactions realm ≡ of self.old.transactions realm }
        ensures rest { self.new ≡ record self.old
            { connections = self.new.connections; transactions = self.new.transactions } }
    {
        if opens(event) {
            return self.connections.reserve();
        }
        if begins_on(event).is_some() {
            return self.transactions.reserve();
        }
        Ok(())
    }

    /// Makes room for one part more on the transaction that may get one. What is seen of transactions stays.
    #[tactic(auto, using(crate::proofs::Needing::growing))]
    fn reserve_part(&mut self, event: &Event) -> Result<(), AllocError>
        requires here { self.old.realm < length self.old.heads.items }
        ensures part { OnOk result (MayJoin event.now (work_of self.new).state.head.name
            (of self.new.transactions self.new.realm)) }
        ensures transactions { (realm : ℕ) →
            map seen (of self.new.transactions realm) ≡ map seen (of self.old.transactions realm) }
        ensures free { self.new.transactions.free ≡ self.old.transactions.free }
        ensures rest { self.new ≡ record self.old { transactions = self.new.transactions } }
    {
        let Some(id) = joined_by(event) else {
            return Ok(());
        };
        let Some((_, place)) = self.identified(id) else {
            return Ok(());
        };
        let transaction = self.transactions.item_mut(place);
        transaction.txn.reserve()
    }

    /// What follows of the event: nothing in a realm that takes no entry.
    #[tactic(auto, using(crate::proofs::Foreseeing::wanting))]
    fn follows(
        &self,
        alloc: Global,
        event: &Event,
        own: Option<&Connection>,
    ) -> Result<Next, AllocError>
        requires here { self.now.realm < length self.now.heads.items }
        requires own { option_copied own ≡ own_of event.now (work_of self.now).state }
        ensures change { IfOk result
            (λ next. next.change ≡ wants (work_of self.now).state event.now) }
        ensures endings { IfOk result (λ next. is_open (work_of self.now).state ≡ true →
            EndsBy (foreseen event.now (work_of self.now).state) next.endings) }
    {
        if self.is_open() {
            self.foresee(alloc, event, own)
        } else {
            Ok(Next::nothing())
        }
    }

    /// Room for the transaction that the event may begin, where its realm takes an entry.
    #[tactic(auto, using(crate::proofs::Needing::beginning))]
    fn room_to_begin(
        &self,
        alloc: Global,
        event: &Event,
        own: Option<&Connection>,
    ) -> Result<Option<HeldRoom>, AllocError>
        requires here { self.now.realm < length self.now.heads.items }
        requires counts { HasCounts (work_of self.now).state }
        requires own { option_copied own ≡ own_of event.now (work_of self.now).state }
        ensures { is_open (work_of self.now).state ≡ true →
            IfOk result (λ room. room ≡ room_needed event.now (work_of self.now).state) }
    {
        if !self.is_open() {
            return Ok(None);
        }
        let Some(number) = begins_on(event) else {
            return Ok(None);
        };
        let Some(connection) = own else {
            return Ok(None);
        };
        if !self.has_room(connection.boxes.len()) {
            return Ok(None);
        }
        let key = self.next_key(number, connection.made);
        Ok(Some(self.room_for(alloc, key)?))
    }

    /// Copies of words, for what may be made of them.
    fn words_needed(&self, event: &Event, own: Option<&Connection>) -> Result<Words, AllocError>
        requires here { self.now.realm < length self.now.heads.items }
        requires own { option_copied own ≡ own_of event.now (work_of self.now).state }
        ensures peer { IfOk result
            (λ words. words.peer ≡ peer_needed event.now (work_of self.now).state) }
        ensures ours { IfOk result
            (λ words. words.ours ≡ ours_needed event.now (work_of self.now).state) }
        ensures word { IfOk result
            (λ words. words.word ≡ word_needed event.now (work_of self.now).state) }
    {
        Ok(Words {
            peer: self.peer_needed(event, own)?,
            ours: self.ours_needed(event)?,
            word: self.word_needed(event, own)?,
        })
    }

    /// The identifier that goes into a question.
    fn word_needed(&self, event: &Event, own: Option<&Connection>) -> Result<Option<Id>, AllocError>
        requires here { self.now.realm < length self.now.heads.items }
        requires own { option_copied own ≡ own_of event.now (work_of self.now).state }
        ensures { IfOk result (λ word. word ≡ word_needed event.now (work_of self.now).state) }
    {
        match event {
            Event::Line { .. } => self.word_on(own),
            Event::AskPull { seat: _, superior } => Ok(Some(superior.copy()?)),
            Event::Open { .. }
            | Event::Dial { .. }
            | Event::Voted(_)
            | Event::Settled(_)
            | Event::Lost { .. }
            | Event::AskPush { .. }
            | Event::Resume { .. } => Ok(None),
        }
    }

    /// The identifier that is said once a connection is identified, if it was opened to say one.
    fn word_on(&self, own: Option<&Connection>) -> Result<Option<Id>, AllocError>
        requires here { self.now.realm < length self.now.heads.items }
        ensures { IfOk result (λ word. word ≡ option_and_then
            (λ connection. word_for connection.awaited (work_of self.now).state)
            (option_copied own.entry)) }
    {
        match own {
            Some(connection) => self.word_awaited(&connection.awaited),
            None => Ok(None),
        }
    }

    /// The identifier that is said once a connection is identified that awaits this.
    fn word_awaited(&self, awaited: &Option<Awaited>) -> Result<Option<Id>, AllocError>
        requires { self.now.realm < length self.now.heads.items }
        ensures { IfOk result (λ word. word ≡ word_for awaited.now (work_of self.now).state) }
    {
        match awaited {
            Some(Awaited::Identify(Purpose::Query(id))) => self.superior_word(id),
            Some(Awaited::Identify(Purpose::Reconnect(id, number))) => {
                self.subordinate_word(id, *number)
            }
            _ => Ok(None),
        }
    }

    /// What the superior knows the transaction of an identifier by.
    #[tactic(auto, using(crate::proofs::Purposes::superior_wording))]
    fn superior_word(&self, id: &Id) -> Result<Option<Id>, AllocError>
        requires { self.now.realm < length self.now.heads.items }
        ensures { IfOk result
            (λ word. word ≡ superior_of (identified_by id.now (work_of self.now).state)) }
    {
        match self.identified(id) {
            Some((key, place)) => superior_in(&self.at(key, place).origin),
            None => Ok(None),
        }
    }

    /// What the subordinate of a number knows the transaction of an identifier by.
    #[tactic(auto, using(crate::proofs::Aims::subordinate_wording))]
    fn subordinate_word(&self, id: &Id, number: u32) -> Result<Option<Id>, AllocError>
        requires { self.now.realm < length self.now.heads.items }
        ensures { IfOk result
            (λ word. word ≡ named_of number (identified_by id.now (work_of self.now).state)) }
    {
        match self.identified(id) {
            Some((key, place)) => subordinate_in(self.at(key, place), number),
            None => Ok(None),
        }
    }

    /// Where we are, for a connection that the event opens.
    fn ours_needed(&self, event: &Event) -> Result<Option<Address>, AllocError>
        requires { self.now.realm < length self.now.heads.items }
        ensures { IfOk result (λ ours. ours ≡ ours_needed event.now (work_of self.now).state) }
    {
        match event {
            Event::Dial { .. } => Ok(Some(self.heads[self.realm].address.copy()?)),
            Event::Open { .. }
            | Event::Line { .. }
            | Event::Voted(_)
            | Event::Settled(_)
            | Event::Lost { .. }
            | Event::AskPush { .. }
            | Event::AskPull { .. }
            | Event::Resume { .. } => Ok(None),
        }
    }

    /// Where the other side of the event's connection is, for what may be made of it.
    fn peer_needed(
        &self,
        event: &Event,
        own: Option<&Connection>,
    ) -> Result<Option<Address>, AllocError>
        requires own { option_copied own ≡ own_of event.now (work_of self.now).state }
        ensures { IfOk result (λ peer. peer ≡ peer_needed event.now (work_of self.now).state) }
    {
        match event {
            Event::Line { .. } | Event::AskPush { .. } | Event::AskPull { .. } => peer_on(own),
            Event::Dial {
                address,
                purpose: _,
                boxes: _,
            } => Ok(Some(address.copy()?)),
            Event::Open { .. }
            | Event::Voted(_)
            | Event::Settled(_)
            | Event::Lost { .. }
            | Event::Resume { .. } => Ok(None),
        }
    }

    /// How many lines and closings the answer may need: one for each connection on the transaction, and two on the event's own.
    /// An error is that no memory has room for so many.
    fn lines_needed(&self, event: &Event, own: Option<&Connection>) -> Result<usize, AllocError>
        requires here { self.now.realm < length self.now.heads.items }
        requires own { option_copied own ≡ own_of event.now (work_of self.now).state }
        ensures { IfOk result (λ lines. lines ≡ lines_needed event.now (work_of self.now).state) }
    {
        match event {
            Event::Line { .. } => self.lines_of_line(own),
            Event::Voted(party) => Ok(self.lines_of(party)),
            Event::Settled(party) => Ok(self.lines_of(party)),
            Event::Lost { .. } => Ok(self.lines_on(own)),
            Event::Dial { .. } | Event::AskPush { .. } | Event::AskPull { .. } => Ok(1),
            Event::Open { .. } | Event::Resume { .. } => Ok(0),
        }
    }

    /// How many lines and closings the answer to a line on a connection may need: the transaction that it asks for may be another
    /// than its own.
    fn lines_of_line(&self, own: Option<&Connection>) -> Result<usize, AllocError>
        ensures { IfOk result (λ lines. lines ≡ lines_on (option_copied own.entry) (work_of self.now).state
            + (lines_asked (option_copied own.entry) (work_of self.now).state + 2)) }
    {
        let asked = self.lines_asked(own).checked_add(2).ok_or(AllocError)?;
        self.lines_on(own).checked_add(asked).ok_or(AllocError)
    }

    /// How many connections are on the transaction that a connection asks for.
    fn lines_asked(&self, own: Option<&Connection>) -> usize
        ensures { result ≡ lines_asked (option_copied own.entry) (work_of self.now).state }
    {
        match own {
            Some(connection) => self.lines_awaited(&connection.awaited),
            None => 0,
        }
    }

    /// How many connections are on the transaction that one asks for which awaits this.
    fn lines_awaited(&self, awaited: &Option<Awaited>) -> usize
        ensures { result ≡ option_map_or (λ key. lines_for key (work_of self.now).state)
            (key_queried awaited.now) 0 }
    {
        match key_queried(awaited) {
            Some(key) => self.lines_for(key),
            None => 0,
        }
    }

    /// How many connections are on the transaction that gave a party out.
    #[tactic(auto, using(crate::proofs::Needing::counting))]
    fn lines_of(&self, party: &HeldParty) -> usize
        requires { self.now.realm < length self.now.heads.items }
        ensures { result
            ≡ lines_of (owner party.now (work_of self.now).state) (work_of self.now).state }
    {
        match self.owner(party) {
            Some((key, _)) => self.lines_for(key),
            None => 0,
        }
    }

    /// How many connections are on the transaction that a connection is on.
    fn lines_on(&self, own: Option<&Connection>) -> usize
        ensures { result ≡ lines_on (option_copied own.entry) (work_of self.now).state }
    {
        match own {
            Some(connection) => self.lines_as(connection.role),
            None => 0,
        }
    }

    /// How many connections are on the transaction that one of this role is on.
    fn lines_as(&self, role: Option<Role>) -> usize
        ensures { result ≡ lines_as role (work_of self.now).state }
    {
        match role {
            Some(role) => self.lines_with(role),
            None => 0,
        }
    }

    /// How many connections are on the transaction that a connection in this role is on.
    fn lines_with(&self, role: Role) -> usize
        ensures { result ≡ lines_as (Some role) (work_of self.now).state }
    {
        match role {
            Role::Superior(key) => self.lines_for(key),
            Role::Subordinate { key, part: _ } => self.lines_for(key),
        }
    }

    /// How many connections are on the transaction of a key.
    fn lines_for(&self, key: Key) -> usize
        ensures { result ≡ lines_for key (work_of self.now).state }
    {
        self.connections.count_passing(self.realm, &OnKey { key })
    }
}

/// The transaction that a connection asks for on which this is awaited.
pub(crate) fn key_queried(awaited: &Option<Awaited>) -> Option<Key>
    ensures { result ≡ key_queried awaited.now }
{
    match awaited {
        Some(Awaited::Query(key)) => Some(*key),
        _ => None,
    }
}

/// Where the other side of a connection is.
fn peer_on(own: Option<&Connection>) -> Result<Option<Address>, AllocError>
    ensures { IfOk result
        (λ peer. peer ≡ option_and_then (λ connection. connection.peer) (option_copied own.entry)) }
{
    match own {
        Some(connection) => copy_of(&connection.peer),
        None => Ok(None),
    }
}

/// The number of the connection that an event comes on.
fn number_in(event: &Event) -> Option<u32>
    ensures { result ≡ number_in event.now }
{
    match event {
        Event::Line { seat, .. }
        | Event::Lost { seat }
        | Event::AskPush { seat, .. }
        | Event::AskPull { seat, .. } => Some(seat.number),
        Event::Open { .. }
        | Event::Dial { .. }
        | Event::Voted(_)
        | Event::Settled(_)
        | Event::Resume { .. } => None,
    }
}

/// A copy of the address that there may be.
fn copy_of(address: &Option<Address>) -> Result<Option<Address>, AllocError>
    ensures { IfOk result (λ copy. copy ≡ address.now) }
{
    match address {
        Some(address) => Ok(Some(address.copy()?)),
        None => Ok(None),
    }
}

/// The identifier of a transaction at its superior.
fn superior_in(origin: &Origin) -> Result<Option<Id>, AllocError>
    ensures { IfOk result (λ word. word ≡ superior_in origin.now) }
{
    match origin {
        Origin::Root => Ok(None),
        Origin::Subordinate {
            address: _,
            superior,
        } => Ok(Some(superior.copy()?)),
    }
}

/// The identifier that the subordinate of a number gave.
#[tactic(auto, using(crate::proofs::Aims::naming))]
fn subordinate_in(transaction: &Transaction, number: u32) -> Result<Option<Id>, AllocError>
    ensures { IfOk result (λ word. word ≡ named_in number (seen transaction.now)) }
{
    match subordinate_of(transaction, number) {
        Some((_, participant)) => copy_of_id(&participant.id),
        None => Ok(None),
    }
}

/// A copy of the identifier that there may be.
fn copy_of_id(id: &Option<Id>) -> Result<Option<Id>, AllocError>
    ensures { IfOk result (λ copy. copy ≡ id.now) }
{
    match id {
        Some(id) => Ok(Some(id.copy()?)),
        None => Ok(None),
    }
}

/// Whether an event may add a connection.
fn opens(event: &Event) -> bool
    ensures { connections_for event.now ≡ (if result then 1 else 0) }
{
    matches!(event, Event::Open { .. } | Event::Dial { .. })
}

/// The identifier of the transaction that may get a part more.
fn joined_by(event: &Event) -> Option<&Id>
    ensures { option_copied result ≡ joined_by event.now }
{
    match event {
        Event::Line {
            seat: _,
            heard: Heard::Command(
                Command::Pull {
                    superior,
                    subordinate: _,
                },
            ),
        } => Some(superior),
        Event::AskPush { seat: _, id } => Some(id),
        _ => None,
    }
}

/// The number of the connection on which the event may begin a transaction.
fn begins_on(event: &Event) -> Option<u32>
    ensures { result ≡ begins_on event.now }
{
    match event {
        Event::Line {
            seat,
            heard: Heard::Command(Command::Begin | Command::Push { .. }),
        } => Some(seat.number),
        Event::AskPull { seat, superior: _ } => Some(seat.number),
        _ => None,
    }
}
