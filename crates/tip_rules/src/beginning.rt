//! Transactions that begin (RFC 2371, section 13, BEGIN and PUSH).
ghost use Rattle.std.specs.Prelude.{◌≡◌, ◌+◌, ◌≤◌, ◌<◌, ◌&&◌, Some, length, nat_le, nat_lt, take};
ghost use Rattle.tip_branch.specs.Members.{fresh_members};
ghost use Rattle.tip_branch.specs.Notes.{idle_party};
ghost use Rattle.tip_table.specs.Kept.{StandsAt};
ghost use Rattle.tip_machine.specs.Changes.{change};
ghost use Rattle.tip_machine.specs.Commands.{begin, make, making, push, push_new};
ghost use Rattle.tip_machine.specs.Connections.{has_number};
ghost use Rattle.tip_machine.specs.States.{connection_of};
ghost use Rattle.tip_machine.specs.Transactions.{next_key};
ghost use Rattle.tip_machine.specs.Types.{seen, Connection as AConnection};
ghost use Rattle.tip_rules.specs.Rooms.{room_for};
ghost use Rattle.tip_rules.specs.Works.{beginning, Does, key_where_room, make_where_room, MayMake, peer_of, work_of};

use crate::making::Making;
use crate::transaction_room::TransactionRoom;
use crate::work::Work;
use tip_branch::{HeldParty, PartyRoom};
use tip_line::{CommandName, Id, Realm};
use tip_machine::{Connection, Origin, PartyPlace, Role, Said, Transaction};
use tip_rows::Key;

impl Work<Connection, Transaction, Making> {
    /// BEGIN: a transaction of our own, where the realm has room.
    pub fn begin(&mut self, number: u32, place: usize)
        requires here { self.old.realm < length self.old.heads.items }
        requires stands { StandsAt self.old.connections self.old.realm (has_number number) place }
        requires able { MayMake number self.old }
        requires lines { 0 < self.old.making.free }
        ensures { (connection : AConnection) →
            connection_of number (work_of self.old).state ≡ Some connection →
            Does self.old self.new (begin connection (work_of self.old)) }
    {
        match self.make_where_room(number, place, Origin::Root) {
            Some(key) => self.reply(number, place, CommandName::Begin, Said::Begun(key)),
            None => self.reply(number, place, CommandName::Begin, Said::NotBegun),
        }
    }

    /// PUSH: the part that is there already, or a new one.
    #[tactic(auto, using(crate::proofs::Beginnings::pushes))]
    pub fn push(&mut self, number: u32, place: usize, superior: Id)
        requires here { self.old.realm < length self.old.heads.items }
        requires stands { StandsAt self.old.connections self.old.realm (has_number number) place }
        requires able { MayMake number self.old }
        requires peer { self.old.making.peer ≡ peer_of number (work_of self.old).state }
        requires lines { 0 < self.old.making.free }
        ensures { (connection : AConnection) →
            connection_of number (work_of self.old).state ≡ Some connection →
            Does self.old self.new (push superior connection (work_of self.old)) }
    {
        let connection = self.connection(number, place);
        match self.known(&connection.peer, &superior) {
            Some(key) => self.reply(number, place, CommandName::Push, Said::AlreadyPushed(key)),
            None => self.push_new(number, place, superior),
        }
    }

    /// PUSH of a transaction that is not known: it becomes a part of the primary's, where the realm has room.
    fn push_new(&mut self, number: u32, place: usize, superior: Id)
        requires here { self.old.realm < length self.old.heads.items }
        requires stands { StandsAt self.old.connections self.old.realm (has_number number) place }
        requires able { MayMake number self.old }
        requires peer { self.old.making.peer ≡ peer_of number (work_of self.old).state }
        requires lines { 0 < self.old.making.free }
        ensures { (connection : AConnection) →
            connection_of number (work_of self.old).state ≡ Some connection →
            Does self.old self.new (push_new superior connection (work_of self.old)) }
    {
        let address = self.making.take_peer();
        let origin = Origin::Subordinate { address, superior };
        match self.make_where_room(number, place, origin) {
            Some(key) => self.reply(number, place, CommandName::Push, Said::Pushed(key)),
            None => self.reply(number, place, CommandName::Push, Said::NotPushed),
        }
    }

    /// A transaction is made on a connection, of its first boxes, where the realm has room. Its key is given.
    #[tactic(auto, using(crate::proofs::Beginnings::making_where_room))]
    pub(crate) fn make_where_room(
        &mut self,
        number: u32,
        place: usize,
        origin: Origin,
    ) -> Option<Key>
        requires here { self.old.realm < length self.old.heads.items }
        requires stands { StandsAt self.old.connections self.old.realm (has_number number) place }
        requires able { MayMake number self.old }
        ensures key { (connection : AConnection) →
            connection_of number (work_of self.old).state ≡ Some connection →
            result ≡ key_where_room connection (work_of self.old).state }
        ensures does { (connection : AConnection) →
            connection_of number (work_of self.old).state ≡ Some connection →
            Does self.old self.new (make_where_room origin connection (work_of self.old)) }
        ensures stands { StandsAt self.new.connections self.new.realm (has_number number) place }
        ensures lines { self.new.making.free ≡ self.old.making.free }
    {
        let connection = self.connection(number, place);
        let made = connection.made;
        if !self.has_room(connection.boxes.len()) {
            return None;
        }
        let key = self.next_key(number, made);
        self.make(number, place, key, origin);
        Some(key)
    }

    /// Whether a transaction is free, and so many boxes are enough for each branch to have one.
    #[tactic(auto, using(crate::proofs::Beginnings::room))]
    pub(crate) fn has_room(&self, boxes: usize) -> bool
        requires { self.now.realm < length self.now.heads.items }
        ensures { result ≡ (nat_lt (length (work_of self.now).state.transactions)
            (work_of self.now).state.head.limits.transactions
            && nat_le (length (work_of self.now).state.head.branches) boxes) }
    {
        let head = &self.heads[self.realm];
        self.transactions.count(self.realm) < head.limits.transactions as usize
            && head.branches.as_slice().len() <= boxes
    }

    /// The key of the next transaction on a connection of this number, on which so many were made.
    #[tactic(auto, using(crate::proofs::Beginnings::keys))]
    pub(crate) fn next_key(&self, number: u32, made: u32) -> Key
        requires here { self.now.realm < length self.now.heads.items }
        requires epoch { 0 < (work_of self.now).state.head.epoch }
        requires number { 0 < number }
        requires made { made < (work_of self.now).state.head.limits.entries }
        ensures { result ≡ record {
          epoch = (work_of self.now).state.head.epoch;
          connection = number;
          number = made + 1;
        } }
    {
        let head = &self.heads[self.realm];
        let _most = head.limits.entries;
        match Key::new(head.epoch, number, made + 1) {
            Some(key) => key,
            None => unreachable!(),
        }
    }

    /// A transaction is made on a connection, of its first boxes. The key is its next one.
    fn make(&mut self, number: u32, place: usize, key: Key, origin: Origin)
        requires stands { StandsAt self.old.connections self.old.realm (has_number number) place }
        requires key { (connection : AConnection) →
            connection_of number (work_of self.old).state ≡ Some connection →
            key ≡ next_key (work_of self.old).state.head connection }
        requires boxes { (connection : AConnection) →
            connection_of number (work_of self.old).state ≡ Some connection →
            length (work_of self.old).state.head.branches ≤ length connection.boxes }
        requires room { self.old.making.room ≡ Some (room_for (work_of self.old).state.head key) }
        requires free { 0 < self.old.transactions.free }
        ensures does { (connection : AConnection) →
            connection_of number (work_of self.old).state ≡ Some connection →
            Does self.old self.new (make origin connection (work_of self.old)) }
        ensures stands { StandsAt self.new.connections self.new.realm (has_number number) place }
    {
        let room = self.making.take_room();
        let TransactionRoom {
            name,
            id,
            branches,
            party,
            txn,
        } = room;
        let party = self.give_boxes(number, place, key, party, name, id);
        self.add(Transaction {
            key,
            origin,
            place: PartyPlace::Here(party),
            branches,
            txn,
        });
    }

    /// A connection gives its first boxes for the transaction of a key; its other end is the superior.
    #[tactic(auto, using(crate::proofs::Beginnings::giving))]
    fn give_boxes(
        &mut self,
        number: u32,
        place: usize,
        key: Key,
        room: PartyRoom,
        name: Realm,
        id: Id,
    ) -> HeldParty
        requires stands { StandsAt self.old.connections self.old.realm (has_number number) place }
        requires boxes { (connection : AConnection) →
            connection_of number (work_of self.old).state ≡ Some connection →
            room ≤ length connection.boxes }
        requires made { (connection : AConnection) →
            connection_of number (work_of self.old).state ≡ Some connection →
            key.number ≡ connection.made + 1 }
        ensures party { (connection : AConnection) →
            connection_of number (work_of self.old).state ≡ Some connection →
            result ≡ idle_party name key.epoch id (fresh_members 1 (take room connection.boxes)) }
        ensures does { Does self.old self.new (change number (making room key) (work_of self.old)) }
        ensures stands { StandsAt self.new.connections self.new.realm (has_number number) place }
        ensures rest { self.new ≡ record self.old { connections = self.new.connections } }
    {
        let connection = self.connections.item_mut(place);
        connection.made = key.number();
        connection.role = Some(Role::Superior(key));
        connection.boxes.take_party(room, name, key.epoch(), id)
    }

    /// A transaction joins the realm's, in room that is there.
    #[tactic(auto, using(crate::proofs::Openings::beginning_one))]
    fn add(&mut self, transaction: Transaction)
        requires { 0 < self.old.transactions.free }
        ensures does { Does self.old self.new (beginning (seen transaction) (work_of self.old)) }
        ensures rest { self.new ≡ record self.old { transactions = self.new.transactions } }
    {
        self.transactions.add(self.realm, transaction);
    }
}
