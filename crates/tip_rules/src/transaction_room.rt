//! Room for a new transaction.
ghost use Rattle.std.specs.Prelude.{◌≡◌, ◌<◌, IfOk, length};
ghost use Rattle.tip_rules.specs.Rooms.{room_for};
ghost use Rattle.tip_rules.specs.Works.{work_of};

use crate::making::Making;
use crate::work::Work;
use std::alloc::{AllocError, Global};
use std::marker::Model;
use tip_branch::PartyRoom;
use tip_line::{Id, Realm};
use tip_machine::{Connection, Transaction};
use tip_rows::{Branches, Key};
use tip_txn::Txn;

/// All the memory that a new transaction takes, made before it begins. `P` is how the room of its party is seen.
#[derive(Drop)]
pub struct TransactionRoom<P = PartyRoom> {
    pub name: Realm,
    pub id: Id,
    pub branches: Branches,
    pub party: P,
    pub txn: Txn,
}

/// Room for a new transaction on the heap, since few events have one: so what it would be moved with is small.
#[derive(Drop)]
pub struct HeldRoom {
    room: Box<TransactionRoom>,
}

impl Model for HeldRoom {
    ghost use Rattle.tip_rules.specs.Rooms.{TransactionRoom};

    ghost Value = { TransactionRoom };

    ghost view = { λ h. h.room.value };
}

impl HeldRoom {
    fn new(alloc: Global, room: TransactionRoom) -> Result<HeldRoom, AllocError>
        ensures { IfOk result (λ held. held ≡ room) }
    {
        Ok(HeldRoom {
            room: Box::new(alloc, room)?,
        })
    }

    pub(crate) fn into_inner(self) -> TransactionRoom
        ensures { result ≡ self }
    {
        Box::into_inner(self.room)
    }
}

impl Work<Connection, Transaction, Making> {
    /// Room for the transaction of a key in the realm at hand.
    #[tactic(auto, using(crate::proofs::Rooms::few))]
    pub(crate) fn room_for(&self, alloc: Global, key: Key) -> Result<HeldRoom, AllocError>
        requires { self.now.realm < length self.now.heads.items }
        ensures { IfOk result (λ room. room ≡ room_for (work_of self.now).state.head key) }
    {
        let head = &self.heads[self.realm];
        let branches = head.branches.copy(alloc)?;
        let count = branches.as_slice().len() as u8;
        let room = TransactionRoom {
            name: head.name.copy()?,
            id: Id::of(
                alloc,
                &head.name,
                key.epoch(),
                key.connection(),
                key.number(),
            )?,
            branches,
            party: PartyRoom::new(alloc, count)?,
            txn: Txn::new(alloc),
        };
        HeldRoom::new(alloc, room)
    }
}
