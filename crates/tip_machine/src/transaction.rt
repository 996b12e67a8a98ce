//! An open transaction of a realm.
ghost use Rattle.tip_machine.specs.Connections.{IsInRange, link_of};

use crate::connection::link_of;
use tip_branch::{Errand, HeldParty};
use tip_line::{Address, Id};
use tip_rows::{Branches, Key};
use tip_table::Linked;
use tip_txn::Txn;

/// Where a transaction comes from.
#[derive(Drop)]
pub enum Origin {
    /// It was begun here, and whoever began it decides.
    Root,
    /// It is a part of a superior's transaction of this identifier, at this address if the superior said one.
    Subordinate {
        address: Option<Address>,
        superior: Id,
    },
}

/// Where the party of a transaction is. `P` is how it is held.
#[derive(Drop)]
pub enum PartyPlace<P = HeldParty> {
    /// With the transaction.
    Here(P),
    /// Given out for an errand.
    Out(Errand),
    /// Done, and let go.
    Spent,
}

/// An open transaction. It knows no connection: each connection knows the transaction that it is on.
#[derive(Drop)]
pub struct Transaction<P = HeldParty> {
    pub key: Key,
    pub origin: Origin,
    pub place: PartyPlace<P>,
    /// Its local branches, each with its label, as a row names them.
    pub branches: Branches,
    /// Its identifier, its phase, and its parts with their answers.
    pub txn: Txn,
}

/// It is found by its own number.
impl<P> Linked for Transaction<P> {
    ghost use Rattle.std.specs.Prelude.{Some};

    ghost link = { λ transaction. Some (link_of transaction.key) };

    ghost fits = { λ transaction. IsInRange transaction.key };

    fn link(&self) -> Option<u128> {
        Some(link_of(self.key))
    }
}
