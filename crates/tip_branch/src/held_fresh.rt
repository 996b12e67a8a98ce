//! Fresh boxes as plain data, for all that lies above this crate.
//!
//! No clause sees the boxes here, so each body moves one value and does nothing else: what becomes of
//! the boxes is said by `Lot` and by `Party::of_first`.

ghost use Rattle.std.specs.Prelude.{◌≡◌, ◌≤◌, ◌==◌, [], IfOk, length, take, drop};
ghost use Rattle.tip_branch.specs.Always.{Always};
ghost use Rattle.tip_branch.specs.Members.{fresh_members};
ghost use Rattle.tip_branch.specs.declared.branch.Phase.TheVariants.{Active};

use crate::branch::{Badge, Phase};
use crate::held_party::HeldParty;
use crate::lot::Lot;
use crate::party::Party;
use crate::party_room::PartyRoom;
use std::alloc::{AllocError, Global};
use std::marker::Model;
use tip_line::{Id, Realm};

/// Fresh boxes, seen as the list of what each is known by.
#[derive(Drop)]
pub struct HeldFresh {
    lot: Lot,
}

impl Model for HeldFresh {
    ghost use Rattle.std.specs.Prelude.{List, ◌≡◌};
    ghost use Rattle.tip_branch.specs.declared.branch.Badge.{Badge};
    ghost use Rattle.tip_branch.specs.declared.branch.Phase.TheVariants.{Active};

    ghost Value = { List Badge };

    ghost use Rattle.tip_branch.specs.Lots.{badges};

    ghost view = { λ h. badges h.lot };

    ghost invariant = { λ h. h.lot.phase ≡ Active };
}

impl HeldFresh {
    ghost use Rattle.tip_branch.specs.Lots.{badges};
    ghost use Rattle.tip_branch.specs.Notes.{idle_party};

    pub fn of(lot: Lot) -> HeldFresh
        requires { lot.phase ≡ Active }
        ensures { result ≡ badges lot }
    {
        HeldFresh { lot }
    }

    /// No boxes, which takes no memory.
    pub fn none(alloc: Global) -> HeldFresh
        requires { Always }
        ensures { result ≡ [] }
    {
        HeldFresh {
            lot: Lot::empty(alloc, Phase::Active),
        }
    }

    /// How many boxes there are.
    pub fn len(&self) -> usize
        ensures { result ≡ length self.now }
    {
        self.lot.len()
    }

    pub fn is_empty(&self) -> bool
        ensures { result ≡ (length self.now == 0) }
    {
        self.lot.is_empty()
    }

    /// What each box is known by, in order, copied.
    pub fn badges(&self, alloc: Global) -> Result<Vec<Badge>, AllocError>
        ensures { IfOk result (λ known. known.items ≡ self.now) }
    {
        self.lot.known(alloc)
    }

    /// Takes the first boxes as the party of a new transaction.
    pub fn take_party(&mut self, room: PartyRoom, realm: Realm, epoch: u32, id: Id) -> HeldParty
        requires { room ≤ length self.old }
        ensures party { result ≡ idle_party realm epoch id (fresh_members 1 (take room self.old)) }
        ensures rest { self.new ≡ drop room self.old }
    {
        HeldParty::of(Party::of_first(&mut self.lot, room, realm, epoch, id))
    }

    /// The boxes that are left.
    pub fn into_lot(self) -> Lot
        requires { Always }
        ensures known { badges result ≡ self }
        ensures phase { result.phase ≡ Active }
    {
        let HeldFresh { lot } = self;
        lot
    }
}
