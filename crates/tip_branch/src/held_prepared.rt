//! Prepared boxes as plain data, for all that lies above this crate.
//!
//! No clause sees the boxes here, so each body moves one value and does nothing else: what becomes of
//! the boxes is said by `Lot` and by `Party::of_ready`.

ghost use Rattle.std.specs.Prelude.{◌≡◌, ◌==◌, IfOk, IsTrue, length};
ghost use Rattle.tip_branch.specs.Always.{Always};
ghost use Rattle.tip_branch.specs.Members.{are_numbers, ready_members};
ghost use Rattle.tip_branch.specs.declared.branch.Phase.TheVariants.{Ready};

use crate::branch::Badge;
use crate::held_party::HeldParty;
use crate::lot::Lot;
use crate::party::Party;
use crate::party_room::NotesRoom;
use std::alloc::{AllocError, Global};
use std::marker::Model;
use tip_line::{Id, Realm};

/// Prepared boxes, seen as the list of what each is known by.
#[derive(Drop)]
pub struct HeldPrepared {
    lot: Lot,
}

impl Model for HeldPrepared {
    ghost use Rattle.std.specs.Prelude.{List, ◌≡◌};
    ghost use Rattle.tip_branch.specs.declared.branch.Badge.{Badge};
    ghost use Rattle.tip_branch.specs.declared.branch.Phase.TheVariants.{Ready};

    ghost Value = { List Badge };

    ghost use Rattle.tip_branch.specs.Lots.{badges};

    ghost view = { λ h. badges h.lot };

    ghost invariant = { λ h. h.lot.phase ≡ Ready };
}

impl HeldPrepared {
    ghost use Rattle.tip_branch.specs.Lots.{badges};
    ghost use Rattle.tip_branch.specs.Notes.{idle_party};

    pub fn of(lot: Lot) -> HeldPrepared
        requires { lot.phase ≡ Ready }
        ensures { result ≡ badges lot }
    {
        HeldPrepared { lot }
    }

    /// How many boxes there are.
    pub fn len(&self) -> usize
        ensures { result ≡ length self.now }
    {
        self.lot.len()
    }

    pub fn is_empty(&self) -> bool
        ensures { result ≡ (length self.now == 0) }
    {
        self.lot.is_empty()
    }

    /// What each box is known by, in order, copied.
    pub fn badges(&self, alloc: Global) -> Result<Vec<Badge>, AllocError>
        ensures { IfOk result (λ known. known.items ≡ self.now) }
    {
        self.lot.known(alloc)
    }

    /// The boxes as the party of a transaction that is taken up again.
    pub fn into_party(
        self,
        notes: NotesRoom,
        realm: Realm,
        epoch: u32,
        id: Id,
        numbers: &[u8],
    ) -> HeldParty
        requires counted { length numbers.now ≡ length self }
        requires rising { IsTrue (are_numbers numbers.now) }
        ensures { result ≡ idle_party realm epoch id (ready_members numbers.now self) }
    {
        let HeldPrepared { lot } = self;
        HeldParty::of(Party::of_ready(lot, notes, realm, epoch, id, numbers))
    }

    /// The boxes handed back.
    pub fn into_lot(self) -> Lot
        requires { Always }
        ensures known { badges result ≡ self }
        ensures phase { result.phase ≡ Ready }
    {
        let HeldPrepared { lot } = self;
        lot
    }
}
