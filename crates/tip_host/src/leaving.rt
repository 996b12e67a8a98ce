//! What a realm would let go.
ghost use Rattle.std.specs.Prelude.{◌≡◌, ◌≢◌, [], None, Some, IfOk};
ghost use Rattle.std.specs.List.{flat_map};
ghost use Rattle.tip_branch.specs.Always.{Always};
ghost use Rattle.tip_core.specs.Hosted.{realm as realm_at};
ghost use Rattle.tip_machine.specs.Moves.{drops_here};
ghost use Rattle.tip_machine.specs.Outputs.{drops_of};
ghost use Rattle.tip_machine.specs.States.{State};

use crate::host::Host;
use std::alloc::{AllocError, Global};
use tip_branch::PartyNote;
use tip_core::Core;
use tip_machine::PartyPlace;
use tip_rows::RowLog;

impl<S: RowLog + Drop> Host<S> {
    /// The parties that a realm has and that are not out, in order of their transactions: were it to start again, their active
    /// branches would be rolled back. None of a realm that is not there.
    pub fn drops(&self, alloc: Global, realm: usize) -> Result<Vec<PartyNote>, AllocError>
        requires { Always }
        ensures here { (state : State) → realm_at self.now.stored.core realm ≡ Some state →
            IfOk result (λ notes. flat_map drops_of notes.items ≡ drops_here state) }
        ensures nowhere { realm_at self.now.stored.core realm ≡ None →
            IfOk result (λ notes. notes.items ≡ []) }
    {
        match self.epoch(realm) {
            Some(_) => notes_here(alloc, &self.stored.core, realm),
            None => Ok(Vec::new(alloc)),
        }
    }
}

/// What is noted of the parties that a realm has and that are not out.
fn notes_here(alloc: Global, core: &Core, realm: usize) -> Result<Vec<PartyNote>, AllocError>
    requires { realm_at core.now realm ≢ None }
    ensures { (state : State) → realm_at core.now realm ≡ Some state →
        IfOk result (λ notes. flat_map drops_of notes.items ≡ drops_here state) }
{
    let mut notes = Vec::new(alloc);
    for transaction in core.transactions(realm) {
        if let PartyPlace::Here(party) = &transaction.place {
            notes.push(PartyNote::of(alloc, party)?)?;
        }
    }
    Ok(notes)
}
