//! Lines that come on the connections of a realm, and wait until they may be taken.
ghost use Rattle.std.specs.Prelude.{◌≡◌, false, IfOk, OnOk, Some, string_bytes};
ghost use Rattle.tip_core.specs.Hosted.{realm as realm_at};
ghost use Rattle.tip_machine.specs.States.{State};
ghost use Rattle.tip_branch.specs.Always.{Always};
ghost use Rattle.tip_actor.specs.Acting.{Acting, Reading, count_of, takes};
ghost use Rattle.tip_actor.specs.Halting.{Halts, taken};
ghost use Rattle.tip_actor.specs.Standing.{Acts, Finds, GivesNext, IsActing, IsActor, IsReading};

use crate::actor::Actor;
use crate::fault::ActFault;
use std::alloc::{AllocError, Global};
use tip_core::Core;
use tip_machine::Event;
use tip_rows::RowLog;
use tip_stored::{PartyOut, StoredCore};

impl Actor<PartyOut> {
    /// Lines are taken, one after another, until none may be taken.
    pub fn settle<S: RowLog>(
        &mut self,
        alloc: Global,
        stored_core: &mut StoredCore<S>,
        place: usize,
        printed: &mut String,
    ) -> Result<(), ActFault>
        requires always { Always }
        requires running { stored_core.old.is_stopped ≡ false }
        ensures truth { S.keeping.is_true stored_core.new.store →
            S.keeping.is_true stored_core.old.store }
        ensures running { stored_core.new.is_stopped ≡ false }
        ensures acts { OnOk result (Acts S.keeping stored_core.old stored_core.new
            place self.old self.new (string_bytes printed.old) (string_bytes printed.new)
            (λ acting. takes (count_of acting.readings) acting)) }
        ensures halts { (acting : Acting) →
            IsActing S.keeping stored_core.old place self.old acting →
            Halts S.keeping stored_core.old.store stored_core.new.store self.old.name
            (taken acting) }
    {
        for _ in 0..u64::MAX {
            match self.next_line(alloc, &stored_core.core, place)? {
                Some(event) => self.happen(alloc, stored_core, place, event, printed)?,
                None => return Ok(()),
            };
        }
        // no memory holds so many lines
        Err(ActFault::Memory)
    }

    /// The next line that may be taken, of the first connection that has one. It is taken out of its reader.
    pub(crate) fn next_line(
        &mut self,
        alloc: Global,
        core: &Core,
        place: usize,
    ) -> Result<Option<Event>, AllocError>
        requires { Always }
        ensures { (acting : Acting) → realm_at core.now place ≡ Some acting.world.state →
            IsActor self.old acting → IfOk result (Finds self.new acting) }
    {
        self.readers.next(alloc, core, place)
    }
}
