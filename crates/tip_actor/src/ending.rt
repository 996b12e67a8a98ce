//! A realm whose process ends, and starts again.
ghost use Rattle.std.specs.Prelude.{◌≡◌, ◌++◌, [], OnOk, Some, string_bytes};
ghost use Rattle.std.specs.List.{flat_map};
ghost use Rattle.tip_branch.specs.Always.{Always};
ghost use Rattle.tip_core.specs.Hosted.{realm as realm_at};
ghost use Rattle.tip_machine.specs.Moves.{drops_at};
ghost use Rattle.tip_machine.specs.Outputs.{drops_of};
ghost use Rattle.tip_machine.specs.States.{State};
ghost use Rattle.tip_transcript.specs.Printing.{shown_text};
ghost use Rattle.tip_actor.specs.Acting.{Acting, restarts};
ghost use Rattle.tip_actor.specs.Standing.{IsActing};

use crate::actor::Actor;
use crate::readers::Readers;
use std::alloc::{AllocError, Global};
use std::collections::VecDeque;
use tip_core::Core;
use tip_machine::PartyPlace;
use tip_rows::RowLog;
use tip_stored::{PartyOut, StoredCore};
use tip_transcript::print_drops;

impl Actor<PartyOut> {
    /// Prints the active branches that are let go where the process ends: those of the parties that are out, the oldest first,
    /// and then of those that are here.
    pub fn print_leaving<S: RowLog>(
        &self,
        stored_core: &StoredCore<S>,
        place: usize,
        printed: &mut String,
    ) -> Result<(), AllocError>
        requires { Always }
        ensures { (acting : Acting) →
            IsActing S.keeping stored_core.now place self.now acting →
            OnOk result
            (string_bytes printed.new ≡ string_bytes printed.old ++ (restarts acting).printed) }
    {
        let name = self.name.as_str();
        print_out(printed, name, &self.errands)?;
        print_here(printed, name, &stored_core.core, place)
    }

    /// The realm where the process starts again: no connection is there, and no party is out.
    pub fn anew(self, alloc: Global) -> Actor<PartyOut>
        requires { Always }
        ensures name { result.name ≡ self.name }
        ensures readers { result.readers.items ≡ [] }
        ensures errands { result.errands.items ≡ [] }
        ensures due { result.is_due ≡ self.is_due }
    {
        let Actor { name, is_due, .. } = self;
        Actor {
            name,
            readers: Readers::new(alloc),
            errands: VecDeque::new(alloc),
            is_due,
        }
    }
}

/// Prints the active branches of parties that are out.
fn print_out(
    printed: &mut String,
    name: &str,
    errands: &VecDeque<PartyOut>,
) -> Result<(), AllocError>
    ensures { OnOk result (string_bytes printed.new ≡ string_bytes printed.old
        ++ flat_map (λ party. shown_text name.now (drops_of party)) errands.now.items) }
{
    for party in errands.iter() {
        print_drops(printed, name, party.party())?;
    }
    Ok(())
}

/// Prints the active branches of the parties of a realm that are here.
pub fn print_here(
    printed: &mut String,
    name: &str,
    core: &Core,
    place: usize,
) -> Result<(), AllocError>
    requires { Always }
    ensures { (state : State) → realm_at core.now place ≡ Some state →
        OnOk result (string_bytes printed.new ≡ string_bytes printed.old ++ flat_map
        (λ transaction. shown_text name.now (drops_at transaction.place))
        state.transactions) }
{
    let Some(_) = core.name(place) else {
        return Ok(());
    };
    for transaction in core.transactions(place) {
        if let PartyPlace::Here(party) = &transaction.place {
            print_drops(printed, name, party)?;
        }
    }
    Ok(())
}
