//! One realm of a script starts again while the others run.
ghost use Rattle.std.specs.Prelude.{◌≡◌, ◌≤◌, ◌⊎◌, ◌+◌, ◌++◌, false, Some, length, IsErrOf, OnOk, map, string_bytes};
ghost use Rattle.std.specs.List.{flat_map};
ghost use Rattle.tip_actor.specs.Acting.{Acting, renewed, renews};
ghost use Rattle.tip_actor.specs.Halting.{Halts, around};
ghost use Rattle.tip_actor.specs.Standing.{Acts, IsActing, IsDone};
ghost use Rattle.tip_core.specs.Hosted.{realm as realm_at};
ghost use Rattle.tip_machine.specs.Answers.{identifier};
ghost use Rattle.tip_machine.specs.Moves.{drops_at};
ghost use Rattle.tip_machine.specs.States.{State};
ghost use Rattle.tip_rows.specs.Rows.{branches_of};
ghost use Rattle.tip_transcript.specs.Printing.{adopted_text, shown_text, start_text};
ghost use Rattle.tip_actor.specs.declared.fault.ActFault.TheVariants.{Store};
ghost use Rattle.tip_scene.specs.Blaming.{HasRefused, IsNotRenewed};
ghost use Rattle.tip_scene.specs.Boxes.{AreWilling, boxes_for};
ghost use Rattle.tip_scene.specs.Rising.{IsWilling};

use crate::boxes::dealt_to_rows;
use crate::rising::print_adoptions;
use std::alloc::{AllocError, Global};
use tip_actor::{ActFault, Actor, print_here};
use tip_branch::Branch;
use tip_core::Core;
use tip_line::Refusal;
use tip_machine::next_epoch;
use tip_recovery::{Recovery, Unfinished};
use tip_rows::RowLog;
use tip_stored::{RenewFault, StoredCore};
use tip_transcript::{print_refusal, print_start};

/// The realm starts again, and each branch of its rows has one of these boxes. After the last epoch it does not.
pub(crate) fn renew<S: RowLog + Drop>(
    actor: &mut Actor,
    alloc: Global,
    stored_core: &mut StoredCore<S>,
    place: usize,
    pool: &mut Vec<Box<dyn Branch + Send>>,
    printed: &mut String,
) -> Result<(), ActFault>
    requires { AreWilling (map standing pool.old.items) }
    ensures running { stored_core.new.is_stopped ≡ stored_core.old.is_stopped }
    ensures truth { S.keeping.is_true stored_core.new.store →
        S.keeping.is_true stored_core.old.store }
    ensures acts { S.keeping.is_true stored_core.new.store → OnOk result (Acts
        S.keeping stored_core.old stored_core.new place actor.old actor.new
        (string_bytes printed.old) (string_bytes printed.new) renews) }
    ensures blames { (acting : Acting) →
        IsActing S.keeping stored_core.old place actor.old acting →
        boxes_for acting.world.rows ≤ length pool.old.items →
        stored_core.old.is_stopped ≡ false → S.keeping.is_true stored_core.new.store →
        IsErrOf result Store → HasRefused S.keeping stored_core.old.store stored_core.new.store
        ⊎ IsNotRenewed S.keeping stored_core.old.store stored_core.new.store acting }
    ensures halts { (acting : Acting) →
        IsActing S.keeping stored_core.old place actor.old acting →
        Halts S.keeping stored_core.old.store stored_core.new.store actor.old.name
        (around (Some (renews acting)) acting) }
{
    let Some(epoch) = next_epoch(stored_core.core.heads(), place) else {
        print_refusal(printed, actor.name.as_str(), Refusal::EpochEnd)?;
        return Ok(());
    };
    let mut recovery = stored_core.doubts(alloc, place)?;
    let lots = dealt_to_rows(alloc, pool, recovery.rows())?;
    // only of a store that can be relied on does `doubts` say that nothing was adopted for its rows
    if !recovery.adopt_all(lots) {
        return Err(ActFault::Store);
    }
    renew_by(actor, alloc, stored_core, place, epoch, recovery, printed)
}

/// The realm starts again in this epoch, by its rows and their boxes, unless the store is to refuse that.
fn renew_by<S: RowLog + Drop>(
    actor: &mut Actor,
    alloc: Global,
    stored_core: &mut StoredCore<S>,
    place: usize,
    epoch: u32,
    recovery: Recovery,
    printed: &mut String,
) -> Result<(), ActFault>
    ensures running { stored_core.new.is_stopped ≡ stored_core.old.is_stopped }
    ensures truth { S.keeping.is_true stored_core.new.store →
        S.keeping.is_true stored_core.old.store }
    ensures done { S.keeping.is_true stored_core.new.store → (acting : Acting) →
        IsActing S.keeping stored_core.old place actor.old acting →
        IsWilling recovery acting → epoch ≡ acting.world.state.head.epoch + 1 →
        OnOk result (IsDone S.keeping stored_core.old stored_core.new place actor.old
        actor.new (string_bytes printed.old) (string_bytes printed.new)
        (renewed acting.due acting)) }
    ensures blames { (acting : Acting) →
        IsActing S.keeping stored_core.old place actor.old acting →
        stored_core.old.is_stopped ≡ false → IsWilling recovery acting →
        S.keeping.is_true stored_core.new.store → IsErrOf result Store →
        HasRefused S.keeping stored_core.old.store stored_core.new.store
        ⊎ IsNotRenewed S.keeping stored_core.old.store stored_core.new.store acting }
    ensures halts { (acting : Acting) →
        IsActing S.keeping stored_core.old place actor.old acting →
        epoch ≡ acting.world.state.head.epoch + 1 →
        Halts S.keeping stored_core.old.store stored_core.new.store actor.old.name
        (around (Some (renewed acting.due acting)) acting) }
{
    let mut opening = String::new(alloc);
    let name = actor.name.as_str();
    print_opening(
        &mut opening,
        name,
        &stored_core.core,
        place,
        epoch,
        recovery.rows(),
    )?;
    match stored_core.renew(alloc, place, recovery) {
        Ok(_left) => {
            printed.push_str(&opening)?;
            actor.readers.clear();
            Ok(())
        }
        Err((RenewFault::NotRaised, _)) if actor.is_due => {
            actor.is_due = false;
            print_refusal(printed, actor.name.as_str(), Refusal::Refused)?;
            Ok(())
        }
        Err((fault, _)) => Err(ActFault::from(fault)),
    }
}

/// Prints what a realm lets go that starts again, the epoch in which it does, and the branches that were adopted for its rows.
fn print_opening(
    printed: &mut String,
    name: &str,
    core: &Core,
    place: usize,
    epoch: u32,
    rows: &[Unfinished],
) -> Result<(), AllocError>
    ensures { (state : State) → realm_at core.now place ≡ Some state →
        OnOk result (string_bytes printed.new ≡ string_bytes printed.old ++ (flat_map
        (λ transaction. shown_text name.now (drops_at transaction.place))
        state.transactions ++ (start_text name.now epoch ++ flat_map (λ row. adopted_text
        name.now (identifier row.realm row.key)
        (branches_of row.row)) rows.now))) }
{
    print_here(printed, name, core, place)?;
    print_start(printed, name, epoch)?;
    print_adoptions(printed, name, rows)
}
