//! Realms that have started, and are put to work.
ghost use Rattle.std.specs.Prelude.{◌≡◌, ◌<◌, ◌+◌, ◌++◌, ℕ, [], None, false, true, length, map, IfErr, IfOk, OnOk, string_bytes};
ghost use Rattle.std.specs.List.{flat_map};
ghost use Rattle.tip_machine.specs.Answers.{identifier};
ghost use Rattle.tip_rows.specs.Rows.{branches_of};
ghost use Rattle.tip_transcript.specs.Printing.{adopted_text};
ghost use Rattle.tip_actor.specs.Acting.{Acting, opening_text};
ghost use Rattle.tip_actor.specs.declared.fault.ActFault.TheVariants.{Store};
ghost use Rattle.tip_stored.specs.Recovering.{all_adopted};
ghost use Rattle.tip_scene.specs.Boxes.{AreWilling, box_count};
ghost use Rattle.tip_scene.specs.Rising.{AreAnew, AreNew, AreRising, AreWaiting, IsRising};
ghost use Rattle.tip_scene.specs.Scenes.{Scene, openings_text};
ghost use Rattle.tip_scene.specs.Standing.{IsScene};

use crate::boxes::dealt_to_all;
use crate::by_name::ByName;
use crate::playing::Playing;
use std::alloc::{AllocError, Global};
use tip_actor::{ActFault, Actor};
use tip_branch::Branch;
use tip_recovery::Unfinished;
use tip_rows::RowLog;
use tip_stored::{Recovering, StoredCore};
use tip_transcript::{print_adopted, print_start};

/// Realms that have started adopt a box out of the pool for each branch of their rows, say so, and are at work.
pub(crate) fn rise<S: RowLog + Drop>(
    alloc: Global,
    mut recovering: Recovering<S>,
    actors: Vec<Actor>,
    pool: &mut Vec<Box<dyn Branch + Send>>,
    printed: &mut String,
) -> Result<Playing<StoredCore<S>>, (ActFault, S)>
    requires { AreWilling (map standing pool.old.items) }
    ensures willing { OnOk result (AreWilling (map standing pool.new.items)) }
    ensures running { IfOk result (λ playing. playing.stored_core.is_stopped ≡ false) }
    ensures few { (scene : Scene) → AreWaiting S.keeping recovering scene →
        IfErr result (λ fault. fault.0 ≡ Store → length pool.old.items < box_count None scene) }
    ensures left { (scene : Scene) → AreWaiting S.keeping recovering scene →
        OnOk result (length pool.new.items + box_count None scene ≡ length pool.old.items) }
    ensures store { IfOk result (λ playing. playing.stored_core.store ≡ recovering.store) }
    ensures back { IfErr result (λ fault. fault.1 ≡ recovering.store) }
    ensures text { (scene : Scene) → AreNew actors.items scene →
        AreWaiting S.keeping recovering scene →
        IfOk result (λ playing. string_bytes printed.new
        ≡ string_bytes printed.old ++ openings_text scene) }
    ensures scene { (scene : Scene) → AreNew actors.items scene →
        AreWaiting S.keeping recovering scene →
        IfOk result (λ playing. IsScene S.keeping playing.stored_core
        playing.actors.items scene) }
{
    let lots = match dealt_to_all(alloc, pool, recovering.realms()) {
        Ok(lots) => lots,
        Err(fault) => return Err((fault, recovering.into_store())),
    };
    // only of a store that can be relied on does a load say that nothing was adopted for its rows
    if !recovering.adopt_all(lots) {
        return Err((ActFault::Store, recovering.into_store()));
    }
    match begin(alloc, recovering, actors, printed) {
        Ok(playing) => Ok(playing),
        Err(store) => Err((ActFault::Memory, store)),
    }
}

/// Realms that have started say so, and are at work. The store comes back where memory ends.
fn begin<S: RowLog + Drop>(
    alloc: Global,
    recovering: Recovering<S>,
    actors: Vec<Actor>,
    printed: &mut String,
) -> Result<Playing<StoredCore<S>>, S>
    requires { all_adopted recovering.realms ≡ true }
    ensures running { IfOk result (λ playing. playing.stored_core.is_stopped ≡ false) }
    ensures store { IfOk result (λ playing. playing.stored_core.store ≡ recovering.store) }
    ensures back { IfErr result (λ store. store ≡ recovering.store) }
    ensures text { (scene : Scene) → AreNew actors.items scene →
        AreRising S.keeping recovering scene →
        IfOk result (λ playing. string_bytes printed.new
        ≡ string_bytes printed.old ++ openings_text scene) }
    ensures scene { (scene : Scene) → AreNew actors.items scene →
        AreRising S.keeping recovering scene →
        IfOk result (λ playing. IsScene S.keeping playing.stored_core
        playing.actors.items scene) }
{
    let Ok(by_name) = ByName::new(alloc, &actors) else {
        return Err(recovering.into_store());
    };
    if print_openings(printed, &recovering, &actors).is_err() {
        return Err(recovering.into_store());
    }
    match recovering.begin() {
        Ok(stored_core) => Ok(Playing {
            stored_core,
            actors,
            by_name,
        }),
        Err(_) => unreachable!(),
    }
}

/// These realms as they begin: nothing has come to them, and no party of theirs is out.
pub(crate) fn anew(alloc: Global, actors: Vec<Actor>) -> Result<Vec<Actor>, AllocError>
    ensures { IfOk result (λ again. AreAnew again.items actors.items) }
{
    let mut again = Vec::with_capacity(alloc, actors.len())?;
    for actor in actors {
        again.push(actor.anew(alloc))?;
    }
    Ok(again)
}

/// Prints what each realm says that has started.
fn print_openings<S: RowLog + Drop>(
    printed: &mut String,
    recovering: &Recovering<S>,
    actors: &[Actor],
) -> Result<(), AllocError>
    ensures { (scene : Scene) → AreNew actors.now scene →
        AreRising S.keeping recovering.now scene →
        OnOk result (string_bytes printed.new ≡ string_bytes printed.old ++ openings_text scene) }
{
    for (place, actor) in actors.iter().enumerate() {
        print_opening(printed, recovering, place, actor)?;
    }
    Ok(())
}

/// Prints the epoch of a realm that has started, and the branches that were adopted for its rows.
fn print_opening<S: RowLog + Drop>(
    printed: &mut String,
    recovering: &Recovering<S>,
    place: usize,
    actor: &Actor,
) -> Result<(), AllocError>
    ensures { (acting : Acting) → actor.now.name ≡ acting.name →
        IsRising S.keeping recovering.now place acting →
        OnOk result (string_bytes printed.new ≡ string_bytes printed.old ++ opening_text acting) }
{
    let name = actor.name.as_str();
    let Some(epoch) = recovering.epoch(place) else {
        return Ok(());
    };
    print_start(printed, name, epoch)?;
    print_adoptions(printed, name, recovering.in_doubt(place))
}

/// Prints the branches that were adopted for rows.
pub(crate) fn print_adoptions(
    printed: &mut String,
    name: &str,
    rows: &[Unfinished],
) -> Result<(), AllocError>
    ensures { OnOk result (string_bytes printed.new ≡ string_bytes printed.old
        ++ flat_map (λ row. adopted_text name.now (identifier row.realm row.key)
        (branches_of row.row)) rows.now) }
{
    for row in rows {
        print_adopted(printed, name, row.id(), row.branches())?;
    }
    Ok(())
}
