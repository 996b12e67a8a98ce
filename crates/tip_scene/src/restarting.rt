//! The process of a script starts again.
ghost use Rattle.std.specs.Prelude.{◌≡◌, ◌<◌, ◌≤◌, ◌++◌, ◌==◌, ℕ, [], None, false, length, map, IfErr, IfOk, OnOk, option_map, slice_get, string_bytes};
ghost use Rattle.std.specs.List.{flat_map, list_any};
ghost use Rattle.tip_actor.specs.Acting.{is_at_end, restarts};
ghost use Rattle.tip_core.specs.Hosted.{realm as realm_at};
ghost use Rattle.tip_stored.specs.Loading.{spec_of as spec_of_head};
ghost use Rattle.tip_machine.specs.States.{State};
ghost use Rattle.tip_scene.specs.Acts.{Playing as AtWork};
ghost use Rattle.tip_scene.specs.Blaming.{Blames, IsAtFault, Spares};
ghost use Rattle.tip_scene.specs.Boxes.{AreWilling, box_count};
ghost use Rattle.tip_scene.specs.Leaving.{LeavesRest, MayAllRise};
ghost use Rattle.tip_scene.specs.Rising.{AreAgain, AreWaiting};
ghost use Rattle.tip_rows.specs.Logs.{last_epoch};
ghost use Rattle.tip_scene.specs.Scenes.{Scene, openings_text, restarted};
ghost use Rattle.tip_scene.specs.Stages.{Moves, Trusts};
ghost use Rattle.tip_scene.specs.Standing.{IsScene};

use crate::fault::LineFault;
use crate::playing::Playing;
use crate::rising::{anew, rise};
use std::alloc::{AllocError, Global};
use tip_actor::{ActFault, Actor};
use tip_branch::Branch;
use tip_machine::Head;
use tip_rows::RowLog;
use tip_stored::{RealmSpec, Recovering, StoredCore};

/// The process starts again: of what the realms were only their rows stay, and each branch of a row has a box out of this pool.
/// `NotUnderstood` where a realm is in its last epoch. The store comes back at a fault, too.
pub(crate) fn restart<S: RowLog + Drop>(
    playing: Playing<StoredCore<S>>,
    alloc: Global,
    pool: &mut Vec<Box<dyn Branch + Send>>,
    printed: &mut String,
) -> Result<Playing<StoredCore<S>>, (LineFault, S)>
    requires { AreWilling (map standing pool.old.items) }
    ensures running { IfOk result (λ again. again.stored_core.is_stopped ≡ false) }
    ensures truth { Trusts S.keeping playing.stored_core.store
        (λ again. again.stored_core.store) result }
    ensures leaves { (scene : Scene) →
        IsScene S.keeping playing.stored_core playing.actors.items scene →
        IfOk result (λ again. S.keeping.is_true again.stored_core.store →
        LeavesRest S.keeping playing again) }
    ensures counts { IfOk result (λ again. S.keeping.faults again.stored_core.store
        ≡ S.keeping.faults playing.stored_core.store) }
    ensures spares { Spares S.keeping LineFault.Memory playing.stored_core.store result }
    ensures blames { (scene : Scene) →
        IsScene S.keeping playing.stored_core playing.actors.items scene →
        box_count None scene ≤ length pool.old.items → Blames S.keeping LineFault.Store
        (IsAtFault S.keeping playing.stored_core.store (AtWork scene)) result }
    ensures moves { (scene : Scene) →
        IsScene S.keeping playing.stored_core playing.actors.items scene →
        Moves S.keeping (string_bytes printed.old)
        (string_bytes printed.new) (restarted scene) result }
    ensures stays { IfErr result (λ fault. fault.0 ≡ LineFault.NotUnderstood →
        fault.1 ≡ playing.stored_core.store) }
    ensures halts { IfErr result
        (λ fault. MayAllRise S.keeping 0 [] playing.stored_core.store fault.1) }
{
    let Playing {
        stored_core,
        actors,
        by_name,
    } = playing;
    drop(by_name);
    if is_any_at_end(stored_core.core.heads()) {
        return Err((LineFault::NotUnderstood, stored_core.shut()));
    }
    let specs = match leave(alloc, &stored_core, &actors, printed) {
        Ok(specs) => specs,
        Err(AllocError) => return Err((LineFault::Memory, stored_core.shut())),
    };
    match stored_core.restart(alloc, specs) {
        Ok(recovering) => match rise_again(alloc, recovering, actors, pool, printed) {
            Ok(playing) => Ok(playing),
            Err((fault, store)) => Err((LineFault::from(fault), store)),
        },
        Err((fault, store)) => Err((LineFault::from(ActFault::from(fault)), store)),
    }
}

/// Prints what each realm lets go, and says how the realms were declared.
fn leave<S: RowLog + Drop>(
    alloc: Global,
    stored_core: &StoredCore<S>,
    actors: &[Actor],
    printed: &mut String,
) -> Result<Vec<RealmSpec>, AllocError>
    ensures specs { IfOk result (λ specs. (place : ℕ) → slice_get specs.items place ≡ option_map
        (λ (state : State). spec_of_head state.head) (realm_at stored_core.now.core place)) }
    ensures text { (scene : Scene) →
        IsScene S.keeping stored_core.now actors.now scene →
        OnOk result (string_bytes printed.new ≡ string_bytes printed.old
        ++ flat_map (λ acting. (restarts acting).printed) scene) }
{
    print_leaving(printed, stored_core, actors)?;
    stored_core.declarations(alloc)
}

/// These realms are at work again as those that begin, on the stored core that has read their rows.
fn rise_again<S: RowLog + Drop>(
    alloc: Global,
    recovering: Recovering<S>,
    actors: Vec<Actor>,
    pool: &mut Vec<Box<dyn Branch + Send>>,
    printed: &mut String,
) -> Result<Playing<StoredCore<S>>, (ActFault, S)>
    requires { AreWilling (map standing pool.old.items) }
    ensures running { IfOk result (λ playing. playing.stored_core.is_stopped ≡ false) }
    ensures few { (scene : Scene) → AreWaiting S.keeping recovering scene →
        IfErr result (λ fault. fault.0 ≡ ActFault.Store →
        length pool.old.items < box_count None scene) }
    ensures store { IfOk result (λ playing. playing.stored_core.store ≡ recovering.store) }
    ensures back { IfErr result (λ fault. fault.1 ≡ recovering.store) }
    ensures text { (scene : Scene) → AreAgain actors.items scene →
        AreWaiting S.keeping recovering scene →
        IfOk result (λ playing. string_bytes printed.new
        ≡ string_bytes printed.old ++ openings_text scene) }
    ensures scene { (scene : Scene) → AreAgain actors.items scene →
        AreWaiting S.keeping recovering scene →
        IfOk result (λ playing. IsScene S.keeping playing.stored_core
        playing.actors.items scene) }
{
    match anew(alloc, actors) {
        Ok(actors) => rise(alloc, recovering, actors, pool, printed),
        Err(AllocError) => Err((ActFault::Memory, recovering.into_store())),
    }
}

/// Whether a realm is in its last epoch.
fn is_any_at_end(heads: &[Head]) -> bool
    ensures { result ≡ list_any (λ head. head.epoch == last_epoch) heads.now }
{
    heads.iter().any(|head| head.epoch == u32::MAX)
}

/// Prints what each realm lets go.
fn print_leaving<S: RowLog + Drop>(
    printed: &mut String,
    stored_core: &StoredCore<S>,
    actors: &[Actor],
) -> Result<(), AllocError>
    ensures { (scene : Scene) →
        IsScene S.keeping stored_core.now actors.now scene →
        OnOk result (string_bytes printed.new ≡ string_bytes printed.old
        ++ flat_map (λ acting. (restarts acting).printed) scene) }
{
    for (place, actor) in actors.iter().enumerate() {
        actor.print_leaving(stored_core, place, printed)?;
    }
    Ok(())
}
