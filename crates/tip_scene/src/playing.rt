//! The realms of a script at work.
ghost use Rattle.std.specs.Prelude.{◌≡◌, ◌≤◌, ◌==◌, Some, None, true, false, length, map, option_map, IfErr, IfOk, IsErrOf, OnOk, string_bytes};
ghost use Rattle.std.specs.List.{position_or_len};
ghost use Rattle.tip_branch.specs.Always.{Always};
ghost use Rattle.tip_actor.specs.Acting.{Acting, boxes_of, count_of, takes};
ghost use Rattle.tip_actor.specs.Halting.{Halts, around, taken};
ghost use Rattle.tip_actor.specs.Standing.{Acts, IsActing, Tells};
ghost use Rattle.tip_script.specs.Moves.{move_by};
ghost use Rattle.tip_script.specs.Scripts.{Renew as Renews, is_start, plans_with, realm_of};
ghost use Rattle.tip_branch.specs.Lots.{AreIn};
ghost use Rattle.tip_branch.specs.declared.branch.Phase.TheVariants.{Active};
ghost use Rattle.tip_scene.specs.Acts.{Playing as AtWork, may_say};
ghost use Rattle.tip_scene.specs.Blaming.{Blames, HasRefused, IsAtFault, IsSpared, Spares, blamed, judged};
ghost use Rattle.tip_scene.specs.Boxes.{AreWilling, box_count};
ghost use Rattle.tip_scene.specs.Leaving.{HaltsAtWork, HaltsIn, LeavesRest};
ghost use Rattle.tip_rows.specs.Logs.{Log};
ghost use Rattle.tip_scene.specs.Scenes.{Scene, does, elsewhere, moved, moved_in};
ghost use Rattle.tip_scene.specs.Standing.{has_name, IsScene};
ghost use Rattle.tip_scene.specs.Stages.{ComeWith, Moves, Prints, Serves, Trusts};
ghost use Rattle.tip_scene.specs.Wanting.{wanted_again};

use crate::boxes::fresh;
use crate::by_name::{ByName, first_of};
use crate::counting::count_acting;
use crate::fault::LineFault;
use crate::renewing::renew;
use crate::requests::{dial, pull, push, resume};
use crate::restarting::restart;
use std::alloc::Global;
use tip_actor::{ActFault, Actor, Refuser};
use tip_branch::{Branch, HeldFresh};
use tip_machine::Event;
use tip_rows::RowLog;
use tip_script::Instruction;
use tip_stored::StoredCore;
use tip_transcript::{print_idle, print_nowhere};

/// All realms, each at its place in the order of declaration.
#[derive(Drop)]
pub struct Playing<H, A = Actor> {
    pub stored_core: H,
    pub actors: Vec<A>,
    pub by_name: ByName,
}

impl<S: RowLog + Drop> Playing<StoredCore<S>, Actor> {
    /// Does what a line says, with the boxes that come with it, and willing ones for rows out of a pool; then all lines of its
    /// realm that may be taken are taken. `NotUnderstood` where the line may not stand here. The store comes back at a fault, too.
    pub fn act<R: Refuser<S>>(
        mut self,
        alloc: Global,
        refuser: &R,
        instruction: Instruction<'_>,
        boxes: Vec<Box<dyn Branch + Send>>,
        pool: &mut Vec<Box<dyn Branch + Send>>,
        printed: &mut String,
    ) -> Result<Playing<StoredCore<S>>, (LineFault, S)>
        requires running { self.stored_core.is_stopped ≡ false }
        requires active { AreIn Active (map standing boxes.items) }
        requires willing { AreWilling (map standing pool.old.items) }
        ensures running { IfOk result (λ playing. playing.stored_core.is_stopped ≡ false) }
        ensures truth { Trusts S.keeping self.stored_core.store
            (λ playing. playing.stored_core.store) result }
        ensures moves { (scene : Scene) →
            IsScene S.keeping self.stored_core self.actors.items scene →
            may_say R.may (move_by instruction.entry) ≡ true →
            ComeWith (Some (move_by instruction.entry)) (map standing boxes.items) →
            Moves S.keeping (string_bytes printed.old)
            (string_bytes printed.new) (moved (move_by instruction.entry) scene) result }
        ensures leaves { (scene : Scene) →
            IsScene S.keeping self.stored_core self.actors.items scene →
            may_say R.may (move_by instruction.entry) ≡ true →
            ComeWith (Some (move_by instruction.entry)) (map standing boxes.items) →
            IfOk result (λ playing. S.keeping.is_true playing.stored_core.store →
            LeavesRest S.keeping self playing) }
        ensures counts { R.may ≡ false →
            IfOk result (λ playing. S.keeping.faults playing.stored_core.store
            ≡ S.keeping.faults self.stored_core.store) }
        ensures spares { R.may ≡ false →
            Spares S.keeping LineFault.Memory self.stored_core.store result }
        ensures blames { R.may ≡ false → (scene : Scene) →
            IsScene S.keeping self.stored_core self.actors.items scene →
            wanted_again (move_by instruction.entry) scene ≤ length pool.old.items →
            Blames S.keeping LineFault.Store
            (IsAtFault S.keeping self.stored_core.store (AtWork scene)) result }
        ensures stays { IfErr result (λ fault. fault.0 ≡ LineFault.NotUnderstood →
            fault.1 ≡ self.stored_core.store) }
        ensures halts { (scene : Scene) →
            IsScene S.keeping self.stored_core self.actors.items scene →
            may_say R.may (move_by instruction.entry) ≡ true →
            ComeWith (Some (move_by instruction.entry)) (map standing boxes.items) →
            IfErr result (λ fault. S.keeping.is_true fault.1 → HaltsAtWork S.keeping scene
            (move_by instruction.entry) self.stored_core.store fault.1) }
    {
        let Some(realm) = instruction.realm() else {
            return restart(self, alloc, pool, printed);
        };
        match self.serve(alloc, refuser, realm, instruction, boxes, pool, printed) {
            Ok(()) => Ok(self),
            Err(fault) => Err((fault, self.stored_core.shut())),
        }
    }

    /// Does what a line says that is of this realm.
    fn serve<R: Refuser<S>>(
        &mut self,
        alloc: Global,
        refuser: &R,
        realm: &str,
        instruction: Instruction<'_>,
        boxes: Vec<Box<dyn Branch + Send>>,
        pool: &mut Vec<Box<dyn Branch + Send>>,
        printed: &mut String,
    ) -> Result<(), LineFault>
        requires named { realm_of (move_by instruction) ≡ Some realm.now }
        requires running { self.old.stored_core.is_stopped ≡ false }
        requires active { AreIn Active (map standing boxes.items) }
        requires willing { AreWilling (map standing pool.old.items) }
        ensures running { self.new.stored_core.is_stopped ≡ false }
        ensures truth { S.keeping.is_true self.new.stored_core.store →
            S.keeping.is_true self.old.stored_core.store }
        ensures serves { (scene : Scene) → IsScene S.keeping
            self.old.stored_core self.old.actors.items scene →
            may_say R.may (move_by instruction.entry) ≡ true →
            ComeWith (Some (move_by instruction.entry)) (map standing boxes.items) →
            S.keeping.is_true self.new.stored_core.store → Serves S.keeping
            (string_bytes printed.old) (string_bytes printed.new)
            (moved (move_by instruction.entry) scene) self.new result }
        ensures leaves { (scene : Scene) → IsScene S.keeping
            self.old.stored_core self.old.actors.items scene →
            may_say R.may (move_by instruction.entry) ≡ true →
            ComeWith (Some (move_by instruction.entry)) (map standing boxes.items) →
            S.keeping.is_true self.new.stored_core.store →
            OnOk result (LeavesRest S.keeping self.old self.new) }
        ensures counts { R.may ≡ false → OnOk result (S.keeping.faults self.new.stored_core.store
            ≡ S.keeping.faults self.old.stored_core.store) }
        ensures spared { R.may ≡ false →
            IsSpared S.keeping LineFault.Memory self.old.stored_core.store
            self.new.stored_core.store result }
        ensures blames { R.may ≡ false → (scene : Scene) → IsScene S.keeping
            self.old.stored_core self.old.actors.items scene →
            wanted_again (move_by instruction.entry) scene ≤ length pool.old.items →
            S.keeping.is_true self.new.stored_core.store → IsErrOf result LineFault.Store →
            IsAtFault S.keeping self.old.stored_core.store (AtWork scene)
            self.new.stored_core.store }
        ensures stays { IsErrOf result LineFault.NotUnderstood →
            self.new.stored_core.store ≡ self.old.stored_core.store }
        ensures halts { (scene : Scene) → IsScene S.keeping
            self.old.stored_core self.old.actors.items scene →
            may_say R.may (move_by instruction.entry) ≡ true →
            ComeWith (Some (move_by instruction.entry)) (map standing boxes.items) →
            S.keeping.is_true self.new.stored_core.store → HaltsIn S.keeping
            (move_by instruction.entry) realm.now scene self.old.stored_core.store
            self.new.stored_core.store }
    {
        if let Instruction::Renew { .. } = instruction {
            return self.renew(alloc, refuser, realm, pool, printed);
        }
        let boxes = fresh(alloc, boxes)?;
        self.act_judged(alloc, refuser, realm, instruction, boxes, printed)
    }

    /// This realm starts again while the others run.
    fn renew<R: Refuser<S>>(
        &mut self,
        alloc: Global,
        refuser: &R,
        name: &str,
        pool: &mut Vec<Box<dyn Branch + Send>>,
        printed: &mut String,
    ) -> Result<(), LineFault>
        requires running { self.old.stored_core.is_stopped ≡ false }
        requires willing { AreWilling (map standing pool.old.items) }
        ensures running { self.new.stored_core.is_stopped ≡ false }
        ensures truth { S.keeping.is_true self.new.stored_core.store →
            S.keeping.is_true self.old.stored_core.store }
        ensures serves { (scene : Scene) → IsScene S.keeping
            self.old.stored_core self.old.actors.items scene →
            S.keeping.is_true self.new.stored_core.store →
            Serves S.keeping (string_bytes printed.old)
            (string_bytes printed.new) (moved_in (Renews name.now) (Some name.now) scene)
            self.new result }
        ensures leaves { (scene : Scene) → IsScene S.keeping
            self.old.stored_core self.old.actors.items scene →
            S.keeping.is_true self.new.stored_core.store →
            OnOk result (LeavesRest S.keeping self.old self.new) }
        ensures counts { R.may ≡ false → OnOk result (S.keeping.faults self.new.stored_core.store
            ≡ S.keeping.faults self.old.stored_core.store) }
        ensures spared { R.may ≡ false →
            IsSpared S.keeping LineFault.Memory self.old.stored_core.store
            self.new.stored_core.store result }
        ensures blames { R.may ≡ false → (scene : Scene) → IsScene S.keeping
            self.old.stored_core self.old.actors.items scene →
            box_count (Some name.now) scene ≤ length pool.old.items →
            S.keeping.is_true self.new.stored_core.store → IsErrOf result LineFault.Store →
            IsAtFault S.keeping self.old.stored_core.store (AtWork scene)
            self.new.stored_core.store }
        ensures understood { IsErrOf result LineFault.NotUnderstood → ⊥ }
        ensures halts { (scene : Scene) → IsScene S.keeping
            self.old.stored_core self.old.actors.items scene →
            S.keeping.is_true self.new.stored_core.store → HaltsIn S.keeping
            (Renews name.now) name.now scene self.old.stored_core.store
            self.new.stored_core.store }
    {
        let place = self.place_of(name);
        let Some(actor) = self.actors.get_mut(place) else {
            print_nowhere(printed, name)?;
            return Ok(());
        };
        let stored_core = &mut self.stored_core;
        let may = refuser.may_refuse();
        let before = stored_core.store.faults();
        match renew(actor, alloc, stored_core, place, pool, printed) {
            Ok(()) => {}
            Err(fault) => {
                let after = stored_core.store.faults();
                return Err(blamed(LineFault::from(fault), may, before, after));
            }
        }
        let end = settle(actor, alloc, stored_core, place, printed);
        judge(end, may, before, stored_core.store.faults())
    }

    /// Does what a line says that is of this realm, and starts none again. Its fault is judged by the store's count.
    fn act_judged<R: Refuser<S>>(
        &mut self,
        alloc: Global,
        refuser: &R,
        realm: &str,
        instruction: Instruction<'_>,
        boxes: HeldFresh,
        printed: &mut String,
    ) -> Result<(), LineFault>
        requires same { is_start (move_by instruction) ≡ false }
        requires running { self.old.stored_core.is_stopped ≡ false }
        ensures running { self.new.stored_core.is_stopped ≡ false }
        ensures truth { S.keeping.is_true self.new.stored_core.store →
            S.keeping.is_true self.old.stored_core.store }
        ensures serves { (scene : Scene) → IsScene S.keeping
            self.old.stored_core self.old.actors.items scene →
            may_say R.may (move_by instruction.entry) ≡ true →
            boxes ≡ boxes_of (plans_with (move_by instruction.entry)) →
            Serves S.keeping (string_bytes printed.old)
            (string_bytes printed.new)
            (moved_in (move_by instruction.entry) (Some realm.now) scene) self.new result }
        ensures leaves { (scene : Scene) → IsScene S.keeping
            self.old.stored_core self.old.actors.items scene →
            may_say R.may (move_by instruction.entry) ≡ true →
            boxes ≡ boxes_of (plans_with (move_by instruction.entry)) →
            S.keeping.is_true self.new.stored_core.store →
            OnOk result (LeavesRest S.keeping self.old self.new) }
        ensures counts { R.may ≡ false → OnOk result (S.keeping.faults self.new.stored_core.store
            ≡ S.keeping.faults self.old.stored_core.store) }
        ensures spared { R.may ≡ false →
            IsSpared S.keeping LineFault.Memory self.old.stored_core.store
            self.new.stored_core.store result }
        ensures blames { R.may ≡ false → IsErrOf result LineFault.Store →
            HasRefused S.keeping self.old.stored_core.store self.new.stored_core.store }
        ensures stays { IsErrOf result LineFault.NotUnderstood →
            self.new.stored_core.store ≡ self.old.stored_core.store }
        ensures halts { (scene : Scene) → IsScene S.keeping
            self.old.stored_core self.old.actors.items scene →
            may_say R.may (move_by instruction.entry) ≡ true →
            boxes ≡ boxes_of (plans_with (move_by instruction.entry)) → HaltsIn S.keeping
            (move_by instruction.entry) realm.now scene self.old.stored_core.store
            self.new.stored_core.store }
    {
        let before = self.stored_core.store.faults();
        let end = self.act_in(alloc, refuser, realm, instruction, boxes, printed);
        judge(
            end,
            refuser.may_refuse(),
            before,
            self.stored_core.store.faults(),
        )
    }

    /// Does what a line says that is of this realm, and starts none again.
    fn act_in<R: Refuser<S>>(
        &mut self,
        alloc: Global,
        refuser: &R,
        realm: &str,
        instruction: Instruction<'_>,
        boxes: HeldFresh,
        printed: &mut String,
    ) -> Result<(), LineFault>
        requires same { is_start (move_by instruction) ≡ false }
        requires running { self.old.stored_core.is_stopped ≡ false }
        ensures running { self.new.stored_core.is_stopped ≡ false }
        ensures truth { S.keeping.is_true self.new.stored_core.store →
            S.keeping.is_true self.old.stored_core.store }
        ensures serves { (scene : Scene) → IsScene S.keeping
            self.old.stored_core self.old.actors.items scene →
            may_say R.may (move_by instruction.entry) ≡ true →
            boxes ≡ boxes_of (plans_with (move_by instruction.entry)) →
            Serves S.keeping (string_bytes printed.old)
            (string_bytes printed.new)
            (moved_in (move_by instruction.entry) (Some realm.now) scene) self.new result }
        ensures leaves { (scene : Scene) → IsScene S.keeping
            self.old.stored_core self.old.actors.items scene →
            may_say R.may (move_by instruction.entry) ≡ true →
            boxes ≡ boxes_of (plans_with (move_by instruction.entry)) →
            S.keeping.is_true self.new.stored_core.store →
            OnOk result (LeavesRest S.keeping self.old self.new) }
        ensures stays { IsErrOf result LineFault.NotUnderstood →
            self.new.stored_core.store ≡ self.old.stored_core.store }
        ensures halts { (scene : Scene) → IsScene S.keeping
            self.old.stored_core self.old.actors.items scene →
            may_say R.may (move_by instruction.entry) ≡ true →
            boxes ≡ boxes_of (plans_with (move_by instruction.entry)) → HaltsIn S.keeping
            (move_by instruction.entry) realm.now scene self.old.stored_core.store
            self.new.stored_core.store }
    {
        let place = self.place_of(realm);
        let Some(actor) = self.actors.get_mut(place) else {
            return print_elsewhere(printed, instruction);
        };
        let stored_core = &mut self.stored_core;
        if !obey(
            actor,
            alloc,
            refuser,
            stored_core,
            place,
            instruction,
            boxes,
            printed,
        )? {
            return Err(LineFault::NotUnderstood);
        }
        actor.settle(alloc, &mut self.stored_core, place, printed)?;
        Ok(())
    }

    /// How many boxes a start wants: a willing one for each branch of each stored row, of one realm or of all.
    pub(crate) fn willing(&mut self, only: Option<&str>) -> Result<usize, ActFault>
        requires { Always }
        ensures same { self.new.actors ≡ self.old.actors }
        ensures stood { (log : Log) → S.keeping.stands self.old.stored_core.store log →
            S.keeping.stands self.new.stored_core.store log }
        ensures counts { OnOk result (S.keeping.faults self.new.stored_core.store
            ≡ S.keeping.faults self.old.stored_core.store) }
        ensures spared { IsSpared S.keeping ActFault.Memory
            self.old.stored_core.store self.new.stored_core.store result }
        ensures blames { (scene : Scene) → IsScene S.keeping
            self.old.stored_core self.old.actors.items scene → IsErrOf result ActFault.Store →
            S.keeping.is_true self.new.stored_core.store →
            HasRefused S.keeping self.old.stored_core.store self.new.stored_core.store }
        ensures wanted { (scene : Scene) → IsScene S.keeping
            self.old.stored_core self.old.actors.items scene →
            IfOk result (λ count. S.keeping.is_true self.new.stored_core.store →
            count ≡ box_count (option_map (λ name. name.now) only.entry) scene) }
        ensures running { self.new.stored_core.is_stopped ≡ self.old.stored_core.is_stopped }
        ensures truth { S.keeping.is_true self.new.stored_core.store →
            S.keeping.is_true self.old.stored_core.store }
        ensures stands { (scene : Scene) → IsScene S.keeping
            self.old.stored_core self.old.actors.items scene →
            IsScene S.keeping self.new.stored_core self.new.actors.items
            scene }
    {
        count_acting(&mut self.stored_core.store, &self.actors, only)
    }

    /// The place of a realm; one behind all realms where it is not declared.
    fn place_of(&self, name: &str) -> usize
        ensures { (scene : Scene) → IsScene S.keeping
            self.now.stored_core self.now.actors.items scene →
            result ≡ position_or_len (has_name name.now) self.now.actors.items }
    {
        match self.by_name.find(&self.actors, name) {
            Some(place) => place,
            None => first_of(&self.actors, name),
        }
    }
}

/// What has ended a line, by the count that its store keeps of the calls that it refused: where nobody can ask the store to refuse,
/// and it has, that is no want of memory.
fn blamed(fault: LineFault, may_refuse: bool, before: u64, after: u64) -> LineFault
    ensures { result ≡ blamed may_refuse (before == after) fault }
{
    match fault {
        LineFault::Memory if !may_refuse && before != after => LineFault::Store,
        _ => fault,
    }
}

/// How a line has ended, by the count that its store keeps of the calls that it refused: a store that nobody can ask to refuse is to
/// blame where it has refused one, and nowhere else.
fn judge(
    end: Result<(), LineFault>,
    may_refuse: bool,
    before: u64,
    after: u64,
) -> Result<(), LineFault>
    ensures { result ≡ judged may_refuse (before == after) end }
{
    if may_refuse {
        return end;
    }
    match end {
        Ok(()) if before != after => Err(LineFault::Store),
        Ok(()) => Ok(()),
        Err(LineFault::Store) if before == after => Err(LineFault::Memory),
        Err(fault) => Err(blamed(fault, may_refuse, before, after)),
    }
}

/// All lines of a realm that may be taken are taken.
fn settle<S: RowLog + Drop>(
    actor: &mut Actor,
    alloc: Global,
    stored_core: &mut StoredCore<S>,
    place: usize,
    printed: &mut String,
) -> Result<(), LineFault>
    requires { stored_core.old.is_stopped ≡ false }
    ensures running { stored_core.new.is_stopped ≡ false }
    ensures truth { S.keeping.is_true stored_core.new.store →
        S.keeping.is_true stored_core.old.store }
    ensures understood { IsErrOf result LineFault.NotUnderstood → ⊥ }
    ensures acts { OnOk result (Acts S.keeping stored_core.old stored_core.new place
        actor.old actor.new (string_bytes printed.old) (string_bytes printed.new)
        (λ acting. takes (count_of acting.readings) acting)) }
    ensures halts { (acting : Acting) →
        IsActing S.keeping stored_core.old place actor.old acting →
        Halts S.keeping stored_core.old.store stored_core.new.store actor.old.name
        (taken acting) }
{
    actor.settle(alloc, stored_core, place, printed)?;
    Ok(())
}

/// Does what a line says to the realm that it is of, which has this place. It says whether the line may stand here.
fn obey<S: RowLog + Drop, R: Refuser<S>>(
    actor: &mut Actor,
    alloc: Global,
    refuser: &R,
    stored_core: &mut StoredCore<S>,
    place: usize,
    instruction: Instruction<'_>,
    boxes: HeldFresh,
    printed: &mut String,
) -> Result<bool, ActFault>
    requires same { is_start (move_by instruction) ≡ false }
    requires running { stored_core.old.is_stopped ≡ false }
    ensures running { stored_core.new.is_stopped ≡ false }
    ensures truth { S.keeping.is_true stored_core.new.store →
        S.keeping.is_true stored_core.old.store }
    ensures tells { (acting : Acting) →
        IsActing S.keeping stored_core.old place actor.old acting →
        may_say R.may (move_by instruction.entry) ≡ true →
        boxes ≡ boxes_of (plans_with (move_by instruction.entry)) →
        IfOk result (λ told. Tells S.keeping stored_core.old stored_core.new place
        actor.old actor.new (string_bytes printed.old) (string_bytes printed.new) told
        (does (move_by instruction.entry) acting)) }
    ensures untold { IfOk result
        (λ told. told ≡ false → stored_core.new ≡ stored_core.old) }
    ensures halts { (acting : Acting) →
        IsActing S.keeping stored_core.old place actor.old acting →
        may_say R.may (move_by instruction.entry) ≡ true →
        boxes ≡ boxes_of (plans_with (move_by instruction.entry)) →
        Halts S.keeping stored_core.old.store stored_core.new.store actor.old.name
        (around (does (move_by instruction.entry) acting) acting) }
{
    match instruction {
        Instruction::Realm { .. }
        | Instruction::Labels { .. }
        | Instruction::Renew { .. }
        | Instruction::Restart => Ok(false),
        Instruction::Open { .. } => {
            actor.happen(alloc, stored_core, place, Event::Open { boxes }, printed)?;
            Ok(true)
        }
        Instruction::Dial { address, aim, .. } => {
            dial(
                actor,
                alloc,
                stored_core,
                place,
                address,
                aim,
                boxes,
                printed,
            )
        }
        Instruction::Feed {
            connection,
            octets,
            ..
        } => Ok(actor.feed(alloc, connection, octets)?),
        Instruction::Lost { connection, .. } => {
            actor.lose_connection(alloc, stored_core, place, connection, printed)
        }
        Instruction::Push(asked) => push(actor, alloc, stored_core, place, asked, printed),
        Instruction::Pull(asked) => pull(actor, alloc, stored_core, place, asked, printed),
        Instruction::Go { .. } => actor.go(alloc, stored_core, place, printed),
        Instruction::Drop { .. } => {
            actor.lose(stored_core, place, printed)?;
            Ok(true)
        }
        Instruction::Resume { id, .. } => resume(actor, alloc, stored_core, place, id, printed),
        Instruction::Refuse { .. } => {
            actor.refuse(refuser, stored_core);
            Ok(true)
        }
    }
}

/// What a line prints that is of no realm.
fn print_elsewhere(printed: &mut String, instruction: Instruction<'_>) -> Result<(), LineFault>
    ensures { Prints (string_bytes printed.old) (string_bytes printed.new)
        (elsewhere (move_by instruction.entry)) result }
{
    match instruction {
        Instruction::Realm { .. }
        | Instruction::Labels { .. }
        | Instruction::Feed { .. }
        | Instruction::Lost { .. }
        | Instruction::Push(_)
        | Instruction::Pull(_)
        | Instruction::Restart => Err(LineFault::NotUnderstood),
        Instruction::Open { realm, .. }
        | Instruction::Dial { realm, .. }
        | Instruction::Resume { realm, .. }
        | Instruction::Renew { realm } => Ok(print_nowhere(printed, realm)?),
        Instruction::Go { realm } | Instruction::Drop { realm } => Ok(print_idle(printed, realm)?),
        Instruction::Refuse { .. } => Ok(()),
    }
}
