//! A script as far as it was played.
ghost use Rattle.std.specs.Prelude.{◌≡◌, ◌≤◌, ◌++◌, [], List, Some, length, map, option_map, IfErr, IfOk, IsErrOf, IsOk, OnOk, true, false, string_bytes};
ghost use Rattle.tip_branch.specs.Always.{Always};
ghost use Rattle.tip_script.specs.Moves.{move_by};
ghost use Rattle.tip_script.specs.Scripts.{move_of};
ghost use Rattle.tip_scene.specs.Acts.{Basis, Stage as AStage, Declaring as Begins, acted, acts, closing_of, is_covered, may_say};
ghost use Rattle.tip_branch.specs.Lots.{AreIn};
ghost use Rattle.tip_branch.specs.declared.branch.Phase.TheVariants.{Active};
ghost use Rattle.std.specs.List.{list_all};
ghost use Rattle.tip_scene.specs.Blaming.{Blames, HasRefused, IsBlamed, IsSpared, Spares, starting_from};
ghost use Rattle.tip_scene.specs.Boxes.{AreWilling, box_count};
ghost use Rattle.tip_scene.specs.Hosting.{may_be_hosted};
ghost use Rattle.tip_rows.specs.Logs.{Log};
ghost use Rattle.tip_scene.specs.Leaving.{HaltsAt, HaltsAtEnd, HaltsBy, IsLeft, LeavesAtFault, LeavesOthers, names_in, scene_at, scene_behind};
ghost use Rattle.tip_scene.specs.declared.stage.Stage.TheVariants.{Declaring as AtFirst};
ghost use Rattle.tip_scene.specs.Stages.{ActsSo, AreWanted, ComeWith, IsDeclared, IsBasis, IsSound, IsStage, Trusts, has_started, store_of};
ghost use Rattle.tip_scene.specs.Wanting.{wanted_at_start, wanted_by};

use crate::boxes::Wanted;
use crate::declared::{Declaration, Declared};
use crate::fault::LineFault;
use crate::playing::Playing;
use std::alloc::Global;
use tip_actor::{ActFault, Refuser};
use tip_branch::Branch;
use tip_core::Core;
use tip_rows::RowLog;
use tip_script::Instruction;
use tip_stored::StoredCore;

/// The realms, before and after their start. The first line that declares none starts them.
#[derive(Drop)]
pub enum Stage<D, P> {
    Declaring(D),
    Playing(P),
}

impl<S: RowLog + Drop> Stage<Declared<S>, Playing<StoredCore<S>>> {
    /// No realms are declared; `Declared::new` says what the core is for.
    pub fn new(alloc: Global, core: Core, store: S) -> Stage<Declared<S>, Playing<StoredCore<S>>>
        requires { Always }
        ensures store { store_of result ≡ store }
        ensures sound { IsSound result }
        ensures none { (basis : Basis) → IsBasis S.keeping basis store →
            IsStage S.keeping basis result (Begins []) }
    {
        Stage::Declaring(Declared::new(alloc, core, store))
    }

    /// Does what a line says, with the boxes that come with it, and willing ones for rows out of a pool. The store comes back at a
    /// fault, too.
    pub fn act<R: Refuser<S>>(
        self,
        alloc: Global,
        refuser: &R,
        line: &[u8],
        boxes: Vec<Box<dyn Branch + Send>>,
        pool: &mut Vec<Box<dyn Branch + Send>>,
        printed: &mut String,
    ) -> Result<Stage<Declared<S>, Playing<StoredCore<S>>>, (LineFault, S)>
        requires sound { IsSound self }
        requires active { AreIn Active (map standing boxes.items) }
        requires willing { AreWilling (map standing pool.old.items) }
        ensures sound { IfOk result IsSound }
        ensures truth { Trusts S.keeping (store_of self) store_of
            result }
        ensures acts { (basis : Basis) (stage : AStage) → basis.may_refuse ≡ R.may →
            IsStage S.keeping basis self stage →
            ComeWith (move_of line.now) (map standing boxes.items) →
            is_covered basis (move_of line.now) ≡ true →
            ActsSo S.keeping basis (string_bytes printed.old)
            (string_bytes printed.new) (acted basis stage line.now) result }
        ensures leaves { (basis : Basis) (stage : AStage) → basis.may_refuse ≡ R.may →
            IsStage S.keeping basis self stage →
            ComeWith (move_of line.now) (map standing boxes.items) →
            IfOk result (λ now. S.keeping.is_true (store_of now) →
            LeavesOthers S.keeping self now) }
        ensures counts { R.may ≡ false → IfOk result (λ now. S.keeping.faults (store_of now)
            ≡ S.keeping.faults (store_of self)) }
        ensures spares { R.may ≡ false →
            Spares S.keeping LineFault.Memory (store_of self) result }
        ensures blames { R.may ≡ false → (basis : Basis) (stage : AStage) →
            IsStage S.keeping basis self stage →
            wanted_by basis stage (move_of line.now) ≤ length pool.old.items →
            Blames S.keeping LineFault.Store (IsBlamed S.keeping basis (store_of self)) result }
        ensures faults { (basis : Basis) (stage : AStage) → basis.may_refuse ≡ R.may →
            IsStage S.keeping basis self stage →
            LeavesAtFault S.keeping (scene_behind basis stage (move_of line.now)) (store_of self)
            result }
        ensures halts { (basis : Basis) (stage : AStage) → basis.may_refuse ≡ R.may →
            IsStage S.keeping basis self stage →
            ComeWith (move_of line.now) (map standing boxes.items) →
            IfErr result (λ fault. S.keeping.is_true fault.1 →
            HaltsBy S.keeping basis stage (move_of line.now) (store_of self) fault.1) }
    {
        if line.is_empty() {
            return Ok(self);
        }
        match Instruction::parse(line) {
            Some(instruction) if may_say(refuser.may_refuse(), instruction) => {
                self.obey(alloc, refuser, instruction, boxes, pool, printed)
            }
            _ => Err((LineFault::NotUnderstood, self.shut())),
        }
    }

    /// The script has ended: the realms start, if they have not, and the store comes back, at a fault, too. Once they have started
    /// nothing grows here, and there is no fault.
    pub fn finish(
        self,
        alloc: Global,
        pool: &mut Vec<Box<dyn Branch + Send>>,
        printed: &mut String,
    ) -> Result<S, (ActFault, S)>
        requires sound { IsSound self }
        requires willing { AreWilling (map standing pool.old.items) }
        ensures truth { Trusts S.keeping (store_of self)
            (λ store. store) result }
        ensures started { has_started self ≡ true → IsOk result }
        ensures closes { (basis : Basis) (stage : AStage) →
            IsStage S.keeping basis self stage →
            IfOk result (λ store. S.keeping.is_true store →
            string_bytes printed.new ≡ string_bytes printed.old ++ closing_of basis stage) }
        ensures leaves { (basis : Basis) (stage : AStage) → IsStage S.keeping basis self stage →
            IfOk result (λ store. S.keeping.is_true store →
            IsLeft S.keeping (starting_from basis stage) (store_of self) store) }
        ensures blames { (basis : Basis) (stage : AStage) →
            IsStage S.keeping basis self stage →
            wanted_at_start basis stage ≤ length pool.old.items →
            Blames S.keeping ActFault.Store (IsBlamed S.keeping basis (store_of self)) result }
        ensures spares { Spares S.keeping ActFault.Memory (store_of self) result }
        ensures halts { (basis : Basis) (stage : AStage) → IsStage S.keeping basis self stage →
            IfErr result (λ fault. HaltsAtEnd S.keeping stage (store_of self) fault.1) }
    {
        match self {
            Stage::Declaring(declared) => {
                let playing = declared.start(alloc, pool, printed)?;
                Ok(playing.stored_core.shut())
            }
            Stage::Playing(playing) => Ok(playing.stored_core.shut()),
        }
    }

    /// The store, where the script ends before its last line.
    pub fn shut(self) -> S
        requires { Always }
        ensures { result ≡ store_of self }
    {
        match self {
            Stage::Declaring(declared) => declared.store,
            Stage::Playing(playing) => playing.stored_core.shut(),
        }
    }

    /// The boxes that a line wants. The store is read, and stays as it is.
    pub fn wanted(&mut self, alloc: Global, line: &[u8]) -> Result<Wanted, ActFault>
        requires { Always }
        ensures sound { IsSound self.old → IsSound self.new }
        ensures truth { S.keeping.is_true (store_of self.new) →
            S.keeping.is_true (store_of self.old) }
        ensures stands { (basis : Basis) (stage : AStage) →
            IsStage S.keeping basis self.old stage →
            IsStage S.keeping basis self.new stage }
        ensures names { names_in self.new ≡ names_in self.old }
        ensures stood { (log : Log) → S.keeping.stands (store_of self.old) log →
            S.keeping.stands (store_of self.new) log }
        ensures counts { OnOk result (S.keeping.faults (store_of self.new)
            ≡ S.keeping.faults (store_of self.old)) }
        ensures spared { IsSpared S.keeping ActFault.Memory
            (store_of self.old) (store_of self.new) result }
        ensures blames { (basis : Basis) (stage : AStage) →
            IsStage S.keeping basis self.old stage → IsErrOf result ActFault.Store →
            S.keeping.is_true (store_of self.new) →
            HasRefused S.keeping (store_of self.old) (store_of self.new) }
        ensures willing { (basis : Basis) (stage : AStage) →
            IsStage S.keeping basis self.old stage →
            IfOk result (λ wanted. S.keeping.is_true (store_of self.new) →
            wanted.willing ≡ wanted_by basis stage (move_of line.now)) }
        ensures wanted { IfOk result (AreWanted (move_of line.now)) }
    {
        match Instruction::parse(line) {
            Some(instruction) => {
                let willing = self.willing(instruction)?;
                Ok(Wanted::new(alloc, instruction.kinds(), willing)?)
            }
            None => Ok(Wanted::new(alloc, b"", 0)?),
        }
    }

    /// How many willing boxes the start wants, where the realms have not started. The store is read, and stays as it is.
    pub fn wanted_at_start(&mut self) -> Result<usize, ActFault>
        requires { Always }
        ensures sound { IsSound self.old → IsSound self.new }
        ensures truth { S.keeping.is_true (store_of self.new) →
            S.keeping.is_true (store_of self.old) }
        ensures stands { (basis : Basis) (stage : AStage) →
            IsStage S.keeping basis self.old stage →
            IsStage S.keeping basis self.new stage }
        ensures names { names_in self.new ≡ names_in self.old }
        ensures stood { (log : Log) → S.keeping.stands (store_of self.old) log →
            S.keeping.stands (store_of self.new) log }
        ensures counts { OnOk result (S.keeping.faults (store_of self.new)
            ≡ S.keeping.faults (store_of self.old)) }
        ensures spared { IsSpared S.keeping ActFault.Memory
            (store_of self.old) (store_of self.new) result }
        ensures blames { (basis : Basis) (stage : AStage) →
            IsStage S.keeping basis self.old stage → IsErrOf result ActFault.Store →
            S.keeping.is_true (store_of self.new) →
            HasRefused S.keeping (store_of self.old) (store_of self.new) }
        ensures wanted { (basis : Basis) (stage : AStage) →
            IsStage S.keeping basis self.old stage →
            IfOk result (λ count. S.keeping.is_true (store_of self.new) →
            count ≡ wanted_at_start basis stage) }
    {
        match self {
            Stage::Declaring(declared) => declared.willing(None),
            Stage::Playing(_) => Ok(0),
        }
    }

    /// How many willing boxes an instruction wants: for the start, if it is the first that declares none, and for what it starts
    /// again.
    fn willing(&mut self, instruction: Instruction<'_>) -> Result<usize, ActFault>
        ensures sound { IsSound self.old → IsSound self.new }
        ensures truth { S.keeping.is_true (store_of self.new) →
            S.keeping.is_true (store_of self.old) }
        ensures stands { (basis : Basis) (stage : AStage) →
            IsStage S.keeping basis self.old stage →
            IsStage S.keeping basis self.new stage }
        ensures names { names_in self.new ≡ names_in self.old }
        ensures stood { (log : Log) → S.keeping.stands (store_of self.old) log →
            S.keeping.stands (store_of self.new) log }
        ensures counts { OnOk result (S.keeping.faults (store_of self.new)
            ≡ S.keeping.faults (store_of self.old)) }
        ensures spared { IsSpared S.keeping ActFault.Memory
            (store_of self.old) (store_of self.new) result }
        ensures blames { (basis : Basis) (stage : AStage) →
            IsStage S.keeping basis self.old stage → IsErrOf result ActFault.Store →
            S.keeping.is_true (store_of self.new) →
            HasRefused S.keeping (store_of self.old) (store_of self.new) }
        ensures wanted { (basis : Basis) (stage : AStage) →
            IsStage S.keeping basis self.old stage →
            IfOk result (λ count. S.keeping.is_true (store_of self.new) →
            count ≡ wanted_by basis stage (Some (move_by instruction.entry))) }
    {
        let again = match instruction {
            Instruction::Realm { .. } | Instruction::Labels { .. } => return Ok(0),
            Instruction::Restart => self.rows(None)?,
            Instruction::Renew { realm } => self.rows(Some(realm))?,
            _ => 0,
        };
        let first = self.wanted_at_start()?;
        first.checked_add(again).ok_or(ActFault::Memory)
    }

    /// How many branches the stored rows have, of one realm or of all.
    fn rows(&mut self, only: Option<&str>) -> Result<usize, ActFault>
        ensures sound { IsSound self.old → IsSound self.new }
        ensures truth { S.keeping.is_true (store_of self.new) →
            S.keeping.is_true (store_of self.old) }
        ensures stands { (basis : Basis) (stage : AStage) →
            IsStage S.keeping basis self.old stage →
            IsStage S.keeping basis self.new stage }
        ensures names { names_in self.new ≡ names_in self.old }
        ensures stood { (log : Log) → S.keeping.stands (store_of self.old) log →
            S.keeping.stands (store_of self.new) log }
        ensures counts { OnOk result (S.keeping.faults (store_of self.new)
            ≡ S.keeping.faults (store_of self.old)) }
        ensures spared { IsSpared S.keeping ActFault.Memory
            (store_of self.old) (store_of self.new) result }
        ensures blames { (basis : Basis) (stage : AStage) →
            IsStage S.keeping basis self.old stage → IsErrOf result ActFault.Store →
            S.keeping.is_true (store_of self.new) →
            HasRefused S.keeping (store_of self.old) (store_of self.new) }
        ensures wanted { (basis : Basis) (stage : AStage) →
            IsStage S.keeping basis self.old stage →
            IfOk result (λ count. S.keeping.is_true (store_of self.new) → count
            ≡ box_count (option_map (λ name. name.now) only.entry) (starting_from basis stage)) }
    {
        match self {
            Stage::Declaring(declared) => declared.willing(only),
            Stage::Playing(playing) => playing.willing(only),
        }
    }

    /// Does what an instruction says.
    fn obey<R: Refuser<S>>(
        self,
        alloc: Global,
        refuser: &R,
        instruction: Instruction<'_>,
        boxes: Vec<Box<dyn Branch + Send>>,
        pool: &mut Vec<Box<dyn Branch + Send>>,
        printed: &mut String,
    ) -> Result<Stage<Declared<S>, Playing<StoredCore<S>>>, (LineFault, S)>
        requires sound { IsSound self }
        requires active { AreIn Active (map standing boxes.items) }
        requires willing { AreWilling (map standing pool.old.items) }
        ensures sound { IfOk result IsSound }
        ensures truth { Trusts S.keeping (store_of self) store_of
            result }
        ensures acts { (basis : Basis) (stage : AStage) →
            IsStage S.keeping basis self stage →
            may_say R.may (move_by instruction.entry) ≡ true →
            ComeWith (Some (move_by instruction.entry)) (map standing boxes.items) →
            is_covered basis (Some (move_by instruction.entry)) ≡ true →
            ActsSo S.keeping basis (string_bytes printed.old)
            (string_bytes printed.new) (acts basis stage (move_by instruction.entry)) result }
        ensures leaves { (basis : Basis) (stage : AStage) → IsStage S.keeping basis self stage →
            may_say R.may (move_by instruction.entry) ≡ true →
            ComeWith (Some (move_by instruction.entry)) (map standing boxes.items) →
            IfOk result (λ now. S.keeping.is_true (store_of now) →
            LeavesOthers S.keeping self now) }
        ensures counts { R.may ≡ false → IfOk result (λ now. S.keeping.faults (store_of now)
            ≡ S.keeping.faults (store_of self)) }
        ensures spares { R.may ≡ false →
            Spares S.keeping LineFault.Memory (store_of self) result }
        ensures blames { R.may ≡ false → (basis : Basis) (stage : AStage) →
            IsStage S.keeping basis self stage →
            wanted_by basis stage (Some (move_by instruction.entry)) ≤ length pool.old.items →
            Blames S.keeping LineFault.Store (IsBlamed S.keeping basis (store_of self)) result }
        ensures faults { (basis : Basis) (stage : AStage) → IsStage S.keeping basis self stage →
            LeavesAtFault S.keeping (scene_at basis stage (move_by instruction.entry))
            (store_of self) result }
        ensures halts { (basis : Basis) (stage : AStage) → IsStage S.keeping basis self stage →
            may_say R.may (move_by instruction.entry) ≡ true →
            ComeWith (Some (move_by instruction.entry)) (map standing boxes.items) →
            IfErr result (λ fault. S.keeping.is_true fault.1 → HaltsAt S.keeping basis stage
            (move_by instruction.entry) (store_of self) fault.1) }
    {
        match self {
            Stage::Declaring(declared) => {
                declare(declared, alloc, refuser, instruction, boxes, pool, printed)
            }
            Stage::Playing(playing) => {
                let playing = playing.act(alloc, refuser, instruction, boxes, pool, printed)?;
                Ok(Stage::Playing(playing))
            }
        }
    }
}

/// Does what an instruction says before the realms have started: each but a declaration, and labels, starts them.
fn declare<S: RowLog + Drop, R: Refuser<S>>(
    mut declared: Declared<S>,
    alloc: Global,
    refuser: &R,
    instruction: Instruction<'_>,
    boxes: Vec<Box<dyn Branch + Send>>,
    pool: &mut Vec<Box<dyn Branch + Send>>,
    printed: &mut String,
) -> Result<Stage<Declared<S>, Playing<StoredCore<S>>>, (LineFault, S)>
    requires hostable { list_all may_be_hosted declared.declarations.items ≡ true }
    requires active { AreIn Active (map standing boxes.items) }
    requires willing { AreWilling (map standing pool.old.items) }
    ensures sound { IfOk result IsSound }
    ensures truth { Trusts S.keeping declared.store store_of result }
    ensures acts { (basis : Basis) (declarations : List Declaration) →
        IsDeclared S.keeping basis declared declarations →
        may_say R.may (move_by instruction.entry) ≡ true →
        ComeWith (Some (move_by instruction.entry)) (map standing boxes.items) →
        is_covered basis (Some (move_by instruction.entry)) ≡ true →
        ActsSo S.keeping basis (string_bytes printed.old)
        (string_bytes printed.new)
        (acts basis (Begins declarations) (move_by instruction.entry)) result }
    ensures leaves { (basis : Basis) (declarations : List Declaration) →
        IsDeclared S.keeping basis declared declarations →
        may_say R.may (move_by instruction.entry) ≡ true →
        ComeWith (Some (move_by instruction.entry)) (map standing boxes.items) →
        IfOk result (λ now. S.keeping.is_true (store_of now) →
        LeavesOthers S.keeping (AtFirst declared) now) }
    ensures counts { R.may ≡ false → IfOk result (λ now. S.keeping.faults (store_of now)
        ≡ S.keeping.faults declared.store) }
    ensures spares { R.may ≡ false → Spares S.keeping LineFault.Memory declared.store result }
    ensures blames { R.may ≡ false → (basis : Basis) (declarations : List Declaration) →
        IsDeclared S.keeping basis declared declarations →
        wanted_by basis (Begins declarations) (Some (move_by instruction.entry))
        ≤ length pool.old.items →
        Blames S.keeping LineFault.Store (IsBlamed S.keeping basis declared.store) result }
    ensures faults { (basis : Basis) (declarations : List Declaration) →
        IsDeclared S.keeping basis declared declarations →
        LeavesAtFault S.keeping (scene_at basis (Begins declarations) (move_by instruction.entry))
        declared.store result }
    ensures halts { (basis : Basis) (declarations : List Declaration) →
        IsDeclared S.keeping basis declared declarations →
        may_say R.may (move_by instruction.entry) ≡ true →
        ComeWith (Some (move_by instruction.entry)) (map standing boxes.items) →
        IfErr result (λ fault. S.keeping.is_true fault.1 → HaltsAt S.keeping basis
        (Begins declarations) (move_by instruction.entry) declared.store fault.1) }
{
    let noted = match instruction {
        Instruction::Realm {
            name,
            address,
            branches,
            limits,
        } => declared.add(alloc, name, address, branches, limits),
        Instruction::Labels { realm, labels } => declared.label(alloc, realm, labels),
        _ => {
            let playing = match declared.start(alloc, pool, printed) {
                Ok(playing) => playing,
                Err((fault, store)) => return Err((LineFault::from(fault), store)),
            };
            let playing = playing.act(alloc, refuser, instruction, boxes, pool, printed)?;
            return Ok(Stage::Playing(playing));
        }
    };
    match noted {
        Ok(()) => Ok(Stage::Declaring(declared)),
        Err(fault) => Err((fault, declared.store)),
    }
}

/// Whether an instruction may be said, where a store may be asked to refuse or not.
fn may_say(may_refuse: bool, instruction: Instruction<'_>) -> bool
    ensures { result ≡ may_say may_refuse (move_by instruction.entry) }
{
    match instruction {
        Instruction::Refuse { .. } => may_refuse,
        _ => true,
    }
}
