//! Playing a script.
ghost use Rattle.std.specs.Prelude.{◌≡◌, ◌≢◌, ◌≤◌, ℕ, List, true, false, Some, length, map, IfErr, IfOk, IfSome, IsErrOf, OnOk};
ghost use Rattle.script_lines.specs.declared.line.LineEnd.TheVariants.{EndOfInput, TooLong};
ghost use Rattle.tip_branch.specs.Lots.{AreIn};
ghost use Rattle.tip_branch.specs.declared.branch.Phase.TheVariants.{Active};
ghost use Rattle.tip_script.specs.Scripts.{move_of};
ghost use Rattle.tip_scene.specs.Acts.{Basis, Stage as AStage, acted, closing_of, is_covered};
ghost use Rattle.tip_scene.specs.Blaming.{Blames, HasRefused, IsBlamed, IsSpared, Spares};
ghost use Rattle.tip_scene.specs.Boxes.{AreWilling};
ghost use Rattle.tip_scene.specs.Leaving.{LeavesOthers, names_in};
ghost use Rattle.tip_rows.specs.Logs.{Log};
ghost use Rattle.tip_scene.specs.Stages.{ComeWith, IsBasis, IsSound, IsStage, Trusts, has_started, store_of};
ghost use Rattle.tip_scene.specs.Wanting.{wanted_at_start, wanted_by};
ghost use Rattle.tip_play.specs.Endings.{ended, unflushed};
ghost use Rattle.tip_play.specs.Leaving.{Leaves, LeavesAtEnd, LeavesAtFault, LeavesAtLine};
ghost use Rattle.tip_play.specs.Transcripts.{Transcribes, TranscribesOn, covers_all, in_memory};
ghost use Rattle.tip_play.specs.Writing.{ActsOn, ClosesOn, HasCome, wanted_next};

use crate::fault::PlayFault;
use script_lines::{LineEnd, ScriptLine};
use simulated_branch::Simulated;
use std::alloc::Global;
use std::io::{BufRead, Write};
use tip_actor::{ByItself, ByScript, Refuser};
use tip_branch::{Branch, Phase, Plan};
use tip_core::Core;
use tip_rows::{MemRows, RowLog};
use tip_scene::{Declared, LineFault, Playing, Stage, Wanted, add_box};
use tip_script::plan_of;
use tip_stored::StoredCore;
use tip_writing::write_front;

/// The number of a line, or of the end of a script, behind which there are no numbers.
const LAST_LINE: u64 = u64::MAX - 1;

/// Plays the script that is read, over rows in memory, and writes what each realm answers. What was written stands, whatever the
/// end is.
pub fn play<R: BufRead, W: Write>(
    alloc: Global,
    input: &mut R,
    output: &mut W,
) -> Result<(), PlayFault>
    ensures transcribes { IfSome (R.remaining input.old) (λ script. Transcribes in_memory script
        (R.remaining input.new) (W.contents output.old) (W.contents output.new) result) }
    ensures unblamed { IsErrOf result PlayFault.Store → ⊥ }
{
    ended(play_over(alloc, MemRows::new(alloc), &ByScript, input, output))
}

/// How a script over rows in memory has ended: where these refuse and were not asked to, memory has ended.
fn ended(end: Result<MemRows, (PlayFault, MemRows)>) -> Result<(), PlayFault>
    ensures { result ≡ ended end }
{
    match end {
        Ok(_) => Ok(()),
        Err((PlayFault::Store, _)) => Err(PlayFault::Memory),
        Err((fault, _)) => Err(fault),
    }
}

/// Plays the script that is read, over a store of any kind, which refuses of itself alone: no line may ask it to. The store comes
/// back, and what was written stands, whatever the end is.
pub fn play_on<S: RowLog + Drop, R: BufRead, W: Write>(
    alloc: Global,
    store: S,
    input: &mut R,
    output: &mut W,
) -> Result<S, (PlayFault, S)>
    ensures truth { Trusts S.keeping store (λ left. left) result }
    ensures transcribes { (basis : Basis) → basis.may_refuse ≡ false →
        IsBasis S.keeping basis store →
        IfSome (R.remaining input.old) (λ script. covers_all basis script ≡ true → TranscribesOn
        S.keeping basis script (R.remaining input.new)
        (W.contents output.old) (W.contents output.new) result) }
    ensures leaves { (basis : Basis) → basis.may_refuse ≡ false →
        IsBasis S.keeping basis store → (script : List ℕ) →
        R.remaining input.old ≡ Some script → covers_all basis script ≡ true →
        IfOk result (λ left. S.keeping.is_true left → Leaves S.keeping basis script store left) }
    ensures faults { (basis : Basis) → basis.may_refuse ≡ false →
        IsBasis S.keeping basis store → (script : List ℕ) →
        R.remaining input.old ≡ Some script → covers_all basis script ≡ true →
        LeavesAtFault S.keeping basis script store result }
    ensures blames { (basis : Basis) → basis.may_refuse ≡ false →
        IsBasis S.keeping basis store → (script : List ℕ) →
        R.remaining input.old ≡ Some script → covers_all basis script ≡ true →
        Blames S.keeping PlayFault.Store (IsBlamed S.keeping basis store) result }
    ensures spares { Spares S.keeping PlayFault.Memory store result }
{
    play_over(alloc, store, &ByItself, input, output)
}

/// Plays the script that is read, over a store that its lines may ask to refuse where the refuser can. The store comes back, and
/// what was written stands, whatever the end is.
fn play_over<S: RowLog + Drop, F: Refuser<S>, R: BufRead, W: Write>(
    alloc: Global,
    store: S,
    refuser: &F,
    input: &mut R,
    output: &mut W,
) -> Result<S, (PlayFault, S)>
    ensures truth { Trusts S.keeping store (λ left. left) result }
    ensures transcribes { (basis : Basis) → basis.may_refuse ≡ F.may →
        IsBasis S.keeping basis store →
        IfSome (R.remaining input.old) (λ script. covers_all basis script ≡ true → TranscribesOn
        S.keeping basis script (R.remaining input.new)
        (W.contents output.old) (W.contents output.new) result) }
    ensures leaves { (basis : Basis) → basis.may_refuse ≡ F.may →
        IsBasis S.keeping basis store → (script : List ℕ) →
        R.remaining input.old ≡ Some script → covers_all basis script ≡ true →
        IfOk result (λ left. S.keeping.is_true left → Leaves S.keeping basis script store left) }
    ensures faults { (basis : Basis) → basis.may_refuse ≡ F.may →
        IsBasis S.keeping basis store → (script : List ℕ) →
        R.remaining input.old ≡ Some script → covers_all basis script ≡ true →
        LeavesAtFault S.keeping basis script store result }
    ensures blames { F.may ≡ false → (basis : Basis) → basis.may_refuse ≡ F.may →
        IsBasis S.keeping basis store → (script : List ℕ) →
        R.remaining input.old ≡ Some script → covers_all basis script ≡ true →
        Blames S.keeping PlayFault.Store (IsBlamed S.keeping basis store) result }
    ensures spares { F.may ≡ false → Spares S.keeping PlayFault.Memory store result }
{
    let end = play_lines(alloc, store, refuser, input, output);
    match output.flush() {
        Ok(()) => end,
        Err(_) => unflushed(end),
    }
}

/// How a script has ended whose output was not flushed.
fn unflushed<S: RowLog + Drop>(end: Result<S, (PlayFault, S)>) -> Result<S, (PlayFault, S)>
    ensures { result ≡ unflushed end }
{
    match end {
        Ok(store) => Err((PlayFault::Write, store)),
        Err((PlayFault::Script { .. }, store)) => Err((PlayFault::Write, store)),
        Err(fault) => Err(fault),
    }
}

/// Reads to the end, line by line. The boxes that come with a line, and those for the rows of realms that start, are made here.
fn play_lines<S: RowLog + Drop, F: Refuser<S>, R: BufRead, W: Write>(
    alloc: Global,
    store: S,
    refuser: &F,
    input: &mut R,
    output: &mut W,
) -> Result<S, (PlayFault, S)>
    ensures truth { Trusts S.keeping store (λ left. left) result }
    ensures transcribes { (basis : Basis) → basis.may_refuse ≡ F.may →
        IsBasis S.keeping basis store →
        IfSome (R.remaining input.old) (λ script. covers_all basis script ≡ true → TranscribesOn
        S.keeping basis script (R.remaining input.new)
        (W.contents output.old) (W.contents output.new) result) }
    ensures leaves { (basis : Basis) → basis.may_refuse ≡ F.may →
        IsBasis S.keeping basis store → (script : List ℕ) →
        R.remaining input.old ≡ Some script → covers_all basis script ≡ true →
        IfOk result (λ left. S.keeping.is_true left → Leaves S.keeping basis script store left) }
    ensures faults { (basis : Basis) → basis.may_refuse ≡ F.may →
        IsBasis S.keeping basis store → (script : List ℕ) →
        R.remaining input.old ≡ Some script → covers_all basis script ≡ true →
        LeavesAtFault S.keeping basis script store result }
    ensures blames { F.may ≡ false → (basis : Basis) → basis.may_refuse ≡ F.may →
        IsBasis S.keeping basis store → (script : List ℕ) →
        R.remaining input.old ≡ Some script → covers_all basis script ≡ true →
        Blames S.keeping PlayFault.Store (IsBlamed S.keeping basis store) result }
    ensures spares { F.may ≡ false → Spares S.keeping PlayFault.Memory store result }
{
    let Ok(mut line) = ScriptLine::new(alloc) else {
        return Err((PlayFault::Memory, store));
    };
    let mut printed = String::new(alloc);
    let mut stage = Stage::new(alloc, Core::new(alloc), store);
    let mut is_over = false;
    for number in 1..u64::MAX {
        if is_beyond(number, is_over) {
            return Err((PlayFault::Read, stage.shut()));
        }
        let coming = match next(&mut stage, alloc, number, is_over, &mut line, input) {
            Ok(coming) => coming,
            Err(fault) => return Err((fault, stage.shut())),
        };
        let mut boxes: Vec<Box<dyn Branch + Send>> = Vec::new(alloc);
        for kind in &coming.wanted.kinds {
            let plan = plan_of(*kind);
            let Ok(branch) = Box::new(alloc, Simulated::new(plan, Phase::Active)) else {
                return Err((PlayFault::Memory, stage.shut()));
            };
            if add_box(&mut boxes, plan, Phase::Active, branch).is_err() {
                return Err((PlayFault::Memory, stage.shut()));
            }
        }
        let mut pool: Vec<Box<dyn Branch + Send>> = Vec::new(alloc);
        for _ in 0..coming.wanted.willing {
            let Ok(branch) = Box::new(alloc, Simulated::new(Plan::Yes, Phase::Ready)) else {
                return Err((PlayFault::Memory, stage.shut()));
            };
            if add_box(&mut pool, Plan::Yes, Phase::Ready, branch).is_err() {
                return Err((PlayFault::Memory, stage.shut()));
            }
        }
        if is_over {
            return finish(stage, alloc, &mut pool, &mut printed, output);
        }
        let text = line.as_slice();
        stage = act(
            stage,
            alloc,
            refuser,
            number,
            text,
            boxes,
            &mut pool,
            &mut printed,
            output,
        )?;
        is_over = is_last(coming.end);
    }
    unreachable!()
}

/// Whether a line would come that has no number.
fn is_beyond(number: u64, is_over: bool) -> bool
    ensures yes { result ≡ true → is_over ≡ false }
    ensures last { result ≡ true → number ≡ LAST_LINE }
    ensures no { result ≡ false → is_over ≡ false → number ≢ LAST_LINE }
{
    !is_over && number == LAST_LINE
}

/// What comes next: a line, or the end of the script, and the boxes that it wants.
#[derive(Drop)]
struct Coming {
    end: LineEnd,
    wanted: Wanted,
}

/// The next line that is read, or the end of the script where it was read to its end. The store is read, and stays as it is.
fn next<S: RowLog + Drop, R: BufRead>(
    stage: &mut Stage<Declared<S>, Playing<StoredCore<S>>>,
    alloc: Global,
    number: u64,
    is_over: bool,
    line: &mut ScriptLine,
    input: &mut R,
) -> Result<Coming, PlayFault>
    ensures sound { IsSound stage.old → IsSound stage.new }
    ensures truth { S.keeping.is_true (store_of stage.new) →
        S.keeping.is_true (store_of stage.old) }
    ensures stands { (basis : Basis) (now : AStage) →
        IsStage S.keeping basis stage.old now →
        IsStage S.keeping basis stage.new now }
    ensures coming { HasCome (R.remaining input.old) (R.remaining input.new) number is_over
        line.new.octets.items result }
    ensures names { names_in stage.new ≡ names_in stage.old }
    ensures stood { (log : Log) → S.keeping.stands (store_of stage.old) log →
        S.keeping.stands (store_of stage.new) log }
    ensures counts { OnOk result (S.keeping.faults (store_of stage.new)
        ≡ S.keeping.faults (store_of stage.old)) }
    ensures spared { IsSpared S.keeping PlayFault.Memory
        (store_of stage.old) (store_of stage.new) result }
    ensures blames { (basis : Basis) (now : AStage) →
        IsStage S.keeping basis stage.old now → IsErrOf result PlayFault.Store →
        S.keeping.is_true (store_of stage.new) →
        HasRefused S.keeping (store_of stage.old) (store_of stage.new) }
    ensures wanted { (basis : Basis) (now : AStage) →
        IsStage S.keeping basis stage.old now →
        IfOk result (λ coming. S.keeping.is_true (store_of stage.new) → coming.wanted.willing
        ≡ wanted_next basis now is_over line.new.octets.items) }
{
    if is_over {
        let willing = stage.wanted_at_start()?;
        return Ok(Coming {
            end: LineEnd::EndOfInput,
            wanted: Wanted::of_rows(alloc, willing),
        });
    }
    let end = line.read(input)?;
    if is_too_long(end) {
        return Err(PlayFault::Script { line: number });
    }
    let wanted = stage.wanted(alloc, line.as_slice())?;
    Ok(Coming { end, wanted })
}

/// Whether a line is the last one.
fn is_last(end: LineEnd) -> bool
    ensures yes { result ≡ true → end ≡ EndOfInput }
    ensures no { result ≡ false → end ≢ EndOfInput }
{
    match end {
        LineEnd::EndOfInput => true,
        LineEnd::LineFeed | LineEnd::TooLong => false,
    }
}

/// Whether a line has more octets than a line may have.
fn is_too_long(end: LineEnd) -> bool
    ensures yes { result ≡ true → end ≡ TooLong }
    ensures no { result ≡ false → end ≢ TooLong }
{
    match end {
        LineEnd::TooLong => true,
        LineEnd::LineFeed | LineEnd::EndOfInput => false,
    }
}

/// Does what a line says, and writes what it prints.
fn act<S: RowLog + Drop, F: Refuser<S>, W: Write>(
    stage: Stage<Declared<S>, Playing<StoredCore<S>>>,
    alloc: Global,
    refuser: &F,
    number: u64,
    line: &[u8],
    boxes: Vec<Box<dyn Branch + Send>>,
    pool: &mut Vec<Box<dyn Branch + Send>>,
    printed: &mut String,
    output: &mut W,
) -> Result<Stage<Declared<S>, Playing<StoredCore<S>>>, (PlayFault, S)>
    requires sound { IsSound stage }
    requires active { AreIn Active (map standing boxes.items) }
    requires willing { AreWilling (map standing pool.old.items) }
    ensures sound { IfOk result IsSound }
    ensures truth { Trusts S.keeping (store_of stage) store_of result }
    ensures acts { (basis : Basis) (now : AStage) → basis.may_refuse ≡ F.may →
        IsStage S.keeping basis stage now →
        ComeWith (move_of line.now) (map standing boxes.items) →
        is_covered basis (move_of line.now) ≡ true →
        ActsOn S.keeping basis number (acted basis now line.now)
        (W.contents output.old) (W.contents output.new) result }
    ensures leaves { (basis : Basis) (now : AStage) → basis.may_refuse ≡ F.may →
        IsStage S.keeping basis stage now →
        ComeWith (move_of line.now) (map standing boxes.items) →
        IfOk result (λ next. S.keeping.is_true (store_of next) →
        LeavesOthers S.keeping stage next) }
    ensures faults { (basis : Basis) (now : AStage) → basis.may_refuse ≡ F.may →
        IsStage S.keeping basis stage now →
        ComeWith (move_of line.now) (map standing boxes.items) →
        is_covered basis (move_of line.now) ≡ true →
        LeavesAtLine S.keeping basis now line.now stage result }
    ensures counts { F.may ≡ false → IfOk result (λ now. S.keeping.faults (store_of now)
        ≡ S.keeping.faults (store_of stage)) }
    ensures spares { F.may ≡ false → Spares S.keeping PlayFault.Memory (store_of stage) result }
    ensures blames { F.may ≡ false → (basis : Basis) (now : AStage) →
        IsStage S.keeping basis stage now →
        wanted_by basis now (move_of line.now) ≤ length pool.old.items →
        Blames S.keeping PlayFault.Store (IsBlamed S.keeping basis (store_of stage)) result }
{
    printed.clear();
    match stage.act(alloc, refuser, line, boxes, pool, printed) {
        Ok(stage) => match write_front(output, printed.as_bytes()) {
            Ok(()) => Ok(stage),
            Err(_) => Err((PlayFault::Write, stage.shut())),
        },
        Err((LineFault::NotUnderstood, store)) => match write_front(output, printed.as_bytes()) {
            Ok(()) => Err((PlayFault::Script { line: number }, store)),
            Err(_) => Err((PlayFault::Write, store)),
        },
        Err((LineFault::Memory, store)) => Err((PlayFault::Memory, store)),
        Err((LineFault::Store, store)) => Err((PlayFault::Store, store)),
    }
}

/// The script has ended: the realms start, if they have not. Once they have, only writing can fail.
fn finish<S: RowLog + Drop, W: Write>(
    stage: Stage<Declared<S>, Playing<StoredCore<S>>>,
    alloc: Global,
    pool: &mut Vec<Box<dyn Branch + Send>>,
    printed: &mut String,
    output: &mut W,
) -> Result<S, (PlayFault, S)>
    requires sound { IsSound stage }
    requires willing { AreWilling (map standing pool.old.items) }
    ensures truth { Trusts S.keeping (store_of stage) (λ store. store)
        result }
    ensures closes { (basis : Basis) (now : AStage) →
        IsStage S.keeping basis stage now →
        ClosesOn S.keeping (closing_of basis now)
        (W.contents output.old) (W.contents output.new) result }
    ensures leaves { (basis : Basis) (now : AStage) → IsStage S.keeping basis stage now →
        LeavesAtEnd S.keeping basis now (store_of stage) result }
    ensures started { has_started stage ≡ true →
        IfErr result (λ fault. fault.0 ≡ PlayFault.Write) }
    ensures blames { (basis : Basis) (now : AStage) → IsStage S.keeping basis stage now →
        wanted_at_start basis now ≤ length pool.old.items →
        Blames S.keeping PlayFault.Store (IsBlamed S.keeping basis (store_of stage)) result }
    ensures spares { Spares S.keeping PlayFault.Memory (store_of stage) result }
{
    printed.clear();
    match stage.finish(alloc, pool, printed) {
        Ok(store) => match write_front(output, printed.as_bytes()) {
            Ok(()) => Ok(store),
            Err(_) => Err((PlayFault::Write, store)),
        },
        Err((fault, store)) => Err((PlayFault::from(fault), store)),
    }
}
