//! Playing a script.
ghost use Rattle.std.specs.Prelude.{◌≡◌, List, Some, false, true, IfOk, IfSome, IsErrOf, ℕ};
ghost use Rattle.tip_play.specs.Leaving.{Leaves, LeavesAtFault};
ghost use Rattle.tip_play.specs.Transcripts.{Transcribes, TranscribesOn, covers_all, in_memory};
ghost use Rattle.tip_scene.specs.Acts.{Basis};
ghost use Rattle.tip_scene.specs.Blaming.{Blames, IsBlamed, Spares};
ghost use Rattle.tip_scene.specs.Stages.{IsBasis, Trusts};
ghost use Rattle.tip_history.specs.Histories.{AreWritten};
ghost use Rattle.tip_history.specs.Tellings.{Tells, TellsOn};

use std::alloc::Global;
use std::io::{BufRead, Write};
use tip_play::PlayFault;
use tip_rows::RowLog;

/// Plays the script that is read, over rows in memory, and writes what each realm answers. What was written stands, whatever the end
/// is: a front of a text in which each realm has an honest history of its own, and no transaction is half committed.
pub fn play<R: BufRead, W: Write>(
    alloc: Global,
    input: &mut R,
    output: &mut W,
) -> Result<(), PlayFault>
    ensures transcribes { IfSome (R.remaining input.old) (λ script. Transcribes in_memory script
        (R.remaining input.new) (W.contents output.old) (W.contents output.new) result) }
    ensures tells { IfSome (R.remaining input.old) (λ script. Tells in_memory script
        (R.remaining input.new) (W.contents output.old) (W.contents output.new)) }
    ensures unblamed { IsErrOf result PlayFault.Store → ⊥ }
{
    tip_play::play(alloc, input, output)
}

/// Plays the script that is read, over a store of any kind, which no line may ask to refuse. The store comes back, and what was
/// written stands, whatever the end is: where the store may be relied on, and tipd alone wrote what it had of the realms, a front of
/// a text in which each realm has an honest history of its own from that, and no transaction is half committed.
pub fn play_on<S: RowLog + Drop, R: BufRead, W: Write>(
    alloc: Global,
    store: S,
    input: &mut R,
    output: &mut W,
) -> Result<S, (PlayFault, S)>
    ensures truth { Trusts S.keeping store (λ left. left) result }
    ensures transcribes { (basis : Basis) → basis.may_refuse ≡ false →
        IsBasis S.keeping basis store →
        IfSome (R.remaining input.old) (λ script. covers_all basis script ≡ true → TranscribesOn
        S.keeping basis script (R.remaining input.new)
        (W.contents output.old) (W.contents output.new) result) }
    ensures tells { (basis : Basis) → basis.may_refuse ≡ false →
        IsBasis S.keeping basis store → AreWritten basis → (script : List ℕ) →
        R.remaining input.old ≡ Some script → covers_all basis script ≡ true →
        TellsOn S.keeping basis script (R.remaining input.new)
        (W.contents output.old) (W.contents output.new) result }
    ensures leaves { (basis : Basis) → basis.may_refuse ≡ false →
        IsBasis S.keeping basis store → (script : List ℕ) →
        R.remaining input.old ≡ Some script → covers_all basis script ≡ true →
        IfOk result (λ left. S.keeping.is_true left → Leaves S.keeping basis script store left) }
    ensures faults { (basis : Basis) → basis.may_refuse ≡ false →
        IsBasis S.keeping basis store → (script : List ℕ) →
        R.remaining input.old ≡ Some script → covers_all basis script ≡ true →
        LeavesAtFault S.keeping basis script store result }
    ensures blames { (basis : Basis) → basis.may_refuse ≡ false →
        IsBasis S.keeping basis store → (script : List ℕ) →
        R.remaining input.old ≡ Some script → covers_all basis script ≡ true →
        Blames S.keeping PlayFault.Store (IsBlamed S.keeping basis store) result }
    ensures spares { Spares S.keeping PlayFault.Memory store result }
{
    tip_play::play_on(alloc, store, input, output)
}
