//! Laws of scripts, each carried by a function that does nothing.
ghost use Rattle.std.specs.Prelude.{◌≡◌, ℕ, true, List, [], Some};
ghost use Rattle.std.specs.List.{list_all};
ghost use Rattle.tip_play.specs.Transcripts.{Reached, all_played, in_memory, lines_of, played, transcript};
ghost use Rattle.tip_scene.specs.Acts.{Basis, Declaring, Stage, scene_of};
ghost use Rattle.tip_scene.specs.Blaming.{starting_from};
ghost use Rattle.tip_scene.specs.Scenes.{Scene};
ghost use Rattle.tip_scene.specs.declared.declared.Declaration.{Declaration};
ghost use Rattle.tip_script.specs.Scripts.{Move};
ghost use Rattle.tip_history.specs.Alone.{AreApart, IsAlone, all_moved, is_spelled, text_of};
ghost use Rattle.tip_history.specs.Histories.{AllMayFollow, AreWritten, IsTold, asked_by, declared_by, left_by};

/// ISOLATION AND AGREEMENT: whatever a script says, its transcript says of each realm that it declares what the realm's own machine
/// shows in an honest run of its own, from its start as it was declared and by what was stored of it, over restarts and renewals, to
/// what it is in the end; the run's moves are what the lines ask for that concern it; and no transaction is half committed in it. What
/// was stored is what tipd alone wrote.
pub fn each_transcript_tells_honest_histories()
    ensures { (basis : Basis) → AreWritten basis → (script : List ℕ) →
        IsTold basis (declared_by basis (lines_of script)) (asked_by basis (lines_of script))
        (left_by basis (lines_of script)) (transcript basis script) }
{}

/// The histories of a script that ends well lead to the realms that its store has then, of which `play_on` speaks (`Leaves`).
pub fn the_histories_lead_to_what_is_left()
    ensures { (basis : Basis) (script : List ℕ) (stage : Stage) →
        (all_played basis script).ending ≡ Reached stage →
        left_by basis (lines_of script) ≡ starting_from basis stage }
{}

/// ISOLATION: whatever realms a script declares, and whatever lines follow, each realm prints what it prints where no other realm is
/// there, by the lines that concern it, and is then as it is alone.
pub fn each_realm_is_alone()
    ensures { (basis : Basis) → AreWritten basis →
        (lines : List (List ℕ)) (declarations : List Declaration) (moves : List Move)
        (next : Scene) →
        (played basis (Declaring []) 1 lines).ending ≡ Reached (Declaring declarations) →
        list_all is_spelled moves ≡ true →
        (all_moved moves (scene_of basis declarations)).scene ≡ Some next →
        IsAlone moves (scene_of basis declarations) next
        (all_moved moves (scene_of basis declarations)).printed }
{}

/// ISOLATION OF A SCRIPT: what its lines print says of each realm that they declare what the realm's own lines print, those of it and
/// those of all, up to a line that is not understood.
pub fn each_realm_has_its_own_script()
    ensures { (basis : Basis) → AreWritten basis → (lines : List (List ℕ)) →
        AreApart basis lines (text_of basis lines) }
{}

/// Rows in memory begin with none.
pub fn nothing_was_stored_in_memory()
    ensures { AreWritten in_memory }
{}

/// ACROSS SCRIPTS: what a script leaves of each of its realms, where it ends well, is what tipd alone wrote, so a next script may be
/// played on it, however that declares the realm, as long as an epoch follows. What it leaves in a file `play_on` says.
pub fn what_a_script_leaves_may_be_played_on()
    ensures { (basis : Basis) → AreWritten basis → (script : List ℕ) (stage : Stage) →
        (all_played basis script).ending ≡ Reached stage →
        AllMayFollow (starting_from basis stage) }
{}
