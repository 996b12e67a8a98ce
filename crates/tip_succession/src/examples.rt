//! A worked example of two processes, over the definitions alone.
ghost use Rattle.std.specs.Prelude.{◌≡◌, [], ◌∷◌, codes, false, true};
ghost use Rattle.tip_machine.specs.Agreement.{is_backed, is_kept};
ghost use Rattle.tip_machine.specs.Agreement.Traces.{at_each};
ghost use Rattle.tip_machine.specs.Examples.Scripts.{id, north};
ghost use Rattle.tip_machine.specs.Examples.Twins.{forged, never_done, never_stored, never_voted};
ghost use Rattle.tip_machine.specs.Honest.{is_run};
ghost use Rattle.tip_machine.specs.Moves.{fresh, led_to};
ghost use Rattle.tip_machine.specs.Starting.{IsStart};
ghost use Rattle.tip_succession.specs.Agreement.{IsAgreedByAll, is_asked_then};
ghost use Rattle.tip_succession.specs.Examples.{moments, moves, next};
ghost use Rattle.tip_succession.specs.Processes.{Follow};

/// The premises of the law can be met: the first makes an honest run from a start, and the second, declared anew, follows it.
pub fn the_second_may_follow()
    ensures start { IsStart (fresh north) }
    ensures run { is_run (fresh north) moves ≡ true }
    ensures follows { Follow (led_to (fresh north) moves) (next ∷ []) }
{}

/// A branch that is declared later was not asked, and need not have been.
pub fn two_declarations_agree()
    ensures { IsAgreedByAll (fresh north) moves (next ∷ []) id }
{}

/// What the second process tells is refused where the first has not stored it, where no branch was asked then, and where none has done it.
pub fn false_twins_are_refused()
    ensures backed { at_each (is_backed (codes "north") id (fresh north)) (forged never_stored moments) ≡ false }
    ensures asked { at_each (is_asked_then (codes "north") id (fresh north)) (forged never_voted moments) ≡ false }
    ensures kept { at_each (is_kept (codes "north") id (fresh north)) (forged never_done moments) ≡ false }
{}
