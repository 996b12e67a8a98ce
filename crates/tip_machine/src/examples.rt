//! Worked examples of the machine, over its definitions alone: what short scripts show, and what holds of them.
ghost use Rattle.std.specs.Prelude.{◌≡◌, codes, false, map};
ghost use Rattle.tip_machine.specs.Agreement.{is_asked, is_backed, is_kept, is_one};
ghost use Rattle.tip_machine.specs.Examples.Commits.{late, one_part_says_no, two_parts};
ghost use Rattle.tip_machine.specs.Examples.Failures.{part_lost};
ghost use Rattle.tip_machine.specs.Moves.{fresh};
ghost use Rattle.tip_machine.specs.Examples.Scripts.{IsNeverHalf, Each, IsHonestRun, StaysSound, id, play, trace_of};
ghost use Rattle.tip_machine.specs.Agreement.Traces.{at_each};
ghost use Rattle.tip_machine.specs.Examples.Twins.{denied, forged, never_done, never_stored, never_voted, told_both, told_to_commit, unheard_at};
ghost use Rattle.tip_machine.specs.Examples.{worked};

/// What each script is said to show is what the definitions compute.
pub fn each_shows_what_it_says()
    ensures { map play worked ≡ map (λ example. example.shown) worked }
{}

/// Each example is an honest run from a start.
pub fn runs_are_honest()
    ensures { Each IsHonestRun worked }
{}

/// The invariants hold in each state that the examples reach.
pub fn invariants_hold()
    ensures { Each StaysSound worked }
{}

/// The first transaction of no example is half committed.
pub fn nothing_is_half_committed()
    ensures { Each IsNeverHalf worked }
{}

/// Each sentence of agreement refuses the runs that it is there to refuse.
pub fn false_twins_are_refused()
    ensures one { is_one (codes "north") id (forged told_both (trace_of late)) ≡ false }
    ensures backed { at_each (is_backed (codes "north") id (fresh late.head))
        (forged never_stored (trace_of late)) ≡ false }
    ensures kept_to_branches { at_each (is_kept (codes "north") id (fresh late.head))
        (forged never_done (trace_of late)) ≡ false }
    ensures kept_to_subordinates { at_each (is_kept (codes "north") id (fresh two_parts.head))
        (unheard_at 13 (trace_of two_parts)) ≡ false }
    ensures kept_to_who_asks { at_each (is_kept (codes "north") id (fresh two_parts.head))
        (forged denied (trace_of two_parts)) ≡ false }
    ensures asked_of_branches { at_each (is_asked (codes "north") id (fresh late.head))
        (forged never_voted (trace_of late)) ≡ false }
    ensures asked_of_parts { at_each (is_asked (codes "north") id (fresh two_parts.head))
        (unheard_at 11 (trace_of two_parts)) ≡ false }
    ensures asked_without_a_no { at_each (is_asked (codes "north") id (fresh one_part_says_no.head))
        (forged told_to_commit (trace_of one_part_says_no)) ≡ false }
    ensures asked_without_a_loss { at_each (is_asked (codes "north") id (fresh part_lost.head))
        (forged told_to_commit (trace_of part_lost)) ≡ false }
{}
