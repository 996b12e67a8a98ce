//! Laws of the definitions, each carried by a function that does nothing.
ghost use Rattle.std.specs.Prelude.{◌≡◌, List};
ghost use Rattle.tip_txn.specs.Decisions.{Decides};
ghost use Rattle.tip_txn.specs.Parts.{answers_of};
ghost use Rattle.tip_txn.specs.declared.answer.Decision.{Decision};
ghost use Rattle.tip_txn.specs.declared.part.Participant.{Participant};

/// What the parts of a transaction answer decides one thing, and no other.
#[tactic(auto, using(crate::proofs::DecisionLemmas::decides_one))]
pub fn answers_decide_one_thing()
    ensures { (parts : List Participant) (this that : Decision) → Decides (answers_of parts) this →
        Decides (answers_of parts) that → this ≡ that }
{}
