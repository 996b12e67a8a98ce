//! The count of what the parts of a transaction have answered.
ghost use Rattle.std.specs.Prelude.{ℕ, ◌≡◌, ◌+◌, ◌<◌, ◌^◌, List, [], ◌∷◌, length};
ghost use Rattle.tip_txn.specs.Decisions.{Decides};
ghost use Rattle.tip_txn.specs.Parts.{answered, answers_of, changed_at};
ghost use Rattle.tip_txn.specs.Tallies.{IsTally, IsTallyWith};
ghost use Rattle.tip_txn.specs.Transactions.{local_party, promised_parts};
ghost use Rattle.tip_txn.specs.declared.part.Participant.{Participant};

use crate::answer::{Ballot, Decision};

/// How many parts have answered what. One that has nothing to commit decides nothing, and is not counted.
#[derive(Clone, Copy)]
pub(crate) struct Tally {
    /// Parts that have not answered.
    missing: usize,
    /// Parts that are prepared.
    yes: usize,
    /// Parts that refused.
    no: usize,
    /// Parts that were lost before they answered.
    lost: usize,
}

impl Tally {
    /// Of one part, which has not answered.
    pub(crate) fn new() -> Tally
        ensures { IsTally result (local_party ∷ []) }
    {
        Tally {
            missing: 1,
            yes: 0,
            no: 0,
            lost: 0,
        }
    }

    /// Of so many parts, which all said yes.
    pub(crate) fn willing(count: usize) -> Tally
        ensures { (subordinates : List (List ℕ × List ℕ)) →
            length (promised_parts subordinates) ≡ count →
            IsTally result (promised_parts subordinates) }
    {
        Tally {
            missing: 0,
            yes: count,
            no: 0,
            lost: 0,
        }
    }

    /// With a part more, of this answer. None is that of a part which has not answered.
    pub(crate) fn with(self, answer: Option<Ballot>) -> Tally
        requires { (parts : List Participant) × IsTally self parts × (length parts + 1 < 2 ^ 64) }
        ensures { (part : Participant) (parts : List Participant) → part.answer ≡ answer →
            IsTally self parts → IsTally result (part ∷ parts) }
    {
        match answer {
            None => Tally {
                missing: self.missing + 1,
                ..self
            },
            Some(Ballot::Yes) => Tally {
                yes: self.yes + 1,
                ..self
            },
            Some(Ballot::No) => Tally {
                no: self.no + 1,
                ..self
            },
            Some(Ballot::ReadOnly) => self,
            Some(Ballot::Lost) => Tally {
                lost: self.lost + 1,
                ..self
            },
        }
    }

    /// Without a part of this answer.
    fn without(self, answer: Option<Ballot>) -> Tally
        requires { IsTallyWith self answer }
        ensures { (part : Participant) (parts : List Participant) → part.answer ≡ answer →
            IsTally self (part ∷ parts) → IsTally result parts }
    {
        match answer {
            None => Tally {
                missing: self.missing - 1,
                ..self
            },
            Some(Ballot::Yes) => Tally {
                yes: self.yes - 1,
                ..self
            },
            Some(Ballot::No) => Tally {
                no: self.no - 1,
                ..self
            },
            Some(Ballot::ReadOnly) => self,
            Some(Ballot::Lost) => Tally {
                lost: self.lost - 1,
                ..self
            },
        }
    }

    /// With the answer of one part, which was `before`, in its place.
    pub(crate) fn moved(self, before: Option<Ballot>, answer: Ballot) -> Tally
        requires { IsTallyWith self before }
        ensures { (parts : List Participant) (part : ℕ) → answers_of parts part before →
            IsTally self parts → IsTally result (changed_at part (answered answer) parts) }
    {
        let others = self.without(before);
        others.with(Some(answer))
    }

    /// What the answers decide.
    pub(crate) fn decide(self) -> Decision
        ensures { (parts : List Participant) → IsTally self parts →
            Decides (answers_of parts) result }
    {
        if self.no > 0 || self.lost > 0 {
            Decision::Abort
        } else if self.missing > 0 {
            Decision::Wait
        } else if self.yes > 0 {
            Decision::Commit
        } else {
            Decision::ReadOnly
        }
    }
}
