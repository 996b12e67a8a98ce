//! What came of an event.
ghost use Rattle.std.specs.Prelude.{◌≡◌};
ghost use Rattle.tip_branch.specs.Always.{Always};

use tip_branch::HeldParty;
use tip_machine::{Answer, Change, Outcome};

/// What one event of a realm came to.
#[derive(Drop)]
pub struct Happened<A = Answer> {
    /// The change of its stored rows that it wanted.
    pub change: Option<Change>,
    /// What became of the change.
    pub outcome: Outcome,
    pub answer: A,
}

impl Happened<Answer> {
    /// The party that goes out, if one does.
    pub fn into_work(self) -> Option<HeldParty>
        requires { Always }
        ensures { result ≡ self.answer.work }
    {
        let Happened { answer, .. } = self;
        let Answer { work, .. } = answer;
        work
    }
}
