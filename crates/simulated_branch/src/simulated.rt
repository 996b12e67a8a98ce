//! A branch that stands for one of a resource manager.
ghost use Rattle.std.specs.Prelude.{◌≡◌};
ghost use Rattle.tip_branch.specs.Members.{untold};
ghost use Rattle.tip_branch.specs.Standings.{nothing};
ghost use Rattle.tip_branch.specs.declared.branch.Phase.TheVariants.{Active};

use tip_branch::{Badge, Branch, Phase, Plan, Settled, Standing, Vote};

/// A branch that does what its plan promises.
#[derive(Drop)]
pub struct Simulated {
    standing: Standing,
    ghost untold: { standing.phase ≡ Active → standing.told ≡ nothing },
}

impl Simulated {
    /// A branch in this phase, which was told nothing. Its mark is 0, as that of each other: nobody tells them apart.
    pub fn new(plan: Plan, phase: Phase) -> Simulated
        ensures { result.standing ≡ untold phase (record { plan = plan; mark = 0 }) }
    {
        Simulated {
            standing: Standing::untold(Badge { plan, mark: 0 }, phase),
        }
    }
}

impl Branch for Simulated {
    ghost standing = { λ branch. branch.standing };

    fn vote(&mut self) -> Vote {
        let vote = self.standing.badge.plan.vote().unwrap_or(Vote::Yes);
        self.standing = self.standing.asked(vote);
        vote
    }

    fn commit(&mut self) -> Settled {
        let commits = self.standing.told.commits;
        let plan = self.standing.badge.plan;
        let settled = plan.answer(commits).unwrap_or(Settled::Done);
        self.standing = self.standing.committed(settled);
        settled
    }

    fn abort(&mut self) {
        self.standing = self.standing.aborted();
    }

    fn phase(&self) -> Phase {
        self.standing.phase
    }

    fn plan(&self) -> Plan {
        self.standing.badge.plan
    }

    fn mark(&self) -> u64 {
        self.standing.badge.mark
    }
}
