//! A branch that counts its calls, for tests that see who is told what.

ghost use Rattle.std.specs.Prelude.{◌≡◌, IfOk};
ghost use Rattle.tip_branch.specs.Members.{untold};
ghost use Rattle.tip_branch.specs.Standings.{nothing};
ghost use Rattle.tip_branch.specs.declared.branch.Phase.TheVariants.{Active};

use std::alloc::AllocError;
use std::sync::Arc;
use std::sync::atomic::{AtomicU64, Ordering};
use tip_branch::{Badge, Branch, Phase, Plan, Settled, Standing, Vote};

/// How often a branch was told what, as it counted itself.
#[derive(Drop)]
pub struct Counters {
    votes: AtomicU64,
    commits: AtomicU64,
    aborts: AtomicU64,
}

impl Counters {
    /// No call was counted yet.
    pub fn new() -> Counters {
        Counters {
            votes: AtomicU64::new(0),
            commits: AtomicU64::new(0),
            aborts: AtomicU64::new(0),
        }
    }

    /// Votes, commits and aborts.
    pub fn counted(&self) -> (u64, u64, u64) {
        (
            self.votes.load(Ordering::SeqCst),
            self.commits.load(Ordering::SeqCst),
            self.aborts(),
        )
    }

    pub fn aborts(&self) -> u64 {
        self.aborts.load(Ordering::SeqCst)
    }
}

/// A branch that keeps its plan, votes yes where it promises nothing, and counts its calls.
#[derive(Drop)]
pub struct Probe {
    standing: Standing,
    counters: Arc<Counters>,
    ghost untold: { standing.phase ≡ Active → standing.told ≡ nothing },
}

impl Probe {
    /// A branch in this phase, which was told nothing. Its calls are counted here.
    pub fn new(
        plan: Plan,
        mark: u64,
        phase: Phase,
        counters: &Arc<Counters>,
    ) -> Result<Probe, AllocError>
        ensures { IfOk result
            (λ probe. probe.standing ≡ untold phase (record { plan = plan; mark = mark })) }
    {
        Ok(Probe {
            standing: Standing::untold(Badge { plan, mark }, phase),
            counters: Arc::try_clone(counters)?,
        })
    }
}

impl Branch for Probe {
    ghost standing = { λ p. p.standing };

    fn vote(&mut self) -> Vote {
        self.counters.votes.fetch_add(1, Ordering::SeqCst);
        let vote = self.standing.badge.plan.vote().unwrap_or(Vote::Yes);
        self.standing = self.standing.asked(vote);
        vote
    }

    fn commit(&mut self) -> Settled {
        self.counters.commits.fetch_add(1, Ordering::SeqCst);
        let commits = self.standing.told.commits;
        let plan = self.standing.badge.plan;
        let settled = plan.answer(commits).unwrap_or(Settled::Done);
        self.standing = self.standing.committed(settled);
        settled
    }

    fn abort(&mut self) {
        self.counters.aborts.fetch_add(1, Ordering::SeqCst);
        self.standing = self.standing.aborted();
    }

    fn phase(&self) -> Phase {
        self.standing.phase
    }

    fn plan(&self) -> Plan {
        self.standing.badge.plan
    }

    fn mark(&self) -> u64 {
        self.standing.badge.mark
    }
}
