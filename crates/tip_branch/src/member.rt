//! What a party notes of each of its branches.

ghost use Rattle.std.specs.Prelude.{◌≡◌};

use crate::branch::{Badge, Phase, Plan, Settled, Standing, Vote};
use tip_txn::Ballot;

/// What a party is to do while its transaction's lock is free.
#[derive(Clone, Copy, PartialEq, Eq, Drop)]
pub enum Errand {
    /// Nothing.
    Idle,
    /// Ask for the votes.
    Vote,
    /// Tell the outcome, which is commit.
    Commit,
    /// Tell the outcome, which is abort.
    Abort,
}

/// A call that was made on a branch, with its answer.
#[derive(Clone, Copy, PartialEq, Eq, Drop)]
pub enum Call {
    Vote(Vote),
    Commit(Settled),
    Abort,
}

/// What is noted of one branch of a party.
#[derive(Clone, Copy, PartialEq, Eq, Drop)]
pub struct Member {
    /// Its number in its transaction, 1 to 8.
    pub number: u8,
    /// What it is known by, its phase, and what this party told it.
    pub standing: Standing,
    /// What it voted in this party, where it was asked.
    pub vote: Option<Vote>,
    /// The call that was made since the errand was given.
    pub call: Option<Call>,
}

impl Member {
    ghost use Rattle.tip_branch.specs.Members.{new_member, voting, committing, aborting, forgetting, promised_answer, is_active, is_ready};
    ghost use Rattle.tip_branch.specs.Votes.{ballot};
    ghost use Rattle.tip_branch.specs.Errands.{is_vote_of_no};

    /// A branch that is known so, in this phase, which was told nothing by its party.
    pub(crate) fn new(number: u8, badge: Badge, phase: Phase) -> Member
        ensures { result ≡ new_member number badge phase }
    {
        Member {
            number,
            standing: Standing::untold(badge, phase),
            vote: None,
            call: None,
        }
    }

    /// The member once it was asked and voted.
    pub(crate) fn voting(mut self, vote: Vote) -> Member
        ensures { result ≡ voting self vote }
    {
        self.standing = self.standing.asked(vote);
        self.vote = Some(vote);
        self.call = Some(Call::Vote(vote));
        self
    }

    /// The member once it was told to commit and answered.
    pub(crate) fn committing(mut self, answer: Settled) -> Member
        ensures { result ≡ committing self answer }
    {
        self.standing = self.standing.committed(answer);
        self.call = Some(Call::Commit(answer));
        self
    }

    /// The member once it was told to abort.
    pub(crate) fn aborting(mut self) -> Member
        ensures { result ≡ aborting self }
    {
        self.standing = self.standing.aborted();
        self.call = Some(Call::Abort);
        self
    }

    /// The member without its new call.
    pub(crate) fn forgetting(mut self) -> Member
        ensures { result ≡ forgetting self }
    {
        self.call = None;
        self
    }

    /// The answer to a commit that it promises.
    pub(crate) fn promised_answer(self) -> Option<Settled>
        ensures { result ≡ promised_answer self }
    {
        let commits = self.standing.told.commits;
        if self.standing.badge.plan == Plan::Late && commits == 0 && self.vote.is_none() {
            return None;
        }
        self.standing.badge.plan.answer(commits)
    }

    pub fn is_active(&self) -> bool
        ensures { result ≡ is_active self.now }
    {
        self.standing.phase == Phase::Active
    }

    pub fn is_ready(&self) -> bool
        ensures { result ≡ is_ready self.now }
    {
        self.standing.phase == Phase::Ready
    }

    /// Its answer in its party's vote. One that is still active is a no; one that came ready has none.
    pub fn ballot(&self) -> Option<Ballot>
        ensures { result ≡ ballot self.now }
    {
        if self.is_active() {
            return Some(Ballot::No);
        }
        Some(self.vote?.answer())
    }

    /// Whether its new call is a vote of no.
    pub(crate) fn said_no(&self) -> bool
        ensures { result ≡ is_vote_of_no self.now.call }
    {
        matches!(self.call, Some(Call::Vote(Vote::No)))
    }
}
