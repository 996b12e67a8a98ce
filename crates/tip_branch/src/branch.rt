//! What a branch is, what it may be told, and what its plan promises.

ghost use Rattle.std.specs.Prelude.{◌≡◌, ◌≢◌};
ghost use Rattle.tip_branch.specs.Plans.{planned_vote, planned_answer};
ghost use Rattle.tip_branch.specs.Members.{untold};
ghost use Rattle.tip_branch.specs.Standings.{IsVoted, IsCommitted, aborted, asked, committed, phase_after_commit, phase_after_vote};
ghost use Rattle.tip_branch.specs.Votes.{answer_of};
ghost use Rattle.tip_branch.specs.declared.branch.Phase.TheVariants.{Active, Ready, Ended};

use tip_txn::Ballot;

/// What a branch answers when it is asked.
#[derive(Clone, Copy, Debug, PartialEq, Eq, Drop)]
pub enum Vote {
    Yes,
    No,
    ReadOnly,
}

impl Vote {
    /// The answer of whoever voted so, as its transaction takes it.
    pub fn answer(self) -> Ballot
        ensures { result ≡ answer_of self }
    {
        match self {
            Vote::Yes => Ballot::Yes,
            Vote::No => Ballot::No,
            Vote::ReadOnly => Ballot::ReadOnly,
        }
    }

    /// The phase of a branch that voted so.
    fn phase(self) -> Phase
        ensures { result ≡ phase_after_vote self }
    {
        match self {
            Vote::Yes => Phase::Ready,
            Vote::No | Vote::ReadOnly => Phase::Ended,
        }
    }
}

/// What a branch answers to a commit.
#[derive(Clone, Copy, Debug, PartialEq, Eq, Drop)]
pub enum Settled {
    Done,
    /// It stays ready, and is to be told again.
    Later,
}

impl Settled {
    /// The phase of a branch that answered so.
    fn phase(self) -> Phase
        ensures { result ≡ phase_after_commit self }
    {
        match self {
            Settled::Done => Phase::Ended,
            Settled::Later => Phase::Ready,
        }
    }
}

/// How far a branch has come.
#[derive(Clone, Copy, Debug, PartialEq, Eq, Drop)]
pub enum Phase {
    Active,
    /// It voted yes, and waits for the outcome.
    Ready,
    Ended,
}

/// How a branch promises to answer. Its plan never changes.
#[derive(Clone, Copy, Debug, PartialEq, Eq, Drop)]
pub enum Plan {
    /// No promise.
    Open,
    Yes,
    No,
    ReadOnly,
    /// It votes yes; its first commit is answered Later, the others Done.
    Late,
}

impl Plan {
    /// The vote that it promises.
    pub fn vote(self) -> Option<Vote>
        ensures { result ≡ planned_vote self }
    {
        match self {
            Plan::Open => None,
            Plan::Yes | Plan::Late => Some(Vote::Yes),
            Plan::No => Some(Vote::No),
            Plan::ReadOnly => Some(Vote::ReadOnly),
        }
    }

    /// The answer that it promises to a commit before which there were so many others.
    pub fn answer(self, commits: u64) -> Option<Settled>
        ensures { result ≡ planned_answer self commits }
    {
        match self {
            Plan::Open => None,
            Plan::Late if commits == 0 => Some(Settled::Later),
            Plan::Yes | Plan::No | Plan::ReadOnly | Plan::Late => Some(Settled::Done),
        }
    }
}

/// What a branch was told.
#[derive(Clone, Copy, PartialEq, Eq, Drop)]
pub struct Told {
    pub asked: bool,
    pub aborted: bool,
    /// How often it was told to commit. At its greatest value it stays.
    pub commits: u64,
}

/// What a branch is known by. It never changes.
#[derive(Clone, Copy, Debug, PartialEq, Eq, Drop)]
pub struct Badge {
    pub plan: Plan,
    /// A number that its maker gave it.
    pub mark: u64,
}

/// What a branch stands for.
#[derive(Clone, Copy, PartialEq, Eq, Drop)]
pub struct Standing {
    pub badge: Badge,
    pub phase: Phase,
    pub told: Told,
}

impl Standing {
    /// A branch that is known so, in this phase, which was told nothing yet.
    pub fn untold(badge: Badge, phase: Phase) -> Standing
        ensures { result ≡ untold phase badge }
    {
        let told = Told {
            asked: false,
            aborted: false,
            commits: 0,
        };
        Standing { badge, phase, told }
    }

    /// The branch once it was asked and voted.
    pub fn asked(mut self, vote: Vote) -> Standing
        ensures { result ≡ asked self vote }
    {
        self.phase = vote.phase();
        self.told.asked = true;
        self
    }

    /// The branch once it was told to commit and answered.
    pub fn committed(mut self, answer: Settled) -> Standing
        ensures { result ≡ committed self answer }
    {
        self.phase = answer.phase();
        if self.told.commits < u64::MAX {
            self.told.commits += 1;
        }
        self
    }

    /// The branch once it was told to abort.
    pub fn aborted(mut self) -> Standing
        ensures { result ≡ aborted self }
    {
        self.phase = Phase::Ended;
        self.told.aborted = true;
        self
    }
}

/// One resource manager's part of a transaction.
pub trait Branch: Drop {
    ghost use Rattle.tip_branch.specs.declared.branch.Standing.{Standing};

    /// What it is known by, its phase, and what it was told.
    ghost standing: { Self → Standing };

    /// Asks it for its vote.
    fn vote(&mut self) -> Vote
        requires { (standing self.old).phase ≡ Active }
        ensures { IsVoted (standing self.old) result (standing self.new) };

    /// Tells it to commit.
    fn commit(&mut self) -> Settled
        requires { (standing self.old).phase ≡ Ready }
        ensures { IsCommitted (standing self.old) result (standing self.new) };

    /// Tells it to abort.
    fn abort(&mut self)
        requires { (standing self.old).phase ≢ Ended }
        ensures { standing self.new ≡ aborted (standing self.old) };

    fn phase(&self) -> Phase
        ensures { result ≡ (standing self.now).phase };

    fn plan(&self) -> Plan
        ensures { result ≡ (standing self.now).badge.plan };

    /// The number that its maker gave it, by which its calls are known. It never changes.
    fn mark(&self) -> u64
        ensures { result ≡ (standing self.now).badge.mark };
}
