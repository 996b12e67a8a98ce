//! What the parties of a transaction answer, and what comes of it.

/// What a party answers to the question whether it is prepared.
#[derive(Clone, Copy, PartialEq, Eq)]
pub enum Ballot {
    Yes,
    No,
    /// It has nothing to commit and leaves.
    ReadOnly,
    /// It was lost before it answered.
    Lost,
}

/// What the answers decide.
#[derive(Clone, Copy, PartialEq, Eq)]
pub enum Decision {
    /// An answer is missing, and none refuses.
    Wait,
    Commit,
    Abort,
    /// Nobody has anything to commit.
    ReadOnly,
}

/// How far a transaction has come.
#[derive(Clone, Copy, Debug, PartialEq, Eq)]
pub enum Phase {
    Active,
    /// Its parties were asked whether they are prepared.
    Asking,
    Prepared,
    Committed,
    Aborted,
}
