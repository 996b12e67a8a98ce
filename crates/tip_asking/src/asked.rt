//! What is asked of a manager, and how it ends.
ghost use Rattle.std.specs.Prelude.{◌≡◌};
ghost use Rattle.tip_asking.specs.Asking.{decision_of, status_of};

use tip_line::Id;

/// How a superior ends a transaction of its subordinate.
#[derive(Clone, Copy, PartialEq, Eq)]
pub enum Decision {
    Commit,
    Abort,
}

impl Decision {
    /// The decision that a word of the command line is: `commit` or `abort`.
    pub fn of(word: &str) -> Option<Decision>
        ensures { result ≡ decision_of word.now }
    {
        if word == "commit" {
            return Some(Decision::Commit);
        }
        if word == "abort" {
            return Some(Decision::Abort);
        }
        None
    }
}

/// What is asked of a manager.
#[derive(Clone, Copy)]
pub enum Asked<'a> {
    /// Whether it is there, and speaks version 3.
    Presence,
    /// Whether it, as the superior, has this transaction (section 13, QUERY).
    Transaction { id: &'a Id },
    /// To end this transaction, which it has prepared (sections 13, RECONNECT, and 15). RECONNECT asks for no address: whoever
    /// says this takes the superior's place.
    End { id: &'a Id, decision: Decision },
}

/// What a manager has answered.
#[derive(Clone, Copy, PartialEq, Eq)]
pub enum Verdict {
    /// It is there, it has the transaction, or the transaction has ended.
    Yes,
    /// It has no such transaction.
    No,
}

impl Verdict {
    /// The exit status of the process.
    pub fn status(self) -> u8
        ensures { result ≡ status_of self }
    {
        match self {
            Verdict::Yes => 0,
            Verdict::No => 3,
        }
    }
}
