//! How a transaction goes on once an event is noted of it, decided by reading alone (RFC 2371, section 13).
ghost use Rattle.std.specs.Prelude.{◌≡◌};
ghost use Rattle.tip_outlook.specs.Endings.{Meets, done, ending_on, no_endings};
ghost use Rattle.tip_outlook.specs.Wanting.{Course, asking_for};

use tip_machine::{Change, Outcome};

/// How a transaction goes on.
#[derive(Clone, Copy, Debug)]
pub enum Ending {
    Nothing,
    /// Subordinates are asked as soon as they can be.
    Ask,
    /// Nobody has anything to commit: all leave.
    Leave,
    Promise,
    Commit,
    Abort,
    /// Parts that are reached again are told to commit.
    Remind,
    /// Parts that are reached again are told to commit, and it is forgotten.
    Finish,
}

/// How it goes on by what becomes of the change of its row; where it asks for none, one is as the other.
#[derive(Clone, Copy, Debug)]
pub struct Endings {
    pub stored: Ending,
    pub refused: Ending,
}

impl Endings {
    /// Nothing follows.
    pub fn none() -> Endings
        ensures { result ≡ no_endings }
    {
        Endings {
            stored: Ending::Nothing,
            refused: Ending::Nothing,
        }
    }

    /// The one of an outcome.
    pub fn on(self, outcome: Outcome) -> Ending
        ensures { result ≡ ending_on outcome self }
    {
        match outcome {
            Outcome::Stored => self.stored,
            Outcome::Refused | Outcome::NoChange => self.refused,
        }
    }
}

/// The change of its row that it asks for, and how it goes on then.
#[derive(Drop)]
pub struct Next {
    pub change: Option<Change>,
    pub endings: Endings,
}

impl Next {
    /// Nothing follows.
    pub fn nothing() -> Next
        ensures { Meets Course.Stays result }
    {
        Next::asking(None)
    }

    /// Its doubt ends, or it is forgotten, if this change is stored, or nothing follows.
    pub fn asking(change: Option<Change>) -> Next
        ensures { Meets (asking_for change) result }
    {
        Next {
            change,
            endings: Endings::none(),
        }
    }

    /// It asks for no change, and goes on so.
    pub fn done(ending: Ending) -> Next
        ensures { result ≡ done ending }
    {
        Next {
            change: None,
            endings: Endings {
                stored: ending,
                refused: ending,
            },
        }
    }
}
