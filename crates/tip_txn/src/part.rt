//! The parts of a transaction.
ghost use Rattle.std.specs.Prelude.{◌≡◌};

use crate::answer::Ballot;
use std::marker::Model;
use tip_line::{Address, Id};

/// The name of a part within its transaction: its place in the order enlisted. Contracts see the place.
#[derive(Clone, Copy, PartialEq, Eq)]
pub struct Part {
    place: usize,
}

impl Model for Part {
    ghost use Rattle.std.specs.Prelude.{ℕ};

    ghost Value = { ℕ };

    ghost view = { λ p. p.place };

    ghost inverse = { λ place. record { place = place } };
}

impl Part {
    /// The part at a place, of which 0 is the local party's.
    pub fn at(place: usize) -> Part
        ensures { result ≡ place }
    {
        Part { place }
    }

    /// The local party.
    pub fn local() -> Part
        ensures { result ≡ 0 }
    {
        Part::at(0)
    }

    /// Its place.
    pub fn place(self) -> usize
        ensures { result ≡ self }
    {
        self.place
    }
}

/// What a transaction keeps of a part. The local party has no address.
#[derive(Drop)]
pub struct Participant {
    /// Where the subordinate is.
    pub address: Option<Address>,
    /// The identifier that the subordinate gave.
    pub id: Option<Id>,
    pub answer: Option<Ballot>,
    /// Whether it was told to commit and said that it has.
    pub acknowledged: bool,
}
