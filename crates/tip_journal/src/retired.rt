//! What is kept of journals that were let go.
ghost use Rattle.std.specs.Prelude.{◌≡◌, ◌+◌, ◌^◌, ◌<◌};
ghost use Rattle.tip_journal.specs.Retiring.{none_retired, with_retired};

use std::marker::Model;

/// How many journals of a realm were let go, and how many entries they had.
#[derive(Drop)]
pub struct Retired {
    starts: u32,
    entries: u64,
}

impl Model for Retired {
    ghost use Rattle.std.specs.Prelude.{◌*◌, ◌≤◌};
    ghost use Rattle.tip_journal.specs.Retiring.{Retired};

    ghost Value = { Retired };

    ghost view = { λ r. record { starts = r.starts; entries = r.entries } };

    // The entries of each fit 32 bits.
    ghost invariant = { λ r. r.entries ≤ r.starts * 4294967295 };
}

impl Retired {
    /// None was let go.
    pub fn none() -> Retired
        ensures { result ≡ none_retired }
    {
        Retired {
            starts: 0,
            entries: 0,
        }
    }

    /// How many journals were let go.
    pub fn starts(&self) -> u32
        ensures { result ≡ self.now.starts }
    {
        self.starts
    }

    /// How many entries they had.
    pub fn entries(&self) -> u64
        ensures { result ≡ self.now.entries }
    {
        self.entries
    }

    /// One more is let go, with so many entries.
    pub fn add(&mut self, entries: u32)
        requires { self.old.starts + 1 < 2 ^ 32 }
        ensures { self.new ≡ with_retired entries self.old }
    {
        self.starts += 1;
        self.entries += u64::from(entries);
    }
}
