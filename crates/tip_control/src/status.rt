//! How a realm stands.
use std::fmt;

/// How much is taken of so much.
#[derive(Clone, Copy, PartialEq, Eq)]
pub struct Part {
    pub taken: usize,
    pub limit: u32,
}

/// How a realm stands: how much of its limits it takes up, and what is stored of it.
#[derive(Clone, Copy)]
pub struct Status {
    pub epoch: u32,
    pub connections: Part,
    pub transactions: Part,
    /// Transactions that are prepared: the superior decides.
    pub in_doubt: usize,
    /// Transactions that are committed, and not acknowledged by all.
    pub committed: usize,
    pub entries: Part,
}

impl fmt::Display for Part {
    ghost use Rattle.std.specs.Prelude.{Some};
    ghost use Rattle.tip_control.specs.Answers.{part};

    ghost output = { λ of. Some (part of) };

    fn fmt<W: fmt::Write>(&self, f: &mut fmt::Formatter<W>) -> fmt::Result {
        let (taken, limit) = (self.taken, self.limit);
        write!(f, "{taken} of {limit}")
    }
}

impl fmt::Display for Status {
    ghost use Rattle.std.specs.Prelude.{Some};
    ghost use Rattle.tip_control.specs.Answers.{status};

    ghost output = { λ told. Some (status told) };

    fn fmt<W: fmt::Write>(&self, f: &mut fmt::Formatter<W>) -> fmt::Result {
        write!(
            f,
            "epoch {} connections {} transactions {} in-doubt {} committed {} entries {}",
            self.epoch,
            self.connections,
            self.transactions,
            self.in_doubt,
            self.committed,
            self.entries
        )
    }
}
