//! What waits for an outcome.
ghost use Rattle.std.specs.Prelude.{◌≡◌};
ghost use Rattle.tip_control.specs.Answers.{presence};

use std::fmt;
use tip_line::{Address, Id};
use tip_rows::{Branches, Label};

/// A transaction in doubt.
#[derive(Clone, Copy)]
pub struct InDoubt<'a> {
    pub id: &'a Id,
    /// Where its superior is.
    pub address: &'a Address,
    /// By which name its superior knows it.
    pub superior: &'a Id,
    pub branches: &'a Branches,
    /// Whether its superior is on a connection.
    pub is_connected: bool,
}

/// A subordinate that a committed transaction still owes its outcome.
#[derive(Clone, Copy)]
pub struct Owed<'a> {
    pub id: &'a Id,
    pub address: &'a Address,
    /// By which name the subordinate knows it.
    pub subordinate: &'a Id,
}

impl fmt::Display for InDoubt<'_> {
    ghost use Rattle.std.specs.Prelude.{Some};
    ghost use Rattle.tip_control.specs.Answers.{in_doubt};

    ghost output = { λ doubt. Some (in_doubt doubt) };

    fn fmt<W: fmt::Write>(&self, f: &mut fmt::Formatter<W>) -> fmt::Result {
        let labels = Labels(self.branches.as_slice());
        write!(
            f,
            "in-doubt {} superior {} {} branches {labels} {}",
            self.id,
            self.address,
            self.superior,
            presence(self.is_connected)
        )
    }
}

impl fmt::Display for Owed<'_> {
    ghost use Rattle.std.specs.Prelude.{Some};
    ghost use Rattle.tip_control.specs.Answers.{owed};

    ghost output = { λ due. Some (owed due) };

    fn fmt<W: fmt::Write>(&self, f: &mut fmt::Formatter<W>) -> fmt::Result {
        write!(f, "owed {} {} {}", self.id, self.address, self.subordinate)
    }
}

/// Whether somebody is on a connection, in a word.
fn presence(is_connected: bool) -> &'static str
    ensures { result.now ≡ presence is_connected }
{
    if is_connected { "connected" } else { "alone" }
}

/// One word: the label of each branch, with commas, or a dash where there is none.
#[derive(Drop)]
struct Labels<'a>(&'a [(u8, Label)]);

impl fmt::Display for Labels<'_> {
    ghost use Rattle.std.specs.Prelude.{Some};
    ghost use Rattle.tip_control.specs.Answers.{labels};

    ghost output = { λ some. Some (labels some.0.now) };

    fn fmt<W: fmt::Write>(&self, f: &mut fmt::Formatter<W>) -> fmt::Result {
        match self.0 {
            [] => f.write_str("-"),
            [(_, label), rest @ ..] => {
                let others = Others(rest);
                write!(f, "{label}{others}")
            }
        }
    }
}

/// Labels behind the first, with a comma before each.
#[derive(Drop)]
struct Others<'a>(&'a [(u8, Label)]);

impl fmt::Display for Others<'_> {
    ghost use Rattle.std.specs.Prelude.{Some};
    ghost use Rattle.tip_control.specs.Answers.{others};

    ghost output = { λ some. Some (others some.0.now) };

    fn fmt<W: fmt::Write>(&self, f: &mut fmt::Formatter<W>) -> fmt::Result {
        for (_, label) in self.0 {
            write!(f, ",{label}")?;
        }
        Ok(())
    }
}
