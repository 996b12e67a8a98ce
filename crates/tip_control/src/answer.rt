//! What is answered to a request that changes something.
use std::fmt;
use tip_line::{Refusal, Response};

/// What is answered to `retry`, `renew`, `push` and `pull`: a line, without its end.
#[derive(Drop)]
pub enum Answer {
    /// So many managers are called.
    Calls(usize),
    /// The realm has started again in this epoch.
    Epoch(u32),
    /// What the other manager has said.
    Said(Response),
    Refused(Refusal),
}

impl fmt::Display for Answer {
    ghost use Rattle.std.specs.Prelude.{Some};
    ghost use Rattle.tip_control.specs.Answers.{answered};

    ghost output = { λ answer. Some (answered answer) };

    fn fmt<W: fmt::Write>(&self, f: &mut fmt::Formatter<W>) -> fmt::Result {
        match self {
            Answer::Calls(count) => write!(f, "calls {count}"),
            Answer::Epoch(epoch) => write!(f, "epoch {epoch}"),
            Answer::Said(response) => write!(f, "{response}"),
            Answer::Refused(refusal) => write!(f, "refused {refusal}"),
        }
    }
}
