//! The fault of boxes that are not all in the phase that they are to be in.

use crate::branch::{Branch, Phase};
use std::fmt;

/// Boxes of which one is not in that phase, handed back.
#[derive(Drop)]
pub struct WrongPhase {
    /// Active for fresh boxes, Ready for prepared ones.
    pub phase: Phase,
    pub boxes: Vec<Box<dyn Branch + Send>>,
}

impl fmt::Display for WrongPhase {
    fn fmt<W: fmt::Write>(&self, f: &mut fmt::Formatter<W>) -> fmt::Result {
        f.write_str(match self.phase {
            Phase::Active => "a branch is not active",
            Phase::Ready => "a branch is not ready",
            Phase::Ended => "a branch has not ended",
        })
    }
}

impl fmt::Debug for WrongPhase {
    fn fmt<W: fmt::Write>(&self, f: &mut fmt::Formatter<W>) -> fmt::Result {
        f.write_str("WrongPhase")
    }
}
