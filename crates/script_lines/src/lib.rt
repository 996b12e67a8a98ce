//! The lines of a script that is read.
#![tactic(auto)]

mod line;

pub use line::{LineEnd, LineFault, ScriptLine};
