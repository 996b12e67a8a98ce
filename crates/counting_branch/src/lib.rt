//! A branch that counts its calls, for trials that see who is told what.
#![tactic(auto)]

mod probe;

pub use probe::{Counters, Probe};
