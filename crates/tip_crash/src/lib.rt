//! Crash consistency: a process that ends anywhere has made a run, and the next one goes on with it, so agreement covers both.
#![tactic(auto)]

pub mod laws;
