//! A branch that answers as its plan promises: scripts and the server have it in the place of a resource manager's.
#![tactic(auto)]

mod simulated;

pub use simulated::Simulated;
