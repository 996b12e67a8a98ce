//! One transaction of two-phase commit: its parts, their answers, and what they decide (RFC 2371, section 13).
#![tactic(auto)]

mod answer;
pub mod laws;
mod part;
mod refusals;
mod tally;
mod txn;

pub use answer::{Ballot, Decision, Phase};
pub use part::{Part, Participant};
pub use txn::{EnlistFault, Txn};
