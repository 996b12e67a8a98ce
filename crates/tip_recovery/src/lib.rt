//! A realm that starts again: its stored rows, the boxes that are adopted for their branches, and the transactions that it has
//! then (RFC 2371, sections 10 and 15).
#![tactic(auto)]

mod recovery;
mod refusals;
mod unfinished;

pub use recovery::Recovery;
pub use unfinished::{AdoptFault, Unfinished, branches_of};
