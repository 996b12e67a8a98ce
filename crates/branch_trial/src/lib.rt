//! Callers of `tip_branch` in another crate: parties and fresh boxes as plain data in an enum, in a struct,
//! in a table with an invariant and behind a lock.
#![tactic(auto)]

mod place;
mod table;

pub use place::{Place, Transaction};
pub use table::{Table, number_behind};
