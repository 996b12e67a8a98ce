//! That `RowLog` can be met by its own clauses alone: a log over any other needs no proof file, and none of its ghost members can
//! be empty.
#![tactic(auto)]

mod relay;

pub use relay::Relay;
