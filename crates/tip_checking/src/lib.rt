//! What stands in the tables of a store, row by row, and what is wrong there: what keeps it from starting, or would let
//! identifiers be given twice.
#![tactic(auto)]

mod contents;
mod realms;
mod reporting;
mod rows;
mod tally;

pub use contents::{Contents, Known, Stored, list_epochs};
pub use realms::{WrongRealm, wrong_realm};
pub use reporting::report;
pub use rows::{WrongRow, wrong_row};
pub use tally::Tally;
