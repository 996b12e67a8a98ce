//! The connection table of the Transaction Internet Protocol, version 3.0 (RFC 2371, sections 4, 9 and 13).
#![tactic(auto)]

pub mod laws;
mod state;
mod table;

pub use state::{Admit, Side, State, Turn};
pub use table::{admit, after, after_named};
