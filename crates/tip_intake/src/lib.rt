//! The lines of a reader, taken in by pieces (RFC 2371, section 11).
#![tactic(auto)]

mod intake;

pub use intake::{Coming, InputEnd, Intake};
