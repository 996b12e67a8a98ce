//! Writing a text, and what was written of it where the writer fails.
#![tactic(auto)]

mod writing;

pub use writing::{WriteFault, write_front};
