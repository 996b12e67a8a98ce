//! A realm of a script at work: who reads its connections, its parties that are out, and what its events print.
#![tactic(auto)]

mod actor;
mod connections;
mod ending;
mod errands;
mod fault;
mod lines;
mod reader;
mod readers;
mod refusing;

pub use actor::Actor;
pub use ending::print_here;
pub use fault::ActFault;
pub use refusing::{ByItself, ByScript, Refuser};
