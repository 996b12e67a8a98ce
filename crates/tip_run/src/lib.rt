//! A host that is run by a list of moves: each realm's journals, over restarts too, are those of one honest run of its own machine.
#![tactic(auto)]

mod errands;
mod halt;
pub mod laws;
mod moves;
mod refusals;
mod run;
mod running;
mod shown;
mod starting;

pub use halt::{Halt, RunFault};
pub use moves::Move;
pub use running::Running;
pub use shown::{Said, Shown};
