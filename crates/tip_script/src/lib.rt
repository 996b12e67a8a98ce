//! What the lines of a script say: the instruction of a line, over the fields between its spaces.
#![tactic(auto)]

mod asking;
mod fields;
mod instruction;
mod kinds;

pub use asking::{Aim, Asked};
pub use instruction::{Instruction, Octets};
pub use kinds::{are_kinds, plan_of};
