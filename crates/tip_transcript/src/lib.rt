//! What the events of a realm look like in the transcript of a script.
#![tactic(auto)]

mod parties;
mod printing;
mod starting;

pub use parties::{print_brought, print_drops};
pub use printing::{print, print_idle, print_nowhere, print_refusal};
pub use starting::{print_adopted, print_start};
