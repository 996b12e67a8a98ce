//! The machines of all realms, each over tables of its own. Contracts see them realm by realm.
#![tactic(auto)]

mod happened;
mod machine;
mod recovering;
mod refusals;
mod renewing;
mod starts;
mod usage;

pub use happened::Happened;
pub use machine::Core;
pub use renewing::{Left, Parting};
pub use starts::{StartFault, Starts};
pub use tip_rules::{Room, Standing};
pub use usage::Usage;
