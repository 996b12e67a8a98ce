//! The realms of a script, declared and at work, and what each line of the script makes of them.
#![tactic(auto)]

mod boxes;
mod branches;
mod by_name;
mod counting;
mod declared;
mod fault;
mod playing;
mod renewing;
mod requests;
mod restarting;
mod rising;
mod stage;

pub use boxes::{Wanted, add_box};
pub use by_name::ByName;
pub use declared::Declared;
pub use fault::LineFault;
pub use playing::Playing;
pub use stage::Stage;
