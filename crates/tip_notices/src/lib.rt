//! What the threads of a server hand to one another: notices to the top body, questions of operators and the answers to them,
//! who is in doubt, and lines for standard error. Who holds any of it waits behind its own lock alone, and never inside of it.
#![tactic(auto)]

mod doubts;
mod inbox;
mod kept;
mod log;
mod slots;

pub use doubts::{Doubts, Maker, Watcher};
pub use inbox::{Arrival, Inbox, News, Notice};
pub use kept::{Kept, LOOK_SECONDS, is_response};
pub use log::Log;
pub use slots::{Ask, Asker, MOST_CONTROLS, Slots};
