//! The sockets of a server: the doors at which connections to its realms come in, and the threads that call other managers. Each
//! socket is handed to the top body (`Inbox`), which makes it a connection.
#![tactic(auto)]

mod accepting;
mod callers;
mod dialling;
mod doors;
mod runtime;
mod stacks;

pub use accepting::start_accepting;
pub use callers::Callers;
pub use doors::{Door, Entrance, end_accepting, listen_all};
pub use runtime::{Reach, Runtime};
pub use stacks::{EVENT_STACK, SMALL_STACK};
