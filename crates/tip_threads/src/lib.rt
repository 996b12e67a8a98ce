//! The threads of a server that make events, and those beside them: those of a connection, and those of a realm's control port.
//! Each is started here, and ends by itself or once the server ends.
#![tactic(auto)]

mod answering;
mod controlling;
mod hearing;
mod heeding;
mod pacing;
mod running;

pub use answering::ControlPort;
pub use controlling::start_controls;
pub use running::{Link, LinkEnd, peer_of, start_session};
