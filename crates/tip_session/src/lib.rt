//! The reader and the writer of one connection, over any desk, reader and writer (RFC 2371, sections 4 and 11).
#![tactic(auto)]

mod desk;
mod ended;
mod given;
mod reading;
mod session_end;
mod writing;

pub use desk::{Came, Desk, DeskFault, Outgoing, Ready};
pub use given::Given;
pub use reading::serve;
pub use session_end::SessionEnd;
pub use writing::write_out;
