//! The host: a stored core that keeps a journal of each realm, how its rows are stored, who is out, and what is to go out on each
//! connection. Whoever serves a connection makes its events here, and has a pass that tells which they were.
#![tactic(auto)]

mod books;
mod closing;
mod fitting;
mod host;
mod host_event;
pub mod laws;
mod leaving;
mod noting;
mod opening;
mod refusals;
mod renewing;
mod reply;
mod retiring;
mod returning;
mod seat;
mod serving;
mod spoken;
mod unlinked;
mod work;

pub use closing::CloseFault;
pub use fitting::Stepped;
pub use host::{Ended, Host, HostFault, OpenFault};
pub use host_event::HostEvent;
pub use opening::{OpenedRow, Opening};
pub use reply::Reply;
pub use seat::Seat;
pub use spoken::Spoken;
pub use tip_core::{Standing, Usage};
pub use work::{Returned, Work};
