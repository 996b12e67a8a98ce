//! What the server does, as far as plain data decides it: which realms are hosted, whether they may start, what is to be done for
//! their rows, which boxes come with a connection, where a peer is called, and what is said of all that.
#![tactic(auto)]

mod controls;
mod declaring;
mod duties;
mod fault;
mod note;
mod peers;
mod plans;
mod refusals;
mod report;
mod starting;

pub use controls::are_controls_own;
pub use declaring::{declarations, may_be_hosted};
pub use duties::{Dial, Duties};
pub use fault::ServeFault;
pub use note::{Connection, Note};
pub use peers::place_of;
pub use plans::plans_for;
pub use report::{Heading, entries_of};
pub use starting::has_row_ahead;
