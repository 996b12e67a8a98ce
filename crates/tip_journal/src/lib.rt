//! The journals of all realms, and the passes of those who made events: that each entry stands in one pass, once.
//!
//! What an entry is and what a realm begins with is the caller's affair: here they are kept, counted and compared.
#![tactic(auto)]

mod auditing;
mod fitting;
mod history;
mod journal;
mod journals;
pub mod laws;
mod pass;
mod plain;
mod refusals;
mod retired;
mod retiring;
mod sheet;

pub use auditing::{AuditFault, Reported, audit};
pub use fitting::fits;
pub use journal::Journal;
pub use journals::Journals;
pub use pass::{Noted, Pass};
pub use plain::Plain;
pub use retired::Retired;
pub use retiring::RetireFault;
