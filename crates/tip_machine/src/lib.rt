//! The machine of one realm: what a realm is, what happens to it and what it answers, as plain data, and the definition
//! of its step (RFC 2371, sections 4, 9, 13 and 15). What stands above cites these definitions in its contracts.
#![tactic(auto)]

mod answer;
mod connection;
mod event;
pub mod examples;
mod head;
pub mod laws;
mod transaction;

pub use answer::{Answer, Asked, Item, Said, Sent, SentLines};
pub use connection::{Awaited, Connection, Purpose, Role, link_of};
pub use event::{Change, Concerned, Event, Heard, Outcome, Seat};
pub use head::{Head, Limits, Start, next_epoch};
pub use transaction::{Origin, PartyPlace, Transaction};
