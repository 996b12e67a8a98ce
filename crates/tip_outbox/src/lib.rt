//! Outboxes: what waits to go out on the connections of all realms.
#![tactic(auto)]

mod outboxes;
mod realm_outboxes;

pub use outboxes::Outboxes;
