//! What a journal keeps of a realm's events, and what journals of realms say of the runs that they are.
#![tactic(auto)]

mod badges;
mod entry;
pub mod laws;

pub use badges::Badges;
pub use entry::{Entry, PlainEvent};
