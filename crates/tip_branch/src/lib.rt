//! The branches of a transaction: boxed objects of the resource managers, and the party of those that one transaction has.
#![tactic(auto)]

mod boxes;
mod branch;
mod fresh;
mod held_fresh;
mod held_party;
mod held_prepared;
mod lot;
mod member;
mod party;
mod party_note;
mod party_room;
mod prepared;
mod roll;
mod telling;
mod wrong_phase;

pub use branch::{Badge, Branch, Phase, Plan, Settled, Standing, Told, Vote};
pub use fresh::Fresh;
pub use held_fresh::HeldFresh;
pub use held_party::HeldParty;
pub use held_prepared::HeldPrepared;
pub use lot::Lot;
pub use member::{Call, Errand, Member};
pub use party::{Party, are_numbers};
pub use party_note::PartyNote;
pub use party_room::{NotesRoom, PartyRoom};
pub use prepared::Prepared;
pub use wrong_phase::WrongPhase;
