//! The rules of a realm's machine, over the realm's tables: each does in the realm at hand what the definition of its name says.
#![tactic(auto)]

mod beginning;
mod commands;
mod connections;
mod dialling;
mod failing;
mod finding;
mod making;
mod needs;
mod opening;
mod outcome;
mod presuming;
mod pulling;
mod pursuing;
mod reaching;
mod reaction;
mod realms;
mod reconnecting;
mod requesting;
mod responding;
mod returning;
mod room;
mod standing;
mod step;
mod transaction_room;
mod wanting;
mod work;

pub use making::Making;
pub use realms::{Realms, Tables};
pub use room::Room;
pub use standing::Standing;
