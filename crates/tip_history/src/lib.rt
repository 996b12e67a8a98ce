//! What `tipd play` tells of the realms: each makes an honest run of its own machine, alone, and none of its transactions is half
//! committed.
#![tactic(auto)]

pub mod laws;
mod player;

pub use player::{play, play_on};
