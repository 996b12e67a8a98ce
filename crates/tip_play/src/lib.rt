//! Playing a script: the lines that are read, and the transcript of what they do.
#![tactic(auto)]

mod fault;
mod player;
mod refusals;

pub use fault::PlayFault;
pub use player::{play, play_on};
