//! A primary that says commands to a manager, and takes its response to each (RFC 2371, sections 4, 9 and 13).
#![tactic(auto)]

mod answer;
mod client;
mod fault;
mod hearing;
mod saying;

pub use client::play_lines;
pub use fault::ClientFault;
pub use hearing::response_to;
pub use saying::say;
