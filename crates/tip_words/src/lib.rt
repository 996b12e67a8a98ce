//! The words of the command line: what they ask for.
#![tactic(auto)]

mod commands;
mod order;
mod reading;

pub use order::Order;
pub use reading::read_words;
