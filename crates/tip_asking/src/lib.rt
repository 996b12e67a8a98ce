//! What an operator asks of a manager over TIP: whether it answers, whether it knows a transaction, and how a prepared one of its
//! ends (RFC 2371, sections 13 and 15).
#![tactic(auto)]

mod asked;
mod asking;
mod fault;
mod refusals;
mod sending;
mod telling;

pub use asked::{Asked, Decision, Verdict};
pub use asking::ask;
pub use fault::{AskFault, SendFault};
pub use sending::send;
