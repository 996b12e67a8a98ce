//! The top body of a server, round a host that all its threads share: it alone makes boxes, opens connections, starts threads
//! and joins them. What is decided by plain data stands in `tip_duties`, and what the other threads do in `tip_threads`.
#![tactic(auto)]

mod asking;
mod connections;
mod ending;
mod hosting;
mod joining;
mod opening;
mod renewing;
mod retiring;
mod rows;
mod served;
mod server;
mod starting;

pub use hosting::host_realms;
