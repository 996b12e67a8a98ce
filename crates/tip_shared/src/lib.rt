//! A host that many threads share, behind one lock, and the two sides of a connection over it.
#![tactic(auto)]

mod closing;
mod conditions;
mod entering;
mod refusals;
mod retiring;
mod sessions;
mod shared;
mod shared_desk;

pub use closing::{CloseFault, Closed};
pub use entering::run_errand;
pub use sessions::{Session, serve_shared, write_shared};
pub use shared::Shared;
