//! A store that tells somebody what becomes of its rows.
#![tactic(auto)]

mod watch;
mod watched;

pub use watch::Watch;
pub use watched::Watched;
