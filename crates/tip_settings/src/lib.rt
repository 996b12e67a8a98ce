//! What the operator says: the configuration of the server, read from TOML.
#![tactic(auto)]

mod branches;
mod config;
mod documents;
mod fault;
mod limit;
mod reading;
mod realms;
mod refusals;

pub use config::{Config, RealmConfig};
pub use fault::{ConfigFault, Wanted};
pub use limit::Limit;
pub use reading::read_config;
