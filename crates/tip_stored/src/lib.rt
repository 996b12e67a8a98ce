//! The stored core: the core of all realms over a store of their rows.
#![tactic(auto)]

mod errands;
mod keeping;
mod loading;
mod realm_spec;
mod recovering;
mod refusals;
mod renewing;
mod stored_core;

pub use errands::PartyOut;
pub use loading::LoadFault;
pub use realm_spec::{BadRealm, RealmSpec};
pub use recovering::{Recovering, Unadopted};
pub use renewing::RenewFault;
pub use stored_core::{StepFault, StoredCore};
