//! The stored rows of each realm, as the store has answered.
#![tactic(auto)]

mod kept_rows;
mod realm_rows;

pub use kept_rows::KeptRows;
