//! The items of many realms in one table. Contracts see realm by realm the list of the items, in the order made.
#![tactic(auto)]

mod items;
pub mod laws;
mod link;
mod links;
mod order;
mod rank;
mod table;
mod test;
mod visit;

pub use items::Items;
pub use link::Linked;
pub use rank::Rank;
pub use table::Table;
pub use test::Test;
pub use visit::Visit;
