//! What a store of rows has, as text: `tipd rows` prints it.
#![tactic(auto)]

mod fault;
mod listing;
mod writing;

pub use fault::RowsFault;
pub use listing::listed;
pub use writing::rows;
