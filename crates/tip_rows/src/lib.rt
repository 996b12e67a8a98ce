//! The rows of prepared and committed transactions, which outlive a restart, and the log that keeps them.
#![tactic(auto)]

mod branches;
mod heap_row;
mod key;
mod label;
mod log;
mod medium;
mod memory;
mod reading;
mod refusals;
mod row;
mod subordinates;
mod text;

pub use branches::Branches;
pub use heap_row::HeapRow;
pub use key::Key;
pub use label::{Label, LabelFault};
pub use log::{LoadFault, Loaded, RaiseFault, Refused, RowLog};
pub use medium::{Medium, OwnMemory};
pub use memory::MemRows;
pub use reading::row_on;
pub use row::Row;
pub use subordinates::Subordinates;
pub use text::RowFault;
