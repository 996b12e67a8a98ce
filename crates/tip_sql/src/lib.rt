//! Rows that outlive the process, in the two tables of a database of SQLite.
#![tactic(auto)]

mod database;
mod layout;
mod opening;
mod questions;
mod reading;
mod refusals;
mod spelling;
mod sql_rows;
mod statements;

pub use database::Database;
pub use opening::{OverFault, has_tables};
pub use sql_rows::SqlRows;
