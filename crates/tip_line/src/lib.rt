//! The words of the Transaction Internet Protocol, version 3.0 (RFC 2371, sections 5, 11 and 13).
#![tactic(auto)]

mod buffer;
mod command;
mod fault;
mod fields;
mod id;
pub mod laws;
mod lines;
mod named;
mod octets;
mod parameters;
mod realm;
mod refusal;
mod response;
mod version;
mod word;
mod words;

pub use command::{Command, CommandName};
pub use fault::{ParseFault, WordFault};
pub use fields::Fields;
pub use id::{Id, IdParts, number_of};
pub use lines::{Cause, Line, Lines};
pub use realm::{Realm, is_realm};
pub use refusal::Refusal;
pub use response::{Response, ResponseName};
pub use word::{Address, Word};
