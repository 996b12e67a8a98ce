//! What is read of a realm's tables ahead of an event: what is looked for in them, what a response notes of a part, how a
//! transaction will be once that is noted, and the change of its row that it wants then (RFC 2371, sections 10 and 13).
#![tactic(auto)]

mod next;
mod noting;
mod others;
mod outlook;
mod query;
mod rows;
mod turns;

pub use next::{Ending, Endings, Next};
pub use noting::{Awaits, Note, ends, exists_of, pulled_of, version_of};
pub use others::{Others, is_yes, refuses};
pub use outlook::{Outlook, is_spent};
pub use query::{
    ByNumber, Keyed, Known, Named, Numbered, OnKey, PartOf, SuperiorOf, asks_for, is_on,
};
pub use turns::Turns;
