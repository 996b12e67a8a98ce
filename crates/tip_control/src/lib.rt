//! The control port of a realm, as far as texts go: what its operator asks, a line each, what is answered, and how that is asked
//! from without. An answer is one line or more, each ended by LF, and behind them an empty line.
#![tactic(auto)]

mod answer;
mod asking;
mod doubts;
mod fault;
mod lines;
mod refusals;
mod request;
mod status;

pub use answer::Answer;
pub use asking::{Verdict, ask};
pub use doubts::{InDoubt, Owed};
pub use fault::{AskFault, RequestFault};
pub use lines::{Coming, line_in, take_line};
pub use request::Request;
pub use status::{Part, Status};
