//! Standard error, which all threads share.
use std::alloc::Global;
use std::sync::{Mutex, Wait};
use tip_duties::Note;

/// Standard error, line by line.
#[derive(Drop)]
pub struct Log {
    turn: Mutex<()>,
}

impl Log {
    /// Nobody writes on it yet.
    pub fn new() -> Log {
        Log {
            turn: Mutex::new(()),
        }
    }

    /// Says one line. Where memory is wanting, or nobody reads it, it is left out.
    pub fn note<R: Wait + Eprint>(&self, rt: &R, alloc: Global, note: Note<'_>) {
        if let Ok(line) = format!(in alloc; "tipd: {note}\n") {
            let turn = self.turn.lock(rt);
            let _said = rt.eprint(line.as_str());
            drop(turn);
        }
    }
}
