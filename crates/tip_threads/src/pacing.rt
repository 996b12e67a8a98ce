//! How often an operator may have the store read.
use std::sync::{Mutex, Wait};
use std::thread;
use std::time::{Clock, Duration, Instant};

/// How long is waited from one reading to the next. All realms wait while the store is read.
const PAUSE_MILLIS: u64 = 250;

/// When the store was last read for the operator of a realm.
#[derive(Drop)]
pub struct Pace {
    last: Mutex<Option<Instant>>,
}

impl Pace {
    /// It was not read yet.
    pub fn new() -> Pace {
        Pace {
            last: Mutex::new(None),
        }
    }

    /// Waits until the store may be read again. Those that ask at one time wait for one another.
    pub fn wait<R: Wait + Clock>(&self, rt: &R) {
        let mut last = self.last.lock(rt);
        if let Some(before) = *last
            && let Ok(passed) = before.elapsed(rt)
            && let Some(left) = Duration::from_millis(PAUSE_MILLIS).checked_sub(passed)
        {
            thread::sleep(rt, left);
        }
        *last = Instant::now(rt).ok();
    }
}
