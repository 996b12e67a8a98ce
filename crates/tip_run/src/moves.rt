//! What a host is moved by.

use tip_branch::HeldPrepared;
use tip_host::HostEvent;

/// One move of a host. A realm is named by its place in the order of declaration.
#[derive(Drop)]
pub enum Move<E = HostEvent, B = HeldPrepared> {
    /// An event of a realm. No event brings a party back: parties come back by `Go` alone.
    Step(E),
    /// The oldest party of a realm that waits does its errand and comes back. Where none waits, nothing happens.
    Go { realm: usize },
    /// The oldest party of a realm that waits is lost: it is let go, its errand undone. Where none waits, nothing happens.
    Lose { realm: usize },
    /// The process ends, and all realms start again from what is stored of them, with boxes for each row of each realm, by rising key.
    Restart { boxes: Vec<Vec<B>> },
    /// A realm starts again while the others run, with boxes for each of its rows, by rising key.
    Renew { realm: usize, boxes: Vec<B> },
}
