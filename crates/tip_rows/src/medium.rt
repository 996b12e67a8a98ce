//! What a log keeps its rows in.

/// What a log keeps its rows in, as a file on a disk.
pub trait Medium {
    /// So far it has returned what was written, and nobody else has written.
    ghost is_faithful: { Self → Type 0 };
}

/// The memory of the process, which always returns what was written.
#[derive(Clone, Copy)]
pub struct OwnMemory;

impl Medium for OwnMemory {
    ghost is_faithful = { λ _. Unit {0} };
}
