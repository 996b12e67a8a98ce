//! What the two ends of a connection know of it.

/// How far a connection has come (RFC 2371, section 9).
#[derive(Clone, Copy, PartialEq, Eq)]
pub enum State {
    /// Nothing was said yet, or TLS was declined.
    Initial,
    /// No transaction is on it.
    Idle,
    /// The primary has begun a transaction.
    Begun,
    /// The secondary is a part of the primary's transaction.
    Enlisted,
    /// The secondary has promised to commit or abort as it is told.
    Prepared,
    /// It is to be closed.
    Error,
}

/// Which side of a connection we are (RFC 2371, section 4).
#[derive(Clone, Copy, PartialEq, Eq)]
pub enum Side {
    /// We say commands.
    Primary,
    /// We answer them.
    Secondary,
}

/// What a response does to the sides.
#[derive(Clone, Copy, PartialEq, Eq)]
pub enum Turn {
    Keep,
    /// The primary becomes the secondary, and the other way round.
    Reverse,
    /// Who opened the connection is the primary again.
    Original,
}

/// What becomes of a command that was received.
#[derive(Clone, Copy, PartialEq, Eq)]
pub enum Admit {
    Serve,
    /// It is answered ERROR, and the connection closed.
    Wrong,
}
