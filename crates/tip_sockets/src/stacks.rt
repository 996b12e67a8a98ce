//! How much stack the threads of a server have, in octets.

/// That of a thread that makes events: twice what a change of a row in a file was measured to need, and some room. Who calls other
/// managers has as much, since names are looked up there.
pub const EVENT_STACK: usize = 512 * 1_024;

/// That of a thread that makes none.
pub const SMALL_STACK: usize = 128 * 1_024;
