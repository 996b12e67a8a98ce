//! What items are linked to.
ghost use Rattle.std.specs.Prelude.{◌≡◌, ℕ, Option};

/// Items that may be linked to something that has a number, as connections to their transaction. Those of one link are found
/// without a look at others.
pub trait Linked {
    ghost link: { Self → Option ℕ };

    /// What is known of each that there is, as that its numbers are in their ranges.
    ghost fits: { Self → Type 0 };

    /// The number of what it is linked to, where it is. Two links may have one number: then more is looked at, and no less found.
    fn link(&self) -> Option<u128>
        ensures link { result ≡ link self.now }
        ensures fits { fits self.now };
}
