//! What the items of a realm rise by.
ghost use Rattle.std.specs.Prelude.{◌≡◌, ℕ};

/// Gives items a rank, by which those that rise are searched by halves.
pub trait Rank<T> {
    ghost rank: { Self → T → ℕ };

    /// The rank of an item.
    fn rank(&self, item: &T) -> u64
        ensures { result ≡ rank self.now item.now };
}
