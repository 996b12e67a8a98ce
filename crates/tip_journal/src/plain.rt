//! Data that can be compared.
ghost use Rattle.std.specs.Prelude.{◌≡◌, ◌↔◌, IsTrue};

/// A type whose values can be told apart: two are equal where no contract sees a difference.
///
/// Std's `Eq` says that `==` is some equivalence, not that it is equality.
pub trait Plain {
    /// Whether the two are the same.
    fn is(&self, other: &Self) -> bool
        ensures { IsTrue result ↔ (self.now ≡ other.now) };
}
