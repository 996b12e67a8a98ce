//! What is looked for in a table.
ghost use Rattle.std.specs.Prelude.{◌≡◌, Bool, IfSome, Some, true};

use crate::link::Linked;

/// A test of items.
pub trait Test<T: Linked> {
    ghost passes: { Self → T → Bool };

    /// Whether an item passes.
    fn passes(&self, item: &T) -> bool
        ensures { result ≡ passes self.now item.now };

    /// The one link of all items that pass, where there is one: then no others are looked at.
    fn aim(&self) -> Option<u128>
        ensures { IfSome result
            (λ aim. (item : T) → T.fits item → passes self.now item ≡ true →
            T.link item ≡ Some aim) };
}
