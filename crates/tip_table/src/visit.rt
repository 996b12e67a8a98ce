//! What is done to each item of a realm.
ghost use Rattle.std.specs.Prelude.{◌≡◌, ◌≢◌, IfSome, Some, ℕ};

use crate::link::Linked;

/// Visits items, one after another: it may change each, and notes what it saw in `N`.
pub trait Visit<T: Linked, N> {
    /// What becomes of an item.
    ghost left: { Self → T → T };

    /// What becomes of the notes.
    ghost noted: { Self → N → T → N };

    /// Whether the notes have room for an item that is so.
    ghost may: { Self → N → T → Type 0 };

    /// Visits one item.
    fn visit(&self, item: &mut T, notes: &mut N)
        requires { may self.now notes.old item.old }
        ensures item { item.new ≡ left self.now item.old }
        ensures notes { notes.new ≡ noted self.now notes.old item.old };

    /// The one link of all items that it changes or notes, where there is one: then no others are visited. An item may lose its
    /// link, and gets no other.
    fn aim(&self) -> Option<u128>
        ensures items { IfSome result
            (λ aim. (item : T) → T.link item ≢ Some aim → left self.now item ≡ item) }
        ensures notes { IfSome result (λ aim. (item : T) (notes : N) → T.link item ≢ Some aim →
            noted self.now notes item ≡ notes) }
        ensures links { (item : T) (link : ℕ) → T.link (left self.now item) ≡ Some link →
            T.link item ≡ Some link }
        ensures fits { (item : T) → T.fits item → T.fits (left self.now item) };
}
