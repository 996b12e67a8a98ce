//! Items of a table that are found by a look at them alone.
ghost use Rattle.std.specs.Prelude.{◌≡◌};

use std::marker::Model;
use tip_table::Linked;

/// An item that is linked to nothing. It is seen as the item.
#[derive(Drop)]
pub(crate) struct Unlinked<T> {
    item: T,
}

impl<T> Model for Unlinked<T> {
    ghost Value = { T };

    ghost view = { λ u. u.item };
}

impl<T> Linked for Unlinked<T> {
    ghost use Rattle.std.specs.Prelude.{None, ⊤};

    ghost link = { λ _. None };

    ghost fits = { λ _. ⊤ };

    fn link(&self) -> Option<u128> {
        None
    }
}

impl<T> Unlinked<T> {
    pub(crate) fn from_item(item: T) -> Unlinked<T>
        ensures { result ≡ item }
    {
        Unlinked { item }
    }

    pub(crate) fn item(&self) -> &T
        ensures { result.now ≡ self.now }
    {
        &self.item
    }

    pub(crate) fn into_item(self) -> T
        ensures { result ≡ self }
    {
        self.item
    }
}
