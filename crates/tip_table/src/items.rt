//! The items of one realm, one after another.
ghost use Rattle.std.specs.Prelude.{◌≡◌, List};
ghost use Rattle.std.specs.Iterator.{YieldsFirstRef, item_count};
ghost use Rattle.slab.specs.Slab.{Slab};
ghost use Rattle.tip_table.specs.Entries.{items_at};

use crate::table::Entry;
use slab::Slab;
use std::alloc::{Allocator, Global};
use std::marker::Model;

/// Lends the items of a realm, in the order made. Contracts see those that are still to come.
#[derive(Drop)]
pub struct Items<'a, T, A: Allocator = Global> {
    slots: &'a Slab<Entry<T>, A>,
    keys: &'a [usize],
}

impl<'a, T, A: Allocator> Model for Items<'a, T, A> {
    ghost Value = { List T };

    ghost view = { λ i. items_at i.slots.now i.keys.now };
}

impl<'a, T, A: Allocator> Items<'a, T, A> {
    pub(crate) fn new(slots: &'a Slab<Entry<T>, A>, keys: &'a [usize]) -> Items<'a, T, A>
        ensures { result ≡ items_at slots.now keys.now }
    {
        Items { slots, keys }
    }
}

impl<'a, T, A: Allocator> Iterator for Items<'a, T, A> {
    type Item = &'a T;

    ghost next_gives = { YieldsFirstRef (λ items. items) };

    ghost remaining = { item_count (λ items. items) };

    fn next(&mut self) -> Option<&'a T> {
        while let [first, rest @ ..] = self.keys {
            self.keys = rest;
            if let Some(entry) = self.slots.get(*first) {
                return Some(&entry.item);
            }
        }
        None
    }
}
