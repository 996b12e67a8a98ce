//! The journal of one realm and one epoch.
ghost use Rattle.std.specs.Prelude.{◌≡◌, ◌↔◌, ◌<◌, ◌≤◌, Some, IsTrue, IsOk, OnOk, OnErr};
ghost use Rattle.tip_journal.specs.Journal.{at_number, begun, with_room, with_entry};

use crate::Plain;
use std::alloc::{AllocError, Global};
use std::marker::Model;

/// What a realm began an epoch with, and the entries made since, in order.
#[derive(Drop)]
pub struct Journal<S, E> {
    epoch: u32,
    start: S,
    entries: Vec<E>,
}

impl<S, E> Model for Journal<S, E> {
    ghost use Rattle.std.specs.Prelude.{◌-◌, vec_len, vec_capacity};
    ghost use Rattle.tip_journal.specs.Journal.{Written};

    ghost Value = { Written S E };

    ghost view = { λ j. record {
      epoch = j.epoch;
      start = j.start;
      entries = j.entries.items;
      free = vec_capacity j.entries - vec_len j.entries;
    } };
}

impl<S: Drop, E: Drop> Journal<S, E> {
    /// A journal with no entries. It takes no memory.
    pub fn new(alloc: Global, epoch: u32, start: S) -> Self
        ensures { result ≡ begun epoch start }
    {
        Journal {
            epoch,
            start,
            entries: Vec::new(alloc),
        }
    }

    /// The epoch that it is of.
    pub fn epoch(&self) -> u32
        ensures { result ≡ self.now.epoch }
    {
        self.epoch
    }

    /// What the realm began the epoch with.
    pub fn start(&self) -> &S
        ensures { result.now ≡ self.now.start }
    {
        &self.start
    }

    /// The entries, in the order made. The first has the number 1.
    pub fn entries(&self) -> &[E]
        ensures { result.now ≡ self.now.entries }
    {
        &self.entries
    }

    /// Whether an entry stands at this number.
    pub fn stands(&self, number: u32, entry: &E) -> bool
    where
        E: Plain,
        ensures { IsTrue result ↔ (at_number self.now.entries number ≡ Some entry.now) }
    {
        if number == 0 {
            return false;
        }
        match self.entries.get(number as usize - 1) {
            Some(there) => there.is(entry),
            None => false,
        }
    }

    /// Makes room for one entry more.
    pub fn reserve(&mut self) -> Result<(), AllocError>
        ensures ok { OnOk result (0 < self.new.free) }
        ensures room_is_kept { self.old.free ≤ self.new.free }
        ensures has_room { 0 < self.old.free → IsOk result }
        ensures same { self.new ≡ with_room self.new.free self.old }
        ensures err { OnErr result (self.new ≡ self.old) }
    {
        self.entries.reserve(1)
    }

    /// Makes an entry the last. It takes room that `reserve` made.
    pub fn add(&mut self, entry: E)
        requires { 0 < self.old.free }
        ensures { self.new ≡ with_entry entry self.old }
    {
        self.entries.push_reserved(entry);
    }
}
