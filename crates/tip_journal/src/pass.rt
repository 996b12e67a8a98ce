//! The entries that one caller made.
ghost use Rattle.std.specs.Prelude.{◌≡◌, ◌<◌, ◌≤◌, [], IsOk, OnOk, OnErr};
ghost use Rattle.std.specs.Option.{option_copied};
ghost use Rattle.tip_journal.specs.Pass.{is_of};

use std::alloc::{AllocError, Global};
use std::marker::Model;

/// An entry of a journal, and where it stands.
#[derive(Drop)]
pub struct Noted<E> {
    /// The realm's place in the order of declaration.
    pub realm: usize,
    pub epoch: u32,
    /// The entry's number in its journal, from 1.
    pub number: u32,
    pub entry: E,
}

impl<E: Drop> Noted<E> {
    /// Whether it stands for an entry of this realm and epoch.
    pub(crate) fn is_of(&self, realm: usize, epoch: u32) -> bool
        ensures { result ≡ is_of realm epoch self.now }
    {
        self.realm == realm && self.epoch == epoch
    }
}

/// The entries that one caller made, of all realms, in the order made.
#[derive(Drop)]
pub struct Pass<E> {
    noted: Vec<Noted<E>>,
}

impl<E> Model for Pass<E> {
    ghost use Rattle.std.specs.Prelude.{◌-◌, vec_len, vec_capacity};
    ghost use Rattle.tip_journal.specs.Pass.{Held};

    ghost Value = { Held E };

    ghost view = { λ p. record {
      noted = p.noted.items;
      free = vec_capacity p.noted - vec_len p.noted;
    } };
}

impl<E: Drop> Pass<E> {
    ghost use Rattle.tip_journal.specs.Pass.{with_room, with_noted, last_own, others};

    /// A pass with no entries. It takes no memory.
    pub fn new(alloc: Global) -> Self
        ensures { result ≡ record { noted = []; free = 0 } }
    {
        Pass {
            noted: Vec::new(alloc),
        }
    }

    /// The entries, in the order made.
    pub fn noted(&self) -> &[Noted<E>]
        ensures { result.now ≡ self.now.noted }
    {
        &self.noted
    }

    /// Makes room for one entry more.
    pub fn reserve(&mut self) -> Result<(), AllocError>
        ensures ok { OnOk result (0 < self.new.free) }
        ensures room_is_kept { self.old.free ≤ self.new.free }
        ensures has_room { 0 < self.old.free → IsOk result }
        ensures same { self.new ≡ with_room self.new.free self.old }
        ensures err { OnErr result (self.new ≡ self.old) }
    {
        self.noted.reserve(1)
    }

    /// Makes an entry the last. It takes room that `reserve` made.
    pub fn add(&mut self, noted: Noted<E>)
        requires { 0 < self.old.free }
        ensures { self.new ≡ with_noted noted self.old }
    {
        self.noted.push_reserved(noted);
    }

    /// The last entry of a realm and epoch. It looks from the end.
    pub fn last(&self, realm: usize, epoch: u32) -> Option<&Noted<E>>
        ensures { option_copied result ≡ last_own realm epoch self.now.noted }
    {
        self.noted
            .iter()
            .rev()
            .find(|noted| noted.is_of(realm, epoch))
    }

    /// Lets go of the entries of a realm and epoch. The others stay, in order.
    pub(crate) fn let_go(&mut self, realm: usize, epoch: u32)
        ensures { self.new.noted ≡ others realm epoch self.old.noted }
    {
        self.noted.retain(|noted| !noted.is_of(realm, epoch));
    }
}
