//! The journals of all realms.
ghost use Rattle.std.specs.Prelude.{◌≡◌, ℕ, Some, ◌+◌, ◌^◌, ◌<◌, ◌≤◌, [], ◌∷◌, ◌++◌, drop, length, All, IsOk, OnOk, OnErr, IfSome, IsSome, IsSomeAnd, MatchOption, slice_get};
ghost use Rattle.std.specs.Option.{option_copied};
ghost use Rattle.tip_journal.specs.Journal.{begun, with_room, with_entry};
ghost use Rattle.tip_journal.specs.Journals.{IsHistory, IsWithdrawable, Names, at, changed_at, current, last_number, renewed, room, with_current, without_last};
ghost use Rattle.tip_journal.specs.Retiring.{ended_at};

use crate::history::History;
use crate::{Journal, Noted};
use std::alloc::{AllocError, Global};
use std::marker::Model;

/// The journals of all realms. A realm is known by its place in the order of declaration, from 0. Its last journal is the current one; the others have ended, and may be let go, the oldest first.
#[derive(Drop)]
pub struct Journals<S, E> {
    realms: Vec<History<S, E>>,
}

impl<S, E> Model for Journals<S, E> {
    ghost use Rattle.std.specs.Prelude.{List, All};
    ghost use Rattle.tip_journal.specs.Journal.{Written};
    ghost use Rattle.tip_journal.specs.Journals.{IsHistory};

    ghost Value = { List (List (Written S E)) };

    ghost view = { λ j. j.realms.items };

    ghost invariant = { λ j. All IsHistory j.realms.items };
}

impl<S: Drop, E: Drop> Journals<S, E> {
    /// The journals of no realm. They take no memory.
    pub fn new(alloc: Global) -> Self
        ensures { result ≡ [] }
    {
        Journals {
            realms: Vec::new(alloc),
        }
    }

    /// How many realms there are.
    pub fn len(&self) -> usize
        ensures realms { result ≡ length self.now }
        ensures histories { All IsHistory self.now }
    {
        self.realms.len()
    }

    /// The journals realm by realm, in the order declared.
    pub(crate) fn histories(&self) -> &[History<S, E>]
        ensures same { result.now ≡ self.now }
        ensures histories { All IsHistory self.now }
    {
        &self.realms
    }

    /// The place, among its realm's journals, of the one that an entry names, if there is one.
    pub(crate) fn place_of(&self, noted: &Noted<E>) -> Option<usize>
        ensures named { MatchOption result ((place : ℕ) → ¬ Names self.now noted.now place)
            (Names self.now noted.now) }
        ensures histories { All IsHistory self.now }
    {
        let history = self.realms.get(noted.realm)?;
        history.place_of(noted.epoch)
    }

    /// The journal at a place of its realm.
    pub(crate) fn at(&self, realm: usize, place: usize) -> &Journal<S, E>
        requires { IsSome (at self.now realm place) }
        ensures { at self.now realm place ≡ Some result.now }
    {
        let history = &self.realms[realm];
        &history.journals()[place]
    }

    /// Adds a realm, the last, with a journal of its first epoch. Without memory all is as before, and the start is dropped.
    pub fn declare(&mut self, alloc: Global, epoch: u32, start: S) -> Result<(), AllocError>
        ensures ok { OnOk result (self.new ≡ self.old ++ (begun epoch start ∷ []) ∷ []) }
        ensures err { OnErr result (self.new ≡ self.old) }
    {
        let history = History::begin(alloc, Journal::new(alloc, epoch, start))?;
        self.realms.push(history)?;
        Ok(())
    }

    /// Ends a realm's current journal, which is kept, and begins one of a later epoch. Without memory all is as before, and the start is dropped.
    pub fn renew(
        &mut self,
        alloc: Global,
        realm: usize,
        epoch: u32,
        start: S,
    ) -> Result<(), AllocError>
        requires { IsSomeAnd (current self.old realm) (λ journal. journal.epoch < epoch) }
        ensures ok { OnOk result (self.new ≡ renewed realm (begun epoch start) self.old) }
        ensures err { OnErr result (self.new ≡ self.old) }
    {
        let history = &mut self.realms[realm];
        history.renew(Journal::new(alloc, epoch, start))
    }

    /// Takes back a realm's current journal that has no entry, where a renewal comes to nothing: the one before is current again.
    pub fn withdraw(&mut self, realm: usize)
        requires { IsSomeAnd (slice_get self.old realm) IsWithdrawable }
        ensures { self.new ≡ changed_at realm without_last self.old }
    {
        let history = &mut self.realms[realm];
        history.withdraw();
    }

    /// The journal of a realm and epoch, if it is the realm's oldest and has ended.
    pub(crate) fn ended(&self, realm: usize, epoch: u32) -> Option<&Journal<S, E>>
        ensures ended { option_copied result ≡ ended_at self.now realm epoch }
        ensures numbered { IfSome result (λ journal. length journal.now.entries < 2 ^ 32) }
    {
        let history = self.realms.get(realm)?;
        let oldest = history.oldest_ended()?;
        if oldest.epoch() != epoch {
            return None;
        }
        Some(oldest)
    }

    /// The oldest journal of a realm is let go. A later one is there.
    pub(crate) fn drop_oldest(&mut self, realm: usize)
        requires { IsSomeAnd (slice_get self.old realm) (λ history. 1 < length history) }
        ensures { self.new ≡ changed_at realm (drop 1) self.old }
    {
        let history = &mut self.realms[realm];
        history.drop_oldest();
    }

    /// The journal that a realm's entries are added to, if the realm is there.
    pub fn current(&self, realm: usize) -> Option<&Journal<S, E>>
        ensures { option_copied result ≡ current self.now realm }
    {
        let history = self.realms.get(realm)?;
        history.last()
    }

    /// Makes room for one entry more in a realm's current journal.
    pub fn reserve(&mut self, realm: usize) -> Result<(), AllocError>
        requires { realm < length self.old }
        ensures ok { OnOk result (0 < room self.new realm) }
        ensures room_is_kept { room self.old realm ≤ room self.new realm }
        ensures has_room { 0 < room self.old realm → IsOk result }
        ensures same { self.new ≡ with_current realm (with_room (room self.new realm)) self.old }
        ensures number { last_number self.new realm ≡ last_number self.old realm }
        ensures err { OnErr result (self.new ≡ self.old) }
    {
        let history = &mut self.realms[realm];
        history.reserve()
    }

    /// Makes an entry the last of a realm's current journal, and gives its number there. It takes room that `reserve` made.
    pub fn add(&mut self, realm: usize, entry: E) -> u32
        requires room { 0 < room self.old realm }
        requires number { last_number self.old realm + 1 < 2 ^ 32 }
        ensures new { self.new ≡ with_current realm (with_entry entry) self.old }
        ensures number { result ≡ last_number self.old realm + 1 }
    {
        let history = &mut self.realms[realm];
        history.add(entry)
    }
}
