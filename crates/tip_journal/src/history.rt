//! The journals of one realm.
ghost use Rattle.std.specs.Prelude.{◌≡◌, ℕ, ◌+◌, ◌^◌, ◌<◌, ◌≤◌, [], ◌∷◌, ◌++◌, drop, length, IsOk, OnOk, OnErr, IfOk, MatchOption};
ghost use Rattle.std.specs.Option.{option_copied};
ghost use Rattle.tip_journal.specs.Journal.{with_room, with_entry};
ghost use Rattle.tip_journal.specs.Journals.{IsOfEpoch, entries_of, last_of, room_of, with_last, without_last};
ghost use Rattle.tip_journal.specs.Retiring.{oldest_ended};

use crate::Journal;
use std::alloc::{AllocError, Global};
use std::marker::Model;

/// The journals of one realm, oldest first.
#[derive(Drop)]
pub(crate) struct History<S, E> {
    journals: Vec<Journal<S, E>>,
}

impl<S, E> Model for History<S, E> {
    ghost use Rattle.std.specs.Prelude.{List};
    ghost use Rattle.tip_journal.specs.Journal.{Written};

    ghost Value = { List (Written S E) };

    ghost view = { λ h. h.journals.items };
}

impl<S: Drop, E: Drop> History<S, E> {
    pub(crate) fn begin(alloc: Global, journal: Journal<S, E>) -> Result<Self, AllocError>
        ensures { IfOk result (λ history. history ≡ journal ∷ []) }
    {
        let mut journals = Vec::new(alloc);
        journals.push(journal)?;
        Ok(History { journals })
    }

    pub(crate) fn journals(&self) -> &[Journal<S, E>]
        ensures { result.now ≡ self.now }
    {
        &self.journals
    }

    /// The place of the journal of an epoch, if there is one.
    pub(crate) fn place_of(&self, epoch: u32) -> Option<usize>
        ensures { MatchOption result ((place : ℕ) → ¬ IsOfEpoch self.now epoch place)
            (IsOfEpoch self.now epoch) }
    {
        self.journals
            .iter()
            .position(|journal| journal.epoch() == epoch)
    }

    pub(crate) fn last(&self) -> Option<&Journal<S, E>>
        ensures { option_copied result ≡ last_of self.now }
    {
        self.journals.last()
    }

    pub(crate) fn reserve(&mut self) -> Result<(), AllocError>
        requires { 0 < length self.old }
        ensures ok { OnOk result (0 < room_of (last_of self.new)) }
        ensures room_is_kept { room_of (last_of self.old) ≤ room_of (last_of self.new) }
        ensures has_room { 0 < room_of (last_of self.old) → IsOk result }
        ensures same { self.new ≡ with_last (with_room (room_of (last_of self.new))) self.old }
        ensures err { OnErr result (self.new ≡ self.old) }
    {
        let place = self.journals.len() - 1;
        let journal = &mut self.journals[place];
        journal.reserve()
    }

    pub(crate) fn add(&mut self, entry: E) -> u32
        requires room { 0 < room_of (last_of self.old) }
        requires number { entries_of (last_of self.old) + 1 < 2 ^ 32 }
        ensures new { self.new ≡ with_last (with_entry entry) self.old }
        ensures number { result ≡ entries_of (last_of self.old) + 1 }
    {
        let last = self.journals.len() - 1;
        let journal = &mut self.journals[last];
        journal.add(entry);
        journal.entries().len() as u32
    }

    /// The oldest journal, if it has ended.
    pub(crate) fn oldest_ended(&self) -> Option<&Journal<S, E>>
        ensures { option_copied result ≡ oldest_ended self.now }
    {
        if self.journals.len() < 2 {
            return None;
        }
        self.journals.first()
    }

    /// The oldest journal is let go.
    pub(crate) fn drop_oldest(&mut self)
        requires { 0 < length self.old }
        ensures { self.new ≡ drop 1 self.old }
    {
        self.journals.remove(0);
    }

    /// The last journal is taken back.
    pub(crate) fn withdraw(&mut self)
        ensures { self.new ≡ without_last self.old }
    {
        self.journals.pop();
    }

    pub(crate) fn renew(&mut self, journal: Journal<S, E>) -> Result<(), AllocError>
        ensures ok { OnOk result (self.new ≡ self.old ++ journal ∷ []) }
        ensures err { OnErr result (self.new ≡ self.old) }
    {
        self.journals.push(journal)?;
        Ok(())
    }
}
