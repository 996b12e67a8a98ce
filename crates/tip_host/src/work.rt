//! Parties that are out for their errand, and that come back from it.
ghost use Rattle.std.specs.Prelude.{◌≡◌, IfOk};
ghost use Rattle.tip_branch.specs.Always.{Always};
ghost use Rattle.tip_host.specs.Works.{ComesFrom, IsDone};

use std::alloc::{AllocError, Global};
use std::marker::Model;
use tip_branch::PartyNote;
use tip_machine::Event;
use tip_stored::PartyOut;

/// A party that is out for its errand, and how it was sent. Only a host gives it out. One that is dropped is lost: its active
/// branches are rolled back.
#[derive(Drop)]
pub struct Work {
    /// The place of its realm in the order of declaration.
    realm: usize,
    party: PartyOut,
    sent: PartyNote,
    ghost as_sent: { party ≡ sent },
}

/// A party that comes back as its errand leaves it, and how it was sent. Only `Work::done` gives it out.
#[derive(Drop)]
pub struct Returned {
    realm: usize,
    event: Event,
    sent: PartyNote,
}

impl Model for Returned {
    ghost use Rattle.tip_host.specs.Works.{Came, ComesFrom};

    ghost Value = { Came };

    ghost view = { λ r. record { realm = r.realm; event = r.event; sent = r.sent } };

    ghost invariant = { λ r. ComesFrom r.sent r.event };
}

impl Work {
    /// A party of a realm goes out that was sent so. It takes no memory.
    pub(crate) fn new(realm: usize, party: PartyOut, sent: PartyNote) -> Work
        requires { party ≡ sent }
        ensures realm { result.realm ≡ realm }
        ensures sent { result.sent ≡ sent }
    {
        Work { realm, party, sent }
    }

    /// The place of its realm in the order of declaration, from 0.
    pub fn realm(&self) -> usize
        ensures { result ≡ self.now.realm }
    {
        self.realm
    }

    /// How it was sent.
    pub fn sent(&self) -> &PartyNote
        ensures { result.now ≡ self.now.sent }
    {
        &self.sent
    }

    /// How it was sent, copied.
    pub fn noted(&self, alloc: Global) -> Result<PartyNote, AllocError>
        ensures { IfOk result (λ note. note ≡ self.now.sent) }
    {
        PartyNote::of(alloc, self.party.party())
    }

    /// Does the errand: its branches are asked, or told. This calls the branches, and is called where nothing waits for the host.
    pub fn done(self) -> Returned
        requires { Always }
        ensures realm { result.realm ≡ self.realm }
        ensures sent { result.sent ≡ self.sent }
        ensures came { IsDone self.sent result.event }
    {
        let Work { realm, party, sent } = self;
        let event = party.done();
        Returned { realm, event, sent }
    }

    /// The party, its errand undone.
    pub(crate) fn into_party(self) -> PartyOut
        requires { Always }
        ensures { result ≡ self.sent }
    {
        self.party
    }
}

impl Returned {
    /// How it was sent.
    pub fn sent(&self) -> &PartyNote
        ensures { result.now ≡ self.now.sent }
    {
        &self.sent
    }

    /// The place of its realm in the order of declaration, from 0.
    pub fn realm(&self) -> usize
        ensures { result ≡ self.now.realm }
    {
        self.realm
    }

    /// The event that it is in its realm, and how it was sent.
    pub(crate) fn into_parts(self) -> (Event, PartyNote)
        requires { Always }
        ensures came { ComesFrom self.sent self.event }
        ensures event { result.0 ≡ self.event }
        ensures sent { result.1 ≡ self.sent }
    {
        let Returned { event, sent, .. } = self;
        (event, sent)
    }

    /// Who was taken apart comes back still, where nothing has happened.
    pub(crate) fn of_parts(realm: usize, event: Event, sent: PartyNote) -> Returned
        requires { ComesFrom sent event }
        ensures realm { result.realm ≡ realm }
        ensures event { result.event ≡ event }
        ensures sent { result.sent ≡ sent }
    {
        Returned { realm, event, sent }
    }
}
