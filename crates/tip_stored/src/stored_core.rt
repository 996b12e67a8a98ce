//! The core of all realms over a store of their rows.
ghost use Rattle.std.specs.Prelude.{◌≡◌, ◌↔◌, ℕ, None, Some, true, false, IfOk, IfErr, OnOk};
ghost use Rattle.tip_branch.specs.Always.{Always};
ghost use Rattle.tip_core.specs.Hosted.{realm as realm_at, HaveNames, IsRoomFor, Steps};
ghost use Rattle.tip_machine.specs.States.{State};
ghost use Rattle.tip_machine.specs.Steps.{fits, wants};
ghost use Rattle.tip_stored.specs.Errands.{goes_uncalled};
ghost use Rattle.tip_stored.specs.Keeping.{Happens, Keeps};
ghost use Rattle.tip_stored.specs.declared.stored_core.StepFault.TheVariants.{Stopped};

use crate::keeping::keep;
use std::alloc::Global;
use thiserror::Error;
use tip_core::{Core, Happened, Room};
use tip_machine::{Event, Outcome};
use tip_rows::RowLog;

/// Why an event did not happen.
#[derive(Clone, Copy, Debug, PartialEq, Eq, Error)]
pub enum StepFault {
    #[error("the host is stopped")]
    Stopped,
    #[error("out of memory")]
    Memory,
}

/// All realms, each by its place in the order of declaration, and the store of their rows.
#[derive(Drop)]
pub struct StoredCore<S, C = Core> {
    pub store: S,
    pub core: C,
    pub is_stopped: bool,
}

impl<S: RowLog> StoredCore<S, Core> {
    /// These realms over this store.
    pub fn new(store: S, core: Core) -> StoredCore<S, Core>
        requires { Always }
        ensures store { result.store ≡ store }
        ensures core { result.core ≡ core }
        ensures stopped { result.is_stopped ≡ false }
    {
        StoredCore {
            store,
            core,
            is_stopped: false,
        }
    }

    /// All the memory that an event of a realm takes. After it nothing can be wanting, and nothing has happened yet.
    pub fn room(&mut self, alloc: Global, realm: usize, event: &Event) -> Result<Room, StepFault>
        requires { Always }
        ensures room { IfOk result (IsRoomFor self.new.core realm event.now) }
        ensures store { self.new.store ≡ self.old.store }
        ensures realms { (place : ℕ) → realm_at self.new.core place ≡ realm_at self.old.core place }
        ensures stopped { self.new.is_stopped ≡ self.old.is_stopped }
        ensures running { OnOk result (self.old.is_stopped ≡ false) }
        ensures stopping { IfErr result
            (λ fault. (fault ≡ Stopped) ↔ (self.old.is_stopped ≡ true)) }
    {
        if self.is_stopped {
            return Err(StepFault::Stopped);
        }
        self.core
            .room(alloc, realm, event)
            .map_err(|_| StepFault::Memory)
    }

    /// One event of one realm, in the room that was made for it: the change that it wants is asked of the store, at most one;
    /// then its realm goes on by what became of it. It takes no memory. Who goes out was not called since its errand was given.
    pub fn happen(&mut self, realm: usize, event: Event, room: Room) -> Happened
        requires always { Always }
        requires room { IsRoomFor self.old.core realm event room }
        ensures happens { Happens S.keeping self.old self.new
            realm event result }
        ensures uncalled { goes_uncalled result.answer.work ≡ true }
        ensures change { result.change ≡ room.change }
        ensures stopped { self.new.is_stopped ≡ self.old.is_stopped }
    {
        let outcome = match self.core.name(realm) {
            Some(name) => keep(&mut self.store, name, room.wants()),
            None => Outcome::NoChange,
        };
        self.core.apply(realm, event, room, outcome)
    }

    /// Room is made for one event of one realm, and it happens. A fault hands the event back, and nothing has happened.
    pub fn step(
        &mut self,
        alloc: Global,
        realm: usize,
        event: Event,
    ) -> Result<Happened, (StepFault, Event)>
        requires { Always }
        ensures happens { IfOk result (Happens S.keeping
            self.old self.new realm event) }
        ensures uncalled { IfOk result
            (λ happened. goes_uncalled happened.answer.work ≡ true) }
        ensures back { IfErr result (λ fault. fault.1 ≡ event) }
        ensures store { IfErr result (λ fault. self.new.store ≡ self.old.store) }
        ensures realms { IfErr result
            (λ fault. (place : ℕ) → realm_at self.new.core place ≡ realm_at self.old.core place) }
        ensures stopped { self.new.is_stopped ≡ self.old.is_stopped }
        ensures running { IfOk result (λ happened. self.old.is_stopped ≡ false) }
        ensures stopping { IfErr result
            (λ fault. (fault.0 ≡ Stopped) ↔ (self.old.is_stopped ≡ true)) }
    {
        match self.room(alloc, realm, &event) {
            Ok(room) => Ok(self.happen(realm, event, room)),
            Err(fault) => Err((fault, event)),
        }
    }

    /// From now on each step is refused.
    pub fn stop(&mut self)
        ensures { self.new ≡ record self.old { is_stopped = true } }
    {
        self.is_stopped = true;
    }

    /// Ends the stored core, stopped or not: all connections, boxes and parties are dropped, which calls their branches, and the
    /// store comes back with its rows and epochs as they are.
    pub fn shut(self) -> S
        requires { Always }
        ensures { result ≡ self.store }
    {
        self.store
    }
}
