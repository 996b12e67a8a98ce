//! The threads that call other managers, as the top body keeps them.
use crate::dialling::{Call, Calls, start_calling};
use crate::runtime::Runtime;
use std::alloc::{AllocError, Global};
use std::sync::{Arc, Wait};
use std::thread::{JoinHandle, Threads};
use tip_duties::{Dial, Note};
use tip_line::Realm;
use tip_machine::Purpose;
use tip_notices::{Ask, Inbox, Log};

/// A thread that calls managers for a realm.
#[derive(Drop)]
struct Caller {
    realm: usize,
    thread: JoinHandle<()>,
}

/// The threads that call other managers. Each says in the inbox at which place it has ended.
#[derive(Drop)]
pub struct Callers {
    alloc: Global,
    inbox: Arc<Inbox>,
    log: Arc<Log>,
    callers: Vec<Option<Caller>>,
}

impl Callers {
    /// Nobody is called yet.
    pub fn new(alloc: Global, inbox: Arc<Inbox>, log: Arc<Log>) -> Callers {
        Callers {
            alloc,
            inbox,
            log,
            callers: Vec::new(alloc),
        }
    }

    /// How many threads call managers for a realm.
    pub fn count(&self, realm: usize) -> usize {
        let mut count = 0usize;
        for caller in self.callers.iter() {
            if let Some(caller) = caller
                && caller.realm == realm
            {
                count = count.saturating_add(1);
            }
        }
        count
    }

    /// These managers are called for the rows of a realm of this name, by a thread of their own; false where there is none, which
    /// the operator is told.
    pub fn call<R: Runtime>(
        &mut self,
        rt: &R,
        realm: usize,
        name: &Realm,
        dials: Vec<Dial>,
    ) -> bool {
        if dials.is_empty() {
            return true;
        }
        let is_started = match calls_of(self.alloc, dials) {
            Ok(calls) => self.start(rt, realm, name, calls).is_ok(),
            Err(AllocError) => false,
        };
        if !is_started {
            self.log
                .note(rt, self.alloc, Note::Uncalled { realm: name });
        }
        is_started
    }

    /// The manager is called that this asks of, by a thread of its own. Where there is none the question is gone.
    pub fn call_for<R: Runtime>(
        &mut self,
        rt: &R,
        name: &Realm,
        ask: Ask,
    ) -> Result<(), AllocError> {
        let realm = ask.realm;
        let Some(address) = ask.address() else {
            return Err(AllocError);
        };
        let dial = Dial {
            address: address.copy()?,
            purpose: Purpose::Plain,
        };
        let mut calls = Vec::new(self.alloc);
        calls.push(Call {
            dial,
            ask: Some(ask),
        })?;
        self.start(rt, realm, name, calls)
    }

    /// Starts the thread that makes these calls.
    fn start<R: Runtime>(
        &mut self,
        rt: &R,
        realm: usize,
        name: &Realm,
        calls: Vec<Call>,
    ) -> Result<(), AllocError> {
        let place = self.free_place(rt)?;
        let calls = Calls {
            place,
            realm,
            name: name.copy()?,
            calls,
        };
        let inbox = Arc::try_clone(&self.inbox)?;
        let log = Arc::try_clone(&self.log)?;
        let thread = start_calling(rt, self.alloc, inbox, log, calls)?;
        if let Some(there) = self.callers.get_mut(place) {
            *there = Some(Caller { realm, thread });
        }
        Ok(())
    }

    /// A place for a thread that calls, and room for its end.
    fn free_place<R: Wait>(&mut self, rt: &R) -> Result<usize, AllocError> {
        let place = match self.callers.iter().position(|caller| caller.is_none()) {
            Some(place) => place,
            None => {
                let place = self.callers.len();
                self.callers.push(None)?;
                place
            }
        };
        self.inbox.reserve_calls(rt, self.callers.len())?;
        Ok(place)
    }

    /// The calls at a place are made: their thread is joined.
    pub fn join<R: Threads + Wait>(&mut self, rt: &R, place: usize) {
        if let Some(there) = self.callers.get_mut(place)
            && let Some(Caller { thread, .. }) = there.take()
        {
            thread.join(rt);
        }
    }

    /// All threads are joined.
    pub fn join_all<R: Threads + Wait>(&mut self, rt: &R) {
        for place in 0..self.callers.len() {
            self.join(rt, place);
        }
    }
}

/// The calls of these managers, for rows.
fn calls_of(alloc: Global, dials: Vec<Dial>) -> Result<Vec<Call>, AllocError> {
    let mut calls = Vec::with_capacity(alloc, dials.len())?;
    for dial in dials {
        calls.push(Call { dial, ask: None })?;
    }
    Ok(calls)
}
