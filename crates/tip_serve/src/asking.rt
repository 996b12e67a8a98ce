//! What the top body does at an operator's word.
ghost use Rattle.tip_branch.specs.Always.{Always};

use crate::server::{Server, Task};
use std::alloc::AllocError;
use std::slice;
use std::sync::{Arc, Wait};
use tip_control::{Answer, Request};
use tip_duties::{Dial, Duties};
use tip_host::{HostEvent, Seat};
use tip_line::{Address, Id, Refusal};
use tip_machine::Purpose;
use tip_notices::{Ask, Asker};
use tip_recovery::{Recovery, Unfinished};
use tip_rows::{Row, RowLog};
use tip_sockets::Runtime;
use tip_threads::Link;

/// How many threads may call managers for a realm before its operator may not have its rows called again.
const MOST_CALLERS: usize = 8;

impl<'a, S: RowLog + Drop + Send + 'static> Server<'a, S>
where
    S::Medium: Send,
{
    /// Does what an operator asks, or says which task that is.
    pub fn hear<R: Runtime>(&mut self, rt: &R, ask: Ask) -> Option<Task> {
        match &ask.request {
            Request::Retry => self.retry(rt, ask.realm, ask.asker),
            Request::Renew => return self.renewal(rt, ask.realm, ask.asker),
            Request::Push { .. } | Request::Pull { .. } => self.ask_manager(rt, ask),
            Request::Status | Request::Doubts => {
                ask.asker.answer(rt, Answer::Refused(Refusal::Unknown));
            }
        }
        None
    }

    /// The task of starting a realm again at its operator's word.
    fn renewal<R: Wait>(&mut self, rt: &R, realm: usize, asker: Asker) -> Option<Task> {
        match self.shared.doubts(rt, self.alloc, realm) {
            Ok(recovery) => Some(Task::Renew {
                realm,
                recovery,
                asker: Some(asker),
            }),
            Err(fault) => {
                asker.answer(rt, Answer::Refused(Refusal::from(fault)));
                None
            }
        }
    }

    /// Does again what a start does for the rows of a realm.
    fn retry<R: Runtime>(&mut self, rt: &R, realm: usize, asker: Asker) {
        let tried = if self.callers.count(realm) < MOST_CALLERS {
            match self.shared.doubts(rt, self.alloc, realm) {
                Ok(stored) => self.try_again(rt, realm, &stored),
                Err(fault) => Err(Refusal::from(fault)),
            }
        } else {
            Err(Refusal::Busy)
        };
        let answer = match tried {
            Ok(calls) => Answer::Calls(calls),
            Err(why) => Answer::Refused(why),
        };
        asker.answer(rt, answer);
    }

    /// Tries again what is left of a realm's transactions, and calls the managers that its rows name; how many it calls.
    fn try_again<R: Runtime>(
        &mut self,
        rt: &R,
        realm: usize,
        stored: &Recovery,
    ) -> Result<usize, Refusal> {
        let Duties { resumes, dials } = self.duties_again(rt, realm, stored)?;
        let count = dials.len();
        self.resume(rt, realm, resumes);
        if self.call(rt, realm, dials) {
            Ok(count)
        } else {
            Err(Refusal::Memory)
        }
    }

    /// What is to be done again for a realm's rows: as at a start, but that no superior is called that is on a connection, and no
    /// subordinate that has acknowledged.
    fn duties_again<R: Wait>(
        &self,
        rt: &R,
        realm: usize,
        stored: &Recovery,
    ) -> Result<Duties, AllocError> {
        let mut all = Duties {
            resumes: Vec::new(self.alloc),
            dials: Vec::new(self.alloc),
        };
        for row in stored.rows() {
            let Duties { mut resumes, dials } = Duties::of(self.alloc, slice::from_ref(row))?;
            all.resumes.append(&mut resumes)?;
            for dial in dials {
                if self.is_wanted(rt, realm, row, &dial) {
                    all.dials.push(dial)?;
                }
            }
        }
        Ok(all)
    }

    /// Whether a manager that a row names is still to be called.
    fn is_wanted<R: Wait>(&self, rt: &R, realm: usize, row: &Unfinished, dial: &Dial) -> bool {
        match &dial.purpose {
            Purpose::Query(_) => !self.shared.is_with_superior(rt, realm, row.key()),
            Purpose::Reconnect(_, number) => match subordinate_at(row.row(), *number) {
                Some((address, id)) => self.shared.is_owed(rt, realm, row.key(), address, id),
                None => false,
            },
            Purpose::Plain => false,
        }
    }

    /// Asks another manager to take part in a transaction, or to let us, on an idle connection to it, else on one that is opened.
    fn ask_manager<R: Runtime>(&mut self, rt: &R, ask: Ask) {
        if !self.has_branches(&ask) {
            return ask.asker.answer(rt, Answer::Refused(Refusal::WrongCount));
        }
        match self.idle_for(rt, &ask) {
            Some(link) => self.ask_on(rt, &link, ask),
            None => self.open_for(rt, ask),
        }
    }

    /// A connection of the realm that is idle, and fit for this: it is taken.
    fn idle_for<R: Wait>(&self, rt: &R, ask: &Ask) -> Option<Arc<Link<S>>>
        requires { Always }
    {
        let served = self.realms.get(ask.realm)?;
        self.connections.idle_for(rt, &served.kept, ask)
    }

    /// Whether what is to be pulled has a box for each of the realm's branches.
    fn has_branches(&self, ask: &Ask) -> bool {
        match (&ask.request, self.realms.get(ask.realm)) {
            (Request::Pull { boxes, .. }, Some(served)) => {
                boxes.as_str().len() == served.config.branches.as_slice().len()
            }
            _ => true,
        }
    }

    /// Opens a connection for this.
    fn open_for<R: Runtime>(&mut self, rt: &R, ask: Ask) {
        let realm = ask.realm;
        self.make_room(rt, realm);
        let Ok(asker) = ask.asker.copy() else {
            return ask.turn_down(rt, Refusal::Memory);
        };
        let is_started = match self.realms.get(realm) {
            Some(served) => self.callers.call_for(rt, &served.config.name, ask).is_ok(),
            None => false,
        };
        if !is_started {
            asker.answer(rt, Answer::Refused(Refusal::Memory));
        }
    }

    /// Nothing is under way on a connection that is kept: what it was opened for is asked, if it was not yet.
    pub fn note_free<R: Wait + Eprint>(&mut self, rt: &R, place: usize) {
        let Some(link) = self.connections.link_at(place) else {
            return;
        };
        let first = match &link.kept {
            Some(kept) => kept.take_first(rt),
            None => None,
        };
        match first {
            Some(ask) => self.ask_on(rt, &link, ask),
            None => self.make_room(rt, link.seat.realm),
        }
    }

    /// Asks this on a connection that was taken for it.
    fn ask_on<R: Wait + Eprint>(&mut self, rt: &R, link: &Link<S>, ask: Ask)
        requires { Always }
    {
        let Some(kept) = &link.kept else {
            return;
        };
        let Ask {
            realm,
            request,
            asker,
        } = ask;
        kept.await_response(rt, asker, &request);
        match self.make_asked(rt, link.seat, request) {
            None => kept.begin(rt),
            Some(why) => {
                kept.turn_down(rt, why);
                if why == Refusal::Frozen {
                    self.note_full(rt, realm, link.seat.epoch);
                }
            }
        }
    }

    /// The event of asking this on a connection; why nothing is asked, if so.
    fn make_asked<R: Wait>(&mut self, rt: &R, seat: Seat, request: Request) -> Option<Refusal>
        requires { Always }
    {
        match request {
            Request::Push { id, .. } => self.make(rt, seat.realm, HostEvent::ask_push(seat, id)),
            Request::Pull { superior, .. } => {
                self.make(rt, seat.realm, HostEvent::ask_pull(seat, superior))
            }
            _ => Some(Refusal::Unknown),
        }
    }

    /// Where a realm has as many connections as it may, those end that are kept and idle.
    pub fn make_room<R: Wait>(&self, rt: &R, realm: usize)
        requires { Always }
    {
        let Some(served) = self.realms.get(realm) else {
            return;
        };
        if served.kept.is_empty() {
            return;
        }
        let most = served.config.limits.connections as usize;
        match self.shared.usage(rt, realm) {
            Some(usage) if usage.connections >= most => {}
            _ => return,
        }
        self.connections.shut_idle(rt, &served.kept);
    }
}

/// The subordinate of a number in a committed row.
fn subordinate_at(row: &Row, number: u32) -> Option<&(Address, Id)> {
    match row {
        Row::Committed { subordinates, .. } => {
            let place = number.checked_sub(1)?;
            subordinates.as_slice().get(place as usize)
        }
        Row::Prepared { .. } => None,
    }
}
