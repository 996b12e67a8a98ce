//! What the top body keeps, and what it is to do next.
ghost use Rattle.tip_branch.specs.Always.{Always};

use crate::connections::Connections;
use crate::opening::NotOpened;
use crate::rows::count_in;
use crate::served::Served;
use std::alloc::Global;
use std::sync::{Arc, Wait};
use tip_branch::{Branch, Phase, Plan};
use tip_control::Answer;
use tip_duties::Note;
use tip_line::Refusal;
use tip_notices::{Arrival, Asker, Doubts, Inbox, Log, Maker, Notice};
use tip_recovery::Recovery;
use tip_rows::RowLog;
use tip_script::plan_of;
use tip_shared::Shared;
use tip_sockets::{Callers, Runtime};
use tip_stored::RenewFault;

/// What the top body keeps.
#[derive(Drop)]
pub struct Server<'a, S> {
    pub alloc: Global,
    pub realms: Vec<Served<'a>>,
    pub shared: Arc<Shared<S>>,
    pub inbox: Arc<Inbox>,
    pub log: Arc<Log>,
    pub doubts: Arc<Doubts>,
    pub connections: Connections<S>,
    pub callers: Callers,
    /// How many accepted connections are to end.
    pub sessions: Option<u32>,
    pub ended: u32,
    /// Memory was wanting where the server can't do without.
    pub is_short: bool,
    /// A realm whose journal is full: it is renewed next, and then this socket of it is tried again.
    pub full: Option<usize>,
    pub held: Option<Arrival>,
}

/// What the top body does next, once it has made boxes for it.
#[derive(Drop)]
pub enum Task {
    /// A socket is to be a connection; `is_second` once its realm was renewed for it.
    Open {
        arrival: Arrival,
        is_second: bool,
    },
    /// A realm is to start again, by what is stored of it, at its operator's word or since its journal is full.
    Renew {
        realm: usize,
        recovery: Recovery,
        asker: Option<Asker>,
    },
}

impl<'a, S: RowLog + Drop + Send + 'static> Server<'a, S>
where
    S::Medium: Send,
{
    /// What is to be done next; None where the server is to end.
    pub fn next<R: Runtime>(&mut self, rt: &R) -> Option<Task> {
        for _ in rt.forever() {
            if let Some(task) = self.held_task(rt) {
                return Some(task);
            }
            if self.is_done() {
                return None;
            }
            if let Some(notice) = self.inbox.next(rt)
                && let Some(task) = self.heed(rt, notice)
            {
                return Some(task);
            }
        }
        unreachable!()
    }

    /// Does what a notice wants, or says which task that is.
    fn heed<R: Runtime>(&mut self, rt: &R, notice: Notice) -> Option<Task> {
        match notice {
            Notice::Arrived(arrival) => {
                return Some(Task::Open {
                    arrival,
                    is_second: false,
                });
            }
            Notice::Asked(ask) => return self.hear(rt, ask),
            Notice::Ended(place) => self.join(rt, place),
            Notice::Called(place) => self.callers.join(rt, place),
            Notice::Free(place) => self.note_free(rt, place),
            Notice::Frozen { realm, epoch } => self.note_full(rt, realm, epoch),
            Notice::News(news) => self.log.note(rt, self.alloc, news.note()),
        }
        None
    }

    /// How many boxes a task wants.
    pub fn box_count(&self, task: &Task) -> usize {
        match task {
            Task::Open { arrival, .. } => match (self.realms.get(arrival.realm), &arrival.ask) {
                (Some(served), None) => served.plans.len(),
                (Some(served), Some(ask)) => served
                    .pulls_with(ask)
                    .saturating_mul(ask.boxes().len()),
                (None, _) => 0,
            },
            Task::Renew { recovery, .. } => count_in(recovery.rows()),
        }
    }

    /// What the box at a place promises, and in which phase it is: those of a connection by the realm's letters, those of stored
    /// rows ready and willing.
    pub fn box_at(&self, task: &Task, place: usize) -> (Plan, Phase) {
        let willing = (Plan::Yes, Phase::Ready);
        match task {
            Task::Open { arrival, .. } => match self.plan_at(arrival, place) {
                Some(plan) => (plan, Phase::Active),
                None => willing,
            },
            Task::Renew { .. } => willing,
        }
    }

    /// What the box at a place of a socket's connection promises.
    fn plan_at(&self, arrival: &Arrival, place: usize) -> Option<Plan> {
        match &arrival.ask {
            None => self.realms.get(arrival.realm)?.plans.get(place).copied(),
            Some(ask) => {
                let boxes = ask.boxes();
                if boxes.is_empty() {
                    return None;
                }
                Some(plan_of(boxes[place % boxes.len()]))
            }
        }
    }

    /// Does a task, with the boxes that it wants.
    pub fn act<R: Runtime>(&mut self, rt: &R, task: Task, boxes: Vec<Box<dyn Branch + Send>>) {
        match task {
            Task::Open { arrival, is_second } => self.open(rt, arrival, is_second, boxes),
            Task::Renew {
                realm,
                recovery,
                asker,
            } => self.renew(rt, realm, recovery, boxes, asker),
        }
    }

    /// Leaves a task undone, since there is no memory for its boxes.
    pub fn forgo<R: Wait + Eprint>(&mut self, rt: &R, task: Task) {
        match task {
            Task::Open { arrival, .. } => self.turn_away(rt, arrival, NotOpened::Memory),
            Task::Renew { realm, asker, .. } => {
                self.note_not_renewed(rt, realm, RenewFault::Memory, asker);
            }
        }
    }

    /// Whether so many connections have ended, or no more can be served.
    fn is_done(&self) -> bool {
        self.is_short || self.sessions.is_some_and(|sessions| self.ended >= sessions)
    }

    /// What waits for a renewal: the renewal itself, and then the socket for which it was wanted.
    fn held_task<R: Wait + Eprint>(&mut self, rt: &R) -> Option<Task> {
        if let Some(realm) = self.full.take() {
            match self.shared.doubts(rt, self.alloc, realm) {
                Ok(recovery) => {
                    return Some(Task::Renew {
                        realm,
                        recovery,
                        asker: None,
                    });
                }
                Err(fault) => self.note_stuck(rt, realm, fault),
            }
        }
        let arrival = self.held.take()?;
        Some(Task::Open {
            arrival,
            is_second: true,
        })
    }

    /// Tells the operator of transactions in doubt that he was not told of: those of a realm, or of one connection of it.
    pub fn say_doubts<R: Wait + Eprint>(&self, rt: &R, realm: usize, maker: Option<Maker>) {
        if let Some(served) = self.realms.get(realm) {
            self.doubts.say(rt, &self.log, &served.config.name, maker);
        }
    }

    /// A session has found a realm full: it is renewed once in that epoch.
    pub fn note_full<R: Wait + Eprint>(&mut self, rt: &R, realm: usize, epoch: u32) {
        if self.shared.is_frozen(rt, realm, epoch) && self.note_frozen(rt, realm) {
            self.full = Some(realm);
        }
    }

    /// A realm's journal is full. The operator is told so once in an epoch; whether he is now.
    pub fn note_frozen<R: Wait + Eprint>(&mut self, rt: &R, realm: usize) -> bool {
        let Some(served) = self.realms.get_mut(realm) else {
            return false;
        };
        let Some(epoch) = served.freeze() else {
            return false;
        };
        let name = &served.config.name;
        self.log
            .note(rt, self.alloc, Note::Frozen { realm: name, epoch });
        true
    }

    /// A realm did not start again. Where its operator has asked for that he is told, and it goes on.
    pub fn note_not_renewed<R: Wait + Eprint>(
        &mut self,
        rt: &R,
        realm: usize,
        fault: RenewFault,
        asker: Option<Asker>,
    ) {
        match asker {
            Some(asker) => asker.answer(rt, Answer::Refused(Refusal::from(fault))),
            None => self.note_stuck(rt, realm, fault),
        }
    }

    /// A realm whose journal is full did not start again: its sockets are shut all the same.
    pub fn note_stuck<R: Wait + Eprint>(&mut self, rt: &R, realm: usize, fault: RenewFault)
        requires { Always }
    {
        if let Some(served) = self.realms.get(realm) {
            self.log.note(
                rt,
                self.alloc,
                Note::NotRenewed {
                    realm: &served.config.name,
                    why: why_stuck(fault),
                },
            );
        }
        self.connections.shut_of(realm);
    }
}

/// Why a realm was not renewed, in a word.
fn why_stuck(fault: RenewFault) -> &'static str {
    match fault {
        RenewFault::Stopped => "stopped",
        RenewFault::NoRealm => "no-realm",
        RenewFault::NotRead => "not-read",
        RenewFault::BadRow => "bad-row",
        RenewFault::EpochEnd => "epoch-end",
        RenewFault::NotInDoubt => "not-in-doubt",
        RenewFault::Unadopted => "unadopted",
        RenewFault::NotRaised => "not-raised",
        RenewFault::Memory => "memory",
    }
}
