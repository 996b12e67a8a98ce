//! What the threads hand to the top body.
use crate::slots::{Ask, MOST_CONTROLS};
use std::alloc::{AllocError, Global};
use std::collections::VecDeque;
use std::net::TcpStream;
use std::sync::{Condvar, Mutex, Wait};
use tip_duties::{Dial, Note};
use tip_line::Id;

/// How many sockets wait for the top body. Further ones wait in the listener's own queue.
const MOST_SOCKETS: usize = 64;

/// How much news waits for the top body. Further news is left out.
const MOST_NEWS: usize = 1_024;

/// A socket of a realm, which is to be a connection.
#[derive(Drop)]
pub struct Arrival {
    pub realm: usize,
    pub socket: TcpStream,
    /// Why we have opened it; None where another manager has.
    pub dial: Option<Dial>,
    /// What an operator asks on it.
    pub ask: Option<Ask>,
}

/// What an operator must know of a row.
#[derive(Drop)]
pub enum News {
    /// A transaction that was said to be in doubt has its outcome.
    Decided { transaction: Id, is_committed: bool },
    /// The store has refused the change of a transaction's row.
    StoreRefused { transaction: Id },
}

impl News {
    /// The line that the operator is told.
    pub fn note(&self) -> Note<'_> {
        match self {
            News::Decided {
                transaction,
                is_committed,
            } => Note::Decided {
                transaction,
                outcome: if *is_committed { "commit" } else { "abort" },
            },
            News::StoreRefused { transaction } => Note::StoreRefused { transaction },
        }
    }
}

/// What the top body is told.
#[derive(Drop)]
pub enum Notice {
    Arrived(Arrival),
    /// The session at a place has ended.
    Ended(usize),
    /// The calls at a place are made.
    Called(usize),
    /// Nothing is under way on the connection at a place, which is kept for an operator.
    Free(usize),
    /// An operator asks this.
    Asked(Ask),
    /// A realm takes no entry more in this epoch.
    Frozen { realm: usize, epoch: u32 },
    /// The operator is to be told this.
    News(News),
}

/// What came and was not taken yet.
#[derive(Drop)]
struct Waiting {
    arrivals: VecDeque<Arrival>,
    ended: Vec<usize>,
    called: Vec<usize>,
    free: Vec<usize>,
    asks: VecDeque<Ask>,
    /// Whether the last that was taken of sockets and asks was an ask: they take turns.
    was_ask: bool,
    /// For each realm, the epoch in which a session found it full.
    frozen: Vec<Option<u32>>,
    news: VecDeque<News>,
    is_closed: bool,
}

/// What the threads hand to the top body. All its memory is taken by the top body, so that no thread wants any to be heard.
#[derive(Drop)]
pub struct Inbox {
    waiting: Mutex<Waiting>,
    /// Something has come.
    came: Condvar,
    /// There is a place for a socket again.
    freed: Condvar,
}

impl Waiting {
    fn is_empty(&self) -> bool {
        self.arrivals.is_empty()
            && self.ended.is_empty()
            && self.called.is_empty()
            && self.free.is_empty()
            && self.asks.is_empty()
            && self.news.is_empty()
            && self.frozen.iter().all(|epoch| epoch.is_none())
    }

    /// The first realm that a session found full.
    fn take_frozen(&mut self) -> Option<Notice> {
        for realm in 0..self.frozen.len() {
            if let Some(epoch) = self.frozen[realm] {
                self.frozen[realm] = None;
                return Some(Notice::Frozen { realm, epoch });
            }
        }
        None
    }

    /// What an operator asks, where it is an operator's turn.
    fn take_ask(&mut self) -> Option<Ask> {
        self.was_ask = !self.asks.is_empty() && (!self.was_ask || self.arrivals.is_empty());
        if self.was_ask {
            return self.asks.pop_front();
        }
        None
    }
}

impl Inbox {
    /// The inbox of a server of so many realms.
    pub fn new(alloc: Global, realms: usize) -> Result<Inbox, AllocError> {
        let mut frozen = Vec::with_capacity(alloc, realms)?;
        for _ in 0..realms {
            frozen.push(None)?;
        }
        Ok(Inbox {
            waiting: Mutex::new(Waiting {
                arrivals: VecDeque::with_capacity(alloc, MOST_SOCKETS)?,
                ended: Vec::new(alloc),
                called: Vec::new(alloc),
                free: Vec::new(alloc),
                asks: VecDeque::with_capacity(alloc, realms.saturating_mul(MOST_CONTROLS))?,
                was_ask: false,
                frozen,
                news: VecDeque::with_capacity(alloc, MOST_NEWS)?,
                is_closed: false,
            }),
            came: Condvar::new(),
            freed: Condvar::new(),
        })
    }

    /// Makes room for what so many sessions say.
    pub fn reserve<R: Wait>(&self, rt: &R, sessions: usize) -> Result<(), AllocError> {
        let mut waiting = self.waiting.lock(rt);
        waiting.free.reserve(sessions)?;
        waiting.ended.reserve(sessions)
    }

    /// Makes room for the ends of so many rows of calls.
    pub fn reserve_calls<R: Wait>(&self, rt: &R, callers: usize) -> Result<(), AllocError> {
        self.waiting.lock(rt).called.reserve(callers)
    }

    /// Hands a socket over, once there is a place for it; false where none is taken any more, and it is closed.
    pub fn put<R: Wait>(&self, rt: &R, arrival: Arrival) -> bool {
        let mut waiting = self.freed.wait_while(rt, self.waiting.lock(rt), |waiting| {
            waiting.arrivals.len() >= MOST_SOCKETS && !waiting.is_closed
        });
        if waiting.is_closed {
            return false;
        }
        let is_put = waiting.arrivals.push_back(arrival).is_ok();
        drop(waiting);
        self.came.notify_all();
        is_put
    }

    /// The session at a place has ended. There is room for that.
    pub fn end<R: Wait>(&self, rt: &R, place: usize) {
        let _kept = self.waiting.lock(rt).ended.push(place);
        self.came.notify_all();
    }

    /// The calls at a place are made. There is room for that.
    pub fn end_calls<R: Wait>(&self, rt: &R, place: usize) {
        let _kept = self.waiting.lock(rt).called.push(place);
        self.came.notify_all();
    }

    /// Nothing is under way on the connection at a place, which is kept for an operator. There is room for that, once.
    pub fn free<R: Wait>(&self, rt: &R, place: usize) {
        let mut waiting = self.waiting.lock(rt);
        if !waiting.free.contains(&place) {
            let _kept = waiting.free.push(place);
        }
        drop(waiting);
        self.came.notify_all();
    }

    /// An operator asks this; false where nothing is done any more.
    pub fn ask<R: Wait>(&self, rt: &R, ask: Ask) -> bool {
        let mut waiting = self.waiting.lock(rt);
        let is_kept = !waiting.is_closed && waiting.asks.push_back(ask).is_ok();
        drop(waiting);
        self.came.notify_all();
        is_kept
    }

    /// A session found a realm full.
    pub fn freeze<R: Wait>(&self, rt: &R, realm: usize, epoch: u32) {
        let mut waiting = self.waiting.lock(rt);
        if let Some(place) = waiting.frozen.get_mut(realm) {
            *place = Some(epoch);
        }
        drop(waiting);
        self.came.notify_all();
    }

    /// There is something to be told to the operator.
    pub fn tell<R: Wait>(&self, rt: &R, news: News) {
        let mut waiting = self.waiting.lock(rt);
        if waiting.news.len() < MOST_NEWS {
            let _kept = waiting.news.push_back(news);
        }
        drop(waiting);
        self.came.notify_all();
    }

    /// Something that is still to be told to the operator.
    pub fn take_news<R: Wait>(&self, rt: &R) -> Option<News> {
        self.waiting.lock(rt).news.pop_front()
    }

    /// Waits for what comes next: news first, then full realms, and ends, so that what is free again is known before more is opened.
    pub fn next<R: Wait>(&self, rt: &R) -> Option<Notice> {
        let mut waiting = self
            .came
            .wait_while(rt, self.waiting.lock(rt), |waiting| waiting.is_empty());
        if let Some(news) = waiting.news.pop_front() {
            return Some(Notice::News(news));
        }
        if let Some(notice) = waiting.take_frozen() {
            return Some(notice);
        }
        if let Some(place) = waiting.ended.pop() {
            return Some(Notice::Ended(place));
        }
        if let Some(place) = waiting.called.pop() {
            return Some(Notice::Called(place));
        }
        if let Some(place) = waiting.free.pop() {
            return Some(Notice::Free(place));
        }
        if let Some(ask) = waiting.take_ask() {
            return Some(Notice::Asked(ask));
        }
        let arrival = waiting.arrivals.pop_front()?;
        drop(waiting);
        self.freed.notify_all();
        Some(Notice::Arrived(arrival))
    }

    /// From now on no socket is taken; those that wait are closed.
    pub fn close<R: Wait>(&self, rt: &R) {
        let mut waiting = self.waiting.lock(rt);
        waiting.is_closed = true;
        waiting.arrivals.clear();
        waiting.asks.clear();
        drop(waiting);
        self.freed.notify_all();
    }

    /// Whether no socket is taken any more.
    pub fn is_closed<R: Wait>(&self, rt: &R) -> bool {
        self.waiting.lock(rt).is_closed
    }
}
