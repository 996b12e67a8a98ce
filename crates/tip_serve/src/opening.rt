//! Connections that are opened, either way.
ghost use Rattle.tip_branch.specs.Always.{Always};

use crate::connections::Live;
use crate::rows::fresh;
use crate::served::Served;
use crate::server::Server;
use std::alloc::{AllocError, Global};
use std::sync::{Arc, Wait};
use tip_branch::{Branch, HeldFresh};
use tip_control::{Answer, Request};
use tip_duties::{Connection, Note};
use tip_honest::Entry;
use tip_host::{HostEvent, HostFault, Seat, Stepped, Work};
use tip_journal::Pass;
use tip_line::{Refusal, Word};
use tip_notices::{Arrival, Ask, Asker, Inbox, Kept, Log};
use tip_rows::RowLog;
use tip_session::DeskFault;
use tip_shared::{Shared, run_errand};
use tip_sockets::Runtime;
use tip_threads::{Link, peer_of, start_session};

/// Why a socket is no connection.
#[derive(Drop)]
pub enum NotOpened {
    Refused(Refusal),
    Fault(HostFault),
    Memory,
}

impl NotOpened {
    /// Why, in a word.
    fn word(&self) -> &'static str {
        match self {
            NotOpened::Refused(Refusal::Full) => "full",
            NotOpened::Refused(Refusal::Frozen) => "frozen",
            NotOpened::Refused(_) => "refused",
            NotOpened::Fault(HostFault::Stopped) => "stopped",
            NotOpened::Fault(HostFault::Memory) | NotOpened::Memory => "memory",
            NotOpened::Fault(_) => "pass-mismatch",
        }
    }
}

impl From<NotOpened> for Refusal {
    fn from(why: NotOpened) -> Refusal {
        match why {
            NotOpened::Refused(refusal) => refusal,
            NotOpened::Fault(fault) => Refusal::from(fault),
            NotOpened::Memory => Refusal::Memory,
        }
    }
}

impl From<AllocError> for NotOpened {
    fn from(_: AllocError) -> NotOpened {
        NotOpened::Memory
    }
}

impl From<HostFault> for NotOpened {
    fn from(fault: HostFault) -> NotOpened {
        NotOpened::Fault(fault)
    }
}

/// What the threads of all connections share.
#[derive(Drop)]
struct Common<S> {
    shared: Arc<Shared<S>>,
    inbox: Arc<Inbox>,
    log: Arc<Log>,
}

/// What came of an event at the host.
#[derive(Clone, Copy)]
struct Came {
    /// The seat of a connection that it made.
    opened: Option<Seat>,
    /// Why nothing was done, if so.
    refusal: Option<Refusal>,
}

impl<'a, S: RowLog + Drop + Send + 'static> Server<'a, S>
where
    S::Medium: Send,
{
    /// Makes a socket a connection with these boxes, and starts its threads. One that is not taken is closed.
    pub fn open<R: Runtime>(
        &mut self,
        rt: &R,
        arrival: Arrival,
        is_second: bool,
        boxes: Vec<Box<dyn Branch + Send>>,
    ) {
        match self.open_at_host(rt, &arrival, boxes) {
            Ok((seat, asker)) => {
                let realm = arrival.realm;
                self.run(rt, arrival, seat, asker);
                self.make_room(rt, realm);
            }
            Err(NotOpened::Refused(Refusal::Frozen)) if !is_second => {
                let _is_news = self.note_frozen(rt, arrival.realm);
                self.full = Some(arrival.realm);
                if arrival.dial.is_none() || arrival.ask.is_some() {
                    self.held = Some(arrival);
                }
            }
            Err(fault) => self.turn_away(rt, arrival, fault),
        }
    }

    /// A socket is no connection: the operator is told why, and whoever has asked for it.
    pub fn turn_away<R: Wait + Eprint>(&self, rt: &R, arrival: Arrival, why: NotOpened) {
        self.note_refused(rt, &arrival, &why);
        let Arrival { ask, .. } = arrival;
        if let Some(ask) = ask {
            ask.turn_down(rt, Refusal::from(why));
        }
    }

    /// The connection's place is made ready, and it is opened at the host: its seat, and who has asked for it.
    fn open_at_host<R: Wait>(
        &mut self,
        rt: &R,
        arrival: &Arrival,
        boxes: Vec<Box<dyn Branch + Send>>,
    ) -> Result<(Seat, Option<Asker>), NotOpened> {
        if arrival.dial.is_none() && self.is_crowded(arrival.realm) {
            return Err(NotOpened::Refused(Refusal::Full));
        }
        self.reserve(rt, arrival.realm)?;
        let asker = asker_of(arrival)?;
        let boxes = fresh(self.alloc, boxes)?;
        let event = event_of(arrival, boxes)?;
        let came = self.happen(rt, arrival.realm, event)?;
        match (came.opened, came.refusal) {
            (Some(seat), _) => Ok((seat, asker)),
            (None, Some(refusal)) => Err(NotOpened::Refused(refusal)),
            (None, None) => Err(NotOpened::Memory),
        }
    }

    /// Whether so many peers of a realm take nothing that no further one may have threads of this process.
    fn is_crowded(&self, realm: usize) -> bool {
        match self.realms.get(realm) {
            Some(served) => served.is_crowded(),
            None => false,
        }
    }

    /// Makes room for one session more of a realm: its place, its end, and its pass.
    fn reserve<R: Wait>(&mut self, rt: &R, realm: usize) -> Result<(), AllocError> {
        self.connections.reserve()?;
        self.inbox.reserve(rt, self.connections.len())?;
        match self.realms.get_mut(realm) {
            Some(served) => served.reserve(),
            None => Ok(()),
        }
    }

    /// Starts the threads of a connection that was opened at the host; where there is none for it, it is lost.
    fn run<R: Runtime>(&mut self, rt: &R, arrival: Arrival, seat: Seat, asker: Option<Asker>) {
        let is_accepted = arrival.dial.is_none();
        let Some(place) = self.connections.take_place() else {
            return;
        };
        if let Some(served) = self.realms.get_mut(seat.realm) {
            served.begin_session(seat.epoch);
        }
        if let Err(why) = self.start(rt, arrival, seat, place) {
            self.lose(rt, seat, why);
            if let Some(asker) = asker {
                asker.answer(rt, Answer::Refused(Refusal::Memory));
            }
            self.end_session(rt, seat);
            self.connections.give_back(place);
            if is_accepted {
                self.ended = self.ended.saturating_add(1);
            }
        }
    }

    /// Starts the threads of a connection; else it says in a word why there are none.
    fn start<R: Runtime>(
        &mut self,
        rt: &R,
        arrival: Arrival,
        seat: Seat,
        place: usize,
    ) -> Result<(), &'static str>
        requires { Always }
    {
        let link = self.link(arrival, seat, place).map_err(|_| "memory")?;
        let theirs = Arc::try_clone(&link).map_err(|_| "memory")?;
        link.note_opened(rt, self.alloc);
        let pass = self.shared.pass(self.alloc);
        let thread = start_session(rt, self.alloc, theirs, pass).map_err(|_| "no-thread")?;
        if link.kept.is_some()
            && let Some(served) = self.realms.get_mut(seat.realm)
        {
            served.keep(place);
        }
        self.connections.put(place, Live { link, thread });
        Ok(())
    }

    /// What the threads of a connection share.
    fn link(&self, arrival: Arrival, seat: Seat, place: usize) -> Result<Arc<Link<S>>, AllocError> {
        let Some(served) = self.realms.get(arrival.realm) else {
            return Err(AllocError);
        };
        let boxes = boxes_of(&arrival.ask)?;
        let name = served.config.name.copy()?;
        let Common { shared, inbox, log } = self.common()?;
        let Arrival {
            socket,
            dial,
            ask,
            ..
        } = arrival;
        let link = Link {
            shared,
            inbox,
            log,
            socket,
            name,
            seat,
            place,
            dial,
            kept: kept_for(served, ask, boxes),
        };
        Ok(Arc::new(self.alloc, link)?)
    }

    /// What the threads of all connections share.
    fn common(&self) -> Result<Common<S>, AllocError>
        requires { Always }
    {
        Ok(Common {
            shared: Arc::try_clone(&self.shared)?,
            inbox: Arc::try_clone(&self.inbox)?,
            log: Arc::try_clone(&self.log)?,
        })
    }

    /// A connection was opened that can't be served.
    fn lose<R: Wait + Eprint>(&mut self, rt: &R, seat: Seat, why: &str)
        requires { Always }
    {
        if let Some(served) = self.realms.get(seat.realm) {
            let connection = Connection {
                realm: &served.config.name,
                epoch: seat.epoch,
                number: seat.number,
            };
            self.log
                .note(rt, self.alloc, Note::Ended { connection, why });
        }
        let _refused = self.make(rt, seat.realm, HostEvent::lost(seat));
    }

    /// One event of the top body's own; it says why nothing was done, if so. Where memory is wanting the server is to end.
    pub fn make<R: Wait>(&mut self, rt: &R, realm: usize, event: HostEvent) -> Option<Refusal> {
        match self.happen(rt, realm, event) {
            Ok(came) => came.refusal,
            Err(fault) => {
                self.is_short = self.is_short || matches!(fault, HostFault::Memory);
                Some(Refusal::from(fault))
            }
        }
    }

    /// An event at the host, and the errands that come of it. Where memory is wanting for one of these the server is to end.
    fn happen<R: Wait>(
        &mut self,
        rt: &R,
        realm: usize,
        event: HostEvent,
    ) -> Result<Came, HostFault> {
        let Some(served) = self.realms.get_mut(realm) else {
            return Err(HostFault::PassMismatch);
        };
        let (came, work) = match self.shared.step(rt, self.alloc, &mut served.own, event) {
            Ok(stepped) => came_of(stepped),
            Err((fault, _)) => return Err(fault),
        };
        if !is_run(rt, self.alloc, &self.shared, &mut served.own, work) {
            self.is_short = true;
        }
        Ok(came)
    }

    /// Tells the operator why a socket is no connection.
    fn note_refused<R: Wait + Eprint>(&self, rt: &R, arrival: &Arrival, why: &NotOpened) {
        let Some(served) = self.realms.get(arrival.realm) else {
            return;
        };
        let Ok(peer) = peer_of(self.alloc, &arrival.socket) else {
            return;
        };
        self.log.note(
            rt,
            self.alloc,
            Note::Refused {
                realm: &served.config.name,
                peer: peer.as_str(),
                why: why.word(),
            },
        );
    }
}

/// What came of an event, but for its errand.
fn came_of(stepped: Stepped) -> (Came, Result<Option<Work>, AllocError>) {
    let Stepped { reply, work } = stepped;
    let came = Came {
        opened: reply.opened,
        refusal: reply.refusal,
    };
    (came, work)
}

/// Does the errand of an event, and those that come of it; false where memory is wanting.
fn is_run<R: Wait, S: RowLog + Drop>(
    rt: &R,
    alloc: Global,
    shared: &Shared<S>,
    own: &mut Pass<Entry>,
    work: Result<Option<Work>, AllocError>,
) -> bool
    requires { Always }
{
    let Ok(work) = work else {
        return false;
    };
    !matches!(
        run_errand(rt, alloc, shared, own, work),
        Err(DeskFault::Memory)
    )
}

/// The event of a socket that is to be a connection.
fn event_of(arrival: &Arrival, boxes: HeldFresh) -> Result<HostEvent, AllocError> {
    Ok(match &arrival.dial {
        None => HostEvent::open(arrival.realm, boxes),
        Some(dial) => HostEvent::dial(
            arrival.realm,
            dial.address.copy()?,
            dial.purpose.copy()?,
            boxes,
        ),
    })
}

/// Who has asked for a connection.
fn asker_of(arrival: &Arrival) -> Result<Option<Asker>, AllocError> {
    match &arrival.ask {
        Some(ask) => Ok(Some(ask.asker.copy()?)),
        None => Ok(None),
    }
}

/// The letters of the boxes that come with a connection, where one is pulled on it.
fn boxes_of(ask: &Option<Ask>) -> Result<Option<Word>, AllocError> {
    match ask {
        Some(
            Ask {
                request: Request::Pull { boxes, .. },
                ..
            },
        ) => Ok(Some(boxes.copy()?)),
        _ => Ok(None),
    }
}

/// What is kept of a connection that is opened for this, if it is.
fn kept_for(served: &Served<'_>, ask: Option<Ask>, boxes: Option<Word>) -> Option<Kept> {
    let ask = ask?;
    let pulls = served.pulls_with(&ask);
    Some(Kept::new(ask, boxes, pulls))
}
