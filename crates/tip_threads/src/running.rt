//! The threads of a connection.
use crate::hearing::Overheard;
use crate::heeding::Heeded;
use std::alloc::{AllocError, Global};
use std::net::{Shutdown, TcpStream};
use std::sync::{Arc, Wait};
use std::thread;
use std::thread::{Builder, JoinHandle, Threads};
use std::time::{Clock, Duration};
use tip_duties::{Connection, Dial, Note};
use tip_honest::Entry;
use tip_host::Seat;
use tip_journal::Pass;
use tip_line::{Address, Lines, Realm};
use tip_notices::{Inbox, Kept, LOOK_SECONDS, Log};
use tip_rows::RowLog;
use tip_session::{Outgoing, SessionEnd};
use tip_shared::{Session, Shared, serve_shared, write_shared};
use tip_sockets::{EVENT_STACK, SMALL_STACK};

/// How long the other side of a connection may take nothing of what goes out to it, or say nothing where we have called it for a row.
const PATIENCE_SECONDS: u64 = 300;

/// How often it is looked whether a reader has seen that its connection was hung up, and how long is waited between.
const UNSEEN_LOOKS: u32 = 100;

const UNSEEN_MILLIS: u64 = 10;

/// What the threads of a connection share.
#[derive(Drop)]
pub struct Link<S> {
    pub shared: Arc<Shared<S>>,
    pub inbox: Arc<Inbox>,
    pub log: Arc<Log>,
    pub socket: TcpStream,
    pub name: Realm,
    pub seat: Seat,
    /// Where the top body keeps it.
    pub place: usize,
    /// Why we have opened it; None where another manager has.
    pub dial: Option<Dial>,
    /// What its realm's operator asks on it, if we have opened it at his word.
    pub kept: Option<Kept>,
}

impl<S> Link<S> {
    /// Whether we have opened it to the manager at this address.
    pub fn is_to(&self, address: &Address) -> bool {
        match &self.dial {
            Some(dial) => dial.address == *address,
            None => false,
        }
    }

    /// The connection, as it is named to the operator.
    pub fn connection(&self) -> Connection<'_> {
        Connection {
            realm: &self.name,
            epoch: self.seat.epoch,
            number: self.seat.number,
        }
    }

    /// Tells the operator that it was opened.
    pub fn note_opened<R: Wait + Eprint>(&self, rt: &R, alloc: Global) {
        let connection = self.connection();
        match &self.dial {
            Some(dial) => self.log.note(
                rt,
                alloc,
                Note::Dialled {
                    connection,
                    address: &dial.address,
                },
            ),
            None => {
                if let Ok(peer) = peer_of(alloc, &self.socket) {
                    let peer = peer.as_str();
                    self.log.note(rt, alloc, Note::Opened { connection, peer });
                }
            }
        }
    }

    /// Tells the operator that it has ended.
    fn note_ended<R: Wait + Eprint>(&self, rt: &R, alloc: Global, why: &str) {
        let connection = self.connection();
        self.log.note(rt, alloc, Note::Ended { connection, why });
    }

    /// Where a first line is looked at that states who the other side is; None where we state it, or memory is wanting.
    fn first_lines(&self, alloc: Global) -> Option<Lines> {
        match self.dial {
            None => Lines::new(alloc).ok(),
            Some(_) => None,
        }
    }

    /// Ends the connection for the other side, and for those of our threads that read or write.
    pub fn shut(&self) {
        let _shut = self.socket.shutdown(Shutdown::Both);
    }
}

impl<S: RowLog + Drop> Link<S> {
    /// Lets go of all that goes out, until nothing more does.
    fn drop_waiting<R: Wait>(&self, rt: &R) {
        for _ in rt.forever() {
            match self.shared.next_out(rt, self.seat) {
                Outgoing::Next(_) => {}
                Outgoing::Gone | Outgoing::Stopped => return,
            }
        }
    }
}

/// What the threads of a connection leave.
#[derive(Drop)]
pub struct LinkEnd {
    pub session: Session,
    /// Where the connection was hung up and its reader did not see that: another session, which said that it was lost.
    pub hung_up: Option<Session>,
}

/// Starts the threads of a connection. Nothing has begun where memory, or a thread, is wanting.
pub fn start_session<R, S>(
    rt: &R,
    alloc: Global,
    link: Arc<Link<S>>,
    pass: Pass<Entry>,
) -> Result<JoinHandle<LinkEnd>, AllocError>
where
    R: Wait + Threads + Clock + Eprint + Copy + Send + Drop + 'static,
    S: RowLog + Drop + Send + 'static,
    S::Medium: Send,
{
    let own = *rt;
    Builder::new()
        .stack_size(EVENT_STACK)
        .spawn(rt, move || run_session(own, alloc, link, pass))
        .map_err(|_| AllocError)
}

/// Reads, while other threads write, and hang up in time. Its last act is to say that the session has ended.
fn run_session<R, S>(rt: R, alloc: Global, link: Arc<Link<S>>, pass: Pass<Entry>) -> LinkEnd
where
    R: Wait + Threads + Clock + Eprint + Copy + Send + Drop + 'static,
    S: RowLog + Drop + Send + 'static,
    S::Medium: Send,
{
    let (session, written, hung_up) = match start_writer(&rt, alloc, &link) {
        Some(writer) => {
            let hanging = start_hanging_up(&rt, alloc, &link);
            let session = read(&rt, alloc, &link, pass);
            end_kept(&rt, &link);
            let written = writer.join(&rt);
            let hung_up = match hanging {
                Some(thread) => thread.join(&rt),
                None => None,
            };
            (session, written, hung_up)
        }
        None => {
            let session = read_nothing(&rt, alloc, &link, pass);
            end_kept(&rt, &link);
            (session, SessionEnd::PeerClosed, None)
        }
    };
    link.note_ended(&rt, alloc, why_ended(&session, written));
    link.inbox.end(&rt, link.place);
    LinkEnd { session, hung_up }
}

/// Whoever waits for a word on the connection is told that it has ended.
fn end_kept<R: Wait, S>(rt: &R, link: &Link<S>) {
    if let Some(kept) = &link.kept {
        kept.end(rt);
    }
}

/// Reads to the end. A realm that was found full is told to the top body at once, as its connections end with its renewal alone.
fn read<R: Wait + Eprint, S: RowLog + Drop>(
    rt: &R,
    alloc: Global,
    link: &Link<S>,
    pass: Pass<Entry>,
) -> Session {
    let session = match &link.kept {
        Some(kept) => heed(rt, alloc, link, kept, pass),
        None => overhear(rt, alloc, link, pass),
    };
    if session.given.frozen {
        link.shut();
        link.inbox.freeze(rt, link.seat.realm, link.seat.epoch);
    }
    session
}

/// Reads to the end, and tells the operator who the other side says that it is.
fn overhear<R: Wait + Eprint, S: RowLog + Drop>(
    rt: &R,
    alloc: Global,
    link: &Link<S>,
    pass: Pass<Entry>,
) -> Session {
    if link.dial.is_some() {
        let patience = Some(Duration::from_secs(PATIENCE_SECONDS));
        let _bounded = link.socket.set_read_timeout(patience);
    }
    let mut reader = Overheard {
        rt,
        alloc,
        socket: &link.socket,
        log: &link.log,
        connection: link.connection(),
        lines: link.first_lines(alloc),
    };
    serve_shared(
        rt,
        alloc,
        &link.shared,
        pass,
        link.seat,
        &mut reader,
        u64::MAX,
    )
}

/// Reads to the end, and tells whoever has asked what the other side says to it.
fn heed<R: Wait, S: RowLog + Drop>(
    rt: &R,
    alloc: Global,
    link: &Link<S>,
    kept: &Kept,
    pass: Pass<Entry>,
) -> Session {
    let Ok(mut reader) = Heeded::new(rt, alloc, &link.socket, kept) else {
        return read_nothing(rt, alloc, link, pass);
    };
    let pause = Some(Duration::from_secs(LOOK_SECONDS));
    let _bounded = link.socket.set_read_timeout(pause);
    serve_shared(
        rt,
        alloc,
        &link.shared,
        pass,
        link.seat,
        &mut reader,
        u64::MAX,
    )
}

/// Says that the connection is lost, where it can't be served.
fn read_nothing<R: Wait, S: RowLog + Drop>(
    rt: &R,
    alloc: Global,
    link: &Link<S>,
    pass: Pass<Entry>,
) -> Session {
    link.shut();
    let mut nothing: &[u8] = &[];
    serve_shared(rt, alloc, &link.shared, pass, link.seat, &mut nothing, 0)
}

/// Starts the thread that writes; None where it can't be made.
fn start_writer<R, S>(rt: &R, alloc: Global, link: &Arc<Link<S>>) -> Option<JoinHandle<SessionEnd>>
where
    R: Wait + Threads + Copy + Send + Drop + 'static,
    S: RowLog + Drop + Send + 'static,
    S::Medium: Send,
{
    let own = *rt;
    let theirs = Arc::try_clone(link).ok()?;
    Builder::new()
        .stack_size(SMALL_STACK)
        .spawn(rt, move || write(own, alloc, theirs))
        .ok()
}

/// Writes until the connection is closed, or the other side is gone or takes nothing for long; that and the reader see it then. What
/// still goes out is let go: the reader may wait until less does.
fn write<R: Wait + Drop, S: RowLog + Drop>(rt: R, alloc: Global, link: Arc<Link<S>>) -> SessionEnd {
    let patience = Some(Duration::from_secs(PATIENCE_SECONDS));
    let _bounded = link.socket.set_write_timeout(patience);
    let end = write_shared(
        &rt,
        alloc,
        &link.shared,
        &link.name,
        link.seat,
        &mut &link.socket,
    );
    link.shut();
    link.drop_waiting(&rt);
    end
}

/// Starts the thread that hangs up, on a connection that we opened; None where it can't be made.
fn start_hanging_up<R, S>(
    rt: &R,
    alloc: Global,
    link: &Arc<Link<S>>,
) -> Option<JoinHandle<Option<Session>>>
where
    R: Wait + Threads + Clock + Copy + Send + Drop + 'static,
    S: RowLog + Drop + Send + 'static,
    S::Medium: Send,
{
    if link.dial.is_none() {
        return None;
    }
    let own = *rt;
    let theirs = Arc::try_clone(link).ok()?;
    Builder::new()
        .stack_size(EVENT_STACK)
        .spawn(rt, move || hang_up(own, alloc, theirs))
        .ok()
}

/// Ends a connection that we opened once nothing is under way on it, so that it doesn't count against its realm's limit; one that
/// is kept for an operator only once nothing was asked on it for long.
fn hang_up<R: Wait + Clock + Drop, S: RowLog + Drop>(
    rt: R,
    alloc: Global,
    link: Arc<Link<S>>,
) -> Option<Session> {
    for _ in rt.forever() {
        if !link.shared.wait_free(&rt, link.seat) {
            return None;
        }
        if !is_used_again(&rt, &link) {
            link.shut();
            return lose_unseen(&rt, alloc, &link);
        }
    }
    unreachable!()
}

/// A connection on which nothing was under way has ended, and its reader says that it is lost. It does not where it holds a line whose
/// turn will not come, since it is not at the socket then: so that is said here.
fn lose_unseen<R: Wait + Clock, S: RowLog + Drop>(
    rt: &R,
    alloc: Global,
    link: &Link<S>,
) -> Option<Session> {
    for _ in 0..UNSEEN_LOOKS {
        thread::sleep(rt, Duration::from_millis(UNSEEN_MILLIS));
        if !link.shared.wait_free(rt, link.seat) {
            return None;
        }
    }
    let pass = link.shared.pass(alloc);
    Some(read_nothing(rt, alloc, link, pass))
}

/// Offers a connection on which nothing is under way to the top body; false where it is not kept, or nothing was asked for long.
fn is_used_again<R: Wait + Clock, S>(rt: &R, link: &Link<S>) -> bool {
    let Some(kept) = &link.kept else {
        return false;
    };
    kept.free(rt);
    link.inbox.free(rt, link.place);
    kept.wait_use(rt)
}

/// Where the other side of a socket is.
pub fn peer_of(alloc: Global, socket: &TcpStream) -> Result<String, AllocError> {
    match socket.peer_addr() {
        Ok(peer) => format!(in alloc; "{peer}"),
        Err(_) => String::from_str(alloc, "unknown"),
    }
}

/// How a session has ended whose writer has ended so, in a word.
fn why_ended(session: &Session, written: SessionEnd) -> &'static str {
    if session.given.frozen {
        return "frozen";
    }
    match session.end {
        SessionEnd::PeerClosed if written == SessionEnd::WriteFault => "write-fault",
        SessionEnd::PeerClosed if session.given.lost => "hung-up",
        SessionEnd::PeerClosed => "closed",
        SessionEnd::ReadFault => "read-fault",
        SessionEnd::WriteFault => "write-fault",
        SessionEnd::TurnLimit => "turn-limit",
        SessionEnd::HostStopped => "stopped",
        SessionEnd::PassMismatch => "pass-mismatch",
        SessionEnd::Memory => "memory",
    }
}
