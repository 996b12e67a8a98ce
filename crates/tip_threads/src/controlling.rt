//! The threads of a realm's control port.
use crate::answering::ControlPort;
use std::alloc::{AllocError, Global};
use std::net::{TcpListener, TcpStream};
use std::sync::{Arc, Wait};
use std::thread;
use std::thread::{Builder, JoinHandle, Threads};
use std::time::{Clock, Duration};
use tip_notices::MOST_CONTROLS;
use tip_rows::RowLog;
use tip_sockets::{EVENT_STACK, SMALL_STACK};

/// How long a control connection may say nothing, or take nothing.
const PATIENCE_SECONDS: u64 = 300;

/// How long it rests where none can be accepted.
const REST_MILLIS: u64 = 10;

/// Starts the thread that accepts the connections of a realm's operator, which ends once none is taken any more.
pub fn start_controls<R, S>(
    rt: &R,
    alloc: Global,
    port: Arc<ControlPort<S>>,
    listener: TcpListener,
) -> Result<JoinHandle<()>, AllocError>
where
    R: Wait + Threads + Clock + Copy + Send + Drop + 'static,
    S: RowLog + Drop + Send + 'static,
    S::Medium: Send,
{
    let own = *rt;
    Builder::new()
        .stack_size(SMALL_STACK)
        .spawn(rt, move || accept_controls(&own, alloc, &port, &listener))
        .map_err(|_| AllocError)
}

/// Serves each connection in a thread of its own, until none is taken any more, and then joins them.
fn accept_controls<R, S>(rt: &R, alloc: Global, port: &Arc<ControlPort<S>>, listener: &TcpListener)
where
    R: Wait + Threads + Clock + Copy + Send + Drop + 'static,
    S: RowLog + Drop + Send + 'static,
    S::Medium: Send,
{
    let mut threads = Vec::new(alloc);
    for _ in 0..MOST_CONTROLS {
        if threads.push(None).is_err() {
            return;
        }
    }
    for accepted in listener.incoming() {
        if port.is_closed(rt) {
            break;
        }
        match accepted {
            Ok(socket) => admit(rt, alloc, port, socket, &mut threads),
            Err(_) => thread::sleep(rt, Duration::from_millis(REST_MILLIS)),
        }
    }
    for thread in threads {
        if let Some(thread) = thread {
            thread.join(rt);
        }
    }
}

/// Gives a connection a place and a thread; else it is closed.
fn admit<R, S>(
    rt: &R,
    alloc: Global,
    port: &Arc<ControlPort<S>>,
    socket: TcpStream,
    threads: &mut Vec<Option<JoinHandle<()>>>,
)
where
    R: Wait + Threads + Clock + Copy + Send + Drop + 'static,
    S: RowLog + Drop + Send + 'static,
    S::Medium: Send,
{
    set_patience(&socket);
    let Ok(socket) = Arc::new(alloc, socket) else {
        return;
    };
    let (Ok(ours), Ok(theirs)) = (Arc::try_clone(&socket), Arc::try_clone(port)) else {
        return;
    };
    let Some(place) = port.enter(rt, ours) else {
        return;
    };
    let Some(there) = threads.get_mut(place) else {
        return;
    };
    if let Some(earlier) = there.take() {
        earlier.join(rt);
    }
    let own = *rt;
    let started = Builder::new().stack_size(EVENT_STACK).spawn(
        rt,
        move || serve_control(own, alloc, theirs, socket, place),
    );
    match started {
        Ok(thread) => *there = Some(thread),
        Err(_) => port.leave(rt, place),
    }
}

/// Neither a read nor a write takes longer than the other side may say or take nothing.
fn set_patience(socket: &TcpStream) {
    let patience = Some(Duration::from_secs(PATIENCE_SECONDS));
    let _no_longer = socket.set_read_timeout(patience);
    let _no_longer = socket.set_write_timeout(patience);
    let _at_once = socket.set_nodelay(true);
}

/// Answers each line of a connection, until it ends. Its last act is to give its place back.
fn serve_control<R: Wait + Clock + Drop, S: RowLog + Drop>(
    rt: R,
    alloc: Global,
    port: Arc<ControlPort<S>>,
    socket: Arc<TcpStream>,
    place: usize,
) {
    let _ended = port.answer_all(&rt, alloc, &socket, place);
    port.leave(&rt, place);
}
