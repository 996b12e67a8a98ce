//! Two realms that are served on two ports of one process, a client of each that commits once, an operator who asks, and a
//! transaction that is pushed from one realm to the other at a control port. What no clause says: that sockets are accepted, lines
//! read and answers written, and that the server ends with its audit.
#![tactic(auto)]

mod operating;
mod told;

use crate::operating::{ask_operator, commit_in_both};
use crate::told::{Teller, Told};
use std::alloc::{AllocError, Global};
use std::io::{self, Write};
use std::net::{Net, TcpListener, TcpStream};
use std::process::ExitCode;
use std::sync::{Arc, Wait};
use std::thread;
use std::thread::Threads;
use std::time::{Clock, Duration};
use tip_asking::{Asked, ask, send};
use tip_client::play_lines;
use tip_duties::ServeFault;
use tip_line::{Command, Id, Response, Word};
use tip_rows::MemRows;
use tip_serve::host_realms;
use tip_settings::read_config;

/// The ports lie below those that Linux gives to clients, so that no outgoing connection holds one.
const CONFIG: &[u8] = b"store = \":memory:\"
[[realm]]
name = \"north\"
listen = \"127.0.0.1:23472\"
address = \"127.0.0.1:23472\"
control = \"127.0.0.1:23474\"
votes = \"y\"
connections = 8
transactions = 8
boxes = 1
entries = 100
[[realm]]
name = \"south\"
listen = \"127.0.0.1:23473\"
address = \"127.0.0.1:23473\"
votes = \"y\"
connections = 8
transactions = 8
boxes = 1
entries = 100
";

const PLACES: [&str; 2] = ["127.0.0.1:23472", "127.0.0.1:23473"];

/// How many connections end before the server does: a client and three questions in each realm, and a client that commits in both.
const SESSIONS: u32 = 9;

/// What an operator says, an empty line among it.
const SAID: &[u8] = b"IDENTIFY 3 3 - -\n\nQUERY nobody-1-1-1\r\nPULL x y\n";

/// Another run of this program may have the ports: then it is tried again.
const TRIES: u32 = 300;

const REST_MILLIS: u64 = 200;

/// Serves until the sessions have ended.
fn serve<R>(rt: R, alloc: Global, told: Arc<Told>) -> Result<(), ServeFault>
where
    R: Net<Listener = TcpListener, Stream = TcpStream>
        + Threads
        + Wait
        + Clock
        + Eprint
        + Copy
        + Send
        + Drop
        + 'static,
{
    let served = serve_to(rt, alloc, &told);
    told.end(&rt);
    served
}

fn serve_to<R>(rt: R, alloc: Global, told: &Arc<Told>) -> Result<(), ServeFault>
where
    R: Net<Listener = TcpListener, Stream = TcpStream>
        + Threads
        + Wait
        + Clock
        + Eprint
        + Copy
        + Send
        + Drop
        + 'static,
{
    let config = read_config(alloc, CONFIG).map_err(|_| ServeFault::Config)?;
    let mut output = Teller {
        rt,
        told: Arc::try_clone(told)?,
    };
    let store = MemRows::new(alloc);
    host_realms(&rt, alloc, store, &config, Some(SESSIONS), &mut output)
}

/// A client: what it is answered to IDENTIFY, BEGIN and COMMIT.
fn answers(alloc: Global, socket: &TcpStream) -> Result<Vec<Response>, AllocError> {
    let commands = [
        Command::Identify {
            low: 3,
            high: 3,
            primary: None,
            secondary: Word::new(alloc, b"-").map_err(|_| AllocError)?,
        },
        Command::Begin,
        Command::Commit,
    ];
    play_lines(alloc, &mut &*socket, &mut &*socket, &commands).map_err(|_| AllocError)
}

/// Asks whether the realm at a place is there and has a transaction that nobody began, and says an input to it; prints the answers.
fn ask_manager<R, W>(rt: &R, alloc: Global, place: &str, output: &mut W) -> io::Result<()>
where
    R: Net<Listener = TcpListener, Stream = TcpStream>,
    W: Write,
{
    let id = Id::new(alloc, b"nobody-1-1-1").map_err(|_| AllocError)?;
    for asked in [Asked::Presence, Asked::Transaction { id: &id }] {
        let socket = TcpStream::connect(rt, place)?;
        match ask(alloc, &mut &socket, &mut &socket, output, asked) {
            Ok(verdict) => writeln!(output, "status {}", verdict.status())?,
            Err(fault) => writeln!(output, "{fault}")?,
        }
    }
    let socket = TcpStream::connect(rt, place)?;
    let mut said = SAID;
    match send(alloc, &mut said, &mut &socket, &mut &socket, output) {
        Ok(()) => writeln!(output, "said"),
        Err(fault) => writeln!(output, "{fault}"),
    }
}

/// Plays all clients and operators, and prints what they are answered.
fn play_clients<R, W>(rt: &R, alloc: Global, output: &mut W) -> io::Result<()>
where
    R: Net<Listener = TcpListener, Stream = TcpStream> + Clock,
    W: Write,
{
    for place in PLACES {
        let socket = TcpStream::connect(rt, place)?;
        for response in answers(alloc, &socket)? {
            writeln!(output, "{response}")?;
        }
        drop(socket);
        ask_manager(rt, alloc, place, output)?;
    }
    ask_operator(rt, alloc, output)?;
    commit_in_both(rt, alloc, PLACES[0], output)
}

fn main(rt: HostRuntime) -> io::Result<ExitCode> {
    let alloc = rt.alloc();
    let mut output = io::writer(&rt);
    for _ in 0..TRIES {
        let told = Arc::new(alloc, Told::new(alloc))?;
        let theirs = Arc::try_clone(&told)?;
        let server = thread::spawn(&rt, move || serve(rt, alloc, theirs))?;
        if told.wait_ready(&rt) {
            play_clients(&rt, alloc, &mut output)?;
        }
        match server.join(&rt) {
            Ok(()) => {
                told.print(&rt, &mut output)?;
                return Ok(ExitCode::SUCCESS);
            }
            Err(ServeFault::Listen { .. }) => {
                thread::sleep(&rt, Duration::from_millis(REST_MILLIS));
            }
            Err(fault) => {
                let status = fault.status();
                eprintln!(rt; "{fault}")?;
                return Ok(ExitCode::from(status));
            }
        }
    }
    Ok(ExitCode::FAILURE)
}
