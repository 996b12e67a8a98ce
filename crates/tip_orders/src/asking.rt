//! Questions to a manager that runs.
use std::alloc::{AllocError, Global};
use std::io::{self, BufReader};
use std::net::{TcpStream, ToSocketAddrs};
use std::process::ExitCode;
use std::time::Duration;
use tip_asking::{Asked, Decision, ask};
use tip_control::AskFault;
use tip_line::{Id, WordFault};

/// How long a manager may take to be reached, at each of the places that its name has.
const REACH_SECONDS: u64 = 5;

/// How long a response may take: branches may be slow to settle.
const ANSWER_SECONDS: u64 = 60;

/// The exit status where the words of the command line are not what they should be.
const MISUSE: u8 = 2;

/// Asks a manager whether it is there.
pub fn ping(rt: &HostRuntime, address: &str) -> ExitCode {
    ask_manager(rt, address, Asked::Presence)
}

/// Asks a manager whether it has a transaction.
pub fn query(rt: &HostRuntime, address: &str, id: &str) -> ExitCode {
    match Id::new(rt.alloc(), id.as_bytes()) {
        Ok(id) => ask_manager(rt, address, Asked::Transaction { id: &id }),
        Err(fault) => refuse(rt, id, fault),
    }
}

/// Ends a transaction that a manager has prepared.
pub fn settle(rt: &HostRuntime, address: &str, id: &str, decision: &str) -> ExitCode {
    let Some(decision) = Decision::of(decision) else {
        let _written = eprintln!(rt; "tipd: {decision} is neither commit nor abort");
        return ExitCode::from(MISUSE);
    };
    match Id::new(rt.alloc(), id.as_bytes()) {
        Ok(id) => ask_manager(rt, address, Asked::End { id: &id, decision }),
        Err(fault) => refuse(rt, id, fault),
    }
}

/// Says the commands on standard input to a manager, and tells its answers on standard output.
pub fn send(rt: &HostRuntime, address: &str) -> ExitCode {
    let Some(socket) = reach(rt, address) else {
        return unreached(rt, address);
    };
    let alloc = rt.alloc();
    let mut output = io::writer(rt);
    match tip_asking::send(
        alloc,
        &mut rt.stdin(),
        &mut &socket,
        &mut &socket,
        &mut output,
    ) {
        Ok(()) => ExitCode::SUCCESS,
        Err(fault) => {
            let _written = eprintln!(rt; "tipd: {fault}");
            ExitCode::from(fault.status())
        }
    }
}

/// Asks the control port of a realm, and tells its answer on standard output.
pub fn ask_control(
    rt: &HostRuntime,
    control: &str,
    request: &str,
    rest: &[Option<&str>],
) -> ExitCode {
    let Some(socket) = reach(rt, control) else {
        return unreached(rt, control);
    };
    let alloc = rt.alloc();
    let asked = match BufReader::new(alloc, &socket) {
        Ok(mut reader) => match line_of(alloc, request, rest) {
            Ok(line) => tip_control::ask(
                alloc,
                &mut reader,
                &mut &socket,
                line.as_str(),
                &mut io::writer(rt),
            ),
            Err(fault) => Err(AskFault::from(fault)),
        },
        Err(_) => Err(AskFault::Memory),
    };
    match asked {
        Ok(verdict) => ExitCode::from(verdict.status()),
        Err(fault) => {
            let _written = eprintln!(rt; "tipd: {fault}");
            ExitCode::from(1)
        }
    }
}

/// A request as it is said, without its end.
fn line_of(alloc: Global, request: &str, rest: &[Option<&str>]) -> Result<String, AllocError> {
    let mut line = String::from_str(alloc, request)?;
    for word in rest {
        if let Some(word) = word {
            line.push_str(" ")?;
            line.push_str(word)?;
        }
    }
    Ok(line)
}

/// Says that nobody is there.
fn unreached(rt: &HostRuntime, address: &str) -> ExitCode {
    let _written = eprintln!(rt; "tipd: cannot connect to {address}");
    ExitCode::from(1)
}

/// Says why a word of the command line is no identifier.
fn refuse(rt: &HostRuntime, id: &str, fault: WordFault) -> ExitCode {
    match fault {
        WordFault::NotWord => {
            let _written = eprintln!(rt; "tipd: {id} is no transaction identifier");
            ExitCode::from(MISUSE)
        }
        WordFault::Memory => {
            let _written = eprintln!(rt; "tipd: out of memory");
            ExitCode::from(1)
        }
    }
}

/// Asks the manager at this address, `HOST:PORT`, and tells its answer on standard output.
fn ask_manager(rt: &HostRuntime, address: &str, asked: Asked<'_>) -> ExitCode {
    let Some(socket) = reach(rt, address) else {
        return unreached(rt, address);
    };
    let mut output = io::writer(rt);
    match ask(rt.alloc(), &mut &socket, &mut &socket, &mut output, asked) {
        Ok(verdict) => ExitCode::from(verdict.status()),
        Err(fault) => {
            let _written = eprintln!(rt; "tipd: {fault}");
            ExitCode::from(fault.status())
        }
    }
}

/// A socket to the manager at an address, if it is reached in time.
fn reach(rt: &HostRuntime, address: &str) -> Option<TcpStream> {
    for at in address.to_socket_addrs(rt).ok()? {
        if let Ok(socket) = TcpStream::connect_timeout(
            rt,
            &at,
            Duration::from_secs(REACH_SECONDS),
        ) {
            let patience = Some(Duration::from_secs(ANSWER_SECONDS));
            socket.set_read_timeout(patience).ok()?;
            socket.set_write_timeout(patience).ok()?;
            return Some(socket);
        }
    }
    None
}
