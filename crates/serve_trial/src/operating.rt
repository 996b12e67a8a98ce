//! North's operator, at its control port.
use std::alloc::{AllocError, Global};
use std::io::{self, BufRead, BufReader, Write};
use std::net::{Net, TcpListener, TcpStream};
use std::thread;
use std::time::{Clock, Duration};
use tip_control::ask;

/// Where north's operator is heard.
const CONTROL: &str = "127.0.0.1:23474";

/// Of the fifth connection of north, on which nothing was begun before.
const PUSH: &str = "push 127.0.0.1:23473 north-1-5-1";

/// How often it is looked whether a transaction is over.
const LOOKS: u32 = 100;

const REST_MILLIS: u64 = 50;

/// Asks at the control port, and prints the answer.
fn ask_control<R, W>(rt: &R, alloc: Global, request: &str, output: &mut W) -> io::Result<()>
where
    R: Net<Listener = TcpListener, Stream = TcpStream>,
    W: Write,
{
    let socket = TcpStream::connect(rt, CONTROL)?;
    let mut reader = BufReader::new(alloc, &socket)?;
    match ask(alloc, &mut reader, &mut &socket, request, output) {
        Ok(verdict) => writeln!(output, "status {}", verdict.status()),
        Err(fault) => writeln!(output, "{fault}"),
    }
}

/// Says a line on a connection, and prints the line that is answered.
fn say<W: Write>(
    alloc: Global,
    reader: &mut BufReader<&TcpStream>,
    mut socket: &TcpStream,
    line: &str,
    output: &mut W,
) -> io::Result<()> {
    socket.write_all(line.as_bytes())?;
    let mut answer = Vec::new(alloc);
    reader.read_until(b'\n', &mut answer)?;
    output.write_all(&answer)
}

/// A client of north begins a transaction, which north's operator has pushed to south, and commits it in both realms.
pub fn commit_in_both<R, W>(rt: &R, alloc: Global, place: &str, output: &mut W) -> io::Result<()>
where
    R: Net<Listener = TcpListener, Stream = TcpStream> + Clock,
    W: Write,
{
    let socket = TcpStream::connect(rt, place)?;
    let mut reader = BufReader::new(alloc, &socket)?;
    say(alloc, &mut reader, &socket, "IDENTIFY 3 3 - -\r\n", output)?;
    say(alloc, &mut reader, &socket, "BEGIN\r\n", output)?;
    ask_control(rt, alloc, PUSH, output)?;
    say(alloc, &mut reader, &socket, "COMMIT\r\n", output)?;
    wait_settled(rt, alloc)
}

/// Waits until north owes no subordinate an outcome.
fn wait_settled<R>(rt: &R, alloc: Global) -> io::Result<()>
where
    R: Net<Listener = TcpListener, Stream = TcpStream> + Clock,
{
    for _ in 0..LOOKS {
        if owed(rt, alloc)?.is_empty() {
            return Ok(());
        }
        thread::sleep(rt, Duration::from_millis(REST_MILLIS));
    }
    Ok(())
}

/// What north's operator is told of rows.
fn owed<R>(rt: &R, alloc: Global) -> io::Result<Vec<u8>>
where
    R: Net<Listener = TcpListener, Stream = TcpStream>,
{
    let socket = TcpStream::connect(rt, CONTROL)?;
    let mut reader = BufReader::new(alloc, &socket)?;
    let mut told = Vec::new(alloc);
    match ask(alloc, &mut reader, &mut &socket, "doubts", &mut told) {
        Ok(_) => Ok(told),
        Err(_) => Err(AllocError.into()),
    }
}

/// What is no request is refused, and nobody is to be called.
pub fn ask_operator<R, W>(rt: &R, alloc: Global, output: &mut W) -> io::Result<()>
where
    R: Net<Listener = TcpListener, Stream = TcpStream>,
    W: Write,
{
    for request in ["status now", "push x", "retry"] {
        ask_control(rt, alloc, request, output)?;
    }
    Ok(())
}
