//! What no clause of a session says: how it ends where a read or a write fails in mid-stream, a line has no end, the input
//! none, memory is wanting or the desk was stopped; and that all lines are answered where none of these is so.
#![tactic(auto)]

mod desk;
mod streams;

use crate::desk::MemoryDesk;
use crate::streams::{Cut, LineFeeds, Narrow};
use std::alloc::Global;
use std::io::{self, BufWriter, Error, ErrorKind, Read, Write};
use tip_line::Realm;
use tip_session::{SessionEnd, serve, write_out};

const LINES: &[u8] = b"IDENTIFY 3 3 - -\r\nQUERY x\r\n";

const ANSWERS: &[u8] = b"IDENTIFIED 3\r\nQUERY x\r\n";

/// Says how a reader ended, and which steps its desk took.
fn say_served<W: Write>(
    output: &mut W,
    title: &str,
    desk: &MemoryDesk,
    end: SessionEnd,
) -> io::Result<()> {
    write!(output, "{title}: {end:?}")?;
    if desk.given.halted {
        write!(output, ", stopped")?;
    }
    for taken in &desk.taken {
        write!(output, ", {taken}")?;
    }
    writeln!(output)
}

/// A reader over a new desk with room for so many steps.
fn served<R: Read + Drop>(alloc: Global, mut reader: R, room: usize) -> (MemoryDesk, SessionEnd) {
    let mut desk = MemoryDesk::new(alloc, room);
    let end = serve(alloc, &mut desk, &mut reader, u64::MAX);
    (desk, end)
}

fn say_readers<W: Write>(alloc: Global, output: &mut W) -> io::Result<()> {
    let (desk, end) = served(alloc, LINES, usize::MAX);
    say_served(output, "whole", &desk, end)?;
    let (desk, end) = served(alloc, Cut { octets: LINES }, usize::MAX);
    say_served(output, "the second read fails", &desk, end)?;
    let (desk, end) = served(alloc, b"IDENTIFY 3 3 -".as_slice(), usize::MAX);
    say_served(output, "no end of a line", &desk, end)?;
    let (desk, end) = served(alloc, LINES, 3);
    say_served(output, "memory for three steps", &desk, end)
}

fn say_line_feeds<W: Write>(alloc: Global, output: &mut W) -> io::Result<()> {
    let mut reader = LineFeeds { reads: 0 };
    let mut desk = MemoryDesk::new(alloc, usize::MAX);
    let end = serve(alloc, &mut desk, &mut reader, 5);
    say_served(output, "line feeds for ever", &desk, end)?;
    writeln!(output, "{} reads", reader.reads)
}

/// What is written of the answers to these lines.
fn answered(
    alloc: Global,
    lines: &[u8],
    width: usize,
    calls: usize,
) -> io::Result<(SessionEnd, Vec<u8>)> {
    let (read, _) = served(alloc, lines, usize::MAX);
    let mut desk = MemoryDesk::new(alloc, 0);
    desk.outbox = read.outbox;
    let mut writer = Narrow {
        octets: Vec::new(alloc),
        width,
        calls_left: calls,
    };
    let Ok(realm) = Realm::new(alloc, b"north") else {
        return Err(Error::from(ErrorKind::OutOfMemory));
    };
    let end = write_out(alloc, &mut desk, &realm, &mut writer);
    Ok((end, writer.octets))
}

/// Each answer comes, in order, also by one octet at a time; and a front of them to a writer that fails.
fn say_writers<W: Write>(alloc: Global, output: &mut W) -> io::Result<()> {
    for width in [1, 1_024] {
        let (end, written) = answered(alloc, LINES, width, usize::MAX)?;
        writeln!(
            output,
            "by {width}: {end:?}, all {}",
            written.as_slice() == ANSWERS
        )?;
    }
    let (end, written) = answered(alloc, LINES, 0, usize::MAX)?;
    writeln!(output, "by 0: {end:?}, {} octets", written.len())?;
    let mut fronts = 0u32;
    for calls in 0..ANSWERS.len() {
        let (end, written) = answered(alloc, LINES, 1, calls)?;
        if end == SessionEnd::WriteFault && written.as_slice() == &ANSWERS[..calls] {
            fronts = fronts.saturating_add(1);
        }
    }
    writeln!(
        output,
        "a write fails: {fronts} fronts of {}",
        ANSWERS.len()
    )
}

/// Lines that come at once are answered in order.
fn say_pipelined<W: Write>(alloc: Global, output: &mut W) -> io::Result<()> {
    let mut lines = Vec::new(alloc);
    for number in 1..42 {
        write!(lines, "QUERY {number}\r\n")?;
    }
    let (end, written) = answered(alloc, lines.as_slice(), 1_024, usize::MAX)?;
    writeln!(
        output,
        "41 lines at once: {end:?}, all {}",
        written == lines
    )
}

/// A desk that was stopped ends both.
fn say_stopped<W: Write>(alloc: Global, output: &mut W) -> io::Result<()> {
    let mut desk = MemoryDesk::new(alloc, usize::MAX);
    desk.is_stopped = true;
    let end = serve(alloc, &mut desk, &mut LINES, u64::MAX);
    say_served(output, "stopped, read", &desk, end)?;
    let Ok(realm) = Realm::new(alloc, b"north") else {
        return Err(Error::from(ErrorKind::OutOfMemory));
    };
    let mut desk = MemoryDesk::new(alloc, usize::MAX);
    desk.is_stopped = true;
    let end = write_out(alloc, &mut desk, &realm, &mut Vec::new(alloc));
    say_served(output, "stopped, written", &desk, end)
}

fn main(rt: HostRuntime) -> io::Result<()> {
    let alloc = rt.alloc();
    let mut output = BufWriter::new(alloc, io::writer(&rt))?;
    say_readers(alloc, &mut output)?;
    say_line_feeds(alloc, &mut output)?;
    say_writers(alloc, &mut output)?;
    say_pipelined(alloc, &mut output)?;
    say_stopped(alloc, &mut output)?;
    output.flush()
}
