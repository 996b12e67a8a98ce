//! Reads lines of the protocol from standard input and says what each is; with `--count` only how many of each. Behind the word
//! `row` stands the text of a stored row.
#![tactic(auto)]

ghost use Rattle.std.specs.Prelude.{length};

use std::alloc::Global;
use std::env;
use std::io::{self, BufWriter, Read, Write};
use tip_line::{Command, Line, Lines, ParseFault, Refusal, Response};
use tip_rows::{Row, RowFault};

/// How many octets are read at once.
const PIECE_LEN: usize = 1024;

/// What stands before the text of a row.
const ROW: &[u8] = b"row";

/// How many lines were what.
#[derive(Clone, Copy, Default)]
struct Counts {
    commands: u64,
    responses: u64,
    rows: u64,
    refused: u64,
}

/// What a line is.
enum Verdict {
    Command(Command),
    Response(Response),
    Row(Row),
    Refused(Refusal),
}

/// What a text is: a row where it says so, else a command, or else a response.
fn verdict_of(alloc: Global, text: &[u8]) -> Verdict {
    if text.starts_with(ROW) {
        return row_of(alloc, text[ROW.len()..].trim_ascii_start());
    }
    match Command::parse(alloc, text) {
        Ok(command) => Verdict::Command(command),
        Err(ParseFault::Unknown) => match Response::parse(alloc, text) {
            Ok(response) => Verdict::Response(response),
            Err(fault) => Verdict::Refused(Refusal::from(fault)),
        },
        Err(fault) => Verdict::Refused(Refusal::from(fault)),
    }
}

/// The row that a text is.
fn row_of(alloc: Global, text: &[u8]) -> Verdict {
    match Row::parse(alloc, text) {
        Ok(row) => Verdict::Row(row),
        Err(RowFault::BadRow) => Verdict::Refused(Refusal::BadRow),
        Err(RowFault::Memory) => Verdict::Refused(Refusal::Memory),
    }
}

/// Counts a line, and says what it is where that is wanted.
fn report<W: Write>(
    counts: &mut Counts,
    output: &mut W,
    says: bool,
    verdict: Verdict,
) -> io::Result<()> {
    match verdict {
        Verdict::Command(command) => {
            counts.commands = counts.commands.saturating_add(1);
            if says {
                writeln!(output, "command {command}")?;
            }
        }
        Verdict::Response(response) => {
            counts.responses = counts.responses.saturating_add(1);
            if says {
                writeln!(output, "response {response}")?;
            }
        }
        Verdict::Row(row) => {
            counts.rows = counts.rows.saturating_add(1);
            if says {
                writeln!(output, "row {row}")?;
            }
        }
        Verdict::Refused(refusal) => {
            counts.refused = counts.refused.saturating_add(1);
            if says {
                writeln!(output, "refused {refusal}")?;
            }
        }
    }
    Ok(())
}

/// Takes all lines that have come whole, and says whether the stream may go on.
fn take_lines<W: Write>(
    alloc: Global,
    lines: &mut Lines,
    counts: &mut Counts,
    output: &mut W,
    says: bool,
) -> io::Result<bool> {
    while let Some(line) = lines.next() {
        match line {
            Line::Text(text) => report(counts, output, says, verdict_of(alloc, text))?,
            Line::Bad(cause) => {
                report(counts, output, says, Verdict::Refused(Refusal::from(cause)))?;
                return Ok(false);
            }
        }
    }
    Ok(true)
}

/// Reads to the end, or to the first fault.
fn read_all<R: Read, W: Write>(
    alloc: Global,
    input: &mut R,
    output: &mut W,
    says: bool,
) -> io::Result<Counts> {
    let mut lines = Lines::new(alloc)?;
    let mut counts = Counts::default();
    let mut piece = [0u8; PIECE_LEN];
    for _ in 0..u64::MAX {
        let len = input.read(&mut piece)?;
        if len == 0 {
            break;
        }
        lines.offer(&piece[..len]);
        if !take_lines(alloc, &mut lines, &mut counts, output, says)? {
            break;
        }
    }
    Ok(counts)
}

fn main(rt: HostRuntime) -> io::Result<()> {
    let says = env::args(&rt)?.count() < 2;
    let alloc = rt.alloc();
    let mut output = BufWriter::new(alloc, io::writer(&rt))?;
    let counts = read_all(alloc, &mut rt.stdin(), &mut output, says)?;
    let Counts {
        commands,
        responses,
        rows,
        refused,
    } = counts;
    writeln!(
        output,
        "{commands} commands, {responses} responses, {rows} rows, {refused} refused"
    )?;
    output.flush()
}
