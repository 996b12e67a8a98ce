//! The lines of a control connection, as its realm reads them.
ghost use Rattle.std.specs.Prelude.{IfSome};
ghost use Rattle.tip_control.specs.Lines.{IsComing, IsTaken};

use std::io::{BufRead, Read};

/// How many octets a line may have before its end.
const LONGEST_LINE: usize = 2_048;

/// How many are read of one: its end is LF, or CR LF.
const MOST_READ: u64 = 2_050;

/// What comes next on a control connection.
#[derive(Clone, Copy)]
pub enum Coming<'a> {
    /// A line, without its end.
    Line(&'a [u8]),
    /// More octets than a line may have.
    TooLong,
    /// The connection has ended, or nothing came in time.
    End,
}

/// Takes the octets of the next line, with its end, as far as they come in time and are not too many.
pub fn take_line<R: BufRead>(reader: &mut R, octets: &mut Vec<u8>)
    ensures { IfSome (R.remaining reader.old) (IsTaken octets.new.items) }
{
    octets.clear();
    match reader.take(MOST_READ).read_until(b'\n', octets) {
        Ok(_) => {}
        Err(_) => octets.clear(),
    }
}

/// The line that these octets are, if they have its end.
pub fn line_in(octets: &[u8]) -> Coming<'_>
    ensures { IsComing octets.now result }
{
    let line = match octets {
        [line @ .., b'\r', b'\n'] => line,
        [line @ .., b'\n'] => line,
        _ if octets.len() > LONGEST_LINE => return Coming::TooLong,
        _ => return Coming::End,
    };
    if line.len() > LONGEST_LINE {
        return Coming::TooLong;
    }
    Coming::Line(line)
}
