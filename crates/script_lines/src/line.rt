//! One line of a script, as it is read.
ghost use Rattle.std.specs.Prelude.{◌≡◌, ◌≤◌, ◌<◌, ℕ, List, Option, [], length, slice_index, IfOk};
ghost use Rattle.memchr.specs.Find.{Nowhere, Passes, is_byte};
ghost use Rattle.script_lines.specs.Lines.{HasRead, IsFront, Reads, ReadsOn, longest_line};

use memchr::memchr;
use std::alloc::{AllocError, Global};
use std::io::BufRead;
use thiserror::Error;

/// The octets that a line may have, without its end.
const LONGEST_LINE: usize = 8_192;

/// Why no line was read.
#[derive(Clone, Copy, Debug, PartialEq, Eq, Error)]
pub enum LineFault {
    #[error("cannot read")]
    Read,
    #[error("out of memory")]
    Memory,
}

impl From<AllocError> for LineFault {
    ghost use Rattle.script_lines.specs.declared.line.LineFault.TheVariants.{Memory};

    ghost from_gives = { λ _ fault. fault ≡ Memory };

    fn from(_: AllocError) -> LineFault {
        LineFault::Memory
    }
}

/// How a line ends.
#[derive(Clone, Copy, PartialEq, Eq)]
pub enum LineEnd {
    LineFeed,
    /// The last line may lack its end, and may be empty.
    EndOfInput,
    /// One octet more has come than a line may have. That octet is lost.
    TooLong,
}

/// The octets of a line, without its end.
#[derive(Drop)]
pub struct ScriptLine {
    octets: Vec<u8>,
}

impl ScriptLine {
    /// An empty line, with the memory of the longest.
    pub fn new(alloc: Global) -> Result<ScriptLine, AllocError>
        ensures { IfOk result (λ line. line.octets.items ≡ []) }
    {
        Ok(ScriptLine {
            octets: Vec::with_capacity(alloc, LONGEST_LINE)?,
        })
    }

    /// Reads the next line in place of this one, as much of it at once as the input has in its buffer.
    pub fn read<R: BufRead>(&mut self, input: &mut R) -> Result<LineEnd, LineFault>
        ensures { Reads (R.remaining input.old) (R.remaining input.new) self.new.octets.items
            result }
    {
        self.octets.clear();
        for _ in 0..=LONGEST_LINE {
            if let Some(end) = self.read_on(input)? {
                return Ok(end);
            }
        }
        unreachable!()
    }

    /// Takes what the input has in its buffer, as far as it is of this line. None where the line goes on behind it.
    fn read_on<R: BufRead>(&mut self, input: &mut R) -> Result<Option<LineEnd>, LineFault>
        requires { length self.old.octets.items ≤ longest_line }
        ensures { (start : Option (List ℕ)) →
            HasRead start (R.remaining input.old) self.old.octets.items →
            ReadsOn start (R.remaining input.new) self.old.octets.items self.new.octets.items
            result }
    {
        let Ok(buffer) = input.fill_buf() else {
            return Err(LineFault::Read);
        };
        if buffer.is_empty() {
            return Ok(Some(LineEnd::EndOfInput));
        }
        let (count, end) = front_of(buffer, LONGEST_LINE - self.octets.len());
        self.octets.extend_from_slice(&buffer[..count])?;
        let taken = if end.is_some() { count + 1 } else { count };
        input.consume(taken);
        Ok(end)
    }

    /// The octets of the line.
    pub fn as_slice(&self) -> &[u8]
        ensures { result.now ≡ self.now.octets.items }
    {
        &self.octets
    }
}

/// How many octets at the front of a buffer are of a line that may have so many more, and how it ends behind them; None where it
/// goes on behind the buffer.
fn front_of(buffer: &[u8], room: usize) -> (usize, Option<LineEnd>)
    ensures { IsFront buffer.now room result.0 result.1 }
{
    let line = feed_in(buffer);
    if room < line {
        (room, Some(LineEnd::TooLong))
    } else if line < buffer.len() {
        (line, Some(LineEnd::LineFeed))
    } else {
        (line, None)
    }
}

/// Where the first line feed is; at the end of the buffer where there is none.
fn feed_in(buffer: &[u8]) -> usize
    ensures within { result ≤ length buffer.now }
    ensures inner { Nowhere (Passes (is_byte 10) buffer.now) 0 result }
    ensures feed { result < length buffer.now → slice_index buffer.now result ≡ 10 }
{
    match memchr(b'\n', buffer) {
        Some(place) => place,
        None => buffer.len(),
    }
}
