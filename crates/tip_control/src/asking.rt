//! A question to a control port.
ghost use Rattle.std.specs.Prelude.{◌≡◌, ◌++◌, ◌∷◌, [], IfOk, IfSome, OnOk};
ghost use Rattle.std.specs.Io.KnownBytes.{Appends};
ghost use Rattle.tip_control.specs.Asking.{Hears, IsAnswered, Tells, status_of, verdict_of};

use crate::fault::AskFault;
use std::alloc::Global;
use std::io::{BufRead, Write};
use tip_writing::write_front;

/// Whether what was asked was done.
#[derive(Clone, Copy, PartialEq, Eq)]
pub enum Verdict {
    Done,
    Refused,
}

impl Verdict {
    /// The exit status of the process.
    pub fn status(self) -> u8
        ensures { result ≡ status_of self }
    {
        match self {
            Verdict::Done => 0,
            Verdict::Refused => 3,
        }
    }
}

/// Says a request to a control port, and tells its answer, without the empty line behind it.
pub fn ask<R: BufRead, W: Write, O: Write>(
    alloc: Global,
    reader: &mut R,
    writer: &mut W,
    request: &str,
    output: &mut O,
) -> Result<Verdict, AskFault>
    ensures said { OnOk result (Appends (W.contents writer.old) (W.contents writer.new)
        (request.now ++ 10 ∷ [])) }
    ensures answered { IfOk result (λ verdict. IfSome (R.remaining reader.old) (λ octets.
        IsAnswered octets verdict (O.contents output.old) (O.contents output.new))) }
{
    let said = format!(in alloc; "{request}\n")?;
    write_front(writer, said.as_bytes())?;
    let mut line = Vec::new(alloc);
    tell(reader, &mut line, output)
}

/// Tells an answer.
#[tactic(auto, using(crate::proofs::Told::answered, crate::proofs::Told::nothing))]
fn tell<R: BufRead, O: Write>(
    reader: &mut R,
    line: &mut Vec<u8>,
    output: &mut O,
) -> Result<Verdict, AskFault>
    ensures { IfOk result (λ verdict. IfSome (R.remaining reader.old) (λ octets.
        IsAnswered octets verdict (O.contents output.old) (O.contents output.new))) }
{
    if !hear(reader, line)? {
        return Ok(Verdict::Done);
    }
    let verdict = verdict_of(line);
    write_front(output, line)?;
    match tell_rest(reader, line, output) {
        Ok(()) => Ok(verdict),
        Err(fault) => Err(fault),
    }
}

/// Whether a request was refused whose answer begins with this line.
fn verdict_of(line: &[u8]) -> Verdict
    ensures { result ≡ verdict_of (line.now ∷ []) }
{
    if line.starts_with(b"refused ") {
        Verdict::Refused
    } else {
        Verdict::Done
    }
}

/// Tells the lines of an answer that have not come yet.
#[tactic(auto, using(crate::proofs::Told::begins, crate::proofs::Told::one_more))]
fn tell_rest<R: BufRead, O: Write>(
    reader: &mut R,
    line: &mut Vec<u8>,
    output: &mut O,
) -> Result<(), AskFault>
    ensures { OnOk result (IfSome (R.remaining reader.old)
        (λ octets. Tells octets (O.contents output.old) (O.contents output.new))) }
{
    for _ in 0..u64::MAX {
        if !hear(reader, line)? {
            return Ok(());
        }
        write_front(output, line)?;
    }
    Err(AskFault::Read)
}

/// Takes the next line of an answer, with its end; false where it is the empty line behind it.
fn hear<R: BufRead>(reader: &mut R, line: &mut Vec<u8>) -> Result<bool, AskFault>
    ensures { IfOk result (λ more. IfSome (R.remaining reader.old)
        (Hears more line.new.items (R.remaining reader.new))) }
{
    line.clear();
    if reader.read_until(b'\n', line).is_err() {
        return Err(AskFault::Read);
    }
    if line.as_slice() == b"\n".as_slice() {
        return Ok(false);
    }
    match line.last() {
        Some(b'\n') => Ok(true),
        _ => Err(AskFault::Closed),
    }
}
