//! A text is written piece by piece, so that a front of it was written in any case.
ghost use Rattle.std.specs.Prelude.{◌≤◌, [], length, take, IfOk, OnOk, OnErr};
ghost use Rattle.std.specs.Io.KnownBytes.{Appends};
ghost use Rattle.tip_writing.specs.Fronts.{IsFrontOf};

use std::io::{ErrorKind, Write};
use thiserror::Error;

/// The writer failed, or takes nothing.
#[derive(Clone, Copy, Debug, Error)]
#[error("cannot write")]
pub struct WriteFault;

/// Writes a text; where that fails, a front of it was written.
pub fn write_front<W: Write>(output: &mut W, text: &[u8]) -> Result<(), WriteFault>
    ensures ok { OnOk result (Appends (W.contents output.old) (W.contents output.new) text.now) }
    ensures err { OnErr result
        (IsFrontOf text.now (W.contents output.old) (W.contents output.new)) }
{
    let mut rest = text;
    for _ in 0..u64::MAX {
        if rest.is_empty() {
            return Ok(());
        }
        let len = write_some(output, rest)?;
        rest = &rest[len..];
    }
    Err(WriteFault)
}

/// Writes some octets of a text, and says how many: none where the write was interrupted.
#[tactic(auto, using(crate::proofs::Appending::appends_nothing))]
fn write_some<W: Write>(output: &mut W, text: &[u8]) -> Result<usize, WriteFault>
    ensures bound { IfOk result (λ len. len ≤ length text.now) }
    ensures ok { IfOk result
        (λ len. Appends (W.contents output.old) (W.contents output.new) (take len text.now)) }
    ensures err { OnErr result (Appends (W.contents output.old) (W.contents output.new) []) }
{
    match output.write(text) {
        Ok(0) => Err(WriteFault),
        Ok(len) => Ok(len),
        Err(error) if error.kind() == ErrorKind::Interrupted => Ok(0),
        Err(_) => Err(WriteFault),
    }
}
