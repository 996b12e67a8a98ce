//! How a command is said.
ghost use Rattle.std.specs.Prelude.{◌≡◌, ◌⊎◌, IfErr, OnOk, OnErr};
ghost use Rattle.std.specs.Io.KnownBytes.{Appends};
ghost use Rattle.tip_writing.specs.Fronts.{IsFrontOf};
ghost use Rattle.tip_client.specs.Dialogues.{line_of};
ghost use Rattle.tip_client.specs.declared.fault.ClientFault.TheVariants as faults;

use crate::fault::ClientFault;
use std::alloc::Global;
use std::io::Write;
use tip_line::Command;
use tip_writing::write_front;

/// Writes a command's line, and sees that it is out.
#[tactic(auto, using(crate::proofs::Fronts::no_front, crate::proofs::Fronts::kept_front))]
pub fn say<W: Write>(alloc: Global, writer: &mut W, command: &Command) -> Result<(), ClientFault>
    ensures ok { OnOk result
        (Appends (W.contents writer.old) (W.contents writer.new) (line_of command.now)) }
    ensures err { OnErr result
        (IsFrontOf (line_of command.now) (W.contents writer.old) (W.contents writer.new)) }
    ensures fault { IfErr result (λ fault. (fault ≡ faults.Write) ⊎ (fault ≡ faults.Memory)) }
{
    let line = format!(in alloc; "{command}\r\n")?;
    write_front(writer, line.as_bytes())?;
    match writer.flush() {
        Ok(()) => Ok(()),
        Err(_) => Err(ClientFault::Write),
    }
}
