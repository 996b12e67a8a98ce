//! How a command is said and answered, and how the answer is told.
ghost use Rattle.std.specs.Prelude.{◌≡◌, [], ◌∷◌, true, IfOk, OnErr, OnOk};
ghost use Rattle.std.specs.Io.KnownBytes.{Appends};
ghost use Rattle.tip_client.specs.Dialogues.{line_of};
ghost use Rattle.tip_writing.specs.Fronts.{IsFrontOf};
ghost use Rattle.tip_asking.specs.Asking.{told};
ghost use Rattle.tip_asking.specs.Dialogues.{Continues};

use crate::fault::AskFault;
use std::alloc::Global;
use std::io::{Read, Write};
use tip_client::{response_to, say};
use tip_intake::Intake;
use tip_line::{Command, Response};
use tip_writing::write_front;

/// Says a command, and takes the response to it.
pub(crate) fn answer_to<R: Read, W: Write>(
    alloc: Global,
    intake: &mut Intake,
    reader: &mut R,
    writer: &mut W,
    command: Command,
) -> Result<Response, AskFault>
    ensures answered { IfOk result (λ response. Continues intake.old.lines intake.new.lines
        (R.remaining reader.old) (R.remaining reader.new) (W.contents writer.old)
        (W.contents writer.new) (command ∷ []) (response ∷ [])) }
    ensures stopped { OnErr result
        (IsFrontOf (line_of command) (W.contents writer.old) (W.contents writer.new)) }
    ensures said { OnOk result
        (Appends (W.contents writer.old) (W.contents writer.new) (line_of command)) }
{
    say(alloc, writer, &command)?;
    let response = response_to(alloc, intake, reader, command.name())?;
    Ok(response)
}

/// Tells a response, in a line.
pub(crate) fn tell<O: Write>(
    alloc: Global,
    output: &mut O,
    response: &Response,
) -> Result<(), AskFault>
    ensures ok { OnOk result
        (Appends (O.contents output.old) (O.contents output.new) (told response.now)) }
    ensures err { OnErr result
        (IsFrontOf (told response.now) (O.contents output.old) (O.contents output.new)) }
{
    let line = format!(in alloc; "{response}\n")?;
    write_front(output, line.as_bytes())?;
    Ok(())
}
