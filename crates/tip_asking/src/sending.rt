//! Commands as they come from an input.
ghost use Rattle.std.specs.Prelude.{OnOk, OnErr};
ghost use Rattle.tip_asking.specs.Sending.{Comes, HasSent, HasStopped};

use crate::fault::SendFault;
use crate::telling::{answer_to, tell};
use std::alloc::Global;
use std::io::{Read, Write};
use tip_intake::{Coming, InputEnd, Intake};
use tip_line::{Command, ParseFault};

/// How many reads may be made of each side.
const READS: u64 = 4_294_967_295;

/// Says each line of an input that is a command to a manager, and tells what it answers, in a line, before the next is said. Nothing
/// is said but these, so IDENTIFY is for the input to say; empty lines are left out.
pub fn send<I: Read, R: Read, W: Write, O: Write>(
    alloc: Global,
    input: &mut I,
    reader: &mut R,
    writer: &mut W,
    output: &mut O,
) -> Result<(), SendFault>
    ensures sent { OnOk result (HasSent (I.remaining input.old) (R.remaining reader.old)
        (W.contents writer.old) (W.contents writer.new)
        (O.contents output.old) (O.contents output.new)) }
    ensures stopped { OnErr result (HasStopped (I.remaining input.old)
        (I.remaining input.new) (W.contents writer.old) (W.contents writer.new)) }
{
    let mut commands = Intake::new(alloc, READS)?;
    let mut responses = Intake::new(alloc, READS)?;
    for _ in 0..u64::MAX {
        let Some(command) = next_command(alloc, &mut commands, input)? else {
            return Ok(());
        };
        let response = answer_to(alloc, &mut responses, reader, writer, command)?;
        tell(alloc, output, &response)?;
    }
    Err(SendFault::Input)
}

/// The next command of an input, if it has not ended.
fn next_command<I: Read>(
    alloc: Global,
    commands: &mut Intake,
    input: &mut I,
) -> Result<Option<Command>, SendFault>
    ensures { Comes commands.old.lines commands.new.lines
        (I.remaining input.old) (I.remaining input.new) result }
{
    match commands.next(input, |text| Command::parse(alloc, text)) {
        Coming::Line(Ok(command)) => Ok(Some(command)),
        Coming::Line(Err(ParseFault::Memory)) => Err(SendFault::Memory),
        Coming::Line(Err(_)) => Err(SendFault::NoCommand),
        Coming::Fault(_) => Err(SendFault::NoCommand),
        Coming::End(InputEnd::AtEnd) => Ok(None),
        Coming::End(InputEnd::ReadFault) => Err(SendFault::Input),
        Coming::End(InputEnd::NoReadsLeft) => Err(SendFault::Input),
    }
}
