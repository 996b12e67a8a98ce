//! The dialogue with a manager.
ghost use Rattle.std.specs.Prelude.{◌≡◌, [], ◌∷◌, IfOk, OnErr};
ghost use Rattle.tip_client.specs.Dialogues.{Completes, lines_of};
ghost use Rattle.tip_line.specs.declared.command.Command.TheVariants as command;
ghost use Rattle.tip_writing.specs.Fronts.{IsFrontOf};
ghost use Rattle.tip_asking.specs.Asking.{IsAnswered, IsEnded, IsJudged, commands_of, ending, identify, verdict_of};
ghost use Rattle.tip_asking.specs.Dialogues.{Continues};

use crate::asked::{Asked, Decision, Verdict};
use crate::fault::AskFault;
use crate::telling::{answer_to, tell};
use std::alloc::{AllocError, Global};
use std::io::{Read, Write};
use tip_intake::Intake;
use tip_line::{Command, Id, Response, Word};

/// How many reads a dialogue may make.
const READS: u64 = 4_294_967_295;

/// Asks a manager in a dialogue of its own, in version 3 and by a primary without an address, and tells what it answers, a line for
/// each response; that it is identified is told where nothing else was asked.
pub fn ask<R: Read, W: Write, O: Write>(
    alloc: Global,
    reader: &mut R,
    writer: &mut W,
    output: &mut O,
    asked: Asked<'_>,
) -> Result<Verdict, AskFault>
    ensures answered { IfOk result (λ verdict. IsAnswered (λ said heard. Completes said heard
        (R.remaining reader.old) (W.contents writer.old) (W.contents writer.new))
        asked.entry verdict (O.contents output.old) (O.contents output.new)) }
    ensures stopped { OnErr result (IsFrontOf (lines_of (commands_of asked.entry))
        (W.contents writer.old) (W.contents writer.new)) }
{
    let mut intake = Intake::new(alloc, READS)?;
    let identify = identify(alloc)?;
    let identified = answer_to(alloc, &mut intake, reader, writer, identify)?;
    match &identified {
        Response::Identified { .. } => {}
        other => return Err(AskFault::Answered(other.name())),
    }
    match asked {
        Asked::Presence => {
            tell(alloc, output, &identified)?;
            Ok(Verdict::Yes)
        }
        Asked::Transaction { id } => {
            let query = Command::Query {
                superior: id.copy()?,
            };
            judged(alloc, &mut intake, reader, writer, output, query)
        }
        Asked::End { id, decision } => {
            end(alloc, &mut intake, reader, writer, output, id, decision)
        }
    }
}

/// Version 3 alone, by a primary without an address.
fn identify(alloc: Global) -> Result<Command, AllocError>
    ensures { IfOk result (λ command. command ≡ identify) }
{
    Ok(Command::Identify {
        low: 3,
        high: 3,
        primary: None,
        secondary: Word::new(alloc, b"-").map_err(|_| AllocError)?,
    })
}

/// The command by which a superior decides.
fn ending(decision: Decision) -> Command
    ensures { result ≡ ending decision }
{
    match decision {
        Decision::Commit => Command::Commit,
        Decision::Abort => Command::Abort,
    }
}

/// What a response says of a transaction.
fn verdict_of(response: &Response) -> Option<Verdict>
    ensures { result ≡ verdict_of response.now }
{
    match response {
        Response::QueriedExists | Response::Reconnected => Some(Verdict::Yes),
        Response::Committed | Response::Aborted => Some(Verdict::Yes),
        Response::QueriedNotFound | Response::NotReconnected => Some(Verdict::No),
        _ => None,
    }
}

/// Says a command on a transaction, and tells the response to it.
fn judged<R: Read, W: Write, O: Write>(
    alloc: Global,
    intake: &mut Intake,
    reader: &mut R,
    writer: &mut W,
    output: &mut O,
    command: Command,
) -> Result<Verdict, AskFault>
    ensures answered { IfOk result (λ verdict. IsJudged (Continues intake.old.lines
        intake.new.lines (R.remaining reader.old) (R.remaining reader.new)
        (W.contents writer.old) (W.contents writer.new))
        command verdict (O.contents output.old) (O.contents output.new)) }
    ensures stopped { OnErr result (IsFrontOf (lines_of (command ∷ []))
        (W.contents writer.old) (W.contents writer.new)) }
{
    let response = answer_to(alloc, intake, reader, writer, command)?;
    let Some(verdict) = verdict_of(&response) else {
        return Err(AskFault::Answered(response.name()));
    };
    tell(alloc, output, &response)?;
    Ok(verdict)
}

/// Ends a transaction of the manager, as its superior.
fn end<R: Read, W: Write, O: Write>(
    alloc: Global,
    intake: &mut Intake,
    reader: &mut R,
    writer: &mut W,
    output: &mut O,
    id: &Id,
    decision: Decision,
) -> Result<Verdict, AskFault>
    ensures answered { IfOk result (λ verdict. IsEnded (Continues intake.old.lines
        intake.new.lines (R.remaining reader.old) (R.remaining reader.new)
        (W.contents writer.old) (W.contents writer.new))
        id.now decision verdict (O.contents output.old) (O.contents output.new)) }
    ensures stopped { OnErr result
        (IsFrontOf (lines_of (command.Reconnect id.now ∷ ending decision ∷ []))
        (W.contents writer.old) (W.contents writer.new)) }
{
    let reconnect = Command::Reconnect {
        subordinate: id.copy()?,
    };
    match judged(alloc, intake, reader, writer, output, reconnect)? {
        Verdict::Yes => judged(alloc, intake, reader, writer, output, ending(decision)),
        Verdict::No => Ok(Verdict::No),
    }
}
