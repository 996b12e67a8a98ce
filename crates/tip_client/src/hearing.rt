//! How responses are heard.
ghost use Rattle.tip_client.specs.Hearing.{Hears};

use crate::answer::answer_in;
use crate::fault::ClientFault;
use std::alloc::Global;
use std::io::Read;
use tip_intake::{Coming, InputEnd, Intake};
use tip_line::{CommandName, Response};

/// The response to a command that was said: the next line, once it has come (RFC 2371, section 13). Whoever says one command after
/// another by himself, since the next depends on the answer, keeps the same intake for all.
pub fn response_to<R: Read>(
    alloc: Global,
    intake: &mut Intake,
    reader: &mut R,
    command: CommandName,
) -> Result<Response, ClientFault>
    ensures { Hears command intake.old.lines intake.new.lines (R.remaining reader.old)
        (R.remaining reader.new) result }
{
    match intake.next(reader, |text| answer_in(alloc, text, command)) {
        Coming::Line(answer) => answer,
        Coming::Fault(_) => Err(ClientFault::Unexpected),
        Coming::End(InputEnd::AtEnd) => Err(ClientFault::Closed),
        Coming::End(InputEnd::ReadFault) => Err(ClientFault::Read),
        Coming::End(InputEnd::NoReadsLeft) => Err(ClientFault::Read),
    }
}
