//! A dialogue, from the primary's side.
ghost use Rattle.std.specs.Prelude.{◌≡◌, true, IfOk, IfErr};
ghost use Rattle.std.specs.List.{list_all};
ghost use Rattle.tip_client.specs.Answers.{has_response};
ghost use Rattle.tip_client.specs.Dialogues.{Completes, Stops};

use crate::fault::ClientFault;
use crate::hearing::response_to;
use crate::saying::say;
use std::alloc::Global;
use std::io::{Read, Write};
use tip_intake::Intake;
use tip_line::{Command, Response};

/// How many reads one dialogue may make.
const READS: u64 = 4_294_967_295;

/// Says each command, CR LF behind it, and takes the response to it before the next is said (RFC 2371, sections 4, 11 and
/// 13). A response may be ERROR; whether the dialogue goes on behind it is the other side's to say. At most 4,294,967,295
/// reads are made, and what was read ahead of the last response is lost.
pub fn play_lines<R: Read, W: Write>(
    alloc: Global,
    reader: &mut R,
    writer: &mut W,
    commands: &[Command],
) -> Result<Vec<Response>, ClientFault>
    requires { list_all has_response commands.now ≡ true }
    ensures ok { IfOk result (λ heard. Completes commands.now heard.items (R.remaining reader.old)
        (W.contents writer.old) (W.contents writer.new)) }
    ensures err { IfErr result (λ fault. Stops fault commands.now (R.remaining reader.old)
        (R.remaining reader.new) (W.contents writer.old) (W.contents writer.new)) }
{
    let mut intake = Intake::new(alloc, READS)?;
    let mut responses = Vec::with_capacity(alloc, commands.len())?;
    for command in commands {
        say(alloc, writer, command)?;
        let response = response_to(alloc, &mut intake, reader, command.name())?;
        responses.push(response)?;
    }
    Ok(responses)
}
