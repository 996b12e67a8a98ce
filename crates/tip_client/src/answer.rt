//! Which response may answer a command.
ghost use Rattle.std.specs.Prelude.{◌≡◌};
ghost use Rattle.tip_client.specs.Answers.{is_in_table, may_answer};
ghost use Rattle.tip_client.specs.Hearing.{AnswersBy};

use crate::fault::ClientFault;
use std::alloc::Global;
use tip_conn::{State, after_named};
use tip_line::{CommandName, ParseFault, Response, ResponseName};

const STATES: [State; 6] = [
    State::Initial,
    State::Idle,
    State::Begun,
    State::Enlisted,
    State::Prepared,
    State::Error,
];

/// The response that a text is, where the command may have it.
pub fn answer_in(alloc: Global, text: &[u8], command: CommandName) -> Result<Response, ClientFault>
    ensures { AnswersBy command text.now result }
{
    match Response::parse(alloc, text) {
        Ok(response) if may_answer(command, response.name()) => Ok(response),
        Ok(_) => Err(ClientFault::Unexpected),
        Err(ParseFault::Memory) => Err(ClientFault::Memory),
        Err(_) => Err(ClientFault::Unexpected),
    }
}

/// Whether a command may be answered so, in some state of a connection.
pub(crate) fn may_answer(command: CommandName, response: ResponseName) -> bool
    ensures { result ≡ may_answer command response }
{
    is_in_table(command, response)
        || matches!(
            (command, response),
            (CommandName::Identify, ResponseName::NeedTls)
        )
}

/// Whether the connection table has the response for the command, in some state.
fn is_in_table(command: CommandName, response: ResponseName) -> bool
    ensures { result ≡ is_in_table command response }
{
    STATES
        .iter()
        .any(|state| after_named(*state, command, response).is_some())
}
