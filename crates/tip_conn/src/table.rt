//! Which command is valid where, and what its response does.
ghost use Rattle.std.specs.Prelude.{◌≡◌};
ghost use Rattle.tip_line.specs.Command as commands;
ghost use Rattle.tip_line.specs.Response as responses;
ghost use Rattle.tip_conn.specs.Table.{admit_of, is_valid, next_of};

use crate::state::{Admit, Side, State, Turn};
use tip_line::{Command, CommandName, Response, ResponseName};

/// Whether a command that was received is to be served.
pub fn admit(state: State, side: Side, command: &Command) -> Admit
    ensures { result ≡ admit_of state side (commands.name_of command.now) }
{
    admit_named(state, side, command.name())
}

/// Whether a command of this name that was received is to be served.
pub(crate) fn admit_named(state: State, side: Side, command: CommandName) -> Admit
    ensures { result ≡ admit_of state side command }
{
    match side {
        Side::Secondary if is_valid(command, state) => Admit::Serve,
        _ => Admit::Wrong,
    }
}

/// What a response makes of a connection; None where the command has no such response there.
pub fn after(state: State, command: &Command, response: &Response) -> Option<(State, Turn)>
    ensures { result
        ≡ next_of (commands.name_of command.now) state (responses.name_of response.now) }
{
    after_named(state, command.name(), response.name())
}

/// What a response of this name to a command of that name makes of a connection; None where the command has no such response
/// there.
#[tactic(auto, unfolding(crate::specs::Table::is_valid, crate::specs::Table::next_of))]
pub fn after_named(
    state: State,
    command: CommandName,
    response: ResponseName,
) -> Option<(State, Turn)>
    ensures { result ≡ next_of command state response }
{
    if !is_valid(command, state) {
        return None;
    }
    match (command, response) {
        (CommandName::Error, _) => None,
        (_, ResponseName::Error) => Some((State::Error, Turn::Keep)),
        (CommandName::Begin, ResponseName::Begun) => Some((State::Begun, Turn::Keep)),
        (CommandName::Push, ResponseName::Pushed) => Some((State::Enlisted, Turn::Keep)),
        (CommandName::Pull, ResponseName::Pulled) => Some((State::Enlisted, Turn::Reverse)),
        (CommandName::Prepare, ResponseName::Prepared)
        | (CommandName::Reconnect, ResponseName::Reconnected) => Some((
            State::Prepared,
            Turn::Keep,
        )),
        (CommandName::Tls, ResponseName::CantTls) => Some((State::Initial, Turn::Keep)),
        (CommandName::Commit, ResponseName::Aborted) if state == State::Prepared => None,
        (CommandName::Identify, ResponseName::Identified)
        | (CommandName::Begin, ResponseName::NotBegun)
        | (CommandName::Push, ResponseName::AlreadyPushed | ResponseName::NotPushed)
        | (CommandName::Pull, ResponseName::NotPulled)
        | (CommandName::Prepare, ResponseName::Aborted | ResponseName::ReadOnly)
        | (CommandName::Commit, ResponseName::Committed | ResponseName::Aborted)
        | (CommandName::Abort, ResponseName::Aborted)
        | (CommandName::Query, ResponseName::QueriedExists | ResponseName::QueriedNotFound)
        | (CommandName::Reconnect, ResponseName::NotReconnected)
        | (CommandName::Multiplex, ResponseName::CantMultiplex) => {
            Some((State::Idle, Turn::Original))
        }
        _ => None,
    }
}

/// Whether a command is valid in a state.
#[tactic(auto, unfolding(crate::specs::Table::is_valid))]
fn is_valid(command: CommandName, state: State) -> bool
    ensures { result ≡ is_valid command state }
{
    matches!(
        (command, state),
        (CommandName::Identify | CommandName::Tls, State::Initial)
            | (
                CommandName::Begin
                    | CommandName::Push
                    | CommandName::Pull
                    | CommandName::Query
                    | CommandName::Reconnect
                    | CommandName::Multiplex,
                State::Idle
            )
            | (CommandName::Prepare, State::Enlisted)
            | (
                CommandName::Commit | CommandName::Abort,
                State::Begun | State::Enlisted | State::Prepared
            )
            | (CommandName::Error, _)
    )
}
