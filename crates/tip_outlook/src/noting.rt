//! What a response is to, and what it says of a part of a transaction (RFC 2371, section 13).
ghost use Rattle.std.specs.Prelude.{◌≡◌, IfOk};
ghost use Rattle.std.specs.Option.{option_copied};
ghost use Rattle.tip_outlook.specs.Noting.{awaits_of, ends, exists_of, note_of, noted, pulled_of, saying_of, version_of};

use std::alloc::AllocError;
use tip_line::{CommandName, Id, Response};
use tip_machine::{Awaited, Purpose};
use tip_rows::Key;
use tip_txn::{Ballot, Participant};

/// What a response says of a part.
#[derive(Drop)]
pub enum Note {
    /// That its transaction goes on.
    Nothing,
    Answered(Ballot),
    Acknowledged,
    /// The identifier that it is known by.
    Named(Id),
}

/// What a response says of a part, without the identifier that it may have.
#[derive(Clone, Copy)]
enum Saying {
    Nothing,
    Answered(Ballot),
    Acknowledged,
    Named,
}

impl Saying {
    /// What a response says of the part that was asked, where it is one to the command whose response is awaited.
    fn of(awaited: &Option<Awaited>, response: &Response) -> Option<Saying>
        ensures { result ≡ saying_of awaited.now response.now }
    {
        match (awaited, response) {
            (Some(Awaited::Push), Response::Pushed { .. }) => Some(Saying::Named),
            (Some(Awaited::Push), Response::AlreadyPushed { .. } | Response::NotPushed) => {
                Some(Saying::Answered(Ballot::ReadOnly))
            }
            (Some(Awaited::Prepare), Response::Prepared) => Some(Saying::Answered(Ballot::Yes)),
            (Some(Awaited::Prepare), Response::Aborted) => Some(Saying::Answered(Ballot::No)),
            (Some(Awaited::Prepare), Response::ReadOnly) => {
                Some(Saying::Answered(Ballot::ReadOnly))
            }
            (Some(Awaited::Commit), Response::Committed) => Some(Saying::Acknowledged),
            (Some(Awaited::Abort), Response::Aborted) => Some(Saying::Nothing),
            (Some(Awaited::Reconnect), Response::Reconnected) => Some(Saying::Nothing),
            (Some(Awaited::Reconnect), Response::NotReconnected) => Some(Saying::Acknowledged),
            _ => None,
        }
    }
}

impl Note {
    /// What a response says of the part that was asked, where it is one to the command whose response is awaited.
    pub fn of(awaited: &Option<Awaited>, response: Response) -> Option<Note>
        ensures { result ≡ note_of awaited.now response }
    {
        match (Saying::of(awaited, &response)?, response) {
            (Saying::Nothing, _) => Some(Note::Nothing),
            (Saying::Answered(answer), _) => Some(Note::Answered(answer)),
            (Saying::Acknowledged, _) => Some(Note::Acknowledged),
            (Saying::Named, Response::Pushed { subordinate }) => Some(Note::Named(subordinate)),
            (Saying::Named, _) => None,
        }
    }

    /// What a response that is kept says of the part that was asked, with a copy of the identifier that it may have.
    pub fn copied(
        awaited: &Option<Awaited>,
        response: &Response,
    ) -> Result<Option<Note>, AllocError>
        ensures { IfOk result (λ note. note ≡ note_of awaited.now response.now) }
    {
        let Some(saying) = Saying::of(awaited, response) else {
            return Ok(None);
        };
        Ok(match (saying, response) {
            (Saying::Nothing, _) => Some(Note::Nothing),
            (Saying::Answered(answer), _) => Some(Note::Answered(answer)),
            (Saying::Acknowledged, _) => Some(Note::Acknowledged),
            (Saying::Named, Response::Pushed { subordinate }) => {
                Some(Note::Named(subordinate.copy()?))
            }
            (Saying::Named, _) => None,
        })
    }

    /// The answer of a part, once this is noted of it.
    pub fn answer(&self, participant: &Participant) -> Option<Ballot>
        ensures { result ≡ (noted self.now participant.now).answer }
    {
        match self {
            Note::Answered(answer) => Some(*answer),
            Note::Nothing | Note::Acknowledged | Note::Named(_) => participant.answer,
        }
    }

    /// Whether it has acknowledged then.
    pub(crate) fn has_acknowledged(&self, participant: &Participant) -> bool
        ensures { result ≡ (noted self.now participant.now).acknowledged }
    {
        match self {
            Note::Acknowledged => true,
            Note::Nothing | Note::Answered(_) | Note::Named(_) => participant.acknowledged,
        }
    }

    /// The identifier that it is known by then.
    pub fn id<'a>(&'a self, participant: &'a Participant) -> Option<&'a Id>
        ensures { option_copied result ≡ (noted self.now participant.now).id }
    {
        match self {
            Note::Named(id) => Some(id),
            Note::Nothing | Note::Answered(_) | Note::Acknowledged => participant.id.as_ref(),
        }
    }
}

/// What is awaited on a connection, by the rule of its responses.
#[derive(Clone, Copy)]
pub enum Awaits {
    Nothing,
    /// The response to a command that a part was asked.
    OfPart(CommandName),
    /// On a connection that was opened for whatever will be asked.
    Identified,
    /// On one that was opened to ask a superior.
    ToAsk,
    /// On one that was opened to reach a subordinate again.
    ToReach,
    Pulled,
    /// For the transaction of a key.
    Queried(Key),
}

impl Awaits {
    pub fn of(awaited: &Option<Awaited>) -> Awaits
        ensures { result ≡ awaits_of awaited.now }
    {
        match awaited {
            None => Awaits::Nothing,
            Some(Awaited::Identify(Purpose::Plain)) => Awaits::Identified,
            Some(Awaited::Identify(Purpose::Query(_))) => Awaits::ToAsk,
            Some(Awaited::Identify(Purpose::Reconnect(_, _))) => Awaits::ToReach,
            Some(Awaited::Push) => Awaits::OfPart(CommandName::Push),
            Some(Awaited::Pull) => Awaits::Pulled,
            Some(Awaited::Prepare) => Awaits::OfPart(CommandName::Prepare),
            Some(Awaited::Commit) => Awaits::OfPart(CommandName::Commit),
            Some(Awaited::Abort) => Awaits::OfPart(CommandName::Abort),
            Some(Awaited::Query(key)) => Awaits::Queried(*key),
            Some(Awaited::Reconnect) => Awaits::OfPart(CommandName::Reconnect),
        }
    }
}

/// Whether a response is one to PULL, and says that the transaction was pulled.
pub fn pulled_of(response: &Response) -> Option<bool>
    ensures { result ≡ pulled_of response.now }
{
    match response {
        Response::Pulled => Some(true),
        Response::NotPulled => Some(false),
        _ => None,
    }
}

/// Whether a response is one to QUERY, and says that the transaction exists.
pub fn exists_of(response: &Response) -> Option<bool>
    ensures { result ≡ exists_of response.now }
{
    match response {
        Response::QueriedExists => Some(true),
        Response::QueriedNotFound => Some(false),
        _ => None,
    }
}

/// The version that IDENTIFIED says.
pub fn version_of(response: &Response) -> Option<u32>
    ensures { result ≡ version_of response.now }
{
    match response {
        Response::Identified { version } => Some(*version),
        _ => None,
    }
}

/// Whether a response ends the connection without a word.
pub fn ends(response: &Response) -> bool
    ensures { result ≡ ends response.now }
{
    matches!(response, Response::NeedTls | Response::Error)
}
