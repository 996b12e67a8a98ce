//! What a realm answers.
ghost use Rattle.std.specs.Prelude.{◌≡◌, IfOk};
ghost use Rattle.tip_machine.specs.Answers.{command_of, identifier, response_name, response_of};

use crate::event::Seat;
use std::alloc::{AllocError, Global};
use std::marker::Model;
use tip_branch::{HeldFresh, HeldParty};
use tip_line::{Address, Command, Id, Realm, Refusal, Response, ResponseName, Word};
use tip_rows::Key;

/// A response that we send as the secondary (RFC 2371, section 13), as data that takes no memory: it is printed only where
/// it is written out. A transaction of ours stands in it as its key.
#[derive(Clone, Copy)]
pub enum Said {
    /// The version is 3, the only one that we speak.
    Identified,
    Begun(Key),
    NotBegun,
    Pushed(Key),
    AlreadyPushed(Key),
    NotPushed,
    Pulled,
    NotPulled,
    Prepared,
    ReadOnly,
    Committed,
    Aborted,
    QueriedExists,
    QueriedNotFound,
    Reconnected,
    NotReconnected,
    CantMultiplex,
    CantTls,
    Error,
}

impl Said {
    /// The name of the response that it is.
    pub fn name(&self) -> ResponseName
        ensures { result ≡ response_name self.now }
    {
        match self {
            Said::Identified => ResponseName::Identified,
            Said::Begun(_) => ResponseName::Begun,
            Said::NotBegun => ResponseName::NotBegun,
            Said::Pushed(_) => ResponseName::Pushed,
            Said::AlreadyPushed(_) => ResponseName::AlreadyPushed,
            Said::NotPushed => ResponseName::NotPushed,
            Said::Pulled => ResponseName::Pulled,
            Said::NotPulled => ResponseName::NotPulled,
            Said::Prepared => ResponseName::Prepared,
            Said::ReadOnly => ResponseName::ReadOnly,
            Said::Committed => ResponseName::Committed,
            Said::Aborted => ResponseName::Aborted,
            Said::QueriedExists => ResponseName::QueriedExists,
            Said::QueriedNotFound => ResponseName::QueriedNotFound,
            Said::Reconnected => ResponseName::Reconnected,
            Said::NotReconnected => ResponseName::NotReconnected,
            Said::CantMultiplex => ResponseName::CantMultiplex,
            Said::CantTls => ResponseName::CantTls,
            Said::Error => ResponseName::Error,
        }
    }

    /// The response that it is in this realm.
    pub fn response(&self, alloc: Global, realm: &Realm) -> Result<Response, AllocError>
        ensures { IfOk result (λ response. response ≡ response_of realm.now self.now) }
    {
        Ok(match self {
            Said::Identified => Response::Identified { version: 3 },
            Said::Begun(key) => Response::Begun {
                transaction: identifier(alloc, realm, *key)?,
            },
            Said::NotBegun => Response::NotBegun,
            Said::Pushed(key) => Response::Pushed {
                subordinate: identifier(alloc, realm, *key)?,
            },
            Said::AlreadyPushed(key) => Response::AlreadyPushed {
                subordinate: identifier(alloc, realm, *key)?,
            },
            Said::NotPushed => Response::NotPushed,
            Said::Pulled => Response::Pulled,
            Said::NotPulled => Response::NotPulled,
            Said::Prepared => Response::Prepared,
            Said::ReadOnly => Response::ReadOnly,
            Said::Committed => Response::Committed,
            Said::Aborted => Response::Aborted,
            Said::QueriedExists => Response::QueriedExists,
            Said::QueriedNotFound => Response::QueriedNotFound,
            Said::Reconnected => Response::Reconnected,
            Said::NotReconnected => Response::NotReconnected,
            Said::CantMultiplex => Response::CantMultiplex,
            Said::CantTls => Response::CantTls,
            Said::Error => Response::Error,
        })
    }
}

/// A command that we send as the primary. A transaction of ours stands in it as its key, another manager's word as it came.
/// PREPARE, COMMIT and ABORT have the key of the transaction that they are about, which is not sent.
#[derive(Drop)]
pub enum Asked {
    /// The version is 3.
    Identify { ours: Address, theirs: Address },
    Push(Key),
    Pull { superior: Id, subordinate: Key },
    Prepare(Key),
    Commit(Key),
    Abort(Key),
    Query(Id),
    Reconnect(Id),
}

impl Asked {
    /// The command that it is in this realm.
    pub fn command(&self, alloc: Global, realm: &Realm) -> Result<Command, AllocError>
        ensures { IfOk result (λ command. command ≡ command_of realm.now self.now) }
    {
        Ok(match self {
            Asked::Identify { ours, theirs } => Command::Identify {
                low: 3,
                high: 3,
                primary: Some(ours.copy()?),
                secondary: word_of(alloc, theirs)?,
            },
            Asked::Push(key) => Command::Push {
                superior: identifier(alloc, realm, *key)?,
            },
            Asked::Pull {
                superior,
                subordinate,
            } => Command::Pull {
                superior: superior.copy()?,
                subordinate: identifier(alloc, realm, *subordinate)?,
            },
            Asked::Prepare(_) => Command::Prepare,
            Asked::Commit(_) => Command::Commit,
            Asked::Abort(_) => Command::Abort,
            Asked::Query(superior) => Command::Query {
                superior: superior.copy()?,
            },
            Asked::Reconnect(subordinate) => Command::Reconnect {
                subordinate: subordinate.copy()?,
            },
        })
    }
}

/// The identifier of a realm's transaction.
fn identifier(alloc: Global, realm: &Realm, key: Key) -> Result<Id, AllocError>
    ensures { IfOk result (λ id. id ≡ identifier realm.now key) }
{
    Id::of(alloc, realm, key.epoch(), key.connection(), key.number())
}

/// An address as the word that it is.
fn word_of(alloc: Global, address: &Address) -> Result<Word, AllocError>
    ensures { IfOk result (λ word. word ≡ address.now) }
{
    Word::new(alloc, address.as_str().as_bytes()).map_err(|_| AllocError)
}

/// What goes out on a connection.
#[derive(Drop)]
pub enum Item {
    /// A response.
    Say(Said),
    /// A command.
    Ask(Asked),
    Close,
}

/// What goes out, and on which connection.
#[derive(Drop)]
pub struct Sent {
    /// The connection's number.
    pub connection: u32,
    pub item: Item,
}

/// What one event sends out, in order. It is seen as a list.
#[derive(Drop)]
pub struct SentLines {
    lines: Vec<Sent>,
}

impl Model for SentLines {
    ghost use Rattle.std.specs.Prelude.{List};
    ghost use Rattle.tip_machine.specs.declared.answer.Sent.{Sent};

    ghost Value = { List Sent };

    ghost view = { λ t. t.lines.items };
}

impl SentLines {
    /// These, in this order. It takes no memory.
    pub fn new(lines: Vec<Sent>) -> SentLines
        ensures { result ≡ lines.items }
    {
        SentLines { lines }
    }

    pub fn as_slice(&self) -> &[Sent]
        ensures { result.now ≡ self.now }
    {
        &self.lines
    }

    /// They themselves, in order. It takes no memory.
    pub fn into_vec(self) -> Vec<Sent>
        ensures { result.items ≡ self }
    {
        self.lines
    }
}

/// What a realm answers to one event. The calls that a party has come back with are the event's own, and the change of the
/// stored rows is known before the event: neither stands here.
#[derive(Drop)]
pub struct Answer<B = HeldFresh, P = HeldParty> {
    /// Why nothing was done, if so.
    pub refusal: Option<Refusal>,
    /// The seat of a connection that the event made.
    pub opened: Option<Seat>,
    pub sent: SentLines,
    /// A party that is to carry out its errand and to be handed back.
    pub work: Option<P>,
    /// A party that is to be let go: its active branches are rolled back.
    pub spent: Option<P>,
    /// Boxes that no transaction took.
    pub unused: Option<B>,
    /// The number of the event's entry in the realm's journal, from 1.
    pub entry: Option<u32>,
}
