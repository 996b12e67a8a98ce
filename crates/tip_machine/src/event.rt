//! What happens to a realm.
ghost use Rattle.std.specs.Prelude.{◌≡◌, IfOk};
ghost use Rattle.tip_machine.specs.Events.{IsHeard, heard_of};

use crate::connection::Purpose;
use std::alloc::{AllocError, Global};
use tip_branch::{HeldFresh, HeldParty};
use tip_line::{Address, Command, Id, ParseFault, Response};
use tip_rows::{Key, Row};

/// Names one connection of a realm: no later connection has the same seat.
#[derive(Clone, Copy, PartialEq, Eq)]
pub struct Seat {
    /// The start of the realm that the connection belongs to.
    pub epoch: u32,
    /// The connection's number in that epoch.
    pub number: u32,
}

/// What a line says, read once as it comes. Whether we wait for a command or for a response, only the connection knows.
#[derive(PartialEq, Drop)]
pub enum Heard {
    /// A command; a line ERROR, too, which is also a response.
    Command(Command),
    /// A response that is no command.
    Response(Response),
    /// Neither.
    Malformed,
}

impl Heard {
    /// What this line says.
    pub fn of(alloc: Global, text: &[u8]) -> Result<Heard, AllocError>
        ensures heard { IfOk result (IsHeard text.now) }
        ensures steps { IfOk result (λ heard. heard ≡ heard_of text.now) }
    {
        match Command::parse(alloc, text) {
            Ok(command) => Ok(Heard::Command(command)),
            Err(ParseFault::Memory) => Err(AllocError),
            Err(_) => match Response::parse(alloc, text) {
                Ok(response) => Ok(Heard::Response(response)),
                Err(ParseFault::Memory) => Err(AllocError),
                Err(_) => Ok(Heard::Malformed),
            },
        }
    }

    /// An equal one, which shares the words and takes no memory.
    pub fn copy(&self) -> Result<Heard, AllocError>
        ensures { IfOk result (λ heard. heard ≡ self.now) }
    {
        Ok(match self {
            Heard::Command(command) => Heard::Command(command.copy()?),
            Heard::Response(response) => Heard::Response(response.copy()?),
            Heard::Malformed => Heard::Malformed,
        })
    }
}

/// What happens to a realm. `B` is how boxes are held, and `P` how parties are.
#[derive(Drop)]
pub enum Event<B = HeldFresh, P = HeldParty> {
    /// Another manager has opened a connection; these boxes are for its transactions.
    Open {
        boxes: B,
    },
    /// We have opened a connection to another manager.
    Dial {
        address: Address,
        purpose: Purpose,
        boxes: B,
    },
    /// A line came on a connection.
    Line {
        seat: Seat,
        heard: Heard,
    },
    /// A party has voted and comes back.
    Voted(P),
    /// A party was told the outcome and comes back.
    Settled(P),
    /// A connection broke, or its input ended.
    Lost {
        seat: Seat,
    },
    /// Our transaction of this identifier is to be pushed to the other side.
    AskPush {
        seat: Seat,
        id: Id,
    },
    /// The other side's transaction of this identifier is to be pulled here.
    AskPull {
        seat: Seat,
        superior: Id,
    },
    /// What is left of a committed transaction is to be tried again.
    Resume {
        id: Id,
    },
}

/// The transactions that an event concerns: of the connections that are on a transaction, it tells those on these alone.
#[derive(Clone, Copy)]
pub struct Concerned {
    /// The own one of the connection that the event comes on.
    pub own: Option<Key>,
    /// One that the event names.
    pub named: Option<Key>,
}

/// A change of the realm's stored rows.
#[derive(Drop)]
pub enum Change {
    /// The row of a key is stored, in place of an earlier one.
    Put { key: Key, row: Row },
    /// The row of a key is taken out.
    Remove { key: Key },
}

/// What became of the change that an event wanted.
#[derive(Clone, Copy, PartialEq, Eq)]
pub enum Outcome {
    /// It wanted none.
    NoChange,
    Stored,
    /// The rows are as before.
    Refused,
}
