//! A connection of a realm.
ghost use Rattle.std.specs.Prelude.{◌≡◌, IfOk, Some};
ghost use Rattle.tip_machine.specs.Connections.{IsInRange, accepted, advanced, identified, key_of, link_of, may_take, turned};

use std::alloc::AllocError;
use tip_branch::HeldFresh;
use tip_conn::{Side, State, Turn, after_named};
use tip_line::{Address, CommandName, Id, ResponseName};
use tip_rows::Key;
use tip_table::Linked;
use tip_txn::Part;

/// What a connection is on a transaction.
#[derive(Clone, Copy, PartialEq, Eq)]
pub enum Role {
    /// Our superior asks on it.
    Superior(Key),
    /// We ask one of our subordinates on it.
    Subordinate { key: Key, part: Part },
}

impl Role {
    /// The transaction.
    pub fn key(self) -> Key
        ensures { key_of (Some self) ≡ Some result }
    {
        match self {
            Role::Superior(key) => key,
            Role::Subordinate { key, part: _ } => key,
        }
    }
}

/// What a connection that we open is for, once it is identified.
#[derive(PartialEq, Drop)]
pub enum Purpose {
    /// Whatever will be asked.
    Plain,
    /// To ask our superior whether its transaction still exists, for ours of this identifier.
    Query(Id),
    /// To reach again the subordinate of this number in the row of our transaction.
    Reconnect(Id, u32),
}

impl Purpose {
    /// An equal one, which shares the words and takes no memory.
    pub fn copy(&self) -> Result<Purpose, AllocError>
        ensures { IfOk result (λ purpose. purpose ≡ self.now) }
    {
        Ok(match self {
            Purpose::Plain => Purpose::Plain,
            Purpose::Query(id) => Purpose::Query(id.copy()?),
            Purpose::Reconnect(id, number) => Purpose::Reconnect(id.copy()?, *number),
        })
    }
}

/// The command whose response we await.
#[derive(Drop)]
pub enum Awaited {
    Identify(Purpose),
    Push,
    Pull,
    Prepare,
    Commit,
    Abort,
    /// For our transaction of this key.
    Query(Key),
    Reconnect,
}

/// A connection, as its realm knows it. `B` is how boxes are held.
#[derive(Drop)]
pub struct Connection<B = HeldFresh> {
    /// Counted from 1 since the realm's start.
    pub number: u32,
    /// Whether we opened it, and so are its primary at first (RFC 2371, section 4).
    pub dialled: bool,
    pub state: State,
    /// The side that we are on.
    pub side: Side,
    /// Where the other side is, if it said so.
    pub peer: Option<Address>,
    /// Boxes for the transactions to be made on it.
    pub boxes: B,
    /// The command that we owe a response.
    pub owed: Option<CommandName>,
    /// The command whose response we await.
    pub awaited: Option<Awaited>,
    /// The transaction that it is on, and as what.
    pub role: Option<Role>,
    /// How many transactions were made on it.
    pub made: u32,
}

/// It is found by the transaction that it is on.
impl<B> Linked for Connection<B> {
    ghost use Rattle.std.specs.Prelude.{option_map, ⊤};

    ghost link = { λ connection. option_map link_of (key_of connection.role) };

    ghost fits = { λ _. ⊤ };

    fn link(&self) -> Option<u128> {
        Some(link_of(self.role?.key()))
    }
}

/// The number by which a transaction is found, and what is on it: its key as one number.
pub fn link_of(key: Key) -> u128
    ensures link { result ≡ link_of key }
    ensures range { IsInRange key }
{
    const NUMBERS: u128 = 1 << 32;
    (key.epoch() as u128 * NUMBERS + key.connection() as u128) * NUMBERS + key.number() as u128
}

impl Connection<HeldFresh> {
    /// A connection that another manager has just opened.
    pub fn accepted(number: u32, boxes: HeldFresh) -> Connection<HeldFresh>
        ensures { result ≡ accepted boxes number }
    {
        Connection {
            number,
            dialled: false,
            state: State::Initial,
            side: Side::Secondary,
            peer: None,
            boxes,
            owed: None,
            awaited: None,
            role: None,
            made: 0,
        }
    }

    /// Whether a line that came may be taken now; else it is held until it may (RFC 2371, section 12).
    pub fn may_take(&self) -> bool
        ensures { result ≡ may_take self.now }
    {
        self.owed.is_none() && (self.side == Side::Secondary || self.awaited.is_some())
    }

    /// Goes on by the connection table, now that this command was answered so.
    pub fn go(&mut self, command: CommandName, response: ResponseName)
        ensures { self.new ≡ advanced command response self.old }
    {
        if let Some((state, turn)) = after_named(self.state, command, response) {
            self.side = self.turned(turn);
            self.state = state;
            self.owed = None;
            self.awaited = None;
            if state == State::Idle {
                self.role = None;
            }
        }
    }

    /// IDENTIFY was answered; its primary is there, if it said where.
    pub fn identify(&mut self, peer: Option<Address>)
        ensures { self.new ≡ identified peer self.old }
    {
        self.go(CommandName::Identify, ResponseName::Identified);
        self.peer = peer;
    }

    /// The boxes that no transaction took.
    pub fn into_boxes(self) -> HeldFresh
        ensures { result ≡ self.boxes }
    {
        self.boxes
    }

    /// The side that we are on after this turn.
    fn turned(&self, turn: Turn) -> Side
        ensures { result ≡ turned turn self.now }
    {
        match (turn, self.side) {
            (Turn::Keep, side) => side,
            (Turn::Reverse, Side::Primary) => Side::Secondary,
            (Turn::Reverse, Side::Secondary) => Side::Primary,
            (Turn::Original, _) if self.dialled => Side::Primary,
            (Turn::Original, _) => Side::Secondary,
        }
    }
}
