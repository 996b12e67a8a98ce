//! What the server says to its operator on standard error.
use std::fmt;
use tip_line::{Address, Id, Realm};

/// A connection, by its number in an epoch of its realm.
#[derive(Clone, Copy)]
pub struct Connection<'a> {
    pub realm: &'a Realm,
    pub epoch: u32,
    pub number: u32,
}

/// A line of standard error, without its end: what an operator must know. Each is `event=NAME` and then `KEY=VALUE`, with a space
/// before each key; a value has no space. The identifiers of a connection's transactions begin with its name.
#[derive(Clone, Copy)]
pub enum Note<'a> {
    /// A file was made into a store.
    Made {
        store: &'a str,
    },
    /// Another manager has opened a connection.
    Opened {
        connection: Connection<'a>,
        peer: &'a str,
    },
    /// We have opened a connection.
    Dialled {
        connection: Connection<'a>,
        address: &'a Address,
    },
    /// The other side has said where it is, or that it does not say so.
    Identified {
        connection: Connection<'a>,
        address: Option<&'a Address>,
    },
    /// A connection was not taken, and is closed.
    Refused {
        realm: &'a Realm,
        peer: &'a str,
        why: &'a str,
    },
    /// A connection has ended.
    Ended {
        connection: Connection<'a>,
        why: &'a str,
    },
    /// A manager that was to be called was not reached.
    Unreached {
        realm: &'a Realm,
        address: &'a Address,
    },
    /// There is no thread to call managers for the rows of a realm.
    Uncalled {
        realm: &'a Realm,
    },
    /// A transaction is in doubt: its superior, which is there, decides.
    InDoubt {
        transaction: &'a Id,
        superior: &'a Address,
    },
    /// A transaction that was in doubt has its outcome.
    Decided {
        transaction: &'a Id,
        outcome: &'a str,
    },
    /// The store has refused the change of a transaction's row.
    StoreRefused {
        transaction: &'a Id,
    },
    /// A realm's journal is full.
    Frozen {
        realm: &'a Realm,
        epoch: u32,
    },
    /// A realm has started again in this epoch.
    Renewed {
        realm: &'a Realm,
        epoch: u32,
    },
    /// A realm whose journal is full did not start again.
    NotRenewed {
        realm: &'a Realm,
        why: &'a str,
    },
}

impl fmt::Display for Connection<'_> {
    ghost use Rattle.std.specs.Prelude.{Some};
    ghost use Rattle.tip_duties.specs.Notes.{named};

    ghost output = { λ connection. Some (named connection) };

    fn fmt<W: fmt::Write>(&self, f: &mut fmt::Formatter<W>) -> fmt::Result {
        write!(f, "{}-{}-{}", self.realm, self.epoch, self.number)
    }
}

impl fmt::Display for Note<'_> {
    ghost use Rattle.std.specs.Prelude.{Some};
    ghost use Rattle.tip_duties.specs.Notes.{noted};

    ghost output = { λ note. Some (noted note) };

    fn fmt<W: fmt::Write>(&self, f: &mut fmt::Formatter<W>) -> fmt::Result {
        match self {
            Note::Made { store } => write!(f, "event=made store={store}"),
            Note::Opened { connection, peer } => {
                write!(f, "event=opened connection={connection} peer={peer}")
            }
            Note::Dialled {
                connection,
                address,
            } => write!(f, "event=dialled connection={connection} address={address}"),
            Note::Identified {
                connection,
                address: Some(address),
            } => write!(
                f,
                "event=identified connection={connection} address={address}"
            ),
            Note::Identified {
                connection,
                address: None,
            } => write!(f, "event=identified connection={connection} address=-"),
            Note::Refused { realm, peer, why } => {
                write!(f, "event=refused realm={realm} peer={peer} why={why}")
            }
            Note::Ended { connection, why } => {
                write!(f, "event=ended connection={connection} why={why}")
            }
            Note::Unreached { realm, address } => {
                write!(f, "event=unreached realm={realm} address={address}")
            }
            Note::InDoubt {
                transaction,
                superior,
            } => write!(
                f,
                "event=in-doubt transaction={transaction} superior={superior}"
            ),
            Note::Decided {
                transaction,
                outcome,
            } => write!(
                f,
                "event=decided transaction={transaction} outcome={outcome}"
            ),
            Note::StoreRefused { transaction } => {
                write!(f, "event=store-refused transaction={transaction}")
            }
            Note::Frozen { realm, epoch } => write!(f, "event=frozen realm={realm} epoch={epoch}"),
            Note::Renewed { realm, epoch } => {
                write!(f, "event=renewed realm={realm} epoch={epoch}")
            }
            Note::NotRenewed { realm, why } => {
                write!(f, "event=not-renewed realm={realm} why={why}")
            }
            Note::Uncalled { realm } => write!(f, "event=uncalled realm={realm}"),
        }
    }
}
