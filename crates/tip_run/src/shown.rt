//! What a host shows of one move.
ghost use Rattle.std.specs.Prelude.{◌≡◌};
ghost use Rattle.tip_branch.specs.Always.{Always};
ghost use Rattle.tip_run.specs.Moves.{said_of};

use tip_branch::PartyNote;
use tip_host::{Reply, Seat, Spoken};
use tip_line::Refusal;
use tip_machine::{Change, Outcome};

/// What a host has shown of one move. Lines wait in its outboxes, and entries stand in the pass.
#[derive(Drop)]
pub enum Shown {
    /// An event happened, or a party came back.
    Came(Said),
    /// This party was lost: its active branches were rolled back.
    Lost(PartyNote),
    /// Nobody waits, and nothing has happened.
    Nobody,
    /// The realm has started again, or all realms have.
    Started,
}

/// What a host has said of an event, but for the boxes that no transaction took and the party that it let go: both were dropped,
/// which has rolled the party's active branches back.
#[derive(Drop)]
pub struct Said {
    /// Why nothing was done, if so.
    pub refusal: Option<Refusal>,
    /// The seat of a connection that the event made.
    pub opened: Option<Seat>,
    /// The change of the realm's stored rows that it wanted.
    pub change: Option<Change>,
    /// What became of the change.
    pub outcome: Outcome,
    /// The connections for which lines or closings wait.
    pub spoken: Spoken,
    /// The number of the event's entry in the realm's journal, from 1.
    pub entry: Option<u32>,
}

impl Said {
    /// What a host has said of an event, whose boxes and party are dropped. It takes no memory.
    pub(crate) fn of(reply: Reply) -> Said
        requires { Always }
        ensures { result ≡ said_of reply }
    {
        let Reply {
            refusal,
            opened,
            change,
            outcome,
            spoken,
            entry,
            ..
        } = reply;
        Said {
            refusal,
            opened,
            change,
            outcome,
            spoken,
            entry,
        }
    }
}
