//! What comes back of an event to whoever made it.
ghost use Rattle.std.specs.Prelude.{◌≡◌, option_map};
ghost use Rattle.tip_branch.specs.Always.{Always};
ghost use Rattle.tip_host.specs.Hosts.{IsOf};
ghost use Rattle.tip_host.specs.Seats.{seat_at};

use crate::seat::Seat;
use crate::spoken::Spoken;
use tip_branch::{HeldFresh, HeldParty};
use tip_core::Happened;
use tip_line::Refusal;
use tip_machine::{Answer, Change, Outcome, Seat as RealmSeat, SentLines};

/// What an event came to, but for the lines, which wait in the outboxes, and the party that goes out, which waits to be taken.
#[derive(Drop)]
pub struct Reply<B = HeldFresh, P = HeldParty> {
    /// Why nothing was done, if so.
    pub refusal: Option<Refusal>,
    /// The seat of a connection that the event made.
    pub opened: Option<Seat>,
    /// The change of the realm's stored rows that it wanted.
    pub change: Option<Change>,
    /// What became of the change.
    pub outcome: Outcome,
    /// The connections for which lines or closings wait now.
    pub spoken: Spoken,
    /// A party that is to be let go where nothing waits for the host: its active branches are rolled back.
    pub spent: Option<P>,
    /// Boxes that no transaction took.
    pub unused: Option<B>,
    /// The number of the event's entry in the realm's journal, from 1.
    pub entry: Option<u32>,
}

impl Reply<HeldFresh, HeldParty> {
    /// What an event of a realm came to whose entry has this number, its lines, and the party that goes out.
    pub(crate) fn of(
        realm: usize,
        happened: Happened,
        entry: Option<u32>,
    ) -> (Reply, SentLines, Option<HeldParty>)
        requires { Always }
        ensures is { IsOf realm result.0 happened.answer }
        ensures change { result.0.change ≡ happened.change }
        ensures outcome { result.0.outcome ≡ happened.outcome }
        ensures entry { result.0.entry ≡ entry }
        ensures lines { result.1 ≡ happened.answer.sent }
        ensures work { result.2 ≡ happened.answer.work }
    {
        let Happened {
            change,
            outcome,
            answer,
        } = happened;
        let Answer {
            refusal,
            opened,
            sent,
            work,
            spent,
            unused,
            ..
        } = answer;
        let reply = Reply {
            refusal,
            opened: opened_at(realm, opened),
            change,
            outcome,
            spoken: Spoken::to(sent.as_slice()),
            spent,
            unused,
            entry,
        };
        (reply, sent, work)
    }
}

/// The seat of a connection that an event of a realm made, if it did.
fn opened_at(realm: usize, opened: Option<RealmSeat>) -> Option<Seat>
    ensures { result ≡ option_map (seat_at realm) opened }
{
    match opened {
        Some(seat) => Some(Seat::at(realm, seat)),
        None => None,
    }
}
