//! The reader and the writer of one connection over a host that is shared, for crates above: to use `SharedDesk` as a `Desk`
//! there would count as making boxes.
ghost use Rattle.std.specs.Prelude.{◌≡◌, IfSome, None, Option};
ghost use Rattle.tip_branch.specs.Always.{Always};
ghost use Rattle.tip_session.specs.Desks.{Name, lines_in, nothing};
ghost use Rattle.tip_session.specs.Ends.{Closing, Exhausts, IsServed};
ghost use Rattle.tip_session.specs.Sessions.{IsFront, TakesWithin, says};
ghost use Rattle.tip_shared.specs.Sessions.{HasWritten, seen_as, steps_in};

use crate::shared::Shared;
use crate::shared_desk::SharedDesk;
use std::alloc::Global;
use std::io::{Read, Write};
use std::sync::Wait;
use tip_honest::Entry;
use tip_host::Seat;
use tip_journal::Pass;
use tip_line::Realm;
use tip_rows::RowLog;
use tip_session::{Given, SessionEnd, serve, write_out};

/// A reader's session that has ended.
#[derive(Drop)]
pub struct Session {
    pub end: SessionEnd,
    /// What the host told it; `frozen` where its realm takes no more entries.
    pub given: Given,
    /// Whether memory was wanting for an errand: the session has stopped the host then, and its party waits there.
    pub is_short: bool,
    /// The pass, with the entries that the session made.
    pub pass: Pass<Entry>,
}

/// Reads the lines of a connection, hands each in once it may be taken, does the errands that come of it, and says in the end that
/// the connection is lost. It makes `turns` reads at most, each of up to 1,024 octets.
pub fn serve_shared<R: Wait, S: RowLog + Drop, I: Read>(
    rt: &R,
    alloc: Global,
    shared: &Shared<S>,
    pass: Pass<Entry>,
    seat: Seat,
    reader: &mut I,
    turns: u64,
) -> Session
    requires { Always }
    ensures served { (owed : Option Name) × IsServed (seen_as (steps_in pass.noted) nothing None)
        (seen_as (steps_in result.pass.noted) result.given owed) result.end }
    ensures front { IfSome (I.remaining reader.old) (λ octets. IsFront (says octets)
        (lines_in (steps_in pass.noted)) (lines_in (steps_in result.pass.noted))) }
    ensures whole { IfSome (I.remaining reader.old) (λ octets.
        result.end ≡ SessionEnd.PeerClosed → Closing octets
        (seen_as (steps_in pass.noted) nothing None)
        (seen_as (steps_in result.pass.noted) result.given None)) }
    ensures limit { IfSome (I.remaining reader.old) (λ octets.
        result.end ≡ SessionEnd.TurnLimit → Exhausts turns octets
        (seen_as (steps_in result.pass.noted) result.given None)) }
    ensures bound { TakesWithin turns (I.remaining reader.old) (I.remaining reader.new) }
{
    let mut desk = SharedDesk::new(rt, alloc, shared, seat, pass);
    let end = serve(alloc, &mut desk, reader, turns);
    let (pass, given, is_short) = desk.into_parts();
    Session {
        end,
        given,
        is_short,
        pass,
    }
}

/// Writes what goes out on a connection, in order, until its closing.
pub fn write_shared<R: Wait, S: RowLog + Drop, W: Write>(
    rt: &R,
    alloc: Global,
    shared: &Shared<S>,
    realm: &Realm,
    seat: Seat,
    writer: &mut W,
) -> SessionEnd
    requires { Always }
    ensures { HasWritten realm.now (W.contents writer.old) (W.contents writer.new) result }
{
    let pass = shared.pass(alloc);
    let mut desk = SharedDesk::new(rt, alloc, shared, seat, pass);
    write_out(alloc, &mut desk, realm, writer)
}
