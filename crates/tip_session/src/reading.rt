//! The reader of a connection.
ghost use Rattle.std.specs.Prelude.{◌≡◌, ◌⊎◌, true, false, Some, None, IfSome};
ghost use Rattle.tip_session.specs.Desks.{IsOpen, halting, lines_in, name_in};
ghost use Rattle.tip_session.specs.Ends.{Closing, Exhausts, Finishes, HasBack, IsServed, Paused, given_of};
ghost use Rattle.tip_session.specs.Ends.{Hands, LastHands, Runs, SaysLost, Settles, run_given};
ghost use Rattle.tip_session.specs.Sessions.{HandsIn, IsFront, TakesWithin, says};

use crate::desk::{Came, Desk, DeskFault, Ready};
use crate::ended::Ended;
use crate::session_end::SessionEnd;
use std::alloc::{AllocError, Global};
use std::io::Read;
use tip_intake::{Coming, InputEnd, Intake};
use tip_machine::Heard;

/// Reads, hands each line in once it may be taken, and does the errands that come of it, each before the next line. At the
/// end, unless the desk has closed the connection or stopped, it says that the connection is lost. It makes `turns` reads at
/// most, each of up to 1,024 octets.
pub fn serve<D: Desk, I: Read>(
    alloc: Global,
    desk: &mut D,
    reader: &mut I,
    turns: u64,
) -> SessionEnd
    requires { IsOpen (D.seen desk.old) }
    ensures served { IsServed (D.seen desk.old) (D.seen desk.new) result }
    ensures front { IfSome (I.remaining reader.old) (λ octets. IsFront (says octets)
        (lines_in (D.seen desk.old).steps) (lines_in (D.seen desk.new).steps)) }
    ensures whole { IfSome (I.remaining reader.old) (λ octets.
        result ≡ SessionEnd.PeerClosed → Closing octets (D.seen desk.old) (D.seen desk.new)) }
    ensures limit { IfSome (I.remaining reader.old) (λ octets.
        result ≡ SessionEnd.TurnLimit → Exhausts turns octets (D.seen desk.new)) }
    ensures bound { TakesWithin turns (I.remaining reader.old) (I.remaining reader.new) }
{
    let ended = read_lines(alloc, desk, reader, turns);
    finish(desk, ended)
}

/// Ends a session that takes no more lines.
fn finish<D: Desk>(desk: &mut D, ended: Ended) -> SessionEnd
    requires given { (D.seen desk.old).given ≡ given_of ended }
    requires back { HasBack ended (D.seen desk.old) }
    ensures { Finishes ended (D.seen desk.old) (D.seen desk.new) result }
{
    match ended {
        Ended::AtEnd | Ended::Spoilt | Ended::Refused => lose(desk, SessionEnd::PeerClosed),
        Ended::ReadFault => lose(desk, SessionEnd::ReadFault),
        Ended::TurnLimit => lose(desk, SessionEnd::TurnLimit),
        Ended::Gone => SessionEnd::PeerClosed,
        Ended::Failed(DeskFault::Frozen) => lose(desk, SessionEnd::PeerClosed),
        Ended::Failed(DeskFault::Stopped) => SessionEnd::HostStopped,
        Ended::Failed(DeskFault::PassMismatch) => SessionEnd::PassMismatch,
        Ended::Failed(DeskFault::Memory) | Ended::NoMemory => out_of_memory(desk),
        Ended::Endless => SessionEnd::TurnLimit,
    }
}

/// The connection is lost, and what comes of that is done.
fn lose<D: Desk>(desk: &mut D, end: SessionEnd) -> SessionEnd
    requires none_out { (D.seen desk.old).owed ≡ None }
    requires there { (D.seen desk.old).given.gone ≡ false }
    requires once { (D.seen desk.old).given.lost ≡ false }
    requires running { (D.seen desk.old).given.halted ≡ false }
    ensures { Settles end (D.seen desk.old) (D.seen desk.new) result }
{
    match say_lost(desk) {
        None => end,
        Some(Ended::Failed(DeskFault::Stopped)) => SessionEnd::HostStopped,
        Some(Ended::Failed(DeskFault::PassMismatch)) => SessionEnd::PassMismatch,
        Some(Ended::Failed(DeskFault::Frozen)) => end,
        Some(Ended::Failed(DeskFault::Memory)) => out_of_memory(desk),
        Some(_) => SessionEnd::TurnLimit,
    }
}

/// Stops the desk, since there is no memory.
fn out_of_memory<D: Desk>(desk: &mut D) -> SessionEnd
    ensures memory { result ≡ SessionEnd.Memory }
    ensures stopped { D.seen desk.new ≡ halting (D.seen desk.old) }
{
    desk.stop();
    SessionEnd::Memory
}

/// Says that the connection is lost, and does what comes of that.
fn say_lost<D: Desk>(desk: &mut D) -> Option<Ended>
    requires none_out { (D.seen desk.old).owed ≡ None }
    requires there { (D.seen desk.old).given.gone ≡ false }
    requires once { (D.seen desk.old).given.lost ≡ false }
    ensures { SaysLost (D.seen desk.old) (D.seen desk.new) result }
{
    match desk.lost() {
        Ok(work) => run_errands(desk, work),
        Err(fault) => Some(Ended::Failed(fault)),
    }
}

/// Does an errand, and those that come of it.
fn run_errands<D: Desk>(desk: &mut D, work: Option<D::Work>) -> Option<Ended>
    requires out { (D.seen desk.old).owed ≡ name_in D.name work }
    requires there { (D.seen desk.old).given.gone ≡ false }
    ensures { Runs (D.seen desk.old) (D.seen desk.new) result }
{
    let mut next = work;
    for _ in 0..u64::MAX {
        let Some(work) = next else {
            return None;
        };
        match desk.done(work) {
            Ok(more) => next = more,
            Err(fault) => return Some(Ended::Failed(fault)),
        }
    }
    desk.stop();
    Some(Ended::Endless)
}

/// Hands lines in until no more are taken.
fn read_lines<D: Desk, I: Read>(alloc: Global, desk: &mut D, reader: &mut I, turns: u64) -> Ended
    requires { IsOpen (D.seen desk.old) }
    ensures lines { HandsIn result turns (lines_in (D.seen desk.old).steps)
        (lines_in (D.seen desk.new).steps) (I.remaining reader.old) (I.remaining reader.new) }
    ensures paused { Paused (D.seen desk.old) (D.seen desk.new) result }
{
    let Ok(mut intake) = Intake::new(alloc, turns) else {
        return Ended::NoMemory;
    };
    for _ in 0..u64::MAX {
        match intake.next(reader, |text| Heard::of(alloc, text)) {
            Coming::Line(Ok(heard)) => {
                if let Some(end) = hand_in(desk, heard) {
                    return end;
                }
            }
            Coming::Line(Err(AllocError)) => return Ended::NoMemory,
            Coming::Fault(_) => return hand_in_last(desk),
            Coming::End(InputEnd::AtEnd) => return Ended::AtEnd,
            Coming::End(InputEnd::ReadFault) => return Ended::ReadFault,
            Coming::End(InputEnd::NoReadsLeft) => return Ended::TurnLimit,
        }
    }
    Ended::TurnLimit
}

/// Hands one line in once it may be taken, and does the errand that it gives.
fn hand_in<D: Desk>(desk: &mut D, heard: Heard) -> Option<Ended>
    requires { IsOpen (D.seen desk.old) }
    ensures { Hands heard (D.seen desk.old) (D.seen desk.new) result }
{
    match desk.line(heard) {
        Ok(Came::Gone) => Some(Ended::Gone),
        Ok(Came::Refused) => Some(Ended::Refused),
        Ok(Came::Nothing) => None,
        Ok(Came::Work(work)) => run_errands(desk, Some(work)),
        Err(fault) => Some(Ended::Failed(fault)),
    }
}

/// Hands in what is no line; nothing is read behind it.
fn hand_in_last<D: Desk>(desk: &mut D) -> Ended
    requires { IsOpen (D.seen desk.old) }
    ensures { LastHands (D.seen desk.old) (D.seen desk.new) result }
{
    if let Some(end) = hand_in(desk, Heard::Malformed) {
        return end;
    }
    match desk.wait_ready() {
        Ready::Gone => Ended::Gone,
        Ready::Ready => Ended::Spoilt,
        Ready::Stopped => Ended::Failed(DeskFault::Stopped),
    }
}
