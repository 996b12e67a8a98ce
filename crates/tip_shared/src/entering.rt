//! Events of a session at a host that is shared: each has an entry in the session's pass, or nothing has happened.
ghost use Rattle.std.specs.Prelude.{◌≡◌, ◌++◌, ◌∷◌, [], false, is_some, option_map, true, IfOk, IfSome, None, Ok, OnErr, OnOk};
ghost use Rattle.tip_branch.specs.Always.{Always};
ghost use Rattle.tip_session.specs.Desks.{Back, Line};
ghost use Rattle.tip_session.specs.Ends.{only_back};
ghost use Rattle.tip_shared.specs.Sessions.{BringsBack, OnlyBack, name_of, step_of, steps_in};

use crate::shared::Shared;
use std::alloc::{AllocError, Global};
use std::sync::Wait;
use tip_honest::Entry;
use tip_host::{HostEvent, HostFault, Returned, Seat, Stepped, Work};
use tip_journal::Pass;
use tip_machine::Heard;
use tip_rows::RowLog;
use tip_session::DeskFault;

/// What a session goes on by once an event has its entry. What else the event's reply has is let go of before, where the lock is
/// free: it is large, and would be moved at each step up.
#[derive(Drop)]
pub(crate) struct Sequel {
    pub(crate) is_refused: bool,
    /// The errand that comes of it. Without memory it waits at the host.
    pub(crate) work: Result<Option<Work>, AllocError>,
}

/// An event of a connection.
pub(crate) fn enter<R: Wait, S: RowLog + Drop>(
    rt: &R,
    alloc: Global,
    shared: &Shared<S>,
    pass: &mut Pass<Entry>,
    event: HostEvent,
) -> Result<Sequel, DeskFault>
    requires { Always }
    ensures took { OnOk result
        (steps_in pass.new.noted ≡ steps_in pass.old.noted ++ step_of event.event) }
    ensures pass { OnErr result (pass.new.noted ≡ pass.old.noted) }
{
    match shared.step(rt, alloc, pass, event) {
        Ok(stepped) => entered(stepped),
        Err((fault, _)) => Err(desk_fault(fault)),
    }
}

/// A line of a connection, in its turn; None where the connection is gone.
pub(crate) fn enter_line<R: Wait, S: RowLog + Drop>(
    rt: &R,
    alloc: Global,
    shared: &Shared<S>,
    pass: &mut Pass<Entry>,
    seat: Seat,
    heard: Heard,
) -> Result<Option<Sequel>, DeskFault>
    requires { Always }
    ensures took { IfOk result (λ taken. IfSome taken (λ _.
        steps_in pass.new.noted ≡ steps_in pass.old.noted ++ Line heard ∷ [])) }
    ensures gone { result ≡ Ok None → pass.new.noted ≡ pass.old.noted }
    ensures pass { OnErr result (pass.new.noted ≡ pass.old.noted) }
{
    match shared.take_line(rt, alloc, pass, seat, heard) {
        Ok(Some(stepped)) => Ok(Some(entered(stepped)?)),
        Ok(None) => Ok(None),
        Err(fault) => Err(desk_fault(fault)),
    }
}

/// An errand is done, and its party comes back.
pub(crate) fn bring_back<R: Wait, S: RowLog + Drop>(
    rt: &R,
    alloc: Global,
    shared: &Shared<S>,
    pass: &mut Pass<Entry>,
    work: Work,
) -> Result<Sequel, DeskFault>
    requires { Always }
    ensures took { OnOk result
        (steps_in pass.new.noted ≡ steps_in pass.old.noted ++ Back (name_of work.sent) ∷ []) }
    ensures pass { OnErr result (pass.new.noted ≡ pass.old.noted) }
{
    come_back(rt, alloc, shared, pass, work.done())
}

/// A party comes back.
fn come_back<R: Wait, S: RowLog + Drop>(
    rt: &R,
    alloc: Global,
    shared: &Shared<S>,
    pass: &mut Pass<Entry>,
    returned: Returned,
) -> Result<Sequel, DeskFault>
    requires { Always }
    ensures took { OnOk result
        (steps_in pass.new.noted ≡ steps_in pass.old.noted ++ step_of returned.event) }
    ensures pass { OnErr result (pass.new.noted ≡ pass.old.noted) }
{
    match shared.come_back(rt, alloc, pass, returned) {
        Ok(stepped) => entered(stepped),
        Err((fault, _)) => Err(desk_fault(fault)),
    }
}

/// What an event came to, where it has an entry; else its realm takes none, or is not there, and nothing has happened.
fn entered(stepped: Stepped) -> Result<Sequel, DeskFault>
    requires { Always }
    ensures refused { IfOk result
        (λ sequel. sequel.is_refused ≡ is_some stepped.reply.refusal) }
    ensures work { IfOk result (λ sequel. sequel.work ≡ stepped.work) }
    ensures entry { OnOk result (is_some stepped.reply.entry ≡ true) }
    ensures none { OnErr result (is_some stepped.reply.entry ≡ false) }
{
    if stepped.reply.entry.is_none() {
        return Err(DeskFault::Frozen);
    }
    let is_refused = stepped.reply.refusal.is_some();
    let Stepped { work, .. } = stepped;
    Ok(Sequel { is_refused, work })
}

/// Why an event did not happen, as a session is told it.
fn desk_fault(fault: HostFault) -> DeskFault {
    match fault {
        HostFault::Stopped => DeskFault::Stopped,
        HostFault::PassMismatch | HostFault::NotOut => DeskFault::PassMismatch,
        HostFault::Memory => DeskFault::Memory,
    }
}

/// Does an errand, and those that come of it, where no session does. Where it says Ok each has come back, and none is out; a row of
/// errands without an end stops the host.
#[tactic(auto, using(crate::proofs::Errands::coming))]
pub fn run_errand<R: Wait, S: RowLog + Drop>(
    rt: &R,
    alloc: Global,
    shared: &Shared<S>,
    pass: &mut Pass<Entry>,
    work: Option<Work>,
) -> Result<(), DeskFault>
    requires { Always }
    ensures back { OnOk result (BringsBack (option_map (λ out. name_of out.sent) work)
        (steps_in pass.old.noted) (steps_in pass.new.noted)) }
    ensures only { OnlyBack (steps_in pass.old.noted) (steps_in pass.new.noted) }
{
    let mut next = work;
    for _ in 0..u64::MAX {
        let Some(work) = next else {
            return Ok(());
        };
        let Sequel { work, .. } = bring_back(rt, alloc, shared, pass, work)?;
        match work {
            Ok(more) => next = more,
            Err(AllocError) => return Err(DeskFault::Memory),
        }
    }
    shared.stop(rt);
    Err(DeskFault::Stopped)
}
