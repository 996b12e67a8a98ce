//! What one connection's reader and writer ask of a host that is shared.
ghost use Rattle.std.specs.Prelude.{◌≡◌, ◌++◌, ◌∷◌, [], false, IfErr, IfOk, IfSome, None, Ok, OnErr, OnOk, option_map};
ghost use Rattle.tip_branch.specs.Always.{Always};
ghost use Rattle.tip_session.specs.Desks.{Back, Line, nothing, noting};
ghost use Rattle.tip_shared.specs.Sessions.{name_of, name_owed, seen_in, step_of, steps_in};

use crate::entering::{Sequel, bring_back, enter, enter_line};
use crate::shared::Shared;
use std::alloc::{AllocError, Global};
use std::sync::Wait;
use tip_branch::Errand;
use tip_honest::Entry;
use tip_host::{HostEvent, Seat, Work};
use tip_journal::Pass;
use tip_line::Id;
use tip_machine::Heard;
use tip_rows::RowLog;
use tip_session::{Came, Desk, DeskFault, Given, Outgoing, Ready};

/// An errand that is out.
#[derive(Drop)]
pub struct Owed {
    transaction: Id,
    errand: Errand,
}

/// A host that is shared, as the reader or the writer of one connection sees it.
#[derive(Drop)]
pub struct SharedDesk<'a, R: Wait, S> {
    rt: &'a R,
    alloc: Global,
    shared: &'a Shared<S>,
    seat: Seat,
    pass: Pass<Entry>,
    given: Given,
    owed: Option<Owed>,
    /// Memory was wanting for an errand, behind an event that happened: the host is stopped.
    is_short: bool,
}

impl Owed {
    /// The errand of a party that is out. It takes no memory.
    fn of(work: &Work) -> Result<Owed, AllocError>
        ensures { IfOk result (λ owed. name_owed owed ≡ name_of work.now.sent) }
    {
        let sent = work.sent();
        Ok(Owed {
            transaction: sent.id().copy()?,
            errand: sent.errand(),
        })
    }
}

impl<'a, R: Wait, S: RowLog + Drop> SharedDesk<'a, R, S> {
    /// The desk of a connection that was asked nothing yet.
    pub(crate) fn new(
        rt: &'a R,
        alloc: Global,
        shared: &'a Shared<S>,
        seat: Seat,
        pass: Pass<Entry>,
    ) -> SharedDesk<'a, R, S>
        requires { Always }
        ensures seen { seen_in result.pass.noted result.given result.owed
            ≡ record { steps = steps_in pass.noted; given = nothing; owed = None } }
        ensures short { result.is_short ≡ false }
    {
        SharedDesk {
            rt,
            alloc,
            shared,
            seat,
            pass,
            given: Given::nothing(),
            owed: None,
            is_short: false,
        }
    }

    /// What the session made, how it was told that it ends, and whether memory was wanting for an errand.
    pub(crate) fn into_parts(self) -> (Pass<Entry>, Given, bool)
        requires { Always }
        ensures pass { result.0 ≡ self.entry.pass }
        ensures given { result.1 ≡ self.entry.given }
    {
        let SharedDesk {
            pass,
            given,
            is_short,
            ..
        } = self;
        (pass, given, is_short)
    }

    /// The errand that comes of an event, which is noted to be out. Where memory is wanting for it none is, and the host is stopped.
    fn note(&mut self, work: Result<Option<Work>, AllocError>) -> Option<Work>
        requires { Always }
        ensures owed { option_map name_owed self.new.owed
            ≡ option_map (λ out. name_of out.sent) result }
        ensures given { self.new.given ≡ self.old.given }
        ensures pass { self.new.pass ≡ self.old.pass }
    {
        self.owed = None;
        let Ok(work) = work else {
            return self.fall_short();
        };
        let work = work?;
        match Owed::of(&work) {
            Ok(owed) => {
                self.owed = Some(owed);
                Some(work)
            }
            Err(AllocError) => self.fall_short(),
        }
    }

    /// There is no memory for an errand of an event that has happened: the host is stopped.
    fn fall_short(&mut self) -> Option<Work>
        requires { Always }
        ensures none { result ≡ None }
        ensures given { self.new.given ≡ self.old.given }
        ensures pass { self.new.pass ≡ self.old.pass }
        ensures owed { self.new.owed ≡ self.old.owed }
    {
        self.is_short = true;
        self.shared.stop(self.rt);
        None
    }

    /// A line of the connection, in its turn; None where the connection is gone. Where it has no entry, nothing has happened.
    fn take(&mut self, heard: Heard) -> Result<Option<Sequel>, DeskFault>
        requires { Always }
        ensures took { IfOk result (λ taken. IfSome taken (λ _. steps_in self.new.pass.noted
            ≡ steps_in self.old.pass.noted ++ Line heard ∷ [])) }
        ensures gone { result ≡ Ok None → self.new.pass.noted ≡ self.old.pass.noted }
        ensures given { OnOk result (self.new.given ≡ self.old.given) }
        ensures pass { OnErr result (self.new.pass.noted ≡ self.old.pass.noted) }
        ensures noted { IfErr result (λ fault. self.new.given ≡ noting self.old.given fault) }
        ensures owed { self.new.owed ≡ self.old.owed }
    {
        match enter_line(
            self.rt,
            self.alloc,
            self.shared,
            &mut self.pass,
            self.seat,
            heard,
        ) {
            Ok(taken) => Ok(taken),
            Err(fault) => Err(self.noted(fault)),
        }
    }

    /// One event of the connection. Where it has no entry, since its realm takes none or is not there, nothing has happened.
    fn step(&mut self, event: HostEvent) -> Result<Sequel, DeskFault>
        requires { Always }
        ensures took { OnOk result (steps_in self.new.pass.noted
            ≡ steps_in self.old.pass.noted ++ step_of event.event) }
        ensures given { OnOk result (self.new.given ≡ self.old.given) }
        ensures pass { OnErr result (self.new.pass.noted ≡ self.old.pass.noted) }
        ensures noted { IfErr result (λ fault. self.new.given ≡ noting self.old.given fault) }
        ensures owed { self.new.owed ≡ self.old.owed }
    {
        match enter(self.rt, self.alloc, self.shared, &mut self.pass, event) {
            Ok(sequel) => Ok(sequel),
            Err(fault) => Err(self.noted(fault)),
        }
    }

    /// An errand is done, and its party comes back. Where that has no entry nothing has happened.
    fn bring_back(&mut self, work: Work) -> Result<Sequel, DeskFault>
        requires { Always }
        ensures took { OnOk result (steps_in self.new.pass.noted
            ≡ steps_in self.old.pass.noted ++ Back (name_of work.sent) ∷ []) }
        ensures given { OnOk result (self.new.given ≡ self.old.given) }
        ensures pass { OnErr result (self.new.pass.noted ≡ self.old.pass.noted) }
        ensures noted { IfErr result (λ fault. self.new.given ≡ noting self.old.given fault) }
        ensures owed { self.new.owed ≡ self.old.owed }
    {
        match bring_back(self.rt, self.alloc, self.shared, &mut self.pass, work) {
            Ok(sequel) => Ok(sequel),
            Err(fault) => Err(self.noted(fault)),
        }
    }

    /// Why an event did not happen, which is noted.
    fn noted(&mut self, fault: DeskFault) -> DeskFault
        requires { Always }
        ensures same { result ≡ fault }
        ensures given { self.new.given ≡ noting self.old.given fault }
        ensures pass { self.new.pass ≡ self.old.pass }
        ensures owed { self.new.owed ≡ self.old.owed }
    {
        self.given.note(fault);
        fault
    }
}

impl<'a, R: Wait, S: RowLog + Drop> Desk for SharedDesk<'a, R, S> {
    ghost use Rattle.tip_shared.specs.Sessions.{name_of, seen_in};
    ghost use Rattle.std.specs.Prelude.{⊤};

    type Work = Work;

    ghost name = { λ work. name_of work.sent };

    ghost seen = { λ desk. seen_in desk.pass.noted desk.given desk.owed };

    ghost gives = { λ old given new. ⊤ };

    fn wait_ready(&mut self) -> Ready {
        let ready = self.shared.wait_ready(self.rt, self.seat);
        match ready {
            Ready::Ready => {}
            Ready::Gone => self.given.gone = true,
            Ready::Stopped => self.given.stopped = true,
        }
        ready
    }

    fn line(&mut self, heard: Heard) -> Result<Came<Work>, DeskFault> {
        let Some(Sequel { is_refused, work }) = self.take(heard)? else {
            self.given.gone = true;
            return Ok(Came::Gone);
        };
        if is_refused {
            self.given.refused = true;
            return Ok(Came::Refused);
        }
        Ok(match self.note(work) {
            Some(work) => Came::Work(work),
            None => Came::Nothing,
        })
    }

    fn done(&mut self, work: Work) -> Result<Option<Work>, DeskFault> {
        self.owed = None;
        let Sequel { work, .. } = self.bring_back(work)?;
        Ok(self.note(work))
    }

    fn lost(&mut self) -> Result<Option<Work>, DeskFault> {
        self.given.lost = true;
        let Sequel { work, .. } = self.step(HostEvent::lost(self.seat))?;
        Ok(self.note(work))
    }

    fn next_out(&mut self) -> Outgoing {
        let next = self.shared.next_out(self.rt, self.seat);
        match &next {
            Outgoing::Next(_) => {}
            Outgoing::Gone => self.given.gone = true,
            Outgoing::Stopped => self.given.stopped = true,
        }
        next
    }

    fn stop(&mut self) {
        self.shared.stop(self.rt);
        self.given.halted = true;
    }
}
