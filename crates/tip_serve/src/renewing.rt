//! Realms that start again while the others are served.
ghost use Rattle.tip_branch.specs.Always.{Always};

use crate::rows::dealt_to_rows;
use crate::server::Server;
use std::sync::Wait;
use tip_branch::Branch;
use tip_control::Answer;
use tip_duties::{Dial, Duties, Note};
use tip_host::HostEvent;
use tip_line::Id;
use tip_notices::Asker;
use tip_recovery::Recovery;
use tip_rows::RowLog;
use tip_sockets::Runtime;
use tip_stored::RenewFault;

impl<'a, S: RowLog + Drop + Send + 'static> Server<'a, S>
where
    S::Medium: Send,
{
    /// A realm starts again by what is stored of it, with these boxes for its rows, and does what it does at each start.
    pub fn renew<R: Runtime>(
        &mut self,
        rt: &R,
        realm: usize,
        recovery: Recovery,
        pool: Vec<Box<dyn Branch + Send>>,
        asker: Option<Asker>,
    ) {
        let epoch = recovery.epoch().saturating_add(1);
        match self.start_again(rt, realm, recovery, pool) {
            Ok(Duties { resumes, dials }) => {
                if let Some(asker) = asker {
                    asker.answer(rt, Answer::Epoch(epoch));
                }
                self.say_doubts(rt, realm, None);
                self.resume(rt, realm, resumes);
                let _called = self.call(rt, realm, dials);
            }
            Err(fault) => self.note_not_renewed(rt, realm, fault, asker),
        }
    }

    /// A realm starts again; what is then to be done for its rows.
    fn start_again<R: Wait + Eprint>(
        &mut self,
        rt: &R,
        realm: usize,
        mut recovery: Recovery,
        mut pool: Vec<Box<dyn Branch + Send>>,
    ) -> Result<Duties, RenewFault> {
        let alloc = self.alloc;
        let duties = Duties::of(alloc, recovery.rows()).map_err(|_| RenewFault::Memory)?;
        let boxes = dealt_to_rows(alloc, &mut pool, recovery.rows()).map_err(
            |_| RenewFault::Memory,
        )?;
        if !recovery.adopt_all(boxes) {
            return Err(RenewFault::Unadopted);
        }
        let epoch = recovery.epoch().saturating_add(1);
        match self.realms.get_mut(realm) {
            Some(served) => served.reserve().map_err(|_| RenewFault::Memory)?,
            None => return Err(RenewFault::NoRealm),
        }
        match self.shared.renew(rt, alloc, realm, recovery) {
            Ok(left) => drop(left),
            Err((fault, _)) => return Err(fault),
        }
        self.turn_over(rt, realm, epoch);
        // they end by themselves, but where a thread writes to a peer that takes nothing
        self.connections.shut_of(realm);
        if let Some(served) = self.realms.get(realm) {
            let name = &served.config.name;
            self.log
                .note(rt, alloc, Note::Renewed { realm: name, epoch });
        }
        Ok(duties)
    }

    /// What is left of these transactions is tried again.
    pub fn resume<R: Wait>(&mut self, rt: &R, realm: usize, resumes: Vec<Id>)
        requires { Always }
    {
        for id in resumes {
            let _refused = self.make(rt, realm, HostEvent::resume(realm, id));
        }
    }

    /// These managers are called, by a thread of their own; false where there is none.
    pub fn call<R: Runtime>(&mut self, rt: &R, realm: usize, dials: Vec<Dial>) -> bool {
        match self.realms.get(realm) {
            Some(served) => self.callers.call(rt, realm, &served.config.name, dials),
            None => false,
        }
    }
}
