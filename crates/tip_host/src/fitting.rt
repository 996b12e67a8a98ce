//! Events at a host that others use too, as those behind a lock: by passes that are of this host, with the errand that comes of
//! each.
ghost use Rattle.std.specs.Prelude.{◌≡◌, ◌≢◌, ◌↔◌, Some, None, true, false, IfErr, IfOk, IfSome, OnErr, OnOk};
ghost use Rattle.tip_branch.specs.Always.{Always};
ghost use Rattle.tip_core.specs.Hosted.{realm as realm_at};
ghost use Rattle.tip_journal.specs.Fits.{Fits};
ghost use Rattle.tip_host.specs.Hosts.{IsOut, ServesOut, Stays};
ghost use Rattle.tip_host.specs.Served.{AnswersAt};
ghost use Rattle.tip_host.specs.declared.host.HostFault.TheVariants.{NotOut, PassMismatch, Stopped};

use crate::host::{Host, HostFault};
use crate::host_event::HostEvent;
use crate::reply::Reply;
use crate::work::{Returned, Work};
use std::alloc::{AllocError, Global};
use tip_honest::Entry;
use tip_journal::Pass;
use tip_rows::RowLog;

/// What an event came to, and the errand that comes of it.
#[derive(Drop)]
pub struct Stepped {
    pub reply: Reply,
    /// The oldest party of the realm that waits for its errand: this event's own, unless memory was wanting at one before. Without
    /// memory it waits still.
    pub work: Result<Option<Work>, AllocError>,
}

impl<S: RowLog + Drop> Host<S> {
    /// One event of a realm, by a pass that fits. What it came to is also said by the pass and by what comes back alone, since whoever
    /// shares a host knows nothing else of it. A fault hands the event back, and nothing has happened.
    pub fn step_fitting(
        &mut self,
        alloc: Global,
        pass: &mut Pass<Entry>,
        event: HostEvent,
    ) -> Result<Stepped, (HostFault, HostEvent)>
        requires { Always }
        ensures answered { IfOk result (λ stepped. AnswersAt
            (realm_at self.old.stored.core event.realm) pass.old.noted pass.new.noted event.realm
            event.event stepped.reply) }
        ensures serves { IfOk result (λ stepped. ServesOut S.keeping self.old self.new
            pass.old.noted pass.new.noted event.realm event.event None stepped.reply
            (λ work. work.realm) (λ work. work.sent) stepped.work) }
        ensures stopped { self.new.stored.is_stopped ≡ self.old.stored.is_stopped }
        ensures fits { OnOk result (Fits self.old.books.journals pass.old.noted event.realm) }
        ensures running { OnOk result (self.old.stored.is_stopped ≡ false) }
        ensures stays { OnErr result (Stays self.old self.new) }
        ensures pass { OnErr result (pass.new.noted ≡ pass.old.noted) }
        ensures realm { IfErr result (λ fault. fault.1.realm ≡ event.realm) }
        ensures back { IfErr result (λ fault. fault.1.event ≡ event.event) }
        ensures stopping { IfErr result
            (λ fault. (fault.0 ≡ Stopped) ↔ (self.old.stored.is_stopped ≡ true)) }
        ensures mismatch { IfErr result (λ fault. fault.0 ≡ PassMismatch →
            ¬ Fits self.old.books.journals pass.old.noted event.realm) }
        ensures sent { IfErr result (λ fault. fault.0 ≢ NotOut) }
    {
        if self.stored.is_stopped {
            return Err((HostFault::Stopped, event));
        }
        let realm = event.realm();
        if !self.fits(pass, realm) {
            return Err((HostFault::PassMismatch, event));
        }
        let reply = self.step(alloc, pass, event)?;
        let work = self.take_work(alloc, realm);
        Ok(Stepped { reply, work })
    }

    /// A party comes back, by a pass that fits. A fault hands it back, and nothing has happened.
    pub fn come_back_fitting(
        &mut self,
        alloc: Global,
        pass: &mut Pass<Entry>,
        returned: Returned,
    ) -> Result<Stepped, (HostFault, Returned)>
        requires { Always }
        ensures answered { IfOk result (λ stepped. AnswersAt
            (realm_at self.old.stored.core returned.realm) pass.old.noted pass.new.noted
            returned.realm returned.event stepped.reply) }
        ensures serves { IfOk result (λ stepped. ServesOut S.keeping self.old self.new
            pass.old.noted pass.new.noted returned.realm returned.event (Some returned.sent)
            stepped.reply (λ work. work.realm) (λ work. work.sent) stepped.work) }
        ensures stopped { self.new.stored.is_stopped ≡ self.old.stored.is_stopped }
        ensures fits { OnOk result (Fits self.old.books.journals pass.old.noted returned.realm) }
        ensures out { OnOk result (IsOut self.old returned.realm returned.sent) }
        ensures running { OnOk result (self.old.stored.is_stopped ≡ false) }
        ensures stays { OnErr result (Stays self.old self.new) }
        ensures pass { OnErr result (pass.new.noted ≡ pass.old.noted) }
        ensures back { IfErr result (λ fault. fault.1 ≡ returned) }
        ensures stopping { IfErr result
            (λ fault. (fault.0 ≡ Stopped) ↔ (self.old.stored.is_stopped ≡ true)) }
        ensures mismatch { IfErr result (λ fault. fault.0 ≡ PassMismatch →
            ¬ Fits self.old.books.journals pass.old.noted returned.realm) }
        ensures not_out { IfErr result
            (λ fault. fault.0 ≡ NotOut → ¬ IsOut self.old returned.realm returned.sent) }
        ensures strange { self.old.stored.is_stopped ≡ false →
            Fits self.old.books.journals pass.old.noted returned.realm →
            ¬ IsOut self.old returned.realm returned.sent →
            IfErr result (λ fault. fault.0 ≡ NotOut) }
    {
        if self.stored.is_stopped {
            return Err((HostFault::Stopped, returned));
        }
        let realm = returned.realm();
        if !self.fits(pass, realm) {
            return Err((HostFault::PassMismatch, returned));
        }
        let reply = self.come_back(alloc, pass, returned)?;
        let work = self.take_work(alloc, realm);
        Ok(Stepped { reply, work })
    }
}
