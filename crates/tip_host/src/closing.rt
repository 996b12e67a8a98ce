//! The end of a host that is relied on: what is stored is read once more.
ghost use Rattle.std.specs.Prelude.{◌≡◌, ◌<◌, ℕ, Some, true, false, slice_get, IfErr, IfOk, IfSome, OnOk};
ghost use Rattle.tip_branch.specs.Always.{Always};
ghost use Rattle.tip_core.specs.Hosted.{realm as realm_at};
ghost use Rattle.tip_kept.specs.Keeping.{rows_at};
ghost use Rattle.tip_machine.specs.States.{State};
ghost use Rattle.tip_rows.specs.Logs.{IsPart, Log};
ghost use Rattle.tip_host.specs.Hosts.{IsShown};
ghost use Rattle.tip_host.specs.Books.{HasRunBehind, out_of, retired_at};
ghost use Rattle.tip_host.specs.Entries.{bare};

use crate::host::{Ended, Host};
use crate::renewing::are_stored;
use std::alloc::Global;
use thiserror::Error;
use tip_rows::RowLog;
use tip_stored::RenewFault;

/// Why a host was not closed.
#[derive(Clone, Copy, Debug, Error)]
pub enum CloseFault {
    #[error("{0}")]
    Read(RenewFault),
    #[error("what is stored is not what the store has answered")]
    NotStored,
}

impl From<RenewFault> for CloseFault {
    ghost use Rattle.tip_host.specs.declared.closing.CloseFault.TheVariants.{Read};

    ghost from_gives = { λ why fault. fault ≡ Read why };

    fn from(fault: RenewFault) -> CloseFault {
        CloseFault::Read(fault)
    }
}

impl<S: RowLog + Drop> Host<S> {
    /// HONEST RUNS, AND WHAT THEY HAVE STORED: the host ends as by `shut`, once each realm was read once more and the store has
    /// shown its rows, word for word. So they are the realm's part of any log that the store stands for, as long as it may be
    /// relied on. A fault hands the host back, which goes on.
    pub fn close(self, alloc: Global) -> Result<Ended<S>, (CloseFault, Host<S>)>
        requires { Always }
        ensures stands { (log : Log) → S.keeping.stands self.stored.store log →
            IfOk result (λ ended. S.keeping.stands ended.store log) }
        ensures stored { (log : Log) (place : ℕ) (state : State) →
            S.keeping.stands self.stored.store log →
            realm_at self.stored.core place ≡ Some state →
            IfOk result (λ ended. S.keeping.is_true ended.store →
            IsPart log state.head.name state.head.epoch (rows_at self.books.rows place)) }
        ensures read { IfOk result (λ ended. S.keeping.faults ended.store
            ≡ S.keeping.faults self.stored.store) }
        ensures journals { IfOk result (λ ended. ended.journals ≡ self.books.journals) }
        ensures retired { IfOk result (λ ended. ended.retired.items ≡ self.books.retired) }
        ensures honest { IfOk result (λ ended. (place : ℕ) →
            HasRunBehind (retired_at ended.retired.items place)
            (realm_at self.stored.core place) (out_of self.books place)
            (rows_at self.books.rows place) (slice_get (bare ended.journals) place)) }
        ensures rest { IfErr result (λ fault. fault.1
            ≡ record self { stored = record self.stored { store = fault.1.stored.store } }) }
    {
        let mut host = self;
        match host.shows_all(alloc) {
            Ok(true) => Ok(host.shut()),
            Ok(false) => Err((CloseFault::NotStored, host)),
            Err(fault) => Err((fault.into(), host)),
        }
    }

    /// Whether the store shows the rows of each realm as it has answered.
    fn shows_all(&mut self, alloc: Global) -> Result<bool, RenewFault>
        requires { Always }
        ensures shown { (place : ℕ) → IfOk result (λ yes. yes ≡ true →
            IsShown S.keeping self.old.stored.store self.new.stored.store
            (realm_at self.old.stored.core place) (rows_at self.old.books.rows place)) }
        ensures stands { (log : Log) → S.keeping.stands self.old.stored.store log →
            S.keeping.stands self.new.stored.store log }
        ensures read { OnOk result (S.keeping.faults self.new.stored.store
            ≡ S.keeping.faults self.old.stored.store) }
        ensures rest { self.new ≡ record self.old {
          stored = record self.old.stored { store = self.new.stored.store };
        } }
    {
        let count = self.stored.core.heads().len();
        for realm in 0..count {
            if !self.shows(alloc, realm)? {
                return Ok(false);
            }
        }
        Ok(true)
    }

    /// Whether the store shows the rows of a realm as it has answered.
    fn shows(&mut self, alloc: Global, realm: usize) -> Result<bool, RenewFault>
        requires { Always }
        ensures shown { IfOk result (λ yes. yes ≡ true →
            IsShown S.keeping self.old.stored.store self.new.stored.store
            (realm_at self.old.stored.core realm) (rows_at self.old.books.rows realm)) }
        ensures stands { (log : Log) → S.keeping.stands self.old.stored.store log →
            S.keeping.stands self.new.stored.store log }
        ensures read { OnOk result (S.keeping.faults self.new.stored.store
            ≡ S.keeping.faults self.old.stored.store) }
        ensures truth { S.keeping.is_true self.new.stored.store →
            S.keeping.is_true self.old.stored.store }
        ensures rest { self.new ≡ record self.old {
          stored = record self.old.stored { store = self.new.stored.store };
        } }
    {
        let recovery = self.doubts(alloc, realm)?;
        if self.epoch(realm) != Some(recovery.epoch()) {
            return Ok(false);
        }
        Ok(are_stored(&self.books, realm, &recovery))
    }
}
