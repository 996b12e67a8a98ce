//! The end of a host that was shared.
ghost use Rattle.std.specs.Prelude.{◌≡◌, IfErr, IfOk};
ghost use Rattle.tip_branch.specs.Always.{Always};
ghost use Rattle.tip_host.specs.Hosts.{Host as AHost};
ghost use Rattle.tip_journal.specs.Audit.{AreAudited, report_of};
ghost use Rattle.tip_shared.specs.Closed.{IsClosed};
ghost use Rattle.tip_shared.specs.declared.closing.CloseFault.TheVariants.{PassMismatch};

use crate::shared::Shared;
use std::alloc::Global;
use thiserror::Error;
use tip_honest::Entry;
use tip_host::{CloseFault as HostCloseFault, Ended, Host, Opening};
use tip_journal::{AuditFault, Journals, Pass, Reported, Retired};
use tip_rows::RowLog;

/// Why a host that was shared is not closed.
#[derive(Clone, Copy, Debug, Error)]
pub enum CloseFault {
    #[error("the passes do not have the journals' entries")]
    PassMismatch,
    #[error("out of memory")]
    Memory,
    #[error("{0}")]
    Host(HostCloseFault),
}

/// What a host leaves that was shared.
#[derive(Drop)]
pub struct Closed<S> {
    pub store: S,
    /// Of each realm, one for each of its starts, but for those that were let go.
    pub journals: Journals<Opening, Entry>,
    /// Of each realm, how many were let go, and how many entries they had.
    pub retired: Vec<Retired>,
    /// How many entries each of these journals has, by declaration, then by epoch.
    pub report: Vec<Reported>,
}

impl From<AuditFault> for CloseFault {
    ghost use Rattle.tip_shared.specs.Closed.{fault_of};

    ghost from_gives = { λ why fault. fault ≡ fault_of why };

    fn from(fault: AuditFault) -> CloseFault {
        match fault {
            AuditFault::PassMismatch => CloseFault::PassMismatch,
            AuditFault::Memory => CloseFault::Memory,
        }
    }
}

impl<S: RowLog + Drop> Shared<S> {
    /// THE END of a host that was shared, once no thread shares it any more: these passes have the entries of all journals that it
    /// keeps, each in one pass, once; each realm's journals, with those that were let go, are those of one honest run of its own
    /// machine; and the store has shown the rows to which that leads, word for word. A fault hands the host back, which goes on, and
    /// the passes.
    pub fn close(
        self,
        alloc: Global,
        passes: Vec<Pass<Entry>>,
    ) -> Result<Closed<S>, (CloseFault, Host<S>, Vec<Pass<Entry>>)>
        requires { Always }
        ensures audited { IfOk result (λ closed. AreAudited closed.journals passes.items) }
        ensures report { IfOk result (λ closed. closed.report.items ≡ report_of closed.journals) }
        ensures closed { IfOk result
            (λ closed. (host : AHost S)
            × IsClosed S.keeping host closed.store closed.journals closed.retired.items) }
        ensures mismatch { IfErr result (λ fault. fault.0 ≡ PassMismatch →
            ¬ AreAudited fault.1.books.journals passes.items) }
        ensures back { IfErr result (λ fault. fault.2 ≡ passes) }
    {
        let Shared { host, .. } = self;
        close_host(alloc, host.into_inner(), passes)
    }
}

/// The host ends, once the passes have its entries, and its store has shown its rows.
fn close_host<S: RowLog + Drop>(
    alloc: Global,
    host: Host<S>,
    passes: Vec<Pass<Entry>>,
) -> Result<Closed<S>, (CloseFault, Host<S>, Vec<Pass<Entry>>)>
    requires { Always }
    ensures audited { IfOk result (λ closed. AreAudited closed.journals passes.items) }
    ensures report { IfOk result (λ closed. closed.report.items ≡ report_of closed.journals) }
    ensures closed { IfOk result
        (λ closed. IsClosed S.keeping host closed.store closed.journals closed.retired.items) }
    ensures mismatch { IfErr result (λ fault. fault.0 ≡ PassMismatch →
        ¬ AreAudited fault.1.books.journals passes.items) }
    ensures back { IfErr result (λ fault. fault.2 ≡ passes) }
{
    let report = match host.audit(alloc, &passes) {
        Ok(report) => report,
        Err(fault) => return Err((fault.into(), host, passes)),
    };
    match host.close(alloc) {
        Ok(
            Ended {
                store,
                journals,
                retired,
            },
        ) => Ok(Closed {
            store,
            journals,
            retired,
            report,
        }),
        Err((fault, host)) => Err((CloseFault::Host(fault), host, passes)),
    }
}
