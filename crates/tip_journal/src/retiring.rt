//! Journals that are let go once passes have their entries.
ghost use Rattle.std.specs.Prelude.{◌≡◌, ◌↔◌, None, Err, map, IfOk, IfSome, OnErr};
ghost use Rattle.tip_journal.specs.Audit.{IsAudited};
ghost use Rattle.tip_journal.specs.Pass.{others};
ghost use Rattle.tip_journal.specs.Retiring.{IsRetired, ended_at};

use crate::auditing::audit_journal;
use crate::{AuditFault, Journals, Pass, Plain};
use std::alloc::Global;
use thiserror::Error;

/// Why a journal was not let go.
#[derive(Clone, Copy, Debug, PartialEq, Eq, Error)]
pub enum RetireFault {
    #[error("the realm's oldest journal is of another epoch, or has not ended")]
    NotEnded,
    #[error("the passes do not have the journal's entries")]
    PassMismatch,
    #[error("out of memory")]
    Memory,
}

impl From<AuditFault> for RetireFault {
    ghost use Rattle.tip_journal.specs.Retiring.{fault_of};

    ghost from_gives = { λ why fault. fault ≡ fault_of why };

    fn from(fault: AuditFault) -> RetireFault {
        match fault {
            AuditFault::PassMismatch => RetireFault::PassMismatch,
            AuditFault::Memory => RetireFault::Memory,
        }
    }
}

impl<S: Drop, E: Drop + Plain> Journals<S, E> {
    /// Lets go of the journal of an epoch that has ended, the realm's oldest, once these passes have its entries, each in one pass,
    /// once; the passes let go of them too. It gives how many they were. A fault leaves all as it was.
    pub fn retire(
        &mut self,
        alloc: Global,
        realm: usize,
        epoch: u32,
        passes: &mut [Pass<E>],
    ) -> Result<u32, RetireFault>
        ensures retired { IfOk result
            (IsRetired self.old self.new passes.old passes.new realm epoch) }
        ensures absent { (result ≡ Err RetireFault.NotEnded)
            ↔ (ended_at self.old realm epoch ≡ None) }
        ensures mismatch { result ≡ Err RetireFault.PassMismatch →
            IfSome (ended_at self.old realm epoch)
            (λ journal. ¬ IsAudited realm epoch journal.entries passes.old) }
        ensures same { OnErr result (self.new ≡ self.old) }
        ensures passes { OnErr result (passes.new ≡ passes.old) }
    {
        let Some(journal) = self.ended(realm, epoch) else {
            return Err(RetireFault::NotEnded);
        };
        audit_journal(alloc, realm, journal, passes)?;
        let entries = journal.entries().len() as u32;
        self.drop_oldest(realm);
        let_go(passes, realm, epoch);
        Ok(entries)
    }
}

/// The passes let go of their entries of a realm and epoch.
fn let_go<E: Drop>(passes: &mut [Pass<E>], realm: usize, epoch: u32)
    ensures { map (λ pass. pass.noted) passes.new
        ≡ map (λ pass. others realm epoch pass.noted) passes.old }
{
    for pass in passes.iter_mut() {
        pass.let_go(realm, epoch);
    }
}
