//! Journals that a host lets go that is shared.
ghost use Rattle.std.specs.Prelude.{◌≡◌, Err, OnErr, OnOk};
ghost use Rattle.tip_branch.specs.Always.{Always};
ghost use Rattle.tip_honest.specs.Honesty.{Journal};
ghost use Rattle.tip_journal.specs.Audit.{IsAudited};
ghost use Rattle.tip_shared.specs.Closed.{HasRetired};

use crate::shared::Shared;
use std::alloc::Global;
use std::sync::Wait;
use tip_honest::Entry;
use tip_journal::{Pass, RetireFault};
use tip_rows::RowLog;

impl<S: RowLog + Drop> Shared<S> {
    /// Lets go of the journal of an epoch that has ended, the oldest of its realm, once these passes have its entries, each in one
    /// pass, once; the passes let go of them too, and how many they were is kept for `close`. A fault leaves all as it was: a later
    /// call may go through, once the passes of all its sessions are there, and an older journal is let go.
    pub fn retire<R: Wait>(
        &self,
        rt: &R,
        alloc: Global,
        realm: usize,
        epoch: u32,
        passes: &mut [Pass<Entry>],
    ) -> Result<(), RetireFault>
        requires { Always }
        ensures retired { OnOk result (HasRetired realm epoch passes.old passes.new) }
        ensures mismatch { result ≡ Err RetireFault.PassMismatch →
            (journal : Journal) × ¬ IsAudited realm epoch journal.entries passes.old }
        ensures passes { OnErr result (passes.new ≡ passes.old) }
    {
        self.host.lock(rt).retire(alloc, realm, epoch, passes)
    }
}
