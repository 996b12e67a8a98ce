//! A host at work by a list of moves.
ghost use Rattle.std.specs.Prelude.{◌≡◌, [], false, IfErr, IfOk};
ghost use Rattle.tip_branch.specs.Always.{Always};
ghost use Rattle.tip_host.specs.Openings.{IsOpened};
ghost use Rattle.tip_host.specs.declared.host.OpenFault.TheVariants.{Unadopted};
ghost use Rattle.tip_stored.specs.Recovering.{all_adopted};

use std::alloc::Global;
use std::marker::Model;
use tip_honest::Entry;
use tip_host::{Host, OpenFault, Opening};
use tip_journal::{Journals, Pass};
use tip_rows::RowLog;
use tip_stored::Recovering;

/// A host that moves alone bring forward, with a pass of its own, and the journals of the processes before, the oldest first.
#[derive(Drop)]
pub struct Running<S> {
    pub(crate) host: Host<S>,
    pub(crate) pass: Pass<Entry>,
    pub(crate) earlier: Vec<Journals<Opening, Entry>>,
}

impl<S> Model for Running<S> {
    ghost use Rattle.std.specs.Coded.{codes};
    ghost use Rattle.tip_outbox.specs.contracts.outboxes.Outboxes as e;
    ghost use Rattle.tip_run.specs.Running.{IsAtRest, Running};

    ghost Value = { Running S };

    ghost coded = { Prim.hlevel (codes, e.the_row.coded) };

    ghost view = { λ r. record { host = r.host; noted = r.pass.noted; earlier = r.earlier.items } };

    ghost invariant = { λ r. IsAtRest r.host };
}

impl<S: RowLog + Drop> Running<S> {
    /// A run begins with a host that is opened: no move was made. At a fault all is handed back.
    pub fn open(
        alloc: Global,
        recovering: Recovering<S>,
    ) -> Result<Running<S>, (OpenFault, Recovering<S>)>
        requires { Always }
        ensures opened { IfOk result (λ running. IsOpened recovering running.host) }
        ensures noted { IfOk result (λ running. running.noted ≡ []) }
        ensures earlier { IfOk result (λ running. running.earlier ≡ []) }
        ensures unadopted { IfErr result
            (λ fault. fault.0 ≡ Unadopted → all_adopted recovering.realms ≡ false) }
        ensures back { IfErr result (λ fault. fault.1 ≡ recovering) }
    {
        let host = Host::open(alloc, recovering)?;
        let pass = host.pass(alloc);
        Ok(Running {
            host,
            pass,
            earlier: Vec::new(alloc),
        })
    }

    /// The run ends: its host, which goes on, its pass, and the journals of the processes before, the oldest first.
    pub fn into_parts(self) -> (Host<S>, Pass<Entry>, Vec<Journals<Opening, Entry>>)
        requires { Always }
        ensures host { result.0 ≡ self.host }
        ensures pass { result.1.noted ≡ self.noted }
        ensures earlier { result.2.items ≡ self.earlier }
    {
        let Running {
            host,
            pass,
            earlier,
        } = self;
        (host, pass, earlier)
    }
}
