//! Events at a host that is run, and its errands.
ghost use Rattle.std.specs.Prelude.{◌≡◌, List, IfErr, IfOk, OnErr};
ghost use Rattle.tip_branch.specs.Always.{Always};
ghost use Rattle.tip_honest.specs.Honesty.{Journal};
ghost use Rattle.tip_run.specs.Halts.{IsWhyNotHappened};
ghost use Rattle.tip_run.specs.Moves.{IsMade, at_work};
ghost use Rattle.tip_run.specs.Running.{IsAtRest};
ghost use Rattle.tip_host.specs.declared.host.HostFault.TheVariants as HostFault;
ghost use Rattle.tip_run.specs.declared.halt.RunFault.TheVariants as RunFault;
ghost use Rattle.tip_run.specs.declared.moves.Move.TheVariants as move;

use crate::halt::RunFault;
use crate::shown::{Said, Shown};
use std::alloc::Global;
use tip_honest::Entry;
use tip_host::{Host, HostEvent, HostFault};
use tip_journal::Pass;
use tip_rows::RowLog;

/// An event of a realm.
pub(crate) fn step<S: RowLog + Drop>(
    alloc: Global,
    host: &mut Host<S>,
    pass: &mut Pass<Entry>,
    event: HostEvent,
) -> Result<Shown, RunFault>
    requires always { Always }
    requires rest { IsAtRest host.old }
    ensures made { (earlier : List (List (List Journal))) → IfOk result
        (λ shown. IsMade S.keeping (at_work host.old pass.old.noted earlier) (move.Step event)
        shown (at_work host.new pass.new.noted earlier)) }
    ensures why { IfErr result IsWhyNotHappened }
    ensures store { OnErr result (host.new.stored.store ≡ host.old.stored.store) }
    ensures pass { OnErr result (pass.new.noted ≡ pass.old.noted) }
{
    match host.step(alloc, pass, event) {
        Ok(reply) => Ok(Shown::Came(Said::of(reply))),
        Err((fault, _)) => Err(wanting(fault)),
    }
}

/// The oldest party of a realm that waits does its errand and comes back. Where none waits, nothing happens.
pub(crate) fn go<S: RowLog + Drop>(
    alloc: Global,
    host: &mut Host<S>,
    pass: &mut Pass<Entry>,
    realm: usize,
) -> Result<Shown, RunFault>
    requires always { Always }
    requires rest { IsAtRest host.old }
    ensures made { (earlier : List (List (List Journal))) → IfOk result
        (λ shown. IsMade S.keeping (at_work host.old pass.old.noted earlier) (move.Go realm)
        shown (at_work host.new pass.new.noted earlier)) }
    ensures why { IfErr result IsWhyNotHappened }
    ensures store { OnErr result (host.new.stored.store ≡ host.old.stored.store) }
    ensures pass { OnErr result (pass.new.noted ≡ pass.old.noted) }
{
    let Some(work) = host.take_work(alloc, realm)? else {
        return Ok(Shown::Nobody);
    };
    match host.come_back(alloc, pass, work.done()) {
        Ok(reply) => Ok(Shown::Came(Said::of(reply))),
        Err((fault, _)) => Err(wanting(fault)),
    }
}

/// The oldest party of a realm that waits is lost. Where none waits, nothing happens.
pub(crate) fn lose<S: RowLog + Drop>(
    alloc: Global,
    host: &mut Host<S>,
    pass: &Pass<Entry>,
    realm: usize,
) -> Result<Shown, RunFault>
    requires always { Always }
    requires rest { IsAtRest host.old }
    ensures made { (earlier : List (List (List Journal))) → IfOk result
        (λ shown. IsMade S.keeping (at_work host.old pass.now.noted earlier) (move.Lose realm)
        shown (at_work host.new pass.now.noted earlier)) }
    ensures why { IfErr result IsWhyNotHappened }
    ensures store { OnErr result (host.new.stored.store ≡ host.old.stored.store) }
{
    let Some(lost) = host.take_work(alloc, realm)? else {
        return Ok(Shown::Nobody);
    };
    let party = lost.noted(alloc)?;
    match host.lose(lost) {
        Ok(held) => {
            drop(held);
            Ok(Shown::Lost(party))
        }
        Err(_) => unreachable!(),
    }
}

/// What was wanting for an event of a host between two moves: it is not stopped, the pass is its own, and who comes back is out.
fn wanting(fault: HostFault) -> RunFault
    requires { fault ≡ HostFault.Memory }
    ensures { result ≡ RunFault.Memory }
{
    match fault {
        HostFault::Memory => RunFault::Memory,
        HostFault::Stopped | HostFault::PassMismatch | HostFault::NotOut => unreachable!(),
    }
}
