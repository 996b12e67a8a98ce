//! Realms of a host that is run, which start again.
ghost use Rattle.std.specs.Prelude.{◌≡◌, ◌++◌, ◌∷◌, [], List, map, IfErr, IfOk, OnErr, OnOk, true};
ghost use Rattle.tip_branch.specs.Always.{Always};
ghost use Rattle.tip_honest.specs.Honesty.{Journal};
ghost use Rattle.tip_host.specs.Entries.{Noted};
ghost use Rattle.tip_rows.specs.Logs.{Log, counted};
ghost use Rattle.tip_stored.specs.Loading.{IsOnTheWay, names_of};
ghost use Rattle.tip_run.specs.Halts.{HandsBack, IsWhyNotBegun, IsWhyNotRenewed, IsWhyNotRestarted, is_refusal};
ghost use Rattle.tip_run.specs.Moves.{IsRenewed, at_work};
ghost use Rattle.tip_run.specs.Running.{IsAtRest};
ghost use Rattle.tip_run.specs.Starts.{HasBoxes, IsBegun, IsRestarted};

use crate::halt::{RunFault, Stuck};
use std::alloc::Global;
use tip_branch::HeldPrepared;
use tip_core::Core;
use tip_honest::Entry;
use tip_host::{Ended, Host, OpenFault, Opening};
use tip_journal::Journals;
use tip_rows::RowLog;
use tip_stored::{RealmSpec, StoredCore};

/// All realms start again from what is stored of them, with boxes for each row of each realm, by rising key. The journals of the host
/// that ends are put behind the earlier ones.
pub(crate) fn restart<S: RowLog + Drop>(
    alloc: Global,
    host: Host<S>,
    earlier: &mut Vec<Journals<Opening, Entry>>,
    boxes: Vec<Vec<HeldPrepared>>,
) -> Result<Host<S>, Stuck<S>>
    requires { Always }
    ensures restarted { IfOk result (λ again. (is : IsRestarted S.keeping host again)
        × HasBoxes is.begins (map (λ lots. lots.items) boxes.items)) }
    ensures earlier { OnOk result
        (earlier.new.items ≡ earlier.old.items ++ host.books.journals ∷ []) }
    ensures why { IfErr result (λ stuck. IsWhyNotRestarted S.keeping host
        (map (λ lots. lots.items) boxes.items) stuck.store stuck.fault) }
    ensures back { IfErr result
        (λ stuck. HandsBack S.keeping host true stuck.store stuck.fault) }
{
    if earlier.reserve(1).is_err() {
        return Err(Stuck::at(host, RunFault::Memory));
    }
    let Ok(specs) = host.declarations(alloc) else {
        return Err(Stuck::at(host, RunFault::Memory));
    };
    let Ended {
        store,
        journals,
        ..
    } = host.shut();
    earlier.push_reserved(journals);
    begin(alloc, store, specs, boxes)
}

/// These realms start from what a store has of them, with boxes for each row of each realm, by rising key.
fn begin<S: RowLog + Drop>(
    alloc: Global,
    store: S,
    specs: Vec<RealmSpec>,
    boxes: Vec<Vec<HeldPrepared>>,
) -> Result<Host<S>, Stuck<S>>
    requires { Always }
    ensures begun { IfOk result (λ host. (is : IsBegun S.keeping specs.items store host)
        × HasBoxes is (map (λ lots. lots.items) boxes.items)) }
    ensures why { IfErr result (λ stuck. IsWhyNotBegun S.keeping specs.items store
        (map (λ lots. lots.items) boxes.items) stuck.store stuck.fault) }
    ensures truth { IfErr result
        (λ stuck. S.keeping.is_true stuck.store → S.keeping.is_true store) }
    ensures counts { IfErr result (λ stuck. S.keeping.faults stuck.store
        ≡ counted (is_refusal stuck.fault) (S.keeping.faults store)) }
    ensures rows { (log : Log) → S.keeping.stands store log → IfErr result (λ stuck. (now : Log)
        × IsOnTheWay (names_of specs.items) log now × S.keeping.stands stuck.store now) }
{
    let mut recovering = match StoredCore::load(alloc, store, Core::new(alloc), specs) {
        Ok(recovering) => recovering,
        Err((fault, store)) => {
            return Err(Stuck {
                fault: RunFault::Load(fault),
                store,
            });
        }
    };
    if !recovering.adopt_all(boxes) {
        return Err(Stuck {
            fault: RunFault::Boxes,
            store: recovering.into_store(),
        });
    }
    match Host::open(alloc, recovering) {
        Ok(host) => Ok(host),
        Err((OpenFault::Memory, recovering)) => Err(Stuck {
            fault: RunFault::Memory,
            store: recovering.into_store(),
        }),
        Err((OpenFault::Unadopted, _)) => unreachable!(),
    }
}

/// A realm starts again from what is stored of it while the others run, with boxes for each of its rows, by rising key.
pub(crate) fn renew<S: RowLog + Drop>(
    alloc: Global,
    host: &mut Host<S>,
    realm: usize,
    boxes: Vec<HeldPrepared>,
) -> Result<(), RunFault>
    requires always { Always }
    requires rest { IsAtRest host.old }
    ensures renewed { (noted : List Noted) (earlier : List (List (List Journal))) → OnOk result
        (IsRenewed S.keeping (at_work host.old noted earlier) (at_work host.new noted earlier)
        realm boxes.items) }
    ensures why { IfErr result
        (IsWhyNotRenewed S.keeping host.old realm boxes.items host.new.stored.store) }
    ensures truth { OnErr result (S.keeping.is_true host.new.stored.store →
        S.keeping.is_true host.old.stored.store) }
    ensures counts { IfErr result (λ why. S.keeping.faults host.new.stored.store
        ≡ counted (is_refusal why) (S.keeping.faults host.old.stored.store)) }
    ensures rows { (log : Log) → S.keeping.stands host.old.stored.store log →
        OnErr result (S.keeping.stands host.new.stored.store log) }
{
    let mut recovery = match host.doubts(alloc, realm) {
        Ok(recovery) => recovery,
        Err(fault) => return Err(RunFault::Renew(fault)),
    };
    if !recovery.adopt_all(boxes) {
        return Err(RunFault::Boxes);
    }
    match host.renew(alloc, realm, recovery) {
        Ok(left) => {
            drop(left);
            Ok(())
        }
        Err((fault, _)) => Err(RunFault::Renew(fault)),
    }
}
