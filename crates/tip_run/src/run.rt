//! A host is run by a list of moves.
ghost use Rattle.std.specs.Prelude.{◌≡◌, ◌++◌, ◌∷◌, [], List, map, IfErr, IfOk, OnErr};
ghost use Rattle.tip_branch.specs.Always.{Always};
ghost use Rattle.tip_run.specs.Halts.{HandsBack, HasHalted, IsWhyNotMade};
ghost use Rattle.tip_run.specs.Moves.{IsMade, at_work};
ghost use Rattle.tip_run.specs.Running.{IsAtRest};
ghost use Rattle.tip_run.specs.Runs.{HasRun, is_restart};

use crate::errands::{go, lose, step};
use crate::halt::{Halt, RunFault, Stuck};
use crate::moves::Move;
use crate::running::Running;
use crate::shown::Shown;
use crate::starting::{renew, restart};
use std::alloc::Global;
use tip_honest::Entry;
use tip_host::{Host, Opening};
use tip_journal::{Journals, Pass};
use tip_rows::RowLog;

impl<S: RowLog + Drop> Running<S> {
    /// ISOLATION AND AGREEMENT of a host that is run: all moves are made, in order, each as the host says it. However the moves of
    /// all realms are interleaved, each realm's journals are what one honest run of its own machine leaves, which leads to its state,
    /// its stored rows and its parties that are out, over restarts too; and the pass has these entries. At the first move that can't
    /// be made the run halts and says why, and the same holds of the moves before it.
    pub fn run(self, alloc: Global, moves: Vec<Move>) -> Result<(Running<S>, Vec<Shown>), Halt<S>>
        requires { Always }
        ensures ran { IfOk result
            (λ ran. HasRun S.keeping self moves.items ran.1.items ran.0) }
        ensures halted { IfErr result (HasHalted S.keeping self moves.items) }
    {
        let _ = &self.host;
        let mut running = self;
        let mut shown = Vec::new(alloc);
        for next in moves {
            running = match running.make(alloc, next, &mut shown) {
                Ok(after) => after,
                Err((stuck, pass)) => {
                    let Stuck { fault, store } = stuck;
                    return Err(Halt {
                        shown,
                        fault,
                        pass,
                        store,
                    });
                }
            };
        }
        Ok((running, shown))
    }

    /// One move; what it shows is put behind what was shown, at a place that was made before.
    fn make(
        self,
        alloc: Global,
        next: Move,
        shown: &mut Vec<Shown>,
    ) -> Result<Running<S>, (Stuck<S>, Pass<Entry>)>
        requires { Always }
        ensures made { IfOk result (λ after. (one : _)
            × (shown.new.items ≡ shown.old.items ++ one ∷ [])
            × IsMade S.keeping self next one after) }
        ensures why { IfErr result
            (λ halt. IsWhyNotMade S.keeping self next halt.0.store halt.0.fault) }
        ensures back { IfErr result
            (λ halt. HandsBack S.keeping self.host (is_restart next) halt.0.store
            halt.0.fault) }
        ensures pass { IfErr result (λ halt. halt.1.noted ≡ self.noted) }
        ensures same { OnErr result (shown.new.items ≡ shown.old.items) }
    {
        let Running {
            host,
            mut pass,
            mut earlier,
        } = self;
        if shown.reserve(1).is_err() {
            return Err((Stuck::at(host, RunFault::Memory), pass));
        }
        match made(alloc, host, &mut pass, &mut earlier, next) {
            Ok((host, one)) => {
                shown.push_reserved(one);
                Ok(Running {
                    host,
                    pass,
                    earlier,
                })
            }
            Err(stuck) => Err((stuck, pass)),
        }
    }
}

/// One move of a host, and what it shows.
fn made<S: RowLog + Drop>(
    alloc: Global,
    mut host: Host<S>,
    pass: &mut Pass<Entry>,
    earlier: &mut Vec<Journals<Opening, Entry>>,
    next: Move,
) -> Result<(Host<S>, Shown), Stuck<S>>
    requires always { Always }
    requires rest { IsAtRest host }
    ensures made { IfOk result (λ after. IsMade S.keeping
        (at_work host pass.old.noted earlier.old.items) next after.1
        (at_work after.0 pass.new.noted earlier.new.items)) }
    ensures why { IfErr result (λ stuck. IsWhyNotMade S.keeping
        (at_work host pass.old.noted earlier.old.items) next stuck.store stuck.fault) }
    ensures back { IfErr result
        (λ stuck. HandsBack S.keeping host (is_restart next) stuck.store stuck.fault) }
    ensures pass { OnErr result (pass.new.noted ≡ pass.old.noted) }
{
    match next {
        Move::Step(event) => match step(alloc, &mut host, pass, event) {
            Ok(shown) => Ok((host, shown)),
            Err(fault) => Err(Stuck::at(host, fault)),
        },
        Move::Go { realm } => match go(alloc, &mut host, pass, realm) {
            Ok(shown) => Ok((host, shown)),
            Err(fault) => Err(Stuck::at(host, fault)),
        },
        Move::Lose { realm } => match lose(alloc, &mut host, pass, realm) {
            Ok(shown) => Ok((host, shown)),
            Err(fault) => Err(Stuck::at(host, fault)),
        },
        Move::Renew { realm, boxes } => match renew(alloc, &mut host, realm, boxes) {
            Ok(()) => Ok((host, Shown::Started)),
            Err(fault) => Err(Stuck::at(host, fault)),
        },
        Move::Restart { boxes } => {
            let host = restart(alloc, host, earlier, boxes)?;
            Ok((host, Shown::Started))
        }
    }
}
