//! Boxes of transactions that a stop of the process interrupted.

ghost use Rattle.std.specs.Prelude.{◌≡◌, IfOk, IfErr, MatchResult, map};
ghost use Rattle.tip_branch.specs.Always.{Always};
ghost use Rattle.tip_branch.specs.Lots.{badges, badges_of, boxes_in, AreIn};
ghost use Rattle.tip_branch.specs.declared.branch.Phase.TheVariants.{Ready};

use crate::boxes;
use crate::branch::{Branch, Phase};
use crate::lot::Lot;
use crate::wrong_phase::WrongPhase;
use std::alloc::{AllocFailed, Global};

/// Branches that wait for the outcome of one transaction, in the order of its members.
#[derive(Drop)]
pub struct Prepared {
    boxes: Vec<Box<dyn Branch + Send>>,
}

impl Prepared {
    /// The boxes as prepared ones, where all are ready.
    pub fn of(boxes: Vec<Box<dyn Branch + Send>>) -> Result<Prepared, WrongPhase>
        requires { Always }
        ensures ready { MatchResult result (λ _. AreIn Ready (map standing boxes.items))
            (λ _. ¬ AreIn Ready (map standing boxes.items)) }
        ensures same { MatchResult result (λ prepared. prepared.boxes ≡ boxes)
            (λ fault. (fault.boxes ≡ boxes) × (fault.phase ≡ Ready)) }
    {
        if boxes::are_all_in(&boxes, Phase::Ready) {
            Ok(Prepared { boxes })
        } else {
            Err(WrongPhase {
                phase: Phase::Ready,
                boxes,
            })
        }
    }

    /// The boxes beside what each is known by, which it reads. Without memory they come back.
    pub fn into_lot(self, alloc: Global) -> Result<Lot, AllocFailed<Prepared>>
        requires { Always }
        ensures phase { IfOk result (λ lot. lot.phase ≡ Ready) }
        ensures same { IfOk result (λ lot. boxes_in lot ≡ self.boxes.items) }
        ensures known { IfOk result
            (λ lot. badges lot ≡ badges_of (map standing self.boxes.items)) }
        ensures back { IfErr result (λ fault. fault.value ≡ self) }
    {
        match Lot::of(alloc, Phase::Ready, self.into_boxes()) {
            Ok(lot) => Ok(lot),
            Err(fault) => Err(AllocFailed {
                value: Prepared { boxes: fault.value },
            }),
        }
    }

    /// The boxes handed back.
    pub fn into_boxes(self) -> Vec<Box<dyn Branch + Send>>
        requires { Always }
        ensures { result ≡ self.boxes }
    {
        let Prepared { boxes } = self;
        boxes
    }
}
