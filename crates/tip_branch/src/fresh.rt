//! Boxes that no transaction has yet.

ghost use Rattle.std.specs.Prelude.{◌≡◌, IfOk, IfErr, MatchResult, map};
ghost use Rattle.tip_branch.specs.Always.{Always};
ghost use Rattle.tip_branch.specs.Lots.{badges, badges_of, boxes_in, AreIn};
ghost use Rattle.tip_branch.specs.declared.branch.Phase.TheVariants.{Active};

use crate::boxes;
use crate::branch::{Branch, Phase};
use crate::lot::Lot;
use crate::wrong_phase::WrongPhase;
use std::alloc::{AllocFailed, Global};

/// Branches that were told nothing yet, in the order in which transactions take them.
#[derive(Drop)]
pub struct Fresh {
    boxes: Vec<Box<dyn Branch + Send>>,
}

impl Fresh {
    /// The boxes as fresh ones, where all are active.
    pub fn of(boxes: Vec<Box<dyn Branch + Send>>) -> Result<Fresh, WrongPhase>
        requires { Always }
        ensures active { MatchResult result (λ _. AreIn Active (map standing boxes.items))
            (λ _. ¬ AreIn Active (map standing boxes.items)) }
        ensures same { MatchResult result (λ fresh. fresh.boxes ≡ boxes)
            (λ fault. (fault.boxes ≡ boxes) × (fault.phase ≡ Active)) }
    {
        if boxes::are_all_in(&boxes, Phase::Active) {
            Ok(Fresh { boxes })
        } else {
            Err(WrongPhase {
                phase: Phase::Active,
                boxes,
            })
        }
    }

    /// The boxes beside what each is known by, which it reads. Without memory they come back.
    pub fn into_lot(self, alloc: Global) -> Result<Lot, AllocFailed<Fresh>>
        requires { Always }
        ensures phase { IfOk result (λ lot. lot.phase ≡ Active) }
        ensures same { IfOk result (λ lot. boxes_in lot ≡ self.boxes.items) }
        ensures known { IfOk result
            (λ lot. badges lot ≡ badges_of (map standing self.boxes.items)) }
        ensures back { IfErr result (λ fault. fault.value ≡ self) }
    {
        match Lot::of(alloc, Phase::Active, self.into_boxes()) {
            Ok(lot) => Ok(lot),
            Err(fault) => Err(AllocFailed {
                value: Fresh { boxes: fault.value },
            }),
        }
    }

    /// The boxes handed back.
    pub fn into_boxes(self) -> Vec<Box<dyn Branch + Send>>
        requires { Always }
        ensures { result ≡ self.boxes }
    {
        let Fresh { boxes } = self;
        boxes
    }
}
