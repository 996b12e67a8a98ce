//! Boxes that no transaction has, beside what each is known by.

ghost use Rattle.std.specs.Prelude.{◌≡◌, ◌≤◌, ◌==◌, [], IfOk, IfErr, length, map, reverse, take, drop, vec_len, vec_capacity};
ghost use Rattle.tip_branch.specs.Always.{Always};
ghost use Rattle.tip_branch.specs.Members.{fresh_members, ready_members};

use crate::boxes;
use crate::branch::{Badge, Branch, Phase};
use crate::roll::Roll;
use std::alloc::{AllocError, AllocFailed, Global};

/// Branches that are all in one phase, in order.
///
/// It has no model, so that clauses see the boxes themselves, and each function says what becomes of
/// them: no box is told anything, exchanged or lost in a lot.
#[derive(Drop)]
pub struct Lot {
    phase: Phase,
    /// The last box comes first, so that the first ones are taken without moving the rest.
    boxes: Vec<Box<dyn Branch + Send>>,
    known: Vec<Badge>,
    ghost counted: { vec_len boxes ≡ vec_len known },
}

impl Lot {
    ghost use Rattle.tip_branch.specs.Lots.{badges, badges_of, boxes_in};

    /// These boxes, which are in that phase, with what each is known by, which it reads.
    /// Without memory they come back.
    pub(crate) fn of(
        alloc: Global,
        phase: Phase,
        boxes: Vec<Box<dyn Branch + Send>>,
    ) -> Result<Lot, AllocFailed<Vec<Box<dyn Branch + Send>>>>
        ensures phase { IfOk result (λ lot. lot.phase ≡ phase) }
        ensures same { IfOk result (λ lot. boxes_in lot ≡ boxes.items) }
        ensures known { IfOk result (λ lot. badges lot ≡ badges_of (map standing boxes.items)) }
        ensures back { IfErr result (λ fault. fault.value ≡ boxes) }
    {
        match boxes::read_badges(alloc, &boxes) {
            Ok(known) => Ok(Lot {
                phase,
                boxes: reversed(boxes),
                known: reversed(known),
            }),
            Err(AllocError) => Err(AllocFailed { value: boxes }),
        }
    }

    /// No boxes, which takes no memory.
    pub(crate) fn empty(alloc: Global, phase: Phase) -> Lot
        ensures phase { result.phase ≡ phase }
        ensures none { boxes_in result ≡ [] }
        ensures known { badges result ≡ [] }
    {
        Lot {
            phase,
            boxes: Vec::new(alloc),
            known: Vec::new(alloc),
        }
    }

    /// How many boxes there are.
    pub fn len(&self) -> usize
        ensures { result ≡ length (badges self.now) }
    {
        self.known.len()
    }

    pub fn is_empty(&self) -> bool
        ensures { result ≡ (length (badges self.now) == 0) }
    {
        self.known.is_empty()
    }

    /// What each box is known by, copied.
    pub(crate) fn known(&self, alloc: Global) -> Result<Vec<Badge>, AllocError>
        ensures { IfOk result (λ known. known.items ≡ badges self.now) }
    {
        let mut known = Vec::new(alloc);
        known.extend_from_slice(&self.known)?;
        Ok(reversed(known))
    }

    /// Takes the first boxes into room that is there, and notes them as members of a new transaction.
    pub(crate) fn take_first(
        &mut self,
        count: u8,
        into: &mut Vec<Box<dyn Branch + Send>>,
        roll: Roll,
    ) -> Roll
        requires enough { count ≤ length (badges self.old) }
        requires few { count ≤ 8 }
        requires empty { vec_len into.old ≡ 0 }
        requires room { count ≤ vec_capacity into.old }
        requires nobody { roll ≡ [] }
        ensures noted { result ≡ fresh_members 1 (take count (badges self.old)) }
        ensures taken { into.new.items ≡ take count (boxes_in self.old) }
        ensures counted { length result ≡ vec_len into.new }
        ensures left { boxes_in self.new ≡ drop count (boxes_in self.old) }
        ensures known { badges self.new ≡ drop count (badges self.old) }
        ensures phase { self.new.phase ≡ self.old.phase }
    {
        boxes::take_first(count, &mut self.boxes, &mut self.known, into, roll)
    }

    /// Gives all boxes, and notes them as the ready members of these numbers.
    pub(crate) fn take_all(self, numbers: &[u8], roll: Roll) -> (Roll, Vec<Box<dyn Branch + Send>>)
        requires counted { length numbers.now ≡ length (badges self) }
        requires few { length numbers.now ≤ 8 }
        requires nobody { roll ≡ [] }
        ensures noted { result.0 ≡ ready_members numbers.now (badges self) }
        ensures taken { result.1.items ≡ boxes_in self }
    {
        let Lot {
            phase: _,
            boxes,
            known,
        } = self;
        let roll = boxes::enrol_ready(numbers, &reversed(known), roll);
        (roll, reversed(boxes))
    }

    /// The boxes handed back, in order.
    pub fn into_boxes(self) -> Vec<Box<dyn Branch + Send>>
        requires { Always }
        ensures { result.items ≡ boxes_in self }
    {
        let Lot {
            phase: _,
            boxes,
            known: _,
        } = self;
        reversed(boxes)
    }
}

fn reversed<T: Drop>(mut items: Vec<T>) -> Vec<T>
    ensures { result.items ≡ reverse items.items }
{
    items.reverse();
    items
}
