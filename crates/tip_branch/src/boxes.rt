//! What is done with a list of boxes.

ghost use Rattle.std.specs.Prelude.{◌≡◌, ◌+◌, ◌<◌, ◌≤◌, ◌↔◌, ◌∷◌, [], ◌++◌, IsTrue, IfOk, length, map, reverse, take, drop, vec_len, vec_capacity};
ghost use Rattle.tip_branch.specs.Standings.{let_go};
ghost use Rattle.tip_branch.specs.Lots.{badges_of, AreIn};
ghost use Rattle.tip_branch.specs.Members.{new_member, new_members, fresh_members, ready_members};

use crate::branch::{Badge, Branch, Phase};
use crate::member::Member;
use crate::roll::Roll;
use std::alloc::{AllocError, Global};

/// Aborts a branch where it is active.
fn release(branch: &mut Box<dyn Branch + Send>)
    ensures { standing branch.new ≡ let_go (standing branch.old) }
{
    if branch.phase() == Phase::Active {
        branch.abort();
    }
}

/// Aborts each active branch, and leaves the others as they are.
pub(crate) fn release_all(boxes: &mut [Box<dyn Branch + Send>])
    ensures { map standing boxes.new ≡ map let_go (map standing boxes.old) }
{
    for branch in boxes.iter_mut() {
        release(branch);
    }
}

fn is_in(branch: &Box<dyn Branch + Send>, phase: Phase) -> bool
    ensures { IsTrue result ↔ ((standing branch.now).phase ≡ phase) }
{
    branch.phase() == phase
}

/// Whether all are in that phase.
pub(crate) fn are_all_in(boxes: &[Box<dyn Branch + Send>], phase: Phase) -> bool
    ensures { IsTrue result ↔ AreIn phase (map standing boxes.now) }
{
    for branch in boxes.iter() {
        if !is_in(branch, phase) {
            return false;
        }
    }
    true
}

fn member_for(number: u8, branch: &Box<dyn Branch + Send>) -> Member
    ensures { result ≡ new_member number (standing branch.now).badge (standing branch.now).phase }
{
    Member::new(number, badge_of(branch), branch.phase())
}

/// Notes these branches as the members of these numbers.
pub(crate) fn enrol(numbers: &[u8], boxes: &[Box<dyn Branch + Send>], roll: Roll) -> Roll
    requires counted { length numbers.now ≡ length boxes.now }
    requires few { length boxes.now ≤ 8 }
    requires nobody { roll ≡ [] }
    ensures { result ≡ new_members numbers.now (map standing boxes.now) }
{
    let mut roll = roll;
    for i in 0..boxes.len() {
        roll.push(member_for(numbers[i], &boxes[i]));
    }
    roll
}

fn badge_of(branch: &Box<dyn Branch + Send>) -> Badge
    ensures { result ≡ (standing branch.now).badge }
{
    Badge {
        plan: branch.plan(),
        mark: branch.mark(),
    }
}

/// What these branches are known by, in order.
pub(crate) fn read_badges(
    alloc: Global,
    boxes: &[Box<dyn Branch + Send>],
) -> Result<Vec<Badge>, AllocError>
    ensures { IfOk result (λ known. known.items ≡ badges_of (map standing boxes.now)) }
{
    let mut known = Vec::with_capacity(alloc, boxes.len())?;
    for branch in boxes.iter() {
        known.push(badge_of(branch))?;
    }
    Ok(known)
}

/// Notes ready branches that are known so as the members of these numbers.
pub(crate) fn enrol_ready(numbers: &[u8], known: &[Badge], roll: Roll) -> Roll
    requires counted { length numbers.now ≡ length known.now }
    requires few { length known.now ≤ 8 }
    requires nobody { roll ≡ [] }
    ensures { result ≡ ready_members numbers.now known.now }
{
    let mut roll = roll;
    for i in 0..known.len() {
        roll.push(Member::new(numbers[i], known[i], Phase::Ready));
    }
    roll
}

/// Takes the first boxes, which stand last, into room that is there, and notes them as members of a
/// new transaction.
pub(crate) fn take_first(
    count: u8,
    from: &mut Vec<Box<dyn Branch + Send>>,
    known: &mut Vec<Badge>,
    into: &mut Vec<Box<dyn Branch + Send>>,
    roll: Roll,
) -> Roll
    requires counted { vec_len from.old ≡ vec_len known.old }
    requires enough { count ≤ vec_len known.old }
    requires few { count ≤ 8 }
    requires empty { vec_len into.old ≡ 0 }
    requires room { count ≤ vec_capacity into.old }
    requires nobody { roll ≡ [] }
    ensures counted { length result ≡ vec_len into.new }
    ensures counted_left { vec_len from.new ≡ vec_len known.new }
    ensures noted { result ≡ fresh_members 1 (take count (reverse known.old.items)) }
    ensures known_left { reverse known.new.items ≡ drop count (reverse known.old.items) }
    ensures taken { into.new.items ≡ take count (reverse from.old.items) }
    ensures left { reverse from.new.items ≡ drop count (reverse from.old.items) }
{
    let mut roll = roll;
    for i in 0..count {
        let (Some(branch), Some(badge)) = (from.pop(), known.pop()) else {
            unreachable!()
        };
        put(into, branch);
        roll.push(Member::new(i + 1, badge, Phase::Active));
    }
    roll
}

/// Puts an item into room that is there.
fn put<T: Drop>(items: &mut Vec<T>, item: T)
    requires { vec_len items.old < vec_capacity items.old }
    ensures added { items.new.items ≡ items.old.items ++ item ∷ [] }
    ensures len { vec_len items.new ≡ vec_len items.old + 1 }
    ensures room { vec_capacity items.old ≤ vec_capacity items.new }
{
    match items.push(item) {
        Ok(()) => (),
        Err(_) => unreachable!(),
    }
}
