//! What no clause says: dropped parties, and whose branches are told.
ghost use Rattle.tip_branch.specs.Always.{Always};

use counting_branch::{Counters, Probe};
use std::alloc::Global;
use std::sync::{Arc, Mutex};
use std::test::Fail;
use std::thread;
use tip_branch::{
    Badge, Branch, Errand, Fresh, HeldFresh, HeldParty, Member, NotesRoom, Party, PartyRoom, Phase,
    Plan, Settled, Vote, are_numbers,
};
use tip_line::{Id, Realm};

fn make_realm(alloc: Global) -> Result<Realm, Fail> {
    Ok(Realm::new(alloc, b"north")?)
}

fn make_id(alloc: Global) -> Result<Id, Fail> {
    Ok(Id::new(alloc, b"north-1-1-1")?)
}

#[test]
fn a_dropped_party_aborts_its_active_member_alone(rt: HostRuntime) -> Result<(), Fail> {
    let alloc = rt.alloc();
    let ready = Arc::new(alloc, Counters::new())?;
    let active = Arc::new(alloc, Counters::new())?;
    let mut boxes: Vec<Box<dyn Branch + Send>> = Vec::new(alloc);
    boxes.push(Box::new(alloc, Probe::new(Plan::Yes, 0, Phase::Ready, &ready)?)?)?;
    boxes.push(Box::new(alloc, Probe::new(Plan::Yes, 0, Phase::Active, &active)?)?)?;
    let numbers = vec![in alloc; 2u8, 5]?;
    assert_eq!(rt; numbers.len(), boxes.len());
    assert!(rt; are_numbers(&numbers));
    let notes = NotesRoom::new(alloc)?;
    let party = Party::new(
        notes,
        make_realm(alloc)?,
        7,
        make_id(alloc)?,
        numbers,
        boxes,
    );
    drop(party);
    assert_eq!(rt; ready.aborts(), 0);
    assert_eq!(rt; active.aborts(), 1);
    Ok(())
}

/// A party of these branches, numbered from 1.
fn make_party(alloc: Global, boxes: Vec<Box<dyn Branch + Send>>) -> Result<Party, Fail> {
    let fresh = Fresh::of(boxes)?;
    let mut held = HeldFresh::of(fresh.into_lot(alloc).map_err(|_| "no memory")?);
    let count = if held.len() <= 8 { held.len() as u8 } else { 8 };
    let room = PartyRoom::new(alloc, count)?;
    Ok(
        held.take_party(room, make_realm(alloc)?, 1, make_id(alloc)?)
            .into_party(),
    )
}

#[test]
fn a_party_crosses_threads_behind_a_lock(rt: HostRuntime) -> Result<(), Fail> {
    let alloc = rt.alloc();
    let counters = Arc::new(alloc, Counters::new())?;
    let mut boxes: Vec<Box<dyn Branch + Send>> = Vec::new(alloc);
    boxes.push(Box::new(alloc, Probe::new(Plan::Yes, 0, Phase::Active, &counters)?)?)?;
    let party = HeldParty::of(make_party(alloc, boxes)?);
    let shared = Arc::new(alloc, Mutex::new(Some(party)))?;
    let theirs = Arc::try_clone(&shared)?;
    let other = thread::spawn(&rt, move || {
        let party = theirs.lock(&rt).take();
        drop(party);
    })?;
    other.join(&rt);
    assert_eq!(rt; counters.aborts(), 1);
    assert!(rt; shared.lock(&rt).is_none());
    Ok(())
}

/// Three unlike branches, with their marks, and who counts for each.
const UNLIKE: [(Plan, u64); 3] = [(Plan::Yes, 71), (Plan::Late, 82), (Plan::Open, 93)];

fn make_unlike(
    alloc: Global,
    phase: Phase,
    counters: &mut Vec<Arc<Counters>>,
) -> Result<Vec<Box<dyn Branch + Send>>, Fail> {
    let mut boxes: Vec<Box<dyn Branch + Send>> = Vec::new(alloc);
    for (plan, mark) in UNLIKE {
        let own = Arc::new(alloc, Counters::new())?;
        boxes.push(Box::new(alloc, Probe::new(plan, mark, phase, &own)?)?)?;
        counters.push(own)?;
    }
    Ok(boxes)
}

/// What one of the unlike branches is known by.
fn badge_of((plan, mark): (Plan, u64)) -> Badge {
    Badge { plan, mark }
}

/// Whether each member is noted as one of the unlike branches, in their order.
fn are_noted(members: &[Member]) -> bool {
    members.iter().zip(UNLIKE).all(|(member, branch)| member.standing.badge == badge_of(branch))
}

/// Whether each has counted so many votes, commits and aborts.
fn have_counted(counters: &[Arc<Counters>], counted: (u64, u64, u64)) -> bool {
    counters.iter().all(|own| own.counted() == counted)
}

/// Whether a party of the unlike branches votes yes, and the late one among them asks for more time.
fn votes_and_waits(party: &mut Party) -> bool
    requires { Always }
{
    party.give(Errand::Vote);
    let vote = party.vote_all();
    party.give(Errand::Commit);
    vote == Vote::Yes && party.settle() == Settled::Later && party.phase_of(2) == Some(Phase::Ready)
}

#[test]
fn each_fresh_box_is_told_what_its_mark_is_noted_for(rt: HostRuntime) -> Result<(), Fail> {
    let alloc = rt.alloc();
    let mut counters = Vec::new(alloc);
    let mut party = make_party(alloc, make_unlike(alloc, Phase::Active, &mut counters)?)?;
    assert!(rt; are_noted(party.members()));
    assert!(rt; votes_and_waits(&mut party));
    assert!(rt; have_counted(&counters, (1, 1, 0)));
    assert!(rt; are_marked(&party.spend(), &[71, 82, 93]));
    assert!(rt; have_counted(&counters, (1, 1, 0)));
    Ok(())
}

/// A party takes the first box, and is dropped.
fn drop_first(alloc: Global, held: &mut HeldFresh) -> Result<(), Fail> {
    if held.is_empty() {
        return Err(Fail::from("no box is left"));
    }
    let room = PartyRoom::new(alloc, 1)?;
    drop(held.take_party(room, make_realm(alloc)?, 1, make_id(alloc)?));
    Ok(())
}

/// Whether these boxes have these marks, in their order.
fn are_marked(boxes: &[Box<dyn Branch + Send>], marks: &[u64]) -> bool {
    boxes.len() == marks.len()
        && boxes
            .iter()
            .zip(marks)
            .all(|(branch, mark)| branch.mark() == *mark)
}

#[test]
fn a_lot_that_is_let_go_tells_nobody(rt: HostRuntime) -> Result<(), Fail> {
    let alloc = rt.alloc();
    let mut counters = Vec::new(alloc);
    let fresh = Fresh::of(make_unlike(alloc, Phase::Active, &mut counters)?)?;
    let mut held = HeldFresh::of(fresh.into_lot(alloc).map_err(|_| "no memory")?);
    drop_first(alloc, &mut held)?;
    let boxes = held.into_lot().into_boxes();
    assert!(rt; are_marked(&boxes, &[82, 93]));
    for (own, aborts) in counters.iter().zip([1, 0, 0]) {
        assert_eq!(rt; own.counted(), (0, 0, aborts));
    }
    Ok(())
}
