//! The calls of an errand, member by member.
//!
//! No type can say that a box stands as its member's note says. So what is noted is held to the note:
//! to its phase, and to its plan's promise. Of a box that stands as noted, and there is no other,
//! this is the box's own answer, as the clauses `own` say.

ghost use Rattle.std.specs.Prelude.{◌≡◌, None, length, map};
ghost use Rattle.std.specs.List.{All};
ghost use Rattle.tip_branch.specs.Errands.{IsAsked, IsToldCommit, IsToldAbort, IsTold, IsCarriedOut};
ghost use Rattle.tip_branch.specs.Accounts.{StandsAs, IsCalled, Agrees, AreCalled};

use crate::branch::{Branch, Phase, Settled, Vote};
use crate::member::{Errand, Member};
use crate::roll::Roll;

/// Asks an active member.
fn ask(branch: &mut Box<dyn Branch + Send>, member: Member) -> Member
    requires { member.call ≡ None }
    ensures told { IsAsked member.standing.phase member result }
    ensures own { StandsAs member (standing branch.old) →
        IsCalled result.call (standing branch.old) (standing branch.new) }
    ensures stands { StandsAs member (standing branch.old) → StandsAs result (standing branch.new) }
{
    if !member.is_active() {
        return member;
    }
    let said = if branch.phase() == Phase::Active {
        branch.vote()
    } else {
        Vote::No
    };
    member.voting(member.standing.badge.plan.vote().unwrap_or(said))
}

/// Tells a ready member to commit.
fn commit(branch: &mut Box<dyn Branch + Send>, member: Member) -> Member
    requires { member.call ≡ None }
    ensures told { IsToldCommit member.standing.phase member result }
    ensures own { StandsAs member (standing branch.old) →
        IsCalled result.call (standing branch.old) (standing branch.new) }
    ensures stands { StandsAs member (standing branch.old) → StandsAs result (standing branch.new) }
{
    if !member.is_ready() {
        return member;
    }
    let said = if branch.phase() == Phase::Ready {
        branch.commit()
    } else {
        Settled::Later
    };
    member.committing(member.promised_answer().unwrap_or(said))
}

/// Tells a ready member to abort.
fn abort(branch: &mut Box<dyn Branch + Send>, member: Member) -> Member
    requires { member.call ≡ None }
    ensures told { IsToldAbort member.standing.phase member result }
    ensures own { StandsAs member (standing branch.old) →
        IsCalled result.call (standing branch.old) (standing branch.new) }
    ensures stands { StandsAs member (standing branch.old) → StandsAs result (standing branch.new) }
{
    if !member.is_ready() {
        return member;
    }
    if branch.phase() == Phase::Ready {
        branch.abort();
    }
    member.aborting()
}

/// Makes the errand's call on one member.
fn tell(errand: Errand, branch: &mut Box<dyn Branch + Send>, member: Member) -> Member
    requires { member.call ≡ None }
    ensures told { IsTold errand member result }
    ensures own { StandsAs member (standing branch.old) →
        IsCalled result.call (standing branch.old) (standing branch.new) }
    ensures stands { StandsAs member (standing branch.old) → StandsAs result (standing branch.new) }
{
    match errand {
        Errand::Idle => member,
        Errand::Vote => ask(branch, member),
        Errand::Commit => commit(branch, member),
        Errand::Abort => abort(branch, member),
    }
}

/// Makes the errand's call on the members in order, up to the first that says no.
pub(crate) fn tell_all(errand: Errand, boxes: &mut [Box<dyn Branch + Send>], roll: &mut Roll)
    requires counted { length boxes.old ≡ length roll.old }
    requires forgotten { All (λ m. m.call ≡ None) roll.old }
    ensures told { IsCarriedOut errand roll.old roll.new }
    ensures own { Agrees roll.old (map standing boxes.old) →
        AreCalled roll.new (map standing boxes.old) (map standing boxes.new) }
    ensures agrees { Agrees roll.old (map standing boxes.old) →
        Agrees roll.new (map standing boxes.new) }
{
    for i in 0..boxes.len() {
        let member = tell(errand, &mut boxes[i], roll.get(i));
        roll.set(i, member);
        if member.said_no() {
            return;
        }
    }
}
