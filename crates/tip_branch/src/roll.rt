//! The members of one party in order, at most eight. They stand on the heap, so that a party is small where it is moved.

ghost use Rattle.std.specs.Prelude.{◌≡◌, ◌<◌, ◌+◌, ◌∷◌, ◌++◌, [], IfOk, length, map, slice_set, slice_index_or};
ghost use Rattle.tip_branch.specs.Members.{forgetting, member_of};

use crate::branch::{Badge, Phase, Plan};
use crate::member::Member;
use std::alloc::{AllocError, Global};
use std::marker::Model;

/// How many members a party may have.
pub(crate) const MOST_MEMBERS: usize = 8;

/// The members of a party in order.
#[derive(Drop)]
pub(crate) struct Roll {
    members: Box<[Member; MOST_MEMBERS]>,
    len: usize,
}

impl Model for Roll {
    ghost use Rattle.std.specs.Prelude.{◌≡◌, List, ◌≤◌, length, take};
    ghost use Rattle.tip_branch.specs.declared.member.Member.{Member};

    ghost Value = { List Member };

    ghost view = { λ r. take r.len r.members.value };

    ghost invariant = { λ r. (r.len ≤ 8) × (length r.members.value ≡ 8) };
}

impl Roll {
    /// No members, with room for all that a party may have.
    pub(crate) fn new(alloc: Global) -> Result<Roll, AllocError>
        ensures { IfOk result (λ roll. roll ≡ []) }
    {
        let nobody = Badge {
            plan: Plan::Open,
            mark: 0,
        };
        let members = [Member::new(0, nobody, Phase::Ended); MOST_MEMBERS];
        Ok(Roll {
            members: Box::new(alloc, members)?,
            len: 0,
        })
    }

    pub(crate) fn len(&self) -> usize
        ensures { result ≡ length self.now }
    {
        self.as_slice().len()
    }

    pub(crate) fn get(&self, index: usize) -> Member
        requires { index < length self.now }
        ensures { result ≡ slice_index_or self.now index result }
    {
        self.as_slice()[index]
    }

    pub(crate) fn set(&mut self, index: usize, member: Member)
        requires { index < length self.old }
        ensures { self.new ≡ slice_set self.old index member }
    {
        replace(&mut self.members, index, member);
    }

    pub(crate) fn push(&mut self, member: Member)
        requires { length self.old < 8 }
        ensures { self.new ≡ self.old ++ member ∷ [] }
    {
        replace(&mut self.members, self.len, member);
        self.len += 1;
    }

    /// Forgets the new calls.
    pub(crate) fn forget_calls(&mut self)
        ensures { self.new ≡ map forgetting self.old }
    {
        for i in 0..self.len() {
            self.set(i, self.get(i).forgetting());
        }
    }

    /// The member of this number.
    pub(crate) fn find(&self, number: u8) -> Option<Member>
        ensures { result ≡ member_of number self.now }
    {
        for member in self.as_slice() {
            if member.number == number {
                return Some(*member);
            }
        }
        None
    }

    pub(crate) fn as_slice(&self) -> &[Member]
        ensures { result.now ≡ self.now }
    {
        &self.members[..self.len]
    }
}

/// A member stands at this place.
fn replace(members: &mut [Member; MOST_MEMBERS], index: usize, member: Member)
    requires { index < 8 }
    ensures { members.new ≡ slice_set members.old index member }
{
    members[index] = member;
}
