//! A party as what is noted of it.
ghost use Rattle.std.specs.Prelude.{◌≡◌, ◌↔◌, IfOk, IsTrue};

use crate::held_party::HeldParty;
use crate::member::{Errand, Member};
use std::alloc::{AllocError, Global};
use std::marker::Model;
use tip_line::{Id, Realm};

/// What is noted of a party, without its boxes.
#[derive(Drop)]
pub struct PartyNote {
    realm: Realm,
    epoch: u32,
    id: Id,
    errand: Errand,
    members: Vec<Member>,
}

impl Model for PartyNote {
    ghost use Rattle.tip_branch.specs.Notes.{PartyNotes};

    ghost Value = { PartyNotes };

    ghost view = { λ p. record {
      realm = p.realm;
      epoch = p.epoch;
      id = p.id;
      errand = p.errand;
      members = p.members.items;
    } };
}

impl PartyNote {
    /// What is noted of this party, copied.
    pub fn of(alloc: Global, party: &HeldParty) -> Result<PartyNote, AllocError>
        ensures { IfOk result (λ note. note ≡ party.now) }
    {
        let party = party.party();
        Ok(PartyNote {
            realm: party.realm().copy()?,
            epoch: party.epoch(),
            id: party.id().copy()?,
            errand: party.errand(),
            members: Vec::from_slice(alloc, party.members())?,
        })
    }

    /// The realm of its transaction.
    pub fn realm(&self) -> &Realm
        ensures { result.now ≡ self.now.realm }
    {
        &self.realm
    }

    /// The epoch of the start that it belongs to.
    pub fn epoch(&self) -> u32
        ensures { result ≡ self.now.epoch }
    {
        self.epoch
    }

    /// What it was sent out for.
    pub fn errand(&self) -> Errand
        ensures { result ≡ self.now.errand }
    {
        self.errand
    }

    /// The identifier of its transaction.
    pub fn id(&self) -> &Id
        ensures { result.now ≡ self.now.id }
    {
        &self.id
    }

    /// What is noted of its branches, in order of their numbers.
    pub fn members(&self) -> &[Member]
        ensures { result.now ≡ self.now.members }
    {
        &self.members
    }

    /// Whether this is noted of the same party, in the same state.
    pub fn is(&self, other: &PartyNote) -> bool
        ensures { IsTrue result ↔ (self.now ≡ other.now) }
    {
        self.realm == other.realm
            && self.epoch == other.epoch
            && self.id == other.id
            && self.errand == other.errand
            && are_same(&self.members, &other.members)
    }
}

/// Whether these are the same.
fn are_same(one: &[Member], others: &[Member]) -> bool
    ensures { IsTrue result ↔ (one.now ≡ others.now) }
{
    one == others
}
