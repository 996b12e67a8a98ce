//! A party as plain data, for all that lies above this crate.
//!
//! A clause cannot see into a box where a type alone is known, as behind a lock. So what is kept in
//! tables, events and answers is a party as what is noted of it, and boxes as the list of their plans.

ghost use Rattle.std.specs.Prelude.{◌≡◌};
ghost use Rattle.tip_branch.specs.Always.{Always};

use crate::member::Errand;
use crate::party::Party;
use std::marker::Model;

/// A party, seen as what is noted of it. One that is dropped is spent.
#[derive(Drop)]
pub struct HeldParty {
    party: Party,
}

impl Model for HeldParty {
    ghost use Rattle.tip_branch.specs.Notes.{PartyNotes};

    ghost Value = { PartyNotes };

    ghost use Rattle.tip_branch.specs.Parties.{noted};

    ghost view = { λ h. noted h.party };
}

impl HeldParty {
    ghost use Rattle.tip_branch.specs.Notes.{given};
    ghost use Rattle.tip_branch.specs.Parties.{noted};

    pub fn of(party: Party) -> HeldParty
        requires { Always }
        ensures { result ≡ noted party }
    {
        HeldParty { party }
    }

    /// The party that is held, to look at.
    pub fn party(&self) -> &Party
        ensures { noted result.now ≡ self.now }
    {
        &self.party
    }

    pub fn give(&mut self, errand: Errand)
        requires { Always }
        ensures { self.new ≡ given self.old errand }
    {
        self.party.give(errand);
    }

    pub fn into_party(self) -> Party
        requires { Always }
        ensures { noted result ≡ self }
    {
        let HeldParty { party } = self;
        party
    }
}
