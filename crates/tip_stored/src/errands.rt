//! Errands of parties that are out.
ghost use Rattle.std.specs.Prelude.{◌≡◌, true};
ghost use Rattle.tip_agreement.specs.Truth.{is_uncalled};
ghost use Rattle.tip_branch.specs.Always.{Always};
ghost use Rattle.tip_machine.specs.Returns.{Back, can_answer, event_of};
ghost use Rattle.tip_stored.specs.Errands.{goes_uncalled, was_done};

use std::marker::Model;
use tip_branch::{Errand, HeldParty};
use tip_machine::Event;

/// A party that is out for its errand: none of its branches was called since it was given. Dropped, it is lost: its active branches
/// are rolled back.
#[derive(Drop)]
pub struct PartyOut {
    party: HeldParty,
}

impl Model for PartyOut {
    ghost use Rattle.std.specs.Prelude.{◌≡◌, true};
    ghost use Rattle.tip_agreement.specs.Truth.{is_uncalled};
    ghost use Rattle.tip_branch.specs.Notes.{PartyNotes};

    ghost Value = { PartyNotes };

    ghost view = { λ p. p.party };

    ghost invariant = { λ p. is_uncalled p.party ≡ true };
}

impl PartyOut {
    /// The party that goes out by an event, if one does.
    pub fn of(work: Option<HeldParty>) -> Option<PartyOut>
        requires always { Always }
        requires uncalled { goes_uncalled work ≡ true }
        ensures { result ≡ work }
    {
        let party = work?;
        Some(PartyOut { party })
    }

    /// The party, to look at.
    pub fn party(&self) -> &HeldParty
        ensures { result.now ≡ self.now }
    {
        &self.party
    }

    /// Does the errand: its branches are asked, or told, and the party comes back as an event. This calls the branches, and is called
    /// where nothing waits for the realms.
    pub fn done(self) -> Event
        requires { Always }
        ensures { (back : Back) × (can_answer self.errand back self.members ≡ true)
            × (was_done self.errand back ≡ true) × (result ≡ event_of self back) }
    {
        done(self.party)
    }
}

/// The errand of a party of which nobody was called yet is done.
#[tactic(auto, using(crate::proofs::Answering::answering))]
fn done(work: HeldParty) -> Event
    requires always { Always }
    requires uncalled { is_uncalled work ≡ true }
    ensures { (back : Back) × (can_answer work.errand back work.members ≡ true)
        × (was_done work.errand back ≡ true) × (result ≡ event_of work back) }
{
    let mut party = work.into_party();
    match party.errand() {
        Errand::Vote => {
            party.vote_all();
            Event::Voted(HeldParty::of(party))
        }
        Errand::Commit | Errand::Abort => {
            party.settle();
            Event::Settled(HeldParty::of(party))
        }
        Errand::Idle => Event::Settled(HeldParty::of(party)),
    }
}
