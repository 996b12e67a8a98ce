//! One transaction, with the place of its party.

ghost use Rattle.std.specs.Prelude.{◌≡◌, Some, None};
ghost use Rattle.branch_trial.specs.Places.{sent_out, party_in};

use std::mem;
use tip_branch::{Errand, HeldParty};

/// Where the party of a transaction is.
#[derive(Drop)]
pub enum Place {
    Table(HeldParty),
    /// Out for its errand.
    Out(Errand),
    Spent,
}

/// A transaction.
#[derive(Drop)]
pub struct Transaction {
    pub number: u32,
    pub place: Place,
}

impl Transaction {
    /// Takes its party out for an errand, where the party is in the table.
    pub fn send_out(&mut self, errand: Errand) -> Option<HeldParty>
        ensures place { self.new ≡ record self.old { place = sent_out errand self.old.place } }
        ensures party { result ≡ party_in errand self.old.place }
    {
        match mem::replace(&mut self.place, Place::Out(errand)) {
            Place::Table(mut party) => {
                party.give(errand);
                Some(party)
            }
            Place::Out(before) => {
                self.place = Place::Out(before);
                None
            }
            Place::Spent => {
                self.place = Place::Spent;
                None
            }
        }
    }

    /// Puts its party back.
    pub fn take_back(&mut self, party: HeldParty)
        ensures { self.new ≡ record self.old { place = Place.Table party } }
    {
        self.place = Place::Table(party);
    }
}
