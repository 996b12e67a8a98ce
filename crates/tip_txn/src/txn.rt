//! A transaction: its phase, its parts and what they answered.
ghost use Rattle.std.specs.Prelude.{◌≡◌, ◌≢◌, ◌+◌, ◌-◌, ◌<◌, ◌≤◌, ◌↔◌, false, [], ◌∷◌, ◌++◌, drop, length, IsTrue, IsOk, OnOk, OnErr, IfOk, Some, None, is_some, slice_get};
ghost use Rattle.std.specs.List.{list_all, list_any};
ghost use Rattle.std.specs.Option.{option_copied};
ghost use Rattle.tip_txn.specs.Parts.{answers_of, answer_at, is_due, is_pair, is_enlisted, is_settled, changed_at, named, answered, acknowledged, enlisted};
ghost use Rattle.tip_txn.specs.Decisions.{Decides};
ghost use Rattle.tip_txn.specs.Transactions.{fresh, recovered, exists_in};
ghost use Rattle.tip_txn.specs.declared.answer.Phase.TheVariants.{Active, Asking};
ghost use Rattle.tip_txn.specs.declared.txn.EnlistFault.TheVariants.{NotActive, Twice};

use crate::answer::{Ballot, Decision, Phase};
use crate::part::{Part, Participant};
use crate::tally::Tally;
use std::alloc::{AllocError, Allocator, Global};
use std::marker::Model;
use thiserror::Error;
use tip_line::{Address, Id};

/// Why a part was not enlisted.
#[derive(Clone, Copy, Debug, PartialEq, Eq, Error)]
pub enum EnlistFault {
    #[error("the transaction is not active")]
    NotActive,
    #[error("the subordinate is a part already")]
    Twice,
}

/// One transaction. It knows no connection: whoever holds it says what its parts answered.
#[derive(Drop)]
pub struct Txn<A: Allocator = Global> {
    phase: Phase,
    local: Participant,
    others: Vec<Participant, A>,
    tally: Tally,
}

impl<A: Allocator> Model for Txn<A> {
    ghost use Rattle.std.specs.Prelude.{◌∷◌, ◌-◌, vec_len, vec_capacity};
    ghost use Rattle.tip_txn.specs.Tallies.{IsTally};
    ghost use Rattle.tip_txn.specs.Transactions.{Transaction};

    ghost Value = { Transaction };

    ghost view = { λ t. record {
      phase = t.phase;
      parts = t.local
          ∷ t.others.items;
      spare = vec_capacity t.others - vec_len t.others;
    } };

    ghost invariant = { λ t. IsTally t.tally (t.local ∷ t.others.items) };
}

impl<A: Allocator> Txn<A> {
    /// A transaction that has just begun, with the local party as its only part.
    pub fn new(alloc: A) -> Txn<A>
        ensures { result ≡ fresh }
    {
        Txn {
            phase: Phase::Active,
            local: unanswered(None, None),
            others: Vec::new(alloc),
            tally: Tally::new(),
        }
    }

    /// The transaction of a stored row: each party said yes, and no subordinate has acknowledged.
    pub fn of(alloc: A, phase: Phase, subordinates: &[(Address, Id)]) -> Result<Txn<A>, AllocError>
        ensures { IfOk result (λ txn. txn ≡ recovered phase subordinates.now) }
    {
        let mut others = Vec::with_capacity(alloc, subordinates.len())?;
        for (address, id) in subordinates {
            others.push_reserved(willing(Some(address.copy()?), Some(id.copy()?)));
        }
        Ok(Txn {
            phase,
            local: willing(None, None),
            others,
            tally: Tally::willing(subordinates.len() + 1),
        })
    }

    /// Makes room for one part more.
    pub fn reserve(&mut self) -> Result<(), AllocError>
        ensures ok { OnOk result (0 < self.new.spare) }
        ensures room_is_kept { self.old.spare ≤ self.new.spare }
        ensures has_room { 0 < self.old.spare → IsOk result }
        ensures same { self.new ≡ record self.old { spare = self.new.spare } }
        ensures err { OnErr result (self.new ≡ self.old) }
    {
        self.others.reserve(1)
    }

    /// Makes a subordinate the last part. It takes the room that `reserve` made.
    pub fn enlist(&mut self, address: Address, id: Option<Id>) -> Result<Part, EnlistFault>
        requires { 0 < self.old.spare }
        ensures not_active { (result ≡ Err NotActive) ↔ (self.old.phase ≢ Active) }
        ensures twice { (result ≡ Err Twice) ↔
            ((self.old.phase ≡ Active) × IsTrue (is_enlisted self.old.parts address id)) }
        ensures ok { OnOk result
            ((self.old.phase ≡ Active) × (is_enlisted self.old.parts address id ≡ false)) }
        ensures part { IfOk result (λ part. part ≡ length self.old.parts) }
        ensures enlisted { OnOk result (self.new ≡ record self.old {
          parts = self.old.parts
              ++ enlisted address id ∷ [];
          spare = self.old.spare - 1;
        }) }
        ensures err { OnErr result (self.new ≡ self.old) }
    {
        if self.phase != Phase::Active {
            return Err(EnlistFault::NotActive);
        }
        if let Some(id) = &id
            && self.is_enlisted(&address, id)
        {
            return Err(EnlistFault::Twice);
        }
        self.others.push_reserved(unanswered(Some(address), id));
        self.tally = self.tally.with(None);
        Ok(Part::at(self.others.len()))
    }

    /// Gives a part the identifier that its subordinate said.
    pub fn named(&mut self, part: Part, id: Id)
        requires { part < length self.old.parts }
        ensures { self.new ≡ record self.old { parts = changed_at part (named id) self.old.parts } }
    {
        match part.place() {
            0 => name(&mut self.local, id),
            place => name(&mut self.others[place - 1], id),
        }
    }

    /// Its parties are asked.
    pub fn ask(&mut self)
        ensures { self.new ≡ record self.old { phase = Phase.Asking } }
    {
        self.phase = Phase::Asking;
    }

    /// A part's answer, in place of an earlier one.
    pub fn answer(&mut self, part: Part, answer: Ballot)
        requires { part < length self.old.parts }
        ensures { self.new
            ≡ record self.old { parts = changed_at part (answered answer) self.old.parts } }
    {
        self.tally = self.tally.moved(self.answer_of(part), answer);
        match part.place() {
            0 => self.local.answer = Some(answer),
            place => self.others[place - 1].answer = Some(answer),
        }
    }

    /// Whether a part has answered.
    pub fn answered(&self, part: Part) -> bool
        requires { part < length self.now.parts }
        ensures { result ≡ is_some (answer_at self.now.parts part) }
    {
        self.answer_of(part).is_some()
    }

    /// What the answers so far decide.
    pub fn decide(&self) -> Decision
        ensures { Decides (answers_of self.now.parts) result }
    {
        self.tally.decide()
    }

    /// What they decide once the local party has given this answer.
    pub fn decide_with(&self, local: Ballot) -> Decision
        ensures { Decides (answers_of (changed_at 0 (answered local) self.now.parts)) result }
    {
        self.tally.moved(self.local.answer, local).decide()
    }

    /// Enters the phase that an outcome leads to.
    pub fn enter(&mut self, phase: Phase)
        ensures { self.new ≡ record self.old { phase = phase } }
    {
        self.phase = phase;
    }

    /// A part has acknowledged the commit.
    pub fn acked(&mut self, part: Part)
        requires { part < length self.old.parts }
        ensures { self.new
            ≡ record self.old { parts = changed_at part acknowledged self.old.parts } }
    {
        match part.place() {
            0 => self.local.acknowledged = true,
            place => self.others[place - 1].acknowledged = true,
        }
    }

    /// How far it has come.
    pub fn phase(&self) -> Phase
        ensures { result ≡ self.now.phase }
    {
        self.phase
    }

    /// What is kept of a part; None for no such part.
    pub fn part(&self, part: Part) -> Option<&Participant>
        ensures { option_copied result ≡ slice_get self.now.parts part }
    {
        match part.place() {
            0 => Some(&self.local),
            place => self.others.get(place - 1),
        }
    }

    /// Its subordinates, in the order enlisted: all parts but the local party.
    pub fn others(&self) -> &[Participant]
        ensures { result.now ≡ drop 1 self.now.parts }
    {
        &self.others
    }

    /// Whether a peer that asks for it is told that it exists.
    pub fn exists(&self) -> bool
        ensures { result ≡ exists_in self.now.phase }
    {
        self.phase != Phase::Aborted
    }

    /// Whether each subordinate that said yes has acknowledged the commit.
    pub fn is_acknowledged(&self) -> bool
        ensures { result ≡ list_all is_settled (drop 1 self.now.parts) }
    {
        are_settled(&self.others)
    }

    /// Whether the commit is still owed to the subordinate of this address and identifier.
    pub fn owes(&self, address: &Address, id: &Id) -> bool
        ensures { result ≡ list_any (is_due address.now id.now) (drop 1 self.now.parts) }
    {
        have_due(&self.others, address, id)
    }

    /// What a part has answered.
    fn answer_of(&self, part: Part) -> Option<Ballot>
        requires { part < length self.now.parts }
        ensures { answers_of self.now.parts part result }
    {
        match part.place() {
            0 => self.local.answer,
            place => self.others[place - 1].answer,
        }
    }

    /// Whether a part has this address and identifier.
    fn is_enlisted(&self, address: &Address, id: &Id) -> bool
        ensures { result ≡ is_enlisted self.now.parts address.now (Some id.now) }
    {
        is_pair(&self.local, address, id) || have_pair(&self.others, address, id)
    }
}

/// Gives a part an identifier.
fn name(participant: &mut Participant, id: Id)
    ensures { participant.new ≡ named id participant.old }
{
    participant.id = Some(id);
}

/// Whether each part that said yes has acknowledged the commit.
fn are_settled(parts: &[Participant]) -> bool
    ensures { result ≡ list_all is_settled parts.now }
{
    parts.iter().all(is_settled)
}

/// Whether a part has nothing to acknowledge any more.
fn is_settled(part: &Participant) -> bool
    ensures { result ≡ is_settled part.now }
{
    part.answer != Some(Ballot::Yes) || part.acknowledged
}

/// Whether one of the parts has this address and identifier, and has not acknowledged the commit.
fn have_due(parts: &[Participant], address: &Address, id: &Id) -> bool
    ensures { result ≡ list_any (is_due address.now id.now) parts.now }
{
    parts
        .iter()
        .any(|part| is_pair(part, address, id) && !is_settled(part))
}

/// Whether one of the parts has this address and identifier.
fn have_pair(parts: &[Participant], address: &Address, id: &Id) -> bool
    ensures { result ≡ list_any (is_pair address.now id.now) parts.now }
{
    parts.iter().any(|part| is_pair(part, address, id))
}

/// Whether a part has this address and identifier.
fn is_pair(participant: &Participant, address: &Address, id: &Id) -> bool
    ensures { result ≡ is_pair address.now id.now participant.now }
{
    match (&participant.address, &participant.id) {
        (Some(other), Some(name)) => other == address && name == id,
        _ => false,
    }
}

/// A part that has not answered.
fn unanswered(address: Option<Address>, id: Option<Id>) -> Participant
    ensures { result ≡ record { address = address; id = id; answer = None; acknowledged = false } }
{
    Participant {
        address,
        id,
        answer: None,
        acknowledged: false,
    }
}

/// A part that said yes.
fn willing(address: Option<Address>, id: Option<Id>) -> Participant
    ensures { result
        ≡ record { address = address; id = id; answer = Some Ballot.Yes; acknowledged = false } }
{
    Participant {
        address,
        id,
        answer: Some(Ballot::Yes),
        acknowledged: false,
    }
}
