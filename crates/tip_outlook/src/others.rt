//! The parts of a transaction, as they will be once something is noted of one of them.
ghost use Rattle.std.specs.Prelude.{◌≡◌, ◌==◌, ◌++◌, ◌∷◌, ◌-◌, ◌<◌, ◌≤◌, [], drop, take, length, if◌then◌else◌, map, IfOk, OnOk};
ghost use Rattle.std.specs.List.{list_all, list_any};
ghost use Rattle.std.specs.Option.{option_copied, option_to_list};
ghost use Rattle.tip_txn.specs.Parts.{changed_at, is_settled, is_yes};
ghost use Rattle.tip_machine.specs.Transactions.{decision, refuses};
ghost use Rattle.tip_outlook.specs.Deciding.{is_sought, says};
ghost use Rattle.tip_outlook.specs.Noting.{noted};
ghost use Rattle.tip_outlook.specs.Wanting.{pairs_of};

use crate::noting::Note;
use std::alloc::{AllocError, Global};
use std::marker::Model;
use tip_line::{Address, Id};
use tip_rows::Subordinates;
use tip_txn::{Ballot, Decision, Part, Participant, Txn};

/// What is looked for among answers.
#[derive(Clone, Copy)]
pub enum Sought {
    /// A no, or a part that was lost.
    Refusal,
    /// That an answer is missing.
    Nothing,
    Yes,
}

/// A part, once something is noted of it.
#[derive(Drop)]
struct Noted<'a> {
    participant: &'a Participant,
    note: &'a Note,
}

impl<'a> Model for Noted<'a> {
    ghost use Rattle.tip_txn.specs.declared.part.Participant.{Participant as APart};
    ghost use Rattle.tip_outlook.specs.Noting.{noted};

    ghost Value = { APart };

    ghost view = { λ n. noted n.note.now n.participant.now };
}

/// The subordinates: those before one of which something is noted, that one, and those behind it.
#[derive(Drop)]
pub struct Others<'a> {
    front: &'a [Participant],
    noted: Option<Noted<'a>>,
    back: &'a [Participant],
}

impl<'a> Model for Others<'a> {
    ghost use Rattle.std.specs.Prelude.{◌++◌, List};
    ghost use Rattle.std.specs.Option.{option_to_list};
    ghost use Rattle.tip_txn.specs.declared.part.Participant.{Participant as APart};

    ghost Value = { List APart };

    ghost view = { λ o. o.front.now ++ (option_to_list o.noted ++ o.back.now) };
}

impl Sought {
    /// Whether an answer is what is looked for.
    fn is(self, answer: Option<Ballot>) -> bool
        ensures { result ≡ is_sought self answer }
    {
        match self {
            Sought::Refusal => refuses(answer),
            Sought::Nothing => answer.is_none(),
            Sought::Yes => is_yes(answer),
        }
    }
}

impl<'a> Noted<'a> {
    /// Its answer.
    fn answer(&self) -> Option<Ballot>
        ensures { result ≡ self.now.answer }
    {
        self.note.answer(self.participant)
    }

    /// Whether it has nothing to acknowledge any more.
    fn is_settled(&self) -> bool
        ensures { result ≡ is_settled self.now }
    {
        !is_yes(self.answer()) || self.note.has_acknowledged(self.participant)
    }

    /// The identifier that it is known by.
    fn id(&self) -> Option<&Id>
        ensures { option_copied result ≡ self.now.id }
    {
        self.note.id(self.participant)
    }
}

impl<'a> Others<'a> {
    /// As they are.
    #[tactic(auto, using(crate::proofs::Subordinates::as_they_are))]
    pub fn of(txn: &'a Txn) -> Others<'a>
        ensures { result ≡ drop 1 txn.now.parts }
    {
        Others {
            front: txn.others(),
            noted: None,
            back: &[],
        }
    }

    /// Once this is noted of a part.
    #[tactic(auto, using(crate::proofs::Subordinates::noting))]
    pub fn noting(txn: &'a Txn, part: Part, note: &'a Note) -> Others<'a>
        ensures { result ≡ drop 1 (changed_at part (noted note.now) txn.now.parts) }
    {
        let place = part.place();
        if place == 0 {
            return Others::of(txn);
        }
        match txn.part(part) {
            Some(participant) => Others::split(txn.others(), place, participant, note),
            None => Others::of(txn),
        }
    }

    /// Once this is noted of the part at a place among all.
    fn split(
        others: &'a [Participant],
        place: usize,
        participant: &'a Participant,
        note: &'a Note,
    ) -> Others<'a>
        requires some { 0 < place }
        requires within { place ≤ length others.now }
        ensures { result ≡ take (place - 1) others.now
            ++ (noted note.now participant.now ∷ drop place others.now) }
    {
        let (front, _) = others.split_at(place - 1);
        let (_, back) = others.split_at(place);
        Others {
            front,
            noted: Some(Noted { participant, note }),
            back,
        }
    }

    /// Whether each that said yes has acknowledged the commit.
    #[tactic(auto, using(crate::proofs::Subordinates::each))]
    pub fn are_settled(&self) -> bool
        ensures { result ≡ list_all is_settled self.now }
    {
        are_settled(self.front) && is_settled_if_noted(&self.noted) && are_settled(self.back)
    }

    /// Whether one of them says what is looked for.
    #[tactic(auto, using(crate::proofs::Subordinates::some))]
    fn say(&self, sought: Sought) -> bool
        ensures { result ≡ list_any (says sought) self.now }
    {
        say(self.front, sought) || says_if_noted(&self.noted, sought) || say(self.back, sought)
    }

    /// What they decide together with the local party, which gave this answer.
    #[tactic(auto, using(crate::proofs::Subordinates::deciding))]
    fn decide(&self, local: Option<Ballot>) -> Decision
        ensures { result ≡ decision (local ∷ map (λ p. p.answer) self.now) }
    {
        if Sought::Refusal.is(local) || self.say(Sought::Refusal) {
            Decision::Abort
        } else if Sought::Nothing.is(local) || self.say(Sought::Nothing) {
            Decision::Wait
        } else if Sought::Yes.is(local) || self.say(Sought::Yes) {
            Decision::Commit
        } else {
            Decision::ReadOnly
        }
    }

    /// Those that said yes, of those that gave an identifier.
    #[tactic(auto, using(crate::proofs::Subordinates::pairing))]
    pub(crate) fn pairs(&self, alloc: Global) -> Result<Subordinates, AllocError>
        ensures { IfOk result (λ pairs. pairs ≡ pairs_of self.now) }
    {
        let mut pairs = Vec::new(alloc);
        add_pairs(&mut pairs, self.front)?;
        add_pair_if_noted(&mut pairs, &self.noted)?;
        add_pairs(&mut pairs, self.back)?;
        Ok(Subordinates::new(pairs))
    }
}

/// What the answers of a transaction decide, once this is noted of one of its parts.
#[tactic(auto, using(crate::proofs::Subordinates::deciding_noted))]
pub(crate) fn decide_noting(txn: &Txn, part: Part, note: &Note) -> Decision
    ensures { result
        ≡ decision (map (λ p. p.answer) (changed_at part (noted note.now) txn.now.parts)) }
{
    match txn.part(Part::local()) {
        Some(local) => Others::noting(txn, part, note).decide(local_answer(local, part, note)),
        None => Decision::ReadOnly,
    }
}

/// The answer of the local party then.
fn local_answer(local: &Participant, part: Part, note: &Note) -> Option<Ballot>
    ensures { result ≡ (if part == 0 then noted note.now local.now else local.now).answer }
{
    if part.place() == 0 {
        note.answer(local)
    } else {
        local.answer
    }
}

/// Whether each part that said yes has acknowledged the commit.
fn are_settled(parts: &[Participant]) -> bool
    ensures { result ≡ list_all is_settled parts.now }
{
    parts.iter().all(is_settled)
}

/// Whether a part has nothing to acknowledge any more.
fn is_settled(part: &Participant) -> bool
    ensures { result ≡ is_settled part.now }
{
    !is_yes(part.answer) || part.acknowledged
}

/// Whether the part of which something is noted, if there is one, has nothing to acknowledge any more.
fn is_settled_if_noted(noted: &Option<Noted>) -> bool
    ensures { result ≡ list_all is_settled (option_to_list noted.now) }
{
    match noted {
        Some(noted) => noted.is_settled(),
        None => true,
    }
}

/// Whether one of the parts says what is looked for.
fn say(parts: &[Participant], sought: Sought) -> bool
    ensures { result ≡ list_any (says sought) parts.now }
{
    parts.iter().any(|part| sought.is(part.answer))
}

/// Whether the part does of which something is noted, if there is one.
fn says_if_noted(noted: &Option<Noted>, sought: Sought) -> bool
    ensures { result ≡ list_any (says sought) (option_to_list noted.now) }
{
    match noted {
        Some(noted) => sought.is(noted.answer()),
        None => false,
    }
}

/// Adds the subordinates that said yes, of those that gave an identifier.
#[tactic(auto, using(crate::proofs::Subordinates::adding))]
fn add_pairs(pairs: &mut Vec<(Address, Id)>, parts: &[Participant]) -> Result<(), AllocError>
    ensures { OnOk result (pairs.new.items ≡ pairs.old.items ++ pairs_of parts.now) }
{
    for part in parts {
        add_pair(pairs, part)?;
    }
    Ok(())
}

/// Adds a part, if it said yes and gave an identifier.
fn add_pair(pairs: &mut Vec<(Address, Id)>, part: &Participant) -> Result<(), AllocError>
    ensures { OnOk result (pairs.new.items ≡ pairs.old.items ++ pairs_of (part.now ∷ [])) }
{
    if let (Some(address), Some(id)) = (&part.address, &part.id)
        && is_yes(part.answer)
    {
        pairs.push((address.copy()?, id.copy()?))?;
    }
    Ok(())
}

/// Adds the part of which something is noted, if there is one.
#[tactic(auto, using(crate::proofs::Subordinates::adding_one))]
fn add_pair_if_noted(
    pairs: &mut Vec<(Address, Id)>,
    noted: &Option<Noted>,
) -> Result<(), AllocError>
    ensures { OnOk result
        (pairs.new.items ≡ pairs.old.items ++ pairs_of (option_to_list noted.now)) }
{
    match noted {
        Some(noted) => add_noted(pairs, noted),
        None => Ok(()),
    }
}

/// Adds that part, if it said yes and gave an identifier.
#[tactic(auto, using(crate::proofs::Subordinates::adding_one))]
fn add_noted(pairs: &mut Vec<(Address, Id)>, noted: &Noted) -> Result<(), AllocError>
    ensures { OnOk result (pairs.new.items ≡ pairs.old.items ++ pairs_of (noted.now ∷ [])) }
{
    if let (Some(address), Some(id)) = (&noted.participant.address, noted.id())
        && is_yes(noted.answer())
    {
        pairs.push((address.copy()?, id.copy()?))?;
    }
    Ok(())
}

/// Whether an answer refuses.
pub fn refuses(answer: Option<Ballot>) -> bool
    ensures { result ≡ refuses answer }
{
    matches!(answer, Some(Ballot::No | Ballot::Lost))
}

/// Whether an answer is a yes.
pub fn is_yes(answer: Option<Ballot>) -> bool
    ensures { result ≡ is_yes answer }
{
    answer == Some(Ballot::Yes)
}
