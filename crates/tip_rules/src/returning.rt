//! Parties that come back from their errands.
ghost use Rattle.std.specs.Prelude.{◌≡◌, ◌≤◌, ◌<◌, if◌then◌else◌, length, None, Some};
ghost use Rattle.std.specs.List.{list_any};
ghost use Rattle.tip_branch.specs.Votes.{ballot};
ghost use Rattle.tip_txn.specs.Parts.{answered, is_yes};
ghost use Rattle.tip_table.specs.Kept.{StandsAt};
ghost use Rattle.tip_machine.specs.Changes.{alter, refuse};
ghost use Rattle.tip_machine.specs.Proceeding.{dispatch, proceed};
ghost use Rattle.tip_machine.specs.Requests.{owner, resume, resume_in, settled, strange, voted};
ghost use Rattle.tip_machine.specs.States.{identified_by, transaction_of};
ghost use Rattle.tip_machine.specs.Types.{Transaction as ATransaction};
ghost use Rattle.tip_machine.specs.Steps.{chosen};
ghost use Rattle.tip_machine.specs.Transactions.{has_ready, is_committed, noting, party_answer, refuses, standing_at};
ghost use Rattle.tip_machine.specs.declared.transaction.PartyPlace.TheVariants.{Here, Spent};
ghost use Rattle.tip_machine.specs.declared.event.Event.TheVariants.{Settled as ASettled, Voted as AVote};
ghost use Rattle.tip_outlook.specs.Endings.{EndsBy};
ghost use Rattle.tip_outlook.specs.Searches.{is_keyed};
ghost use Rattle.tip_outlook.specs.Wanting.{back_at, foreseen};
ghost use Rattle.tip_rules.specs.Works.{ContinuesAs, Does, is_aborting, is_committing, is_voting, IsIdle, lines_for, lines_of, party_here, work_of};

use crate::making::Making;
use crate::outcome::is_done;
use crate::work::{Work, has_ready};
use std::mem;
use tip_branch::{Errand, HeldParty, Member};
use tip_line::{Id, Refusal};
use tip_machine::{Connection, PartyPlace, Transaction};
use tip_outlook::{is_yes, refuses};
use tip_rows::Key;
use tip_txn::{Ballot, Part, Phase};

impl Work<Connection, Transaction, Making> {
    /// A party comes back from a vote: it gives the answer of the local part.
    #[tactic(auto, using(crate::proofs::Coming::voting))]
    pub fn voted(&mut self, party: HeldParty)
        requires here { self.old.realm < length self.old.heads.items }
        requires lines { lines_of (owner party (work_of self.old).state) (work_of self.old).state
            ≤ self.old.making.free }
        requires none { IsIdle self.old.making.answer }
        requires next { EndsBy (foreseen (AVote party) (work_of self.old).state)
            self.old.endings }
        ensures { Does self.old self.new (chosen
            (voted (owner party (work_of self.old).state) party (work_of self.old))
            self.old.outcome) }
    {
        let Some((key, place)) = self.owner(&party) else {
            return self.meet(party);
        };
        if is_voting(&self.at(key, place).place) {
            self.take_vote(key, place, party);
        } else {
            self.meet(party);
        }
    }

    /// The party of a transaction has voted.
    #[tactic(auto, using(crate::proofs::Coming::taking))]
    fn take_vote(&mut self, key: Key, place: usize, party: HeldParty)
        requires stands { StandsAt self.old.transactions self.old.realm (is_keyed key) place }
        requires out { party_here place self.old ≡ None }
        requires lines { lines_for key (work_of self.old).state ≤ self.old.making.free }
        requires none { IsIdle self.old.making.answer }
        requires next { ContinuesAs (transaction_of key (work_of self.old).state)
            (λ transaction. noting 0 (answered (party_answer party))
            (standing_at (Here party) transaction)) self.old }
        ensures { Does self.old self.new (chosen (proceed key (alter key
            (noting 0 (answered (party_answer party)))
            (alter key (standing_at (Here party)) (work_of self.old)))) self.old.outcome) }
    {
        let answer = answer_of(&party);
        self.take_back(key, place, party);
        self.note(key, place, Part::local(), answer);
        self.proceed(key, place);
    }

    /// A party comes back that was told the outcome.
    #[tactic(auto, using(crate::proofs::Coming::settling))]
    pub fn settled(&mut self, party: HeldParty)
        requires here { self.old.realm < length self.old.heads.items }
        requires lines { lines_of (owner party (work_of self.old).state) (work_of self.old).state
            ≤ self.old.making.free }
        requires none { IsIdle self.old.making.answer }
        requires next { EndsBy (foreseen (ASettled party) (work_of self.old).state)
            self.old.endings }
        ensures { Does self.old self.new (chosen
            (settled (owner party (work_of self.old).state) party (work_of self.old))
            self.old.outcome) }
    {
        let Some((key, place)) = self.owner(&party) else {
            return self.meet(party);
        };
        if is_committing(&self.at(key, place).place) {
            self.take_committed(key, place, party);
        } else if is_aborting(&self.at(key, place).place) {
            self.take_aborted(key, place, party);
        } else {
            self.meet(party);
        }
    }

    /// The party was told to commit: it waits to be resumed where a branch asked for it; else it is let go.
    #[tactic(auto, using(crate::proofs::Coming::acknowledging))]
    fn take_committed(&mut self, key: Key, place: usize, party: HeldParty)
        requires stands { StandsAt self.old.transactions self.old.realm (is_keyed key) place }
        requires out { party_here place self.old ≡ None }
        requires lines { lines_for key (work_of self.old).state ≤ self.old.making.free }
        requires none { IsIdle self.old.making.answer }
        requires next { ContinuesAs (transaction_of key (work_of self.old).state)
            (standing_at (back_at party)) self.old }
        ensures { Does self.old self.new (chosen (proceed key (if has_ready party
            then alter key (standing_at (Here party)) (work_of self.old)
            else dispatch key
            (alter key (standing_at (Here party)) (work_of self.old)))) self.old.outcome) }
    {
        let waits = has_ready(&party);
        self.take_back(key, place, party);
        if waits {
            self.proceed(key, place);
        } else {
            self.dispatch(key, place);
            self.proceed(key, place);
        }
    }

    /// The party was told to abort.
    #[tactic(auto, using(crate::proofs::Coming::taking))]
    fn take_aborted(&mut self, key: Key, place: usize, party: HeldParty)
        requires stands { StandsAt self.old.transactions self.old.realm (is_keyed key) place }
        requires out { party_here place self.old ≡ None }
        requires lines { lines_for key (work_of self.old).state ≤ self.old.making.free }
        requires none { IsIdle self.old.making.answer }
        requires next { ContinuesAs (transaction_of key (work_of self.old).state)
            (standing_at (Here party)) self.old }
        ensures { Does self.old self.new (chosen
            (proceed key (alter key (standing_at (Here party)) (work_of self.old)))
            self.old.outcome) }
    {
        self.take_back(key, place, party);
        self.proceed(key, place);
    }

    /// The party is with its transaction again.
    #[tactic(auto, using(crate::proofs::Coming::back))]
    fn take_back(&mut self, key: Key, place: usize, party: HeldParty)
        requires stands { StandsAt self.old.transactions self.old.realm (is_keyed key) place }
        requires out { party_here place self.old ≡ None }
        ensures does { Does self.old self.new
            (alter key (standing_at (Here party)) (work_of self.old)) }
        ensures stands { StandsAt self.new.transactions self.new.realm (is_keyed key) place }
    {
        let transaction = self.transactions.item_mut(place);
        match mem::replace(&mut transaction.place, PartyPlace::Here(party)) {
            PartyPlace::Out(_) | PartyPlace::Spent => {}
            PartyPlace::Here(_) => unreachable!(),
        }
    }

    /// What is left of a committed transaction is tried again: its party, or the removal of its row.
    #[tactic(auto, using(crate::proofs::Coming::resuming))]
    pub fn resume(&mut self, id: &Id)
        requires here { self.old.realm < length self.old.heads.items }
        requires none { IsIdle self.old.making.answer }
        ensures { Does self.old self.new (chosen
            (resume (identified_by id.now (work_of self.old).state) (work_of self.old))
            self.old.outcome) }
    {
        let Some((key, place)) = self.identified(id) else {
            return self.refuse(Refusal::NotActive);
        };
        if is_committed(self.at(key, place).txn.phase()) {
            self.resume_committed(key, place);
        } else {
            self.refuse(Refusal::NotActive);
        }
    }

    /// What is left of this committed transaction is tried again: its party, or the removal of its row.
    #[tactic(auto, using(crate::proofs::Coming::resuming_there))]
    fn resume_committed(&mut self, key: Key, place: usize)
        requires stands { StandsAt self.old.transactions self.old.realm (is_keyed key) place }
        requires none { IsIdle self.old.making.answer }
        ensures { (transaction : ATransaction) →
            transaction_of key (work_of self.old).state ≡ Some transaction →
            Does self.old self.new (chosen
            (resume_in transaction.place transaction (work_of self.old)) self.old.outcome) }
    {
        match &self.at(key, place).place {
            PartyPlace::Here(_) => self.dispatch(key, place),
            PartyPlace::Out(_) => self.refuse(Refusal::Busy),
            PartyPlace::Spent => self.finish_if_done(key, place),
        }
    }

    /// One whose party is spent is forgotten, if all have acknowledged it.
    #[tactic(auto, using(crate::proofs::Coming::ending))]
    fn finish_if_done(&mut self, key: Key, place: usize)
        requires { StandsAt self.old.transactions self.old.realm (is_keyed key) place }
        ensures { (transaction : ATransaction) →
            transaction_of key (work_of self.old).state ≡ Some transaction →
            Does self.old self.new
            (chosen (resume_in Spent transaction (work_of self.old)) self.old.outcome) }
    {
        if is_done(self.at(key, place)) {
            self.finish(key, place);
        } else {
            self.refuse(Refusal::Busy);
        }
    }

    /// The event can't happen as things are.
    pub(crate) fn refuse(&mut self, why: Refusal)
        ensures { Does self.old self.new (refuse why (work_of self.old)) }
    {
        self.making.refuse(why);
    }

    /// A party that no transaction gave out for this is let go.
    fn meet(&mut self, party: HeldParty)
        requires { self.old.making.answer.spent ≡ None }
        ensures { Does self.old self.new
            (chosen (strange party (work_of self.old)) self.old.outcome) }
    {
        self.making.refuse(Refusal::Stranger);
        self.making.let_go(party);
    }
}

/// What a party answers that was asked: one that left a branch active says no.
#[tactic(auto, using(crate::proofs::Coming::answering))]
pub(crate) fn answer_of(party: &HeldParty) -> Ballot
    ensures { result ≡ party_answer party.now }
{
    let members = party.party().members();
    if refuse(members) {
        Ballot::No
    } else if agree(members) {
        Ballot::Yes
    } else {
        Ballot::ReadOnly
    }
}

/// Whether one of the branches said no.
fn refuse(members: &[Member]) -> bool
    ensures { result ≡ list_any (λ member. refuses (ballot member)) members.now }
{
    members.iter().any(|member| refuses(member.ballot()))
}

/// Whether one of the branches said yes.
fn agree(members: &[Member]) -> bool
    ensures { result ≡ list_any (λ member. is_yes (ballot member)) members.now }
{
    members.iter().any(|member| is_yes(member.ballot()))
}

/// Whether a party is out for its votes.
pub(crate) fn is_voting(place: &PartyPlace) -> bool
    ensures { result ≡ is_voting place.now }
{
    matches!(place, PartyPlace::Out(Errand::Vote))
}

/// Whether a party is out to be told to commit.
pub(crate) fn is_committing(place: &PartyPlace) -> bool
    ensures { result ≡ is_committing place.now }
{
    matches!(place, PartyPlace::Out(Errand::Commit))
}

/// Whether a party is out to be told to abort.
pub(crate) fn is_aborting(place: &PartyPlace) -> bool
    ensures { result ≡ is_aborting place.now }
{
    matches!(place, PartyPlace::Out(Errand::Abort))
}

/// Whether the outcome is to commit.
pub(crate) fn is_committed(phase: Phase) -> bool
    ensures { result ≡ is_committed phase }
{
    matches!(phase, Phase::Committed)
}
