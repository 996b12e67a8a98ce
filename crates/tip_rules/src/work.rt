//! What an event has done so far: the tables of its realm, and the answer in the making.
ghost use Rattle.std.specs.Prelude.{◌≡◌, ◌≢◌, ◌↔◌, ℕ, ◌+◌, ◌<◌, ◌≤◌, [], ◌∷◌, ◌++◌, length, map, None, Some, IfSome, IsSome, is_some};
ghost use Rattle.std.specs.List.{find, list_any};
ghost use Rattle.tip_txn.specs.Parts.{acknowledged, answer_at, answered, changed_at, named};
ghost use Rattle.tip_table.specs.Kept.{StandsAt, item_at};
ghost use Rattle.tip_machine.specs.Changes.{alter, end, tell};
ghost use Rattle.tip_machine.specs.Connections.{is_on};
ghost use Rattle.tip_branch.specs.Notes.{PartyNotes};
ghost use Rattle.tip_machine.specs.Proceeding.{abort, dispatch, enter, errand_in, give_out, let_go, release};
ghost use Rattle.tip_machine.specs.Reactions.{react};
ghost use Rattle.tip_rules.specs.Reacting.{reaction_of};
ghost use Rattle.tip_machine.specs.States.{transaction_of};
ghost use Rattle.tip_machine.specs.Transactions.{has_ready, is_spent, noting, standing_at};
ghost use Rattle.tip_machine.specs.Types.{seen};
ghost use Rattle.tip_outlook.specs.Searches.{is_keyed};
ghost use Rattle.tip_rules.specs.Works.{Does, lines_for, MayDispatch, party_here, work_of};

use crate::making::Making;
use crate::reaction::{Progress, Reaction};
use std::mem;
use tip_branch::{Errand, HeldParty, Member};
use tip_line::Id;
use tip_machine::{Connection, Head, Item, Outcome, PartyPlace, Transaction};
use tip_outlook::{Endings, Keyed, OnKey, is_spent};
use tip_rows::Key;
use tip_table::{Linked, Table};
use tip_txn::{Ballot, Part, Phase, Txn};

/// What is declared and counted of each realm, the tables of the one whose event is at hand, and the answer in the making.
#[derive(Drop)]
pub struct Work<C: Linked = Connection, T: Linked = Transaction, M = Making> {
    pub heads: Vec<Head>,
    pub connections: Table<C>,
    pub transactions: Table<T>,
    /// The realm whose event is at hand.
    pub realm: usize,
    /// What became of the change of the stored rows that the event wants.
    pub outcome: Outcome,
    /// How the event's transaction goes on by that, if it does.
    pub endings: Endings,
    pub making: M,
}

impl Work<Connection, Transaction, Making> {
    /// This goes out on a connection.
    pub fn tell(&mut self, number: u32, item: Item)
        requires { 0 < self.old.making.free }
        ensures does { Does self.old self.new (tell number item (work_of self.old)) }
        ensures tables { self.new ≡ record self.old { making = self.new.making } }
    {
        self.making.tell(number, item);
    }

    /// Where the transaction of a key stands, if it is open.
    pub fn transaction(&self, key: Key) -> Option<usize>
        ensures none { (result ≡ None) ↔ (transaction_of key (work_of self.now).state ≡ None) }
        ensures some { IfSome result
            (λ place. StandsAt self.now.transactions self.now.realm (is_keyed key) place) }
    {
        self.transactions.find(self.realm, &Keyed { key })
    }

    /// The transaction of a key, which stands at this place.
    pub fn at(&self, key: Key, place: usize) -> &Transaction
        requires { StandsAt self.now.transactions self.now.realm (is_keyed key) place }
        ensures found { transaction_of key (work_of self.now).state ≡ Some (seen result.now) }
        ensures item { item_at self.now.transactions place ≡ Some result.now }
    {
        self.transactions.item(place)
    }

    /// The transaction of a key enters a phase.
    #[tactic(auto, using(crate::proofs::Works::writing))]
    pub fn enter(&mut self, key: Key, place: usize, phase: Phase)
        requires { StandsAt self.old.transactions self.old.realm (is_keyed key) place }
        ensures does { Does self.old self.new (enter phase key (work_of self.old)) }
        ensures stands { StandsAt self.new.transactions self.new.realm (is_keyed key) place }
    {
        let transaction = self.transactions.item_mut(place);
        transaction.txn.enter(phase);
    }

    /// The answer of a part is noted, where there is such a part.
    #[tactic(auto, using(crate::proofs::Works::writing))]
    pub(crate) fn note(&mut self, key: Key, place: usize, part: Part, answer: Ballot)
        requires { StandsAt self.old.transactions self.old.realm (is_keyed key) place }
        ensures does { Does self.old self.new
            (alter key (noting part (answered answer)) (work_of self.old)) }
        ensures stands { StandsAt self.new.transactions self.new.realm (is_keyed key) place }
    {
        let transaction = self.transactions.item_mut(place);
        answer_part(&mut transaction.txn, part, answer);
    }

    /// A part has acknowledged the commit, where there is such a part.
    #[tactic(auto, using(crate::proofs::Works::writing))]
    pub(crate) fn acknowledge(&mut self, key: Key, place: usize, part: Part)
        requires { StandsAt self.old.transactions self.old.realm (is_keyed key) place }
        ensures does { Does self.old self.new
            (alter key (noting part acknowledged) (work_of self.old)) }
        ensures stands { StandsAt self.new.transactions self.new.realm (is_keyed key) place }
    {
        let transaction = self.transactions.item_mut(place);
        acknowledge_part(&mut transaction.txn, part);
    }

    /// A part has the identifier that its subordinate gave, where there is such a part.
    #[tactic(auto, using(crate::proofs::Works::writing))]
    pub(crate) fn name_part(&mut self, key: Key, place: usize, part: Part, id: Id)
        requires { StandsAt self.old.transactions self.old.realm (is_keyed key) place }
        ensures does { Does self.old self.new
            (alter key (noting part (named id)) (work_of self.old)) }
        ensures stands { StandsAt self.new.transactions self.new.realm (is_keyed key) place }
    {
        let transaction = self.transactions.item_mut(place);
        give_name(&mut transaction.txn, part, id);
    }

    /// The transaction of a key is open no more.
    pub(crate) fn end(&mut self, key: Key, place: usize) -> Transaction
        requires { StandsAt self.old.transactions self.old.realm (is_keyed key) place }
        ensures taken { transaction_of key (work_of self.old).state ≡ Some (seen result) }
        ensures left { Does self.old self.new (end key (work_of self.old)) }
    {
        self.transactions.remove(place)
    }

    /// Each connection on the transaction reacts.
    pub(crate) fn react(&mut self, reaction: Reaction, key: Key)
        requires { lines_for key (work_of self.old).state ≤ self.old.making.free }
        ensures does { Does self.old self.new
            (react (reaction_of reaction) key (work_of self.old)) }
        ensures others { self.new
            ≡ record self.old { connections = self.new.connections; making = self.new.making } }
    {
        let progress = Progress { reaction, key };
        self.connections
            .visit(self.realm, &progress, &mut self.making);
    }

    /// Whether a connection is on the transaction of a key.
    #[tactic(auto, using(crate::proofs::Works::any_found))]
    fn is_reached(&self, key: Key) -> bool
        ensures { result ≡ list_any (is_on key) (work_of self.now).state.connections }
    {
        self.connections.find(self.realm, &OnKey { key }).is_some()
    }

    /// Takes the party, which is with the transaction, and says where it is then.
    #[tactic(auto, using(crate::proofs::Works::writing))]
    fn take_party(&mut self, key: Key, place: usize, left: PartyPlace) -> HeldParty
        requires stands { StandsAt self.old.transactions self.old.realm (is_keyed key) place }
        requires here { IsSome (party_here place self.old) }
        ensures party { party_here place self.old ≡ Some result }
        ensures left { Does self.old self.new (alter key (standing_at left) (work_of self.old)) }
        ensures stands { StandsAt self.new.transactions self.new.realm (is_keyed key) place }
    {
        let transaction = self.transactions.item_mut(place);
        match mem::replace(&mut transaction.place, left) {
            PartyPlace::Here(party) => party,
            PartyPlace::Out(_) | PartyPlace::Spent => unreachable!(),
        }
    }

    /// The party, which is with the transaction, goes out for an errand.
    pub(crate) fn give_out(&mut self, key: Key, place: usize, errand: Errand)
        requires stands { StandsAt self.old.transactions self.old.realm (is_keyed key) place }
        requires here { IsSome (party_here place self.old) }
        requires none { self.old.making.answer.work ≡ None }
        ensures does { (party : PartyNotes) → party_here place self.old ≡ Some party →
            Does self.old self.new (give_out errand party key (work_of self.old)) }
        ensures stands { StandsAt self.new.transactions self.new.realm (is_keyed key) place }
    {
        let mut party = self.take_party(key, place, PartyPlace::Out(errand));
        party.give(errand);
        self.making.send_out(party);
    }

    /// The party, which is with the transaction, is let go.
    fn let_go(&mut self, key: Key, place: usize)
        requires stands { StandsAt self.old.transactions self.old.realm (is_keyed key) place }
        requires here { IsSome (party_here place self.old) }
        requires none { self.old.making.answer.spent ≡ None }
        ensures does { (party : PartyNotes) → party_here place self.old ≡ Some party →
            Does self.old self.new (let_go party key (work_of self.old)) }
        ensures stands { StandsAt self.new.transactions self.new.realm (is_keyed key) place }
    {
        let party = self.take_party(key, place, PartyPlace::Spent);
        self.making.let_go(party);
    }

    /// A party that is here goes out to be told the outcome, where a branch waits for it; else it is let go.
    #[tactic(auto, using(crate::proofs::Proceeding::dispatching))]
    pub(crate) fn dispatch(&mut self, key: Key, place: usize)
        requires stands { StandsAt self.old.transactions self.old.realm (is_keyed key) place }
        requires none { MayDispatch key (work_of self.old) }
        ensures does { Does self.old self.new (dispatch key (work_of self.old)) }
        ensures stands { StandsAt self.new.transactions self.new.realm (is_keyed key) place }
    {
        let transaction = self.at(key, place);
        let errand = errand_in(transaction.txn.phase());
        match &transaction.place {
            PartyPlace::Here(party) if has_ready(party) => self.give_out(key, place, errand),
            PartyPlace::Here(_) => self.let_go(key, place),
            PartyPlace::Out(_) | PartyPlace::Spent => {}
        }
    }

    /// A transaction that is aborted is open until its party is spent and no connection is on it.
    #[tactic(auto, using(crate::proofs::Proceeding::releasing))]
    fn release(&mut self, key: Key, place: usize)
        requires { StandsAt self.old.transactions self.old.realm (is_keyed key) place }
        ensures { Does self.old self.new (release key (work_of self.old)) }
    {
        if is_spent(&self.at(key, place).place) && !self.is_reached(key) {
            let _ended = self.end(key, place);
        }
    }

    /// Abort: the superior is answered where it asked, each subordinate is told as soon as it can be, and the party.
    #[tactic(auto, using(crate::proofs::Proceeding::aborting))]
    pub fn abort(&mut self, key: Key, place: usize)
        requires stands { StandsAt self.old.transactions self.old.realm (is_keyed key) place }
        requires lines { lines_for key (work_of self.old).state ≤ self.old.making.free }
        requires none { MayDispatch key (work_of self.old) }
        ensures { Does self.old self.new (abort key (work_of self.old)) }
    {
        self.enter(key, place, Phase::Aborted);
        self.react(Reaction::Aborts, key);
        self.dispatch(key, place);
        self.release(key, place);
    }
}

/// What a party is told in this phase.
fn errand_in(phase: Phase) -> Errand
    ensures { result ≡ errand_in phase }
{
    match phase {
        Phase::Committed => Errand::Commit,
        Phase::Active | Phase::Asking | Phase::Prepared | Phase::Aborted => Errand::Abort,
    }
}

/// Whether a branch of the party waits for the outcome.
pub(crate) fn has_ready(party: &HeldParty) -> bool
    ensures { result ≡ has_ready party.now }
{
    party.party().members().iter().any(Member::is_ready)
}

/// A part gives its answer, where there is such a part.
fn answer_part(txn: &mut Txn, part: Part, answer: Ballot)
    ensures { txn.new ≡ record txn.old { parts = changed_at part (answered answer) txn.old.parts } }
{
    if txn.part(part).is_some() {
        txn.answer(part, answer);
    }
}

/// A part acknowledges the commit, where there is such a part.
fn acknowledge_part(txn: &mut Txn, part: Part)
    ensures { txn.new ≡ record txn.old { parts = changed_at part acknowledged txn.old.parts } }
{
    if txn.part(part).is_some() {
        txn.acked(part);
    }
}

/// A part gets an identifier, where there is such a part.
fn give_name(txn: &mut Txn, part: Part, id: Id)
    ensures { txn.new ≡ record txn.old { parts = changed_at part (named id) txn.old.parts } }
{
    if txn.part(part).is_some() {
        txn.named(part, id);
    }
}

/// Whether a part has answered.
pub(crate) fn has_answered(txn: &Txn, part: Part) -> bool
    ensures { result ≡ is_some (answer_at txn.now.parts part) }
{
    match txn.part(part) {
        Some(participant) => participant.answer.is_some(),
        None => false,
    }
}
