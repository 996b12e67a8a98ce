//! How a transaction comes to its outcome (RFC 2371, section 13).
ghost use Rattle.std.specs.Prelude.{◌≡◌, ◌≤◌, Some};
ghost use Rattle.tip_table.specs.Kept.{StandsAt};
ghost use Rattle.tip_machine.specs.Changes.{end, on_key};
ghost use Rattle.tip_machine.specs.Proceeding.{ask, asked_for_votes, commit, finish, leave, owed_to_superior, proceed, promise};
ghost use Rattle.tip_machine.specs.Proceeding.{abort as aborted};
ghost use Rattle.tip_machine.specs.States.{transaction_of};
ghost use Rattle.tip_machine.specs.Steps.{chosen};
ghost use Rattle.tip_machine.specs.Transactions.{is_done};
ghost use Rattle.tip_machine.specs.Types.{seen, Transaction as ATransaction};
ghost use Rattle.tip_outlook.specs.Endings.{ended, ending_on};
ghost use Rattle.tip_outlook.specs.Searches.{is_keyed};
ghost use Rattle.tip_outlook.specs.Wanting.{asked};
ghost use Rattle.tip_rules.specs.Works.{ContinuesAs, Does, IsIdle, lines_for, MayDispatch, work_of};

use crate::making::Making;
use crate::reaction::Reaction;
use crate::work::Work;
use tip_branch::Errand;
use tip_line::CommandName;
use tip_machine::{Connection, Outcome, PartyPlace, Transaction};
use tip_outlook::{Ending, SuperiorOf, is_spent};
use tip_rows::Key;
use tip_txn::Phase;

impl Work<Connection, Transaction, Making> {
    /// What follows for the transaction of a key, after something was asked or answered, as it was decided before.
    #[tactic(auto, using(crate::proofs::Outcomes::proceeding))]
    pub(crate) fn proceed(&mut self, key: Key, place: usize)
        requires stands { StandsAt self.old.transactions self.old.realm (is_keyed key) place }
        requires lines { lines_for key (work_of self.old).state ≤ self.old.making.free }
        requires none { MayDispatch key (work_of self.old) }
        requires next { chosen (proceed key (work_of self.old)) self.old.outcome
            ≡ ended key (ending_on self.old.outcome self.old.endings) (work_of self.old) }
        ensures { Does self.old self.new
            (chosen (proceed key (work_of self.old)) self.old.outcome) }
    {
        self.follow(key, place, self.endings.on(self.outcome));
    }

    /// The transaction of a key goes on so.
    #[tactic(auto, using(crate::proofs::Outcomes::following))]
    fn follow(&mut self, key: Key, place: usize, ending: Ending)
        requires stands { StandsAt self.old.transactions self.old.realm (is_keyed key) place }
        requires lines { lines_for key (work_of self.old).state ≤ self.old.making.free }
        requires none { MayDispatch key (work_of self.old) }
        ensures { Does self.old self.new (ended key ending (work_of self.old)) }
    {
        match ending {
            Ending::Nothing => {}
            Ending::Ask => self.react(Reaction::Asks, key),
            Ending::Leave => self.leave(key, place),
            Ending::Promise => self.promise(key, place),
            Ending::Commit => self.commit(key, place),
            Ending::Abort => self.abort(key, place),
            Ending::Remind => self.react(Reaction::Commits, key),
            Ending::Finish => {
                self.react(Reaction::Commits, key);
                let _ended = self.end(key, place);
            }
        }
    }

    /// All parties are asked whether they can commit.
    #[tactic(auto, using(crate::proofs::Outcomes::asking))]
    pub fn ask(&mut self, key: Key, place: usize)
        requires stands { StandsAt self.old.transactions self.old.realm (is_keyed key) place }
        requires lines { lines_for key (work_of self.old).state ≤ self.old.making.free }
        requires none { IsIdle self.old.making.answer }
        requires next { ContinuesAs (transaction_of key (work_of self.old).state) asked self.old }
        ensures { (transaction : ATransaction) →
            transaction_of key (work_of self.old).state ≡ Some transaction →
            Does self.old self.new (chosen (ask transaction (work_of self.old)) self.old.outcome) }
    {
        self.enter(key, place, Phase::Asking);
        self.ask_party(key, place);
        self.proceed(key, place);
    }

    /// A party that is here goes out to vote.
    #[tactic(auto, using(crate::proofs::Outcomes::voting))]
    fn ask_party(&mut self, key: Key, place: usize)
        requires stands { StandsAt self.old.transactions self.old.realm (is_keyed key) place }
        requires none { MayDispatch key (work_of self.old) }
        ensures does { Does self.old self.new
            (on_key key (λ transaction. asked_for_votes transaction.place key) (work_of self.old)) }
        ensures stands { StandsAt self.new.transactions self.new.realm (is_keyed key) place }
    {
        match &self.at(key, place).place {
            PartyPlace::Here(_) => self.give_out(key, place, Errand::Vote),
            PartyPlace::Out(_) | PartyPlace::Spent => {}
        }
    }

    /// The command that the superior of a transaction waits for.
    #[tactic(auto, using(crate::proofs::Outcomes::owed))]
    pub(crate) fn owed_to_superior(&self, key: Key) -> Option<CommandName>
        ensures { result ≡ owed_to_superior key (work_of self.now).state }
    {
        let place = self.connections.find(self.realm, &SuperiorOf { key })?;
        self.connections.item(place).owed
    }

    /// The row in doubt is stored: we promise to do as we are told.
    #[tactic(auto, using(crate::proofs::Outcomes::promising))]
    fn promise(&mut self, key: Key, place: usize)
        requires stands { StandsAt self.old.transactions self.old.realm (is_keyed key) place }
        requires lines { lines_for key (work_of self.old).state ≤ self.old.making.free }
        ensures { Does self.old self.new (promise key (work_of self.old)) }
    {
        self.enter(key, place, Phase::Prepared);
        self.react(Reaction::Promises, key);
    }

    /// The committed row is stored: the superior is answered, and who can be reached is told.
    #[tactic(auto, using(crate::proofs::Outcomes::committing))]
    pub fn commit(&mut self, key: Key, place: usize)
        requires stands { StandsAt self.old.transactions self.old.realm (is_keyed key) place }
        requires lines { lines_for key (work_of self.old).state ≤ self.old.making.free }
        requires none { MayDispatch key (work_of self.old) }
        ensures { Does self.old self.new (commit key (work_of self.old)) }
    {
        self.enter(key, place, Phase::Committed);
        self.react(Reaction::Commits, key);
        self.dispatch(key, place);
    }

    /// Nobody has anything to commit: all leave, and nothing is stored.
    #[tactic(auto, using(crate::proofs::Outcomes::leaving))]
    fn leave(&mut self, key: Key, place: usize)
        requires stands { StandsAt self.old.transactions self.old.realm (is_keyed key) place }
        requires lines { lines_for key (work_of self.old).state ≤ self.old.making.free }
        requires none { MayDispatch key (work_of self.old) }
        ensures { Does self.old self.new (leave key (work_of self.old)) }
    {
        self.react(Reaction::NeedsNothing, key);
        self.dispatch(key, place);
        let _ended = self.end(key, place);
    }

    /// A committed transaction is forgotten once all have acknowledged it, and its row is gone.
    #[tactic(auto, using(crate::proofs::Outcomes::finishing))]
    pub fn finish(&mut self, key: Key, place: usize)
        requires { StandsAt self.old.transactions self.old.realm (is_keyed key) place }
        ensures { (transaction : ATransaction) →
            transaction_of key (work_of self.old).state ≡ Some transaction →
            Does self.old self.new
            (chosen (finish transaction (work_of self.old)) self.old.outcome) }
    {
        if !is_done(self.at(key, place)) {
            return;
        }
        match self.outcome {
            Outcome::Stored => {
                let _ended = self.end(key, place);
            }
            Outcome::Refused | Outcome::NoChange => {}
        }
    }
}

/// Whether all has been told that was to be told.
#[tactic(auto, using(crate::proofs::Outcomes::done_where))]
pub(crate) fn is_done(transaction: &Transaction) -> bool
    ensures { result ≡ is_done (seen transaction.now) }
{
    is_spent(&transaction.place) && transaction.txn.is_acknowledged()
}
