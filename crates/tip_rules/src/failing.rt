//! Connections that fail (RFC 2371, section 15), and lines that are wrong (section 13, ERROR).
ghost use Rattle.std.specs.Prelude.{◌≡◌, ◌≤◌, ◌+◌, Some};
ghost use Rattle.tip_table.specs.Kept.{StandsAt};
ghost use Rattle.tip_machine.specs.Changes.{on_key};
ghost use Rattle.tip_machine.specs.Connections.{has_number};
ghost use Rattle.tip_machine.specs.Failing.{closed, fail, lost_unanswered, missed, part_lost, superior_lost, wrong};
ghost use Rattle.tip_machine.specs.States.{connection_of, transaction_of};
ghost use Rattle.tip_machine.specs.Types.{Connection as AConnection, Transaction as ATransaction};
ghost use Rattle.tip_outlook.specs.Searches.{is_keyed};
ghost use Rattle.tip_rules.specs.Works.{Does, IsIdle, lines_as, lines_at, lines_for, work_of};

use crate::making::Making;
use crate::work::{Work, has_answered};
use tip_machine::{Connection, Item, Role, Said, Transaction};
use tip_rows::Key;
use tip_txn::{Ballot, Part, Phase};

impl Work<Connection, Transaction, Making> {
    /// A transaction's superior is lost: before its promise it is aborted; in doubt, it waits to be reached again.
    #[tactic(auto, using(crate::proofs::Losing::superior_losing))]
    fn lose_superior(&mut self, key: Key)
        requires lines { lines_for key (work_of self.old).state ≤ self.old.making.free }
        requires none { IsIdle self.old.making.answer }
        ensures { Does self.old self.new
            (on_key key (λ transaction. superior_lost transaction.phase key) (work_of self.old)) }
    {
        let Some(place) = self.transaction(key) else {
            return;
        };
        match self.at(key, place).txn.phase() {
            Phase::Active | Phase::Asking | Phase::Aborted => self.abort(key, place),
            Phase::Prepared | Phase::Committed => {}
        }
    }

    /// A part is lost: before its answer that is a no; one that is to commit will be reached again.
    #[tactic(auto, using(crate::proofs::Losing::part_losing))]
    fn lose_part(&mut self, key: Key, part: Part)
        requires lines { lines_for key (work_of self.old).state ≤ self.old.making.free }
        requires none { IsIdle self.old.making.answer }
        ensures { Does self.old self.new (on_key key
            (λ transaction. part_lost transaction.phase part transaction) (work_of self.old)) }
    {
        let Some(place) = self.transaction(key) else {
            return;
        };
        match self.at(key, place).txn.phase() {
            Phase::Active | Phase::Asking => self.lose_unanswered(key, place, part),
            Phase::Aborted => self.abort(key, place),
            Phase::Prepared | Phase::Committed => {}
        }
    }

    /// A part is lost before an outcome.
    #[tactic(auto, using(crate::proofs::Losing::unanswered_losing))]
    fn lose_unanswered(&mut self, key: Key, place: usize, part: Part)
        requires stands { StandsAt self.old.transactions self.old.realm (is_keyed key) place }
        requires lines { lines_for key (work_of self.old).state ≤ self.old.making.free }
        requires none { IsIdle self.old.making.answer }
        ensures { (transaction : ATransaction) →
            transaction_of key (work_of self.old).state ≡ Some transaction →
            Does self.old self.new (lost_unanswered part transaction (work_of self.old)) }
    {
        if has_answered(&self.at(key, place).txn, part) {
            return;
        }
        self.note(key, place, part, Ballot::Lost);
        self.abort(key, place);
    }

    /// What the failure of a connection means for the transaction that it was on.
    #[tactic(auto, using(crate::proofs::Losing::missing))]
    pub(crate) fn miss(&mut self, role: Option<Role>)
        requires lines { lines_as role (work_of self.old).state ≤ self.old.making.free }
        requires none { IsIdle self.old.making.answer }
        ensures { Does self.old self.new (missed role (work_of self.old)) }
    {
        if let Some(role) = role {
            self.miss_as(role);
        }
    }

    /// What the failure of a connection in this role means for the transaction that it was on.
    fn miss_as(&mut self, role: Role)
        requires lines { lines_as (Some role) (work_of self.old).state ≤ self.old.making.free }
        requires none { IsIdle self.old.making.answer }
        ensures { Does self.old self.new (missed (Some role) (work_of self.old)) }
    {
        match role {
            Role::Superior(key) => self.lose_superior(key),
            Role::Subordinate { key, part } => self.lose_part(key, part),
        }
    }

    /// A connection fails, and its transaction goes on without it.
    #[tactic(auto, using(crate::proofs::Losing::failing))]
    pub fn fail(&mut self, number: u32, place: usize)
        requires stands { StandsAt self.old.connections self.old.realm (has_number number) place }
        requires lines { lines_at number (work_of self.old).state ≤ self.old.making.free }
        requires none { IsIdle self.old.making.answer }
        ensures { (connection : AConnection) →
            connection_of number (work_of self.old).state ≡ Some connection →
            Does self.old self.new (fail connection (work_of self.old)) }
    {
        let role = self.remove(number, place);
        self.miss(role);
    }

    /// We close a connection.
    #[tactic(auto, using(crate::proofs::Losing::closing))]
    pub fn close(&mut self, number: u32, place: usize)
        requires stands { StandsAt self.old.connections self.old.realm (has_number number) place }
        requires lines { lines_at number (work_of self.old).state + 1 ≤ self.old.making.free }
        requires none { IsIdle self.old.making.answer }
        ensures { (connection : AConnection) →
            connection_of number (work_of self.old).state ≡ Some connection →
            Does self.old self.new (closed connection (work_of self.old)) }
    {
        self.tell(number, Item::Close);
        self.fail(number, place);
    }

    /// A line is malformed, or not valid in this state: ERROR, and the connection is closed.
    #[tactic(auto, using(crate::proofs::Losing::closing))]
    pub(crate) fn reject(&mut self, number: u32, place: usize)
        requires stands { StandsAt self.old.connections self.old.realm (has_number number) place }
        requires lines { lines_at number (work_of self.old).state + 2 ≤ self.old.making.free }
        requires none { IsIdle self.old.making.answer }
        ensures { (connection : AConnection) →
            connection_of number (work_of self.old).state ≡ Some connection →
            Does self.old self.new (wrong connection (work_of self.old)) }
    {
        self.tell(number, Item::Say(Said::Error));
        self.close(number, place);
    }
}
