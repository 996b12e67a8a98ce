//! What the answer to QUERY means for a transaction in doubt (RFC 2371, section 13, QUERY): presumed abort.
ghost use Rattle.std.specs.Prelude.{◌≡◌, ◌≤◌, ◌+◌, false, Some};
ghost use Rattle.std.specs.List.{list_any};
ghost use Rattle.std.specs.Option.{option_map_or};
ghost use Rattle.tip_line.specs.declared.response.Response.{Response as ASaid};
ghost use Rattle.tip_table.specs.Kept.{StandsAt};
ghost use Rattle.tip_machine.specs.Connections.{has_number, is_superior_of};
ghost use Rattle.tip_machine.specs.Failing.{closed};
ghost use Rattle.tip_machine.specs.Proceeding.{abort as aborted};
ghost use Rattle.tip_machine.specs.Responses.{is_in_doubt};
ghost use Rattle.tip_machine.specs.States.{Attempt, connection_of, transaction_of};
ghost use Rattle.tip_machine.specs.Steps.{chosen};
ghost use Rattle.tip_machine.specs.Types.{Connection as AConnection};
ghost use Rattle.tip_machine.specs.declared.event.Change.{Change};
ghost use Rattle.tip_outlook.specs.Noting.{exists_of, querying};
ghost use Rattle.tip_rules.specs.Works.{Does, IsIdle, lines_as, lines_at, lines_for, work_of};

use crate::making::Making;
use crate::reconnecting::is_prepared;
use crate::work::Work;
use tip_line::{CommandName, Response, ResponseName};
use tip_machine::{Connection, Item, Outcome, Role, Transaction};
use tip_outlook::{SuperiorOf, ends, exists_of};
use tip_rows::Key;

impl Work<Connection, Transaction, Making> {
    /// A response to QUERY for the transaction of a key.
    pub(crate) fn respond_to_query(
        &mut self,
        number: u32,
        place: usize,
        key: Key,
        response: Response,
    )
        requires stands { StandsAt self.old.connections self.old.realm (has_number number) place }
        requires lines { lines_at number (work_of self.old).state + 2 ≤ self.old.making.free }
        requires queried { lines_for key (work_of self.old).state ≤ self.old.making.free }
        requires none { IsIdle self.old.making.answer }
        ensures { (connection : AConnection) →
            connection_of number (work_of self.old).state ≡ Some connection →
            Does self.old self.new (chosen
            (querying (exists_of response) key response connection (work_of self.old))
            self.old.outcome) }
    {
        match exists_of(&response) {
            Some(exists) => self.end_query(number, place, key, exists),
            None => self.refuse_line(number, place, ends(&response)),
        }
    }

    /// QUERIEDEXISTS; or QUERIEDNOTFOUND: where the transaction is in doubt still, it is aborted.
    #[tactic(auto, using(crate::proofs::Asking::ending_query))]
    fn end_query(&mut self, number: u32, place: usize, key: Key, exists: bool)
        requires stands { StandsAt self.old.connections self.old.realm (has_number number) place }
        requires lines { lines_at number (work_of self.old).state + 2 ≤ self.old.making.free }
        requires queried { lines_for key (work_of self.old).state ≤ self.old.making.free }
        requires none { IsIdle self.old.making.answer }
        ensures { (connection : AConnection) (said : ASaid) →
            connection_of number (work_of self.old).state ≡ Some connection →
            Does self.old self.new (chosen
            (querying (Some exists) key said connection (work_of self.old))
            self.old.outcome) }
    {
        if exists {
            self.go(
                number,
                place,
                CommandName::Query,
                ResponseName::QueriedExists,
            );
            return;
        }
        let role = self.connection(number, place).role;
        self.go(
            number,
            place,
            CommandName::Query,
            ResponseName::QueriedNotFound,
        );
        if self.is_in_doubt(key) {
            self.presume_abort(key, number, place, role);
        }
    }

    /// Whether the transaction of a key is in doubt, with nobody to tell it the outcome.
    #[tactic(auto, using(crate::proofs::Asking::doubting))]
    pub(crate) fn is_in_doubt(&self, key: Key) -> bool
        ensures { result ≡ option_map_or (is_in_doubt (work_of self.now).state)
            (transaction_of key (work_of self.now).state) false }
    {
        match self.transaction(key) {
            Some(place) => {
                is_prepared(self.at(key, place).txn.phase()) && !self.has_superior(key)
            }
            None => false,
        }
    }

    /// Whether the superior of the transaction of a key is on a connection.
    #[tactic(auto, using(crate::proofs::Works::any_found))]
    fn has_superior(&self, key: Key) -> bool
        ensures { result ≡ list_any (is_superior_of key) (work_of self.now).state.connections }
    {
        self.connections
            .find(self.realm, &SuperiorOf { key })
            .is_some()
    }

    /// The superior has forgotten: the row goes before anybody is told; where the store refuses, we hang up.
    fn presume_abort(&mut self, key: Key, number: u32, place: usize, role: Option<Role>)
        requires stands { StandsAt self.old.connections self.old.realm (has_number number) place }
        requires key { lines_for key (work_of self.old).state ≤ self.old.making.free }
        requires lines { lines_as role (work_of self.old).state + 1 ≤ self.old.making.free }
        requires none { IsIdle self.old.making.answer }
        ensures { (connection : AConnection) (change : Change) →
            connection_of number (work_of self.old).state ≡ Some connection →
            Does self.old self.new (chosen (Attempt.Asks change (aborted key (work_of self.old))
            (closed (record connection { role = role }) (work_of self.old)))
            self.old.outcome) }
    {
        match self.outcome {
            Outcome::Stored => self.abort_open(key),
            Outcome::Refused | Outcome::NoChange => self.close_as(number, place, role),
        }
    }

    /// We close a connection that was on a transaction in this role.
    #[tactic(auto, using(crate::proofs::Asking::closing_as))]
    pub(crate) fn close_as(&mut self, number: u32, place: usize, role: Option<Role>)
        requires stands { StandsAt self.old.connections self.old.realm (has_number number) place }
        requires lines { lines_as role (work_of self.old).state + 1 ≤ self.old.making.free }
        requires none { IsIdle self.old.making.answer }
        ensures { (connection : AConnection) →
            connection_of number (work_of self.old).state ≡ Some connection →
            Does self.old self.new (closed (record connection { role = role }) (work_of self.old)) }
    {
        self.tell(number, Item::Close);
        let _role = self.remove(number, place);
        self.miss(role);
    }
}
