//! What a transaction's progress means for each connection that is on it (RFC 2371, section 13).
ghost use Rattle.std.specs.Prelude.{◌≡◌, ◌≢◌, ◌-◌, ◌++◌, ◌<◌, ℕ, true, length, IfSome, None, Some, option_map, ⊤};
ghost use Rattle.tip_machine.specs.Connections.{is_on, key_of, link_of, names};
ghost use Rattle.tip_machine.specs.Reactions.{demanded, demanded_as, reacted, reacts, sent_by};
ghost use Rattle.tip_machine.specs.Types.{Connection as AConnection};
ghost use Rattle.tip_rules.specs.Makings.{GoOut, Made, items_on, telling};
ghost use Rattle.tip_rules.specs.Reacting.{demand_of, reaction_of};

use crate::making::Making;
use tip_conn::State;
use tip_line::CommandName;
use tip_machine::{Asked, Awaited, Connection, Item, Role, Said, link_of};
use tip_outlook::is_on;
use tip_rows::Key;
use tip_table::Visit;

/// What is answered to a superior that asked, and what subordinates are asked.
#[derive(Clone, Copy, PartialEq, Eq)]
pub enum Reaction {
    /// Subordinates are asked whether they are prepared.
    Asks,
    /// We promise to do as we are told.
    Promises,
    /// Nobody has anything to commit.
    NeedsNothing,
    /// The outcome is to commit.
    Commits,
    /// The outcome is to abort.
    Aborts,
}

/// What a subordinate is asked for a transaction.
#[derive(Clone, Copy, PartialEq, Eq)]
pub enum Demand {
    Prepare,
    Commit,
    Abort,
}

impl Demand {
    /// The command that is said.
    fn asked(self, key: Key) -> Asked
        ensures { result ≡ (demand_of self).asked key }
    {
        match self {
            Demand::Prepare => Asked::Prepare(key),
            Demand::Commit => Asked::Commit(key),
            Demand::Abort => Asked::Abort(key),
        }
    }

    /// The response that is awaited then.
    fn awaited(self) -> Awaited
        ensures { result ≡ (demand_of self).awaited }
    {
        match self {
            Demand::Prepare => Awaited::Prepare,
            Demand::Commit => Awaited::Commit,
            Demand::Abort => Awaited::Abort,
        }
    }
}

impl Reaction {
    /// What is answered to the command that a connection is owed a response to.
    fn owed(self, command: CommandName) -> Option<Said>
        ensures { result ≡ (reaction_of self).owed command }
    {
        match (self, command) {
            (Reaction::Asks, _) => None,
            (Reaction::Promises, _) => Some(Said::Prepared),
            (Reaction::NeedsNothing, CommandName::Prepare) => Some(Said::ReadOnly),
            (Reaction::NeedsNothing, CommandName::Commit) => Some(Said::Committed),
            (Reaction::NeedsNothing, _) => None,
            (Reaction::Commits, _) => Some(Said::Committed),
            (Reaction::Aborts, _) => Some(Said::Aborted),
        }
    }

    /// What a subordinate is asked where its connection is in this state.
    fn demanded(self, state: State) -> Option<Demand>
        ensures { option_map demand_of result ≡ demanded (reaction_of self) state }
    {
        match (self, state) {
            (Reaction::Asks, State::Enlisted) => Some(Demand::Prepare),
            (Reaction::Commits, State::Prepared) => Some(Demand::Commit),
            (Reaction::Aborts, State::Enlisted | State::Prepared) => Some(Demand::Abort),
            _ => None,
        }
    }

    /// What is asked on a connection: of a subordinate alone, where nothing is awaited there.
    fn demanded_on(self, connection: &Connection) -> Option<Demand>
        ensures { option_map demand_of result
            ≡ demanded_as (reaction_of self) connection.now.role connection.now }
    {
        match connection.role {
            Some(Role::Subordinate { .. }) if connection.awaited.is_none() => {
                self.demanded(connection.state)
            }
            _ => None,
        }
    }
}

/// A transaction's progress, as it is told to the connections that are on it.
#[derive(Clone, Copy)]
pub struct Progress {
    pub reaction: Reaction,
    pub key: Key,
}

impl Visit<Connection, Making> for Progress {
    ghost left = { λ progress connection.
        (reacted (reaction_of progress.reaction) progress.key connection).connection };

    ghost noted = { λ progress making connection.
        telling making (sent_by (reaction_of progress.reaction) progress.key connection) };

    ghost may = { λ progress making connection. is_on progress.key connection ≡ true →
        0 < making.free };

    fn visit(&self, connection: &mut Connection, making: &mut Making)
        requires { is_on self.now.key connection.old ≡ true → 0 < making.old.free }
        ensures item { connection.new
            ≡ (reacted (reaction_of self.now.reaction) self.now.key connection.old).connection }
        ensures notes { making.new ≡ telling making.old
            (sent_by (reaction_of self.now.reaction) self.now.key connection.old) }
    {
        if !is_on(connection.role, self.key) {
            return;
        }
        match connection.owed {
            Some(command) => self.answer(connection, command, making),
            None => self.demand(connection, making),
        }
    }

    #[tactic(auto, using(crate::proofs::Progressing::progressing))]
    fn aim(&self) -> Option<u128>
        ensures items { IfSome result (λ aim. (connection : AConnection) →
            option_map link_of (key_of connection.role) ≢ Some aim →
            (reacted (reaction_of self.now.reaction) self.now.key connection).connection
            ≡ connection) }
        ensures notes { IfSome result (λ aim. (connection : AConnection) (making : Made) →
            option_map link_of (key_of connection.role) ≢ Some aim → telling making
            (sent_by (reaction_of self.now.reaction) self.now.key connection) ≡ making) }
        ensures links { (connection : AConnection) (link : ℕ) → option_map link_of (key_of
            (reacted (reaction_of self.now.reaction) self.now.key connection).connection.role)
            ≡ Some link → option_map link_of (key_of connection.role) ≡ Some link }
        ensures fits { (connection : AConnection) → ⊤ → ⊤ }
    {
        Some(link_of(self.key))
    }
}

impl Progress {
    /// A superior that asked is answered, where the reaction says so.
    fn answer(&self, connection: &mut Connection, command: CommandName, making: &mut Making)
        requires { 0 < making.old.free }
        ensures connection { connection.new ≡ (reacts (reaction_of self.now.reaction)
            self.now.key (Some command) connection.old).connection }
        ensures making { GoOut making.old making.new (items_on connection.old.number (reacts
            (reaction_of self.now.reaction) self.now.key (Some command) connection.old).items) }
    {
        if let Some(said) = self.reaction.owed(command) {
            connection.go(command, said.name());
            making.tell(connection.number, Item::Say(said));
        }
    }

    /// A subordinate is asked, where the reaction says so.
    fn demand(&self, connection: &mut Connection, making: &mut Making)
        requires { 0 < making.old.free }
        ensures connection { connection.new
            ≡ (reacts (reaction_of self.now.reaction) self.now.key None connection.old).connection }
        ensures making { GoOut making.old making.new (items_on connection.old.number
            (reacts (reaction_of self.now.reaction) self.now.key None connection.old).items) }
    {
        if let Some(demand) = self.reaction.demanded_on(connection) {
            connection.awaited = Some(demand.awaited());
            making.tell(connection.number, Item::Ask(demand.asked(self.key)));
        }
    }
}
