//! Commands that we receive as the secondary of a connection (RFC 2371, section 13).
ghost use Rattle.std.specs.Prelude.{◌≡◌, ◌≤◌, ◌<◌, ◌+◌, ◌&&◌, ℕ, List, Some, length, nat_le, true};
ghost use Rattle.tip_line.specs.declared.command.Command.TheVariants as asked;
ghost use Rattle.tip_table.specs.Kept.{StandsAt, of};
ghost use Rattle.tip_machine.specs.Commands.{commanded, identify, query, serve, superior_role};
ghost use Rattle.tip_machine.specs.Connections.{has_number};
ghost use Rattle.tip_machine.specs.Failing.{closed};
ghost use Rattle.tip_machine.specs.Given.{are_numbered};
ghost use Rattle.tip_machine.specs.Proceeding.{commit};
ghost use Rattle.tip_machine.specs.Proceeding.{abort as aborted};
ghost use Rattle.tip_machine.specs.States.{Attempt, connection_of};
ghost use Rattle.tip_machine.specs.Steps.{chosen};
ghost use Rattle.tip_machine.specs.Types.{Connection as AConnection};
ghost use Rattle.tip_machine.specs.declared.event.Change.{Change};
ghost use Rattle.tip_machine.specs.declared.event.Heard.TheVariants.{Command as ACommand};
ghost use Rattle.tip_outlook.specs.Searches.{is_keyed};
ghost use Rattle.tip_outlook.specs.Wanting.{admitted_wanted, command_wanted};
ghost use Rattle.tip_rules.specs.Growing.{CanGrow};
ghost use Rattle.tip_rules.specs.Needs.{begins, joined};
ghost use Rattle.tip_rules.specs.Works.{Does, GoesBy, IsIdle, lines_at, lines_for, MayMake, peer_of, work_of};

use crate::making::Making;
use crate::work::Work;
use tip_conn::{Admit, admit};
use tip_line::{Address, Command, CommandName, Id};
use tip_machine::{Connection, Item, Outcome, Role, Said, Transaction};
use tip_rows::Key;
use tip_txn::Phase;

impl Work<Connection, Transaction, Making> {
    /// A command from the primary: served where it is valid; else ERROR.
    #[tactic(auto, unfolding(tip_machine::specs::Commands::commanded))]
    pub fn command(&mut self, number: u32, place: usize, command: Command)
        requires here { self.old.realm < length self.old.heads.items }
        requires stands { StandsAt self.old.connections self.old.realm (has_number number) place }
        requires able { begins (ACommand command) ≡ true → MayMake number self.old }
        requires peer { self.old.making.peer ≡ peer_of number (work_of self.old).state }
        requires part { (id : List ℕ) → joined (ACommand command) ≡ Some id →
            CanGrow (work_of self.old).state.head.name id
            (of self.old.transactions self.old.realm) }
        requires numbered { are_numbered (work_of self.old).state ≡ true }
        requires lines { lines_at number (work_of self.old).state + 2 ≤ self.old.making.free }
        requires none { IsIdle self.old.making.answer }
        requires next { GoesBy number (admitted_wanted command) self.old }
        ensures { (connection : AConnection) →
            connection_of number (work_of self.old).state ≡ Some connection →
            Does self.old self.new
            (chosen (commanded command connection (work_of self.old)) self.old.outcome) }
    {
        let connection = self.connection(number, place);
        match admit(connection.state, connection.side, &command) {
            Admit::Serve => self.serve(number, place, command),
            Admit::Wrong => self.reject(number, place),
        }
    }

    /// A command that is valid.
    #[tactic(auto, using(crate::proofs::Commanding::serving))]
    pub fn serve(&mut self, number: u32, place: usize, command: Command)
        requires here { self.old.realm < length self.old.heads.items }
        requires stands { StandsAt self.old.connections self.old.realm (has_number number) place }
        requires able { begins (ACommand command) ≡ true → MayMake number self.old }
        requires peer { self.old.making.peer ≡ peer_of number (work_of self.old).state }
        requires part { (id : List ℕ) → joined (ACommand command) ≡ Some id →
            CanGrow (work_of self.old).state.head.name id
            (of self.old.transactions self.old.realm) }
        requires numbered { are_numbered (work_of self.old).state ≡ true }
        requires lines { lines_at number (work_of self.old).state + 2 ≤ self.old.making.free }
        requires none { IsIdle self.old.making.answer }
        requires next { GoesBy number (command_wanted command) self.old }
        ensures { (connection : AConnection) →
            connection_of number (work_of self.old).state ≡ Some connection →
            Does self.old self.new
            (chosen (serve command connection (work_of self.old)) self.old.outcome) }
    {
        match command {
            Command::Identify {
                low,
                high,
                primary,
                secondary: _,
            } => self.greet(number, place, (low, high), primary),
            Command::Begin => self.begin(number, place),
            Command::Push { superior } => self.push(number, place, superior),
            Command::Pull {
                superior,
                subordinate,
            } => self.pull(number, place, &superior, subordinate),
            Command::Prepare => self.obey_prepare(number, place),
            Command::Commit => self.obey_commit(number, place),
            Command::Abort => self.obey_abort(number, place),
            Command::Query { superior } => self.query(number, place, &superior),
            Command::Reconnect { subordinate } => self.reconnect(number, place, &subordinate),
            Command::Multiplex { protocol: _ } => {
                self.reply(number, place, CommandName::Multiplex, Said::CantMultiplex)
            }
            Command::Tls => self.reply(number, place, CommandName::Tls, Said::CantTls),
            Command::Error => self.close(number, place),
        }
    }

    /// IDENTIFY: version 3 is spoken where it lies within what the primary offers.
    #[tactic(auto, using(crate::proofs::Commanding::greeting))]
    pub(crate) fn greet(
        &mut self,
        number: u32,
        place: usize,
        versions: (u32, u32),
        peer: Option<Address>,
    )
        requires stands { StandsAt self.old.connections self.old.realm (has_number number) place }
        requires lines { lines_at number (work_of self.old).state + 2 ≤ self.old.making.free }
        requires none { IsIdle self.old.making.answer }
        ensures { (connection : AConnection) →
            connection_of number (work_of self.old).state ≡ Some connection →
            Does self.old self.new
            (identify versions.0 versions.1 peer connection (work_of self.old)) }
    {
        let (lowest, highest) = versions;
        if is_spoken(lowest, highest) {
            self.tell(number, Item::Say(Said::Identified));
            self.identify(number, place, peer);
        } else {
            self.reject(number, place);
        }
    }

    /// QUERY: whether the transaction of an identifier exists here.
    #[tactic(auto, using(crate::proofs::Commanding::querying))]
    pub fn query(&mut self, number: u32, place: usize, superior: &Id)
        requires here { self.old.realm < length self.old.heads.items }
        requires stands { StandsAt self.old.connections self.old.realm (has_number number) place }
        requires lines { 0 < self.old.making.free }
        ensures { (connection : AConnection) →
            connection_of number (work_of self.old).state ≡ Some connection →
            Does self.old self.new (query superior.now connection (work_of self.old)) }
    {
        if self.exists(superior) {
            self.reply(number, place, CommandName::Query, Said::QueriedExists);
        } else {
            self.reply(number, place, CommandName::Query, Said::QueriedNotFound);
        }
    }

    /// PREPARE from the superior: asks; who said no address could not be reached again, and is not promised to.
    #[tactic(auto, using(crate::proofs::Commanding::obeying))]
    pub(crate) fn obey_prepare(&mut self, number: u32, place: usize)
        requires stands { StandsAt self.old.connections self.old.realm (has_number number) place }
        requires lines { lines_at number (work_of self.old).state + 2 ≤ self.old.making.free }
        requires none { IsIdle self.old.making.answer }
        requires next { GoesBy number (command_wanted asked.Prepare) self.old }
        ensures { (connection : AConnection) →
            connection_of number (work_of self.old).state ≡ Some connection →
            Does self.old self.new
            (chosen (serve asked.Prepare connection (work_of self.old)) self.old.outcome) }
    {
        let connection = self.connection(number, place);
        let role = connection.role;
        let is_reachable = connection.peer.is_some();
        self.owe(number, place, CommandName::Prepare);
        let Some(key) = superior_role(role) else {
            return;
        };
        let Some(at) = self.transaction(key) else {
            return;
        };
        match self.at(key, at).txn.phase() {
            Phase::Active if is_reachable => self.ask(key, at),
            Phase::Active => self.abort(key, at),
            Phase::Aborted => self.abort(key, at),
            Phase::Asking | Phase::Prepared | Phase::Committed => {}
        }
    }

    /// COMMIT from the superior: asks, or ends the doubt; where the store refuses, we stay in doubt and hang up.
    #[tactic(auto, using(crate::proofs::Commanding::obeying))]
    pub(crate) fn obey_commit(&mut self, number: u32, place: usize)
        requires stands { StandsAt self.old.connections self.old.realm (has_number number) place }
        requires lines { lines_at number (work_of self.old).state + 2 ≤ self.old.making.free }
        requires none { IsIdle self.old.making.answer }
        requires next { GoesBy number (command_wanted asked.Commit) self.old }
        ensures { (connection : AConnection) →
            connection_of number (work_of self.old).state ≡ Some connection →
            Does self.old self.new
            (chosen (serve asked.Commit connection (work_of self.old)) self.old.outcome) }
    {
        let role = self.connection(number, place).role;
        self.owe(number, place, CommandName::Commit);
        let Some(key) = superior_role(role) else {
            return;
        };
        let Some(at) = self.transaction(key) else {
            return;
        };
        match self.at(key, at).txn.phase() {
            Phase::Active => self.ask(key, at),
            Phase::Prepared => self.end_doubt_by_commit(key, at, number, place),
            Phase::Aborted => self.abort(key, at),
            Phase::Asking | Phase::Committed => {}
        }
    }

    /// ABORT from the superior: aborts; in doubt, not before the row is gone.
    #[tactic(auto, using(crate::proofs::Commanding::obeying))]
    pub(crate) fn obey_abort(&mut self, number: u32, place: usize)
        requires stands { StandsAt self.old.connections self.old.realm (has_number number) place }
        requires lines { lines_at number (work_of self.old).state + 2 ≤ self.old.making.free }
        requires none { IsIdle self.old.making.answer }
        ensures { (connection : AConnection) →
            connection_of number (work_of self.old).state ≡ Some connection →
            Does self.old self.new
            (chosen (serve asked.Abort connection (work_of self.old)) self.old.outcome) }
    {
        let role = self.connection(number, place).role;
        self.owe(number, place, CommandName::Abort);
        let Some(key) = superior_role(role) else {
            return;
        };
        let Some(at) = self.transaction(key) else {
            return;
        };
        match self.at(key, at).txn.phase() {
            Phase::Active | Phase::Aborted => self.abort(key, at),
            Phase::Prepared => self.end_doubt_by_abort(key, at, number, place),
            Phase::Asking | Phase::Committed => {}
        }
    }

    /// In doubt, and told to commit: once the committed row is stored.
    fn end_doubt_by_commit(&mut self, key: Key, at: usize, number: u32, place: usize)
        requires open { StandsAt self.old.transactions self.old.realm (is_keyed key) at }
        requires stands { StandsAt self.old.connections self.old.realm (has_number number) place }
        requires key { lines_for key (work_of self.old).state ≤ self.old.making.free }
        requires lines { lines_at number (work_of self.old).state + 1 ≤ self.old.making.free }
        requires none { IsIdle self.old.making.answer }
        ensures { (connection : AConnection) (change : Change) →
            connection_of number (work_of self.old).state ≡ Some connection →
            Does self.old self.new (chosen (Attempt.Asks change (commit key (work_of self.old))
            (closed connection (work_of self.old))) self.old.outcome) }
    {
        match self.outcome {
            Outcome::Stored => self.commit(key, at),
            Outcome::Refused | Outcome::NoChange => self.close(number, place),
        }
    }

    /// In doubt, and told to abort: once the row is gone.
    fn end_doubt_by_abort(&mut self, key: Key, at: usize, number: u32, place: usize)
        requires open { StandsAt self.old.transactions self.old.realm (is_keyed key) at }
        requires stands { StandsAt self.old.connections self.old.realm (has_number number) place }
        requires key { lines_for key (work_of self.old).state ≤ self.old.making.free }
        requires lines { lines_at number (work_of self.old).state + 1 ≤ self.old.making.free }
        requires none { IsIdle self.old.making.answer }
        ensures { (connection : AConnection) (change : Change) →
            connection_of number (work_of self.old).state ≡ Some connection →
            Does self.old self.new (chosen (Attempt.Asks change (aborted key (work_of self.old))
            (closed connection (work_of self.old))) self.old.outcome) }
    {
        match self.outcome {
            Outcome::Stored => self.abort(key, at),
            Outcome::Refused | Outcome::NoChange => self.close(number, place),
        }
    }
}

/// Whether version 3, the only one that we speak, lies between these.
fn is_spoken(lowest: u32, highest: u32) -> bool
    ensures { result ≡ (nat_le lowest 3 && nat_le 3 highest) }
{
    lowest <= 3 && 3 <= highest
}

/// The transaction whose superior is on a connection of this role.
pub(crate) fn superior_role(role: Option<Role>) -> Option<Key>
    ensures { result ≡ superior_role role }
{
    match role {
        Some(role) => superior_of(role),
        None => None,
    }
}

/// The transaction whose superior is on a connection in this role, if it is one of a superior.
fn superior_of(role: Role) -> Option<Key>
    ensures { result ≡ superior_role (Some role) }
{
    match role {
        Role::Superior(key) => Some(key),
        Role::Subordinate { .. } => None,
    }
}
