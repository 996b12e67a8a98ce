//! What an event comes to for its transaction, by reading alone: the change of its row that it wants, so that its outcome can be
//! had before the event happens, and what follows for either outcome.
ghost use Rattle.std.specs.Prelude.{◌≡◌, ◌<◌, ◌&&◌, true, false, not, Some, length, IfOk};
ghost use Rattle.std.specs.List.{list_any};
ghost use Rattle.std.specs.Option.{option_copied, option_map_or};
ghost use Rattle.tip_branch.specs.Notes.{PartyNotes};
ghost use Rattle.tip_conn.specs.Table.{admit_of};
ghost use Rattle.tip_line.specs.Command.{name_of};
ghost use Rattle.tip_line.specs.declared.command.Command.TheVariants.{Commit, Prepare};
ghost use Rattle.tip_line.specs.declared.command.CommandName.TheVariants.{Query};
ghost use Rattle.tip_line.specs.declared.response.ResponseName.TheVariants.{QueriedNotFound};
ghost use Rattle.tip_machine.specs.Connections.{advanced, is_idle, is_superior_of};
ghost use Rattle.tip_table.specs.Kept.{StandsAt};
ghost use Rattle.tip_txn.specs.Parts.{answered};
ghost use Rattle.tip_machine.specs.Proceeding.{owed_to_superior};
ghost use Rattle.tip_machine.specs.Given.{are_numbered};
ghost use Rattle.tip_machine.specs.States.{connection_of, seated, transaction_of};
ghost use Rattle.tip_machine.specs.Transactions.{noting, standing_at};
ghost use Rattle.tip_machine.specs.Types.{seen, Transaction as ATransaction};
ghost use Rattle.tip_machine.specs.declared.transaction.PartyPlace.TheVariants.{Here, Spent};
ghost use Rattle.tip_machine.specs.declared.event.Event.TheVariants.{Line, Resume, Settled, Voted};
ghost use Rattle.tip_outlook.specs.Noting.{awaits_of, exists_of, note_of, part_of};
ghost use Rattle.tip_outlook.specs.Wanting.{Course, abort_for, admitted_wanted, answer_wanted, asked, asking_for, command_wanted, foreseen, forgotten, is_admitted, of_superior, outlook, owed_then, query_wanted, resume_wanted, said_wanted, wanted_noting, wanted_of_part};
ghost use Rattle.tip_outlook.specs.Endings.{Follows, Meets};
ghost use Rattle.tip_outlook.specs.Searches.{is_keyed};
ghost use Rattle.tip_rules.specs.Needs.{own_of};
ghost use Rattle.tip_rules.specs.Works.{work_of};

use crate::commands::superior_role;
use crate::making::Making;
use crate::reconnecting::is_prepared;
use crate::returning::{answer_of, is_aborting, is_committed, is_committing, is_voting};
use crate::work::{Work, has_ready};
use std::alloc::{AllocError, Global};
use tip_branch::{HeldParty, Member};
use tip_conn::{Admit, Side, State, Turn, admit, after_named};
use tip_line::{Command, CommandName, Id, Response, ResponseName};
use tip_machine::{Change, Connection, Event, Heard, PartyPlace, Role, Seat, Transaction};
use tip_outlook::{Awaits, Next, Note, Outlook, SuperiorOf, asks_for, exists_of};
use tip_rows::Key;
use tip_txn::{Ballot, Part, Phase};

impl Work<Connection, Transaction, Making> {
    /// What the event wants, once it has its entry.
    pub(crate) fn foresee(
        &self,
        alloc: Global,
        event: &Event,
        own: Option<&Connection>,
    ) -> Result<Next, AllocError>
        requires here { self.now.realm < length self.now.heads.items }
        requires own { option_copied own ≡ own_of event.now (work_of self.now).state }
        ensures { IfOk result (Meets (foreseen event.now (work_of self.now).state)) }
    {
        match event {
            Event::Line { seat, heard } => {
                self.wanted_by_line(alloc, self.if_seated(*seat, own), *seat, heard)
            }
            Event::Voted(party) => self.wanted_by_vote(alloc, party),
            Event::Settled(party) => self.wanted_by_settled(alloc, party),
            Event::Resume { id } => Ok(Next::asking(self.wanted_by_resume(id))),
            Event::Open { .. }
            | Event::Dial { .. }
            | Event::Lost { .. }
            | Event::AskPush { .. }
            | Event::AskPull { .. } => Ok(Next::nothing()),
        }
    }

    /// The connection of a seat's number, if the seat is of this start.
    #[tactic(auto, using(crate::proofs::Needing::seating))]
    fn if_seated<'a>(&self, seat: Seat, own: Option<&'a Connection>) -> Option<&'a Connection>
        requires here { self.now.realm < length self.now.heads.items }
        requires own { option_copied own ≡ connection_of seat.number (work_of self.now).state }
        ensures { option_copied result ≡ seated seat (work_of self.now).state }
    {
        if seat.epoch == self.heads[self.realm].epoch {
            own
        } else {
            None
        }
    }

    /// What a line wants that may be taken: we hear commands as the secondary, and responses as the primary.
    #[tactic(auto, using(crate::proofs::Asking::itself))]
    fn wanted_by_line(
        &self,
        alloc: Global,
        own: Option<&Connection>,
        seat: Seat,
        heard: &Heard,
    ) -> Result<Next, AllocError>
        requires own { option_copied own ≡ seated seat (work_of self.now).state }
        ensures { IfOk result (Meets (foreseen (Line seat heard.now) (work_of self.now).state)) }
    {
        let Some(connection) = own else {
            return Ok(Next::nothing());
        };
        if !connection.may_take() {
            return Ok(Next::nothing());
        }
        match (connection.side, heard) {
            (Side::Secondary, Heard::Command(command)) => {
                self.wanted_on(alloc, connection, command)
            }
            (Side::Primary, Heard::Response(response)) => {
                self.wanted_by_response(alloc, connection, response)
            }
            _ => Ok(Next::nothing()),
        }
    }

    /// What a command wants on a connection, where it is valid.
    fn wanted_on(
        &self,
        alloc: Global,
        connection: &Connection,
        command: &Command,
    ) -> Result<Next, AllocError>
        ensures { IfOk result
            (Meets (admitted_wanted command.now connection.now (work_of self.now).state)) }
    {
        if is_admitted(connection, command) {
            self.wanted_by_command(alloc, connection, command)
        } else {
            Ok(Next::nothing())
        }
    }

    /// What a command wants that is valid on a connection.
    fn wanted_by_command(
        &self,
        alloc: Global,
        connection: &Connection,
        command: &Command,
    ) -> Result<Next, AllocError>
        ensures { IfOk result
            (Meets (command_wanted command.now connection.now (work_of self.now).state)) }
    {
        match command {
            Command::Prepare => self.wanted_by_prepare(alloc, connection),
            Command::Commit => self.wanted_by_commit(alloc, connection),
            Command::Abort => Ok(Next::asking(self.wanted_by_abort(connection))),
            _ => Ok(Next::nothing()),
        }
    }

    /// What the superior's PREPARE wants: the row that all agree on, where the superior can be reached again.
    fn wanted_by_prepare(&self, alloc: Global, connection: &Connection) -> Result<Next, AllocError>
        ensures { IfOk result (Meets (command_wanted Prepare connection.now (work_of self.now).state)) }
    {
        let Some(key) = superior_role(connection.role) else {
            return Ok(Next::nothing());
        };
        let Some(place) = self.transaction(key) else {
            return Ok(Next::nothing());
        };
        let transaction = self.at(key, place);
        match (transaction.txn.phase(), &connection.peer) {
            (Phase::Active, Some(_)) => {
                self.wanted_once_asked(alloc, CommandName::Prepare, connection.number, transaction)
            }
            (Phase::Active, None)
            | (Phase::Asking | Phase::Prepared | Phase::Committed | Phase::Aborted, _) => Ok(
                Next::nothing(),
            ),
        }
    }

    /// What a transaction wants once all its parties are asked, by this command on the connection of a number.
    fn wanted_once_asked(
        &self,
        alloc: Global,
        command: CommandName,
        number: u32,
        transaction: &Transaction,
    ) -> Result<Next, AllocError>
        ensures { IfOk result (Follows (outlook (asked (seen transaction.now)))
            (owed_then command number transaction.now.key (work_of self.now).state)) }
    {
        let owed = self.owed_then(command, number, transaction.key);
        Outlook::asked(transaction).next(alloc, owed)
    }

    /// What the superior's COMMIT wants: the row that all agree on, or the committed one of a transaction in doubt.
    fn wanted_by_commit(&self, alloc: Global, connection: &Connection) -> Result<Next, AllocError>
        ensures { IfOk result (Meets (command_wanted Commit connection.now (work_of self.now).state)) }
    {
        let Some(key) = superior_role(connection.role) else {
            return Ok(Next::nothing());
        };
        let Some(place) = self.transaction(key) else {
            return Ok(Next::nothing());
        };
        let transaction = self.at(key, place);
        match transaction.txn.phase() {
            Phase::Active => {
                self.wanted_once_asked(alloc, CommandName::Commit, connection.number, transaction)
            }
            Phase::Prepared => Ok(Next::asking(Some(Outlook::of(transaction).committing(alloc)?))),
            Phase::Asking | Phase::Committed | Phase::Aborted => Ok(Next::nothing()),
        }
    }

    /// What will be owed to a transaction's superior, once this command came on the connection of a number.
    #[tactic(auto, using(crate::proofs::Ahead::owed_later))]
    fn owed_then(&self, command: CommandName, number: u32, key: Key) -> Option<CommandName>
        ensures { result ≡ owed_then command number key (work_of self.now).state }
    {
        let place = self.connections.find(self.realm, &SuperiorOf { key })?;
        let connection = self.connections.item(place);
        if connection.number == number {
            return Some(command);
        }
        connection.owed
    }

    /// What the superior's ABORT wants: that the row of a transaction in doubt is removed.
    fn wanted_by_abort(&self, connection: &Connection) -> Option<Change>
        ensures { asking_for result
            ≡ of_superior abort_for connection.now (work_of self.now).state }
    {
        let key = superior_role(connection.role)?;
        let place = self.transaction(key)?;
        let transaction = self.at(key, place);
        match transaction.txn.phase() {
            Phase::Prepared => Some(Change::Remove {
                key: transaction.key,
            }),
            Phase::Active | Phase::Asking | Phase::Committed | Phase::Aborted => None,
        }
    }

    /// What a response wants on a connection: the row that all agree on, or that it is removed once all have acknowledged.
    fn wanted_by_response(
        &self,
        alloc: Global,
        connection: &Connection,
        response: &Response,
    ) -> Result<Next, AllocError>
        requires { connection_of connection.now.number (work_of self.now).state
            ≡ Some connection.now }
        ensures { IfOk result (Meets (said_wanted (awaits_of connection.now.awaited) response.now
            connection.now (work_of self.now).state)) }
    {
        match Awaits::of(&connection.awaited) {
            Awaits::OfPart(_) => self.wanted_by_part(alloc, connection, response),
            Awaits::Queried(key) => {
                Ok(Next::asking(self.wanted_by_query(connection, key, response)))
            }
            Awaits::Nothing
            | Awaits::Identified
            | Awaits::ToAsk
            | Awaits::ToReach
            | Awaits::Pulled => Ok(Next::nothing()),
        }
    }

    /// What a response wants to what a part was asked: the row that all agree on, or that it is removed once all have
    /// acknowledged.
    fn wanted_by_part(
        &self,
        alloc: Global,
        connection: &Connection,
        response: &Response,
    ) -> Result<Next, AllocError>
        ensures { IfOk result (Meets (answer_wanted (note_of connection.now.awaited response.now) connection.now (work_of self.now).state)) }
    {
        match Note::copied(&connection.awaited, response)? {
            Some(note) => self.wanted_once_noted(alloc, connection.role, &note),
            None => Ok(Next::nothing()),
        }
    }

    /// What a response to QUERY wants: that the row of a transaction in doubt is removed, which its superior has forgotten.
    fn wanted_by_query(
        &self,
        connection: &Connection,
        key: Key,
        response: &Response,
    ) -> Option<Change>
        requires { connection_of connection.now.number (work_of self.now).state
            ≡ Some connection.now }
        ensures { asking_for result
            ≡ query_wanted (exists_of response.now) key connection.now (work_of self.now).state }
    {
        if exists_of(response)? {
            return None;
        }
        let place = self.transaction(key)?;
        let transaction = self.at(key, place);
        if is_prepared(transaction.txn.phase())
            && !self.has_superior_then(connection, transaction.key)
        {
            Some(Change::Remove {
                key: transaction.key,
            })
        } else {
            None
        }
    }

    /// Whether the superior of the transaction of a key is on a connection, once this one has gone on after QUERIEDNOTFOUND.
    #[tactic(auto, using(crate::proofs::Asking::superior_then))]
    fn has_superior_then(&self, connection: &Connection, key: Key) -> bool
        requires { connection_of connection.now.number (work_of self.now).state
            ≡ Some connection.now }
        ensures { result ≡ list_any (is_superior_of key)
            (forgotten connection.now (work_of self.now).state).connections }
    {
        let there = self
            .connections
            .count_passing(self.realm, &SuperiorOf { key });
        if leaves(connection, key) {
            there > 1
        } else {
            there > 0
        }
    }

    /// What the transaction wants whose part's connection one of this role is, once this is noted of the part.
    fn wanted_once_noted(
        &self,
        alloc: Global,
        role: Option<Role>,
        note: &Note,
    ) -> Result<Next, AllocError>
        ensures { IfOk result (Meets (wanted_of_part note.now (part_of role) (work_of self.now).state)) }
    {
        match role {
            Some(role) => self.wanted_on_role(alloc, role, note),
            None => Ok(Next::nothing()),
        }
    }

    /// What the transaction wants whose part's connection this role is, once this is noted of the part.
    fn wanted_on_role(&self, alloc: Global, role: Role, note: &Note) -> Result<Next, AllocError>
        ensures { IfOk result
            (Meets (wanted_of_part note.now (part_of (Some role)) (work_of self.now).state)) }
    {
        match role {
            Role::Subordinate { key, part } => self.wanted_noting(alloc, key, part, note),
            Role::Superior(_) => Ok(Next::nothing()),
        }
    }

    /// What a transaction wants once this is noted of a part of it.
    fn wanted_noting(
        &self,
        alloc: Global,
        key: Key,
        part: Part,
        note: &Note,
    ) -> Result<Next, AllocError>
        ensures { IfOk result (Meets (option_map_or
            (wanted_noting note.now part (work_of self.now).state)
            (transaction_of key (work_of self.now).state) Course.Stays)) }
    {
        let Some(place) = self.transaction(key) else {
            return Ok(Next::nothing());
        };
        let transaction = self.at(key, place);
        let owed = self.owed_to_superior(transaction.key);
        Outlook::noted(transaction, part, note).next(alloc, owed)
    }

    /// What a vote wants: the row that all agree on.
    #[tactic(auto, using(crate::proofs::Ahead::voting_ahead))]
    fn wanted_by_vote(&self, alloc: Global, party: &HeldParty) -> Result<Next, AllocError>
        requires { self.now.realm < length self.now.heads.items }
        ensures { IfOk result (Meets (foreseen (Voted party.now) (work_of self.now).state)) }
    {
        let Some((key, place)) = self.owner(party) else {
            return Ok(Next::nothing());
        };
        if is_voting(&self.at(key, place).place) {
            self.wanted_once_voted(alloc, key, place, answer_of(party), party.party().members())
        } else {
            Ok(Next::nothing())
        }
    }

    /// What a vote wants of the transaction that gave the party out: the row that all agree on.
    fn wanted_once_voted(
        &self,
        alloc: Global,
        key: Key,
        place: usize,
        answer: Ballot,
        members: &[Member],
    ) -> Result<Next, AllocError>
        requires { StandsAt self.now.transactions self.now.realm (is_keyed key) place }
        ensures { (t : ATransaction) (party : PartyNotes) →
            transaction_of key (work_of self.now).state ≡ Some t → members.now ≡ party.members →
            IfOk result (Follows
            (outlook (noting 0 (answered answer) (standing_at (Here party) t)))
            (owed_to_superior key (work_of self.now).state)) }
    {
        let transaction = self.at(key, place);
        Outlook::voted(transaction, answer, members).next(alloc, self.owed_to_superior(key))
    }

    /// What a party wants that was told the outcome: that the row is removed, where all have acknowledged.
    #[tactic(auto, using(crate::proofs::Ahead::settling_ahead))]
    fn wanted_by_settled(&self, alloc: Global, party: &HeldParty) -> Result<Next, AllocError>
        requires { self.now.realm < length self.now.heads.items }
        ensures { IfOk result (Meets (foreseen (Settled party.now) (work_of self.now).state)) }
    {
        let Some((key, place)) = self.owner(party) else {
            return Ok(Next::nothing());
        };
        let at = &self.at(key, place).place;
        if is_aborting(at) {
            return self.wanted_once_back(alloc, key, place, party.party().members());
        }
        if !is_committing(at) {
            return Ok(Next::nothing());
        }
        if has_ready(party) {
            self.wanted_once_back(alloc, key, place, party.party().members())
        } else {
            self.wanted_once_spent(alloc, key, place)
        }
    }

    /// What a party that was told the outcome wants, where it is with its transaction then: that the row is removed, where all have
    /// acknowledged.
    fn wanted_once_back(
        &self,
        alloc: Global,
        key: Key,
        place: usize,
        members: &[Member],
    ) -> Result<Next, AllocError>
        requires { StandsAt self.now.transactions self.now.realm (is_keyed key) place }
        ensures { (t : ATransaction) (party : PartyNotes) →
            transaction_of key (work_of self.now).state ≡ Some t → members.now ≡ party.members →
            IfOk result (Follows (outlook (standing_at (Here party) t))
            (owed_to_superior key (work_of self.now).state)) }
    {
        let transaction = self.at(key, place);
        Outlook::back(transaction, members).next(alloc, self.owed_to_superior(key))
    }

    /// What a party that was told the outcome wants, where it is let go then: that the row is removed, where all have acknowledged.
    fn wanted_once_spent(&self, alloc: Global, key: Key, place: usize) -> Result<Next, AllocError>
        requires { StandsAt self.now.transactions self.now.realm (is_keyed key) place }
        ensures { (t : ATransaction) → transaction_of key (work_of self.now).state ≡ Some t →
            IfOk result (Follows (outlook (standing_at Spent t))
            (owed_to_superior key (work_of self.now).state)) }
    {
        let transaction = self.at(key, place);
        Outlook::spent(transaction).next(alloc, self.owed_to_superior(key))
    }

    /// What it wants that a transaction is tried again: that its row is removed, where only this is left.
    fn wanted_by_resume(&self, id: &Id) -> Option<Change>
        requires { self.now.realm < length self.now.heads.items }
        ensures { asking_for result ≡ foreseen (Resume id.now) (work_of self.now).state }
    {
        let (key, place) = self.identified(id)?;
        wanted_again(self.at(key, place))
    }
}

/// What a transaction wants that is tried again: that its row is removed, where only this is left.
fn wanted_again(transaction: &Transaction) -> Option<Change>
    ensures { asking_for result ≡ resume_wanted (seen transaction.now) }
{
    if !is_committed(transaction.txn.phase()) {
        return None;
    }
    match &transaction.place {
        PartyPlace::Spent => Outlook::of(transaction).finished(),
        PartyPlace::Here(_) | PartyPlace::Out(_) => None,
    }
}

/// Whether a connection is the one of a transaction's superior, and no more once it has gone on after QUERIEDNOTFOUND.
#[tactic(auto, using(crate::proofs::Asking::leaving))]
fn leaves(connection: &Connection, key: Key) -> bool
    ensures { result ≡ (is_superior_of key connection.now
        && not (is_superior_of key (advanced Query QueriedNotFound connection.now))) }
{
    asks_for(connection.role, key)
        && becomes_idle(after_named(
            connection.state,
            CommandName::Query,
            ResponseName::QueriedNotFound,
        ))
}

/// Whether a connection is idle once it has gone there.
fn becomes_idle(to: Option<(State, Turn)>) -> bool
    ensures { result ≡ option_map_or (λ place. is_idle place.0) to false }
{
    match to {
        Some((state, _)) => state == State::Idle,
        None => false,
    }
}

/// Whether a command is valid on a connection.
fn is_admitted(connection: &Connection, command: &Command) -> bool
    ensures { result
        ≡ is_admitted (admit_of connection.now.state connection.now.side (name_of command.now)) }
{
    match admit(connection.state, connection.side, command) {
        Admit::Serve => true,
        Admit::Wrong => false,
    }
}
