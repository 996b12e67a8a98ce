//! Responses that we receive as the primary of a connection (RFC 2371, section 13).
ghost use Rattle.std.specs.Prelude.{◌≡◌, ◌≤◌, ◌<◌, ◌+◌, length, Some, if◌then◌else◌};
ghost use Rattle.tip_conn.specs.declared.state.Side.TheVariants.{Primary};
ghost use Rattle.tip_table.specs.Kept.{StandsAt};
ghost use Rattle.tip_machine.specs.Changes.{alter};
ghost use Rattle.tip_machine.specs.Connections.{has_number};
ghost use Rattle.tip_machine.specs.Proceeding.{proceed};
ghost use Rattle.tip_machine.specs.Proceeding.{abort as aborted};
ghost use Rattle.tip_machine.specs.Requests.{hear};
ghost use Rattle.tip_line.specs.declared.response.Response.{Response as ASaid};
ghost use Rattle.tip_machine.specs.Failing.{closed, wrong};
ghost use Rattle.tip_machine.specs.Responses.{abort_as, go_on, greeted};
ghost use Rattle.tip_machine.specs.declared.connection.Purpose.TheVariants.{Plain};
ghost use Rattle.tip_machine.specs.States.{connection_of};
ghost use Rattle.tip_machine.specs.Steps.{chosen};
ghost use Rattle.tip_machine.specs.Transactions.{noting};
ghost use Rattle.tip_machine.specs.Types.{Connection as AConnection};
ghost use Rattle.tip_machine.specs.declared.event.Heard.TheVariants.{Response as AResponse};
ghost use Rattle.tip_outlook.specs.Noting.{awaits_of, identifying, note_of, noted, noting_as, part_of, pulled_of, pulling, responding, version_of};
ghost use Rattle.tip_outlook.specs.Endings.{EndsBy};
ghost use Rattle.tip_outlook.specs.Searches.{is_keyed};
ghost use Rattle.tip_outlook.specs.Wanting.{answer_wanted, said_wanted, wanted_of_part};
ghost use Rattle.tip_rules.specs.Pursuing.{word_at};
ghost use Rattle.tip_rules.specs.Works.{Does, GoesBy, IsIdle, lines_as, lines_at, lines_for, lines_queried, work_of};

use crate::making::Making;
use crate::reaction::Reaction;
use crate::work::Work;
use tip_line::{CommandName, Response, ResponseName};
use tip_machine::{Connection, Role, Transaction};
use tip_outlook::{Awaits, Note, ends, pulled_of, version_of};
use tip_rows::Key;
use tip_txn::Part;

impl Work<Connection, Transaction, Making> {
    /// A response from the secondary, by what is awaited.
    #[tactic(auto, using(crate::proofs::Responses::queried_lines))]
    pub(crate) fn respond(&mut self, number: u32, place: usize, response: Response)
        requires here { self.old.realm < length self.old.heads.items }
        requires stands { StandsAt self.old.connections self.old.realm (has_number number) place }
        requires lines { lines_at number (work_of self.old).state + 2 ≤ self.old.making.free }
        requires queried { lines_queried number (work_of self.old).state ≤ self.old.making.free }
        requires word { self.old.making.word ≡ word_at number (work_of self.old).state }
        requires none { IsIdle self.old.making.answer }
        requires next { GoesBy number
            (λ connection. said_wanted (awaits_of connection.awaited) response connection)
            self.old }
        ensures { (connection : AConnection) →
            connection_of number (work_of self.old).state ≡ Some connection →
            Does self.old self.new (chosen
            (hear Primary (AResponse response) connection (work_of self.old))
            self.old.outcome) }
    {
        match Awaits::of(&self.connection(number, place).awaited) {
            Awaits::OfPart(command) => self.respond_as_part(number, place, command, response),
            Awaits::Pulled => self.respond_to_pull(number, place, response),
            Awaits::Queried(key) => self.respond_to_query(number, place, key, response),
            Awaits::Identified => self.respond_to_identify(number, place, response),
            Awaits::ToAsk => self.respond_to_ask(number, place, response),
            Awaits::ToReach => self.respond_to_reach(number, place, response),
            Awaits::Nothing => {}
        }
    }

    /// A response to what a part was asked.
    fn respond_as_part(
        &mut self,
        number: u32,
        place: usize,
        command: CommandName,
        response: Response,
    )
        requires stands { StandsAt self.old.connections self.old.realm (has_number number) place }
        requires lines { lines_at number (work_of self.old).state + 2 ≤ self.old.making.free }
        requires none { IsIdle self.old.making.answer }
        requires next { GoesBy number
            (λ connection. answer_wanted (note_of connection.awaited response) connection)
            self.old }
        ensures { (connection : AConnection) →
            connection_of number (work_of self.old).state ≡ Some connection →
            Does self.old self.new (chosen (responding (note_of connection.awaited response) command
            response connection (work_of self.old)) self.old.outcome) }
    {
        let name = response.name();
        let ends = ends(&response);
        match Note::of(&self.connection(number, place).awaited, response) {
            Some(note) => self.note_as(number, place, command, name, note),
            None => self.refuse_line(number, place, ends),
        }
    }

    /// A response to IDENTIFY, on a connection that was opened for whatever will be asked.
    fn respond_to_identify(&mut self, number: u32, place: usize, response: Response)
        requires stands { StandsAt self.old.connections self.old.realm (has_number number) place }
        requires lines { lines_at number (work_of self.old).state + 2 ≤ self.old.making.free }
        requires none { IsIdle self.old.making.answer }
        ensures { (connection : AConnection) →
            connection_of number (work_of self.old).state ≡ Some connection →
            Does self.old self.new (chosen
            (identifying (version_of response) Plain response connection (work_of self.old))
            self.old.outcome) }
    {
        match version_of(&response) {
            Some(version) => self.greet_back(number, place, version),
            None => self.refuse_line(number, place, ends(&response)),
        }
    }

    /// IDENTIFIED: the version is 3 or one above, of which we speak 3.
    #[tactic(auto, using(crate::proofs::Responses::greeting_back))]
    fn greet_back(&mut self, number: u32, place: usize, version: u32)
        requires stands { StandsAt self.old.connections self.old.realm (has_number number) place }
        requires lines { lines_at number (work_of self.old).state + 2 ≤ self.old.making.free }
        requires none { IsIdle self.old.making.answer }
        ensures { (connection : AConnection) →
            connection_of number (work_of self.old).state ≡ Some connection →
            Does self.old self.new (greeted version Plain connection (work_of self.old)) }
    {
        if version >= 3 {
            self.go(
                number,
                place,
                CommandName::Identify,
                ResponseName::Identified,
            );
        } else {
            self.reject(number, place);
        }
    }

    /// A response to PULL.
    fn respond_to_pull(&mut self, number: u32, place: usize, response: Response)
        requires stands { StandsAt self.old.connections self.old.realm (has_number number) place }
        requires lines { lines_at number (work_of self.old).state + 2 ≤ self.old.making.free }
        requires none { IsIdle self.old.making.answer }
        ensures { (connection : AConnection) →
            connection_of number (work_of self.old).state ≡ Some connection →
            Does self.old self.new (chosen
            (pulling (pulled_of response) response connection (work_of self.old))
            self.old.outcome) }
    {
        match pulled_of(&response) {
            Some(pulled) => self.end_pull(number, place, pulled),
            None => self.refuse_line(number, place, ends(&response)),
        }
    }

    /// PULLED, or NOTPULLED: then the transaction is aborted.
    #[tactic(auto, using(crate::proofs::Responses::ending_pull))]
    fn end_pull(&mut self, number: u32, place: usize, pulled: bool)
        requires stands { StandsAt self.old.connections self.old.realm (has_number number) place }
        requires lines { lines_at number (work_of self.old).state + 2 ≤ self.old.making.free }
        requires none { IsIdle self.old.making.answer }
        ensures { (connection : AConnection) (said : ASaid) →
            connection_of number (work_of self.old).state ≡ Some connection →
            Does self.old self.new (chosen
            (pulling (Some pulled) said connection (work_of self.old)) self.old.outcome) }
    {
        if pulled {
            self.go(number, place, CommandName::Pull, ResponseName::Pulled);
            return;
        }
        let role = self.connection(number, place).role;
        self.go(number, place, CommandName::Pull, ResponseName::NotPulled);
        if let Some(role) = role {
            self.abort_on(role);
        }
    }

    /// The transaction is aborted that a connection of this role is on.
    #[tactic(auto, using(crate::proofs::Works::may_idle))]
    fn abort_on(&mut self, role: Role)
        requires lines { lines_as (Some role) (work_of self.old).state ≤ self.old.making.free }
        requires none { IsIdle self.old.making.answer }
        ensures { Does self.old self.new (abort_as (Some role) (work_of self.old)) }
    {
        match role {
            Role::Superior(key) => self.abort_open(key),
            Role::Subordinate { key, part: _ } => self.abort_open(key),
        }
    }

    /// The transaction of a key is aborted, if it is open; who is on it hears so all the same.
    #[tactic(auto, using(crate::proofs::Proceeding::aborting_open))]
    pub(crate) fn abort_open(&mut self, key: Key)
        requires lines { lines_for key (work_of self.old).state ≤ self.old.making.free }
        requires none { IsIdle self.old.making.answer }
        ensures { Does self.old self.new (aborted key (work_of self.old)) }
    {
        match self.transaction(key) {
            Some(place) => self.abort(key, place),
            None => self.react(Reaction::Aborts, key),
        }
    }

    /// A response that is none to what was asked: NEEDTLS and ERROR end the connection, any other is a wrong line.
    pub(crate) fn refuse_line(&mut self, number: u32, place: usize, ends: bool)
        requires stands { StandsAt self.old.connections self.old.realm (has_number number) place }
        requires lines { lines_at number (work_of self.old).state + 2 ≤ self.old.making.free }
        requires none { IsIdle self.old.making.answer }
        ensures { (connection : AConnection) →
            connection_of number (work_of self.old).state ≡ Some connection →
            Does self.old self.new (if ends then closed connection (work_of self.old)
            else wrong connection (work_of self.old)) }
    {
        if ends {
            self.close(number, place);
        } else {
            self.reject(number, place);
        }
    }

    /// The connection goes on by the connection table, the part is noted whose connection it is, and its transaction goes on.
    #[tactic(auto, using(crate::proofs::Responses::noting_one))]
    fn note_as(
        &mut self,
        number: u32,
        place: usize,
        command: CommandName,
        response: ResponseName,
        note: Note,
    )
        requires stands { StandsAt self.old.connections self.old.realm (has_number number) place }
        requires lines { lines_at number (work_of self.old).state + 2 ≤ self.old.making.free }
        requires none { IsIdle self.old.making.answer }
        requires next { GoesBy number
            (λ connection. wanted_of_part note (part_of connection.role))
            self.old }
        ensures { (connection : AConnection) →
            connection_of number (work_of self.old).state ≡ Some connection →
            Does self.old self.new (chosen (noting_as note connection.role
            (go_on command response connection (work_of self.old))) self.old.outcome) }
    {
        let role = self.connection(number, place).role;
        self.go(number, place, command, response);
        if let Some(role) = role {
            self.note_on(role, note);
        }
    }

    /// The part is noted whose connection one of this role is, and its transaction goes on.
    #[tactic(auto, using(crate::proofs::Responses::noting_role))]
    fn note_on(&mut self, role: Role, note: Note)
        requires lines { lines_as (Some role) (work_of self.old).state ≤ self.old.making.free }
        requires none { IsIdle self.old.making.answer }
        requires next { EndsBy
            (wanted_of_part note (part_of (Some role)) (work_of self.old).state)
            self.old.endings }
        ensures { Does self.old self.new
            (chosen (noting_as note (Some role) (work_of self.old)) self.old.outcome) }
    {
        match role {
            Role::Subordinate { key, part } => self.note_part(key, part, note),
            Role::Superior(_) => {}
        }
    }

    /// This is noted of a part, where there is such a part, and its transaction goes on.
    #[tactic(auto, using(crate::proofs::Responses::noting_part))]
    fn note_part(&mut self, key: Key, part: Part, note: Note)
        requires lines { lines_for key (work_of self.old).state ≤ self.old.making.free }
        requires none { IsIdle self.old.making.answer }
        requires next { EndsBy (wanted_of_part note (Some (key, part)) (work_of self.old).state)
            self.old.endings }
        ensures { Does self.old self.new
            (chosen (proceed key (alter key (noting part (noted note)) (work_of self.old)))
            self.old.outcome) }
    {
        let Some(place) = self.transaction(key) else {
            return;
        };
        self.take_note(key, place, part, note);
        self.proceed(key, place);
    }

    /// This is noted of a part, if there is such a part.
    #[tactic(auto, using(crate::proofs::Responses::taking_note))]
    fn take_note(&mut self, key: Key, place: usize, part: Part, note: Note)
        requires { StandsAt self.old.transactions self.old.realm (is_keyed key) place }
        ensures does { Does self.old self.new
            (alter key (noting part (noted note)) (work_of self.old)) }
        ensures stands { StandsAt self.new.transactions self.new.realm (is_keyed key) place }
    {
        match note {
            Note::Nothing => {}
            Note::Answered(answer) => self.note(key, place, part, answer),
            Note::Acknowledged => self.acknowledge(key, place, part),
            Note::Named(id) => self.name_part(key, place, part, id),
        }
    }
}
