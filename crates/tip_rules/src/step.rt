//! The step of the realm at hand: its entry, and the rule of the event (RFC 2371, sections 12 and 13).
ghost use Rattle.std.specs.Prelude.{◌≡◌, ◌≤◌, ◌<◌, ◌+◌, ℕ, List, Some, length, true, false};
ghost use Rattle.tip_conn.specs.declared.state.Side.TheVariants.{Primary, Secondary};
ghost use Rattle.tip_line.specs.Command.{name_of};
ghost use Rattle.tip_line.specs.declared.command.Command.{Command};
ghost use Rattle.tip_table.specs.Kept.{StandsAt, of};
ghost use Rattle.tip_machine.specs.Answers.{silence};
ghost use Rattle.tip_machine.specs.Connections.{has_number};
ghost use Rattle.tip_machine.specs.Counts.{HasCounts};
ghost use Rattle.tip_machine.specs.Given.{are_numbered};
ghost use Rattle.tip_machine.specs.Requests.{hear, line};
ghost use Rattle.tip_machine.specs.States.{connection_of, seated};
ghost use Rattle.tip_machine.specs.Steps.{attempt, chosen, frozen};
ghost use Rattle.tip_machine.specs.Types.{Connection as AConnection};
ghost use Rattle.tip_machine.specs.declared.event.Heard.TheVariants.{Command as ACommand};
ghost use Rattle.tip_machine.specs.declared.event.Event.TheVariants.{Line as ALine};
ghost use Rattle.tip_outlook.specs.Endings.{EndsBy};
ghost use Rattle.tip_outlook.specs.Wanting.{foreseen, taken_wanted};
ghost use Rattle.tip_rules.specs.Growing.{CanGrow};
ghost use Rattle.tip_rules.specs.Needs.{HasNeeds, IsReady, begins, happened, joined};
ghost use Rattle.tip_rules.specs.Pursuing.{word_at};
ghost use Rattle.tip_rules.specs.Works.{Does, GoesBy, IsIdle, lines_at, lines_queried, MayMake, peer_of, work_of};

use crate::making::Making;
use crate::work::Work;
use tip_conn::Side;
use tip_line::{CommandName, Refusal};
use tip_machine::{Connection, Event, Heard, Seat, Transaction};

impl Work<Connection, Transaction, Making> {
    /// One event of the realm at hand, which has what it needs. Its lines are not put in order yet.
    #[tactic(auto, using(crate::proofs::Happening::stepping))]
    pub fn step(&mut self, event: Event)
        requires here { self.old.realm < length self.old.heads.items }
        requires counts { HasCounts (work_of self.old).state }
        requires silent { self.old.making.answer ≡ silence }
        requires needs { HasNeeds event self.old }
        ensures { Does self.old self.new
            (happened (work_of self.old).state event self.old.outcome) }
    {
        if !self.is_open() {
            return self.turn_down(event);
        }
        self.take_entry();
        self.happen(event);
    }

    /// A realm whose journal is full stays as it is.
    fn turn_down(&mut self, event: Event)
        requires { self.old.making.answer ≡ silence }
        ensures { Does self.old self.new (frozen event (work_of self.old).state) }
    {
        self.making.turn_down(Refusal::Frozen, event);
    }

    /// The rule of an event that has its entry.
    #[tactic(auto, using(crate::proofs::Happening::happening))]
    fn happen(&mut self, event: Event)
        requires { IsReady event self.old }
        ensures { Does self.old self.new
            (chosen (attempt event (work_of self.old)) self.old.outcome) }
    {
        match event {
            Event::Open { boxes } => self.open(boxes),
            Event::Dial {
                address,
                purpose,
                boxes,
            } => self.dial(address, purpose, boxes),
            Event::Line { seat, heard } => self.line(seat, heard),
            Event::Voted(party) => self.voted(party),
            Event::Settled(party) => self.settled(party),
            Event::Lost { seat } => self.lost(seat),
            Event::AskPush { seat, id } => self.ask_push(seat, &id),
            Event::AskPull { seat, superior } => self.ask_pull(seat, superior),
            Event::Resume { id } => self.resume(&id),
        }
    }

    /// A line for a connection, if it is there; one that comes out of turn is not heard, and may come again.
    #[tactic(auto, using(crate::proofs::Happening::lining))]
    fn line(&mut self, seat: Seat, heard: Heard)
        requires here { self.old.realm < length self.old.heads.items }
        requires able { begins heard ≡ true → MayMake seat.number self.old }
        requires peer { self.old.making.peer ≡ peer_of seat.number (work_of self.old).state }
        requires part { (id : List ℕ) → joined heard ≡ Some id →
            CanGrow (work_of self.old).state.head.name id
            (of self.old.transactions self.old.realm) }
        requires numbered { are_numbered (work_of self.old).state ≡ true }
        requires lines { lines_at seat.number (work_of self.old).state + 2 ≤ self.old.making.free }
        requires queried { lines_queried seat.number (work_of self.old).state
            ≤ self.old.making.free }
        requires word { self.old.making.word ≡ word_at seat.number (work_of self.old).state }
        requires none { IsIdle self.old.making.answer }
        requires next { EndsBy (foreseen (ALine seat heard) (work_of self.old).state)
            self.old.endings }
        ensures { Does self.old self.new (chosen
            (line (seated seat (work_of self.old).state) heard (work_of self.old))
            self.old.outcome) }
    {
        let Some(place) = self.seated(seat) else {
            return self.refuse(Refusal::Stale);
        };
        let connection = self.connection(seat.number, place);
        let side = connection.side;
        if !connection.may_take() {
            return self.refuse(Refusal::Busy);
        }
        match side {
            Side::Secondary => self.hear(seat.number, place, heard),
            Side::Primary => self.hear_as_primary(seat.number, place, heard),
        }
    }

    /// As its secondary we wait for a command.
    fn hear(&mut self, number: u32, place: usize, heard: Heard)
        requires here { self.old.realm < length self.old.heads.items }
        requires stands { StandsAt self.old.connections self.old.realm (has_number number) place }
        requires able { begins heard ≡ true → MayMake number self.old }
        requires peer { self.old.making.peer ≡ peer_of number (work_of self.old).state }
        requires part { (id : List ℕ) → joined heard ≡ Some id →
            CanGrow (work_of self.old).state.head.name id
            (of self.old.transactions self.old.realm) }
        requires numbered { are_numbered (work_of self.old).state ≡ true }
        requires lines { lines_at number (work_of self.old).state + 2 ≤ self.old.making.free }
        requires none { IsIdle self.old.making.answer }
        requires next { GoesBy number (taken_wanted Secondary heard) self.old }
        ensures { (connection : AConnection) →
            connection_of number (work_of self.old).state ≡ Some connection →
            Does self.old self.new
            (chosen (hear Secondary heard connection (work_of self.old)) self.old.outcome) }
    {
        match heard {
            Heard::Command(command) => self.command(number, place, command),
            Heard::Response(_) | Heard::Malformed => self.reject(number, place),
        }
    }

    /// As its primary we wait for a response; ERROR is a command too.
    fn hear_as_primary(&mut self, number: u32, place: usize, heard: Heard)
        requires here { self.old.realm < length self.old.heads.items }
        requires stands { StandsAt self.old.connections self.old.realm (has_number number) place }
        requires lines { lines_at number (work_of self.old).state + 2 ≤ self.old.making.free }
        requires queried { lines_queried number (work_of self.old).state ≤ self.old.making.free }
        requires word { self.old.making.word ≡ word_at number (work_of self.old).state }
        requires none { IsIdle self.old.making.answer }
        requires next { GoesBy number (taken_wanted Primary heard) self.old }
        ensures { (connection : AConnection) →
            connection_of number (work_of self.old).state ≡ Some connection →
            Does self.old self.new
            (chosen (hear Primary heard connection (work_of self.old)) self.old.outcome) }
    {
        match heard {
            Heard::Command(command) => self.name_as_primary(number, place, command.name()),
            Heard::Response(response) => self.respond(number, place, response),
            Heard::Malformed => self.reject(number, place),
        }
    }

    /// A command came where we wait for a response: ERROR ends the connection without a word, any other is an error.
    #[tactic(auto, using(crate::proofs::Happening::hearing_as_primary))]
    fn name_as_primary(&mut self, number: u32, place: usize, name: CommandName)
        requires stands { StandsAt self.old.connections self.old.realm (has_number number) place }
        requires lines { lines_at number (work_of self.old).state + 2 ≤ self.old.making.free }
        requires none { IsIdle self.old.making.answer }
        ensures { (connection : AConnection) (command : Command) →
            connection_of number (work_of self.old).state ≡ Some connection →
            name_of command ≡ name → Does self.old self.new (chosen
            (hear Primary (ACommand command) connection (work_of self.old))
            self.old.outcome) }
    {
        if name == CommandName::Error {
            self.close(number, place);
        } else {
            self.reject(number, place);
        }
    }
}
