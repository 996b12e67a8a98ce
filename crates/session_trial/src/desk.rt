//! A desk in memory.
ghost use Rattle.std.specs.Prelude.{◌≡◌, [], None};
ghost use Rattle.session_trial.specs.Desks.{Keeps, seen_of};
ghost use Rattle.tip_session.specs.Desks.{nothing};

use std::alloc::{AllocError, Global};
use std::collections::VecDeque;
use std::fmt;
use tip_line::Command;
use tip_machine::{Asked, Heard, Item, Said};
use tip_session::{Came, Desk, DeskFault, Given, Outgoing, Ready};

/// What was taken from a session.
#[derive(Drop)]
pub enum Taken {
    Line(Heard),
    Lost,
    Back(usize),
}

/// A desk that takes so many steps as it has room for. It gives an errand for each line, and answers it.
#[derive(Drop)]
pub struct MemoryDesk {
    pub taken: Vec<Taken>,
    pub outbox: VecDeque<Item>,
    pub given: Given,
    pub is_stopped: bool,
    room: usize,
    owed: Option<usize>,
}

impl fmt::Display for Taken {
    fn fmt<W: fmt::Write>(&self, f: &mut fmt::Formatter<W>) -> fmt::Result {
        match self {
            Taken::Line(Heard::Command(command)) => write!(f, "{command}"),
            Taken::Line(Heard::Response(response)) => write!(f, "{response}"),
            Taken::Line(Heard::Malformed) => write!(f, "malformed"),
            Taken::Lost => write!(f, "lost"),
            Taken::Back(errand) => write!(f, "back {errand}"),
        }
    }
}

impl MemoryDesk {
    /// A desk with room for so many steps.
    pub fn new(alloc: Global, room: usize) -> MemoryDesk
        ensures { seen_of result ≡ record { steps = []; given = nothing; owed = None } }
    {
        MemoryDesk {
            taken: Vec::new(alloc),
            outbox: VecDeque::new(alloc),
            given: Given::nothing(),
            is_stopped: false,
            room,
            owed: None,
        }
    }

    fn keep(&mut self, step: Taken) -> Result<(), DeskFault>
        ensures { Keeps self.old step result self.new }
    {
        if self.taken.len() < self.room && self.taken.push(step).is_ok() {
            return Ok(());
        }
        self.given.note(DeskFault::Memory);
        Err(DeskFault::Memory)
    }
}

/// The answer to a line: a query comes back as it is.
fn answer_to(heard: &Heard) -> Result<Item, AllocError> {
    Ok(match heard {
        Heard::Command(Command::Query { superior }) => Item::Ask(Asked::Query(superior.copy()?)),
        Heard::Command(Command::Identify { .. }) => Item::Say(Said::Identified),
        _ => Item::Say(Said::Error),
    })
}

impl Desk for MemoryDesk {
    ghost use Rattle.session_trial.specs.Desks.{GivesOldest, name_of, seen_of};

    type Work = usize;

    ghost name = { name_of };

    ghost seen = { seen_of };

    ghost gives = { GivesOldest };

    fn wait_ready(&mut self) -> Ready {
        if self.is_stopped {
            self.given.stopped = true;
            return Ready::Stopped;
        }
        Ready::Ready
    }

    fn line(&mut self, heard: Heard) -> Result<Came<usize>, DeskFault> {
        if self.is_stopped {
            self.given.note(DeskFault::Stopped);
            return Err(DeskFault::Stopped);
        }
        let Ok(answer) = answer_to(&heard) else {
            self.given.note(DeskFault::Memory);
            return Err(DeskFault::Memory);
        };
        if self.outbox.push_back(answer).is_err() {
            self.given.note(DeskFault::Memory);
            return Err(DeskFault::Memory);
        }
        let errand = self.taken.len();
        self.keep(Taken::Line(heard))?;
        self.owed = Some(errand);
        Ok(Came::Work(errand))
    }

    fn done(&mut self, work: usize) -> Result<Option<usize>, DeskFault> {
        self.owed = None;
        self.keep(Taken::Back(work))?;
        Ok(None)
    }

    fn lost(&mut self) -> Result<Option<usize>, DeskFault> {
        self.given.lost = true;
        self.keep(Taken::Lost)?;
        Ok(None)
    }

    fn next_out(&mut self) -> Outgoing {
        if self.is_stopped {
            self.given.stopped = true;
            return Outgoing::Stopped;
        }
        match self.outbox.pop_front() {
            Some(item) => Outgoing::Next(item),
            None => {
                self.given.gone = true;
                Outgoing::Gone
            }
        }
    }

    fn stop(&mut self) {
        self.is_stopped = true;
        self.given.halted = true;
    }
}
