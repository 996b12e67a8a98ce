//! An answer in the making.
ghost use Rattle.std.specs.Prelude.{◌≡◌, ◌+◌, ◌-◌, ◌<◌, [], ◌∷◌, ◌++◌, None, Some, IsSome, vec_capacity, vec_len};
ghost use Rattle.tip_branch.specs.Always.{Always};
ghost use Rattle.tip_machine.specs.Answers.{silence};
ghost use Rattle.tip_machine.specs.Order.{in_turn};
ghost use Rattle.tip_machine.specs.Steps.{returned};
ghost use Rattle.tip_outlook.specs.Turns.{turn_in};

use crate::transaction_room::{HeldRoom, TransactionRoom};
use std::alloc::Global;
use std::marker::Model;
use tip_branch::{HeldFresh, HeldParty};
use tip_line::{Address, Id, Refusal};
use tip_machine::{Answer, Event, Item, Seat, Sent, SentLines};
use tip_outlook::Turns;

/// Copies of words, for what is made of them.
#[derive(Drop)]
pub struct Words {
    /// Where the other side of the event's connection is, if it said so.
    pub peer: Option<Address>,
    /// Where we are, for a connection that we open.
    pub ours: Option<Address>,
    /// The identifier that goes into a question.
    pub word: Option<Id>,
}

/// The answer as far as it goes, with room for what may still go out.
#[derive(Drop)]
pub struct Making {
    refusal: Option<Refusal>,
    opened: Option<Seat>,
    sent: Vec<Sent>,
    work: Option<HeldParty>,
    spent: Option<HeldParty>,
    unused: Option<HeldFresh>,
    entry: Option<u32>,
    room: Option<HeldRoom>,
    peer: Option<Address>,
    ours: Option<Address>,
    word: Option<Id>,
}

impl Model for Making {
    ghost use Rattle.std.specs.Prelude.{◌-◌, vec_len, vec_capacity};
    ghost use Rattle.tip_rules.specs.Makings.{Made};

    ghost Value = { Made };

    ghost view = { λ m. record {
      answer = record {
        refusal = m.refusal;
        opened = m.opened;
        sent = m.sent.items;
        work = m.work;
        spent = m.spent;
        unused = m.unused;
        entry = m.entry;
      };
      free = vec_capacity m.sent - vec_len m.sent;
      room = m.room;
      peer = m.peer;
      ours = m.ours;
      word = m.word;
    } };
}

impl Making {
    /// An answer with nothing in it, and without room. It takes no memory.
    pub fn idle(alloc: Global) -> Making
        ensures { result.answer ≡ silence }
    {
        Making {
            refusal: None,
            opened: None,
            sent: Vec::new(alloc),
            work: None,
            spent: None,
            unused: None,
            entry: None,
            room: None,
            peer: None,
            ours: None,
            word: None,
        }
    }

    /// An answer with nothing in it, whose lines and closings will stand here, with room for a transaction if it is given. The
    /// other side of the event's connection is there, if it said where. It takes no memory.
    pub fn new(sent: Vec<Sent>, room: Option<HeldRoom>, words: Words) -> Making
        requires { sent.items ≡ [] }
        ensures answer { result.answer ≡ silence }
        ensures free { result.free ≡ vec_capacity sent - vec_len sent }
        ensures room { result.room ≡ room }
        ensures peer { result.peer ≡ words.peer }
        ensures ours { result.ours ≡ words.ours }
        ensures word { result.word ≡ words.word }
    {
        Making {
            refusal: None,
            opened: None,
            sent,
            work: None,
            spent: None,
            unused: None,
            entry: None,
            room,
            peer: words.peer,
            ours: words.ours,
            word: words.word,
        }
    }

    pub fn tell(&mut self, connection: u32, item: Item)
        requires { 0 < self.old.free }
        ensures answer { self.new.answer ≡ record self.old.answer {
          sent = self.old.answer.sent
              ++ record { connection = connection; item = item } ∷ [];
        } }
        ensures free { self.new.free + 1 ≡ self.old.free }
        ensures room { self.new.room ≡ self.old.room }
        ensures peer { self.new.peer ≡ self.old.peer }
        ensures ours { self.new.ours ≡ self.old.ours }
        ensures word { self.new.word ≡ self.old.word }
    {
        self.sent.push_reserved(Sent { connection, item });
    }

    /// The room for a transaction that begins.
    pub(crate) fn take_room(&mut self) -> TransactionRoom
        requires { IsSome self.old.room }
        ensures taken { self.old.room ≡ Some result }
        ensures left { self.new ≡ record self.old { room = None } }
    {
        match self.room.take() {
            Some(room) => room.into_inner(),
            None => unreachable!(),
        }
    }

    /// Where the other side of the event's connection is.
    pub(crate) fn take_peer(&mut self) -> Option<Address>
        ensures taken { result ≡ self.old.peer }
        ensures left { self.new ≡ record self.old { peer = None } }
    {
        self.peer.take()
    }

    /// Where the other side is of a connection that we open, and where we are.
    pub(crate) fn take_addresses(&mut self) -> (Address, Address)
        requires peer { IsSome self.old.peer }
        requires ours { IsSome self.old.ours }
        ensures peer { self.old.peer ≡ Some result.0 }
        ensures ours { self.old.ours ≡ Some result.1 }
        ensures left { self.new ≡ record self.old { peer = None; ours = None } }
    {
        match (self.peer.take(), self.ours.take()) {
            (Some(peer), Some(ours)) => (peer, ours),
            _ => unreachable!(),
        }
    }

    /// Where the other side of the event's connection is, and the identifier that goes into a question.
    pub(crate) fn take_question(&mut self) -> (Option<Address>, Id)
        requires { IsSome self.old.word }
        ensures peer { result.0 ≡ self.old.peer }
        ensures word { self.old.word ≡ Some result.1 }
        ensures left { self.new ≡ record self.old { peer = None; word = None } }
    {
        match self.word.take() {
            Some(word) => (self.peer.take(), word),
            None => unreachable!(),
        }
    }

    /// The identifier that goes into a question, if there is one.
    pub(crate) fn take_word(&mut self) -> Option<Id>
        ensures taken { result ≡ self.old.word }
        ensures left { self.new ≡ record self.old { word = None } }
    {
        self.word.take()
    }

    pub fn refuse(&mut self, why: Refusal)
        ensures { self.new
            ≡ record self.old { answer = record self.old.answer { refusal = Some why } } }
    {
        self.refusal = Some(why);
    }

    pub fn open(&mut self, seat: Seat)
        ensures { self.new
            ≡ record self.old { answer = record self.old.answer { opened = Some seat } } }
    {
        self.opened = Some(seat);
    }

    pub fn enter(&mut self, entry: u32)
        ensures { self.new
            ≡ record self.old { answer = record self.old.answer { entry = Some entry } } }
    {
        self.entry = Some(entry);
    }

    /// A party goes out for an errand. There is none out for this answer yet.
    pub fn send_out(&mut self, party: HeldParty)
        requires { self.old.answer.work ≡ None }
        ensures { self.new
            ≡ record self.old { answer = record self.old.answer { work = Some party } } }
    {
        self.work = Some(party);
    }

    /// A party is to be let go. There is none yet.
    pub fn let_go(&mut self, party: HeldParty)
        requires { self.old.answer.spent ≡ None }
        ensures { self.new
            ≡ record self.old { answer = record self.old.answer { spent = Some party } } }
    {
        self.spent = Some(party);
    }

    /// Boxes that no transaction took are handed back.
    pub(crate) fn hand_back(&mut self, boxes: HeldFresh)
        ensures { self.new
            ≡ record self.old { answer = record self.old.answer { unused = Some boxes } } }
    {
        self.unused = Some(boxes);
    }

    /// The event can't happen: what it brought goes back.
    pub fn turn_down(&mut self, why: Refusal, event: Event)
        requires { self.old.answer ≡ silence }
        ensures answer { self.new.answer ≡ returned why event }
        ensures rest { self.new ≡ record self.old { answer = self.new.answer } }
    {
        self.refuse(why);
        match event {
            Event::Open { boxes } => self.hand_back(boxes),
            Event::Dial {
                address: _,
                purpose: _,
                boxes,
            } => self.hand_back(boxes),
            Event::Voted(party) => self.let_go(party),
            Event::Settled(party) => self.let_go(party),
            Event::Line { .. }
            | Event::Lost { .. }
            | Event::AskPush { .. }
            | Event::AskPull { .. }
            | Event::Resume { .. } => {}
        }
    }

    /// The answer as it is now, with its lines in the order of their turns.
    pub fn finish(self, turns: &Turns) -> Answer
        requires { Always }
        ensures { result
            ≡ record self.answer { sent = in_turn (turn_in turns.now.turns) self.answer.sent } }
    {
        let Making {
            refusal,
            opened,
            mut sent,
            work,
            spent,
            unused,
            entry,
            room: _,
            peer: _,
            ours: _,
            word: _,
        } = self;
        turns.order(&mut sent);
        Answer {
            refusal,
            opened,
            sent: SentLines::new(sent),
            work,
            spent,
            unused,
            entry,
        }
    }
}
