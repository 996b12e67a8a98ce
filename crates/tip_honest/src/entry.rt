//! What a journal keeps of an event.
ghost use Rattle.std.specs.Prelude.{◌≡◌, ◌↔◌, IfOk, IsTrue};

use crate::badges::Badges;
use std::alloc::{AllocError, Global};
use std::marker::Model;
use std::sync::Arc;
use tip_branch::PartyNote;
use tip_journal::Plain;
use tip_machine::{Event, Outcome};

/// An event as it is kept: its boxes and its party as what is noted of them. Whoever keeps it owns it together with the others, so
/// that a journal and a pass have one between them.
#[derive(Drop)]
pub struct PlainEvent {
    event: Arc<Event<Badges, PartyNote>>,
}

impl Model for PlainEvent {
    ghost use Rattle.std.specs.Arc.{arc_value};
    ghost use Rattle.tip_machine.specs.Types.{Event};

    ghost Value = { Event };

    ghost view = { λ p. arc_value p.event };
}

impl PlainEvent {
    /// An event, copied.
    pub fn of(alloc: Global, event: &Event) -> Result<PlainEvent, AllocError>
        ensures { IfOk result (λ kept. kept ≡ event.now) }
    {
        let event = plain(alloc, event)?;
        Ok(PlainEvent {
            event: Arc::new(alloc, event)?,
        })
    }

    /// This event, with an owner more. It takes no memory.
    pub fn share(&self) -> Result<PlainEvent, AllocError>
        ensures { IfOk result (λ kept. kept ≡ self.now) }
    {
        Ok(PlainEvent {
            event: Arc::try_clone(&self.event)?,
        })
    }

    pub fn as_event(&self) -> &Event<Badges, PartyNote>
        ensures { result.now ≡ self.now }
    {
        &self.event
    }
}

/// An event without boxes, and what became of the change that it wanted. What the realm answered is no part of it: its machine
/// gives one answer to an event and an outcome.
#[derive(Drop)]
pub struct Entry {
    pub event: PlainEvent,
    pub outcome: Outcome,
}

impl Plain for Entry {
    fn is(&self, other: &Entry) -> bool {
        self.outcome == other.outcome && is_same(self.event.as_event(), other.event.as_event())
    }
}

/// Whether two events are the same.
fn is_same(one: &Event<Badges, PartyNote>, other: &Event<Badges, PartyNote>) -> bool
    ensures { IsTrue result ↔ (one.now ≡ other.now) }
{
    match (one, other) {
        (Event::Open { boxes }, Event::Open { boxes: others }) => boxes.are(others),
        (
            Event::Dial {
                address,
                purpose,
                boxes,
            },
            Event::Dial {
                address: elsewhere,
                purpose: aim,
                boxes: others,
            },
        ) => address == elsewhere && purpose == aim && boxes.are(others),
        (
            Event::Line { seat, heard },
            Event::Line {
                seat: there,
                heard: said,
            },
        ) => { seat == there && heard == said }
        (Event::Voted(party), Event::Voted(others)) => party.is(others),
        (Event::Settled(party), Event::Settled(others)) => party.is(others),
        (Event::Lost { seat }, Event::Lost { seat: there }) => seat == there,
        (
            Event::AskPush { seat, id },
            Event::AskPush {
                seat: there,
                id: named,
            },
        ) => { seat == there && id == named }
        (
            Event::AskPull { seat, superior },
            Event::AskPull {
                seat: there,
                superior: named,
            },
        ) => seat == there && superior == named,
        (Event::Resume { id }, Event::Resume { id: named }) => id == named,
        _ => false,
    }
}

/// An event without boxes, copied.
fn plain(alloc: Global, event: &Event) -> Result<Event<Badges, PartyNote>, AllocError>
    ensures { IfOk result (λ plain. plain ≡ event.now) }
{
    Ok(match event {
        Event::Open { boxes } => Event::Open {
            boxes: Badges::new(boxes.badges(alloc)?),
        },
        Event::Dial {
            address,
            purpose,
            boxes,
        } => Event::Dial {
            address: address.copy()?,
            purpose: purpose.copy()?,
            boxes: Badges::new(boxes.badges(alloc)?),
        },
        Event::Line { seat, heard } => Event::Line {
            seat: *seat,
            heard: heard.copy()?,
        },
        Event::Voted(party) => Event::Voted(PartyNote::of(alloc, party)?),
        Event::Settled(party) => Event::Settled(PartyNote::of(alloc, party)?),
        Event::Lost { seat } => Event::Lost { seat: *seat },
        Event::AskPush { seat, id } => Event::AskPush {
            seat: *seat,
            id: id.copy()?,
        },
        Event::AskPull { seat, superior } => Event::AskPull {
            seat: *seat,
            superior: superior.copy()?,
        },
        Event::Resume { id } => Event::Resume { id: id.copy()? },
    })
}
