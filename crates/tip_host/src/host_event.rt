//! What a caller makes happen at a host.
ghost use Rattle.std.specs.Prelude.{◌≡◌, true, option_map};
ghost use Rattle.tip_branch.specs.Always.{Always};
ghost use Rattle.tip_machine.specs.Honest.{brings_no_party};
ghost use Rattle.tip_machine.specs.declared.event.Event.TheVariants as event;
ghost use Rattle.tip_host.specs.Seats.{seat_at, seat_of, within};

use crate::seat::Seat;
use std::marker::Model;
use tip_branch::HeldFresh;
use tip_line::{Address, Id};
use tip_machine::{Event, Heard, Purpose};

/// An event that a caller makes at a host: of one realm, which it names or whose seat it has. It brings no party, since whoever
/// is out comes back by `Host::come_back` alone.
#[derive(Drop)]
pub struct HostEvent {
    realm: usize,
    event: Event,
}

impl Model for HostEvent {
    ghost use Rattle.std.specs.Prelude.{◌≡◌, true};
    ghost use Rattle.tip_machine.specs.Honest.{brings_no_party};
    ghost use Rattle.tip_host.specs.HostEvents.{HostEvent};

    ghost Value = { HostEvent };

    ghost view = { λ e. record { realm = e.realm; event = e.event } };

    ghost invariant = { λ e. brings_no_party e.event ≡ true };
}

impl HostEvent {
    /// Another manager has opened a connection; its transactions will take these boxes.
    pub fn open(realm: usize, boxes: HeldFresh) -> HostEvent
        requires { Always }
        ensures realm { result.realm ≡ realm }
        ensures event { result.event ≡ event.Open boxes }
    {
        HostEvent {
            realm,
            event: Event::Open { boxes },
        }
    }

    /// We have opened a connection to this address; its transactions will take these boxes.
    pub fn dial(realm: usize, address: Address, purpose: Purpose, boxes: HeldFresh) -> HostEvent
        requires { Always }
        ensures realm { result.realm ≡ realm }
        ensures event { result.event ≡ event.Dial address purpose boxes }
    {
        HostEvent {
            realm,
            event: Event::Dial {
                address,
                purpose,
                boxes,
            },
        }
    }

    /// A line came on a connection.
    pub fn line(seat: Seat, heard: Heard) -> HostEvent
        requires { Always }
        ensures realm { result.realm ≡ seat.realm }
        ensures event { result.event ≡ event.Line (within seat) heard }
    {
        HostEvent {
            realm: seat.realm,
            event: Event::Line {
                seat: seat.within(),
                heard,
            },
        }
    }

    /// A connection is lost.
    pub fn lost(seat: Seat) -> HostEvent
        requires { Always }
        ensures realm { result.realm ≡ seat.realm }
        ensures event { result.event ≡ event.Lost (within seat) }
    {
        HostEvent {
            realm: seat.realm,
            event: Event::Lost {
                seat: seat.within(),
            },
        }
    }

    /// A transaction is to be pushed to the other side of a connection that we opened.
    pub fn ask_push(seat: Seat, id: Id) -> HostEvent
        requires { Always }
        ensures realm { result.realm ≡ seat.realm }
        ensures event { result.event ≡ event.AskPush (within seat) id }
    {
        HostEvent {
            realm: seat.realm,
            event: Event::AskPush {
                seat: seat.within(),
                id,
            },
        }
    }

    /// A transaction of the other side of a connection that we opened is to be pulled.
    pub fn ask_pull(seat: Seat, superior: Id) -> HostEvent
        requires { Always }
        ensures realm { result.realm ≡ seat.realm }
        ensures event { result.event ≡ event.AskPull (within seat) superior }
    {
        HostEvent {
            realm: seat.realm,
            event: Event::AskPull {
                seat: seat.within(),
                superior,
            },
        }
    }

    /// What is left of a committed transaction is to be tried again.
    pub fn resume(realm: usize, id: Id) -> HostEvent
        requires { Always }
        ensures realm { result.realm ≡ realm }
        ensures event { result.event ≡ event.Resume id }
    {
        HostEvent {
            realm,
            event: Event::Resume { id },
        }
    }

    /// The place of its realm in the order of declaration, from 0.
    pub fn realm(&self) -> usize
        ensures { result ≡ self.now.realm }
    {
        self.realm
    }

    /// The connection that it is an event of, if it is one of a connection.
    pub fn seat(&self) -> Option<Seat>
        ensures { result ≡ option_map (seat_at self.now.realm) (seat_of self.now.event) }
    {
        match &self.event {
            Event::Line { seat, .. }
            | Event::Lost { seat }
            | Event::AskPush { seat, .. }
            | Event::AskPull { seat, .. } => Some(Seat::at(self.realm, *seat)),
            _ => None,
        }
    }

    /// The realm, and the event as it is there.
    pub(crate) fn into_parts(self) -> (usize, Event)
        requires { Always }
        ensures realm { result.0 ≡ self.realm }
        ensures event { result.1 ≡ self.event }
        ensures nobody { brings_no_party result.1 ≡ true }
    {
        let HostEvent { realm, event } = self;
        (realm, event)
    }

    /// The event of a realm that was taken apart, where nothing has happened.
    pub(crate) fn of_parts(realm: usize, event: Event) -> HostEvent
        requires { brings_no_party event ≡ true }
        ensures realm { result.realm ≡ realm }
        ensures event { result.event ≡ event }
    {
        HostEvent { realm, event }
    }
}
