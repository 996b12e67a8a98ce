//! Connections of a host.
ghost use Rattle.std.specs.Prelude.{◌≡◌};
ghost use Rattle.tip_host.specs.Seats.{seat_at, within};

use tip_machine::Seat as RealmSeat;

/// A connection of one of a host's realms. It is stale once the realm has started again.
#[derive(Clone, Copy, PartialEq, Eq)]
pub struct Seat {
    /// The realm's place in the order of declaration, from 0.
    pub realm: usize,
    /// The start of the realm that the connection belongs to.
    pub epoch: u32,
    /// Counted from 1 in that start.
    pub number: u32,
}

impl Seat {
    /// The seat that a realm's connection has at its host.
    pub(crate) fn at(realm: usize, seat: RealmSeat) -> Seat
        ensures { result ≡ seat_at realm seat }
    {
        Seat {
            realm,
            epoch: seat.epoch,
            number: seat.number,
        }
    }

    /// The seat as its realm knows it.
    pub(crate) fn within(self) -> RealmSeat
        ensures { result ≡ within self }
    {
        RealmSeat {
            epoch: self.epoch,
            number: self.number,
        }
    }
}
