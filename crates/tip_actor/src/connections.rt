//! What happens to the connections of a realm, which are known by their numbers.
ghost use Rattle.std.specs.Prelude.{◌≡◌, List, false, IfOk, option_map, string_bytes};
ghost use Rattle.tip_script.specs.Moves.{octets_of};
ghost use Rattle.tip_branch.specs.Always.{Always};
ghost use Rattle.tip_actor.specs.Acting.{Acting, Reading, loses, on_connection, pulls, pushes, reading_on};
ghost use Rattle.tip_actor.specs.Halting.{Halts, around};
ghost use Rattle.tip_actor.specs.Standing.{AreReadings, IsActing, IsFed, Tells};

use crate::actor::Actor;
use crate::fault::ActFault;
use std::alloc::{AllocError, Global};
use tip_line::Id;
use tip_machine::{Event, Seat};
use tip_rows::RowLog;
use tip_script::Octets;
use tip_stored::{PartyOut, StoredCore};

impl Actor<PartyOut> {
    /// Octets come on a connection. It says whether the realm has given that connection.
    pub fn feed(
        &mut self,
        alloc: Global,
        connection: u32,
        octets: Octets<'_>,
    ) -> Result<bool, AllocError>
        requires { Always }
        ensures same { (self.new.name ≡ self.old.name) × (self.new.errands ≡ self.old.errands)
            × (self.new.is_due ≡ self.old.is_due) }
        ensures fed { (readings : List Reading) → AreReadings self.old.readers.items readings →
            IfOk result (λ told. IsFed told connection (octets_of octets.entry) readings
            self.new.readers.items) }
    {
        self.readers.feed(alloc, connection, octets)
    }

    /// A connection is lost, and what was read on it, unless that is refused. It says whether the realm has given that connection.
    pub fn lose_connection<S: RowLog>(
        &mut self,
        alloc: Global,
        stored_core: &mut StoredCore<S>,
        place: usize,
        connection: u32,
        printed: &mut String,
    ) -> Result<bool, ActFault>
        requires always { Always }
        requires running { stored_core.old.is_stopped ≡ false }
        ensures truth { S.keeping.is_true stored_core.new.store →
            S.keeping.is_true stored_core.old.store }
        ensures running { stored_core.new.is_stopped ≡ false }
        ensures tells { (acting : Acting) →
            IsActing S.keeping stored_core.old place self.old acting →
            IfOk result (λ told. Tells S.keeping stored_core.old stored_core.new place
            self.old self.new (string_bytes printed.old) (string_bytes printed.new) told
            (on_connection loses connection acting)) }
        ensures untold { IfOk result
            (λ told. told ≡ false → stored_core.new ≡ stored_core.old) }
        ensures halts { (acting : Acting) →
            IsActing S.keeping stored_core.old place self.old acting →
            Halts S.keeping stored_core.old.store stored_core.new.store self.old.name
            (around (on_connection loses connection acting) acting) }
    {
        let Some(seat) = self.seat(connection) else {
            return Ok(false);
        };
        let is_refused = self.happen(alloc, stored_core, place, Event::Lost { seat }, printed)?;
        if !is_refused {
            self.forget(connection);
        }
        Ok(true)
    }

    /// Our transaction of this identifier is to be pushed on a connection. It says whether the realm has given that connection.
    pub fn push<S: RowLog>(
        &mut self,
        alloc: Global,
        stored_core: &mut StoredCore<S>,
        place: usize,
        connection: u32,
        id: Id,
        printed: &mut String,
    ) -> Result<bool, ActFault>
        requires always { Always }
        requires running { stored_core.old.is_stopped ≡ false }
        ensures truth { S.keeping.is_true stored_core.new.store →
            S.keeping.is_true stored_core.old.store }
        ensures running { stored_core.new.is_stopped ≡ false }
        ensures tells { (acting : Acting) →
            IsActing S.keeping stored_core.old place self.old acting →
            IfOk result (λ told. Tells S.keeping stored_core.old stored_core.new place
            self.old self.new (string_bytes printed.old) (string_bytes printed.new) told
            (on_connection (pushes id) connection acting)) }
        ensures untold { IfOk result
            (λ told. told ≡ false → stored_core.new ≡ stored_core.old) }
        ensures halts { (acting : Acting) →
            IsActing S.keeping stored_core.old place self.old acting →
            Halts S.keeping stored_core.old.store stored_core.new.store self.old.name
            (around (on_connection (pushes id) connection acting) acting) }
    {
        let Some(seat) = self.seat(connection) else {
            return Ok(false);
        };
        self.happen(
            alloc,
            stored_core,
            place,
            Event::AskPush { seat, id },
            printed,
        )?;
        Ok(true)
    }

    /// The other side's transaction of this identifier is to be pulled on a connection. It says whether the realm has given that
    /// connection.
    pub fn pull<S: RowLog>(
        &mut self,
        alloc: Global,
        stored_core: &mut StoredCore<S>,
        place: usize,
        connection: u32,
        superior: Id,
        printed: &mut String,
    ) -> Result<bool, ActFault>
        requires always { Always }
        requires running { stored_core.old.is_stopped ≡ false }
        ensures truth { S.keeping.is_true stored_core.new.store →
            S.keeping.is_true stored_core.old.store }
        ensures running { stored_core.new.is_stopped ≡ false }
        ensures tells { (acting : Acting) →
            IsActing S.keeping stored_core.old place self.old acting →
            IfOk result (λ told. Tells S.keeping stored_core.old stored_core.new place
            self.old self.new (string_bytes printed.old) (string_bytes printed.new) told
            (on_connection (pulls superior) connection acting)) }
        ensures untold { IfOk result
            (λ told. told ≡ false → stored_core.new ≡ stored_core.old) }
        ensures halts { (acting : Acting) →
            IsActing S.keeping stored_core.old place self.old acting →
            Halts S.keeping stored_core.old.store stored_core.new.store self.old.name
            (around (on_connection (pulls superior) connection acting) acting) }
    {
        let Some(seat) = self.seat(connection) else {
            return Ok(false);
        };
        self.happen(
            alloc,
            stored_core,
            place,
            Event::AskPull { seat, superior },
            printed,
        )?;
        Ok(true)
    }

    /// The seat of a connection, if the realm has given it.
    fn seat(&self, connection: u32) -> Option<Seat>
        ensures { (readings : List Reading) → AreReadings self.now.readers.items readings →
            result ≡ option_map (λ reading. reading.seat) (reading_on connection readings) }
    {
        self.readers.seat(connection)
    }
}
