//! What comes on the connections of a realm, which are known by their numbers.
ghost use Rattle.std.specs.Prelude.{◌≡◌, List, [], IfOk, OnOk, Some, option_map};
ghost use Rattle.tip_branch.specs.Always.{Always};
ghost use Rattle.tip_core.specs.Hosted.{realm as realm_at};
ghost use Rattle.tip_machine.specs.States.{State};
ghost use Rattle.tip_script.specs.Moves.{octets_of};
ghost use Rattle.tip_actor.specs.Acting.{Reading, lost_on, reading_on, with_opened};
ghost use Rattle.tip_actor.specs.Listening.{AreBusyAt, IsIdleAt};
ghost use Rattle.tip_actor.specs.Standing.{AreReadings, FindsIn, IsFed};

use crate::reader::{Asked, Reader};
use std::alloc::{AllocError, Global};
use std::collections::BTreeSet;
use std::marker::Model;
use tip_core::Core;
use tip_machine::{Event, Seat};
use tip_script::Octets;

/// The readers of the connections that a realm has given. One that has nothing is not asked.
#[derive(Drop)]
pub struct Readers {
    /// The reader of connection n is the one at index n - 1.
    all: Vec<Reader>,
    /// The indices of those that may have something to give.
    busy: BTreeSet<usize>,
}

impl Model for Readers {
    ghost use Rattle.tip_actor.specs.Listening.{AreBusyAt, Listening};

    ghost Value = { Listening };

    ghost view = { λ r. record { items = r.all.items } };

    ghost invariant = { λ r. AreBusyAt r.busy.keys r.all.items };
}

impl Readers {
    /// No connection was given yet.
    pub fn new(alloc: Global) -> Readers
        ensures { result.items ≡ [] }
    {
        Readers {
            all: Vec::new(alloc),
            busy: BTreeSet::new(alloc),
        }
    }

    /// A connection of this seat is given.
    pub fn open(&mut self, seat: Seat) -> Result<(), AllocError>
        ensures readings { (readings : List Reading) → AreReadings self.old.items readings →
            OnOk result (AreReadings self.new.items (with_opened (Some seat) readings)) }
    {
        self.all.push(Reader::new(seat))?;
        Ok(())
    }

    /// All connections are gone, and what was read on them.
    pub fn clear(&mut self)
        ensures items { self.new.items ≡ [] }
    {
        self.busy.clear();
        self.all.clear();
    }

    /// The seat of a connection, if the realm has given it.
    pub fn seat(&self, connection: u32) -> Option<Seat>
        ensures { (readings : List Reading) → AreReadings self.now.items readings →
            result ≡ option_map (λ reading. reading.seat) (reading_on connection readings) }
    {
        let index = (connection as usize).checked_sub(1)?;
        Some(self.all.get(index)?.seat)
    }

    /// Octets come on a connection. It says whether the realm has given that connection.
    pub fn feed(
        &mut self,
        alloc: Global,
        connection: u32,
        octets: Octets<'_>,
    ) -> Result<bool, AllocError>
        ensures { (readings : List Reading) → AreReadings self.old.items readings → IfOk result
            (λ told. IsFed told connection (octets_of octets.entry) readings self.new.items) }
    {
        let Some(index) = (connection as usize).checked_sub(1) else {
            return Ok(false);
        };
        self.busy.insert(index)?;
        let Some(reader) = self.all.get_mut(index) else {
            return Ok(false);
        };
        reader.feed(alloc, octets)?;
        Ok(true)
    }

    /// What was read on a connection is gone.
    pub fn forget(&mut self, connection: u32)
        ensures { (readings : List Reading) → AreReadings self.old.items readings →
            AreReadings self.new.items (lost_on connection readings) }
    {
        if let Some(index) = (connection as usize).checked_sub(1) {
            self.busy.remove(&index);
            if let Some(reader) = self.all.get_mut(index) {
                reader.restart();
            }
        }
    }

    /// The next line that may be taken, of the first connection that has one. It is taken out of its reader.
    pub fn next(
        &mut self,
        alloc: Global,
        core: &Core,
        place: usize,
    ) -> Result<Option<Event>, AllocError>
        requires { Always }
        ensures { (state : State) (readings : List Reading) →
            realm_at core.now place ≡ Some state → AreReadings self.old.items readings →
            IfOk result (FindsIn state readings self.new.items) }
    {
        let (event, idle) = look(&mut self.all, &self.busy, alloc, core, place)?;
        if let Some(index) = idle {
            self.busy.remove(&index);
        }
        Ok(event)
    }
}

/// The next line that may be taken, of the first of the busy readers that has one; and one of these that has nothing, if one was
/// met.
fn look(
    all: &mut Vec<Reader>,
    busy: &BTreeSet<usize>,
    alloc: Global,
    core: &Core,
    place: usize,
) -> Result<(Option<Event>, Option<usize>), AllocError>
    requires { AreBusyAt busy.now.keys all.old.items }
    ensures busy { AreBusyAt busy.now.keys all.new.items }
    ensures idle { IfOk result (λ found. IsIdleAt found.1 all.new.items) }
    ensures finds { (state : State) (readings : List Reading) →
        realm_at core.now place ≡ Some state → AreReadings all.old.items readings →
        IfOk result (λ found. FindsIn state readings all.new.items found.0) }
{
    let mut idle = None;
    for index in busy.iter() {
        let Some(reader) = all.get_mut(*index) else {
            continue;
        };
        match reader.ask(alloc, core, place)? {
            Asked::Line(heard) => {
                let seat = reader.seat;
                return Ok((Some(Event::Line { seat, heard }), None));
            }
            Asked::Held => {}
            Asked::Nothing => idle = Some(*index),
        }
    }
    Ok((None, idle))
}
