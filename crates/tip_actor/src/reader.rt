//! What comes on the connections of a script.
ghost use Rattle.std.specs.Prelude.{◌≡◌, ℕ, List, [], false, Some, ◌++◌, IfOk, OnOk};
ghost use Rattle.tip_core.specs.Hosted.{realm as realm_at};
ghost use Rattle.tip_machine.specs.States.{State};
ghost use Rattle.tip_actor.specs.Acting.{Reading};
ghost use Rattle.tip_actor.specs.Listening.{IsAsked, line_of};
ghost use Rattle.tip_actor.specs.Standing.{GivesNext, IsReading};
ghost use Rattle.tip_script.specs.Moves.{octets_of};
ghost use Rattle.tip_script.specs.Scripts.{octets_in};
ghost use Rattle.tip_actor.specs.Listening.{gives, IsIdle, Says};
ghost use Rattle.tip_line.specs.Reading.{items_of};

use hex::FromHexError;
use std::alloc::{AllocError, Global};
use tip_core::Core;
use tip_line::{Line, Lines};
use tip_machine::{Heard, Seat};
use tip_script::Octets;

/// The reader of a connection. Where its connection has failed, what was read is gone, and the reader takes afresh what
/// still comes.
#[derive(Drop)]
pub struct Reader {
    pub seat: Seat,
    stream: Stream,
}

/// What has come on a connection.
#[derive(Drop)]
enum Stream {
    /// Nothing since the connection was given or failed. No memory is held.
    Empty,
    /// What was not yet taken.
    Lines(Lines),
    /// A fault, behind which no line is.
    Over,
}

/// What comes of asking a reader for its next line.
#[derive(Drop)]
pub enum Asked {
    /// The line, which may be taken.
    Line(Heard),
    /// None may be taken yet.
    Held,
    /// None has come.
    Nothing,
}

impl Reader {
    pub fn new(seat: Seat) -> Reader
        ensures seat { result.seat ≡ seat }
        ensures gives { (more : List ℕ) → gives result more ≡ items_of more }
    {
        Reader {
            seat,
            stream: Stream::Empty,
        }
    }

    /// Octets come.
    pub fn feed(&mut self, alloc: Global, octets: Octets<'_>) -> Result<(), AllocError>
        ensures seat { self.new.seat ≡ self.old.seat }
        ensures gives { OnOk result ((more : List ℕ) →
            gives self.new more ≡ gives self.old (octets_of octets.entry ++ more)) }
    {
        match &mut self.stream {
            Stream::Empty => {
                let mut lines = Lines::new(alloc)?;
                feed_octets(&mut lines, alloc, octets)?;
                self.stream = Stream::Lines(lines);
                Ok(())
            }
            Stream::Lines(lines) => feed_octets(lines, alloc, octets),
            Stream::Over => Ok(()),
        }
    }

    /// What the next line says, if one has come.
    pub fn next(&mut self, alloc: Global) -> Result<Option<Heard>, AllocError>
        ensures seat { self.new.seat ≡ self.old.seat }
        ensures says { IfOk result (λ heard. Says self.old heard self.new) }
    {
        let Stream::Lines(lines) = &mut self.stream else {
            return Ok(None);
        };
        match lines.next() {
            Some(Line::Text(text)) => Ok(Some(Heard::of(alloc, text)?)),
            Some(Line::Bad(_)) => {
                self.stream = Stream::Over;
                Ok(Some(Heard::Malformed))
            }
            None => Ok(None),
        }
    }

    /// Whether a line has come that was not taken.
    fn has_next(&mut self) -> bool
        ensures seat { self.new.seat ≡ self.old.seat }
        ensures gives { (more : List ℕ) → gives self.new more ≡ gives self.old more }
        ensures none { result ≡ false → IsIdle self.old }
        ensures some { IsIdle self.old → result ≡ false }
    {
        match &mut self.stream {
            Stream::Lines(lines) => lines.has_next(),
            Stream::Empty | Stream::Over => false,
        }
    }

    /// The next line, if one has come and may be taken.
    pub fn ask(&mut self, alloc: Global, core: &Core, place: usize) -> Result<Asked, AllocError>
        ensures next { (state : State) (reading : Reading) → realm_at core.now place ≡ Some state →
            IsReading self.old reading →
            IfOk result (λ asked. GivesNext state self.new reading (line_of asked)) }
        ensures asked { IfOk result (λ asked. IsAsked asked self.old self.new) }
    {
        if !self.has_next() {
            return Ok(Asked::Nothing);
        }
        if core.must_wait(place, self.seat) {
            return Ok(Asked::Held);
        }
        match self.next(alloc)? {
            Some(heard) => Ok(Asked::Line(heard)),
            None => Ok(Asked::Nothing),
        }
    }

    /// The connection failed: what was read is gone, and its memory.
    pub fn restart(&mut self)
        ensures seat { self.new.seat ≡ self.old.seat }
        ensures gives { (more : List ℕ) → gives self.new more ≡ items_of more }
    {
        self.stream = Stream::Empty;
    }
}

/// Feeds octets that come.
fn feed_octets(lines: &mut Lines, alloc: Global, octets: Octets<'_>) -> Result<(), AllocError>
    ensures { OnOk result (lines.new ≡ lines.old ++ octets_of octets.entry) }
{
    match octets {
        Octets::Text(text) => {
            lines.feed(text)?;
            lines.feed(b"\n")
        }
        Octets::Hex(digits) => feed_hex(lines, alloc, digits),
    }
}

/// Feeds the octets that pairs of hexadecimal digits say; none where these are no pairs of digits.
fn feed_hex(lines: &mut Lines, alloc: Global, digits: &[u8]) -> Result<(), AllocError>
    ensures { OnOk result (lines.new ≡ lines.old ++ octets_in digits.now) }
{
    match hex::decode(alloc, digits) {
        Ok(octets) => lines.feed(&octets),
        Err(FromHexError::OutOfMemory) => Err(AllocError),
        Err(_) => Ok(()),
    }
}
