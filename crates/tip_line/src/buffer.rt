//! The octets of a reader of lines, in one buffer.
ghost use Rattle.std.specs.Prelude.{◌≡◌, ◌+◌, ◌-◌, ◌<◌, ◌≤◌, ◌↔◌, [], ◌++◌, List, ℕ, length, take, drop, min, IsTrue, IfOk, OnOk, OnErr, vec_len, vec_capacity};
ghost use Rattle.std.specs.List.{list_all};
ghost use Rattle.tip_line.specs.Octets.{is_end, is_space, IsWithin, text_of};
ghost use Rattle.tip_line.specs.Stops.{StopsAt, CausedBy};
ghost use Rattle.tip_line.specs.declared.buffer.Stop.TheVariants.{Ended};
ghost use Rattle.tip_line.specs.Reading.{Reads, Leaves};
ghost use Rattle.tip_line.specs.Buffered.{pending, IsReading, FoundAt};

use crate::lines::Cause;
use crate::octets::{is_blank, is_end, is_printable, without_spaces};
use std::alloc::{AllocError, Allocator};

/// How many octets a line may have before its end, spaces included.
const LONGEST_LINE: usize = 1024;

/// Room for an open line, and as much again to read into.
const CAPACITY: usize = 2 * LONGEST_LINE;

/// The octets that were taken in, those not given out yet from `start` on.
#[derive(Drop)]
pub struct Buffer<A: Allocator> {
    octets: Vec<u8, A>,
    start: usize,
    /// So many octets from `start` on are known to be within their line.
    known: usize,
}

/// What stands at the front of the octets not given out.
#[derive(Clone, Copy)]
pub enum Found {
    /// No line that has come whole.
    Nothing,
    /// A line of so many octets and its end.
    Line(usize),
    Fault(Cause),
}

/// How the line at the front of some octets stops.
#[derive(Clone, Copy)]
pub enum Stop {
    /// It has not stopped yet.
    Open,
    /// An end stands behind so many octets.
    Ended(usize),
    /// An octet that is no end can't follow.
    Fault(Cause),
}

impl<A: Allocator> Buffer<A> {
    pub fn new(alloc: A) -> Result<Buffer<A>, AllocError>
        ensures { IfOk result (λ b. (pending b ≡ []) × IsReading b) }
    {
        Ok(Buffer {
            octets: Vec::with_capacity(alloc, CAPACITY)?,
            start: 0,
            known: 0,
        })
    }

    pub fn feed(&mut self, piece: &[u8]) -> Result<(), AllocError>
        requires { IsReading self.old }
        ensures reading { IsReading self.new }
        ensures ok { OnOk result (pending self.new ≡ pending self.old ++ piece.now) }
        ensures err { OnErr result (pending self.new ≡ pending self.old) }
    {
        self.make_room(piece.len());
        self.octets.extend_from_slice(piece)
    }

    pub fn offer(&mut self, piece: &[u8]) -> usize
        requires { IsReading self.old }
        ensures reading { IsReading self.new }
        ensures bound { result ≤ length piece.now }
        ensures taken { Leaves (pending self.old ++ take result piece.now) [] (pending self.new) }
        ensures fits { Reads (pending self.old) [] → min (length piece.now) 1024 ≤ result }
        ensures memory { vec_capacity self.new.octets ≡ vec_capacity self.old.octets }
    {
        if self.room() < piece.len() {
            self.find();
            self.make_room(piece.len());
        }
        let taken = self.room().min(piece.len());
        append(&mut self.octets, &piece[..taken]);
        taken
    }

    /// Passes over the blank lines at the front, and says what stands behind them.
    pub fn find(&mut self) -> Found
        requires { IsReading self.old }
        ensures reading { IsReading self.new }
        ensures octets { self.new.octets ≡ self.old.octets }
        ensures passed { Leaves (pending self.old) [] (pending self.new) }
        ensures fewer { length (pending self.new) ≤ length (pending self.old) }
        ensures found { FoundAt (pending self.new) result }
    {
        'passing: loop {
            match self.stop() {
                Stop::Open => return Found::Nothing,
                Stop::Fault(cause) => return Found::Fault(cause),
                Stop::Ended(len) => {
                    let line = &self.octets[self.start..self.start + len];
                    if !is_blank(line) {
                        return Found::Line(len);
                    }
                    self.pass_line(len);
                }
            }
        }
    }

    /// Passes over the line at the front, which has so many octets and an end, and says where it stands.
    pub(crate) fn pass_line(&mut self, len: usize) -> usize
        requires reading { IsReading self.old }
        requires line { StopsAt (pending self.old) (Ended len) }
        ensures reading { IsReading self.new }
        ensures octets { self.new.octets ≡ self.old.octets }
        ensures passed { pending self.new ≡ drop (len + 1) (pending self.old) }
        ensures place { result ≡ self.old.start }
    {
        let from = self.start;
        self.start += len + 1;
        self.known = 0;
        from
    }

    /// The text of the line that stands at a place.
    pub(crate) fn text_at(&self, from: usize, len: usize) -> &[u8]
        requires { from + len ≤ vec_len self.now.octets }
        ensures { result.now ≡ text_of (take len (drop from self.now.octets.items)) }
    {
        without_spaces(&self.octets[from..from + len])
    }

    /// How many octets can be taken in without memory.
    fn room(&self) -> usize
        ensures { result + vec_len self.now.octets ≡ vec_capacity self.now.octets }
    {
        self.octets.capacity() - self.octets.len()
    }

    /// Moves an open line to the front of the buffer, where there is no room for so many octets behind it.
    fn make_room(&mut self, wanted: usize)
        requires { IsReading self.old }
        ensures reading { IsReading self.new }
        ensures same { pending self.new ≡ pending self.old }
        ensures room { IsWithin (pending self.old) →
            min wanted 1024 + vec_len self.new.octets ≤ vec_capacity self.new.octets }
        ensures memory { vec_capacity self.new.octets ≡ vec_capacity self.old.octets }
    {
        if self.room() < wanted && matches!(self.stop(), Stop::Open) {
            self.octets.copy_within(self.start.., 0);
            self.octets.truncate(self.octets.len() - self.start);
            self.start = 0;
        }
    }

    /// How the line at the front stops.
    fn stop(&mut self) -> Stop
        requires { IsReading self.old }
        ensures reading { IsReading self.new }
        ensures octets { self.new.octets ≡ self.old.octets }
        ensures start { self.new.start ≡ self.old.start }
        ensures stop { StopsAt (pending self.old) result }
    {
        let line = &self.octets[self.start..];
        let stop = stop_of(line, self.known);
        match stop {
            Stop::Open => self.known = line.len(),
            Stop::Ended(len) => self.known = len,
            Stop::Fault(_) => (),
        }
        stop
    }
}

/// Appends octets for which there is room. `extend_from_slice` does not say that it leaves the capacity then.
fn append<A: Allocator>(octets: &mut Vec<u8, A>, piece: &[u8])
    requires { vec_len octets.old + length piece.now ≤ vec_capacity octets.old }
    ensures items { octets.new.items ≡ octets.old.items ++ piece.now }
    ensures memory { vec_capacity octets.new ≡ vec_capacity octets.old }
{
    for octet in piece {
        octets.push_reserved(*octet);
    }
}

/// How the line at the front stops, the first `known` octets of which are within it.
fn stop_of(octets: &[u8], known: usize) -> Stop
    requires bound { known ≤ length octets.now }
    requires within { IsWithin (take known octets.now) }
    ensures { StopsAt octets.now result }
{
    for at in known..octets.len() {
        let octet = octets[at];
        if is_end(octet) {
            return Stop::Ended(at);
        }
        if let Some(cause) = fault_of(at, octet) {
            return Stop::Fault(cause);
        }
    }
    Stop::Open
}

/// Why an octet that ends no line can't follow `at` others, if it can't.
fn fault_of(at: usize, octet: u8) -> Option<Cause>
    ensures { CausedBy at octet result }
{
    if at == LONGEST_LINE {
        return Some(Cause::TooLong);
    }
    if !is_printable(octet) {
        return Some(Cause::Octet);
    }
    None
}
