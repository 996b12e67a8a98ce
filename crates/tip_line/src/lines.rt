//! The lines of a stream of octets (RFC 2371, section 11).
ghost use Rattle.std.specs.Prelude.{◌≡◌, ◌≤◌, ◌++◌, [], false, ℕ, List, length, take, min, IfOk, OnOk, OnErr, option_map, ⊤, ◌↔◌};
ghost use Rattle.std.specs.Borrow.{sem, follows_so};
ghost use mathlib.Core.Option.{none};
ghost use Rattle.tip_line.specs.Reading.{Reads, Leaves, Gives, item_of};
ghost use Rattle.tip_line.specs.contracts.lines.Lines.{the_row};

use crate::buffer::{Buffer, Found};
use std::alloc::{AllocError, Allocator, Global};
use std::marker::Model;

/// Why a stream of octets is no stream of lines.
#[derive(Clone, Copy, PartialEq, Eq)]
pub enum Cause {
    /// More octets than a line may have.
    TooLong,
    /// An octet that no line may have.
    Octet,
}

/// What a stream of octets gives next.
#[derive(Clone, Copy)]
pub enum Line<'a> {
    /// A line that is not blank, without the spaces at its ends.
    Text(&'a [u8]),
    /// A fault, behind which no line is read.
    Bad(Cause),
}

/// A reader of lines. It is seen as the octets that it took in and has not given out.
#[derive(Drop)]
pub struct Lines<A: Allocator = Global> {
    buffer: Buffer<A>,
}

impl<A: Allocator> Model for Lines<A> {
    ghost use Rattle.std.specs.Prelude.{ℕ, List};

    ghost Value = { List ℕ };

    ghost use Rattle.tip_line.specs.Buffered.{pending, IsReading};

    ghost view = { λ l. pending l.buffer };

    ghost invariant = { λ l. IsReading l.buffer };
}

impl<A: Allocator> Lines<A> {
    /// A reader that has been given nothing. All its memory is taken here, but for what `feed` needs.
    pub fn new(alloc: A) -> Result<Lines<A>, AllocError>
        ensures { IfOk result (λ lines. lines ≡ []) }
    {
        Ok(Lines {
            buffer: Buffer::new(alloc)?,
        })
    }

    /// Takes the next piece of the stream in, and memory only where the piece does not fit.
    pub fn feed(&mut self, piece: &[u8]) -> Result<(), AllocError>
        ensures ok { OnOk result (self.new ≡ self.old ++ piece.now) }
        ensures err { OnErr result (self.new ≡ self.old) }
    {
        self.buffer.feed(piece)
    }

    /// Takes as much of the front of a piece in as fits without memory, and says how much.
    pub fn offer(&mut self, piece: &[u8]) -> usize
        ensures bound { result ≤ length piece.now }
        ensures taken { Leaves (self.old ++ take result piece.now) [] self.new }
        // Where no line waits, at least as much as the longest line fits.
        ensures fits { Reads self.old [] → min (length piece.now) 1024 ≤ result }
    {
        self.buffer.offer(piece)
    }

    /// Whether a line has come whole, or the fault that ends the stream. Blank lines at the front are passed over.
    pub fn has_next(&mut self) -> bool
        ensures none { (result ≡ false) ↔ Reads self.old [] }
        ensures left { Leaves self.old [] self.new }
    {
        match self.buffer.find() {
            Found::Nothing => false,
            Found::Fault(_) | Found::Line(_) => true,
        }
    }

    /// The next line that has come whole, or the fault that ends the stream, which stays.
    pub fn next(&mut self) -> Option<Line<'_>>
        ensures* { sem 𝓛 (follows_so (the_row A.row A.Allocator) (the_row A.row A.Allocator)
            self.entry.ghost_name none (λ _ _. ⊤)
            (λ new. Gives self.old (option_map item_of result) new)) }
    {
        match self.buffer.find() {
            Found::Nothing => None,
            Found::Fault(cause) => Some(Line::Bad(cause)),
            Found::Line(len) => {
                let from = self.buffer.pass_line(len);
                Some(Line::Text(self.buffer.text_at(from, len)))
            }
        }
    }
}
