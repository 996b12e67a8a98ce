//! What comes from a reader.
ghost use Rattle.std.specs.Prelude.{◌≡◌, [], IfOk};
ghost use Rattle.tip_line.specs.Reading.{Reads};
ghost use Rattle.std.specs.Fn.{FnOnceReturnsAt};
ghost use Rattle.tip_intake.specs.Intake.{Adds, Comes, Spends};

use std::alloc::{AllocError, Global};
use std::io::Read;
use tip_line::{Cause, Line, Lines};

/// How many octets are read at once. A reader of lines takes as many without memory.
const PIECE_LEN: usize = 1_024;

/// Lines that have come, and how many reads may still be made.
#[derive(Drop)]
pub struct Intake {
    lines: Lines,
    reads_left: u64,
}

/// Why nothing more comes.
#[derive(Clone, Copy, PartialEq, Eq)]
pub enum InputEnd {
    /// The input has ended. A line without its end, if there is one, is none.
    AtEnd,
    ReadFault,
    /// As many reads were made as were allowed.
    NoReadsLeft,
}

/// What comes next. `T` is what is made of a line.
#[derive(Drop)]
pub enum Coming<T: Drop> {
    Line(T),
    /// What came is no line, and nothing is read behind it.
    Fault(Cause),
    End(InputEnd),
}

impl Intake {
    /// Nothing has come yet, and so many reads may be made. All memory is taken here.
    pub fn new(alloc: Global, reads: u64) -> Result<Intake, AllocError>
        ensures empty { IfOk result (λ intake. intake.lines ≡ []) }
        ensures reads { IfOk result (λ intake. intake.reads_left ≡ reads) }
    {
        Ok(Intake {
            lines: Lines::new(alloc)?,
            reads_left: reads,
        })
    }

    /// What comes next. It reads only where no line waits, and `hear` is given the line's text.
    pub fn next<R: Read, T: Drop, F: FnOnce(&[u8]) -> T>(
        &mut self,
        reader: &mut R,
        hear: F,
    ) -> Coming<T>
        requires { F.IsAlwaysCallable hear }
        ensures { Comes (FnOnceReturnsAt F.FnOnce hear) self.old self.new
            (R.remaining reader.old) (R.remaining reader.new) result }
    {
        'reading: loop {
            match self.lines.next() {
                Some(Line::Text(text)) => return Coming::Line(hear(text)),
                Some(Line::Bad(cause)) => return Coming::Fault(cause),
                None => {}
            }
            if let Err(end) = self.read_more(reader) {
                return Coming::End(end);
            }
        }
    }

    /// Reads once, where no line has come whole.
    fn read_more<R: Read>(&mut self, reader: &mut R) -> Result<(), InputEnd>
        requires { Reads self.old.lines [] }
        ensures adds { Adds self.old.lines self.new.lines (R.remaining reader.old)
            (R.remaining reader.new) result }
        ensures spends { Spends self.old.reads_left self.new.reads_left result }
    {
        if self.reads_left == 0 {
            return Err(InputEnd::NoReadsLeft);
        }
        self.reads_left -= 1;
        let mut piece = [0; PIECE_LEN];
        match reader.read(&mut piece) {
            Ok(0) => Err(InputEnd::AtEnd),
            Ok(len) => {
                self.lines.offer(&piece[..len]);
                Ok(())
            }
            Err(_) => Err(InputEnd::ReadFault),
        }
    }
}
