//! What the other side says of itself, which the operator is told.
use std::alloc::Global;
use std::io::{self, Read};
use std::net::TcpStream;
use std::sync::Wait;
use tip_duties::{Connection, Note};
use tip_line::{Command, Line, Lines};
use tip_notices::Log;

/// A socket whose first line is looked at.
#[derive(Drop)]
pub struct Overheard<'a, R> {
    pub rt: &'a R,
    pub alloc: Global,
    pub socket: &'a TcpStream,
    pub log: &'a Log,
    pub connection: Connection<'a>,
    /// What came until the first line was whole; None behind it.
    pub lines: Option<Lines>,
}

impl<'a, R: Wait + Eprint> Overheard<'a, R> {
    /// Looks at what came, until the first line is whole.
    fn look(&mut self, piece: &[u8]) {
        let Some(mut lines) = self.lines.take() else {
            return;
        };
        let _taken = lines.offer(piece);
        let is_whole = match lines.next() {
            Some(line) => {
                self.note(line);
                true
            }
            None => false,
        };
        if !is_whole {
            self.lines = Some(lines);
        }
    }

    /// Tells the operator the address that a first line states.
    fn note(&self, line: Line<'_>) {
        if let Line::Text(text) = line
            && let Ok(Command::Identify { primary, .. }) = Command::parse(self.alloc, text)
        {
            self.log.note(
                self.rt,
                self.alloc,
                Note::Identified {
                    connection: self.connection,
                    address: primary.as_ref(),
                },
            );
        }
    }
}

impl<'a, R: Wait + Eprint> Read for Overheard<'a, R> {
    fn read(&mut self, buffer: &mut [u8]) -> io::Result<usize> {
        let mut socket = self.socket;
        let count = socket.read(buffer)?;
        if self.lines.is_some()
            && let Some(piece) = buffer.get(..count)
        {
            self.look(piece);
        }
        Ok(count)
    }
}
