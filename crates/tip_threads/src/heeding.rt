//! What the other side of a connection says to what an operator has asked on it.
use std::alloc::{AllocError, Global};
use std::io::{self, ErrorKind, Read};
use std::net::TcpStream;
use std::sync::Wait;
use tip_line::{Line, Lines, ParseFault, Response};
use tip_notices::{Kept, is_response};

/// How many octets are read at once.
const PIECE_LEN: usize = 1_024;

/// A socket on whose lines responses to PUSH and PULL are looked for. Each read gives a line, or a part of one: so before more is
/// read the line has had its effect, and an application that is answered then finds its transaction enlisted.
#[derive(Drop)]
pub struct Heeded<'a, R> {
    rt: &'a R,
    alloc: Global,
    socket: &'a TcpStream,
    kept: &'a Kept,
    /// What came of a line that is not whole.
    lines: Lines,
    /// What the line says that was read last, if somebody may wait for that.
    heard: Option<Response>,
    /// What came, and was not given yet from `from` on.
    piece: Vec<u8>,
    from: usize,
}

impl<'a, R: Wait> Heeded<'a, R> {
    /// A socket of which nothing was read yet.
    pub fn new(
        rt: &'a R,
        alloc: Global,
        socket: &'a TcpStream,
        kept: &'a Kept,
    ) -> Result<Heeded<'a, R>, AllocError> {
        Ok(Heeded {
            rt,
            alloc,
            socket,
            kept,
            lines: Lines::new(alloc)?,
            heard: None,
            piece: Vec::with_capacity(alloc, PIECE_LEN)?,
            from: 0,
        })
    }

    /// Reads what comes. While somebody waits for it that is given up once nothing has come for long.
    fn read_on(&mut self) -> io::Result<()> {
        let mut socket = self.socket;
        let mut came = [0; PIECE_LEN];
        self.piece.clear();
        self.from = 0;
        for _ in self.rt.forever() {
            match socket.read(&mut came) {
                Ok(count) => {
                    self.piece.extend_from_slice(&came[..count])?;
                    return Ok(());
                }
                Err(error) if is_pause(&error) && !self.kept.is_overdue(self.rt) => {}
                Err(error) => return Err(error),
            }
        }
        unreachable!()
    }

    /// What came of the next line, with its end if that has come.
    fn next_part(&self) -> &[u8] {
        let rest = self.piece.get(self.from..).unwrap_or(&[]);
        match rest.iter().position(|octet| matches!(octet, b'\r' | b'\n')) {
            Some(end) => &rest[..end + 1],
            None => rest,
        }
    }

    /// Looks at what comes next of a line.
    fn look(&mut self, part: &[u8]) {
        let _taken = self.lines.offer(part);
        if let Some(Line::Text(text)) = self.lines.next() {
            let said = Response::parse(self.alloc, text);
            self.keep(said);
        }
    }

    /// Keeps what a line says, if it may be what somebody waits for. Where memory is wanting to know, nobody waits any more.
    fn keep(&mut self, said: Result<Response, ParseFault>) {
        match said {
            Ok(response) if is_response(&response) => self.heard = Some(response),
            Err(ParseFault::Memory) => self.kept.end(self.rt),
            _ => {}
        }
    }
}

impl<'a, R: Wait> Read for Heeded<'a, R> {
    fn read(&mut self, buffer: &mut [u8]) -> io::Result<usize> {
        if let Some(response) = self.heard.take() {
            self.kept.hear(self.rt, response);
        }
        if self.from >= self.piece.len() {
            self.read_on()?;
        }
        let part = self.next_part();
        let count = part.len().min(buffer.len());
        buffer[..count].copy_from_slice(&part[..count]);
        self.from = self.from.saturating_add(count);
        self.look(&buffer[..count]);
        Ok(count)
    }
}

/// Whether nothing came in time.
fn is_pause(error: &io::Error) -> bool {
    matches!(error.kind(), ErrorKind::WouldBlock | ErrorKind::TimedOut)
}
