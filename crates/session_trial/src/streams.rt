//! Readers and writers that fail, never end or take little.
use std::io::{self, Error, ErrorKind, Read, Write};

/// Gives its octets, and fails behind them.
#[derive(Drop)]
pub struct Cut<'a> {
    pub octets: &'a [u8],
}

/// Gives line feeds without an end.
#[derive(Drop)]
pub struct LineFeeds {
    pub reads: u64,
}

/// Takes so many octets at a call, and fails behind so many calls.
#[derive(Drop)]
pub struct Narrow {
    pub octets: Vec<u8>,
    pub width: usize,
    pub calls_left: usize,
}

impl Read for Cut<'_> {
    fn read(&mut self, buffer: &mut [u8]) -> io::Result<usize> {
        if self.octets.is_empty() {
            return Err(Error::from(ErrorKind::Other));
        }
        self.octets.read(buffer)
    }
}

impl Read for LineFeeds {
    fn read(&mut self, buffer: &mut [u8]) -> io::Result<usize> {
        self.reads = self.reads.saturating_add(1);
        buffer.fill(b'\n');
        Ok(buffer.len())
    }
}

impl Write for Narrow {
    fn write(&mut self, octets: &[u8]) -> io::Result<usize> {
        if self.calls_left == 0 {
            return Err(Error::from(ErrorKind::BrokenPipe));
        }
        self.calls_left -= 1;
        let len = octets.len().min(self.width);
        self.octets.extend_from_slice(&octets[..len])?;
        Ok(len)
    }

    fn flush(&mut self) -> io::Result<()> {
        Ok(())
    }
}
