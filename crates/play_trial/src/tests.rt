//! Long scripts, and input and output that are slow or fail.
use std::alloc::Global;
use std::io::{self, BufReader, Error, ErrorKind, Read, Write};
use std::test::Fail;
use tip_play::{PlayFault, play};

const START: &[u8] =
    b"realm north n.x 8 8 1 8 10000000\nopen north -\nline north 1 IDENTIFY 3 3 - -\n";

const STARTED: &[u8] = b"north epoch 1\nnorth 1 open\nnorth 1 say IDENTIFIED 3\n";

/// The exit status of an end, and the text on standard error.
fn said(alloc: Global, end: Result<(), PlayFault>) -> Result<(u8, String), Fail> {
    match end {
        Ok(()) => Ok((0, String::new(alloc))),
        Err(fault) => Ok((fault.status(), format!(in alloc; "{fault}")?)),
    }
}

/// A text, and then another so many times.
fn repeated(alloc: Global, front: &[u8], again: &[u8], times: u32) -> Result<Vec<u8>, Fail> {
    let mut octets = Vec::new(alloc);
    octets.extend_from_slice(front)?;
    for _ in 0..times {
        octets.extend_from_slice(again)?;
    }
    Ok(octets)
}

#[test]
fn a_script_of_over_a_million_octets_is_played(rt: HostRuntime) -> Result<(), Fail> {
    let script = repeated(
        rt.alloc(),
        START,
        b"line north 1 QUERY north-1-1-1\n",
        40_000,
    )?;
    assert!(rt; script.len() > 1_000_000);
    let mut output = Vec::new(rt.alloc());
    let end = play(rt.alloc(), &mut script.as_slice(), &mut output);
    assert_eq!(rt; end, Ok(()));
    assert!(rt;
        output
            == repeated(
                rt.alloc(),
                STARTED,
                b"north 1 say QUERIEDNOTFOUND\n",
                40_000
            )?
    );
    Ok(())
}

/// Takes one octet at a time.
#[derive(Drop)]
struct Slow {
    octets: Vec<u8>,
}

impl Write for Slow {
    fn write(&mut self, octets: &[u8]) -> io::Result<usize> {
        match octets {
            [octet, ..] => {
                self.octets.push(*octet)?;
                Ok(1)
            }
            [] => Ok(0),
        }
    }

    fn flush(&mut self) -> io::Result<()> {
        Ok(())
    }
}

#[test]
fn a_writer_may_take_one_octet_at_a_time(rt: HostRuntime) -> Result<(), Fail> {
    let mut output = Slow {
        octets: Vec::new(rt.alloc()),
    };
    let mut script = START;
    let end = play(rt.alloc(), &mut script, &mut output);
    assert_eq!(rt; end, Ok(()));
    assert_eq!(rt; output.octets.as_slice(), STARTED);
    Ok(())
}

/// Takes so many writes, and then neither writes nor flushes.
#[derive(Drop)]
struct Failing {
    writes: u32,
}

impl Write for Failing {
    fn write(&mut self, octets: &[u8]) -> io::Result<usize> {
        if self.writes == 0 {
            return Err(Error::from(ErrorKind::BrokenPipe));
        }
        self.writes -= 1;
        Ok(octets.len())
    }

    fn flush(&mut self) -> io::Result<()> {
        if self.writes == 0 {
            return Err(Error::from(ErrorKind::BrokenPipe));
        }
        Ok(())
    }
}

#[test]
fn output_that_fails_ends_the_script(rt: HostRuntime) -> Result<(), Fail> {
    for writes in 0..2 {
        let mut output = Failing { writes };
        let mut script = START;
        let end = play(rt.alloc(), &mut script, &mut output);
        let (status, text) = said(rt.alloc(), end)?;
        assert_eq!(rt; status, 1);
        assert_eq!(rt; text.as_str(), "cannot write");
    }
    Ok(())
}

/// What was printed is not known to be there, be the script well or not.
#[test]
fn output_that_is_not_flushed_is_a_fault(rt: HostRuntime) -> Result<(), Fail> {
    for last_line in [b"".as_slice(), b"wat"] {
        let script = repeated(rt.alloc(), START, last_line, 1)?;
        let mut output = Failing { writes: 2 };
        let end = play(rt.alloc(), &mut script.as_slice(), &mut output);
        let (status, text) = said(rt.alloc(), end)?;
        assert_eq!(rt; status, 1);
        assert_eq!(rt; text.as_str(), "cannot write");
    }
    Ok(())
}

/// Gives what it has, and then fails.
#[derive(Drop)]
struct Broken {
    piece: &'static [u8],
}

impl Read for Broken {
    fn read(&mut self, buffer: &mut [u8]) -> io::Result<usize> {
        if self.piece.is_empty() {
            return Err(Error::from(ErrorKind::Other));
        }
        let len = self.piece.read(buffer)?;
        Ok(len)
    }
}

#[test]
fn input_that_fails_ends_the_script(rt: HostRuntime) -> Result<(), Fail> {
    let mut output = Vec::new(rt.alloc());
    let mut input = BufReader::new(rt.alloc(), Broken { piece: b"" }).map_err(|_| "no memory")?;
    let end = play(rt.alloc(), &mut input, &mut output);
    let (status, text) = said(rt.alloc(), end)?;
    assert_eq!(rt; status, 1);
    assert_eq!(rt; text.as_str(), "cannot read");
    assert!(rt; output.is_empty());
    let mut output = Vec::new(rt.alloc());
    let mut input = BufReader::new(rt.alloc(), Broken { piece: START }).map_err(|_| "no memory")?;
    let end = play(rt.alloc(), &mut input, &mut output);
    let (status, text) = said(rt.alloc(), end)?;
    assert_eq!(rt; status, 1);
    assert_eq!(rt; text.as_str(), "cannot read");
    assert_eq!(rt; output.as_slice(), STARTED);
    Ok(())
}
