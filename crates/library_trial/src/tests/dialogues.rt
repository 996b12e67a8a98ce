//! What no clause says: that a dialogue succeeds while memory is there, and that reading, writing and memory are blamed only
//! where they failed.
ghost use Rattle.std.specs.Prelude.{◌≡◌, true, IfOk};
ghost use Rattle.tip_client.specs.Answers.{has_response};

use std::alloc::Global;
use std::io::{self, Error, ErrorKind, Read, Write};
use std::test::Fail;
use tip_client::{ClientFault, play_lines};
use tip_line::{Command, Id, Response, Word};

const SAID: &[u8] = b"IDENTIFY 3 3 - -\r\nBEGIN\r\n";

const ANSWERS: &[u8] = b"IDENTIFIED 3\nBEGUN x\n";

/// An IDENTIFY without addresses.
fn identify(alloc: Global) -> Result<Command, Fail>
    ensures { IfOk result (λ command. has_response command ≡ true) }
{
    Ok(Command::Identify {
        low: 3,
        high: 3,
        primary: None,
        secondary: Word::new(alloc, b"-")?,
    })
}

/// How an IDENTIFY and a BEGIN are answered.
fn begin<R: Read, W: Write>(
    alloc: Global,
    input: &mut R,
    output: &mut W,
) -> Result<Result<Vec<Response>, ClientFault>, Fail> {
    let commands = [identify(alloc)?, Command::Begin];
    Ok(play_lines(alloc, input, output, &commands))
}

/// Gives one octet at a time, and then ends or fails.
#[derive(Drop)]
struct Slow {
    octets: &'static [u8],
    fails: bool,
}

impl Read for Slow {
    fn read(&mut self, buffer: &mut [u8]) -> io::Result<usize> {
        if self.octets.is_empty() && self.fails {
            return Err(Error::from(ErrorKind::Other));
        }
        let len = buffer.len().min(1);
        self.octets.read(&mut buffer[..len])
    }
}

/// Takes one octet at a time while there is room, and then none. It may not flush.
#[derive(Drop)]
struct Short {
    octets: Vec<u8>,
    room: usize,
    flushes: bool,
}

impl Write for Short {
    fn write(&mut self, octets: &[u8]) -> io::Result<usize> {
        match octets {
            [octet, ..] if self.octets.len() < self.room => {
                self.octets.push(*octet)?;
                Ok(1)
            }
            _ => Ok(0),
        }
    }

    fn flush(&mut self) -> io::Result<()> {
        if self.flushes {
            return Ok(());
        }
        Err(Error::from(ErrorKind::BrokenPipe))
    }
}

#[test]
fn a_transaction_is_begun_however_its_lines_are_cut(rt: HostRuntime) -> Result<(), Fail> {
    let wanted = [
        Response::Identified { version: 3 },
        Response::Begun {
            transaction: Id::new(rt.alloc(), b"x")?,
        },
    ];
    let mut output = Vec::new(rt.alloc());
    let mut input = ANSWERS;
    let responses = begin(rt.alloc(), &mut input, &mut output)?.map_err(|_| "it stopped")?;
    assert!(rt; responses.as_slice() == wanted.as_slice());
    assert_eq!(rt; output.as_slice(), SAID);
    let mut output = Short {
        octets: Vec::new(rt.alloc()),
        room: SAID.len(),
        flushes: true,
    };
    let mut input = Slow {
        octets: ANSWERS,
        fails: true,
    };
    let responses = begin(rt.alloc(), &mut input, &mut output)?.map_err(|_| "it stopped")?;
    assert!(rt; responses.as_slice() == wanted.as_slice());
    assert_eq!(rt; output.octets.as_slice(), SAID);
    Ok(())
}

#[test]
fn input_that_ends_and_input_that_fails_are_told_apart(rt: HostRuntime) -> Result<(), Fail> {
    for (octets, said) in [
        (b"".as_slice(), 18),
        (b"IDENTIFIED 3\n", 25),
        (b"\nIDENTIFIED 3\nBEG", 25),
    ] {
        for fails in [false, true] {
            let mut output = Vec::new(rt.alloc());
            let mut input = Slow { octets, fails };
            let end = begin(rt.alloc(), &mut input, &mut output)?;
            let wanted = if fails {
                ClientFault::Read
            } else {
                ClientFault::Closed
            };
            assert_eq!(rt; end.err(), Some(wanted));
            assert!(rt; output.len() == said && SAID.starts_with(output.as_slice()));
        }
    }
    Ok(())
}

#[test]
fn a_writer_that_takes_nothing_more_is_a_fault(rt: HostRuntime) -> Result<(), Fail> {
    for room in 0..SAID.len() {
        let mut output = Short {
            octets: Vec::new(rt.alloc()),
            room,
            flushes: true,
        };
        let mut input = ANSWERS;
        let end = begin(rt.alloc(), &mut input, &mut output)?;
        assert_eq!(rt; end.err(), Some(ClientFault::Write));
        assert_eq!(rt; output.octets.as_slice(), &SAID[..room]);
    }
    let mut output = Short {
        octets: Vec::new(rt.alloc()),
        room: SAID.len(),
        flushes: false,
    };
    let mut input = ANSWERS;
    let end = begin(rt.alloc(), &mut input, &mut output)?;
    assert_eq!(rt; end.err(), Some(ClientFault::Write));
    assert_eq!(rt; output.octets.as_slice(), &SAID[..18]);
    Ok(())
}

/// Where the allocation of a number fails (`rt try --test --fail-alloc N`), memory is blamed, and a front was written.
#[test]
fn want_of_memory_leaves_a_front(rt: HostRuntime) -> Result<(), Fail> {
    let mut output = Vec::with_capacity(rt.alloc(), 64)?;
    let mut input = ANSWERS;
    let end = begin(rt.alloc(), &mut input, &mut output)?;
    assert!(rt; matches!(end, Ok(_) | Err(ClientFault::Memory)));
    assert!(rt; SAID.starts_with(output.as_slice()));
    Ok(())
}
