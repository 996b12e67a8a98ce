//! What a server says on its output, for whoever waits for it.
use std::alloc::Global;
use std::io::{self, Write};
use std::sync::{Arc, Condvar, Mutex, Wait};

/// What was said so far, and whether no more comes.
#[derive(Drop)]
struct Saying {
    text: Vec<u8>,
    is_over: bool,
}

/// What a server says, which two threads share.
#[derive(Drop)]
pub struct Told {
    saying: Mutex<Saying>,
    changed: Condvar,
}

impl Told {
    pub fn new(alloc: Global) -> Told {
        Told {
            saying: Mutex::new(Saying {
                text: Vec::new(alloc),
                is_over: false,
            }),
            changed: Condvar::new(),
        }
    }

    /// Waits until the server is ready; false where it has ended before.
    pub fn wait_ready<R: Wait>(&self, rt: &R) -> bool {
        let saying = self.changed.wait_while(rt, self.saying.lock(rt), |saying| {
            !saying.is_over && !saying.text.ends_with(b"ready\n")
        });
        !saying.is_over
    }

    /// No more comes.
    pub fn end<R: Wait>(&self, rt: &R) {
        self.saying.lock(rt).is_over = true;
        self.changed.notify_all();
    }

    /// Writes what was said.
    pub fn print<R: Wait, W: Write>(&self, rt: &R, output: &mut W) -> io::Result<()> {
        output.write_all(&self.saying.lock(rt).text)
    }
}

/// The server's output.
#[derive(Drop)]
pub struct Teller<R: Wait> {
    pub rt: R,
    pub told: Arc<Told>,
}

impl<R: Wait> Write for Teller<R> {
    fn write(&mut self, octets: &[u8]) -> io::Result<usize> {
        let mut saying = self.told.saying.lock(&self.rt);
        saying.text.extend_from_slice(octets)?;
        drop(saying);
        self.told.changed.notify_all();
        Ok(octets.len())
    }

    fn flush(&mut self) -> io::Result<()> {
        Ok(())
    }
}
