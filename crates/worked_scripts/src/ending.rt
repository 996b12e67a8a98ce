//! What a run of a script writes, and how it ends.
ghost use Rattle.std.specs.Prelude.{◌≡◌, ◌↔◌, true, string_bytes};

use sqlite::{Alter, Connection};
use std::alloc::{AllocError, Global};
use std::io::{self, Write};
use tip_play::{PlayFault, play, play_on};
use tip_sql::SqlRows;

/// What one run of a script leaves.
#[derive(Drop)]
pub struct Ending {
    /// On standard output.
    pub output: Vec<u8>,
    pub status: u8,
    /// On standard error, behind `tipd: `; empty where there is no fault.
    pub fault: String,
}

impl Ending {
    /// Of the run of a script.
    pub fn of(alloc: Global, script: &[u8]) -> Result<Ending, AllocError> {
        let mut input = script;
        let mut output = Vec::new(alloc);
        let end = play(alloc, &mut input, &mut output);
        Ending::after(alloc, output, end)
    }

    /// Of its run over the store in a database; None where it is no store.
    pub fn in_database<S: Alter + Drop>(
        alloc: Global,
        conn: Connection<S>,
        script: &[u8],
    ) -> Result<Option<Ending>, AllocError> {
        let Ok(store) = SqlRows::over(alloc, conn) else {
            return Ok(None);
        };
        let mut input = script;
        let mut output = Vec::new(alloc);
        let end = match play_on(alloc, store, &mut input, &mut output) {
            Ok(_) => Ok(()),
            Err((fault, _)) => Err(fault),
        };
        Ok(Some(Ending::after(alloc, output, end)?))
    }

    fn after(
        alloc: Global,
        output: Vec<u8>,
        end: Result<(), PlayFault>,
    ) -> Result<Ending, AllocError> {
        match end {
            Ok(()) => Ok(Ending {
                output,
                status: 0,
                fault: String::new(alloc),
            }),
            Err(fault) => Ok(Ending {
                output,
                status: fault.status(),
                fault: format!(in alloc; "{fault}")?,
            }),
        }
    }

    /// Whether both leave the same, octet by octet.
    pub fn is_as(&self, other: &Ending) -> bool
        ensures { (result ≡ true) ↔ ((self.now.output.items ≡ other.now.output.items)
            × (self.now.status ≡ other.now.status)
            × (string_bytes self.now.fault ≡ string_bytes other.now.fault)) }
    {
        self.output == other.output && self.status == other.status && self.fault == other.fault
    }

    /// Prints it, under this name.
    pub fn print<W: Write>(&self, name: &str, output: &mut W) -> io::Result<()> {
        writeln!(
            output,
            "{name}: status {}, fault '{}', output:",
            self.status, self.fault
        )?;
        output.write_all(&self.output)
    }
}
