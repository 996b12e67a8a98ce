//! One worked script, with what it is to print and how it is to end.
use crate::ending::Ending;
use sqlite::Connection;
use std::alloc::Global;
use std::fs;
use std::io::{self, Write};

/// A worked script.
#[derive(Drop)]
pub struct Case {
    name: String,
    script: Vec<u8>,
    wanted: Ending,
}

impl Case {
    /// By its line of the list, `NAME STATUS` or `NAME STATUS FAULT`, and the files `NAME.script` and `NAME.output`.
    pub fn load(rt: &HostRuntime, folder: &str, line: &str) -> io::Result<Case> {
        let alloc = rt.alloc();
        let Some((name, ending)) = line.split_once(' ') else {
            return Err(io::Error::from(io::ErrorKind::InvalidData));
        };
        let (status, fault) = ending.split_once(' ').unwrap_or((ending, ""));
        let script = format!(in alloc; "{folder}/{name}.script")?;
        let output = format!(in alloc; "{folder}/{name}.output")?;
        Ok(Case {
            name: String::from_str(alloc, name)?,
            script: fs::read(rt, script.as_str())?,
            wanted: Ending {
                output: fs::read(rt, output.as_str())?,
                status: status_in(status)?,
                fault: String::from_str(alloc, fault)?,
            },
        })
    }

    /// Plays the script over rows in memory, and over rows in a new database where it asks for no refusal, and says whether both are as
    /// wanted; where one is not, what was wanted and what came.
    pub fn check<W: Write>(&self, alloc: Global, output: &mut W) -> io::Result<bool> {
        let holds = self.compare(&self.name, &Ending::of(alloc, &self.script)?, output)?;
        if self.asks_for_a_refusal() {
            return Ok(holds);
        }
        let name = format!(in alloc; "{} in SQLite", self.name)?;
        let Ok(conn) = Connection::open_in_memory(alloc) else {
            return Ok(false);
        };
        match Ending::in_database(alloc, conn, &self.script)? {
            Some(came) => Ok(self.compare(&name, &came, output)? && holds),
            None => Ok(false),
        }
    }

    /// Says whether what came is as wanted.
    fn compare<W: Write>(&self, name: &str, came: &Ending, output: &mut W) -> io::Result<bool> {
        let holds = came.is_as(&self.wanted);
        if holds {
            writeln!(output, "{name} holds")?;
        } else {
            writeln!(output, "{name} differs")?;
            self.wanted.print("wanted", output)?;
            came.print("came", output)?;
        }
        Ok(holds)
    }

    /// Whether a line asks the store to refuse, which SQLite can't be asked.
    fn asks_for_a_refusal(&self) -> bool {
        self.script
            .split(|octet| *octet == b'\n')
            .any(|line| line.starts_with(b"refuse "))
    }
}

/// A status of the list.
fn status_in(word: &str) -> io::Result<u8> {
    word.parse::<u8>()
        .map_err(|_| io::Error::from(io::ErrorKind::InvalidData))
}
