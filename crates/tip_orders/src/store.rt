//! The store in a file. What is done with it is said of a store of any kind below: over the very file the proof would
//! carry what each statement and each page means, and not end.
use sqlite::{Alter, Connection, Error, ErrorCode};
use std::fs;
use std::io::{self, BufReader, BufWriter};
use tip_history::play_on;
use tip_listing::{RowsFault, rows};
use tip_play::PlayFault;
use tip_sql::{SqlRows, has_tables};

/// Writes what a store has to standard output. A file that is missing or empty would be made one, so it is refused before.
pub fn list_store(rt: &HostRuntime, path: &str) -> Result<(), RowsFault> {
    match fs::metadata(rt, path) {
        Ok(found) if found.len() > 0 => {}
        _ => return Err(RowsFault::Refused),
    }
    let conn = Connection::open(rt, path).map_err(why_not_listed)?;
    list_in(rt, conn)
}

/// Plays standard input to standard output over a store, which is made where there is none.
pub fn play_in_store(rt: &HostRuntime, path: &str) -> Result<(), PlayFault> {
    let conn = Connection::open(rt, path).map_err(why_not_played)?;
    play_in(rt, conn)
}

/// Lists a database that has the tables: none are made in one that has not.
fn list_in<S: Alter + Drop>(rt: &HostRuntime, conn: Connection<S>) -> Result<(), RowsFault> {
    if !has_tables(&conn) {
        return Err(RowsFault::Refused);
    }
    let mut store = SqlRows::over(rt.alloc(), conn).map_err(|_| RowsFault::Refused)?;
    let mut output = BufWriter::new(rt.alloc(), io::writer(rt)).map_err(|_| RowsFault::Memory)?;
    rows(rt.alloc(), &mut store, &mut output)
}

fn play_in<S: Alter + Drop>(rt: &HostRuntime, conn: Connection<S>) -> Result<(), PlayFault> {
    let alloc = rt.alloc();
    let store = SqlRows::over(alloc, conn).map_err(|_| PlayFault::Store)?;
    let mut input = BufReader::new(alloc, rt.stdin()).map_err(|_| PlayFault::Memory)?;
    let mut output = BufWriter::new(alloc, io::writer(rt)).map_err(|_| PlayFault::Memory)?;
    match play_on(alloc, store, &mut input, &mut output) {
        Ok(_) => Ok(()),
        Err((fault, _)) => Err(fault),
    }
}

/// Why a file is not opened to be listed.
fn why_not_listed(error: Error) -> RowsFault {
    match error {
        Error::SqliteFailure(ErrorCode::OutOfMemory) => RowsFault::Memory,
        _ => RowsFault::Refused,
    }
}

/// Why a file is not opened to be played on.
fn why_not_played(error: Error) -> PlayFault {
    match error {
        Error::SqliteFailure(ErrorCode::OutOfMemory) => PlayFault::Memory,
        _ => PlayFault::Store,
    }
}
