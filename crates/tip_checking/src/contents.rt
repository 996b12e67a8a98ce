//! What stands in the tables, unread.
use sqlite::{Alter, Connection, Error, Row as SqlRow};
use std::alloc::{AllocError, Global};

/// A realm as its table has it.
#[derive(Drop)]
pub struct Known {
    pub name: String,
    pub epoch: i64,
}

/// A stored row as its table has it.
#[derive(Drop)]
pub struct Stored {
    pub realm: String,
    pub epoch: i64,
    pub connection: i64,
    pub number: i64,
    pub text: String,
}

/// All that a store has.
#[derive(Drop)]
pub struct Contents {
    /// By name.
    pub realms: Vec<Known>,
    /// By realm and key.
    pub rows: Vec<Stored>,
}

impl Contents {
    /// What a store has that is not there yet.
    pub fn none(alloc: Global) -> Contents {
        Contents {
            realms: Vec::new(alloc),
            rows: Vec::new(alloc),
        }
    }

    /// What is in the tables of a database that has ours. Nothing is changed.
    pub fn of<S: Alter>(alloc: Global, conn: &mut Connection<S>) -> Result<Contents, Error> {
        Ok(Contents {
            realms: realms_of(alloc, conn)?,
            rows: rows_of(alloc, conn)?,
        })
    }
}

/// Tells each realm with its epoch, a line each.
pub fn list_epochs(realms: &[Known], told: &mut String) -> Result<(), AllocError> {
    for realm in realms {
        writeln!(told, "epoch {} {}", realm.name.as_str(), realm.epoch)?;
    }
    Ok(())
}

fn realms_of<S: Alter>(alloc: Global, conn: &mut Connection<S>) -> Result<Vec<Known>, Error> {
    let shown = conn.query_all("SELECT name, epoch FROM realm ORDER BY name", &[])?;
    let mut realms = Vec::new(alloc);
    for row in shown.iter() {
        realms.push(known_in(row)?)?;
    }
    Ok(realms)
}

fn known_in(row: &SqlRow) -> Result<Known, Error> {
    Ok(Known {
        name: row.get(0)?,
        epoch: row.get(1)?,
    })
}

fn rows_of<S: Alter>(alloc: Global, conn: &mut Connection<S>) -> Result<Vec<Stored>, Error> {
    let shown = conn.query_all(
        "SELECT realm, epoch, conn, num, text FROM txn ORDER BY realm, epoch, conn, num",
        &[],
    )?;
    let mut rows = Vec::new(alloc);
    for row in shown.iter() {
        rows.push(stored_in(row)?)?;
    }
    Ok(rows)
}

fn stored_in(row: &SqlRow) -> Result<Stored, Error> {
    Ok(Stored {
        realm: row.get(0)?,
        epoch: row.get(1)?,
        connection: row.get(2)?,
        number: row.get(3)?,
        text: row.get(4)?,
    })
}
