//! How a database is taken over.
ghost use Rattle.std.specs.Prelude.{◌≡◌, ℤ, true};
ghost use Rattle.std.specs.Bool.{OnTrue};
ghost use Rattle.sqlite.specs.Held.{state};
ghost use Rattle.sqlite.specs.State.{HasCleanDisk};
ghost use Rattle.sqlite.specs.Order.{Row as Shown, column};
ghost use Rattle.sqlite_rules.specs.Lists.{Has};
ghost use Rattle.std.specs.Prelude.{map};
ghost use Rattle.sqlite.specs.declared.types.Value.TheVariants.{Int};
ghost use Rattle.std.specs.Ordering.{is_lt, int_cmp};
ghost use Rattle.tip_sql.specs.Places.{number_at};
ghost use Rattle.tip_sql.specs.Reading.{rises, may_follow};
ghost use Rattle.tip_sql.specs.Standing.{Takes, ShowsIds, Checks};
ghost use Rattle.tip_sql.specs.Tables.{log_schema, half_schema, no_schema};

use crate::layout::{is_blank, is_half, is_whole};
use crate::reading::column;
use sqlite::types::ValueRef;
use sqlite::{Alter, Connection, Error, Row as SqlRow};
use thiserror::Error as ThisError;

/// Why a database is not taken over.
#[derive(Clone, Copy, Debug, PartialEq, Eq, ThisError)]
pub enum OverFault {
    /// It can't be asked, or it has another schema.
    #[error("the store refused")]
    Refused,
    /// A table of ours lacks a column.
    #[error("a table lacks a column")]
    BadSchema,
}

/// Whether a database has our tables and nothing else, so that nothing is made where it is taken over.
pub fn has_tables<S: Alter>(conn: &Connection<S>) -> bool
    ensures { OnTrue result ((state S.Store conn.now).now.schema ≡ log_schema) }
{
    is_whole(conn.schema())
}

/// Makes the tables that are not there, where nothing else is there.
pub(crate) fn make_tables<S: Alter>(conn: &mut Connection<S>) -> Result<usize, Error>
    ensures { Takes log_schema (state S.Store conn.old) (state S.Store conn.new) result }
{
    if is_whole(conn.schema()) {
        return Ok(0);
    }
    if is_half(conn.schema()) {
        return make_rows(conn);
    }
    if !is_blank(conn.schema()) {
        return Err(Error::InvalidQuery);
    }
    make_realms(conn)?;
    make_rows(conn)
}

fn make_realms<S: Alter>(conn: &mut Connection<S>) -> Result<usize, Error>
    ensures { (state S.Store conn.old).now.schema ≡ no_schema →
        Takes half_schema (state S.Store conn.old) (state S.Store conn.new) result }
{
    conn.execute(
        "CREATE TABLE realm (name TEXT PRIMARY KEY, epoch INTEGER NOT NULL) STRICT",
        &[],
    )
}

fn make_rows<S: Alter>(conn: &mut Connection<S>) -> Result<usize, Error>
    ensures takes { (state S.Store conn.old).now.schema ≡ half_schema →
        Takes log_schema (state S.Store conn.old) (state S.Store conn.new) result }
    ensures truth { HasCleanDisk (state S.Store conn.new) → HasCleanDisk (state S.Store conn.old) }
{
    conn.execute(
        "CREATE TABLE txn (realm TEXT, epoch INTEGER, conn INTEGER, num INTEGER, text TEXT NOT NULL, PRIMARY KEY (realm, epoch, conn, num)) STRICT",
        &[],
    )
}

/// Whether a connection is outside a transaction and has our tables alone, with no rowid twice.
pub(crate) fn is_ours<S: Alter>(conn: &mut Connection<S>) -> bool
    ensures { Checks (state S.Store conn.old) (state S.Store conn.new) result }
{
    if !is_whole(conn.schema()) {
        return false;
    }
    let Ok(realms) = realm_ids(conn) else {
        return false;
    };
    let Ok(rows) = row_ids(conn) else {
        return false;
    };
    if !are_ids(&realms) {
        return false;
    }
    if !are_ids(&rows) {
        return false;
    }
    conn.is_autocommit()
}

fn realm_ids<S: Alter>(conn: &mut Connection<S>) -> Result<Vec<SqlRow>, Error>
    ensures { ShowsIds 0 (state S.Store conn.old) (state S.Store conn.new) result }
{
    conn.query_all("SELECT rowid FROM realm ORDER BY rowid", &[])
}

fn row_ids<S: Alter>(conn: &mut Connection<S>) -> Result<Vec<SqlRow>, Error>
    ensures { ShowsIds 2 (state S.Store conn.old) (state S.Store conn.new) result }
{
    conn.query_all("SELECT rowid FROM txn ORDER BY rowid", &[])
}

/// Whether they are numbers that rise strictly.
fn are_ids(rows: &[SqlRow]) -> bool
    ensures numbers { OnTrue result
        ((row : Shown) → Has rows.now row → (id : ℤ) × (column row 0 ≡ Int id)) }
    ensures rising { OnTrue result
        (rises (λ m n. is_lt (int_cmp m n)) (map number_at rows.now) ≡ true) }
{
    let mut last = None;
    for row in rows {
        let ValueRef::Int(id) = column(row, 0) else {
            return false;
        };
        if !may_follow(last, id) {
            return false;
        }
        last = Some(id);
    }
    true
}

fn may_follow(last: Option<i64>, id: i64) -> bool
    ensures { result ≡ may_follow (λ m n. is_lt (int_cmp m n)) last id }
{
    match last {
        Some(last) => last < id,
        None => true,
    }
}
