//! The statements, each of which is one call of the database.
ghost use Rattle.std.specs.Prelude.{◌≡◌, ◌∷◌, [], Some};
ghost use Rattle.sqlite.specs.Held.{state};
ghost use Rattle.tip_rows.specs.Logs.{with_known, with_all_raised, with_raised, with_row, without_row};
ghost use Rattle.tip_rows.specs.declared.row.Row.{Row};
ghost use Rattle.tip_sql.specs.Standing.{row_of, Changes, Shows, change_of};
ghost use Rattle.tip_sql.specs.Places.{is_named, is_last, all_rows, epoch_shown, name_shown, id_shown, row_shown};

use crate::spelling::spelled;
use sqlite::types::ToSql;
use sqlite::{Alter, Connection, Error, Row as SqlRow};
use std::alloc::Global;
use tip_line::Realm;
use tip_rows::{Key, Row};

/// One change of what is stored.
#[derive(Drop)]
pub enum Change<'a> {
    Know(&'a Realm),
    RaiseAll,
    RaiseOne(&'a Realm),
    Put(&'a Realm, Key, &'a Row),
    Remove(&'a Realm, Key),
}

/// Makes one change, as one committed statement.
pub fn make<S: Alter>(
    alloc: Global,
    conn: &mut Connection<S>,
    change: &Change<'_>,
) -> Result<usize, Error>
    ensures { Changes (change_of change.now) (state S.Store conn.old) (state S.Store conn.new)
        result }
{
    match change {
        Change::Know(realm) => know(conn, *realm),
        Change::RaiseAll => raise_all(conn),
        Change::RaiseOne(realm) => raise_one(conn, *realm),
        Change::Put(realm, key, row) => {
            let text = spelled(alloc, *row)?;
            put(conn, *realm, *key, text.as_str())
        }
        Change::Remove(realm, key) => remove(conn, *realm, *key),
    }
}

fn know<S: Alter>(conn: &mut Connection<S>, realm: &Realm) -> Result<usize, Error>
    ensures { Changes (with_known realm.now) (state S.Store conn.old) (state S.Store conn.new)
        result }
{
    conn.execute(
        "INSERT INTO realm (name, epoch) VALUES (?1, 0) ON CONFLICT (name) DO NOTHING",
        &[realm.as_str().to_sql()],
    )
}

fn raise_all<S: Alter>(conn: &mut Connection<S>) -> Result<usize, Error>
    ensures { Changes with_all_raised (state S.Store conn.old) (state S.Store conn.new) result }
{
    conn.execute(
        "UPDATE realm SET epoch = epoch + 1 WHERE epoch >= 0 AND epoch < 4294967295",
        &[],
    )
}

fn raise_one<S: Alter>(conn: &mut Connection<S>, realm: &Realm) -> Result<usize, Error>
    ensures { Changes (with_raised realm.now) (state S.Store conn.old) (state S.Store conn.new)
        result }
{
    conn.execute(
        "UPDATE realm SET epoch = epoch + 1 WHERE name = ?1 AND epoch >= 0 AND epoch < 4294967295",
        &[realm.as_str().to_sql()],
    )
}

fn put<S: Alter>(
    conn: &mut Connection<S>,
    realm: &Realm,
    key: Key,
    text: &str,
) -> Result<usize, Error>
    ensures { (row : Row) → row_of text.now ≡ Some row →
        Changes (with_row realm.now key row) (state S.Store conn.old) (state S.Store conn.new)
        result }
{
    conn.execute(
        "INSERT INTO txn (realm, epoch, conn, num, text) VALUES (?1, ?2, ?3, ?4, ?5) ON CONFLICT (realm, epoch, conn, num) DO UPDATE SET text = ?5",
        &[
            realm.as_str().to_sql(),
            key.epoch().to_sql(),
            key.connection().to_sql(),
            key.number().to_sql(),
            text.to_sql(),
        ],
    )
}

fn remove<S: Alter>(conn: &mut Connection<S>, realm: &Realm, key: Key) -> Result<usize, Error>
    ensures { Changes (without_row realm.now key) (state S.Store conn.old) (state S.Store conn.new)
        result }
{
    conn.execute(
        "DELETE FROM txn WHERE realm = ?1 AND epoch = ?2 AND conn = ?3 AND num = ?4",
        &[
            realm.as_str().to_sql(),
            key.epoch().to_sql(),
            key.connection().to_sql(),
            key.number().to_sql(),
        ],
    )
}

/// The names of the realms whose epoch is at its end.
pub fn ended<S: Alter>(conn: &mut Connection<S>) -> Result<Vec<SqlRow>, Error>
    ensures { Shows 0 is_last name_shown (state S.Store conn.old) (state S.Store conn.new) result }
{
    conn.query_all("SELECT name FROM realm WHERE epoch = 4294967295", &[])
}

/// The epoch of a realm, if it is known.
pub fn epoch<S: Alter>(conn: &mut Connection<S>, realm: &Realm) -> Result<Vec<SqlRow>, Error>
    ensures { Shows 0 (is_named realm.now) epoch_shown (state S.Store conn.old)
        (state S.Store conn.new) result }
{
    conn.query_all(
        "SELECT epoch FROM realm WHERE name = ?1",
        &[realm.as_str().to_sql()],
    )
}

/// The rows of a realm.
pub fn rows<S: Alter>(conn: &mut Connection<S>, realm: &Realm) -> Result<Vec<SqlRow>, Error>
    ensures { Shows 2 (is_named realm.now) row_shown (state S.Store conn.old)
        (state S.Store conn.new) result }
{
    conn.query_all(
        "SELECT epoch, conn, num, text FROM txn WHERE realm = ?1 ORDER BY epoch, conn, num",
        &[realm.as_str().to_sql()],
    )
}

/// The names of the known realms.
pub fn names<S: Alter>(conn: &mut Connection<S>) -> Result<Vec<SqlRow>, Error>
    ensures { Shows 0 all_rows name_shown (state S.Store conn.old) (state S.Store conn.new) result }
{
    conn.query_all("SELECT name FROM realm ORDER BY name", &[])
}
