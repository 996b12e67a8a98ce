//! What is asked of the database, and read from its answers.
ghost use Rattle.std.specs.Prelude.{◌≡◌, ◌↔◌, IsTrue, Some, None};
ghost use Rattle.std.specs.Option.{option_copied};
ghost use Rattle.sqlite.specs.Held.{state};
ghost use Rattle.tip_rows.specs.Logs.{IsPart, IsSpoiled, AreNames, HasBadName, last_epoch};
ghost use Rattle.tip_sql.specs.Reading.{has_some};
ghost use Rattle.tip_sql.specs.Sql.{Looks, IsEnded};

use crate::reading::{epoch_in, part_in, realms_in};
use crate::statements;
use sqlite::{Alter, Connection, Row as SqlRow};
use std::alloc::Global;
use tip_line::Realm;
use tip_rows::{LoadFault, Loaded};

/// The epoch and the rows of a realm.
pub fn part<S: Alter>(
    alloc: Global,
    conn: &mut Connection<S>,
    realm: &Realm,
) -> Result<Loaded, LoadFault>
    ensures { Looks (λ log loaded. IsPart log realm.now loaded.epoch loaded.rows.items)
        (λ log. IsSpoiled log realm.now) (state S.Store conn.old) (state S.Store conn.new) result }
{
    let Ok(epochs) = statements::epoch(conn, realm) else {
        return Err(LoadFault::Refused);
    };
    let Ok(rows) = statements::rows(conn, realm) else {
        return Err(LoadFault::Refused);
    };
    part_in(alloc, &epochs, &rows)
}

/// The names of the known realms.
pub fn realms<S: Alter>(alloc: Global, conn: &mut Connection<S>) -> Result<Vec<Realm>, LoadFault>
    ensures { Looks (λ log names. AreNames log names.items) HasBadName (state S.Store conn.old)
        (state S.Store conn.new) result }
{
    let Ok(names) = statements::names(conn) else {
        return Err(LoadFault::Refused);
    };
    realms_in(alloc, &names)
}

/// Whether the epoch of this realm, or of some realm, is at its end.
pub fn is_at_end<S: Alter>(
    conn: &mut Connection<S>,
    realm: Option<&Realm>,
) -> Result<bool, LoadFault>
    ensures { Looks (IsEnded (option_copied realm.entry)) (λ _. ⊥) (state S.Store conn.old)
        (state S.Store conn.new) result }
{
    match realm {
        Some(realm) => is_realm_at_end(conn, realm),
        None => is_one_at_end(conn),
    }
}

fn is_one_at_end<S: Alter>(conn: &mut Connection<S>) -> Result<bool, LoadFault>
    ensures { Looks (λ log. IsEnded None log) (λ _. ⊥) (state S.Store conn.old)
        (state S.Store conn.new) result }
{
    let Ok(names) = statements::ended(conn) else {
        return Err(LoadFault::Refused);
    };
    Ok(has_some(&names))
}

/// Whether something is shown.
fn has_some(rows: &[SqlRow]) -> bool
    ensures { result ≡ has_some rows.now }
{
    match rows {
        [] => false,
        _ => true,
    }
}

fn is_realm_at_end<S: Alter>(conn: &mut Connection<S>, realm: &Realm) -> Result<bool, LoadFault>
    ensures { Looks (λ log. IsEnded (Some realm.now) log) (λ _. ⊥) (state S.Store conn.old)
        (state S.Store conn.new) result }
{
    let Ok(epochs) = statements::epoch(conn, realm) else {
        return Err(LoadFault::Refused);
    };
    Ok(is_last(epoch_in(&epochs)))
}

/// Whether it is the greatest epoch.
fn is_last(epoch: Option<u32>) -> bool
    ensures { IsTrue result ↔ (epoch ≡ Some last_epoch) }
{
    match epoch {
        Some(epoch) => epoch == u32::MAX,
        None => false,
    }
}
