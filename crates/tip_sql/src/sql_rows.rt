//! Rows over a database.
ghost use Rattle.std.specs.Prelude.{◌≡◌, ◌↔◌, true, false, Err, IfOk, OnOk, MatchResult, is_err};
ghost use Rattle.std.specs.Option.{option_copied};
ghost use Rattle.sqlite.specs.Held.{state};
ghost use Rattle.tip_rows.specs.Logs.{Log, counted, is_refused_load, Stands, LeavesOne, LeavesSame, IsSettled};
ghost use Rattle.sqlite.specs.State.{HasCleanDisk};
ghost use Rattle.tip_sql.specs.Standing.{change_of, found_in, lacks_column};
ghost use Rattle.tip_sql.specs.Sql.{keeping_in, stands_in, is_true_in, leaves_some, IsEnded, Probes};

use crate::database::Database;
use crate::layout::lacks_column;
use crate::opening::{OverFault, is_ours, make_tables};
use crate::questions;
use crate::statements::{Change, make};
use sqlite::{Alter, Connection};
use std::alloc::Global;
use std::marker::Model;
use tip_line::Realm;
use tip_rows::{Key, LoadFault, Loaded, RaiseFault, Refused, Row, RowLog};

/// Rows in the tables `realm` and `txn` of a database. Each change is one committed statement.
/// After a fault that shuts the connection each call is refused, and none reaches the database.
#[derive(Drop)]
pub struct SqlRows<S: Alter> {
    alloc: Global,
    database: Database<S>,
    faults: u64,
    is_shut: bool,
}

impl<S: Alter> Model for SqlRows<S> {
    ghost use Rattle.sqlite.specs.Held.{state};
    ghost use Rattle.tip_sql.specs.Standing.{IsKept};
    ghost use Rattle.tip_sql.specs.Sql.{Sql, sql_code};

    ghost Value = { Sql S };

    ghost coded = { sql_code S.code };

    ghost view = { λ s. record { conn = s.database.conn; faults = s.faults; is_shut = s.is_shut } };

    ghost invariant = { λ s. IsKept (state S.Store s.database.conn) s.is_shut };
}

impl<S: Alter + Drop> SqlRows<S> {
    /// Takes over a database that has our tables and nothing else, and makes the tables that are not there.
    /// It commits with full sync, as the connection was opened. At a fault the connection is dropped.
    pub fn over(alloc: Global, mut conn: Connection<S>) -> Result<SqlRows<S>, OverFault>
        ensures bad_schema { (result ≡ Err OverFault.BadSchema) ↔
            (lacks_column (state S.Store conn).now.schema ≡ true) }
        ensures stands { IfOk result
            (λ rows. stands_in S.Store rows (found_in (state S.Store conn).now)) }
        ensures truth { IfOk result
            (λ rows. is_true_in S.Store rows → HasCleanDisk (state S.Store conn)) }
        ensures settled { IfOk result (λ rows. is_true_in S.Store rows →
            IsSettled (keeping_in S.Store) rows) }
        ensures no_faults { IfOk result (λ rows. rows.faults ≡ 0) }
    {
        if lacks_column(conn.schema()) {
            return Err(OverFault::BadSchema);
        }
        if make_tables(&mut conn).is_err() {
            return Err(OverFault::Refused);
        }
        if !is_ours(&mut conn) {
            return Err(OverFault::Refused);
        }
        Ok(SqlRows {
            alloc,
            database: Database { conn },
            faults: 0,
            is_shut: false,
        })
    }
}

impl<S: Alter> SqlRows<S> {
    /// The connection as it stands.
    pub fn release(self) -> Connection<S>
        ensures { result ≡ self.conn }
    {
        let SqlRows {
            alloc: _,
            database,
            faults: _,
            is_shut: _,
        } = self;
        let Database { conn } = database;
        conn
    }

    /// Makes one change, unless the database is shut.
    fn change(&mut self, change: &Change<'_>) -> Result<(), Refused>
        ensures stands { Stands (keeping_in S.Store) (change_of change.now) self.old self.new
            result }
        ensures counts { self.new.faults ≡ counted (is_err result) self.old.faults }
        ensures truth { is_true_in S.Store self.new → is_true_in S.Store self.old }
        ensures stop { LeavesOne (keeping_in S.Store)
            (change_of change.now) self.old self.new }
        ensures settled { is_true_in S.Store self.new →
            OnOk result (IsSettled (keeping_in S.Store) self.new) }
    {
        if self.is_shut {
            return Err(refuse(&mut self.faults));
        }
        if make(self.alloc, &mut self.database.conn, change).is_ok() {
            return Ok(());
        }
        self.is_shut = !is_alive(&mut self.database.conn);
        Err(refuse(&mut self.faults))
    }
}

impl<S: Alter> SqlRows<S> {
    /// Whether the epoch of this realm, or of some realm, is at its end.
    fn is_at_end(&mut self, realm: Option<&Realm>) -> Result<bool, Refused>
        ensures ended { (log : Log) → stands_in S.Store self.old log → is_true_in S.Store self.new →
            IfOk result (IsEnded (option_copied realm.entry) log) }
        ensures stands { (log : Log) → stands_in S.Store self.old log →
            stands_in S.Store self.new log }
        ensures counts { self.new.faults ≡ counted (is_err result) self.old.faults }
        ensures truth { is_true_in S.Store self.new → is_true_in S.Store self.old }
        ensures stop { LeavesSame (keeping_in S.Store)
            self.old self.new }
        ensures settled { is_true_in S.Store self.new →
            OnOk result (IsSettled (keeping_in S.Store) self.new) }
    {
        if self.is_shut {
            return Err(refuse(&mut self.faults));
        }
        match questions::is_at_end(&mut self.database.conn, realm) {
            Ok(is_end) => Ok(is_end),
            Err(_) => {
                self.is_shut = !is_alive(&mut self.database.conn);
                Err(refuse(&mut self.faults))
            }
        }
    }
}

impl<S: Alter> RowLog for SqlRows<S> {
    type Medium = Database<S>;

    ghost medium = { λ s. record { conn = s.conn } };

    ghost keeping = { keeping_in S.Store };

    fn know(&mut self, realm: &Realm) -> Result<(), Refused> {
        self.change(&Change::Know(realm))
    }

    fn raise_epochs(&mut self) -> Result<(), RaiseFault> {
        match self.is_at_end(None) {
            Ok(true) => Err(RaiseFault::EpochEnd),
            Ok(false) => risen(self.change(&Change::RaiseAll)),
            Err(Refused) => Err(RaiseFault::Refused),
        }
    }

    fn raise_epoch(&mut self, realm: &Realm) -> Result<(), RaiseFault> {
        match self.is_at_end(Some(realm)) {
            Ok(true) => Err(RaiseFault::EpochEnd),
            Ok(false) => risen(self.change(&Change::RaiseOne(realm))),
            Err(Refused) => Err(RaiseFault::Refused),
        }
    }

    fn put(&mut self, realm: &Realm, key: Key, row: &Row) -> Result<(), Refused> {
        self.change(&Change::Put(realm, key, row))
    }

    fn remove(&mut self, realm: &Realm, key: Key) -> Result<(), Refused> {
        self.change(&Change::Remove(realm, key))
    }

    fn load(&mut self, realm: &Realm) -> Result<Loaded, LoadFault> {
        if self.is_shut {
            refuse(&mut self.faults);
            return Err(LoadFault::Refused);
        }
        let read = questions::part(self.alloc, &mut self.database.conn, realm);
        if is_refused(&read) {
            self.is_shut = !is_alive(&mut self.database.conn);
            refuse(&mut self.faults);
            return Err(LoadFault::Refused);
        }
        read
    }

    fn realms(&mut self) -> Result<Vec<Realm>, LoadFault> {
        if self.is_shut {
            refuse(&mut self.faults);
            return Err(LoadFault::Refused);
        }
        let read = questions::realms(self.alloc, &mut self.database.conn);
        if is_refused(&read) {
            self.is_shut = !is_alive(&mut self.database.conn);
            refuse(&mut self.faults);
            return Err(LoadFault::Refused);
        }
        read
    }

    fn faults(&self) -> u64 {
        self.faults
    }

    ghost true_while_faithful = { λ _ faithful. faithful };

    ghost leaves_some = { λ rows clean. leaves_some _ (S.Store.survives rows.conn.store clean) };
}

/// Whether the store refused.
fn is_refused<T>(read: &Result<T, LoadFault>) -> bool
    ensures { result ≡ is_refused_load read.now }
{
    matches!(read, Err(LoadFault::Refused))
}

/// A rise that was refused, or made.
fn risen(done: Result<(), Refused>) -> Result<(), RaiseFault>
    ensures { MatchResult result (λ _. done ≡ Ok (record {}))
        (λ fault. (fault ≡ RaiseFault.Refused) × (done ≡ Err (record {}))) }
{
    match done {
        Ok(()) => Ok(()),
        Err(Refused) => Err(RaiseFault::Refused),
    }
}

/// A refusal, which is counted.
fn refuse(faults: &mut u64) -> Refused
    ensures { faults.new ≡ counted true faults.old }
{
    *faults = faults.wrapping_add(1);
    Refused
}

/// Whether a connection still answers. The question commits nothing.
fn is_alive<S: Alter>(conn: &mut Connection<S>) -> bool
    ensures { Probes (state S.Store conn.old) (state S.Store conn.new) result }
{
    conn.prepare("SELECT 1").is_ok()
}
