//! The stored rows of one realm.
ghost use Rattle.std.specs.Prelude.{◌≡◌, ◌↔◌, ◌<◌, ◌≤◌, true, length, vec_capacity, vec_len, IfOk, IsTrue, OnOk};
ghost use Rattle.tip_branch.specs.Always.{Always};
ghost use Rattle.tip_machine.specs.Moves.{row_put, stored};
ghost use Rattle.tip_recovery.specs.Adopting.{stored_of};
ghost use Rattle.tip_rows.specs.Keys.{is_same};
ghost use Rattle.tip_rows.specs.Logs.{is_rising};
ghost use Rattle.tip_table.specs.Lists.{without};
ghost use Rattle.tip_kept.specs.Keeping.{count_before, is_at};

use std::alloc::{AllocError, Global};
use std::marker::Model;
use tip_machine::Change;
use tip_recovery::Unfinished;
use tip_rows::{Key, Row};

/// The stored rows of one realm, by rising key.
#[derive(Drop)]
pub(crate) struct RealmRows {
    rows: Vec<(Key, Row)>,
}

impl Model for RealmRows {
    ghost use Rattle.std.specs.Prelude.{◌≡◌, ◌-◌, true, vec_capacity, vec_len};
    ghost use Rattle.tip_kept.specs.Keeping.{RealmRows};
    ghost use Rattle.tip_rows.specs.Logs.{is_rising};

    ghost Value = { RealmRows };

    ghost view = { λ r. record {
      rows = r.rows.items;
      free = vec_capacity r.rows - vec_len r.rows;
    } };

    ghost invariant = { λ r. is_rising r.rows.items ≡ true };
}

impl RealmRows {
    /// These rows, copied.
    pub(crate) fn of(alloc: Global, rows: &[Unfinished]) -> Result<RealmRows, AllocError>
        requires always { Always }
        requires rising { is_rising (stored_of rows.now) ≡ true }
        ensures { IfOk result (λ own. own.rows ≡ stored_of rows.now) }
    {
        Ok(RealmRows {
            rows: copy_of(alloc, rows)?,
        })
    }

    /// Makes room for one row more.
    pub(crate) fn reserve(&mut self) -> Result<(), AllocError>
        ensures room { OnOk result (0 < self.new.free) }
        ensures same { self.new.rows ≡ self.old.rows }
    {
        self.rows.reserve(1)
    }

    /// The store has made this change. It takes room that `reserve` made.
    pub(crate) fn make(&mut self, change: Change)
        requires { 0 < self.old.free }
        ensures { self.new.rows ≡ stored change self.old.rows }
    {
        match change {
            Change::Put { key, row } => put(&mut self.rows, key, row),
            Change::Remove { key } => remove(&mut self.rows, key),
        }
    }

    /// Whether these are the same rows, word for word.
    pub(crate) fn are(&self, rows: &[Unfinished]) -> bool
        ensures { IsTrue result ↔ (self.now.rows ≡ stored_of rows.now) }
    {
        are_same(&self.rows, rows)
    }
}

/// The rows themselves, copied.
fn copy_of(alloc: Global, rows: &[Unfinished]) -> Result<Vec<(Key, Row)>, AllocError>
    requires { Always }
    ensures { IfOk result (λ copies. copies.items ≡ stored_of rows.now) }
{
    let mut copies = Vec::with_capacity(alloc, rows.len())?;
    for row in rows {
        copies.push((row.key(), row.row().copy(alloc)?))?;
    }
    Ok(copies)
}

/// A row is stored, in place of the one of its key, if there is one. It takes room that is there.
fn put(rows: &mut Vec<(Key, Row)>, key: Key, row: Row)
    requires room { vec_len rows.old < vec_capacity rows.old }
    requires rising { is_rising rows.old.items ≡ true }
    ensures { rows.new.items ≡ row_put key row rows.old.items }
{
    let index = before(rows, key);
    if is_at(rows, index, key) {
        rows[index] = (key, row);
    } else {
        rows.insert(index, (key, row)).unwrap();
    }
}

/// The row of a key is taken out, if there is one.
fn remove(rows: &mut Vec<(Key, Row)>, key: Key)
    requires { is_rising rows.old.items ≡ true }
    ensures { rows.new.items ≡ without (λ other. is_same key other.0) rows.old.items }
{
    let index = before(rows, key);
    if is_at(rows, index, key) {
        rows.remove(index);
    }
}

/// How many rows come before a key, by halves.
fn before(rows: &[(Key, Row)], key: Key) -> usize
    requires { is_rising rows.now ≡ true }
    ensures count { result ≡ count_before key rows.now }
    ensures within { result ≤ length rows.now }
{
    rows.partition_point(|stored| stored.0.comes_before(key))
}

/// Whether the row of a key stands at this index.
fn is_at(rows: &[(Key, Row)], index: usize, key: Key) -> bool
    ensures { result ≡ is_at key rows.now index }
{
    match rows.get(index) {
        Some((other, _)) => key == *other,
        None => false,
    }
}

/// Whether these are the same rows, word for word.
fn are_same(kept: &[(Key, Row)], rows: &[Unfinished]) -> bool
    ensures { IsTrue result ↔ (kept.now ≡ stored_of rows.now) }
{
    let mut before = kept;
    let mut after = rows;
    while let ([(key, row), olds @ ..], [new, news @ ..]) = (before, after) {
        if !new.is_of(*key, row) {
            return false;
        }
        before = olds;
        after = news;
    }
    before.is_empty() && after.is_empty()
}
