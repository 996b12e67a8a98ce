//! Rows and names, read from what the queries show.
ghost use Rattle.std.specs.Prelude.{◌≡◌, ◌⊎◌, true, map, Some, None, Err, IfOk, OnOk, option_map};
ghost use Rattle.sqlite_rules.specs.Lists.{Has};
ghost use Rattle.sqlite_value.specs.Order.{Row as Shown, column};
ghost use Rattle.sqlite_value.specs.Value.{owned};
ghost use Rattle.tip_rows.specs.Keys.{comes_before};
ghost use Rattle.tip_rows.specs.Logs.{is_rising, are_rising_names, name_before};
ghost use Rattle.tip_rows.specs.declared.log.LoadFault.TheVariants.{BadRow};
ghost use Rattle.tip_sql.specs.Reading.{Reads, number_in, key_in, row_in, entry_in, epoch_in, name_in, realm_in, may_follow, last_of};

use sqlite::Row as SqlRow;
use sqlite::types::ValueRef;
use std::alloc::Global;
use tip_line::{Realm, WordFault};
use tip_rows::{Key, LoadFault, Loaded, Row, RowFault};

/// The epoch of a realm, 0 where it is not known; None where the stored number is none.
pub fn epoch_in(rows: &[SqlRow]) -> Option<u32>
    ensures { result ≡ epoch_in rows.now }
{
    match rows {
        [] => Some(0),
        [row, ..] => number_in(column(row, 0)),
    }
}

/// What is stored of a realm, whose epoch and rows were shown.
pub(crate) fn part_in(
    alloc: Global,
    epochs: &[SqlRow],
    rows: &[SqlRow],
) -> Result<Loaded, LoadFault>
    ensures epoch { IfOk result (λ loaded. epoch_in epochs.now ≡ Some loaded.epoch) }
    ensures read { IfOk result (λ loaded. map Some loaded.rows.items ≡ map entry_in rows.now) }
    ensures rising { IfOk result (λ loaded. is_rising loaded.rows.items ≡ true) }
    ensures bad { result ≡ Err BadRow →
        (epoch_in epochs.now ≡ None) ⊎ ((row : Shown) × Has rows.now row × (entry_in row ≡ None)) }
{
    let Some(epoch) = epoch_in(epochs) else {
        return Err(LoadFault::BadRow);
    };
    Ok(Loaded {
        epoch,
        rows: entries_in(alloc, rows)?,
    })
}

/// The keys and rows, by strictly rising key. Where they do not rise, the database has broken its word, and is refused.
fn entries_in(alloc: Global, rows: &[SqlRow]) -> Result<Vec<(Key, Row)>, LoadFault>
    ensures read { IfOk result (λ entries. map Some entries.items ≡ map entry_in rows.now) }
    ensures rising { IfOk result (λ entries. is_rising entries.items ≡ true) }
    ensures bad { result ≡ Err BadRow → (row : Shown) × Has rows.now row × (entry_in row ≡ None) }
{
    let mut entries = Vec::new(alloc);
    let mut last = None;
    for row in rows {
        let (key, kept) = entry_in(alloc, row)?;
        if !may_follow(last, key) {
            return Err(LoadFault::Refused);
        }
        if entries.push((key, kept)).is_err() {
            return Err(LoadFault::Memory);
        }
        last = Some(key);
    }
    Ok(entries)
}

/// The names, strictly rising. Where they do not rise, the database has broken its word, and is refused.
pub fn realms_in(alloc: Global, rows: &[SqlRow]) -> Result<Vec<Realm>, LoadFault>
    ensures read { IfOk result (λ names. map Some names.items ≡ map realm_in rows.now) }
    ensures rising { IfOk result (λ names. are_rising_names names.items ≡ true) }
    ensures bad { result ≡ Err BadRow → (row : Shown) × Has rows.now row × (realm_in row ≡ None) }
{
    let mut names = Vec::new(alloc);
    for row in rows {
        let name = name_in(alloc, column(row, 0))?;
        if !is_after(&names, &name) {
            return Err(LoadFault::Refused);
        }
        if names.push(name).is_err() {
            return Err(LoadFault::Memory);
        }
    }
    Ok(names)
}

/// What is shown at a place.
pub(crate) fn column(row: &SqlRow, at: usize) -> ValueRef<'_>
    ensures { owned result ≡ column row.now at }
{
    match row.get_ref(at) {
        Ok(value) => value,
        Err(_) => ValueRef::Null,
    }
}

fn number_in(value: ValueRef<'_>) -> Option<u32>
    ensures { result ≡ number_in (owned value.entry) }
{
    match value {
        ValueRef::Int(n) => u32::try_from(n).ok(),
        _ => None,
    }
}

fn key_in(row: &SqlRow) -> Option<Key>
    ensures { result ≡ key_in row.now }
{
    let epoch = number_in(column(row, 0))?;
    let connection = number_in(column(row, 1))?;
    let number = number_in(column(row, 2))?;
    Key::new(epoch, connection, number)
}

fn row_in(alloc: Global, value: ValueRef<'_>) -> Result<Row, LoadFault>
    ensures { Reads result (row_in (owned value.entry)) }
{
    let ValueRef::Text(text) = value else {
        return Err(LoadFault::BadRow);
    };
    match Row::parse(alloc, text) {
        Ok(row) => Ok(row),
        Err(RowFault::BadRow) => Err(LoadFault::BadRow),
        Err(RowFault::Memory) => Err(LoadFault::Memory),
    }
}

fn entry_in(alloc: Global, row: &SqlRow) -> Result<(Key, Row), LoadFault>
    ensures { Reads result (entry_in row.now) }
{
    let Some(key) = key_in(row) else {
        return Err(LoadFault::BadRow);
    };
    Ok((key, row_in(alloc, column(row, 3))?))
}

fn name_in(alloc: Global, value: ValueRef<'_>) -> Result<Realm, LoadFault>
    ensures { Reads result (name_in (owned value.entry)) }
{
    let ValueRef::Text(text) = value else {
        return Err(LoadFault::BadRow);
    };
    match Realm::new(alloc, text) {
        Ok(name) => Ok(name),
        Err(WordFault::NotWord) => Err(LoadFault::BadRow),
        Err(WordFault::Memory) => Err(LoadFault::Memory),
    }
}

/// Whether a key may stand behind the last one.
fn may_follow(last: Option<Key>, key: Key) -> bool
    ensures { result ≡ may_follow comes_before last key }
{
    match last {
        Some(last) => last.comes_before(key),
        None => true,
    }
}

/// Whether a name may stand behind these.
fn is_after(names: &[Realm], name: &Realm) -> bool
    ensures { result ≡ may_follow name_before (last_of names.now) name.now }
{
    match names.last() {
        Some(last) => last.as_str().cmp(name.as_str()).is_lt(),
        None => true,
    }
}
