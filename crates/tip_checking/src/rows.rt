//! What is wrong with a row of a store.
ghost use Rattle.std.specs.Prelude.{◌≡◌, IfOk, MatchResult, Some, None, find, is_some, not, option_map, string_bytes};
ghost use Rattle.tip_sql.specs.Standing.{row_of};
ghost use Rattle.tip_checking.specs.Findings.{key_of, is_ahead, epoch_in, is_named, wrong_row, wrong_text};

use crate::contents::{Known, Stored};
use crate::realms::number_in;
use std::alloc::{AllocError, Global};
use thiserror::Error;
use tip_rows::{Key, Row, RowFault};

/// Why a row keeps its realm from starting, is never looked at, or lets identifiers be given twice.
#[derive(Clone, Copy, Debug, PartialEq, Eq, Error)]
pub enum WrongRow {
    #[error("its realm is not known")]
    Unknown,
    #[error("its numbers are no key: each is 1 to 4294967295")]
    Key,
    #[error("its epoch is above its realm's, so that its identifier would be given again")]
    Ahead,
    #[error("its text is no row")]
    Text,
}

/// What is wrong with a row beside these realms; None where nothing is.
pub fn wrong_row(
    alloc: Global,
    realms: &[Known],
    row: &Stored,
) -> Result<Option<WrongRow>, AllocError>
    ensures { IfOk result (λ wrong. wrong ≡ wrong_row realms.now row.now) }
{
    let Some(epoch) = epoch_in(realms, row.realm.as_str()) else {
        return Ok(Some(WrongRow::Unknown));
    };
    let Some(key) = key_of(row) else {
        return Ok(Some(WrongRow::Key));
    };
    if is_ahead(key, epoch) {
        return Ok(Some(WrongRow::Ahead));
    }
    wrong_text(alloc, row.text.as_bytes())
}

/// The epoch of the realm of this name, as it is stored.
pub(crate) fn epoch_in(realms: &[Known], name: &str) -> Option<i64>
    ensures { result ≡ epoch_in realms.now name.now }
{
    let realm = realms.iter().find(|realm| realm.name.as_str() == name)?;
    Some(realm.epoch)
}

/// The key that three numbers are.
pub(crate) fn key_of(row: &Stored) -> Option<Key>
    ensures { result ≡ key_of row.now }
{
    let epoch = number_in(row.epoch)?;
    let connection = number_in(row.connection)?;
    let number = number_in(row.number)?;
    Key::new(epoch, connection, number)
}

/// Whether a key is of an epoch that its realm has not had.
fn is_ahead(key: Key, epoch: i64) -> bool
    ensures { result ≡ is_ahead key epoch }
{
    match number_in(epoch) {
        Some(epoch) => epoch < key.epoch(),
        None => false,
    }
}

/// What is wrong with a row's text.
fn wrong_text(alloc: Global, text: &[u8]) -> Result<Option<WrongRow>, AllocError>
    ensures { IfOk result (λ wrong. wrong ≡ wrong_text text.now) }
{
    let row = row_in(alloc, text)?;
    if row.is_none() {
        return Ok(Some(WrongRow::Text));
    }
    Ok(None)
}

/// The row that a text is, if it is one.
pub(crate) fn row_in(alloc: Global, text: &[u8]) -> Result<Option<Row>, AllocError>
    ensures { IfOk result (λ row. row ≡ row_of text.now) }
{
    match Row::parse(alloc, text) {
        Ok(row) => Ok(Some(row)),
        Err(RowFault::BadRow) => Ok(None),
        Err(RowFault::Memory) => Err(AllocError),
    }
}
