//! What the tests store, and what they ask of a log.
use std::alloc::Global;
use std::test::Fail;
use tip_line::Realm;
use tip_rows::{Key, Row, RowLog};

/// A row of a realm.
#[derive(Drop)]
pub struct Sample {
    pub realm: Realm,
    pub key: Key,
    pub row: Row,
}

/// A row of the realm north, of the transaction of this number.
pub fn make_sample(alloc: Global, number: u32, text: &str) -> Result<Sample, Fail> {
    let key = Key::new(1, 9, number).ok_or("a number is 0")?;
    let realm = Realm::new(alloc, b"north")?;
    let row = Row::parse(alloc, text.as_bytes())?;
    Ok(Sample { realm, key, row })
}

/// A realm's stored epoch, and how many rows it has.
pub fn stored<L: RowLog>(log: &mut L, realm: &Realm) -> Result<(u32, usize), Fail> {
    let loaded = log.load(realm)?;
    Ok((loaded.epoch, loaded.rows.len()))
}

/// Whether a row is put and then removed.
pub fn is_put_and_removed<L: RowLog>(log: &mut L, sample: &Sample) -> bool {
    log.put(&sample.realm, sample.key, &sample.row).is_ok()
        && log.remove(&sample.realm, sample.key).is_ok()
}
