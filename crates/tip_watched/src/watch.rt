//! Who is told of rows.
use tip_line::Realm;
use tip_rows::{Key, Row};

/// Who is told what becomes of the rows of a store, behind each call. It changes none of them.
pub trait Watch {
    /// These are all rows of a realm.
    fn loaded(&mut self, realm: &Realm, rows: &[(Key, Row)]);

    /// A row was added, or has taken the place of another.
    fn put(&mut self, realm: &Realm, key: Key, row: &Row);

    /// A row was removed, if it was there.
    fn removed(&mut self, realm: &Realm, key: Key);

    /// The store has refused to add or to remove a row.
    fn refused(&mut self, realm: &Realm, key: Key);
}
