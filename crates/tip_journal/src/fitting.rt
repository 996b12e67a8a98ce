//! Whether a pass can go on at a realm.
ghost use Rattle.std.specs.Prelude.{◌↔◌, IsTrue};
ghost use Rattle.tip_journal.specs.Fits.{Fits};

use crate::{Journals, Pass, Plain};

/// Whether the last entry that a pass has of a realm's current epoch stands in the current journal.
///
/// A pass with no such entry fits, and so does any pass at a realm that is not there: there is nothing to compare it with.
pub fn fits<S: Drop, E: Drop + Plain>(
    journals: &Journals<S, E>,
    pass: &Pass<E>,
    realm: usize,
) -> bool
    ensures { IsTrue result ↔ Fits journals.now pass.now.noted realm }
{
    let Some(journal) = journals.current(realm) else {
        return true;
    };
    let Some(last) = pass.last(realm, journal.epoch()) else {
        return true;
    };
    journal.stands(last.number, &last.entry)
}
