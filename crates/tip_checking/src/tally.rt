//! What a store has of one realm, counted.
ghost use Rattle.std.specs.Prelude.{◌≡◌, ◌+◌, ◌<◌, ◌^◌, IfOk, cond};
ghost use Rattle.tip_checking.specs.Tallies.{is_committed, is_in_doubt, own_row, tally_of};

use crate::contents::{Contents, Stored};
use crate::rows::{epoch_in, row_in};
use std::alloc::{AllocError, Global};
use std::fmt;
use tip_rows::Row;

/// What a store has of one realm.
#[derive(Clone, Copy)]
pub struct Tally {
    /// 0 where it is not known.
    pub epoch: i64,
    /// Transactions that are prepared: the superior decides.
    pub in_doubt: u64,
    /// Transactions that are committed, and not acknowledged by all.
    pub committed: u64,
}

impl Tally {
    /// What is stored of the realm of this name. A text that is no row counts for nothing.
    pub fn of(alloc: Global, contents: &Contents, name: &str) -> Result<Tally, AllocError>
        ensures { IfOk result (λ tally. tally ≡ tally_of name.now contents.now) }
    {
        let mut tally = Tally {
            epoch: epoch_in(&contents.realms, name).unwrap_or(0),
            in_doubt: 0,
            committed: 0,
        };
        for row in contents.rows.as_slice() {
            tally.count(own_row(alloc, name, row)?);
        }
        Ok(tally)
    }

    /// Counts a row, if it is one.
    fn count(&mut self, row: Option<Row>)
        requires in_doubt { self.old.in_doubt < 2 ^ 63 }
        requires committed { self.old.committed < 2 ^ 63 }
        ensures epoch { self.new.epoch ≡ self.old.epoch }
        ensures in_doubt { self.new.in_doubt ≡ self.old.in_doubt + cond (is_in_doubt row) 1 0 }
        ensures committed { self.new.committed ≡ self.old.committed + cond (is_committed row) 1 0 }
    {
        match row {
            Some(Row::Prepared { .. }) => self.in_doubt += 1,
            Some(Row::Committed { .. }) => self.committed += 1,
            None => {}
        }
    }
}

/// The row that stands there, if it is one, and of the realm of this name.
fn own_row(alloc: Global, name: &str, row: &Stored) -> Result<Option<Row>, AllocError>
    ensures { IfOk result (λ own. own ≡ own_row name.now row.now) }
{
    if row.realm.as_str() != name {
        return Ok(None);
    }
    row_in(alloc, row.text.as_bytes())
}

impl fmt::Display for Tally {
    fn fmt<W: fmt::Write>(&self, f: &mut fmt::Formatter<W>) -> fmt::Result {
        write!(
            f,
            "epoch {} in-doubt {} committed {}",
            self.epoch, self.in_doubt, self.committed
        )
    }
}
