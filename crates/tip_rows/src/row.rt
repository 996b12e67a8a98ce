//! Rows, which say what a restart must know of a transaction.
ghost use Rattle.std.specs.Prelude.{◌≡◌, IfOk};

use crate::branches::Branches;
use crate::heap_row::HeapRow;
use crate::subordinates::Subordinates;
use std::alloc::{AllocError, Global};
use tip_line::{Address, Id};

/// What outlives a restart of one transaction.
#[derive(Drop)]
pub enum Row {
    /// In doubt: its superior, which is at this address, decides.
    Prepared {
        address: Address,
        superior: Id,
        branches: Branches,
        subordinates: Subordinates,
    },
    /// Committed, and not yet acknowledged by all.
    Committed {
        branches: Branches,
        subordinates: Subordinates,
    },
}

impl Row {
    /// An equal row, or want of memory.
    pub fn copy(&self, alloc: Global) -> Result<Row, AllocError>
        ensures { IfOk result (λ row. row ≡ self.now) }
    {
        Ok(HeapRow::of(alloc, self)?.into_row())
    }
}
