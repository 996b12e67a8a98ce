//! Rows on a heap of the caller's.
ghost use Rattle.std.specs.Prelude.{◌≡◌, IfOk};
ghost use Rattle.tip_rows.specs.declared.row.Row.TheVariants.{Prepared, Committed};

use crate::branches::Branches;
use crate::row::Row;
use crate::subordinates::Subordinates;
use std::alloc::{AllocError, Allocator, Global};
use std::marker::Model;
use tip_line::{Address, Id};

/// A row whose lists are on a heap of the caller's; its words share their octets with those that they were copied from.
#[derive(Drop)]
pub struct HeapRow<A: Allocator> {
    /// Where its superior is, and which, of a row in doubt.
    superior: Option<(Address, Id)>,
    branches: Branches<A>,
    subordinates: Subordinates<A>,
}

impl<A: Allocator> Model for HeapRow<A> {
    ghost use Rattle.tip_rows.specs.declared.row.Row.{Row};
    ghost use Rattle.tip_rows.specs.Rows.{row_with};

    ghost Value = { Row };

    ghost view = { λ r. row_with r.superior r.branches r.subordinates };
}

impl<A: Allocator> HeapRow<A> {
    /// The row in doubt of these parts.
    pub fn prepared(
        address: Address,
        superior: Id,
        branches: Branches<A>,
        subordinates: Subordinates<A>,
    ) -> HeapRow<A>
        ensures { result ≡ Prepared address superior branches subordinates }
    {
        HeapRow {
            superior: Some((address, superior)),
            branches,
            subordinates,
        }
    }

    /// The committed row of these parts.
    pub fn committed(branches: Branches<A>, subordinates: Subordinates<A>) -> HeapRow<A>
        ensures { result ≡ Committed branches subordinates }
    {
        HeapRow {
            superior: None,
            branches,
            subordinates,
        }
    }

    /// An equal row on this heap, or want of memory.
    pub fn copy<B: Allocator + Copy>(&self, heap: B) -> Result<HeapRow<B>, AllocError>
        ensures { IfOk result (λ row. row ≡ self.now) }
    {
        Ok(HeapRow {
            superior: match &self.superior {
                Some((address, superior)) => Some((address.copy()?, superior.copy()?)),
                None => None,
            },
            branches: self.branches.copy(heap)?,
            subordinates: self.subordinates.copy(heap)?,
        })
    }
}

impl<A: Allocator + Copy> HeapRow<A> {
    /// An equal row on this heap, or want of memory.
    pub fn of(heap: A, row: &Row) -> Result<HeapRow<A>, AllocError>
        ensures { IfOk result (λ held. held ≡ row.now) }
    {
        Ok(match row {
            Row::Prepared {
                address,
                superior,
                branches,
                subordinates,
            } => HeapRow::prepared(
                address.copy()?,
                superior.copy()?,
                branches.copy(heap)?,
                subordinates.copy(heap)?,
            ),
            Row::Committed {
                branches,
                subordinates,
            } => HeapRow::committed(branches.copy(heap)?, subordinates.copy(heap)?),
        })
    }
}

impl HeapRow<Global> {
    /// The row, without taking memory.
    pub fn into_row(self) -> Row
        ensures { result ≡ self }
    {
        let HeapRow {
            superior,
            branches,
            subordinates,
        } = self;
        match superior {
            Some((address, superior)) => Row::Prepared {
                address,
                superior,
                branches,
                subordinates,
            },
            None => Row::Committed {
                branches,
                subordinates,
            },
        }
    }
}
