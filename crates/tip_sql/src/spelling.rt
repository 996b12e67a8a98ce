//! The text that a row is stored as.
ghost use Rattle.std.specs.Prelude.{◌≡◌, Some, true, IfOk, string_bytes};
ghost use Rattle.std.specs.List.{list_all};
ghost use Rattle.tip_line.specs.Words.{is_word, is_address};
ghost use Rattle.tip_rows.specs.Labels.{is_label};
ghost use Rattle.tip_rows.specs.Rows.{written, IsRow, AreBranches, AreSubordinates};
ghost use Rattle.tip_sql.specs.Standing.{row_of};

use std::alloc::{AllocError, Global};
use tip_line::{Address, Id};
use tip_rows::{Label, Row};

/// The text of a row, which is read as that row.
pub fn spelled(alloc: Global, row: &Row) -> Result<String, AllocError>
    ensures { IfOk result (λ text. row_of (string_bytes text) ≡ Some row.now) }
{
    learn_parts(row);
    row.print(alloc)
}

/// Does nothing: each part of a row shows what it is made of.
fn learn_parts(row: &Row)
    ensures { IsRow row.now }
{
    match row {
        Row::Prepared {
            address,
            superior,
            branches,
            subordinates,
        } => {
            let _ = address.as_str();
            let _ = superior.as_str();
            learn_labels(branches.as_slice());
            learn_subordinates(subordinates.as_slice());
        }
        Row::Committed {
            branches,
            subordinates,
        } => {
            learn_labels(branches.as_slice());
            learn_subordinates(subordinates.as_slice());
        }
    }
}

/// Does nothing: each label shows that it is one.
fn learn_labels(branches: &[(u8, Label)])
    ensures { list_all (λ b. is_label b.1) branches.now ≡ true }
{
    for (_, label) in branches {
        let _ = label.as_str();
    }
}

/// Does nothing: each address and identifier shows that it is one.
fn learn_subordinates(subordinates: &[(Address, Id)])
    ensures { AreSubordinates subordinates.now }
{
    for (address, id) in subordinates {
        let _ = address.as_str();
        let _ = id.as_str();
    }
}
