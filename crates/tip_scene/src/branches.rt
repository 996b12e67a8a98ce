//! The branches of a realm's transactions.
ghost use Rattle.std.specs.Prelude.{◌≡◌, ◌≤◌, true, false, IfOk, IsErrOf};
ghost use Rattle.tip_line.specs.Fields.{fields_of};
ghost use Rattle.tip_rows.specs.Rows.{first_label};
ghost use Rattle.tip_scene.specs.Acts.{are_labels, first_branches, numbered};
ghost use Rattle.tip_scene.specs.declared.fault.LineFault.TheVariants.{NotUnderstood, Store};

use crate::fault::LineFault;
use std::alloc::{AllocError, Global};
use tip_line::Fields;
use tip_rows::{Branches, Label, LabelFault};

/// How many branches a transaction may have.
const MOST_BRANCHES: u8 = 8;

/// So many branches, 8 at most, for a realm that names none.
pub fn first_branches(alloc: Global, count: u8) -> Result<Branches, AllocError>
    requires { count ≤ 8 }
    ensures { IfOk result (λ branches. branches ≡ first_branches count) }
{
    let mut items = Vec::with_capacity(alloc, count as usize)?;
    for before in 0..count {
        let number = before + 1;
        items.push((number, first_label(alloc, number)?))?;
    }
    match Branches::new(items) {
        Ok(branches) => Ok(branches),
        Err(_) => unreachable!(),
    }
}

/// Branches with these labels, numbered from 1; spaces stand between them.
pub fn labelled_branches(alloc: Global, labels: &[u8]) -> Result<Branches, LineFault>
    ensures ok { IfOk result (λ branches. (branches ≡ numbered 1 (fields_of 32 labels.now))
        × (are_labels (fields_of 32 labels.now) ≡ true)) }
    ensures bad { IsErrOf result NotUnderstood → are_labels (fields_of 32 labels.now) ≡ false }
    ensures unblamed { IsErrOf result Store → ⊥ }
{
    let mut fields: Fields<'_, b' '> = Fields::of(labels);
    let mut items = Vec::new(alloc);
    let mut number = 1;
    while let Some(label) = fields.next() {
        if number > MOST_BRANCHES {
            return Err(LineFault::NotUnderstood);
        }
        items.push((number, Label::new(alloc, label)?))?;
        number += 1;
    }
    match Branches::new(items) {
        Ok(branches) => Ok(branches),
        Err(_) => Err(LineFault::NotUnderstood),
    }
}

/// The label of a branch that has no other: `b` and its number, 1 to 8.
fn first_label(alloc: Global, number: u8) -> Result<Label, AllocError>
    requires { number ≤ 8 }
    ensures { IfOk result (λ label. label ≡ first_label number) }
{
    match Label::new(alloc, &[b'b', b'0' + number]) {
        Ok(label) => Ok(label),
        Err(LabelFault::Memory) => Err(AllocError),
        Err(LabelFault::BadLabel) => unreachable!(),
    }
}
