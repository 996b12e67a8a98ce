//! The local branches of a row.
ghost use Rattle.std.specs.Prelude.{◌≡◌, true, false, IfOk, IfErr, OnOk};
ghost use Rattle.std.specs.List.{list_all};
ghost use Rattle.tip_rows.specs.Branches.{are_branches, is_behind};

use crate::label::Label;
use std::alloc::{AllocError, Allocator, Global};
use std::marker::Model;

/// The local branches of a transaction that voted yes: member numbers from 1 to 8, rising, with distinct labels.
#[derive(Drop)]
pub struct Branches<A: Allocator = Global> {
    items: Vec<(u8, Label), A>,
}

impl<A: Allocator> Model for Branches<A> {
    ghost use Rattle.std.specs.Prelude.{◌≡◌, true, ℕ, List};
    ghost use Rattle.tip_rows.specs.Branches.{are_branches};

    ghost Value = { List (ℕ × List ℕ) };

    ghost view = { λ b. b.items.items };

    ghost invariant = { λ b. are_branches b.items.items ≡ true };
}

impl<A: Allocator> Branches<A> {
    /// These branches, given back where they are none: out of order, beyond 8, or with one label twice.
    pub fn new(items: Vec<(u8, Label), A>) -> Result<Branches<A>, Vec<(u8, Label), A>>
        ensures ok { IfOk result (λ branches. branches ≡ items.items) }
        ensures good { OnOk result (are_branches items.items ≡ true) }
        ensures bad { IfErr result
            (λ back. (back.items ≡ items.items) × (are_branches items.items ≡ false)) }
    {
        if are_branches(&items) {
            Ok(Branches { items })
        } else {
            Err(items)
        }
    }

    /// The branches in order.
    pub fn as_slice(&self) -> &[(u8, Label)]
        ensures same { result.now ≡ self.now }
        ensures branches { are_branches self.now ≡ true }
    {
        &self.items
    }

    /// Equal branches on this heap, or want of memory.
    pub fn copy<B: Allocator>(&self, heap: B) -> Result<Branches<B>, AllocError>
        ensures { IfOk result (λ branches. branches ≡ self.now) }
    {
        Ok(Branches {
            items: copied_branches(heap, &self.items)?,
        })
    }

    /// The branches, without taking memory.
    pub fn into_vec(self) -> Vec<(u8, Label), A>
        ensures { result.items ≡ self }
    {
        self.items
    }
}

/// Whether numbers rise from 1 to 8 at most, and no label is there twice.
fn are_branches(branches: &[(u8, Label)]) -> bool
    ensures { result ≡ are_branches branches.now }
{
    match branches {
        [] => true,
        [(number, label), rest @ ..] => {
            1 <= *number && *number <= 8 && are_behind(*number, label, rest) && are_branches(rest)
        }
    }
}

/// Whether each of these branches has a greater number and another label.
fn are_behind(number: u8, label: &Label, branches: &[(u8, Label)]) -> bool
    ensures { result ≡ list_all (is_behind number label.now) branches.now }
{
    branches
        .iter()
        .all(|(other, name)| number < *other && label != name)
}

/// Equal branches.
fn copied_branches<A: Allocator>(
    heap: A,
    branches: &[(u8, Label)],
) -> Result<Vec<(u8, Label), A>, AllocError>
    ensures { IfOk result (λ items. items.items ≡ branches.now) }
{
    let mut items = Vec::with_capacity(heap, branches.len())?;
    for (number, label) in branches {
        items.push_reserved((*number, label.copy()?));
    }
    Ok(items)
}
