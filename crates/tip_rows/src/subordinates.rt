//! The subordinates of a row.
ghost use Rattle.std.specs.Prelude.{◌≡◌, IfOk};

use std::alloc::{AllocError, Allocator, Global};
use std::marker::Model;
use tip_line::{Address, Id};

/// The subordinates that voted yes, in the order enlisted: where each is, and the identifier that it gave.
#[derive(Drop)]
pub struct Subordinates<A: Allocator = Global> {
    items: Vec<(Address, Id), A>,
}

impl<A: Allocator> Model for Subordinates<A> {
    ghost use Rattle.std.specs.Prelude.{List, ℕ};

    ghost Value = { List (List ℕ × List ℕ) };

    ghost view = { λ s. s.items.items };
}

impl<A: Allocator> Subordinates<A> {
    /// These subordinates.
    pub fn new(items: Vec<(Address, Id), A>) -> Subordinates<A>
        ensures { result ≡ items.items }
    {
        Subordinates { items }
    }

    /// The subordinates in order.
    pub fn as_slice(&self) -> &[(Address, Id)]
        ensures { result.now ≡ self.now }
    {
        &self.items
    }

    /// Equal subordinates on this heap, or want of memory.
    pub fn copy<B: Allocator>(&self, heap: B) -> Result<Subordinates<B>, AllocError>
        ensures { IfOk result (λ subordinates. subordinates ≡ self.now) }
    {
        Ok(Subordinates {
            items: copied_subordinates(heap, &self.items)?,
        })
    }

    /// The subordinates, without taking memory.
    pub fn into_vec(self) -> Vec<(Address, Id), A>
        ensures { result.items ≡ self }
    {
        self.items
    }
}

/// Equal subordinates.
fn copied_subordinates<A: Allocator>(
    heap: A,
    subordinates: &[(Address, Id)],
) -> Result<Vec<(Address, Id), A>, AllocError>
    ensures { IfOk result (λ items. items.items ≡ subordinates.now) }
{
    let mut items = Vec::with_capacity(heap, subordinates.len())?;
    for (address, id) in subordinates {
        items.push_reserved((address.copy()?, id.copy()?));
    }
    Ok(items)
}
