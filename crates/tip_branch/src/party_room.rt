//! Room for a party, made before it is needed.

ghost use Rattle.std.specs.Prelude.{◌≡◌, ◌≤◌, [], IfOk};

use crate::branch::Branch;
use crate::roll::Roll;
use std::alloc::{AllocError, Global};
use std::marker::Model;

/// Room for what a party notes of its members: made beforehand, so that a party takes no memory.
#[derive(Drop)]
pub struct NotesRoom {
    pub(crate) roll: Roll,
    ghost nobody: { roll ≡ [] },
}

impl NotesRoom {
    /// Room for the notes of one party.
    pub fn new(alloc: Global) -> Result<NotesRoom, AllocError> {
        let roll = Roll::new(alloc)?;
        Ok(NotesRoom { roll })
    }
}

/// Room for the party of a new transaction, for its notes and its boxes: made beforehand, so that a party takes no memory.
/// It is seen as the number of its branches.
#[derive(Drop)]
pub struct PartyRoom {
    pub(crate) count: u8,
    pub(crate) boxes: Vec<Box<dyn Branch + Send>>,
    pub(crate) notes: NotesRoom,
}

impl Model for PartyRoom {
    ghost use Rattle.std.specs.Prelude.{ℕ, ◌≡◌, ◌≤◌, vec_len, vec_capacity};

    ghost Value = { ℕ };

    ghost view = { λ r. r.count };

    ghost invariant = { λ r. (r.count ≤ 8) × (vec_len r.boxes ≡ 0)
        × (r.count ≤ vec_capacity r.boxes) };
}

impl PartyRoom {
    /// Room for a party of so many branches.
    pub fn new(alloc: Global, count: u8) -> Result<PartyRoom, AllocError>
        requires { count ≤ 8 }
        ensures { IfOk result (λ room. room ≡ count) }
    {
        let boxes = Vec::with_capacity(alloc, count as usize)?;
        let notes = NotesRoom::new(alloc)?;
        Ok(PartyRoom {
            count,
            boxes,
            notes,
        })
    }
}
