//! Room for one event.
ghost use Rattle.std.specs.Prelude.{◌≡◌, None, IfOk, ◌≤◌};
ghost use Rattle.std.specs.Option.{option_copied};
ghost use Rattle.tip_branch.specs.Always.{Always};

use crate::making::{Making, Words};
use crate::transaction_room::HeldRoom;
use std::alloc::{AllocError, Global};
use std::marker::Model;
use tip_machine::{Change, Sent};
use tip_outlook::{Ending, Next};

/// All the memory that one event needs, the change of its row that it wants, and how its transaction goes on by what becomes of
/// that. It belongs to the state and the event that it was made for.
#[derive(Drop)]
pub struct Room {
    /// Where the lines and closings of the answer will stand.
    sent: Vec<Sent>,
    transaction: Option<HeldRoom>,
    words: Words,
    next: Next,
}

impl Model for Room {
    ghost use Rattle.std.specs.Prelude.{◌≡◌, ◌-◌, [], vec_len, vec_capacity};
    ghost use Rattle.tip_rules.specs.Needs.{Granted};

    ghost Value = { Granted };

    ghost view = { λ r. record {
      lines = vec_capacity r.sent - vec_len r.sent;
      transaction = r.transaction;
      peer = r.words.peer;
      ours = r.words.ours;
      word = r.words.word;
      change = r.next.change;
      endings = r.next.endings;
    } };

    ghost invariant = { λ r. r.sent.items ≡ [] };
}

impl Room {
    ghost use Rattle.tip_machine.specs.Answers.{silence};

    /// Room for so many lines and closings, for a transaction if it is given, for an event of which this follows, with these
    /// copies of words.
    pub fn new(
        alloc: Global,
        lines: usize,
        transaction: Option<HeldRoom>,
        words: Words,
        next: Next,
    ) -> Result<Room, AllocError>
        ensures lines { IfOk result (λ room. lines ≤ room.lines) }
        ensures transaction { IfOk result (λ room. room.transaction ≡ transaction) }
        ensures peer { IfOk result (λ room. room.peer ≡ words.peer) }
        ensures ours { IfOk result (λ room. room.ours ≡ words.ours) }
        ensures word { IfOk result (λ room. room.word ≡ words.word) }
        ensures change { IfOk result (λ room. room.change ≡ next.change) }
        ensures endings { IfOk result (λ room. room.endings ≡ next.endings) }
    {
        Ok(Room {
            sent: Vec::with_capacity(alloc, lines)?,
            transaction,
            words,
            next,
        })
    }

    /// Room for nothing.
    pub fn nothing(alloc: Global) -> Result<Room, AllocError>
        requires { Always }
        ensures { IfOk result (λ room. room.change ≡ None) }
    {
        let words = Words {
            peer: None,
            ours: None,
            word: None,
        };
        Room::new(alloc, 0, None, words, Next::done(Ending::Nothing))
    }

    /// The change of its row that the event wants. Its outcome is handed to `Core::apply`.
    pub fn wants(&self) -> Option<&Change>
        ensures { option_copied result ≡ self.now.change }
    {
        self.next.change.as_ref()
    }

    /// The answer to be made, with its room, and what follows.
    pub fn into_parts(self) -> (Making, Next)
        requires { Always }
        ensures answer { result.0.answer ≡ silence }
        ensures lines { result.0.free ≡ self.lines }
        ensures transaction { result.0.room ≡ self.transaction }
        ensures peer { result.0.peer ≡ self.peer }
        ensures ours { result.0.ours ≡ self.ours }
        ensures word { result.0.word ≡ self.word }
        ensures change { result.1.change ≡ self.change }
        ensures endings { result.1.endings ≡ self.endings }
    {
        let Room {
            sent,
            transaction,
            words,
            next,
        } = self;
        (Making::new(sent, transaction, words), next)
    }
}
