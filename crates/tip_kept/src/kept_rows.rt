//! The stored rows of all realms.
ghost use Rattle.std.specs.Prelude.{◌≡◌, ◌≢◌, ◌↔◌, ◌+◌, ◌<◌, ℕ, [], true, length, IsTrue, OnErr, OnOk};
ghost use Rattle.tip_branch.specs.Always.{Always};
ghost use Rattle.tip_machine.specs.Moves.{stored};
ghost use Rattle.tip_recovery.specs.Adopting.{stored_of};
ghost use Rattle.tip_rows.specs.Logs.{is_rising};
ghost use Rattle.tip_kept.specs.Keeping.{room_at, rows_at};

use crate::realm_rows::RealmRows;
use std::alloc::{AllocError, Global};
use std::marker::Model;
use tip_machine::Change;
use tip_recovery::Unfinished;

/// The stored rows of all realms, each by its place, as the store has answered.
#[derive(Drop)]
pub struct KeptRows {
    realms: Vec<RealmRows>,
}

impl Model for KeptRows {
    ghost use Rattle.std.specs.Prelude.{List};
    ghost use Rattle.tip_kept.specs.Keeping.{RealmRows};

    ghost Value = { List RealmRows };

    ghost view = { λ k. k.realms.items };
}

impl KeptRows {
    /// Of no realm. It takes no memory.
    pub fn new(alloc: Global) -> KeptRows
        ensures { result ≡ [] }
    {
        KeptRows {
            realms: Vec::new(alloc),
        }
    }

    /// The next realm begins with these rows, which are copied. Without memory there is none.
    pub fn declare(&mut self, alloc: Global, rows: &[Unfinished]) -> Result<(), AllocError>
        requires always { Always }
        requires rising { is_rising (stored_of rows.now) ≡ true }
        ensures count { OnOk result (length self.new ≡ length self.old + 1) }
        ensures own { OnOk result (rows_at self.new (length self.old) ≡ stored_of rows.now) }
        ensures others { (place : ℕ) → place ≢ length self.old →
            rows_at self.new place ≡ rows_at self.old place }
        ensures same { OnErr result (self.new ≡ self.old) }
    {
        let own = RealmRows::of(alloc, rows)?;
        self.realms.push(own)?;
        Ok(())
    }

    /// Makes room for one row more of a realm; of one that is not there it makes none.
    pub fn reserve(&mut self, realm: usize) -> Result<(), AllocError>
        ensures room { OnOk result (realm < length self.old → 0 < room_at self.new realm) }
        ensures rows { (place : ℕ) → rows_at self.new place ≡ rows_at self.old place }
        ensures count { length self.new ≡ length self.old }
    {
        match self.realms.get_mut(realm) {
            Some(own) => own.reserve(),
            None => Ok(()),
        }
    }

    /// The store has made this change of a realm's rows. It takes room that `reserve` made.
    pub fn make(&mut self, realm: usize, change: Change)
        requires { 0 < room_at self.old realm }
        ensures own { rows_at self.new realm ≡ stored change (rows_at self.old realm) }
        ensures others { (place : ℕ) → place ≢ realm →
            rows_at self.new place ≡ rows_at self.old place }
        ensures count { length self.new ≡ length self.old }
    {
        self.realms[realm].make(change);
    }

    /// Whether these are the rows of a realm, word for word.
    pub fn are(&self, realm: usize, rows: &[Unfinished]) -> bool
        ensures { IsTrue result ↔ (rows_at self.now realm ≡ stored_of rows.now) }
    {
        match self.realms.get(realm) {
            Some(own) => own.are(rows),
            None => rows.is_empty(),
        }
    }
}
