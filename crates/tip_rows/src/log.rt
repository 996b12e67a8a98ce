//! What keeps rows: a finite map from realm and key to rows, and from realm to epoch.
ghost use Rattle.std.specs.Prelude.{◌≡◌, ◌≢◌, ◌↔◌, ℕ, List, Bool, IsTrue, IfOk, OnOk, IsErrOf, IsErr, is_err};
ghost use Rattle.tip_rows.specs.Logs.{Keeping, Log, with_row, without_row, with_known, with_all_raised, with_raised, IsAtEnd, IsSpoiled, IsPart, AreNames, HasBadName, counted, is_refused_load, is_refused_raise, Stands, LeavesOne, LeavesSame, IsSettled, IsSpent};

use crate::key::Key;
use crate::medium::Medium;
use crate::row::Row;
use std::alloc::{Allocator, Global};
use thiserror::Error;
use tip_line::Realm;

/// The store refused, and its rows and epochs are as they were.
#[derive(Clone, Copy, Debug, PartialEq, Eq, Error)]
#[error("the store refused")]
pub struct Refused;

/// Why epochs did not rise. They are as they were.
#[derive(Clone, Copy, Debug, PartialEq, Eq, Error)]
pub enum RaiseFault {
    #[error("the store refused")]
    Refused,
    #[error("an epoch is at its end")]
    EpochEnd,
}

/// Why what is stored was not read.
#[derive(Clone, Copy, Debug, PartialEq, Eq, Error)]
pub enum LoadFault {
    #[error("the store refused")]
    Refused,
    #[error("what is stored is no row")]
    BadRow,
    #[error("out of memory")]
    Memory,
}

/// What is stored of one realm.
#[derive(Drop)]
pub struct Loaded<A: Allocator = Global> {
    /// 0 for a realm that is not known.
    pub epoch: u32,
    /// By strictly rising key.
    pub rows: Vec<(Key, Row), A>,
}

/// A log of rows. A call that is refused, for want of memory in a change too, leaves all rows and epochs.
/// After one that is not, the log is settled: it stands for one log, and a stop leaves that one.
pub trait RowLog {
    type Medium: Medium;

    /// What it keeps its rows in.
    ghost medium: { Self → Self.Medium };

    /// What it shows of the rows that it keeps.
    ghost keeping: { Keeping Self };

    /// Makes a realm known, with epoch 0 where it was not.
    fn know(&mut self, realm: &Realm) -> Result<(), Refused>
        ensures stands { Stands keeping (with_known realm.now) self.old self.new result }
        ensures counts { keeping.faults self.new
            ≡ counted (is_err result) (keeping.faults self.old) }
        ensures truth { keeping.is_true self.new → keeping.is_true self.old }
        ensures stop { LeavesOne keeping (with_known realm.now) self.old self.new }
        ensures settled { keeping.is_true self.new → OnOk result (IsSettled keeping self.new) }
        ensures due { (log : Log) → keeping.stands self.old log → (r : List ℕ) →
            keeping.is_due self.new r ≡ keeping.is_due self.old r };

    /// Raises the epoch of every known realm by one, in one change.
    fn raise_epochs(&mut self) -> Result<(), RaiseFault>
        ensures stands { Stands keeping with_all_raised self.old self.new result }
        ensures end { (log : Log) → keeping.stands self.old log → keeping.is_true self.new →
            result ≡ Err RaiseFault.EpochEnd → (realm : List ℕ) × IsAtEnd log realm }
        ensures no_end { (log : Log) → keeping.stands self.old log → keeping.is_true self.new →
            OnOk result ((realm : List ℕ) → ¬ IsAtEnd log realm) }
        ensures counts { keeping.faults self.new
            ≡ counted (is_refused_raise result) (keeping.faults self.old) }
        ensures truth { keeping.is_true self.new → keeping.is_true self.old }
        ensures stop { LeavesOne keeping with_all_raised self.old self.new }
        ensures settled { keeping.is_true self.new → OnOk result (IsSettled keeping self.new) }
        ensures due { (r : List ℕ) → keeping.is_due self.new r ≡ keeping.is_due self.old r };

    /// Raises the epoch of one realm by one; nothing changes where it is not known.
    fn raise_epoch(&mut self, realm: &Realm) -> Result<(), RaiseFault>
        ensures stands { Stands keeping (with_raised realm.now) self.old self.new result }
        ensures end { (log : Log) → keeping.stands self.old log → keeping.is_true self.new →
            result ≡ Err RaiseFault.EpochEnd → IsAtEnd log realm.now }
        ensures no_end { (log : Log) → keeping.stands self.old log → keeping.is_true self.new →
            OnOk result (¬ IsAtEnd log realm.now) }
        ensures counts { keeping.faults self.new
            ≡ counted (is_refused_raise result) (keeping.faults self.old) }
        ensures truth { keeping.is_true self.new → keeping.is_true self.old }
        ensures stop { LeavesOne keeping (with_raised realm.now) self.old
            self.new }
        ensures settled { keeping.is_true self.new → OnOk result (IsSettled keeping self.new) }
        ensures due { IsTrue (keeping.is_due self.old realm.now) → result ≡ Err RaiseFault.Refused }
        ensures spent { IsSpent (keeping.is_due self.old) (keeping.is_due self.new) realm.now };

    /// Adds or replaces a row.
    fn put(&mut self, realm: &Realm, key: Key, row: &Row) -> Result<(), Refused>
        ensures stands { Stands keeping (with_row realm.now key row.now) self.old self.new result }
        ensures counts { keeping.faults self.new
            ≡ counted (is_err result) (keeping.faults self.old) }
        ensures truth { keeping.is_true self.new → keeping.is_true self.old }
        ensures stop { LeavesOne keeping (with_row realm.now key row.now) self.old
            self.new }
        ensures settled { keeping.is_true self.new → OnOk result (IsSettled keeping self.new) }
        ensures due { IsTrue (keeping.is_due self.old realm.now) → IsErr result }
        ensures spent { IsSpent (keeping.is_due self.old) (keeping.is_due self.new) realm.now };

    /// Removes a row, if it is there.
    fn remove(&mut self, realm: &Realm, key: Key) -> Result<(), Refused>
        ensures stands { Stands keeping (without_row realm.now key) self.old self.new result }
        ensures counts { keeping.faults self.new
            ≡ counted (is_err result) (keeping.faults self.old) }
        ensures truth { keeping.is_true self.new → keeping.is_true self.old }
        ensures stop { LeavesOne keeping (without_row realm.now key) self.old
            self.new }
        ensures settled { keeping.is_true self.new → OnOk result (IsSettled keeping self.new) }
        ensures due { IsTrue (keeping.is_due self.old realm.now) → IsErr result }
        ensures spent { IsSpent (keeping.is_due self.old) (keeping.is_due self.new) realm.now };

    /// The epoch and the rows of a realm.
    fn load(&mut self, realm: &Realm) -> Result<Loaded, LoadFault>
        ensures part { (log : Log) → keeping.stands self.old log → keeping.is_true self.new →
            IfOk result (λ loaded. IsPart log realm.now loaded.epoch loaded.rows.items) }
        ensures bad_row { (log : Log) → keeping.stands self.old log → keeping.is_true self.new →
            result ≡ Err LoadFault.BadRow → IsSpoiled log realm.now }
        ensures stands { (log : Log) → keeping.stands self.old log → keeping.stands self.new log }
        ensures counts { keeping.faults self.new
            ≡ counted (is_refused_load result) (keeping.faults self.old) }
        ensures truth { keeping.is_true self.new → keeping.is_true self.old }
        ensures stop { LeavesSame keeping self.old self.new }
        ensures settled { keeping.is_true self.new → OnOk result (IsSettled keeping self.new) }
        ensures due { (r : List ℕ) → keeping.is_due self.new r ≡ keeping.is_due self.old r };

    /// The names of the known realms, rising.
    fn realms(&mut self) -> Result<Vec<Realm>, LoadFault>
        ensures names { (log : Log) → keeping.stands self.old log → keeping.is_true self.new →
            IfOk result (λ names. AreNames log names.items) }
        ensures bad_row { (log : Log) → keeping.stands self.old log → keeping.is_true self.new →
            result ≡ Err LoadFault.BadRow → HasBadName log }
        ensures stands { (log : Log) → keeping.stands self.old log → keeping.stands self.new log }
        ensures counts { keeping.faults self.new
            ≡ counted (is_refused_load result) (keeping.faults self.old) }
        ensures truth { keeping.is_true self.new → keeping.is_true self.old }
        ensures stop { LeavesSame keeping self.old self.new }
        ensures settled { keeping.is_true self.new → OnOk result (IsSettled keeping self.new) }
        ensures due { (r : List ℕ) → keeping.is_due self.new r ≡ keeping.is_due self.old r };

    /// How many calls it refused.
    fn faults(&self) -> u64
        ensures { result ≡ keeping.faults self.now };

    ghost true_while_faithful: { (log : Self) → Self.Medium.is_faithful (medium log) →
        keeping.is_true log };

    /// A stop leaves something.
    ghost leaves_some: { (log : Self) → keeping.is_true log →
        ∥ ((left : Log) × keeping.may_leave log left) ∥₁ };
}
