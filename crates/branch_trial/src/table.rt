//! A table of transactions, and boxes that none has taken, behind a lock.

ghost use Rattle.std.specs.Prelude.{◌≡◌, ◌<◌, ◌≤◌, length, vec_len};
ghost use Rattle.std.specs.List.{All};
ghost use Rattle.branch_trial.specs.Places.{IsOfEpoch};

use crate::place::Transaction;
use std::sync::{Mutex, Wait};
use tip_branch::HeldFresh;

/// Transactions of one epoch, and boxes for at most eight members more.
#[derive(Drop)]
pub struct Table {
    pub epoch: u32,
    pub transaction: Transaction,
    pub fresh: HeldFresh,
    ghost of_epoch: { IsOfEpoch epoch transaction.place },
    ghost few: { length fresh ≤ 8 },
}

/// How many boxes the table behind the lock has.
pub fn number_behind(rt: &impl Wait, table: &Mutex<Table>) -> usize
    ensures { result ≤ 8 }
{
    table.lock(rt).fresh.len()
}
