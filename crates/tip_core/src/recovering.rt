//! Realms that take up their stored rows when they start (ours, for RFC 2371, sections 10 and 15).
ghost use Rattle.std.specs.Prelude.{◌≡◌, ◌≢◌, ℕ, ◌+◌, ◌<◌, ◌≤◌, ◌++◌, true, length, map};
ghost use Rattle.tip_table.specs.Kept.{of};
ghost use Rattle.tip_machine.specs.Types.{seen};
ghost use Rattle.tip_machine.specs.declared.head.Head.{Head};
ghost use Rattle.tip_recovery.specs.Adopting.{AreOf, are_adopted};
ghost use Rattle.tip_core.specs.Recovering.{reopened_all};
ghost use Rattle.tip_rules.specs.Works.{state_in, tables_in};

use tip_machine::Transaction;
use tip_recovery::Unfinished;
use tip_rules::Realms;
use tip_table::Table;

/// Each row's transaction joins its realm, which starts in this epoch.
pub(crate) fn reopen_in(realms: &mut Realms, realm: usize, epoch: u32, rows: Vec<Unfinished>)
    requires tables { realm < length realms.old.tables.items }
    requires room { length rows.items ≤ (tables_in realm realms.old).transactions.free }
    requires adopted { are_adopted rows.items ≡ true }
    ensures own { (head : Head) → AreOf head.name rows.items → head.epoch ≡ epoch →
        (state_in realm realms.new).transactions
        ≡ (state_in realm realms.old).transactions ++ reopened_all head rows.items }
    ensures connections { (state_in realm realms.new).connections
        ≡ (state_in realm realms.old).connections }
    ensures heads { realms.new.heads ≡ realms.old.heads }
    ensures others { (other : ℕ) → other ≢ realm →
        tables_in other realms.new ≡ tables_in other realms.old }
    ensures count { length realms.new.tables.items ≡ length realms.old.tables.items }
    ensures room { (tables_in realm realms.new).transactions.free + length rows.items
        ≡ (tables_in realm realms.old).transactions.free }
{
    reopen_all(&mut realms.tables[realm].transactions, realm, epoch, rows);
}

/// Each row's transaction joins a realm's, which starts in this epoch.
fn reopen_all(
    transactions: &mut Table<Transaction>,
    realm: usize,
    epoch: u32,
    rows: Vec<Unfinished>,
)
    requires room { length rows.items ≤ transactions.old.free }
    requires adopted { are_adopted rows.items ≡ true }
    ensures own { (head : Head) → AreOf head.name rows.items → head.epoch ≡ epoch →
        map seen (of transactions.new realm)
        ≡ map seen (of transactions.old realm) ++ reopened_all head rows.items }
    ensures others { (other : ℕ) → other ≢ realm →
        of transactions.new other ≡ of transactions.old other }
    ensures room { transactions.new.free + length rows.items ≡ transactions.old.free }
{
    for row in rows {
        transactions.add(realm, row.reopen(epoch));
    }
}
