//! How much of its limits a realm takes up, and how far its transactions have come.
ghost use Rattle.std.specs.Prelude.{◌≡◌, filter, length, map};
ghost use Rattle.std.specs.List.{list_any};
ghost use Rattle.tip_machine.specs.Connections.{is_superior_of};
ghost use Rattle.tip_machine.specs.Transactions.{is_committed, is_prepared};
ghost use Rattle.tip_machine.specs.Types.{seen};
ghost use Rattle.tip_table.specs.Kept.{of};
ghost use Rattle.tip_outlook.specs.Searches.{AimsAt};
ghost use Rattle.tip_core.specs.Usages.{is_held_at, owes};

use tip_line::{Address, Id};
use tip_machine::{Connection, Transaction, link_of};
use tip_outlook::SuperiorOf;
use tip_rows::Key;
use tip_table::{Table, Test};
use tip_txn::Phase;

/// How much of its limits a realm takes up, and how far its transactions have come.
#[derive(Clone, Copy)]
pub struct Usage {
    pub epoch: u32,
    pub connections: usize,
    /// All of its transactions, those of the next two counts among them.
    pub transactions: usize,
    /// Transactions that are prepared: the superior decides.
    pub in_doubt: usize,
    /// Transactions that are committed, and not acknowledged by all.
    pub committed: usize,
    /// The entries of its journal since its start.
    pub entries: u32,
}

/// A transaction in doubt.
struct InDoubt;

impl Test<Transaction> for InDoubt {
    ghost passes = { λ _ transaction. is_held_at is_prepared transaction };

    fn passes(&self, transaction: &Transaction) -> bool
        ensures { result ≡ is_held_at is_prepared transaction.now }
    {
        matches!(transaction.txn.phase(), Phase::Prepared)
    }

    fn aim(&self) -> Option<u128>
        ensures { AimsAt (is_held_at is_prepared) result }
    {
        None
    }
}

/// A transaction that is committed.
struct IsCommitted;

impl Test<Transaction> for IsCommitted {
    ghost passes = { λ _ transaction. is_held_at is_committed transaction };

    fn passes(&self, transaction: &Transaction) -> bool
        ensures { result ≡ is_held_at is_committed transaction.now }
    {
        matches!(transaction.txn.phase(), Phase::Committed)
    }

    fn aim(&self) -> Option<u128>
        ensures { AimsAt (is_held_at is_committed) result }
    {
        None
    }
}

/// The transaction of a key, where it owes the commit to a subordinate.
#[derive(Clone, Copy)]
struct Owing<'a> {
    key: Key,
    address: &'a Address,
    id: &'a Id,
}

impl Test<Transaction> for Owing<'_> {
    ghost passes = { λ owing transaction.
        owes owing.key owing.address.now owing.id.now (seen transaction) };

    fn passes(&self, transaction: &Transaction) -> bool
        ensures { result
            ≡ owes self.now.key self.now.address.now self.now.id.now (seen transaction.now) }
    {
        transaction.key == self.key
            && matches!(transaction.txn.phase(), Phase::Committed)
            && transaction.txn.owes(self.address, self.id)
    }

    #[tactic(auto, using(crate::proofs::Usages::owing))]
    fn aim(&self) -> Option<u128>
        ensures { AimsAt (λ transaction. owes self.now.key self.now.address.now self.now.id.now
            (seen transaction)) result }
    {
        Some(link_of(self.key))
    }
}

/// How many of a realm's transactions are in doubt.
pub(crate) fn count_in_doubt(transactions: &Table<Transaction>, realm: usize) -> usize
    ensures { result ≡ length (filter (λ transaction. is_prepared transaction.phase)
        (map seen (of transactions.now realm))) }
{
    transactions.count_passing(realm, &InDoubt)
}

/// How many of a realm's transactions are committed.
pub(crate) fn count_committed(transactions: &Table<Transaction>, realm: usize) -> usize
    ensures { result ≡ length (filter (λ transaction. is_committed transaction.phase)
        (map seen (of transactions.now realm))) }
{
    transactions.count_passing(realm, &IsCommitted)
}

/// Whether the superior of a realm's transaction is on a connection.
#[tactic(auto, using(tip_rules::proofs::Works::any_found))]
pub(crate) fn is_with_superior(connections: &Table<Connection>, realm: usize, key: Key) -> bool
    ensures { result ≡ list_any (is_superior_of key) (of connections.now realm) }
{
    connections.find(realm, &SuperiorOf { key }).is_some()
}

/// Whether a realm's transaction owes the commit to the subordinate of an address and identifier.
#[tactic(auto, using(crate::proofs::Usages::any_at, tip_rules::proofs::Works::any_found))]
pub(crate) fn is_owed(
    transactions: &Table<Transaction>,
    realm: usize,
    key: Key,
    address: &Address,
    id: &Id,
) -> bool
    ensures { result ≡ list_any (owes key address.now id.now)
        (map seen (of transactions.now realm)) }
{
    transactions
        .find(realm, &Owing { key, address, id })
        .is_some()
}
