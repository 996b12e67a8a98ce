//! What is declared of a realm, and its counts.
ghost use Rattle.std.specs.Prelude.{◌≡◌, ◌+◌, ◌==◌, None, Some, if◌then◌else◌, slice_get};
ghost use Rattle.std.specs.Option.{option_and_then};
ghost use Rattle.tip_machine.specs.Heads.{are_allowed, starting};
ghost use Rattle.tip_rows.specs.Logs.{last_epoch};

use tip_line::{Address, Realm};
use tip_rows::Branches;

/// How much a realm may have at one time.
#[derive(Clone, Copy)]
pub struct Limits {
    /// Connections, 1 to 4,096.
    pub connections: u32,
    /// Open transactions, 1 to 4,096.
    pub transactions: u32,
    /// Boxes that are handed in with one connection, 0 to 4,096.
    pub boxes: u32,
    /// Entries of the journal from one start to the next, 1 to 10,000,000.
    pub entries: u32,
}

impl Limits {
    /// Whether each limit is one that a realm may have.
    pub fn are_allowed(&self) -> bool
        ensures { result ≡ are_allowed self.now }
    {
        (1..=4_096).contains(&self.connections)
            && (1..=4_096).contains(&self.transactions)
            && self.boxes <= 4_096
            && (1..=10_000_000).contains(&self.entries)
    }
}

/// What is known of a realm when it starts.
#[derive(Drop)]
pub struct Start {
    pub name: Realm,
    /// Where other managers reach this realm.
    pub address: Address,
    pub limits: Limits,
    /// The local branches of each transaction, by number and label.
    pub branches: Branches,
    /// How often the realm was started, this start included.
    pub epoch: u32,
}

/// A realm's declaration, and what it counts.
#[derive(Drop)]
pub struct Head {
    pub name: Realm,
    pub address: Address,
    pub limits: Limits,
    pub branches: Branches,
    pub epoch: u32,
    /// The connections that it was given since its start. Each has its number by this count, from 1.
    pub given: u32,
    /// The entries of its journal since its start.
    pub entries: u32,
}

impl Head {
    /// A realm that has just started.
    pub fn new(start: Start) -> Head
        ensures { result ≡ starting start }
    {
        let Start {
            name,
            address,
            limits,
            branches,
            epoch,
        } = start;
        Head {
            name,
            address,
            limits,
            branches,
            epoch,
            given: 0,
            entries: 0,
        }
    }
}

/// The epoch in which the realm at a place would start again; None behind the last, and where no realm is there.
pub fn next_epoch(heads: &[Head], place: usize) -> Option<u32>
    ensures { result ≡ option_and_then
        (λ head. if head.epoch == last_epoch then None else Some (head.epoch + 1))
        (slice_get heads.now place) }
{
    match heads.get(place) {
        Some(head) => epoch_after(head.epoch),
        None => None,
    }
}

/// The epoch after this one, if it is not the last.
fn epoch_after(epoch: u32) -> Option<u32>
    ensures { result ≡ (if epoch == last_epoch then None else Some (epoch + 1)) }
{
    if epoch == u32::MAX {
        None
    } else {
        Some(epoch + 1)
    }
}
