//! The outboxes of one realm.
ghost use Rattle.std.specs.Prelude.{◌≡◌, ◌≢◌, ◌++◌, ◌∷◌, ◌<◌, ◌^◌, [], ℕ, drop, length, slice_get, IfErr, OnErr, OnOk};
ghost use Rattle.tip_outbox.specs.Waiting.{queued};

use std::alloc::Global;
use std::collections::{BTreeMap, VecDeque};
use tip_machine::Item;

/// The outboxes of a realm's connections, by their numbers.
#[derive(Drop)]
pub(crate) struct RealmOutboxes {
    /// A connection for which nothing waits has none.
    queues: BTreeMap<u32, VecDeque<Item>>,
}

impl RealmOutboxes {
    /// Nothing waits. It takes no memory.
    pub(crate) fn new(alloc: Global) -> RealmOutboxes
        ensures { (number : ℕ) → queued result number ≡ [] }
    {
        RealmOutboxes {
            queues: BTreeMap::new(alloc),
        }
    }

    /// Something waits for a connection behind what waits there. Without memory it is handed back.
    pub(crate) fn push(&mut self, alloc: Global, number: u32, item: Item) -> Result<(), Item>
        ensures own { OnOk result (queued self.new number ≡ queued self.old number ++ item ∷ []) }
        ensures others { (other : ℕ) → other ≢ number →
            queued self.new other ≡ queued self.old other }
        ensures same { OnErr result (queued self.new number ≡ queued self.old number) }
        ensures back { IfErr result (λ back. back ≡ item) }
    {
        if let Some(queue) = self.queues.get_mut(&number) {
            return match queue.push_back(item) {
                Ok(()) => Ok(()),
                Err(refused) => Err(refused.value),
            };
        }
        let Ok(mut queue) = VecDeque::with_capacity(alloc, 1) else {
            return Err(item);
        };
        queue.push_back_reserved(item);
        match self.queues.insert(number, queue) {
            Ok(_) => Ok(()),
            Err(refused) => Err(only(refused.value.1)),
        }
    }

    /// The oldest that waits for a connection is taken out.
    pub(crate) fn take(&mut self, number: u32) -> Option<Item>
        ensures taken { result ≡ slice_get (queued self.old number) 0 }
        ensures left { queued self.new number ≡ drop 1 (queued self.old number) }
        ensures others { (other : ℕ) → other ≢ number →
            queued self.new other ≡ queued self.old other }
    {
        let queue = self.queues.get_mut(&number)?;
        let item = queue.pop_front();
        if queue.is_empty() {
            self.queues.remove(&number);
        }
        item
    }

    /// How many wait for a connection.
    pub(crate) fn count(&self, number: u32) -> usize
        ensures count { result ≡ length (queued self.now number) }
        ensures small { result < 2 ^ 63 }
    {
        match self.queues.get(&number) {
            Some(queue) => queue.len(),
            None => 0,
        }
    }
}

/// What a queue has that has one alone.
fn only(mut queue: VecDeque<Item>) -> Item
    requires { length queue.items ≡ 1 }
    ensures { queue.items ≡ result ∷ [] }
{
    match queue.pop_front() {
        Some(item) => item,
        None => unreachable!(),
    }
}
