//! The outboxes of all realms.
ghost use Rattle.std.specs.Prelude.{◌≡◌, ◌≢◌, ◌++◌, ◌∷◌, ◌<◌, ◌^◌, ℕ, [], Some, drop, filter, length, position, slice_get, IfErr, OnErr, OnOk};
ghost use Rattle.tip_machine.specs.Steps.{is_for};
ghost use Rattle.tip_outbox.specs.Waiting.{IsSettled, boxed, sent_to, waiting};

use crate::realm_outboxes::RealmOutboxes;
use std::alloc::{AllocError, Global};
use std::collections::{BTreeMap, VecDeque};
use tip_machine::{Item, Sent, SentLines};

/// What waits to go out on the connections of all realms, an outbox for each connection: to put into one, and to take out of it,
/// looks at no other. A realm is known by its place in the order of declaration.
///
/// What an event sends is kept as it is, which takes no memory, and sorted into the outboxes before the next event, by `settle`.
#[derive(Drop)]
pub struct Outboxes {
    alloc: Global,
    realms: BTreeMap<usize, RealmOutboxes>,
    /// The realm of the last event that was sent from.
    realm: usize,
    /// What it sent, and is not sorted yet.
    last: VecDeque<Sent>,
}

impl Outboxes {
    /// Nothing waits. It takes no memory.
    pub fn new(alloc: Global) -> Outboxes
        ensures nothing { (realm number : ℕ) → waiting result realm number ≡ [] }
        ensures settled { IsSettled result }
    {
        Outboxes {
            alloc,
            realms: BTreeMap::new(alloc),
            realm: 0,
            last: VecDeque::new(alloc),
        }
    }

    /// What the last event sent is sorted into the outboxes, so that another may send. All that waits is as it was; without memory
    /// some of it is left to be sorted.
    pub fn settle(&mut self) -> Result<(), AllocError>
        ensures same { (realm number : ℕ) →
            waiting self.new realm number ≡ waiting self.old realm number }
        ensures settled { OnOk result (IsSettled self.new) }
    {
        while let Some(sent) = self.last.pop_front() {
            if let Err(sent) = put(self.alloc, &mut self.realms, self.realm, sent) {
                self.last.push_front_reserved(sent);
                return Err(AllocError);
            }
        }
        Ok(())
    }

    /// What an event of a realm sends waits behind what waits there. It takes no memory.
    pub fn send(&mut self, realm: usize, lines: SentLines)
        requires settled { IsSettled self.old }
        ensures own { (number : ℕ) → waiting self.new realm number
            ≡ waiting self.old realm number ++ sent_to number lines }
        ensures others { (other number : ℕ) → other ≢ realm →
            waiting self.new other number ≡ waiting self.old other number }
    {
        self.realm = realm;
        self.last = VecDeque::from_vec(lines.into_vec());
    }

    /// The oldest that waits for a connection of a realm is taken out.
    pub fn take(&mut self, realm: usize, number: u32) -> Option<Item>
        ensures taken { result ≡ slice_get (waiting self.old realm number) 0 }
        ensures left { waiting self.new realm number ≡ drop 1 (waiting self.old realm number) }
        ensures others { (place other : ℕ) → (place ≡ realm → other ≢ number) →
            waiting self.new place other ≡ waiting self.old place other }
    {
        if let Some(own) = self.realms.get_mut(&realm) {
            if let Some(item) = own.take(number) {
                return Some(item);
            }
        }
        if self.realm != realm {
            return None;
        }
        take_from(&mut self.last, number)
    }

    /// How many wait for a connection of a realm.
    pub fn count(&self, realm: usize, number: u32) -> usize
        ensures { result ≡ length (waiting self.now realm number) }
    {
        let boxed = match self.realms.get(&realm) {
            Some(own) => own.count(number),
            None => 0,
        };
        if self.realm != realm {
            return boxed;
        }
        boxed + count_in(&self.last, number)
    }

    /// What waits in a realm is gone. It takes no memory.
    pub fn clear(&mut self, realm: usize)
        ensures own { (number : ℕ) → waiting self.new realm number ≡ [] }
        ensures others { (other number : ℕ) → other ≢ realm →
            waiting self.new other number ≡ waiting self.old other number }
    {
        self.realms.remove(&realm);
        if self.realm == realm {
            self.last.clear();
        }
    }
}

/// What is sent goes into the outbox of its connection in a realm. Without memory it is handed back.
fn put(
    alloc: Global,
    realms: &mut BTreeMap<usize, RealmOutboxes>,
    realm: usize,
    sent: Sent,
) -> Result<(), Sent>
    ensures own { OnOk result (boxed realms.new realm sent.connection
        ≡ boxed realms.old realm sent.connection ++ sent.item ∷ []) }
    ensures others { (place other : ℕ) → (place ≡ realm → other ≢ sent.connection) →
        boxed realms.new place other ≡ boxed realms.old place other }
    ensures same { OnErr result (boxed realms.new realm sent.connection
        ≡ boxed realms.old realm sent.connection) }
    ensures back { IfErr result (λ back. back ≡ sent) }
{
    if open(alloc, realms, realm).is_err() {
        return Err(sent);
    }
    let Some(own) = realms.get_mut(&realm) else {
        return Err(sent);
    };
    let Sent { connection, item } = sent;
    match own.push(alloc, connection, item) {
        Ok(()) => Ok(()),
        Err(item) => Err(Sent { connection, item }),
    }
}

/// A realm has outboxes from now on. All that waits is as it was.
fn open(
    alloc: Global,
    realms: &mut BTreeMap<usize, RealmOutboxes>,
    realm: usize,
) -> Result<(), AllocError>
    ensures { (place number : ℕ) →
        boxed realms.new place number ≡ boxed realms.old place number }
{
    if !realms.contains_key(&realm) {
        realms.insert(realm, RealmOutboxes::new(alloc))?;
    }
    Ok(())
}

/// The first that goes to a connection is taken out.
fn take_from(sent: &mut VecDeque<Sent>, number: u32) -> Option<Item>
    ensures taken { result ≡ slice_get (sent_to number sent.old.items) 0 }
    ensures left { sent_to number sent.new.items ≡ drop 1 (sent_to number sent.old.items) }
    ensures others { (other : ℕ) → other ≢ number →
        sent_to other sent.new.items ≡ sent_to other sent.old.items }
{
    match place_of(sent, number) {
        Some(place) => Some(take_at(sent, number, place)),
        None => None,
    }
}

/// What goes to a connection first and stands at this place is taken out.
fn take_at(sent: &mut VecDeque<Sent>, number: u32, place: usize) -> Item
    requires { position (is_for number) sent.old.items ≡ Some place }
    ensures taken { Some result ≡ slice_get (sent_to number sent.old.items) 0 }
    ensures left { sent_to number sent.new.items ≡ drop 1 (sent_to number sent.old.items) }
    ensures others { (other : ℕ) → other ≢ number →
        sent_to other sent.new.items ≡ sent_to other sent.old.items }
{
    match sent.remove(place) {
        Some(one) => one.item,
        None => unreachable!(),
    }
}

/// Where the first stands that goes to a connection.
fn place_of(sent: &VecDeque<Sent>, number: u32) -> Option<usize>
    ensures { result ≡ position (is_for number) sent.now.items }
{
    sent.iter().position(|one| one.connection == number)
}

/// How many go to a connection.
fn count_in(sent: &VecDeque<Sent>, number: u32) -> usize
    ensures count { result ≡ length (filter (is_for number) sent.now.items) }
    ensures small { result < 2 ^ 63 }
{
    sent.iter().filter(|one| one.connection == number).count()
}
