//! One table for the items of many realms.
ghost use Rattle.std.specs.Prelude.{◌≡◌, ◌≢◌, ◌↔◌, ◌==◌, ℕ, Bool, ◌+◌, ◌-◌, ◌<◌, ◌≤◌, [], ◌∷◌, ◌++◌, Some, None, true, filter, length, map, vec_len, vec_capacity, IsSome, IsOk, IfOk, IfSome, OnOk};
ghost use Rattle.std.specs.List.{find};
ghost use Rattle.tip_table.specs.Entries.{AreApart, AreThere, Item, items_in, placed_at};
ghost use Rattle.tip_table.specs.Kept.{StandsAt, capacity, of, places, item_at, taken_out};
ghost use Rattle.tip_table.specs.Lists.{are_rising};
ghost use Rattle.tip_table.specs.Visits.{MayVisit, notes_of};

use crate::items::Items;
use crate::link::Linked;
use crate::links::{Unlisted, aimed, count, leave, lent, reserve, settle, visit};
use crate::order::{count_passing, first_passing, index_of, key_ranked, own, through};
use crate::rank::Rank;
use crate::test::Test;
use crate::visit::Visit;
use slab::Slab;
use std::alloc::{AllocError, Allocator, Global};
use std::marker::Model;

/// An item and its realm.
#[derive(Drop)]
pub(crate) struct Entry<T> {
    pub(crate) realm: usize,
    /// How many items were made before it.
    pub(crate) made: u64,
    /// The link under which it is listed.
    pub(crate) listed: Option<u128>,
    pub(crate) item: T,
}

/// Items, each of a realm. A place is a name of one item that holds until that item is removed; then it is used again.
#[derive(Drop)]
pub struct Table<T: Linked, A: Allocator = Global> {
    slots: Slab<Entry<T>, A>,
    /// The keys of the slots: by realm, and in a realm in the order made.
    order: Vec<usize, A>,
    /// The keys of those whose items are listed by their links: by realm, by link, and in the order made.
    links: Vec<usize, A>,
    unlisted: Unlisted,
    /// How many items were made.
    made: u64,
}

impl<T: Linked, A: Allocator> Model for Table<T, A> {
    ghost use Rattle.std.specs.Prelude.{◌-◌, ◌≤◌, length, min, vec_len, vec_capacity};
    ghost use Rattle.slab.specs.Slab.{slab_len};
    ghost use Rattle.tip_table.specs.Entries.{IsOrder, placed_at};
    ghost use Rattle.tip_table.specs.Kept.{Kept};
    ghost use Rattle.tip_table.specs.Links.{AreCounted, IsKnown};

    ghost Value = { Kept T };

    ghost view = { λ t. record {
      entries = placed_at t.slots t.order.items;
      free = min (t.slots.capacity - slab_len t.slots)
          (min (vec_capacity t.order - vec_len t.order)
          (vec_capacity t.links - length t.order.items));
    } };

    ghost invariant = { λ t. IsOrder t.slots t.order.items
        × IsKnown T.Linked t.slots t.order.items t.links.items t.unlisted
        × AreCounted t.slots t.order.items t.made t.unlisted
        × (length t.order.items ≤ vec_capacity t.links) };
}

impl<T: Linked + Drop, A: Allocator + Copy> Table<T, A> {
    /// A table without items. It takes no memory.
    #[tactic(auto, unfolding(crate::specs::Kept::of))]
    pub fn new(alloc: A) -> Self
        ensures { (realm : ℕ) → of result realm ≡ [] }
    {
        Table {
            slots: Slab::new(alloc),
            order: Vec::new(alloc),
            links: Vec::new(alloc),
            unlisted: Unlisted::Nothing,
            made: 0,
        }
    }

    /// A table without items that has room for as many as this one, and so many more.
    #[tactic(auto, unfolding(crate::specs::Kept::of))]
    pub fn with_room(&self, alloc: A, more: usize) -> Result<Self, AllocError>
        ensures items { (realm : ℕ) → IfOk result (λ table. of table realm ≡ []) }
        ensures room { IfOk result
            (λ table. capacity self.now + more ≤ table.free + self.now.free) }
    {
        let count = self.order.len().checked_add(more).ok_or(AllocError)?;
        Ok(Table {
            slots: Slab::with_capacity(alloc, count)?,
            order: Vec::with_capacity(alloc, count)?,
            links: Vec::with_capacity(alloc, count)?,
            unlisted: Unlisted::Nothing,
            made: 0,
        })
    }
}

impl<T: Linked + Drop, A: Allocator> Table<T, A> {
    ghost use Rattle.std.specs.Borrow.{sem};
    ghost use Rattle.tip_table.specs.Lending.{LendsItem};

    /// How many items a realm has.
    pub fn count(&self, realm: usize) -> usize
        ensures { result ≡ length (of self.now realm) }
    {
        own(&self.slots, &self.order, realm).len()
    }

    /// Makes room for one item more.
    pub fn reserve(&mut self) -> Result<(), AllocError>
        ensures ok { OnOk result (0 < self.new.free) }
        ensures room_is_kept { self.old.free ≤ self.new.free }
        ensures has_room { 0 < self.old.free → IsOk result }
        ensures items { (realm : ℕ) → of self.new realm ≡ of self.old realm }
        ensures places { (place : ℕ) → places self.new place ≡ places self.old place }
    {
        self.reserve_for(1)
    }

    /// Makes room for so many items more.
    #[tactic(auto, unfolding(crate::specs::Kept::of, crate::specs::Kept::places))]
    pub fn reserve_for(&mut self, count: usize) -> Result<(), AllocError>
        ensures ok { OnOk result (count ≤ self.new.free) }
        ensures room_is_kept { self.old.free ≤ self.new.free }
        ensures has_room { 0 < count → count ≤ self.old.free → IsOk result }
        ensures items { (realm : ℕ) → of self.new realm ≡ of self.old realm }
        ensures places { (place : ℕ) → places self.new place ≡ places self.old place }
    {
        self.slots.reserve(count)?;
        self.order.reserve(count)?;
        reserve(&mut self.links, self.order.len(), count)
    }

    /// Makes an item the last of its realm. It takes room that `reserve` made.
    pub fn add(&mut self, realm: usize, item: T)
        requires { 0 < self.old.free }
        ensures added { of self.new realm ≡ of self.old realm ++ item ∷ [] }
        ensures others { (other : ℕ) → other ≢ realm → of self.new other ≡ of self.old other }
        ensures places { (place : ℕ) (there : Item) → places self.old place ≡ Some there →
            places self.new place ≡ Some there }
        ensures free { self.new.free + 1 ≡ self.old.free }
        ensures room { capacity self.new ≡ capacity self.old }
    {
        self.unlisted = settle(&mut self.slots, &mut self.links, self.unlisted);
        let end = through(&self.slots, &self.order, realm);
        let key = self.slots.insert_reserved(Entry {
            realm,
            made: self.made,
            listed: None,
            item,
        });
        self.order.insert(end, key).unwrap();
        (self.made, self.unlisted) = count(self.made, lent(self.unlisted, key));
    }

    /// The place of a realm's first item that passes.
    pub fn find<Q: Test<T>>(&self, realm: usize, query: &Q) -> Option<usize>
        ensures none { (result ≡ None) ↔ (find (Q.passes query.now) (of self.now realm) ≡ None) }
        ensures some { IfSome result (λ place. StandsAt self.now realm (Q.passes query.now) place) }
    {
        let some = aimed(
            &self.slots,
            &self.order,
            &self.links,
            self.unlisted,
            realm,
            query.aim(),
        );
        let at = first_passing(&self.slots, some, query)?;
        Some(some[at])
    }

    /// The place of a realm's item of this rank, by halves: the ranks of its items rise.
    pub fn find_ranked<R: Rank<T>>(&self, realm: usize, ranks: &R, rank: u64) -> Option<usize>
        requires { are_rising (map (R.rank ranks.now) (of self.now realm)) ≡ true }
        ensures none { (result ≡ None) ↔
            (find (λ item. R.rank ranks.now item == rank) (of self.now realm) ≡ None) }
        ensures some { IfSome result
            (λ place. StandsAt self.now realm (λ item. R.rank ranks.now item == rank) place) }
    {
        key_ranked(&self.slots, &self.order, realm, ranks, rank)
    }

    /// The items of a realm, in the order made.
    pub fn items(&self, realm: usize) -> Items<'_, T, A>
        ensures { result ≡ of self.now realm }
    {
        Items::new(&self.slots, own(&self.slots, &self.order, realm))
    }

    /// How many of a realm's items pass.
    pub fn count_passing<Q: Test<T>>(&self, realm: usize, query: &Q) -> usize
        ensures { result ≡ length (filter (Q.passes query.now) (of self.now realm)) }
    {
        let some = aimed(
            &self.slots,
            &self.order,
            &self.links,
            self.unlisted,
            realm,
            query.aim(),
        );
        count_passing(&self.slots, some, query)
    }

    /// The item at a place.
    pub fn item(&self, place: usize) -> &T
        requires { IsSome (places self.now place) }
        ensures { item_at self.now place ≡ Some result.now }
    {
        &self.slots[place].item
    }

    /// The item at a place, to be written.
    pub fn item_mut(&mut self, place: usize) -> &mut T
        requires { IsSome (places self.old place) }
        ensures* writes_back { sem 𝓛 (LendsItem T.row A.row T.Linked A.Allocator
            self.entry place result) }
        ensures value { item_at self.old place ≡ Some result.now }
    {
        let unlisted = settle(&mut self.slots, &mut self.links, self.unlisted);
        self.unlisted = lent(unlisted, place);
        let entry = &mut self.slots[place];
        &mut entry.item
    }

    /// Each item of a realm is visited, in the order made.
    pub fn visit<N, V: Visit<T, N>>(&mut self, realm: usize, visitor: &V, notes: &mut N)
        requires { MayVisit (V.may visitor.now) (V.noted visitor.now) notes.old
            (of self.old realm) }
        ensures items { of self.new realm ≡ map (V.left visitor.now) (of self.old realm) }
        ensures notes { notes.new ≡ notes_of (V.noted visitor.now) notes.old (of self.old realm) }
        ensures others { (other : ℕ) → other ≢ realm → of self.new other ≡ of self.old other }
        ensures places { (place : ℕ) → places self.new place ≡ places self.old place }
        ensures free { self.new.free ≡ self.old.free }
        ensures room { capacity self.new ≡ capacity self.old }
    {
        visit(
            &mut self.slots,
            &self.order,
            &self.links,
            self.unlisted,
            realm,
            visitor,
            notes,
        );
    }

    /// The items of a realm, or where a link is given those alone that may have it, in the order made.
    pub fn linked(&self, realm: usize, aim: Option<u128>) -> Items<'_, T, A>
        ensures all { (test : T → Bool) → IfSome aim (λ link.
            (item : T) → T.fits item → test item ≡ true → T.link item ≡ Some link) →
            filter test result ≡ filter test (of self.now realm) }
        ensures fewer { length result ≤ length (of self.now realm) }
    {
        let some = aimed(
            &self.slots,
            &self.order,
            &self.links,
            self.unlisted,
            realm,
            aim,
        );
        Items::new(&self.slots, some)
    }

    /// What was written last is found by the link that it has by now. To be called once all is written: until then more is looked at.
    pub fn relink(&mut self)
        ensures { self.new ≡ self.old }
    {
        self.unlisted = settle(&mut self.slots, &mut self.links, self.unlisted);
    }

    /// Takes the item at a place out. All other items keep their places.
    pub fn remove(&mut self, place: usize) -> T
        requires { IsSome (places self.old place) }
        ensures taken { item_at self.old place ≡ Some result }
        ensures left { (realm : ℕ) →
            of self.new realm ≡ taken_out (places self.old place) realm (of self.old realm) }
        ensures free { self.new.free ≡ self.old.free + 1 }
        ensures room { capacity self.new ≡ capacity self.old }
    {
        let index = index_of(&self.slots, &self.order, place);
        let _key = self.order.remove(index);
        self.unlisted = leave(&mut self.slots, &mut self.links, self.unlisted, place);
        self.slots.remove(place).item
    }

    /// A realm's items leave, in the order made, and all others move behind those of `spare`, which takes this table's place.
    #[tactic(auto, unfolding(crate::specs::Kept::of))]
    pub fn part(self, realm: usize, spare: Table<T, A>, left: &mut Vec<T>) -> Table<T, A>
        requires room { capacity self ≤ spare.free + self.free }
        requires space { length (of self realm) ≤ vec_capacity left.old - vec_len left.old }
        ensures left { left.new.items ≡ left.old.items ++ of self realm }
        ensures own { of result realm ≡ of spare realm }
        ensures others { (other : ℕ) → other ≢ realm →
            of result other ≡ of spare other ++ of self other }
        ensures free { result.free + capacity self ≡ spare.free + self.free
            + length (of self realm) }
    {
        let Table { slots, order, .. } = self;
        part(slots, order, realm, spare, left)
    }
}

/// The items of a realm leave, and all other entries move behind those of `spare`.
fn part<T: Linked + Drop, A: Allocator>(
    mut slots: Slab<Entry<T>, A>,
    order: Vec<usize, A>,
    realm: usize,
    mut spare: Table<T, A>,
    left: &mut Vec<T>,
) -> Table<T, A>
    requires there { AreThere slots order.items }
    requires apart { AreApart order.items }
    requires room { length (placed_at slots order.items) ≤ spare.free }
    requires space { length (items_in (placed_at slots order.items) realm)
        ≤ vec_capacity left.old - vec_len left.old }
    ensures left { left.new.items ≡ left.old.items
        ++ items_in (placed_at slots order.items) realm }
    ensures own { of result realm ≡ of spare realm }
    ensures others { (other : ℕ) → other ≢ realm →
        of result other ≡ of spare other ++ items_in (placed_at slots order.items) other }
    ensures free { result.free + length (placed_at slots order.items) ≡ spare.free
        + length (items_in (placed_at slots order.items) realm) }
{
    for key in order {
        let entry = slots.remove(key);
        if entry.realm != realm {
            spare.add(entry.realm, entry.item);
        } else {
            left.push_reserved(entry.item);
        }
    }
    spare
}
