//! The keys of a table's slots, in order: by realm, and in a realm as made.
ghost use Rattle.std.specs.Prelude.{◌≡◌, ◌==◌, ◌+◌, ◌<◌, ◌≤◌, true, None, IfSome, count_by, length, map, position, slice_index_or};
ghost use Rattle.std.specs.List.{find};
ghost use Rattle.slab.specs.Slab.{get};
ghost use Rattle.tip_table.specs.Entries.{AreApart, AreByRealm, AreThere, IsFirstAt, comes_before, count_below, is_among, is_ranked, items_at, own_keys, passes_in, placed_at, realm_in, visited_at};
ghost use Rattle.tip_table.specs.Lists.{are_rising};
ghost use Rattle.tip_table.specs.Visits.{MayVisit, notes_of};

use crate::link::Linked;
use crate::rank::Rank;
use crate::table::Entry;
use crate::test::Test;
use crate::visit::Visit;
use slab::Slab;
use std::alloc::Allocator;

/// How many keys stand before those of a realm.
pub(crate) fn before<T, A: Allocator>(
    slots: &Slab<Entry<T>, A>,
    keys: &[usize],
    realm: usize,
) -> usize
    requires there { AreThere slots.now keys.now }
    requires by_realm { AreByRealm (placed_at slots.now keys.now) }
    ensures count { result ≡ count_below realm (placed_at slots.now keys.now) }
    ensures within { result ≤ length keys.now }
{
    below(slots, keys, realm as u128)
}

/// How many keys stand before those of the realms behind this one.
pub(crate) fn through<T, A: Allocator>(
    slots: &Slab<Entry<T>, A>,
    keys: &[usize],
    realm: usize,
) -> usize
    requires there { AreThere slots.now keys.now }
    requires by_realm { AreByRealm (placed_at slots.now keys.now) }
    ensures count { result ≡ count_below (realm + 1) (placed_at slots.now keys.now) }
    ensures within { result ≤ length keys.now }
{
    below(slots, keys, realm as u128 + 1)
}

/// The keys of a realm's items.
#[tactic(auto, using(crate::proofs::OwnLemmas::counts_rise))]
pub(crate) fn own<'a, T, A: Allocator>(
    slots: &Slab<Entry<T>, A>,
    keys: &'a [usize],
    realm: usize,
) -> &'a [usize]
    requires there { AreThere slots.now keys.now }
    requires by_realm { AreByRealm (placed_at slots.now keys.now) }
    ensures { result.now ≡ own_keys slots.now keys.now realm }
{
    &keys[before(slots, keys, realm)..through(slots, keys, realm)]
}

/// Where a key stands that is one of these.
#[tactic(auto, using(crate::proofs::OwnLemmas::counts_rise))]
pub(crate) fn index_of<T, A: Allocator>(
    slots: &Slab<Entry<T>, A>,
    keys: &[usize],
    key: usize,
) -> usize
    requires there { AreThere slots.now keys.now }
    requires by_realm { AreByRealm (placed_at slots.now keys.now) }
    requires among { is_among keys.now key ≡ true }
    ensures within { result < length keys.now }
    ensures found { slice_index_or keys.now result 0 ≡ key }
{
    let realm = realm_at(slots, key);
    let start = before(slots, keys, realm);
    let end = through(slots, keys, realm);
    start + offset_of(&keys[start..end], key)
}

/// Where a key stands that is one of these, sought from the end: who leaves has mostly come late.
fn offset_of(keys: &[usize], key: usize) -> usize
    requires { is_among keys.now key ≡ true }
    ensures within { result < length keys.now }
    ensures found { slice_index_or keys.now result 0 ≡ key }
{
    let mut end = keys.len();
    while end > 0 {
        end -= 1;
        if keys[end] == key {
            return end;
        }
    }
    unreachable!()
}

/// How many keys, at the front, are of realms below this bound.
fn below<T, A: Allocator>(slots: &Slab<Entry<T>, A>, keys: &[usize], bound: u128) -> usize
    requires there { AreThere slots.now keys.now }
    requires by_realm { AreByRealm (placed_at slots.now keys.now) }
    ensures count { result ≡ count_below bound (placed_at slots.now keys.now) }
    ensures within { result ≤ length keys.now }
{
    let mut low = 0;
    let mut high = keys.len();
    while low < high {
        let middle = low + (high - low) / 2;
        if (realm_at(slots, keys[middle]) as u128) < bound {
            low = middle + 1;
        } else {
            high = middle;
        }
    }
    low
}

/// The realm of the entry under a key; 0 where there is none.
fn realm_at<T, A: Allocator>(slots: &Slab<Entry<T>, A>, key: usize) -> usize
    ensures { result ≡ realm_in (get slots.now key) }
{
    match slots.get(key) {
        Some(entry) => entry.realm,
        None => 0,
    }
}

/// Whether the item under a key passes.
fn passes_at<T: Linked, A: Allocator, Q: Test<T>>(
    slots: &Slab<Entry<T>, A>,
    key: usize,
    query: &Q,
) -> bool
    ensures { result ≡ passes_in (Q.passes query.now) (get slots.now key) }
{
    match slots.get(key) {
        Some(entry) => query.passes(&entry.item),
        None => false,
    }
}

/// The key of the first of a realm's items of this rank: where it stands if none has left, or else by halves, since entries stand by
/// realm, and those of this realm by rank.
pub(crate) fn key_ranked<T, A: Allocator, R: Rank<T>>(
    slots: &Slab<Entry<T>, A>,
    keys: &[usize],
    realm: usize,
    ranks: &R,
    rank: u64,
) -> Option<usize>
    requires there { AreThere slots.now keys.now }
    requires by_realm { AreByRealm (placed_at slots.now keys.now) }
    requires rising { are_rising (map (R.rank ranks.now)
        (items_at slots.now (own_keys slots.now keys.now realm))) ≡ true }
    ensures some { IfSome result (IsFirstAt slots.now (λ item. R.rank ranks.now item == rank)
        (own_keys slots.now keys.now realm)) }
    ensures none { result ≡ None → find (λ item. R.rank ranks.now item == rank)
        (items_at slots.now (own_keys slots.now keys.now realm)) ≡ None }
{
    if let Some(guess) = keys.get(in_line(slots, keys, ranks, rank)) {
        if is_ranked(slots, *guess, realm, ranks, rank) {
            return Some(*guess);
        }
    }
    let at = keys.partition_point(|key| comes_before(slots, *key, realm, ranks, rank));
    match keys.get(at) {
        Some(key) if is_ranked(slots, *key, realm, ranks, rank) => Some(*key),
        _ => None,
    }
}

/// Where an item of this rank stands if ranks are given one by one and none has left: as far behind the first as its rank is above
/// that one's. Nothing rests on it, since whoever asks looks at what stands there.
fn in_line<T, A: Allocator, R: Rank<T>>(
    slots: &Slab<Entry<T>, A>,
    keys: &[usize],
    ranks: &R,
    rank: u64,
) -> usize {
    let Some(first) = keys.first() else {
        return 0;
    };
    match slots.get(*first) {
        Some(entry) => rank.saturating_sub(ranks.rank(&entry.item)) as usize,
        None => 0,
    }
}

/// Whether the entry under a key stands before one of this realm and rank.
fn comes_before<T, A: Allocator, R: Rank<T>>(
    slots: &Slab<Entry<T>, A>,
    key: usize,
    realm: usize,
    ranks: &R,
    rank: u64,
) -> bool
    ensures { result ≡ comes_before (R.rank ranks.now) realm rank (get slots.now key) }
{
    match slots.get(key) {
        Some(entry) => {
            entry.realm < realm || entry.realm == realm && ranks.rank(&entry.item) < rank
        }
        None => false,
    }
}

/// Whether the entry under a key is of this realm, and its item of this rank.
fn is_ranked<T, A: Allocator, R: Rank<T>>(
    slots: &Slab<Entry<T>, A>,
    key: usize,
    realm: usize,
    ranks: &R,
    rank: u64,
) -> bool
    ensures { result ≡ is_ranked (R.rank ranks.now) realm rank (get slots.now key) }
{
    match slots.get(key) {
        Some(entry) => entry.realm == realm && ranks.rank(&entry.item) == rank,
        None => false,
    }
}

/// Where the first of these keys stands whose item passes.
pub(crate) fn first_passing<T: Linked, A: Allocator, Q: Test<T>>(
    slots: &Slab<Entry<T>, A>,
    keys: &[usize],
    query: &Q,
) -> Option<usize>
    ensures { result
        ≡ position (λ key. passes_in (Q.passes query.now) (get slots.now key)) keys.now }
{
    keys.iter().position(|key| passes_at(slots, *key, query))
}

/// How many of the items at these keys pass.
pub(crate) fn count_passing<T: Linked, A: Allocator, Q: Test<T>>(
    slots: &Slab<Entry<T>, A>,
    keys: &[usize],
    query: &Q,
) -> usize
    ensures { result
        ≡ count_by (λ key. passes_in (Q.passes query.now) (get slots.now key)) keys.now }
{
    keys.iter()
        .filter(|key| passes_at(slots, **key, query))
        .count()
}

/// Visits the items at these keys.
pub(crate) fn visit_at<T: Linked, A: Allocator, N, V: Visit<T, N>>(
    slots: &mut Slab<Entry<T>, A>,
    keys: &[usize],
    visitor: &V,
    notes: &mut N,
)
    requires apart { AreApart keys.now }
    requires may { MayVisit (V.may visitor.now) (V.noted visitor.now) notes.old
        (items_at slots.old keys.now) }
    ensures visited { slots.new ≡ visited_at (V.left visitor.now) slots.old keys.now }
    ensures notes { notes.new
        ≡ notes_of (V.noted visitor.now) notes.old (items_at slots.old keys.now) }
{
    for key in keys {
        if let Some(entry) = slots.get_mut(*key) {
            visitor.visit(&mut entry.item, notes);
        }
    }
}
