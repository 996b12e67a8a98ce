//! The keys of the slots whose items are listed by their links: by realm, by link, and as made.
ghost use Rattle.std.specs.Prelude.{◌≡◌, ◌⊎◌, ℕ, ◌<◌, ◌≤◌, false, true, length, slice_index_or, vec_capacity, filter, unwrap_or, ◌+◌, IfSome, IsOk, None, OnOk, Some};
ghost use Rattle.std.specs.List.{prefix_len};
ghost use Rattle.slab.specs.Slab.{get};
ghost use Rattle.tip_table.specs.Entries.{AreByRealm, AreThere, IsOrder, items_at, own_keys, placed_at, realm_in, visited_at};
ghost use Rattle.tip_table.specs.Visits.{MayVisit, notes_of};
ghost use Rattle.tip_table.specs.declared.links.Unlisted.TheVariants.{Any};
ghost use Rattle.tip_table.specs.Links.{AreEnough, AreLinks, IsKnown, IsRelisted, IsRight, IsStruck, IsWhole, MayLeave, MayList, MaySettle, Settles, fits_in, is_earlier, is_listed, is_up_to, left, lent, linked_in, listed_in, made_in};

use crate::link::Linked;
use crate::order::{own, visit_at};
use crate::table::Entry;
use crate::visit::Visit;
use slab::Slab;
use std::alloc::{AllocError, Allocator};

/// The items that may have a link under which they are not listed.
#[derive(Clone, Copy)]
pub(crate) enum Unlisted {
    Nothing,
    /// The one under this key, which was lent to be written.
    One(usize),
    /// Any: more items were made than can be counted, and what is sought is sought among all.
    Any,
}

/// How many of those that are listed stand before one of this realm, link and age.
fn rank<T, A: Allocator>(
    slots: &Slab<Entry<T>, A>,
    links: &[usize],
    realm: usize,
    link: u128,
    made: u64,
) -> usize
    requires { AreLinks slots.now links.now }
    ensures within { result ≤ length links.now }
    ensures before { (at : ℕ) → at < result →
        is_earlier realm link made (get slots.now (slice_index_or links.now at 0)) ≡ true }
    ensures behind { (at : ℕ) → result ≤ at → at < length links.now →
        is_earlier realm link made (get slots.now (slice_index_or links.now at 0)) ≡ false }
{
    links.partition_point(|key| is_earlier(slots, *key, realm, link, made))
}

/// How many of those that are listed are of an earlier realm, or of this one and of no later link: so many are known to be. Those
/// behind them are looked at one by one, since few are listed under one link.
fn rank_past<T, A: Allocator>(
    slots: &Slab<Entry<T>, A>,
    links: &[usize],
    realm: usize,
    link: u128,
    known: usize,
) -> usize
    requires links { AreLinks slots.now links.now }
    requires within { known ≤ length links.now }
    requires before { (at : ℕ) → at < known →
        is_up_to realm link (get slots.now (slice_index_or links.now at 0)) ≡ true }
    ensures within { result ≤ length links.now }
    ensures before { (at : ℕ) → at < result →
        is_up_to realm link (get slots.now (slice_index_or links.now at 0)) ≡ true }
    ensures behind { (at : ℕ) → result ≤ at → at < length links.now →
        is_up_to realm link (get slots.now (slice_index_or links.now at 0)) ≡ false }
{
    known + len_up_to(slots, &links[known..], realm, link)
}

/// How many of these keys, from the first one on, are of an earlier realm, or of this one and of no later link.
fn len_up_to<T, A: Allocator>(
    slots: &Slab<Entry<T>, A>,
    keys: &[usize],
    realm: usize,
    link: u128,
) -> usize
    ensures { result ≡ prefix_len (λ key. is_up_to realm link (get slots.now key)) keys.now }
{
    keys.iter()
        .take_while(|key| is_up_to(slots, **key, realm, link))
        .count()
}

/// Whether the entry under a key stands before one of this realm, link and age.
fn is_earlier<T, A: Allocator>(
    slots: &Slab<Entry<T>, A>,
    key: usize,
    realm: usize,
    link: u128,
    made: u64,
) -> bool
    ensures { result ≡ is_earlier realm link made (get slots.now key) }
{
    let stamp = stamp_at(slots, key);
    stamp.realm < realm
        || stamp.realm == realm && (stamp.link < link || stamp.link == link && stamp.made < made)
}

/// Whether the entry under a key is of an earlier realm, or of this one and of no later link.
fn is_up_to<T, A: Allocator>(
    slots: &Slab<Entry<T>, A>,
    key: usize,
    realm: usize,
    link: u128,
) -> bool
    ensures { result ≡ is_up_to realm link (get slots.now key) }
{
    let stamp = stamp_at(slots, key);
    stamp.realm < realm || stamp.realm == realm && stamp.link <= link
}

/// By what those that are listed stand in order; 0 each where there is no entry.
#[derive(Clone, Copy)]
struct Stamp {
    realm: usize,
    link: u128,
    made: u64,
}

/// By what the entry under a key stands among those that are listed.
fn stamp_at<T, A: Allocator>(slots: &Slab<Entry<T>, A>, key: usize) -> Stamp
    ensures realm { result.realm ≡ realm_in (get slots.now key) }
    ensures link { result.link ≡ unwrap_or (listed_in (get slots.now key)) 0 }
    ensures made { result.made ≡ made_in (get slots.now key) }
{
    match slots.get(key) {
        Some(entry) => Stamp {
            realm: entry.realm,
            link: entry.listed.unwrap_or(0),
            made: entry.made,
        },
        None => Stamp {
            realm: 0,
            link: 0,
            made: 0,
        },
    }
}

/// The keys of a realm that are listed under a link.
fn listed<'a, T, A: Allocator>(
    slots: &Slab<Entry<T>, A>,
    links: &'a [usize],
    realm: usize,
    link: u128,
) -> &'a [usize]
    requires { AreLinks slots.now links.now }
    ensures { result.now ≡ filter (λ key. is_listed realm link (get slots.now key)) links.now }
{
    let start = rank(slots, links, realm, link, 0);
    &links[start..rank_past(slots, links, realm, link, start)]
}

/// The key is listed no more.
fn strike<T, A: Allocator>(slots: &mut Slab<Entry<T>, A>, links: &mut Vec<usize, A>, key: usize)
    requires { MayList slots.old links.old.items (vec_capacity links.old) key }
    ensures struck { IsRelisted key None slots.old links.old.items slots.new links.new.items }
    ensures may { MayList slots.new links.new.items (vec_capacity links.new) key }
    ensures room { vec_capacity links.new ≡ vec_capacity links.old }
{
    let Some(entry) = slots.get(key) else {
        return;
    };
    if let Some(link) = entry.listed {
        let at = rank(slots, links, entry.realm, link, entry.made);
        links.remove(at);
        slots[key].listed = None;
    }
}

/// The key, which is not listed, is listed under this link.
fn enlist<T, A: Allocator>(
    slots: &mut Slab<Entry<T>, A>,
    links: &mut Vec<usize, A>,
    key: usize,
    link: u128,
)
    requires may { MayList slots.old links.old.items (vec_capacity links.old) key }
    requires apart { listed_in (get slots.old key) ≡ None }
    ensures listed { IsRelisted key (Some link)
        slots.old links.old.items
        slots.new links.new.items }
    ensures room { vec_capacity links.new ≡ vec_capacity links.old }
{
    let Some(entry) = slots.get(key) else {
        return;
    };
    let at = rank(slots, links, entry.realm, link, entry.made);
    links.insert(at, key).unwrap();
    slots[key].listed = Some(link);
}

/// The link under which a key is listed.
fn listed_at<T, A: Allocator>(slots: &Slab<Entry<T>, A>, key: usize) -> Option<u128>
    ensures { result ≡ listed_in (get slots.now key) }
{
    slots.get(key)?.listed
}

/// The key is listed under this link, or under none.
pub(crate) fn list<T, A: Allocator>(
    slots: &mut Slab<Entry<T>, A>,
    links: &mut Vec<usize, A>,
    key: usize,
    link: Option<u128>,
)
    requires { MayList slots.old links.old.items (vec_capacity links.old) key }
    ensures listed { IsRelisted key link slots.old links.old.items slots.new links.new.items }
    ensures room { vec_capacity links.new ≡ vec_capacity links.old }
{
    if listed_at(slots, key) == link {
        return;
    }
    strike(slots, links, key);
    if let Some(link) = link {
        enlist(slots, links, key, link);
    }
}

/// The link that the item under a key has.
fn link_at<T: Linked, A: Allocator>(slots: &Slab<Entry<T>, A>, key: usize) -> Option<u128>
    ensures link { result ≡ linked_in T.Linked (get slots.now key) }
    ensures fits { fits_in T.Linked (get slots.now key) }
{
    slots.get(key)?.item.link()
}

/// The item that was lent is listed under the link that it has by now. Says what may be missing then.
pub(crate) fn settle<T: Linked, A: Allocator>(
    slots: &mut Slab<Entry<T>, A>,
    links: &mut Vec<usize, A>,
    unlisted: Unlisted,
) -> Unlisted
    requires { MaySettle slots.old links.old.items (vec_capacity links.old) unlisted }
    ensures settled { Settles T.Linked unlisted
        slots.old links.old.items
        result slots.new links.new.items }
    ensures room { vec_capacity links.new ≡ vec_capacity links.old }
{
    match unlisted {
        Unlisted::One(key) => {
            let link = link_at(slots, key);
            list(slots, links, key, link);
            Unlisted::Nothing
        }
        Unlisted::Nothing | Unlisted::Any => unlisted,
    }
}

/// Whether each item that has a link is listed under it.
fn is_whole<T: Linked, A: Allocator>(slots: &Slab<Entry<T>, A>, unlisted: Unlisted) -> bool
    ensures { result ≡ true → IsWhole T.Linked slots.now unlisted }
{
    match unlisted {
        Unlisted::Nothing => true,
        Unlisted::One(key) => is_right(slots, key),
        Unlisted::Any => false,
    }
}

/// Whether the item under a key has no link, or is listed under it.
fn is_right<T: Linked, A: Allocator>(slots: &Slab<Entry<T>, A>, key: usize) -> bool
    ensures { result ≡ true → IsRight T.Linked (get slots.now key) }
{
    match slots.get(key) {
        Some(entry) => match entry.item.link() {
            Some(link) => entry.listed == Some(link),
            None => true,
        },
        None => true,
    }
}

/// The keys of a realm's items, or of those alone that may have the link that is aimed at.
pub(crate) fn aimed<'a, T: Linked, A: Allocator>(
    slots: &Slab<Entry<T>, A>,
    order: &'a [usize],
    links: &'a [usize],
    unlisted: Unlisted,
    realm: usize,
    aim: Option<u128>,
) -> &'a [usize]
    requires there { AreThere slots.now order.now }
    requires by_realm { AreByRealm (placed_at slots.now order.now) }
    requires known { IsKnown T.Linked slots.now order.now links.now unlisted }
    ensures { AreEnough T.Linked slots.now (own_keys slots.now order.now realm) aim result.now }
{
    match aim {
        Some(link) if is_whole(slots, unlisted) => listed(slots, links, realm, link),
        _ => own(slots, order, realm),
    }
}

/// Visits a realm's items, or those alone that have the link that the visitor aims at: it leaves all others as they are.
pub(crate) fn visit<T: Linked, A: Allocator, N, V: Visit<T, N>>(
    slots: &mut Slab<Entry<T>, A>,
    order: &[usize],
    links: &[usize],
    unlisted: Unlisted,
    realm: usize,
    visitor: &V,
    notes: &mut N,
)
    requires order { IsOrder slots.old order.now }
    requires known { IsKnown T.Linked slots.old order.now links.now unlisted }
    requires may { MayVisit (V.may visitor.now) (V.noted visitor.now) notes.old
        (items_at slots.old (own_keys slots.old order.now realm)) }
    ensures visited { slots.new
        ≡ visited_at (V.left visitor.now) slots.old (own_keys slots.old order.now realm) }
    ensures notes { notes.new ≡ notes_of (V.noted visitor.now) notes.old
        (items_at slots.old (own_keys slots.old order.now realm)) }
    ensures links { (item : T) (link : ℕ) → T.link (V.left visitor.now item) ≡ Some link →
        T.link item ≡ Some link }
    ensures fits { (item : T) → T.fits item → T.fits (V.left visitor.now item) }
{
    let keys = aimed(slots, order, links, unlisted, realm, visitor.aim());
    visit_at(slots, keys, visitor, notes);
}

/// What may be missing once the item under a key is lent.
pub(crate) fn lent(unlisted: Unlisted, key: usize) -> Unlisted
    ensures { result ≡ lent key unlisted }
{
    match unlisted {
        Unlisted::Any => Unlisted::Any,
        Unlisted::Nothing | Unlisted::One(_) => Unlisted::One(key),
    }
}

/// Counts one item more. Where that can't be counted, what is sought is sought among all from then on.
pub(crate) fn count(made: u64, unlisted: Unlisted) -> (u64, Unlisted)
    ensures { (result.0 ≡ made + 1) × (result.1 ≡ unlisted) ⊎ (result.1 ≡ Any) }
{
    match made.checked_add(1) {
        Some(made) => (made, unlisted),
        None => (made, Unlisted::Any),
    }
}

/// The item under a key leaves, and is listed no more. Says what may be missing then.
pub(crate) fn leave<T, A: Allocator>(
    slots: &mut Slab<Entry<T>, A>,
    links: &mut Vec<usize, A>,
    unlisted: Unlisted,
    key: usize,
) -> Unlisted
    requires { MayLeave slots.old links.old.items (vec_capacity links.old) key unlisted }
    ensures unlisted { result ≡ left key unlisted }
    ensures struck { IsStruck key unlisted slots.old links.old.items slots.new links.new.items }
    ensures room { vec_capacity links.new ≡ vec_capacity links.old }
{
    match unlisted {
        Unlisted::Any => Unlisted::Any,
        Unlisted::One(other) => {
            list(slots, links, key, None);
            if other == key {
                Unlisted::Nothing
            } else {
                Unlisted::One(other)
            }
        }
        Unlisted::Nothing => {
            list(slots, links, key, None);
            Unlisted::Nothing
        }
    }
}

/// Makes room for the keys of so many items more than there are, all of which may be listed.
pub(crate) fn reserve<A: Allocator>(
    links: &mut Vec<usize, A>,
    count: usize,
    more: usize,
) -> Result<(), AllocError>
    ensures ok { OnOk result (count + more ≤ vec_capacity links.new) }
    ensures room_is_kept { vec_capacity links.old ≤ vec_capacity links.new }
    ensures has_room { count + more ≤ vec_capacity links.old → IsOk result }
    ensures items { links.new.items ≡ links.old.items }
{
    let all = count.checked_add(more).ok_or(AllocError)?;
    links.reserve(all.saturating_sub(links.len()))
}
