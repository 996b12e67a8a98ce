//! Rows in memory.
ghost use Rattle.std.specs.Prelude.{refl, ◌≡◌, ◌≤◌, length, ◌+◌, ◌%◌, ◌^◌, ◌∷◌, [], ℕ, List, true, false, map, filter, take, drop, option_map, unwrap_or, pos, Some, ◌↔◌, IsTrue, IfOk, IfErr, OnOk, OnErr, MatchResult};
ghost use Rattle.std.specs.Prelude.{find};
ghost use Rattle.std.specs.Option.{option_copied};
ghost use Rattle.std.specs.List.{list_any, position};
ghost use Rattle.std.specs.List.Sorted.{IsPartitionPoint};
ghost use Rattle.tip_line.specs.Words.{is_realm};
ghost use Rattle.tip_rows.specs.Logs.{Log, empty_log, counted, last_epoch, with_row, without_row, with_all_raised, with_raised, with_epoch, IsSpent, IsPart, AreNames, name_before};
ghost use Rattle.tip_rows.specs.Memory.{IsDemanded, are_by_name, log_of, is_due_in, epoch_in, is_named, due_in, part, raised_known, raised_named, epoch_named, refusing_named, is_at_end, are_placed, is_before, stands_at, put_in, is_other, is_of, is_of_earlier, is_from, known_in};

use crate::heap_row::HeapRow;
use crate::key::Key;
use crate::log::{LoadFault, Loaded, RaiseFault, Refused, RowLog};
use crate::medium::OwnMemory;
use crate::row::Row;
use std::alloc::{AllocError, Allocator, Global};
use std::cmp::Ordering;
use std::marker::Model;
use tip_line::Realm;

/// A known realm.
#[derive(Drop)]
struct Known {
    realm: Realm,
    epoch: u32,
    /// Its next change is to be refused.
    is_refusing: bool,
}

/// A row, and the place that it has among the others.
#[derive(Drop)]
struct Placed<A: Allocator> {
    realm: Realm,
    key: Key,
    row: HeapRow<A>,
}

/// A row where it stands: apart, so that little is moved where another row is put before it.
#[derive(Drop)]
struct Stored<A: Allocator> {
    placed: Box<Placed<A>, A>,
}

impl<A: Allocator> Model for Stored<A> {
    ghost use Rattle.tip_rows.specs.Memory.{Stored};

    ghost Value = { Stored };

    ghost view = { λ s. record {
      realm = s.placed.value.realm;
      key = s.placed.value.key;
      row = s.placed.value.row;
    } };
}

impl<A: Allocator> Stored<A> {
    /// A row that is to stand there.
    fn of(heap: A, realm: Realm, key: Key, row: HeapRow<A>) -> Result<Stored<A>, AllocError>
        ensures { IfOk result
            (λ stored. stored ≡ record { realm = realm; key = key; row = row }) }
    {
        let placed = Placed { realm, key, row };
        Ok(Stored {
            placed: Box::new(heap, placed)?,
        })
    }

    fn realm(&self) -> &Realm
        ensures { result.now ≡ self.now.realm }
    {
        &self.placed.realm
    }

    fn key(&self) -> Key
        ensures { result ≡ self.now.key }
    {
        self.placed.key
    }

    fn row(&self) -> &HeapRow<A>
        ensures { result.now ≡ self.now.row }
    {
        &self.placed.row
    }

    /// Another row stands there now.
    fn replace(&mut self, row: HeapRow<A>)
        ensures { self.new ≡ record self.old { row = row } }
    {
        self.placed.row = row;
    }
}

/// Rows in memory, on a heap of the caller's. They refuse a change for want of memory, or where `refuse_next` asked for it.
#[derive(Drop)]
pub struct MemRows<A: Allocator = Global> {
    alloc: Global,
    /// By name.
    known: Vec<Known, A>,
    /// By the name of the realm, and those of a realm by key.
    rows: Vec<Stored<A>, A>,
    faults: u64,
}

impl<A: Allocator> Model for MemRows<A> {
    ghost use Rattle.tip_rows.specs.Memory.{Memory, IsKept};

    ghost Value = { Memory };

    ghost view = { λ s. record { known = s.known.items; rows = s.rows.items; faults = s.faults } };

    ghost invariant = { λ s. IsKept s.known.items s.rows.items };
}

impl MemRows {
    /// No realms and no rows.
    pub fn new(alloc: Global) -> MemRows
        ensures empty { log_of result ≡ empty_log }
        ensures none_due { (realm : List ℕ) → is_due_in result realm ≡ false }
        ensures no_faults { result.faults ≡ 0 }
    {
        MemRows::new_in(alloc, alloc)
    }
}

impl<A: Allocator + Copy> MemRows<A> {
    /// No realms and no rows, to be kept on this heap. What is loaded is on `Global`.
    pub fn new_in(alloc: Global, heap: A) -> MemRows<A>
        ensures empty { log_of result ≡ empty_log }
        ensures none_due { (realm : List ℕ) → is_due_in result realm ≡ false }
        ensures no_faults { result.faults ≡ 0 }
    {
        MemRows {
            alloc,
            known: Vec::new(heap),
            rows: Vec::new(heap),
            faults: 0,
        }
    }
}

impl<A: Allocator> MemRows<A> {
    /// Makes a realm known with this epoch.
    pub fn start_at(&mut self, realm: &Realm, epoch: u32) -> Result<(), AllocError>
        ensures started { OnOk result
            (log_of self.new ≡ with_epoch realm.now epoch (log_of self.old)) }
        ensures err { OnErr result (self.new ≡ self.old) }
        ensures due { (r : List ℕ) → is_due_in self.new r ≡ is_due_in self.old r }
        ensures faults { self.new.faults ≡ self.old.faults }
    {
        know_in(&mut self.known, realm)?;
        set_known_epoch(&mut self.known, realm, epoch);
        Ok(())
    }

    /// The next change of this realm is refused, where it is known.
    pub fn refuse_next(&mut self, realm: &Realm)
        ensures log { log_of self.new ≡ log_of self.old }
        ensures due { IsDemanded self.old self.new realm.now }
        ensures faults { self.new.faults ≡ self.old.faults }
    {
        set_due(&mut self.known, realm, true);
    }

    /// What is stored of a realm, in a list on this heap; the lists of its rows are on `Global`.
    #[tactic(auto, using(crate::proofs::OrderLemmas::rising_part))]
    pub fn load_in<B: Allocator>(&self, heap: B, realm: &Realm) -> Result<Loaded<B>, LoadFault>
        ensures part { IfOk result
            (λ loaded. IsPart (log_of self.now) realm.now loaded.epoch loaded.rows.items) }
        ensures memory { IfErr result (λ fault. fault ≡ LoadFault.Memory) }
    {
        match part_of(self.alloc, heap, &self.rows, realm) {
            Ok(rows) => Ok(Loaded {
                epoch: epoch_of(&self.known, realm),
                rows,
            }),
            Err(_) => Err(LoadFault::Memory),
        }
    }

    /// The names of the known realms, rising, in a list on this heap.
    pub fn realms_in<B: Allocator>(&self, heap: B) -> Result<Vec<Realm, B>, LoadFault>
        ensures names { IfOk result (λ names. AreNames (log_of self.now) names.items) }
        ensures memory { IfErr result (λ fault. fault ≡ LoadFault.Memory) }
    {
        match names_of(heap, &self.known) {
            Ok(names) => Ok(names),
            Err(_) => Err(LoadFault::Memory),
        }
    }

    /// Whether a refusal of this realm's change is due, which is spent and counted then.
    fn take_due(&mut self, realm: &Realm) -> bool
        ensures due { result ≡ is_due_in self.old realm.now }
        ensures spent { IsSpent (is_due_in self.old) (is_due_in self.new) realm.now }
        ensures log { log_of self.new ≡ log_of self.old }
        ensures faults { self.new.faults ≡ counted result self.old.faults }
    {
        let due = is_due(&self.known, realm);
        if due {
            set_due(&mut self.known, realm, false);
        }
        count(&mut self.faults, due);
        due
    }
}

impl<A: Allocator + Copy> RowLog for MemRows<A> {
    type Medium = OwnMemory;

    ghost medium = { λ _. record {} };

    ghost keeping = { record {
      stands = λ s log. log_of s ≡ log;
      may_leave = λ s log. log_of s ≡ log;
      is_true = λ _. Unit {0};
      faults = λ s. s.faults;
      is_due = is_due_in;
    } };

    fn know(&mut self, realm: &Realm) -> Result<(), Refused> {
        match know_in(&mut self.known, realm) {
            Ok(()) => Ok(()),
            Err(_) => Err(refuse(&mut self.faults)),
        }
    }

    fn raise_epochs(&mut self) -> Result<(), RaiseFault> {
        if one_is_at_end(&self.known) {
            return Err(RaiseFault::EpochEnd);
        }
        raise_each(&mut self.known);
        Ok(())
    }

    fn raise_epoch(&mut self, realm: &Realm) -> Result<(), RaiseFault> {
        if self.take_due(realm) {
            return Err(RaiseFault::Refused);
        }
        if is_at_end(&self.known, realm) {
            return Err(RaiseFault::EpochEnd);
        }
        raise_of(&mut self.known, realm);
        Ok(())
    }

    fn put(&mut self, realm: &Realm, key: Key, row: &Row) -> Result<(), Refused> {
        if self.take_due(realm) {
            return Err(Refused);
        }
        match put_copy(&mut self.rows, realm, key, row) {
            Ok(()) => Ok(()),
            Err(_) => Err(refuse(&mut self.faults)),
        }
    }

    fn remove(&mut self, realm: &Realm, key: Key) -> Result<(), Refused> {
        if self.take_due(realm) {
            return Err(Refused);
        }
        remove_from(&mut self.rows, realm, key);
        Ok(())
    }

    fn load(&mut self, realm: &Realm) -> Result<Loaded, LoadFault> {
        self.load_in(self.alloc, realm)
    }

    fn realms(&mut self) -> Result<Vec<Realm>, LoadFault> {
        self.realms_in(self.alloc)
    }

    fn faults(&self) -> u64 {
        self.faults
    }

    ghost true_while_faithful = { λ _ faithful. faithful };

    ghost leaves_some = { λ rows _. ∣ (log_of rows, refl) ∣₁ };
}

/// Counts a call, if it was refused.
fn count(faults: &mut u64, is_refused: bool)
    ensures { faults.new ≡ counted is_refused faults.old }
{
    if is_refused {
        *faults = faults.wrapping_add(1);
    }
}

/// A refusal, which is counted.
fn refuse(faults: &mut u64) -> Refused
    ensures { faults.new ≡ counted true faults.old }
{
    count(faults, true);
    Refused
}

/// Whether it is the realm of this name.
fn is_named(known: &Known, realm: &Realm) -> bool
    ensures { result ≡ is_named realm.now known.now }
{
    known.realm == *realm
}

/// Raises an epoch that is not at its end.
fn raise_one(known: &mut Known)
    ensures { known.new ≡ raised_known known.old }
{
    known.epoch = known.epoch.saturating_add(1);
}

/// Raises the epoch of one realm alone.
fn raise_named(known: &mut Known, realm: &Realm)
    ensures { known.new ≡ raised_named realm.now known.old }
{
    if is_named(known, realm) {
        raise_one(known);
    }
}

/// Says of one realm alone whether its next change is to be refused.
fn set_refusing(known: &mut Known, realm: &Realm, is_refusing: bool)
    ensures { known.new ≡ refusing_named realm.now is_refusing known.old }
{
    if is_named(known, realm) {
        known.is_refusing = is_refusing;
    }
}

/// Sets the epoch of one realm alone.
fn set_epoch(known: &mut Known, realm: &Realm, epoch: u32)
    ensures { known.new ≡ epoch_named realm.now epoch known.old }
{
    if is_named(known, realm) {
        known.epoch = epoch;
    }
}

/// Raises every epoch that is not at its end.
fn raise_each<A: Allocator>(known: &mut Vec<Known, A>)
    ensures { known.new.items ≡ map raised_known known.old.items }
{
    for k in known.as_mut_slice() {
        raise_one(k);
    }
}

/// Raises the epoch of one known realm, if it is not at its end.
fn raise_of<A: Allocator>(known: &mut Vec<Known, A>, realm: &Realm)
    ensures { known.new.items ≡ map (raised_named realm.now) known.old.items }
{
    for k in known.as_mut_slice() {
        raise_named(k, realm);
    }
}

/// Sets the epoch of one known realm.
fn set_known_epoch<A: Allocator>(known: &mut Vec<Known, A>, realm: &Realm, epoch: u32)
    ensures { known.new.items ≡ map (epoch_named realm.now epoch) known.old.items }
{
    for k in known.as_mut_slice() {
        set_epoch(k, realm, epoch);
    }
}

/// Says whether the next change of one known realm is to be refused.
fn set_due<A: Allocator>(known: &mut Vec<Known, A>, realm: &Realm, is_refusing: bool)
    ensures { known.new.items ≡ map (refusing_named realm.now is_refusing) known.old.items }
{
    for k in known.as_mut_slice() {
        set_refusing(k, realm, is_refusing);
    }
}

/// The realm of a name, found by halves.
fn find<'a>(known: &'a [Known], realm: &Realm) -> Option<&'a Known>
    requires { are_by_name known.now ≡ true }
    ensures { option_copied result ≡ find (is_named realm.now) known.now }
{
    let Some(place) = first_from(known, realm.as_str()) else {
        return None;
    };
    let first = &known[place];
    if is_named(first, realm) {
        Some(first)
    } else {
        None
    }
}

/// Whether a refusal is due.
fn is_due(known: &[Known], realm: &Realm) -> bool
    requires { are_by_name known.now ≡ true }
    ensures { result ≡ due_in known.now realm.now }
{
    match find(known, realm) {
        Some(k) => k.is_refusing,
        None => false,
    }
}

/// The epoch of a realm; 0 where it is not known.
fn epoch_of(known: &[Known], realm: &Realm) -> u32
    requires { are_by_name known.now ≡ true }
    ensures { unwrap_or (epoch_in known.now realm.now) (pos 0) ≡ pos result }
{
    match find(known, realm) {
        Some(k) => k.epoch,
        None => 0,
    }
}

/// Whether the epoch of a realm is at its end.
fn is_at_end(known: &[Known], realm: &Realm) -> bool
    requires { are_by_name known.now ≡ true }
    ensures { IsTrue result ↔ (epoch_in known.now realm.now ≡ Some (pos last_epoch)) }
{
    epoch_of(known, realm) == u32::MAX
}

/// Makes a realm known.
fn know_in<A: Allocator>(known: &mut Vec<Known, A>, realm: &Realm) -> Result<(), AllocError>
    requires { are_by_name known.old.items ≡ true }
    ensures ok { OnOk result (known.new.items ≡ known_in
        (record { realm = realm.now; epoch = 0; is_refusing = false }) known.old.items) }
    ensures realm { OnOk result (is_realm realm.now ≡ true) }
    ensures err { OnErr result (known.new.items ≡ known.old.items) }
{
    match first_from(known, realm.as_str()) {
        Some(place) if is_named(&known[place], realm) => (),
        Some(place) => known.insert(place, newly_known(realm)?)?,
        None => known.push(newly_known(realm)?)?,
    }
    Ok(())
}

/// A realm that was not known.
fn newly_known(realm: &Realm) -> Result<Known, AllocError>
    ensures { IfOk result
        (λ known. known ≡ record { realm = realm.now; epoch = 0; is_refusing = false }) }
{
    Ok(Known {
        realm: realm.copy()?,
        epoch: 0,
        is_refusing: false,
    })
}

/// The first known realm whose name does not come before this one, found by halves.
fn first_from(known: &[Known], name: &str) -> Option<usize>
    requires { are_by_name known.now ≡ true }
    ensures { result ≡ position (is_from name.now) known.now }
{
    let place = known.partition_point(|k| is_earlier(k, name));
    if place < known.len() {
        Some(place)
    } else {
        None
    }
}

/// Whether the name of a known realm comes before this one.
fn is_earlier(known: &Known, name: &str) -> bool
    ensures { result ≡ name_before known.now.realm name.now }
{
    known.realm.as_str().cmp(name).is_lt()
}

/// Adds an equal row, or puts it in place of another, for which nothing but its lists grows.
fn put_copy<A: Allocator + Copy>(
    rows: &mut Vec<Stored<A>, A>,
    realm: &Realm,
    key: Key,
    row: &Row,
) -> Result<(), AllocError>
    requires { are_placed rows.old.items ≡ true }
    ensures ok { OnOk result (rows.new.items
        ≡ put_in (record { realm = realm.now; key = key; row = row.now }) rows.old.items) }
    ensures err { OnErr result (rows.new.items ≡ rows.old.items) }
{
    let heap = *rows.allocator();
    let row = HeapRow::of(heap, row)?;
    let index = place_of(rows, realm, key);
    if stands_at(rows, index, realm, key) {
        rows[index].replace(row);
        return Ok(());
    }
    rows.insert(index, Stored::of(heap, realm.copy()?, key, row)?)?;
    Ok(())
}

/// Whether an epoch is at its end.
fn one_is_at_end(known: &[Known]) -> bool
    ensures { result ≡ list_any is_at_end known.now }
{
    known.iter().any(|k| k.epoch == u32::MAX)
}

/// Removes a row.
fn remove_from<A: Allocator>(rows: &mut Vec<Stored<A>, A>, realm: &Realm, key: Key)
    requires { are_placed rows.old.items ≡ true }
    ensures { rows.new.items ≡ filter (is_other realm.now key) rows.old.items }
{
    let index = place_of(rows, realm, key);
    if stands_at(rows, index, realm, key) {
        rows.remove(index);
    }
}

/// Where a key of a realm has its place among rows, found by halves.
fn place_of<A: Allocator>(rows: &[Stored<A>], realm: &Realm, key: Key) -> usize
    requires { are_placed rows.now ≡ true }
    ensures within { result ≤ length rows.now }
    ensures between { IsPartitionPoint
        (λ row. is_before realm.now key row ≡ true) (λ row. is_before realm.now key row ≡ false)
        rows.now result }
{
    rows.partition_point(|row| is_before(row, realm, key))
}

/// Whether a row stands before the place of a key of a realm.
fn is_before<A: Allocator>(stored: &Stored<A>, realm: &Realm, key: Key) -> bool
    ensures { result ≡ is_before realm.now key stored.now }
{
    match stored.realm().as_str().cmp(realm.as_str()) {
        Ordering::Less => true,
        Ordering::Equal => stored.key().comes_before(key),
        Ordering::Greater => false,
    }
}

/// Whether the row at this index is that of a key of a realm.
fn stands_at<A: Allocator>(rows: &[Stored<A>], index: usize, realm: &Realm, key: Key) -> bool
    ensures { result ≡ stands_at realm.now key rows.now index }
{
    match rows.get(index) {
        Some(row) => *row.realm() == *realm && row.key() == key,
        None => false,
    }
}

/// The rows of a realm, whose first and last are found by halves.
fn run_of<'a, A: Allocator>(rows: &'a [Stored<A>], realm: &Realm) -> &'a [Stored<A>]
    requires { are_placed rows.now ≡ true }
    ensures { result.now ≡ filter (is_of realm.now) rows.now }
{
    let start = rows.partition_point(|row| is_of_earlier(row, realm));
    let rest = &rows[start..];
    let len = rest.partition_point(|row| is_of(row, realm));
    &rest[..len]
}

/// Whether a row is of this realm.
fn is_of<A: Allocator>(stored: &Stored<A>, realm: &Realm) -> bool
    ensures { result ≡ is_of realm.now stored.now }
{
    *stored.realm() == *realm
}

/// Whether a row is of a realm whose name comes before this one.
fn is_of_earlier<A: Allocator>(stored: &Stored<A>, realm: &Realm) -> bool
    ensures { result ≡ is_of_earlier realm.now stored.now }
{
    stored.realm().as_str().cmp(realm.as_str()).is_lt()
}

/// The rows of a realm, in order.
fn part_of<A: Allocator, B: Allocator>(
    alloc: Global,
    heap: B,
    rows: &[Stored<A>],
    realm: &Realm,
) -> Result<Vec<(Key, Row), B>, AllocError>
    requires { are_placed rows.now ≡ true }
    ensures { IfOk result (λ entries. entries.items ≡ part realm.now rows.now) }
{
    let own = run_of(rows, realm);
    let mut entries = Vec::with_capacity(heap, own.len())?;
    for stored in own {
        entries.push_reserved(entry_of(alloc, stored)?);
    }
    Ok(entries)
}

/// The key of a row, and an equal row.
fn entry_of<A: Allocator>(alloc: Global, stored: &Stored<A>) -> Result<(Key, Row), AllocError>
    ensures { IfOk result (λ entry. entry ≡ (stored.now.key, stored.now.row)) }
{
    Ok((stored.key(), stored.row().copy(alloc)?.into_row()))
}

/// The names of realms, in order.
fn names_of<B: Allocator>(heap: B, known: &[Known]) -> Result<Vec<Realm, B>, AllocError>
    ensures { IfOk result (λ names. names.items ≡ map (λ k. k.realm) known.now) }
{
    let mut names = Vec::with_capacity(heap, known.len())?;
    for k in known {
        names.push_reserved(k.realm.copy()?);
    }
    Ok(names)
}
