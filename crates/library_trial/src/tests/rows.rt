//! Rows in memory on a heap of a fixed size, where each growth of a change is refused in turn and then made.
use super::samples::{Sample, is_put_and_removed, make_sample, stored};
use linked_list_allocator::LocalHeap;
use std::alloc::{AllocError, Global};
use std::test::Fail;
use tip_line::Realm;
use tip_rows::{Key, MemRows, Refused, Row, RowLog};

/// How many octets the heap has.
const HEAP_LEN: usize = 8192;

/// In how many octets a heap hands out memory, at least.
const UNIT: usize = 16;

/// How many units are enough for each call.
const ENOUGH: usize = 128;

/// A row whose two lists grow more than once as it is read.
const LONG: &str = "2 P a.x s1 1:a,2:b,3:c,4:d,5:e p.x p1 p.x p2 p.x p3 p.x p4 p.x p5";

/// Whether a call is refused in little room, and made in enough, where it says in how many units it is made.
fn is_refused_in_little<F: Fn(usize) -> Result<bool, Fail>>(is_made: F) -> Result<bool, Fail>
    requires { F.IsAlwaysCallable is_made }
{
    let mut refused = 0usize;
    for units in 1..=ENOUGH {
        if !is_made(units)? {
            refused = refused.wrapping_add(1);
        }
    }
    Ok(0 < refused && refused < ENOUGH)
}

/// All that is left of a heap, in blocks of half the length each time.
fn rest_of<'a>(
    alloc: Global,
    heap: &'a LocalHeap,
) -> Result<Vec<Vec<u8, &'a LocalHeap>>, AllocError> {
    let mut blocks = Vec::new(alloc);
    for halvings in 0..13u32 {
        if let Ok(block) = Vec::with_capacity(heap, HEAP_LEN >> halvings) {
            blocks.push(block)?;
        }
    }
    Ok(blocks)
}

/// The keys and texts of a realm's rows.
fn texts_of<L: RowLog>(
    alloc: Global,
    rows: &mut L,
    realm: &Realm,
) -> Result<Vec<(Key, String)>, Fail> {
    let mut texts = Vec::new(alloc);
    for (key, row) in rows.load(realm)?.rows {
        texts.push((key, row.print(alloc)?))?;
    }
    Ok(texts)
}

/// Puts four rows of a realm, with no list of their own.
fn put_four<L: RowLog>(alloc: Global, rows: &mut L, realm: &Realm) -> Result<(), Fail> {
    let row = Row::parse(alloc, b"2 C -")?;
    for number in 5..9u32 {
        let key = Key::new(1, 9, number).ok_or("a key")?;
        rows.put(realm, key, &row)?;
    }
    Ok(())
}

/// Whether a row more is refused; then the rows and the heap stay as they were.
fn refuses<L: RowLog>(
    alloc: Global,
    heap: &LocalHeap,
    rows: &mut L,
    sample: &Sample,
) -> Result<bool, Fail> {
    let texts = texts_of(alloc, rows, &sample.realm)?;
    let used = heap.used();
    if rows.put(&sample.realm, sample.key, &sample.row).is_ok() {
        return Ok(false);
    }
    if texts_of(alloc, rows, &sample.realm)? != texts || rows.faults() != 1 || heap.used() != used {
        return Err(Fail::from("the refusal has changed something"));
    }
    Ok(true)
}

/// Whether four rows, with this much room on their heap, take a row more; if not, they stand, and take it once there is room.
fn is_put_at_once<L: RowLog>(
    alloc: Global,
    heap: &LocalHeap,
    rows: &mut L,
    sample: &Sample,
    units: usize,
) -> Result<bool, Fail> {
    put_four(alloc, rows, &sample.realm)?;
    let others = heap.free().saturating_sub(units.wrapping_mul(UNIT));
    let rest = Vec::<u8, &LocalHeap>::with_capacity(heap, others)?;
    let is_refused = refuses(alloc, heap, rows, sample)?;
    drop(rest);
    if is_refused {
        rows.put(&sample.realm, sample.key, &sample.row)?;
    }
    Ok(!is_refused)
}

/// The same of rows on a heap of their own.
fn is_put_on_a_heap(alloc: Global, sample: &Sample, units: usize) -> Result<bool, Fail> {
    let heap = LocalHeap::new(alloc, HEAP_LEN)?;
    let mut rows = MemRows::new_in(alloc, &heap);
    is_put_at_once(alloc, &heap, &mut rows, sample, units)
}

#[test]
fn a_refused_row_leaves_all_rows(rt: HostRuntime) -> Result<(), Fail> {
    let alloc = rt.alloc();
    for number in [1, 6] {
        let sample = make_sample(alloc, number, LONG)?;
        assert!(rt;
            is_refused_in_little(|units| is_put_on_a_heap(alloc, &sample, units))?,
            "{number}"
        );
    }
    Ok(())
}

/// Whether a row more is refused, and the rise of an epoch is not.
fn refuses_a_row_alone<L: RowLog>(rows: &mut L, sample: &Sample) -> bool {
    rows.put(&sample.realm, sample.key, &sample.row) == Err(Refused)
        && rows.raise_epoch(&sample.realm) == Ok(())
}

fn is_full(alloc: Global, sample: &Sample) -> Result<bool, Fail> {
    let heap = LocalHeap::new(alloc, HEAP_LEN)?;
    let mut rows = MemRows::new_in(alloc, &heap);
    rows.start_at(&sample.realm, 7)?;
    let _rest = rest_of(alloc, &heap)?;
    Ok(refuses_a_row_alone(&mut rows, sample) && stored(&mut rows, &sample.realm)? == (8, 0))
}

#[test]
fn a_full_heap_refuses_growths_alone(rt: HostRuntime) -> Result<(), Fail> {
    let sample = make_sample(rt.alloc(), 1, "2 C -")?;
    assert!(rt; is_full(rt.alloc(), &sample)?);
    Ok(())
}

fn know_north(alloc: Global, rows: &mut MemRows<&LocalHeap>) -> Result<(), Fail> {
    let north = Realm::new(alloc, b"north")?;
    Ok(rows.know(&north)?)
}

fn has_a_place(alloc: Global) -> Result<bool, Fail> {
    let south = Realm::new(alloc, b"south")?;
    let heap = LocalHeap::new(alloc, HEAP_LEN)?;
    let mut rows = MemRows::new_in(alloc, &heap);
    know_north(alloc, &mut rows)?;
    let _rest = rest_of(alloc, &heap)?;
    Ok(rows.know(&south).is_ok())
}

#[test]
fn a_full_heap_takes_a_realm_for_which_there_is_a_place(rt: HostRuntime) -> Result<(), Fail> {
    assert!(rt; has_a_place(rt.alloc())?);
    Ok(())
}

fn is_replaced(alloc: Global, sample: &Sample) -> Result<bool, Fail> {
    let heap = LocalHeap::new(alloc, HEAP_LEN)?;
    let mut rows = MemRows::new_in(alloc, &heap);
    rows.put(&sample.realm, sample.key, &sample.row)?;
    let _rest = rest_of(alloc, &heap)?;
    Ok(is_put_and_removed(&mut rows, sample))
}

#[test]
fn a_full_heap_takes_a_row_in_place_of_another(rt: HostRuntime) -> Result<(), Fail> {
    let sample = make_sample(rt.alloc(), 1, "2 C -")?;
    assert!(rt; is_replaced(rt.alloc(), &sample)?);
    Ok(())
}
