//! Boxes for the rows of realms that start.
use std::alloc::{AllocError, Global};
use tip_branch::{Branch, Fresh, HeldFresh, HeldPrepared, Prepared};
use tip_recovery::{Recovery, Unfinished};

/// How many branches the rows of these realms have.
pub fn count_branches(realms: &[Recovery]) -> usize {
    let mut count = 0usize;
    for recovery in realms {
        count = count.saturating_add(count_in(recovery.rows()));
    }
    count
}

/// How many branches these rows have.
pub fn count_in(rows: &[Unfinished]) -> usize {
    let mut count = 0usize;
    for row in rows {
        count = count.saturating_add(row.branches().len());
    }
    count
}

/// For each realm, boxes for its rows, out of these.
pub fn dealt_to_all(
    alloc: Global,
    pool: &mut Vec<Box<dyn Branch + Send>>,
    realms: &[Recovery],
) -> Result<Vec<Vec<HeldPrepared>>, AllocError> {
    let mut all = Vec::with_capacity(alloc, realms.len())?;
    for recovery in realms {
        all.push(dealt_to_rows(alloc, pool, recovery.rows())?)?;
    }
    Ok(all)
}

/// For each row, a box for each of its branches, out of these.
pub fn dealt_to_rows(
    alloc: Global,
    pool: &mut Vec<Box<dyn Branch + Send>>,
    rows: &[Unfinished],
) -> Result<Vec<HeldPrepared>, AllocError> {
    let mut lots = Vec::with_capacity(alloc, rows.len())?;
    for row in rows {
        lots.push(dealt(alloc, pool, row.branches().len())?)?;
    }
    Ok(lots)
}

/// So many boxes, out of these.
fn dealt(
    alloc: Global,
    pool: &mut Vec<Box<dyn Branch + Send>>,
    count: usize,
) -> Result<HeldPrepared, AllocError> {
    let mut boxes = Vec::with_capacity(alloc, count)?;
    for _ in 0..count {
        boxes.push(pool.pop().ok_or(AllocError)?)?;
    }
    let prepared = Prepared::of(boxes).map_err(|_| AllocError)?;
    let lot = prepared.into_lot(alloc).map_err(|_| AllocError)?;
    Ok(HeldPrepared::of(lot))
}

/// The boxes of a connection, which no transaction has yet.
pub fn fresh(alloc: Global, boxes: Vec<Box<dyn Branch + Send>>) -> Result<HeldFresh, AllocError> {
    let fresh = Fresh::of(boxes).map_err(|_| AllocError)?;
    let lot = fresh.into_lot(alloc).map_err(|_| AllocError)?;
    Ok(HeldFresh::of(lot))
}
