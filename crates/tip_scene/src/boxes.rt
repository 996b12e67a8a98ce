//! The boxes that come with a line.
ghost use Rattle.std.specs.Prelude.{◌≡◌, ◌+◌, ◌++◌, ◌∷◌, [], ◌<◌, length, map, IfOk, IfSome, IsErrOf, OnOk};
ghost use Rattle.tip_actor.specs.Acting.{willing, willing_boxes};
ghost use Rattle.tip_actor.specs.declared.fault.ActFault.TheVariants.{Store};
ghost use Rattle.tip_branch.specs.Lots.{AreIn, badges_of};
ghost use Rattle.tip_branch.specs.Members.{untold};
ghost use Rattle.tip_branch.specs.declared.branch.Phase.TheVariants.{Active};
ghost use Rattle.tip_scene.specs.Boxes.{AreWilling, boxes_for, branch_count, row_count};

use std::alloc::{AllocError, Global};
use tip_actor::ActFault;
use tip_branch::{Branch, Fresh, HeldFresh, HeldPrepared, Phase, Plan, Prepared};
use tip_recovery::{Recovery, Unfinished, branches_of};
use tip_rows::{Key, Row};

/// The boxes that a line wants: a letter for each that it names, and willing ones for the rows of realms that start.
#[derive(Drop)]
pub struct Wanted {
    pub kinds: Vec<u8>,
    pub willing: usize,
}

impl Wanted {
    /// So many willing boxes alone.
    pub fn of_rows(alloc: Global, willing: usize) -> Wanted
        ensures kinds { result.kinds.items ≡ [] }
        ensures willing { result.willing ≡ willing }
    {
        Wanted {
            kinds: Vec::new(alloc),
            willing,
        }
    }

    /// Boxes of these letters, and so many willing ones.
    pub(crate) fn new(alloc: Global, letters: &[u8], willing: usize) -> Result<Wanted, AllocError>
        ensures kinds { IfOk result (λ wanted. wanted.kinds.items ≡ letters.now) }
        ensures willing { IfOk result (λ wanted. wanted.willing ≡ willing) }
    {
        let mut kinds = Vec::new(alloc);
        kinds.extend_from_slice(letters)?;
        Ok(Wanted { kinds, willing })
    }
}

/// One box more, of a branch that was told nothing, behind those that are there. Whoever makes boxes knows by it what each of
/// them holds.
pub fn add_box(
    boxes: &mut Vec<Box<dyn Branch + Send>>,
    plan: Plan,
    phase: Phase,
    branch: Box<dyn Branch + Send>,
) -> Result<(), AllocError>
    requires { standing branch ≡ untold phase (record { plan = plan; mark = 0 }) }
    ensures { OnOk result (map standing boxes.new.items
        ≡ map standing boxes.old.items ++ untold phase (record { plan = plan; mark = 0 }) ∷ []) }
{
    boxes.push(branch)?;
    Ok(())
}

/// So many, and one for each branch of these rows; none where they are more than there can be boxes in memory.
pub(crate) fn add_branches(count: usize, rows: &[(Key, Row)]) -> Option<usize>
    ensures { IfSome result (λ sum. sum ≡ count + boxes_for rows.now) }
{
    let mut sum = count;
    for (_, row) in rows {
        sum = sum.checked_add(branches_of(row).len())?;
    }
    Some(sum)
}

/// Boxes that no transaction has yet.
pub(crate) fn fresh(
    alloc: Global,
    boxes: Vec<Box<dyn Branch + Send>>,
) -> Result<HeldFresh, AllocError>
    requires { AreIn Active (map standing boxes.items) }
    ensures { IfOk result (λ held. held ≡ badges_of (map standing boxes.items)) }
{
    let Ok(fresh) = Fresh::of(boxes) else {
        unreachable!()
    };
    match fresh.into_lot(alloc) {
        Ok(lot) => Ok(HeldFresh::of(lot)),
        Err(_) => Err(AllocError),
    }
}

/// Willing boxes for the branches of each row of each realm, out of these. `Store` where they are too few.
pub(crate) fn dealt_to_all(
    alloc: Global,
    pool: &mut Vec<Box<dyn Branch + Send>>,
    realms: &[Recovery],
) -> Result<Vec<Vec<HeldPrepared>>, ActFault>
    requires { AreWilling (map standing pool.old.items) }
    ensures dealt { IfOk result (λ all. map (λ lots. lots.items) all.items
        ≡ map (λ recovery. map (λ row. willing_boxes row.row) recovery.rows) realms.now) }
    ensures few { IsErrOf result Store → length pool.old.items < branch_count realms.now }
    ensures left { OnOk result (length pool.new.items + branch_count realms.now
        ≡ length pool.old.items) }
    ensures willing { OnOk result (AreWilling (map standing pool.new.items)) }
{
    let mut all = Vec::with_capacity(alloc, realms.len())?;
    for recovery in realms {
        all.push(dealt_to_rows(alloc, pool, recovery.rows())?)?;
    }
    Ok(all)
}

/// Willing boxes for the branches of each row, out of these. `Store` where they are too few.
pub(crate) fn dealt_to_rows(
    alloc: Global,
    pool: &mut Vec<Box<dyn Branch + Send>>,
    rows: &[Unfinished],
) -> Result<Vec<HeldPrepared>, ActFault>
    requires { AreWilling (map standing pool.old.items) }
    ensures dealt { IfOk result
        (λ lots. lots.items ≡ map (λ row. willing_boxes row.row) rows.now) }
    ensures few { IsErrOf result Store → length pool.old.items < row_count rows.now }
    ensures left { OnOk result (length pool.new.items + row_count rows.now
        ≡ length pool.old.items) }
    ensures willing { OnOk result (AreWilling (map standing pool.new.items)) }
{
    let mut lots = Vec::with_capacity(alloc, rows.len())?;
    for row in rows {
        lots.push(dealt(alloc, pool, row.branches().len())?)?;
    }
    Ok(lots)
}

/// So many willing boxes, out of these. `Store` where they are too few: the rows that want them are not those for which they were
/// made.
fn dealt(
    alloc: Global,
    pool: &mut Vec<Box<dyn Branch + Send>>,
    count: usize,
) -> Result<HeldPrepared, ActFault>
    requires { AreWilling (map standing pool.old.items) }
    ensures dealt { IfOk result (λ lot. lot ≡ willing count) }
    ensures few { IsErrOf result Store → length pool.old.items < count }
    ensures left { OnOk result (length pool.new.items + count ≡ length pool.old.items) }
    ensures willing { OnOk result (AreWilling (map standing pool.new.items)) }
{
    let mut boxes = Vec::with_capacity(alloc, count)?;
    for _ in 0..count {
        let Some(branch) = pool.pop() else {
            return Err(ActFault::Store);
        };
        boxes.push(branch)?;
    }
    Ok(prepared(alloc, boxes)?)
}

/// Willing boxes as those of a transaction that is taken up again.
fn prepared(alloc: Global, boxes: Vec<Box<dyn Branch + Send>>) -> Result<HeldPrepared, AllocError>
    requires { AreWilling (map standing boxes.items) }
    ensures { IfOk result (λ lot. lot ≡ willing (length boxes.items)) }
{
    let Ok(prepared) = Prepared::of(boxes) else {
        unreachable!()
    };
    match prepared.into_lot(alloc) {
        Ok(lot) => Ok(HeldPrepared::of(lot)),
        Err(_) => Err(AllocError),
    }
}
