//! What a realm begins an epoch with.
ghost use Rattle.std.specs.Prelude.{◌≡◌, length, map, true, false, IfOk};
ghost use Rattle.tip_branch.specs.Always.{Always};
ghost use Rattle.tip_honest.specs.Honesty.{are_boxed};
ghost use Rattle.tip_journal.specs.Retiring.{none_retired};
ghost use Rattle.tip_recovery.specs.Adopting.{are_adopted, loaded, waits};
ghost use Rattle.tip_rows.specs.Rows.{branches_of};
ghost use Rattle.tip_host.specs.Openings.{AreTaken, opened};

use std::alloc::{AllocError, Global};
use std::marker::Model;
use tip_honest::{Badges, Entry};
use tip_journal::{Journals, Retired};
use tip_kept::KeptRows;
use tip_recovery::{Recovery, Unfinished};
use tip_rows::{Key, Row};

/// A stored row that a realm took up, and what the boxes are known by that were adopted for its branches.
#[derive(Drop)]
pub struct OpenedRow {
    key: Key,
    row: Row,
    boxes: Badges,
}

impl Model for OpenedRow {
    ghost use Rattle.tip_machine.specs.Recovery.{Loaded};

    ghost Value = { Loaded };

    ghost view = { λ o. record { key = o.key; row = o.row; boxes = o.boxes } };
}

impl OpenedRow {
    /// The row that is taken up, copied.
    fn of(alloc: Global, unfinished: &Unfinished) -> Result<OpenedRow, AllocError>
        ensures same { IfOk result (λ opened. opened ≡ loaded unfinished.now) }
        ensures boxed { waits unfinished.now ≡ false → IfOk result
            (λ opened. length opened.boxes ≡ length (branches_of unfinished.now.row)) }
    {
        Ok(OpenedRow {
            key: unfinished.key(),
            row: unfinished.row().copy(alloc)?,
            boxes: Badges::new(unfinished.badges(alloc)?),
        })
    }
}

/// The stored rows with which a realm began an epoch, by rising key. It is seen as a list.
#[derive(Drop)]
pub struct Opening {
    rows: Vec<OpenedRow>,
}

impl Model for Opening {
    ghost use Rattle.std.specs.Prelude.{List};
    ghost use Rattle.tip_machine.specs.Recovery.{Loaded};

    ghost Value = { List Loaded };

    ghost view = { λ o. o.rows.items };
}

impl Opening {
    /// What a realm begins with that takes up these rows, copied.
    pub(crate) fn of(alloc: Global, rows: &[Unfinished]) -> Result<Opening, AllocError>
        requires { Always }
        ensures same { IfOk result (λ opening. opening ≡ map loaded rows.now) }
        ensures boxed { are_adopted rows.now ≡ true →
            IfOk result (λ opening. are_boxed opening ≡ true) }
    {
        let mut opened = Vec::with_capacity(alloc, rows.len())?;
        for row in rows {
            opened.push(OpenedRow::of(alloc, row)?)?;
        }
        Ok(Opening { rows: opened })
    }

    pub fn as_slice(&self) -> &[OpenedRow]
        ensures { result.now ≡ self.now }
    {
        &self.rows
    }
}

/// A journal for each realm, which begins with the realm's rows and boxes, how the rows are stored, and that no journal was let go.
pub(crate) fn open_all(
    alloc: Global,
    realms: &[Recovery],
) -> Result<(Journals<Opening, Entry>, KeptRows, Vec<Retired>), AllocError>
    requires { Always }
    ensures journals { IfOk result (λ books. books.0 ≡ map opened realms.now) }
    ensures rows { IfOk result (λ books. AreTaken (length realms.now) books.1 realms.now) }
    ensures count { IfOk result (λ books. length books.1 ≡ length realms.now) }
    ensures retired { IfOk result
        (λ books. books.2.items ≡ map (λ recovery. none_retired) realms.now) }
{
    let mut journals = Journals::new(alloc);
    let mut rows = KeptRows::new(alloc);
    let mut retired = Vec::new(alloc);
    for recovery in realms {
        let opening = Opening::of(alloc, recovery.rows())?;
        journals.declare(alloc, recovery.epoch(), opening)?;
        rows.declare(alloc, recovery.rows())?;
        retired.push(Retired::none())?;
    }
    Ok((journals, rows, retired))
}
