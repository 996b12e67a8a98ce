//! What is to be done for the rows of a realm that starts.
ghost use Rattle.std.specs.Prelude.{◌≡◌, ◌++◌, IfOk, OnOk};
ghost use Rattle.tip_branch.specs.Always.{Always};
ghost use Rattle.tip_duties.specs.Duties.{called, calls_from, calls_in, identified, is_resumed, resumed, resumed_in};

use std::alloc::{AllocError, Global};
use tip_line::{Address, Id};
use tip_machine::Purpose;
use tip_recovery::Unfinished;
use tip_rows::Row;

/// A connection that is to be opened to another manager, once.
#[derive(Drop)]
pub struct Dial {
    pub address: Address,
    pub purpose: Purpose,
}

/// What is to be done for the rows of a realm that starts, be it with the process or alone.
#[derive(Drop)]
pub struct Duties {
    /// The transactions of which what is left is to be tried again.
    pub resumes: Vec<Id>,
    /// The managers that are to be called.
    pub dials: Vec<Dial>,
}

impl Duties {
    /// What is to be done for these rows.
    pub fn of(alloc: Global, rows: &[Unfinished]) -> Result<Duties, AllocError>
        requires { Always }
        ensures resumes { IfOk result (λ duties. duties.resumes.items ≡ resumed rows.now) }
        ensures dials { IfOk result (λ duties. duties.dials.items ≡ called rows.now) }
    {
        let mut resumes = Vec::new(alloc);
        let mut dials = Vec::new(alloc);
        for row in rows {
            add_resume(&mut resumes, row)?;
            add_calls(&mut dials, row)?;
        }
        Ok(Duties { resumes, dials })
    }
}

/// Adds a row's transaction, if what is left of it is to be tried again.
fn add_resume(resumes: &mut Vec<Id>, row: &Unfinished) -> Result<(), AllocError>
    ensures { OnOk result (resumes.new.items ≡ resumes.old.items ++ resumed_in row.now) }
{
    if is_resumed(row.row()) {
        resumes.push(row.id().copy()?)?;
    }
    Ok(())
}

/// Whether what is left of a row's transaction is to be tried again.
fn is_resumed(row: &Row) -> bool
    ensures { result ≡ is_resumed row.now }
{
    match row {
        Row::Prepared { .. } => false,
        Row::Committed {
            branches,
            subordinates,
        } => !branches.as_slice().is_empty() || subordinates.as_slice().is_empty(),
    }
}

/// Adds the calls that a row wants.
fn add_calls(dials: &mut Vec<Dial>, row: &Unfinished) -> Result<(), AllocError>
    ensures { OnOk result
        (dials.new.items ≡ dials.old.items ++ calls_in (identified row.now) row.now.row) }
{
    match row.row() {
        Row::Prepared { address, .. } => {
            dials.push(Dial {
                address: address.copy()?,
                purpose: Purpose::Query(row.id().copy()?),
            })?;
            Ok(())
        }
        Row::Committed { subordinates, .. } => {
            add_reconnects(dials, row.id(), subordinates.as_slice())
        }
    }
}

/// Adds a call for each of these subordinates of a transaction.
fn add_reconnects(
    dials: &mut Vec<Dial>,
    id: &Id,
    subordinates: &[(Address, Id)],
) -> Result<(), AllocError>
    ensures { OnOk result
        (dials.new.items ≡ dials.old.items ++ calls_from 1 id.now subordinates.now) }
{
    let mut number = 0u32;
    for (address, _) in subordinates {
        number = number.checked_add(1).ok_or(AllocError)?;
        dials.push(Dial {
            address: address.copy()?,
            purpose: Purpose::Reconnect(id.copy()?, number),
        })?;
    }
    Ok(())
}
