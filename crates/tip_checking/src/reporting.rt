//! All that is wrong with a store, told line by line.
ghost use Rattle.std.specs.Prelude.{◌≡◌, ◌&&◌, IfOk, is_none};
ghost use Rattle.std.specs.List.{list_all};
ghost use Rattle.tip_checking.specs.Findings.{are_right_realms, are_right_rows, is_right, wrong_realm, wrong_row};

use crate::contents::{Contents, Known, Stored};
use crate::realms::wrong_realm;
use crate::rows::wrong_row;
use std::alloc::{AllocError, Global};

/// Tells what is wrong with realms, and then what is wrong with rows, a line each. Whether nothing is?
pub fn report(alloc: Global, contents: &Contents, told: &mut String) -> Result<bool, AllocError>
    ensures { IfOk result (λ right. right ≡ is_right contents.now) }
{
    let are_realms = report_realms(&contents.realms, told)?;
    let are_rows = report_rows(alloc, contents, told)?;
    Ok(are_realms && are_rows)
}

fn report_realms(realms: &[Known], told: &mut String) -> Result<bool, AllocError>
    ensures { IfOk result (λ right. right ≡ are_right_realms realms.now) }
{
    let mut right = true;
    for realm in realms {
        let is_right = report_realm(realm, told)?;
        right = right && is_right;
    }
    Ok(right)
}

fn report_realm(realm: &Known, told: &mut String) -> Result<bool, AllocError>
    ensures { IfOk result (λ right. right ≡ is_none (wrong_realm realm.now)) }
{
    match wrong_realm(realm) {
        Some(wrong) => {
            writeln!(told, "wrong realm {}: {wrong}", realm.name.as_str())?;
            Ok(false)
        }
        None => Ok(true),
    }
}

fn report_rows(alloc: Global, contents: &Contents, told: &mut String) -> Result<bool, AllocError>
    ensures { IfOk result (λ right.
        right ≡ are_right_rows contents.now.realms.items contents.now.rows.items) }
{
    let realms = contents.realms.as_slice();
    let mut right = true;
    for row in contents.rows.as_slice() {
        let is_right = report_row(alloc, realms, row, told)?;
        right = right && is_right;
    }
    Ok(right)
}

fn report_row(
    alloc: Global,
    realms: &[Known],
    row: &Stored,
    told: &mut String,
) -> Result<bool, AllocError>
    ensures { IfOk result (λ right. right ≡ is_none (wrong_row realms.now row.now)) }
{
    match wrong_row(alloc, realms, row)? {
        Some(wrong) => {
            let (epoch, connection, number) = (row.epoch, row.connection, row.number);
            let realm = row.realm.as_str();
            writeln!(
                told,
                "wrong row {realm}-{epoch}-{connection}-{number}: {wrong}"
            )?;
            Ok(false)
        }
        None => Ok(true),
    }
}
