//! The listing of a store, realm by realm.
ghost use Rattle.std.specs.Prelude.{◌≡◌, ◌++◌, ℕ, List, All, IsSome, OnOk, IfOk, IfErr, string_bytes};
ghost use Rattle.std.specs.List.{flat_map};
ghost use Rattle.tip_rows.specs.Keys.{Key};
ghost use Rattle.tip_rows.specs.Logs.{Log, IsSpoiled, LeavesSame};
ghost use Rattle.tip_listing.specs.Listing.{row_text, part_text, IsListing, ListsAll, ListsPart, HasBadRow, Fails};

use crate::fault::RowsFault;
use std::alloc::{AllocError, Global};
use tip_line::{Id, Realm};
use tip_rows::{Key, Loaded, Row, RowLog};

/// What is stored: each realm by name with its epoch, and then its rows by rising key, in version 2. Nothing stored changes.
pub fn listed<L: RowLog>(alloc: Global, log: &mut L) -> Result<String, RowsFault>
    ensures lists { (now : Log) → L.keeping.stands log.old now → L.keeping.is_true log.new →
        IfOk result (λ text. IsListing now (string_bytes text)) }
    ensures fault { (now : Log) → L.keeping.stands log.old now → L.keeping.is_true log.new →
        IfErr result (Fails (HasBadRow now)) }
    ensures stop { LeavesSame L.keeping log.old log.new }
    ensures same { (now : Log) → L.keeping.stands log.old now → L.keeping.stands log.new now }
    ensures truth { L.keeping.is_true log.new → L.keeping.is_true log.old }
{
    let names = log.realms()?;
    list_all(alloc, log, &names)
}

/// What is stored of each of these realms.
#[tactic(auto, using(crate::proofs::Listings::lists_all))]
fn list_all<L: RowLog>(alloc: Global, log: &mut L, names: &[Realm]) -> Result<String, RowsFault>
    ensures lists { (now : Log) → L.keeping.stands log.old now → L.keeping.is_true log.new →
        IfOk result (λ text. ListsAll now names.now (string_bytes text)) }
    ensures fault { (now : Log) → L.keeping.stands log.old now → L.keeping.is_true log.new →
        All (λ name. IsSome (now.epochs name)) names.now → IfErr result (Fails (HasBadRow now)) }
    ensures stop { LeavesSame L.keeping log.old log.new }
    ensures same { (now : Log) → L.keeping.stands log.old now → L.keeping.stands log.new now }
    ensures truth { L.keeping.is_true log.new → L.keeping.is_true log.old }
{
    let mut text = String::new(alloc);
    for name in names {
        list_part(alloc, log, name, &mut text)?;
    }
    Ok(text)
}

/// Prints what is stored of one realm.
fn list_part<L: RowLog>(
    alloc: Global,
    log: &mut L,
    name: &Realm,
    text: &mut String,
) -> Result<(), RowsFault>
    ensures lists { (now : Log) → L.keeping.stands log.old now → L.keeping.is_true log.new →
        OnOk result (ListsPart now name.now (string_bytes text.old) (string_bytes text.new)) }
    ensures fault { (now : Log) → L.keeping.stands log.old now → L.keeping.is_true log.new →
        IfErr result (Fails (IsSpoiled now name.now)) }
    ensures stop { LeavesSame L.keeping log.old log.new }
    ensures same { (now : Log) → L.keeping.stands log.old now → L.keeping.stands log.new now }
    ensures truth { L.keeping.is_true log.new → L.keeping.is_true log.old }
{
    let loaded = log.load(name)?;
    print_part(alloc, name, &loaded, text)?;
    Ok(())
}

fn print_part(
    alloc: Global,
    name: &Realm,
    loaded: &Loaded,
    text: &mut String,
) -> Result<(), AllocError>
    ensures { OnOk result (string_bytes text.new
        ≡ string_bytes text.old ++ part_text name.now loaded.now.epoch loaded.now.rows.items) }
{
    writeln!(text, "epoch {} {}", name.as_str(), loaded.epoch)?;
    print_rows(alloc, name, &loaded.rows, text)
}

fn print_rows(
    alloc: Global,
    name: &Realm,
    rows: &[(Key, Row)],
    text: &mut String,
) -> Result<(), AllocError>
    ensures { OnOk result
        (string_bytes text.new ≡ string_bytes text.old ++ flat_map (row_text name.now) rows.now) }
{
    for entry in rows {
        print_row(alloc, name, entry, text)?;
    }
    Ok(())
}

fn print_row(
    alloc: Global,
    name: &Realm,
    entry: &(Key, Row),
    text: &mut String,
) -> Result<(), AllocError>
    ensures { OnOk result
        (string_bytes text.new ≡ string_bytes text.old ++ row_text name.now entry.now) }
{
    let (key, row) = entry;
    let id = Id::of(alloc, name, key.epoch(), key.connection(), key.number())?;
    writeln!(text, "row {id} {row}")
}
