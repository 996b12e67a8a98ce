//! Values of the greatest lengths, and many of them.
ghost use Rattle.std.specs.Prelude.{◌%◌, ◌/◌, ◌==◌, None, Some, if◌then◌else◌, ⊤};

use std::alloc::{AllocError, Global};
use std::test::Fail;
use tip_line::{Address, Command, Id, Realm, Word};
use tip_rows::{Key, MemRows, Refused, Row, RowLog};
use tip_table::{Linked, Table};
use tip_txn::{Part, Txn};

/// How many octets a word may have.
const LONGEST_WORD: usize = 1024;

/// How many items are many.
const MANY: usize = 1500;

/// A text of this form, with a word of the greatest length in place of each `@`.
fn long(alloc: Global, form: &str) -> Result<String, AllocError> {
    let mut text = String::new(alloc);
    for letter in form.chars() {
        let count = if letter == '@' { LONGEST_WORD } else { 1 };
        for _ in 0..count {
            text.push(letter)?;
        }
    }
    Ok(text)
}

#[test]
fn the_longest_commands_are_read_and_printed(rt: HostRuntime) -> Result<(), Fail> {
    let alloc = rt.alloc();
    let text = long(alloc, "PULL @ @")?;
    let command = Command::parse(alloc, text.as_bytes())?;
    assert_eq!(rt; command.print(alloc)?, text);
    Ok(())
}

/// The text of a row in doubt of the greatest words, with eight branches and many subordinates.
fn long_row(alloc: Global) -> Result<String, AllocError> {
    let mut text = String::from_str(alloc, "2 P @ @ 1:a234567890123456")?;
    for number in 2..9 {
        text.push_str(format!(in alloc; ",{number}:b{number}34567890123456")?.as_str())?;
    }
    for number in 0..100 {
        text.push_str(format!(in alloc; " p{number} @")?.as_str())?;
    }
    long(alloc, &text)
}

#[test]
fn long_rows_are_read_and_printed(rt: HostRuntime) -> Result<(), Fail> {
    let alloc = rt.alloc();
    let text = long_row(alloc)?;
    let row = Row::parse(alloc, text.as_bytes())?;
    assert_eq!(rt; row.print(alloc)?, text);
    Ok(())
}

/// Puts a row at a hundred keys of a realm.
fn put_many(rows: &mut MemRows, realm: &Realm, row: &Row) -> Result<(), Refused> {
    for number in 1..=100u32 {
        match Key::new(1, 9, number) {
            Some(key) => rows.put(realm, key, row)?,
            None => return Err(Refused),
        }
    }
    Ok(())
}

#[test]
fn many_long_rows_are_kept(rt: HostRuntime) -> Result<(), Fail> {
    let alloc = rt.alloc();
    let text = long_row(alloc)?;
    let row = Row::parse(alloc, text.as_bytes())?;
    let north = Realm::new(alloc, b"north")?;
    let mut rows = MemRows::new(alloc);
    put_many(&mut rows, &north, &row)?;
    assert_eq!(rt; rows.load(&north)?.rows.len(), 100);
    Ok(())
}

/// An item, and how many were made before it. Those that are even are linked to half of it.
#[derive(Drop)]
struct Counted(usize);

impl Linked for Counted {
    ghost link = { λ item. if (item.0 % 2) == 0 then Some (item.0 / 2) else None };

    ghost fits = { λ _. ⊤ };

    fn link(&self) -> Option<u128> {
        if self.0 % 2 == 0 {
            Some(self.0 as u128 / 2)
        } else {
            None
        }
    }
}

#[test]
fn tables_grow(rt: HostRuntime) -> Result<(), Fail> {
    let mut table = Table::new(rt.alloc());
    for number in 0..MANY {
        table.reserve()?;
        table.add(number % 2, Counted(number));
        table.relink();
    }
    assert_eq!(rt; (table.count(0), table.count(1)), (MANY / 2, MANY / 2));
    assert_eq!(rt; table.linked(0, Some(7)).count(), 1);
    Ok(())
}

#[test]
fn transactions_grow(rt: HostRuntime) -> Result<(), Fail> {
    let alloc = rt.alloc();
    let mut txn = Txn::new(alloc);
    let address = Address::new(alloc, b"p.x")?;
    for _ in 0..MANY {
        txn.reserve()?;
        txn.enlist(address.copy()?, None)?;
    }
    assert!(rt; txn.part(Part::at(MANY)).is_some());
    Ok(())
}
