//! The text in which a row is stored.
ghost use Rattle.std.specs.Prelude.{◌≡◌, ◌⊎◌, Ok, Err, IfOk, string_bytes};
ghost use Rattle.tip_rows.specs.Rows.{written, Spells};
ghost use Rattle.tip_rows.specs.declared.row.Row.{Row};
ghost use Rattle.tip_rows.specs.declared.text.RowFault.TheVariants.{BadRow, Memory};

use crate::branches::Branches;
use crate::label::{Label, LabelFault};
use crate::reading::row_of;
use crate::row::Row;
use crate::subordinates::Subordinates;
use std::alloc::{AllocError, Allocator, Global};
use std::fmt;
use thiserror::Error;
use tip_line::WordFault;

/// Why a text is read as no row.
#[derive(Clone, Copy, Debug, PartialEq, Eq, Error)]
pub enum RowFault {
    #[error("no row")]
    BadRow,
    #[error("out of memory")]
    Memory,
}

impl From<WordFault> for RowFault {
    ghost use Rattle.std.specs.Prelude.{◌≡◌};
    ghost use Rattle.tip_rows.specs.Reading.{of_word_fault};

    ghost from_gives = { λ fault f. f ≡ of_word_fault fault };

    fn from(fault: WordFault) -> RowFault {
        match fault {
            WordFault::NotWord => RowFault::BadRow,
            WordFault::Memory => RowFault::Memory,
        }
    }
}

impl From<LabelFault> for RowFault {
    ghost use Rattle.std.specs.Prelude.{◌≡◌};
    ghost use Rattle.tip_rows.specs.Reading.{of_label_fault};

    ghost from_gives = { λ fault f. f ≡ of_label_fault fault };

    fn from(fault: LabelFault) -> RowFault {
        match fault {
            LabelFault::BadLabel => RowFault::BadRow,
            LabelFault::Memory => RowFault::Memory,
        }
    }
}

impl Row {
    /// The one text that is written, in version 2, on this heap.
    pub fn print<A: Allocator>(&self, heap: A) -> Result<String<A>, AllocError>
        ensures { IfOk result (λ text. string_bytes text ≡ written self.now) }
    {
        self.to_string(heap)
    }

    /// The row that a text is, in either version.
    pub fn parse(alloc: Global, text: &[u8]) -> Result<Row, RowFault>
        ensures read { IfOk result (λ row. Spells row text.now) }
        ensures only { (row : Row) → Spells row text.now →
            (result ≡ Ok row) ⊎ (result ≡ Err Memory) }
        ensures bad { result ≡ Err BadRow → (row : Row) → ¬ Spells row text.now }
    {
        row_of(alloc, text)
    }
}

impl fmt::Display for Row {
    ghost use Rattle.std.specs.Prelude.{Some};
    ghost use Rattle.tip_rows.specs.Rows.{written};

    ghost output = { λ r. Some (written r) };

    fn fmt<W: fmt::Write>(&self, f: &mut fmt::Formatter<W>) -> fmt::Result {
        match self {
            Row::Prepared {
                address,
                superior,
                branches,
                subordinates,
            } => write!(f, "2 P {address} {superior} {branches}{subordinates}"),
            Row::Committed {
                branches,
                subordinates,
            } => write!(f, "2 C {branches}{subordinates}"),
        }
    }
}

/// One word: number, colon and label of each branch, with commas, or a dash where there is none.
impl<A: Allocator> fmt::Display for Branches<A> {
    ghost use Rattle.std.specs.Prelude.{Some};
    ghost use Rattle.tip_rows.specs.Rows.{branches_word};

    ghost output = { λ b. Some (branches_word b) };

    fn fmt<W: fmt::Write>(&self, f: &mut fmt::Formatter<W>) -> fmt::Result {
        match self.as_slice() {
            [] => f.write_str("-"),
            [(number, label), rest @ ..] => {
                let others = Others(rest);
                write!(f, "{number}:{label}{others}")
            }
        }
    }
}

/// Two words for each subordinate, with a space before each word.
impl<A: Allocator> fmt::Display for Subordinates<A> {
    ghost use Rattle.std.specs.Prelude.{Some};
    ghost use Rattle.tip_rows.specs.Rows.{subordinates_text};

    ghost output = { λ s. Some (subordinates_text s) };

    fn fmt<W: fmt::Write>(&self, f: &mut fmt::Formatter<W>) -> fmt::Result {
        for (address, id) in self.as_slice() {
            write!(f, " {address} {id}")?;
        }
        Ok(())
    }
}

/// Branches behind the first, with a comma before each.
#[derive(Drop)]
struct Others<'a>(&'a [(u8, Label)]);

impl fmt::Display for Others<'_> {
    ghost use Rattle.std.specs.Prelude.{Some};
    ghost use Rattle.tip_rows.specs.Rows.{others_text};

    ghost output = { λ o. Some (others_text o.0.now) };

    fn fmt<W: fmt::Write>(&self, f: &mut fmt::Formatter<W>) -> fmt::Result {
        for (number, label) in self.0 {
            write!(f, ",{number}:{label}")?;
        }
        Ok(())
    }
}
