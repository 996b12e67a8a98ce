//! What the audit keeps of each journal while it walks over the passes.
ghost use Rattle.std.specs.Prelude.{◌≡◌, ◌↔◌, ◌<◌, true, false, length, map, replicate, All, IsTrue, IfOk, IsSomeAnd, slice_get};
ghost use Rattle.tip_journal.specs.Sheets.{CanMark, blank, marked};

use crate::{Journal, Noted, Plain};
use std::alloc::{AllocError, Global};
use std::marker::Model;

/// A mark for each entry of a journal that was found in a pass, and how far the pass came that was there last.
#[derive(Drop)]
pub(crate) struct Sheet {
    /// The place of the pass whose entry was marked last.
    pass: usize,
    /// The number of that entry.
    last: u32,
    marks: Vec<bool>,
}

impl Model for Sheet {
    ghost use Rattle.tip_journal.specs.Sheets.{Marked};

    ghost Value = { Marked };

    ghost view = { λ s. record { pass = s.pass; last = s.last; marks = s.marks.items } };
}

impl Sheet {
    pub(crate) fn blank<S: Drop, E: Drop>(
        alloc: Global,
        journal: &Journal<S, E>,
    ) -> Result<Self, AllocError>
        ensures { IfOk result (λ sheet. sheet ≡ blank journal.now) }
    {
        let marks = Vec::from_elem(alloc, false, journal.entries().len())?;
        Ok(Sheet {
            pass: 0,
            last: 0,
            marks,
        })
    }

    /// Marks an entry of a pass, unless it is not the pass's next one, does not stand in the journal, or was in a pass before.
    pub(crate) fn mark<S: Drop, E: Drop + Plain>(
        &mut self,
        journal: &Journal<S, E>,
        pass: usize,
        noted: &Noted<E>,
    ) -> bool
        requires { length self.old.marks ≡ length journal.now.entries }
        ensures can { IsTrue result ↔ CanMark journal.now.entries pass noted.now self.old }
        ensures new { IsTrue result → self.new ≡ marked pass noted.now self.old }
    {
        let last = if self.pass == pass { self.last } else { 0 };
        if noted.number <= last || !journal.stands(noted.number, &noted.entry) {
            return false;
        }
        let place = noted.number as usize - 1;
        if self.marks[place] {
            return false;
        }
        self.marks[place] = true;
        self.pass = pass;
        self.last = noted.number;
        true
    }

    /// Whether each entry is marked.
    pub(crate) fn is_full(&self) -> bool
        ensures { IsTrue result ↔ All (λ mark. mark ≡ true) self.now.marks }
    {
        self.marks.iter().all(|mark| *mark)
    }
}

/// The sheets of one realm's journals.
#[derive(Drop)]
pub(crate) struct Sheets {
    sheets: Vec<Sheet>,
}

impl Model for Sheets {
    ghost use Rattle.std.specs.Prelude.{List};
    ghost use Rattle.tip_journal.specs.Sheets.{Marked};

    ghost Value = { List Marked };

    ghost view = { λ s. s.sheets.items };
}

impl Sheets {
    ghost use Rattle.tip_journal.specs.Journals.{changed_at};

    pub(crate) fn blank<S: Drop, E: Drop>(
        alloc: Global,
        journals: &[Journal<S, E>],
    ) -> Result<Self, AllocError>
        ensures { IfOk result (λ sheets. sheets ≡ map blank journals.now) }
    {
        let mut sheets = Vec::new(alloc);
        for journal in journals {
            sheets.push(Sheet::blank(alloc, journal)?)?;
        }
        Ok(Sheets { sheets })
    }

    pub(crate) fn mark<S: Drop, E: Drop + Plain>(
        &mut self,
        place: usize,
        journal: &Journal<S, E>,
        pass: usize,
        noted: &Noted<E>,
    ) -> bool
        requires { IsSomeAnd (slice_get self.old place)
            (λ sheet. length sheet.marks ≡ length journal.now.entries) }
        ensures can { IsTrue result ↔ IsSomeAnd (slice_get self.old place)
            (CanMark journal.now.entries pass noted.now) }
        ensures new { IsTrue result → self.new ≡ changed_at place (marked pass noted.now) self.old }
    {
        let sheet = &mut self.sheets[place];
        sheet.mark(journal, pass, noted)
    }

    pub(crate) fn are_full(&self) -> bool
        ensures { IsTrue result ↔ All (λ sheet. All (λ mark. mark ≡ true) sheet.marks) self.now }
    {
        self.sheets.iter().all(|sheet| sheet.is_full())
    }
}
