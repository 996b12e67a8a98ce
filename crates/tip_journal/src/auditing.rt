//! Whether the entries of all journals are those of the passes.
ghost use Rattle.std.specs.Prelude.{◌≡◌, ◌↔◌, ℕ, true, false, length, map, All, IsTrue, IfOk, OnOk};
ghost use Rattle.tip_journal.specs.Audit.{AreAudited, IsAudited, report_of};
ghost use Rattle.tip_journal.specs.Journals.{IsHistory, Names};
ghost use Rattle.tip_journal.specs.Pass.{is_of};
ghost use Rattle.tip_journal.specs.Sheets.{CanMark, CanMarkIn, HaveSheets, blank, marked, marked_at};

use crate::sheet::{Sheet, Sheets};
use crate::{Journal, Journals, Noted, Pass, Plain};
use std::alloc::{AllocError, Global};
use thiserror::Error;

/// What the audit found of one journal, where all are right.
#[derive(Clone, Copy)]
pub struct Reported {
    /// The realm's place in the order of declaration.
    pub realm: usize,
    pub epoch: u32,
    /// How many entries it has.
    pub entries: u32,
}

/// Why there is no report.
#[derive(Clone, Copy, Debug, PartialEq, Eq, Error)]
pub enum AuditFault {
    #[error("the passes do not have the journals' entries")]
    PassMismatch,
    #[error("out of memory")]
    Memory,
}

impl From<AllocError> for AuditFault {
    ghost use Rattle.std.specs.Prelude.{◌≡◌};
    ghost use Rattle.tip_journal.specs.declared.auditing.AuditFault.TheVariants.{Memory};

    ghost from_gives = { λ _ fault. fault ≡ Memory };

    fn from(_: AllocError) -> AuditFault {
        AuditFault::Memory
    }
}

/// Whether the passes have the journals' entries, and then how many each journal has, by declaration, then by epoch.
///
/// It walks once over all passes, and keeps a mark for each entry. Without memory for the marks and the report it says `Memory`, whatever the passes have.
pub fn audit<S: Drop, E: Drop + Plain>(
    alloc: Global,
    journals: &Journals<S, E>,
    passes: &[Pass<E>],
) -> Result<Vec<Reported>, AuditFault>
    ensures audited { OnOk result (AreAudited journals.now passes.now) }
    ensures report { IfOk result (λ report. report.items ≡ report_of journals.now) }
    ensures mismatch { result ≡ Err AuditFault.PassMismatch → ¬ AreAudited journals.now passes.now }
{
    let mut sheets = blank_sheets(alloc, journals)?;
    for (place, pass) in passes.iter().enumerate() {
        for noted in pass.noted() {
            if !mark(journals, &mut sheets, place, noted) {
                return Err(AuditFault::PassMismatch);
            }
        }
    }
    if !are_full(&sheets) {
        return Err(AuditFault::PassMismatch);
    }
    Ok(report(alloc, journals)?)
}

/// Whether the passes have the entries of one journal, each in one pass, once.
///
/// It walks once over all passes, and keeps a mark for each entry. Without memory for the marks it says `Memory`, whatever the passes have.
pub(crate) fn audit_journal<S: Drop, E: Drop + Plain>(
    alloc: Global,
    realm: usize,
    journal: &Journal<S, E>,
    passes: &[Pass<E>],
) -> Result<(), AuditFault>
    ensures audited { OnOk result
        (IsAudited realm journal.now.epoch journal.now.entries passes.now) }
    ensures mismatch { result ≡ Err AuditFault.PassMismatch →
        ¬ IsAudited realm journal.now.epoch journal.now.entries passes.now }
{
    let mut sheet = Sheet::blank(alloc, journal)?;
    for (place, pass) in passes.iter().enumerate() {
        for noted in pass.noted() {
            if !mark_own(realm, journal, &mut sheet, place, noted) {
                return Err(AuditFault::PassMismatch);
            }
        }
    }
    if !sheet.is_full() {
        return Err(AuditFault::PassMismatch);
    }
    Ok(())
}

/// Marks an entry of a pass in a journal, if it is one of its epoch: whether it can be, then.
fn mark_own<S: Drop, E: Drop + Plain>(
    realm: usize,
    journal: &Journal<S, E>,
    sheet: &mut Sheet,
    pass: usize,
    noted: &Noted<E>,
) -> bool
    requires { length sheet.old.marks ≡ length journal.now.entries }
    ensures can { is_of realm journal.now.epoch noted.now ≡ true →
        IsTrue result ↔ CanMark journal.now.entries pass noted.now sheet.old }
    ensures new { is_of realm journal.now.epoch noted.now ≡ true → IsTrue result →
        sheet.new ≡ marked pass noted.now sheet.old }
    ensures others { is_of realm journal.now.epoch noted.now ≡ false →
        (result ≡ true) × (sheet.new ≡ sheet.old) }
{
    if !noted.is_of(realm, journal.epoch()) {
        return true;
    }
    sheet.mark(journal, pass, noted)
}

/// A sheet for each journal, with no marks.
fn blank_sheets<S: Drop, E: Drop>(
    alloc: Global,
    journals: &Journals<S, E>,
) -> Result<Vec<Sheets>, AllocError>
    ensures blank { IfOk result (λ sheets. sheets.items ≡ map (map blank) journals.now) }
    ensures histories { All IsHistory journals.now }
{
    let mut sheets = Vec::new(alloc);
    for history in journals.histories() {
        sheets.push(Sheets::blank(alloc, history.journals())?)?;
    }
    Ok(sheets)
}

/// Marks an entry of a pass in the journal that it names, if there is one in which it can be marked.
fn mark<S: Drop, E: Drop + Plain>(
    journals: &Journals<S, E>,
    sheets: &mut Vec<Sheets>,
    pass: usize,
    noted: &Noted<E>,
) -> bool
    requires { HaveSheets journals.now sheets.old.items }
    ensures can { IsTrue result ↔ CanMarkIn journals.now pass noted.now sheets.old.items }
    ensures new { IsTrue result → (place : ℕ) → Names journals.now noted.now place →
        sheets.new.items ≡ marked_at place pass noted.now sheets.old.items }
{
    let Some(place) = journals.place_of(noted) else {
        return false;
    };
    let journal = journals.at(noted.realm, place);
    let realm = &mut sheets[noted.realm];
    realm.mark(place, journal, pass, noted)
}

/// Whether each entry of each journal is marked.
fn are_full(sheets: &[Sheets]) -> bool
    ensures { IsTrue result ↔ All (All (λ sheet. All (λ mark. mark ≡ true) sheet.marks))
        sheets.now }
{
    sheets.iter().all(|realm| realm.are_full())
}

/// How many entries each journal has.
fn report<S: Drop, E: Drop>(
    alloc: Global,
    journals: &Journals<S, E>,
) -> Result<Vec<Reported>, AllocError>
    ensures { IfOk result (λ report. report.items ≡ report_of journals.now) }
{
    let mut report = Vec::new(alloc);
    for (realm, history) in journals.histories().iter().enumerate() {
        for journal in history.journals() {
            report.push(Reported {
                realm,
                epoch: journal.epoch(),
                entries: journal.entries().len() as u32,
            })?;
        }
    }
    Ok(report)
}
