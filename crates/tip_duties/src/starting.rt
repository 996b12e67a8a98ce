//! Whether the realms of a store may start.
ghost use Rattle.std.specs.Prelude.{◌≡◌, ◌↔◌, ◌⊎◌, true, false, ℕ, List, Err, IfOk, IsTrue, is_some};
ghost use Rattle.std.specs.List.{All};
ghost use Rattle.tip_duties.specs.Starting.{IsAhead, are_ahead};
ghost use Rattle.tip_rows.specs.Logs.{HasBadName, IsSpoiled, Log, counted, is_refused_load};

use tip_line::Realm;
use tip_rows::{Key, LoadFault, Row, RowLog};

/// Whether a row is ahead of its realm, among the realms that the store knows and those that are to be hosted: then a start would
/// give its identifier a second time. The store stays as it is.
pub fn has_row_ahead<S: RowLog>(store: &mut S, hosted: &[Realm]) -> Result<bool, LoadFault>
    ensures yes { (log : Log) → S.keeping.stands store.old log → S.keeping.is_true store.new →
        IfOk result (λ ahead. ahead ≡ true → (realm : List ℕ) × IsAhead log realm) }
    ensures known { (log : Log) → S.keeping.stands store.old log → S.keeping.is_true store.new →
        IfOk result (λ ahead. ahead ≡ false → (realm : List ℕ) →
        is_some (log.epochs realm) ≡ true → ¬ IsAhead log realm) }
    ensures hosted { (log : Log) → S.keeping.stands store.old log → S.keeping.is_true store.new →
        IfOk result (λ ahead. ahead ≡ false → All (λ realm. ¬ IsAhead log realm) hosted.now) }
    ensures bad { (log : Log) → S.keeping.stands store.old log → S.keeping.is_true store.new →
        result ≡ Err LoadFault.BadRow →
        HasBadName log ⊎ ((realm : List ℕ) × IsSpoiled log realm) }
    ensures stands { (log : Log) → S.keeping.stands store.old log →
        S.keeping.stands store.new log }
    ensures truth { S.keeping.is_true store.new → S.keeping.is_true store.old }
    ensures counts { S.keeping.faults store.new
        ≡ counted (is_refused_load result) (S.keeping.faults store.old) }
{
    let known = store.realms()?;
    if any_is_ahead(store, &known)? {
        return Ok(true);
    }
    any_is_ahead(store, hosted)
}

/// Whether a row of one of these realms is ahead of it.
fn any_is_ahead<S: RowLog>(store: &mut S, realms: &[Realm]) -> Result<bool, LoadFault>
    ensures yes { (log : Log) → S.keeping.stands store.old log → S.keeping.is_true store.new →
        IfOk result (λ ahead. ahead ≡ true → (realm : List ℕ) × IsAhead log realm) }
    ensures no { (log : Log) → S.keeping.stands store.old log → S.keeping.is_true store.new →
        IfOk result (λ ahead. ahead ≡ false → All (λ realm. ¬ IsAhead log realm) realms.now) }
    ensures bad { (log : Log) → S.keeping.stands store.old log → S.keeping.is_true store.new →
        result ≡ Err LoadFault.BadRow → (realm : List ℕ) × IsSpoiled log realm }
    ensures stands { (log : Log) → S.keeping.stands store.old log →
        S.keeping.stands store.new log }
    ensures truth { S.keeping.is_true store.new → S.keeping.is_true store.old }
    ensures counts { S.keeping.faults store.new
        ≡ counted (is_refused_load result) (S.keeping.faults store.old) }
{
    for realm in realms {
        if is_ahead(store, realm)? {
            return Ok(true);
        }
    }
    Ok(false)
}

/// Whether a row of a realm is ahead of it.
fn is_ahead<S: RowLog>(store: &mut S, realm: &Realm) -> Result<bool, LoadFault>
    ensures ahead { (log : Log) → S.keeping.stands store.old log → S.keeping.is_true store.new →
        IfOk result (λ ahead. IsTrue ahead ↔ IsAhead log realm.now) }
    ensures bad { (log : Log) → S.keeping.stands store.old log → S.keeping.is_true store.new →
        result ≡ Err LoadFault.BadRow → IsSpoiled log realm.now }
    ensures stands { (log : Log) → S.keeping.stands store.old log →
        S.keeping.stands store.new log }
    ensures truth { S.keeping.is_true store.new → S.keeping.is_true store.old }
    ensures counts { S.keeping.faults store.new
        ≡ counted (is_refused_load result) (S.keeping.faults store.old) }
{
    let loaded = store.load(realm)?;
    Ok(are_ahead(loaded.epoch, &loaded.rows))
}

/// Whether one of these rows is of a later epoch than this one.
fn are_ahead(epoch: u32, rows: &[(Key, Row)]) -> bool
    ensures { result ≡ are_ahead epoch rows.now }
{
    rows.iter().any(|row| row.0.epoch() > epoch)
}
