//! The rows of one realm that starts again.
ghost use Rattle.std.specs.Prelude.{◌≡◌, ℕ, ◌+◌, ◌<◌, List, [], true, find, length, map, IfErr, IfOk, MatchOption, None, OnErr, OnOk, Some};
ghost use Rattle.tip_branch.specs.Always.{Always};
ghost use Rattle.tip_table.specs.Lists.{IsFirst, changed};
ghost use Rattle.tip_rows.specs.Logs.{is_rising, last_epoch};
ghost use Rattle.tip_recovery.specs.Adopting.{AreOf, adopted_all, adopted_for, adopting, are_adopted, are_for_all, is_named, refusal_of, stored_of, unadopted};
ghost use Rattle.tip_recovery.specs.Renewing.{are_again, is_read_again};

use crate::unfinished::{AdoptFault, Unfinished};
use std::alloc::{AllocError, Global};
use std::marker::Model;
use tip_branch::HeldPrepared;
use tip_line::{Id, Realm};
use tip_rows::{Key, Loaded, Row};

/// One realm that starts again: the epoch of its start, and its rows with the boxes that were adopted for them so far.
#[derive(Drop)]
pub struct Recovery {
    realm: Realm,
    epoch: u32,
    rows: Vec<Unfinished>,
}

impl Model for Recovery {
    ghost use Rattle.tip_recovery.specs.Adopting.{IsWhole, Recovery};

    ghost Value = { Recovery };

    ghost view = { λ r. record { realm = r.realm; epoch = r.epoch; rows = r.rows.items } };

    ghost invariant = { λ r. IsWhole r.realm r.rows.items };
}

impl Recovery {
    /// This realm with what was loaded of it, for which nothing was adopted yet. Its rows go into an empty vector.
    pub fn of(
        alloc: Global,
        realm: Realm,
        loaded: Loaded,
        rows: Vec<Unfinished>,
    ) -> Result<Recovery, AllocError>
        requires empty { rows.items ≡ [] }
        requires rising { is_rising loaded.rows.items ≡ true }
        ensures { IfOk result (λ recovery. recovery ≡ record {
          realm = realm;
          epoch = loaded.epoch;
          rows = map (unadopted realm) loaded.rows.items;
        }) }
    {
        let Loaded {
            epoch,
            rows: stored,
        } = loaded;
        let rows = rows_of(alloc, &realm, stored, rows)?;
        Ok(Recovery { realm, epoch, rows })
    }

    /// The epoch of its start.
    pub fn epoch(&self) -> u32
        ensures { result ≡ self.now.epoch }
    {
        self.epoch
    }

    /// Its rows, also those for which nothing is to be adopted.
    pub fn rows(&self) -> &[Unfinished]
        requires { Always }
        ensures same { result.now ≡ self.now.rows }
        ensures rising { is_rising (stored_of self.now.rows) ≡ true }
    {
        &self.rows
    }

    /// Whether no row waits for boxes any more.
    pub fn is_adopted(&self) -> bool
        ensures { result ≡ are_adopted self.now.rows }
    {
        are_adopted(&self.rows)
    }

    /// These boxes are adopted for the branches of the row of this identifier, in their order; else they come back, and all
    /// stays.
    pub fn adopt(&mut self, id: &Id, boxes: HeldPrepared) -> Result<(), (AdoptFault, HeldPrepared)>
        requires { Always }
        ensures ok { OnOk result ((refusal_of id.now boxes self.old.rows ≡ None)
            × (self.new ≡ adopted_for id.now boxes self.old)) }
        ensures err { IfErr result
            (λ fault. (refusal_of id.now boxes self.old.rows ≡ Some fault.0) × (fault.1 ≡ boxes)) }
        ensures same { OnErr result (self.new ≡ self.old) }
    {
        adopt_in(&mut self.rows, id, boxes)
    }

    /// These boxes are adopted, for each row at its place one for each of its branches. It says whether they fit; where they do
    /// not, some may have been adopted.
    pub fn adopt_all(&mut self, boxes: Vec<HeldPrepared>) -> bool
        requires { Always }
        ensures fits { result ≡ are_for_all boxes.items self.old.rows }
        ensures adopted { result ≡ true → self.new.rows ≡ adopted_all boxes.items self.old.rows }
        ensures realm { self.new.realm ≡ self.old.realm }
        ensures epoch { self.new.epoch ≡ self.old.epoch }
        ensures count { length self.new.rows ≡ length self.old.rows }
    {
        boxes.len() == self.rows.len() && adopt_each(&mut self.rows, boxes)
    }

    /// Whether this is a later reading of the same realm in the same epoch, with the same rows, word for word: a renewal may then
    /// go by the earlier one, and by the boxes that were adopted for it.
    pub fn is_read_again(&self, earlier: &Recovery) -> bool
        ensures { result ≡ is_read_again earlier.now self.now }
    {
        self.realm == earlier.realm
            && self.epoch == earlier.epoch
            && are_again(&earlier.rows, &self.rows)
    }

    /// It starts in the next epoch.
    pub fn raise(&mut self)
        requires { self.old.epoch < last_epoch }
        ensures { self.new ≡ record self.old { epoch = self.old.epoch + 1 } }
    {
        let Recovery { epoch, .. } = self;
        *epoch += 1;
    }

    /// Its rows, without taking memory.
    pub fn into_rows(self) -> Vec<Unfinished>
        requires { Always }
        ensures same { result.items ≡ self.rows }
        ensures own { AreOf self.realm self.rows }
    {
        self.rows
    }
}

/// Each stored row, for which nothing was adopted yet, in an empty vector.
fn rows_of(
    alloc: Global,
    realm: &Realm,
    stored: Vec<(Key, Row)>,
    mut rows: Vec<Unfinished>,
) -> Result<Vec<Unfinished>, AllocError>
    requires { rows.items ≡ [] }
    ensures { IfOk result (λ rows. rows.items ≡ map (unadopted realm.now) stored.items) }
{
    rows.reserve(stored.len())?;
    for (key, row) in stored {
        rows.push(Unfinished::of(alloc, realm, key, row)?)?;
    }
    Ok(rows)
}

/// Whether no row waits for boxes.
fn are_adopted(rows: &[Unfinished]) -> bool
    ensures { result ≡ are_adopted rows.now }
{
    for row in rows {
        if row.waits() {
            return false;
        }
    }
    true
}

/// These boxes are adopted for the row of this identifier; else they come back, and all rows stay.
fn adopt_in(
    rows: &mut Vec<Unfinished>,
    id: &Id,
    boxes: HeldPrepared,
) -> Result<(), (AdoptFault, HeldPrepared)>
    requires { Always }
    ensures ok { OnOk result ((refusal_of id.now boxes rows.old.items ≡ None)
        × (rows.new.items ≡ changed (is_named id.now) (adopting boxes) rows.old.items)) }
    ensures err { IfErr result
        (λ fault. (refusal_of id.now boxes rows.old.items ≡ Some fault.0) × (fault.1 ≡ boxes)) }
    ensures same { OnErr result (rows.new.items ≡ rows.old.items) }
{
    match find(rows, id) {
        Some(place) => rows[place].adopt(boxes),
        None => Err((AdoptFault::NotInDoubt, boxes)),
    }
}

/// These boxes are adopted, for each row at its place.
fn adopt_each(rows: &mut Vec<Unfinished>, boxes: Vec<HeldPrepared>) -> bool
    requires { length boxes.items ≡ length rows.old.items }
    ensures fits { result ≡ are_for_all boxes.items rows.old.items }
    ensures adopted { result ≡ true → rows.new.items ≡ adopted_all boxes.items rows.old.items }
    ensures own { (realm : List ℕ) → AreOf realm rows.old.items → AreOf realm rows.new.items }
    ensures stored { stored_of rows.new.items ≡ stored_of rows.old.items }
    ensures count { length rows.new.items ≡ length rows.old.items }
{
    let mut place = 0;
    for lot in boxes {
        if !rows[place].adopt_each(lot) {
            return false;
        }
        place += 1;
    }
    true
}

/// Whether these rows are those of an earlier reading.
fn are_again(earlier: &[Unfinished], rows: &[Unfinished]) -> bool
    ensures { result ≡ are_again earlier.now rows.now }
{
    let mut before = earlier;
    let mut after = rows;
    while let ([old, olds @ ..], [new, news @ ..]) = (before, after) {
        if !new.is_again(old) {
            return false;
        }
        before = olds;
        after = news;
    }
    before.is_empty() && after.is_empty()
}

/// The place of the row of an identifier.
fn find(rows: &[Unfinished], id: &Id) -> Option<usize>
    ensures { MatchOption result (find (is_named id.now) rows.now ≡ None)
        (IsFirst (is_named id.now) rows.now) }
{
    for place in 0..rows.len() {
        if rows[place].is_named(id) {
            return Some(place);
        }
    }
    None
}
