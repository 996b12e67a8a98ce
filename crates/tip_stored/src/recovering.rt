//! A stored core before it begins: its realms have just started, and boxes are adopted for their rows.
ghost use Rattle.std.specs.Prelude.{◌≡◌, ℕ, [], None, Some, true, false, length, map, option_map, slice_get, IfErr, IfOk, OnErr, OnOk};
ghost use Rattle.std.specs.Option.{option_map_or};
ghost use Rattle.tip_branch.specs.Always.{Always};
ghost use Rattle.tip_core.specs.Hosted.{HaveNames, Hosted, realm as realm_at};
ghost use Rattle.tip_stored.specs.Recovering.{AreAnew, HaveBegun, adopted_at, adopted_each, all_adopted, are_for_each, recovered, refusal_at};

use crate::stored_core::StoredCore;
use std::marker::Model;
use thiserror::Error;
use tip_branch::HeldPrepared;
use tip_core::Core;
use tip_line::Id;
use tip_recovery::{AdoptFault, Recovery, Unfinished};
use tip_rows::RowLog;

/// A row still waits for boxes.
#[derive(Clone, Copy, Debug, Error)]
#[error("a row with branches was not adopted")]
pub struct Unadopted;

/// A stored core before it begins: each realm has just started, and its rows wait for boxes.
#[derive(Drop)]
pub struct Recovering<S> {
    store: S,
    core: Core,
    realms: Vec<Recovery>,
}

impl<S> Model for Recovering<S> {
    ghost use Rattle.tip_stored.specs.Recovering.{HaveBegun, Recovering};

    ghost Value = { Recovering S };

    ghost view = { λ r. record { store = r.store; core = r.core; realms = r.realms.items } };

    ghost invariant = { λ r. HaveBegun r.core r.realms.items };
}

impl<S: RowLog> Recovering<S> {
    /// These realms, which have just started over this store, and their rows.
    pub(crate) fn new(store: S, core: Core, realms: Vec<Recovery>) -> Recovering<S>
        requires { HaveBegun core realms.items }
        ensures { result ≡ record { store = store; core = core; realms = realms.items } }
    {
        Recovering {
            store,
            core,
            realms,
        }
    }

    /// All realms, in the order of declaration.
    pub fn realms(&self) -> &[Recovery]
        requires { Always }
        ensures same { result.now ≡ self.now.realms }
        ensures begun { HaveBegun self.now.core self.now.realms }
    {
        &self.realms
    }

    /// The rows of a realm by rising key, also those for which nothing is to be adopted; none of a realm that is not there.
    pub fn in_doubt(&self, realm: usize) -> &[Unfinished]
        requires { Always }
        ensures { result.now
            ≡ option_map_or (λ recovery. recovery.rows) (slice_get self.now.realms realm) [] }
    {
        match self.realms.get(realm) {
            Some(recovery) => recovery.rows(),
            None => &[],
        }
    }

    /// The epoch in which a realm starts.
    pub fn epoch(&self, realm: usize) -> Option<u32>
        ensures { result
            ≡ option_map (λ recovery. recovery.epoch) (slice_get self.now.realms realm) }
    {
        Some(self.realms.get(realm)?.epoch())
    }

    /// These boxes are adopted for the branches of the row of this identifier, in their order; else they come back, and all
    /// stays.
    pub fn adopt(
        &mut self,
        realm: usize,
        id: &Id,
        boxes: HeldPrepared,
    ) -> Result<(), (AdoptFault, HeldPrepared)>
        requires { Always }
        ensures ok { OnOk result ((refusal_at realm id.now boxes self.old.realms ≡ None)
            × (self.new ≡ record self.old
            { realms = adopted_at realm id.now boxes self.old.realms })) }
        ensures err { IfErr result (λ fault. (refusal_at realm id.now boxes self.old.realms
            ≡ Some fault.0) × (fault.1 ≡ boxes)) }
        ensures same { OnErr result (self.new ≡ self.old) }
    {
        adopt_at(&mut self.realms, realm, id, boxes)
    }

    /// These boxes are adopted, for each row of each realm at its place one for each of its branches. It says whether they fit;
    /// where they do not, some may have been adopted.
    pub fn adopt_all(&mut self, boxes: Vec<Vec<HeldPrepared>>) -> bool
        requires { Always }
        ensures fits { result
            ≡ are_for_each (map (λ lots. lots.items) boxes.items) self.old.realms }
        ensures adopted { result ≡ true → self.new ≡ record self.old {
          realms = adopted_each
              (map (λ lots. lots.items) boxes.items) self.old.realms;
        } }
        ensures store { self.new.store ≡ self.old.store }
    {
        boxes.len() == self.realms.len() && adopt_each(&mut self.realms, boxes)
    }

    /// The store, where the realms are not to begin.
    pub fn into_store(self) -> S
        requires { Always }
        ensures { result ≡ self.store }
    {
        let Recovering { store, .. } = self;
        store
    }

    /// The stored core begins: each realm is as recovery makes it of its rows and boxes. It takes no memory. Where a row still
    /// waits, all is handed back.
    pub fn begin(self) -> Result<StoredCore<S, Core>, (Unadopted, Recovering<S>)>
        requires { Always }
        ensures store { IfOk result (λ stored. stored.store ≡ self.store) }
        ensures realms { IfOk result (λ stored. (place : ℕ) → realm_at stored.core place
            ≡ recovered (slice_get self.realms place) (realm_at self.core place)) }
        ensures names { IfOk result (λ stored. HaveNames stored.core) }
        ensures anew { IfOk result (λ stored. AreAnew self.realms stored.core) }
        ensures running { IfOk result (λ stored. stored.is_stopped ≡ false) }
        ensures adopted { OnOk result (all_adopted self.realms ≡ true) }
        ensures back { IfErr result (λ fault. fault.1 ≡ self) }
        ensures unadopted { OnErr result (all_adopted self.realms ≡ false) }
    {
        if !are_adopted(&self.realms) {
            return Err((Unadopted, self));
        }
        let Recovering {
            store,
            mut core,
            realms,
        } = self;
        take_up_all(&mut core, realms);
        Ok(StoredCore::new(store, core))
    }
}

/// Whether no row of any realm waits any more.
fn are_adopted(realms: &[Recovery]) -> bool
    ensures { result ≡ all_adopted realms.now }
{
    for recovery in realms {
        if !recovery.is_adopted() {
            return false;
        }
    }
    true
}

/// These boxes are adopted in the realm at a place; else they come back, and all stays.
fn adopt_at(
    realms: &mut Vec<Recovery>,
    realm: usize,
    id: &Id,
    boxes: HeldPrepared,
) -> Result<(), (AdoptFault, HeldPrepared)>
    requires { Always }
    ensures ok { OnOk result ((refusal_at realm id.now boxes realms.old.items ≡ None)
        × (realms.new.items ≡ adopted_at realm id.now boxes realms.old.items)) }
    ensures err { IfErr result (λ fault. (refusal_at realm id.now boxes realms.old.items
        ≡ Some fault.0) × (fault.1 ≡ boxes)) }
    ensures same { OnErr result (realms.new.items ≡ realms.old.items) }
{
    if realm >= realms.len() {
        return Err((AdoptFault::NotInDoubt, boxes));
    }
    realms[realm].adopt(id, boxes)
}

/// These boxes are adopted, for each realm at its place.
fn adopt_each(realms: &mut Vec<Recovery>, boxes: Vec<Vec<HeldPrepared>>) -> bool
    requires { length boxes.items ≡ length realms.old.items }
    ensures fits { result ≡ are_for_each (map (λ lots. lots.items) boxes.items) realms.old.items }
    ensures adopted { result ≡ true →
        realms.new.items ≡ adopted_each (map (λ lots. lots.items) boxes.items) realms.old.items }
    ensures begun { (core : Hosted) → HaveBegun core realms.old.items →
        HaveBegun core realms.new.items }
{
    let mut place = 0;
    for lots in boxes {
        if !realms[place].adopt_all(lots) {
            return false;
        }
        place += 1;
    }
    true
}

/// Each realm takes up its rows, in room that is there.
fn take_up_all(core: &mut Core, realms: Vec<Recovery>)
    requires begun { HaveBegun core.old realms.items }
    requires adopted { all_adopted realms.items ≡ true }
    ensures realms { (place : ℕ) → realm_at core.new place
        ≡ recovered (slice_get realms.items place) (realm_at core.old place) }
    ensures anew { AreAnew realms.items core.new }
    ensures names { HaveNames core.new }
{
    let mut place = 0;
    for recovery in realms {
        core.take_up(place, recovery);
        place += 1;
    }
}
