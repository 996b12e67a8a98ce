//! A realm that starts again while the others run.
ghost use Rattle.std.specs.Prelude.{◌≡◌, ◌≢◌, ◌↔◌, ◌<◌, ◌+◌, ℕ, None, Some, Err, false, true, length, map, IfErr, IfOk, OnOk};
ghost use Rattle.tip_branch.specs.Always.{Always};
ghost use Rattle.tip_core.specs.Hosted.{realm as realm_at, HaveNames, tables_at};
ghost use Rattle.tip_core.specs.Renewing.{HasRoom};
ghost use Rattle.tip_machine.specs.Moves.{risen};
ghost use Rattle.tip_machine.specs.Recovery.{restarted};
ghost use Rattle.tip_machine.specs.States.{State};
ghost use Rattle.tip_machine.specs.Types.{seen};
ghost use Rattle.tip_recovery.specs.Adopting.{Recovery as Reading, are_adopted, loaded};
ghost use Rattle.tip_recovery.specs.Renewing.{is_read_again};
ghost use Rattle.tip_rows.specs.Logs.{Log, IsSettled, last_epoch};
ghost use Rattle.tip_stored.specs.Loading.{Goes, IsIts, IsRead, Never, Stays};
ghost use Rattle.tip_stored.specs.Renewing.{IsReasonToDoubt, IsReasonToRenew, IsReasonToStay, IsRenewed, Rises, renew_fault_of, was_refused};
ghost use Rattle.tip_stored.specs.declared.renewing.RenewFault.TheVariants.{NoRealm, NotRaised, Stopped};

use crate::loading::{LoadFault, read};
use crate::stored_core::StoredCore;
use std::alloc::{AllocError, Global};
use thiserror::Error;
use tip_core::{Core, Left, Parting};
use tip_recovery::Recovery;
use tip_rows::{RaiseFault, RowLog};

/// Why a realm was not renewed. Each is said only where none before it is so, but for want of memory.
#[derive(Clone, Copy, Debug, PartialEq, Eq, Error)]
pub enum RenewFault {
    #[error("the host is stopped")]
    Stopped,
    #[error("there is no such realm")]
    NoRealm,
    #[error("the store refused to read")]
    NotRead,
    #[error("what is stored is no row")]
    BadRow,
    #[error("the epoch is at its end")]
    EpochEnd,
    #[error("what is stored has changed since it was read")]
    NotInDoubt,
    #[error("a row with branches was not adopted")]
    Unadopted,
    #[error("the store refused to raise the epoch")]
    NotRaised,
    #[error("out of memory")]
    Memory,
}

impl From<LoadFault> for RenewFault {
    ghost use Rattle.tip_stored.specs.Renewing.{renew_fault_of};

    ghost from_gives = { λ why fault. fault ≡ renew_fault_of why };

    fn from(fault: LoadFault) -> RenewFault {
        match fault {
            LoadFault::Refused => RenewFault::NotRead,
            LoadFault::EpochEnd => RenewFault::EpochEnd,
            LoadFault::BadRow => RenewFault::BadRow,
            LoadFault::Memory => RenewFault::Memory,
            LoadFault::BadRealm => RenewFault::NoRealm,
        }
    }
}

impl From<AllocError> for RenewFault {
    ghost use Rattle.tip_stored.specs.declared.renewing.RenewFault.TheVariants.{Memory};

    ghost from_gives = { λ _ fault. fault ≡ Memory };

    fn from(_: AllocError) -> RenewFault {
        RenewFault::Memory
    }
}

impl From<RaiseFault> for RenewFault {
    ghost use Rattle.tip_stored.specs.Renewing.{raise_fault_of};

    ghost from_gives = { λ why fault. fault ≡ raise_fault_of why };

    fn from(fault: RaiseFault) -> RenewFault {
        match fault {
            RaiseFault::Refused => RenewFault::NotRaised,
            RaiseFault::EpochEnd => RenewFault::EpochEnd,
        }
    }
}

impl<S: RowLog> StoredCore<S, Core> {
    /// What is stored of a realm: boxes are adopted for its rows, and it is renewed by it. Faults are NoRealm, NotRead, BadRow and
    /// Memory.
    pub fn doubts(&mut self, alloc: Global, realm: usize) -> Result<Recovery, RenewFault>
        requires { Always }
        ensures store { Goes S.keeping
            (was_refused (λ fault. fault) result) Stays Never self.old.store self.new.store }
        ensures core { self.new.core ≡ self.old.core }
        ensures stopped { self.new.is_stopped ≡ self.old.is_stopped }
        ensures here { OnOk result (realm_at self.old.core realm ≢ None) }
        ensures absent { realm_at self.old.core realm ≡ None → result ≡ Err RenewFault.NoRealm }
        ensures read { (log : Log) (state : State) → S.keeping.stands self.old.store log →
            realm_at self.old.core realm ≡ Some state → S.keeping.is_true self.new.store →
            IfOk result (IsRead log state.head.name) }
        ensures reason { (log : Log) (state : State) → S.keeping.stands self.old.store log →
            realm_at self.old.core realm ≡ Some state → S.keeping.is_true self.new.store →
            IfErr result (IsReasonToDoubt log state.head.name) }
    {
        match self.core.name(realm) {
            Some(name) => Ok(read(alloc, &mut self.store, name)?),
            None => Err(RenewFault::NoRealm),
        }
    }

    /// A realm starts again while the others run, by what `doubts` said of it, once boxes were adopted for its rows. What it had
    /// comes back, to be dropped where nothing waits for the stored core; its parties that are out stay out, and are strangers
    /// when they come back. Where it is refused all is as it was.
    pub fn renew(
        &mut self,
        alloc: Global,
        realm: usize,
        recovery: Recovery,
    ) -> Result<Left, (RenewFault, Recovery)>
        requires { Always }
        ensures store { (state : State) → realm_at self.old.core realm ≡ Some state →
            Rises S.keeping (λ fault. fault.0)
            state.head.name result self.old.store self.new.store }
        ensures absent { realm_at self.old.core realm ≡ None → self.new.store ≡ self.old.store }
        ensures renewed { (state : State) → realm_at self.old.core realm ≡ Some state →
            IfOk result (λ left. IsRenewed S.keeping recovery state self.old.store
            self.new.store (realm_at self.new.core realm)) }
        ensures connections { (state : State) → realm_at self.old.core realm ≡ Some state →
            IfOk result (λ left. left.connections.items ≡ state.connections) }
        ensures transactions { (state : State) → realm_at self.old.core realm ≡ Some state →
            IfOk result (λ left. map seen left.transactions.items ≡ state.transactions) }
        ensures others { (other : ℕ) → other ≢ realm →
            realm_at self.new.core other ≡ realm_at self.old.core other }
        ensures same { IfErr result
            (λ fault. (place : ℕ) → realm_at self.new.core place ≡ realm_at self.old.core place) }
        ensures back { IfErr result (λ fault. fault.1 ≡ recovery) }
        ensures reason { (log : Log) (state : State) → S.keeping.stands self.old.store log →
            realm_at self.old.core realm ≡ Some state → S.keeping.is_true self.new.store →
            IfErr result (λ fault. IsReasonToRenew log state recovery fault.0) }
        ensures here { OnOk result (realm_at self.old.core realm ≢ None) }
        ensures nowhere { realm_at self.old.core realm ≡ None → self.old.is_stopped ≡ false →
            IfErr result (λ fault. fault.0 ≡ NoRealm) }
        ensures names { OnOk result (HaveNames self.new.core) }
        ensures running { OnOk result (self.old.is_stopped ≡ false) }
        ensures stopping { IfErr result
            (λ fault. (fault.0 ≡ Stopped) ↔ (self.old.is_stopped ≡ true)) }
        ensures stopped { self.new.is_stopped ≡ self.old.is_stopped }
    {
        match self.prepare(alloc, realm, &recovery) {
            Ok(room) => self.renew_by(realm, recovery, room),
            Err(fault) => Err((fault, recovery)),
        }
    }

    /// Reads once more what is stored of the realm, which must be what was read before, and makes room for it to start again.
    fn prepare(
        &mut self,
        alloc: Global,
        realm: usize,
        recovery: &Recovery,
    ) -> Result<Parting, RenewFault>
        requires { Always }
        ensures store { Goes S.keeping
            (was_refused (λ fault. fault) result) Stays Never self.old.store self.new.store }
        ensures core { self.new.core ≡ self.old.core }
        ensures stopped { self.new.is_stopped ≡ self.old.is_stopped }
        ensures running { OnOk result (self.old.is_stopped ≡ false) }
        ensures here { OnOk result (realm_at self.old.core realm ≢ None) }
        ensures absent { realm_at self.old.core realm ≡ None → self.new.store ≡ self.old.store }
        ensures read { (state : State) → realm_at self.old.core realm ≡ Some state →
            OnOk result ((fresh : Reading) × (fresh.epoch ≡ state.head.epoch)
            × (is_read_again recovery.now fresh ≡ true)
            × ((log : Log) → S.keeping.stands self.old.store log →
            S.keeping.is_true self.new.store →
            IsRead log state.head.name fresh)
            × IsIts state.head.name fresh) }
        ensures named { (state : State) → realm_at self.old.core realm ≡ Some state →
            OnOk result (recovery.now.realm ≡ state.head.name) }
        ensures epoch { (state : State) → realm_at self.old.core realm ≡ Some state → OnOk result
            ((recovery.now.epoch ≡ state.head.epoch) × (state.head.epoch < last_epoch)) }
        ensures adopted { OnOk result (are_adopted recovery.now.rows ≡ true) }
        ensures room { IfOk result
            (HasRoom (tables_at realm self.old.core) realm (length recovery.now.rows)) }
        ensures reason { (log : Log) (state : State) → S.keeping.stands self.old.store log →
            realm_at self.old.core realm ≡ Some state → S.keeping.is_true self.new.store →
            IfErr result (IsReasonToRenew log state recovery.now) }
        ensures not_raised { IfErr result (λ fault. fault ≢ NotRaised) }
        ensures nowhere { realm_at self.old.core realm ≡ None → self.old.is_stopped ≡ false →
            IfErr result (λ fault. fault ≡ NoRealm) }
        ensures stopping { IfErr result
            (λ fault. (fault ≡ Stopped) ↔ (self.old.is_stopped ≡ true)) }
    {
        if self.is_stopped {
            return Err(RenewFault::Stopped);
        }
        let Some(head) = self.core.heads().get(realm) else {
            return Err(RenewFault::NoRealm);
        };
        let fresh = read(alloc, &mut self.store, &head.name)?;
        if fresh.epoch() == u32::MAX {
            return Err(RenewFault::EpochEnd);
        }
        if !fresh.is_read_again(recovery) || fresh.epoch() != head.epoch {
            return Err(RenewFault::NotInDoubt);
        }
        if !recovery.is_adopted() {
            return Err(RenewFault::Unadopted);
        }
        let room = self
            .core
            .room_to_renew(alloc, realm, recovery.rows().len())?;
        Ok(room)
    }

    /// The realm's epoch rises, and it starts again by its rows.
    fn renew_by(
        &mut self,
        realm: usize,
        recovery: Recovery,
        room: Parting,
    ) -> Result<Left, (RenewFault, Recovery)>
        requires always { Always }
        requires here { (state : State) × (realm_at self.old.core realm ≡ Some state)
            × (recovery.realm ≡ state.head.name) × (recovery.epoch ≡ state.head.epoch)
            × (state.head.epoch < last_epoch) }
        requires adopted { are_adopted recovery.rows ≡ true }
        requires room { HasRoom (tables_at realm self.old.core) realm (length recovery.rows)
            room }
        ensures store { (state : State) → realm_at self.old.core realm ≡ Some state →
            Rises S.keeping (λ fault. fault.0)
            state.head.name result self.old.store self.new.store }
        ensures renewed { (state : State) → realm_at self.old.core realm ≡ Some state →
            IfOk result (λ left. realm_at self.new.core realm
            ≡ Some (restarted (risen state.head) (map loaded recovery.rows))) }
        ensures connections { (state : State) → realm_at self.old.core realm ≡ Some state →
            IfOk result (λ left. left.connections.items ≡ state.connections) }
        ensures transactions { (state : State) → realm_at self.old.core realm ≡ Some state →
            IfOk result (λ left. map seen left.transactions.items ≡ state.transactions) }
        ensures others { (other : ℕ) → other ≢ realm →
            realm_at self.new.core other ≡ realm_at self.old.core other }
        ensures same { IfErr result
            (λ fault. (place : ℕ) → realm_at self.new.core place ≡ realm_at self.old.core place) }
        ensures back { IfErr result (λ fault. fault.1 ≡ recovery) }
        ensures reason { (log : Log) (state : State) → S.keeping.stands self.old.store log →
            realm_at self.old.core realm ≡ Some state → S.keeping.is_true self.new.store →
            IfErr result (λ fault. IsReasonToStay log state.head.name fault.0) }
        ensures names { OnOk result (HaveNames self.new.core) }
        ensures running { IfErr result (λ fault. fault.0 ≢ Stopped) }
        ensures stopped { self.new.is_stopped ≡ self.old.is_stopped }
    {
        let Some(name) = self.core.name(realm) else {
            return Err((RenewFault::NoRealm, recovery));
        };
        match self.store.raise_epoch(name) {
            Ok(()) => Ok(start_again(&mut self.core, realm, recovery, room)),
            Err(fault) => Err((fault.into(), recovery)),
        }
    }
}

/// A realm starts again in its next epoch, by these rows.
fn start_again(core: &mut Core, realm: usize, mut recovery: Recovery, room: Parting) -> Left
    requires always { Always }
    requires here { (state : State) × (realm_at core.old realm ≡ Some state)
        × (recovery.realm ≡ state.head.name) × (recovery.epoch ≡ state.head.epoch)
        × (state.head.epoch < last_epoch) }
    requires adopted { are_adopted recovery.rows ≡ true }
    requires room { HasRoom (tables_at realm core.old) realm (length recovery.rows) room }
    ensures own { (state : State) → realm_at core.old realm ≡ Some state → realm_at core.new realm
        ≡ Some (restarted (risen state.head) (map loaded recovery.rows)) }
    ensures others { (other : ℕ) → other ≢ realm →
        realm_at core.new other ≡ realm_at core.old other }
    ensures connections { (state : State) → realm_at core.old realm ≡ Some state →
        result.connections.items ≡ state.connections }
    ensures transactions { (state : State) → realm_at core.old realm ≡ Some state →
        map seen result.transactions.items ≡ state.transactions }
    ensures named { HaveNames core.new }
{
    recovery.raise();
    core.renew(realm, recovery, room)
}
