//! Realms that are loaded from a store.
ghost use Rattle.std.specs.Prelude.{◌≡◌, ◌≢◌, ℕ, ◌<◌, ◌≤◌, length, None, Some, List, [], ◌∷◌, ◌++◌, false, true, option_map, not, slice_get, IfErr, IfOk, OnErr, OnOk};
ghost use Rattle.std.specs.List.{list_all};
ghost use Rattle.tip_branch.specs.Always.{Always};
ghost use Rattle.tip_machine.specs.Heads.{is_other, starting};
ghost use Rattle.tip_machine.specs.States.{started};
ghost use Rattle.tip_core.specs.Hosted.{HaveNames, free_in, realm as realm_at};
ghost use Rattle.tip_recovery.specs.Adopting.{Recovery as Reading};
ghost use Rattle.tip_stored.specs.Recovering.{HaveBegun};
ghost use Rattle.tip_rows.specs.Logs.{IsAtEnd, IsSettled, Log, is_rising};
ghost use Rattle.tip_stored.specs.Loading.{AreKnown, AreOpened, AreRead, AreTheirs, Goes, Loads, IsIts, IsKnown, IsOnTheWay, IsRead, IsReason, IsReasonToRead, IsReasonToReadAll, Never, Stays, is_refusal_to_load, are_hostable, is_bad_realm, known_all, names_differ, names_of, opened, refused_by, spec_of, starts_of};

use crate::realm_spec::{RealmSpec, declared, names_differ};
use crate::recovering::Recovering;
use crate::stored_core::StoredCore;
use std::alloc::{AllocError, Global};
use thiserror::Error;
use tip_core::{Core, StartFault, Starts};
use tip_line::Realm;
use tip_machine::Start;
use tip_recovery::Recovery;
use tip_rows::{Key, RaiseFault, Refused, Row, RowLog};

/// How many realms a stored core may have.
const MOST_REALMS: usize = 64;

/// Why realms were not loaded.
#[derive(Clone, Copy, Debug, PartialEq, Eq, Error)]
pub enum LoadFault {
    #[error("the store refused")]
    Refused,
    #[error("an epoch is at its end")]
    EpochEnd,
    #[error("what is stored is no row")]
    BadRow,
    #[error("out of memory")]
    Memory,
    #[error("two realms have one name, or there are more than 64")]
    BadRealm,
}

impl From<AllocError> for LoadFault {
    ghost use Rattle.tip_stored.specs.declared.loading.LoadFault.TheVariants.{Memory};

    ghost from_gives = { λ _ fault. fault ≡ Memory };

    fn from(_: AllocError) -> LoadFault {
        LoadFault::Memory
    }
}

impl<S: RowLog> StoredCore<S, Core> {
    /// These realms start over this store, in place of those of a core: each is made known, all epochs rise, and its rows wait
    /// for boxes. Else the store comes back.
    pub fn load(
        alloc: Global,
        store: S,
        core: Core,
        specs: Vec<RealmSpec>,
    ) -> Result<Recovering<S>, (LoadFault, S)>
        requires { Always }
        ensures { Loads S.keeping specs.items store result }
    {
        load(alloc, store, core, specs)
    }

    /// Each realm as it was declared, to be loaded again.
    pub fn declarations(&self, alloc: Global) -> Result<Vec<RealmSpec>, AllocError>
        requires { Always }
        ensures { IfOk result (λ specs. (place : ℕ) → slice_get specs.items place
            ≡ option_map (λ state. spec_of state.head) (realm_at self.now.core place)) }
    {
        declared(alloc, self.core.heads())
    }

    /// The process starts again: all but the store is dropped, and these realms are loaded again.
    pub fn restart(
        self,
        alloc: Global,
        specs: Vec<RealmSpec>,
    ) -> Result<Recovering<S>, (LoadFault, S)>
        requires { Always }
        ensures { Loads S.keeping specs.items self.store
            result }
    {
        let StoredCore { store, core, .. } = self;
        load(alloc, store, core, specs)
    }
}

/// These realms start over this store, in place of those of a core; else the store comes back.
fn load<S: RowLog>(
    alloc: Global,
    store: S,
    core: Core,
    specs: Vec<RealmSpec>,
) -> Result<Recovering<S>, (LoadFault, S)>
    requires { Always }
    ensures ok { IfOk result (λ loaded. Goes S.keeping false
        (AreOpened (names_of specs.items)) (IsOnTheWay (names_of specs.items)) store
        loaded.store) }
    ensures err { IfErr result (λ fault. Goes S.keeping
        (is_refusal_to_load fault.0) (IsOnTheWay (names_of specs.items))
        (IsOnTheWay (names_of specs.items)) store fault.1) }
    ensures realms { IfOk result (λ loaded. (place : ℕ) → realm_at loaded.core place ≡ option_map
        (λ start. started (starting start))
        (slice_get (starts_of specs.items loaded.realms) place)) }
    ensures read { (log : Log) → S.keeping.stands store log →
        IfOk result (λ loaded. S.keeping.is_true loaded.store
        → AreRead (opened (names_of specs.items) log) specs.items loaded.realms) }
    ensures reason { (log : Log) → S.keeping.stands store log →
        IfErr result (λ fault. S.keeping.is_true fault.1 → IsReason specs.items log fault.0) }
    ensures risen { (log : Log) → S.keeping.stands store log →
        IfOk result (λ loaded. S.keeping.is_true loaded.store
        → (known : List ℕ) → ¬ IsAtEnd (known_all (names_of specs.items) log) known) }
    ensures theirs { IfOk result (λ loaded. AreTheirs specs.items loaded.realms) }
    ensures hostable { OnOk result (are_hostable specs.items ≡ true) }
    ensures bad_realm { IfErr result
        (λ fault. is_bad_realm fault.0 ≡ not (are_hostable specs.items)) }
    ensures settled { IfOk result
        (λ loaded. S.keeping.is_true loaded.store → IsSettled S.keeping loaded.store) }
{
    let mut store = store;
    let realms = match open_and_read(alloc, &mut store, &specs) {
        Ok(realms) => realms,
        Err(fault) => return Err((fault, store)),
    };
    match start_all(alloc, core, specs, &realms) {
        Ok(core) => Ok(Recovering::new(store, core, realms)),
        Err(AllocError) => Err((LoadFault::Memory, store)),
    }
}

/// Each realm is made known.
fn know_all<S: RowLog>(store: &mut S, specs: &[RealmSpec]) -> Result<(), Refused>
    ensures ok { OnOk result (Goes S.keeping false
        (AreKnown (names_of specs.now)) (IsKnown (names_of specs.now)) store.old store.new) }
    ensures err { OnErr result (Goes S.keeping true
        (IsKnown (names_of specs.now)) (IsKnown (names_of specs.now)) store.old store.new) }
{
    for spec in specs {
        store.know(&spec.name)?;
    }
    Ok(())
}

/// What is stored of one realm.
pub(crate) fn read<S: RowLog>(
    alloc: Global,
    store: &mut S,
    name: &Realm,
) -> Result<Recovery, LoadFault>
    ensures goes { Goes S.keeping (refused_by result) Stays
        Never store.old store.new }
    ensures own { IfOk result (IsIts name.now) }
    ensures read { (log : Log) → S.keeping.stands store.old log → S.keeping.is_true store.new →
        IfOk result (IsRead log name.now) }
    ensures reason { (log : Log) → S.keeping.stands store.old log → S.keeping.is_true store.new →
        IfErr result (IsReasonToRead log name.now) }
    ensures fault { IfErr result (λ fault. is_bad_realm fault ≡ false) }
    ensures settled { S.keeping.is_true store.new → OnOk result (IsSettled S.keeping store.new) }
{
    let loaded = match store.load(name) {
        Ok(loaded) => loaded,
        Err(tip_rows::LoadFault::Refused) => return Err(LoadFault::Refused),
        Err(tip_rows::LoadFault::BadRow) => return Err(LoadFault::BadRow),
        Err(tip_rows::LoadFault::Memory) => return Err(LoadFault::Memory),
    };
    if loaded.epoch == 0 {
        return Err(LoadFault::BadRow);
    }
    if !are_rising(&loaded.rows) {
        return Err(LoadFault::BadRow);
    }
    Ok(Recovery::of(alloc, name.copy()?, loaded, Vec::new(alloc))?)
}

/// Whether each of these rows comes before the next, by its key.
fn are_rising(rows: &[(Key, Row)]) -> bool
    ensures { result ≡ is_rising rows.now }
{
    rows.is_sorted_by(|row, next| row.0.comes_before(next.0))
}

/// What is stored of each realm.
fn read_all<S: RowLog>(
    alloc: Global,
    store: &mut S,
    specs: &[RealmSpec],
) -> Result<Vec<Recovery>, LoadFault>
    ensures goes { Goes S.keeping (refused_by result) Stays
        Never store.old store.new }
    ensures own { IfOk result (λ realms. AreTheirs specs.now realms.items) }
    ensures read { (log : Log) → S.keeping.stands store.old log → S.keeping.is_true store.new →
        IfOk result (λ realms. AreRead log specs.now realms.items) }
    ensures reason { (log : Log) → S.keeping.stands store.old log → S.keeping.is_true store.new →
        IfErr result (IsReasonToReadAll specs.now log) }
    ensures fault { IfErr result (λ fault. is_bad_realm fault ≡ false) }
    ensures settled { IsSettled S.keeping store.old → S.keeping.is_true store.new →
        OnOk result (IsSettled S.keeping store.new) }
{
    let mut realms = Vec::with_capacity(alloc, specs.len())?;
    for spec in specs {
        realms.push_reserved(read(alloc, store, &spec.name)?);
    }
    Ok(realms)
}

/// Each realm is made known, and then all epochs rise.
fn open<S: RowLog>(store: &mut S, specs: &[RealmSpec]) -> Result<(), LoadFault>
    ensures ok { OnOk result (Goes S.keeping false
        (AreOpened (names_of specs.now)) (IsOnTheWay (names_of specs.now)) store.old
        store.new) }
    ensures err { IfErr result (λ fault. Goes S.keeping
        (is_refusal_to_load fault) (IsOnTheWay (names_of specs.now))
        (IsOnTheWay (names_of specs.now)) store.old store.new) }
    ensures reason { (log : Log) → S.keeping.stands store.old log → S.keeping.is_true store.new →
        IfErr result (IsReason specs.now log) }
    ensures risen { (log : Log) → S.keeping.stands store.old log → S.keeping.is_true store.new →
        OnOk result ((known : List ℕ) → ¬ IsAtEnd (known_all (names_of specs.now) log) known) }
    ensures fault { IfErr result (λ fault. is_bad_realm fault ≡ false) }
    ensures settled { S.keeping.is_true store.new → OnOk result (IsSettled S.keeping store.new) }
{
    if know_all(store, specs).is_err() {
        return Err(LoadFault::Refused);
    }
    match store.raise_epochs() {
        Ok(()) => Ok(()),
        Err(RaiseFault::Refused) => Err(LoadFault::Refused),
        Err(RaiseFault::EpochEnd) => Err(LoadFault::EpochEnd),
    }
}

/// Each realm at its start, in the epoch that was read.
fn starts_of(
    alloc: Global,
    specs: Vec<RealmSpec>,
    realms: &[Recovery],
) -> Result<Starts, AllocError>
    requires own { AreTheirs specs.items realms.now }
    requires differ { names_differ specs.items ≡ true }
    ensures { IfOk result (λ starts. starts ≡ starts_of specs.items realms.now) }
{
    let mut starts = Starts::new(alloc);
    let mut place = 0;
    for spec in specs {
        add_start(&mut starts, spec.into_start(realms[place].epoch()))?;
        place += 1;
    }
    Ok(starts)
}

/// One realm more is to start: it has an epoch, and a name of its own.
fn add_start(starts: &mut Starts, start: Start) -> Result<(), AllocError>
    requires named { list_all (is_other start.name) starts.old ≡ true }
    requires epoch { 0 < start.epoch }
    ensures { OnOk result (starts.new ≡ starts.old ++ start ∷ []) }
{
    match starts.add(start) {
        Ok(()) => Ok(()),
        Err(StartFault::Memory) => Err(AllocError),
        Err(StartFault::SameName | StartFault::NoEpoch) => unreachable!(),
    }
}

/// These realms start in place of those of a core, and there is room for the transactions of their rows.
fn start_all(
    alloc: Global,
    core: Core,
    specs: Vec<RealmSpec>,
    realms: &[Recovery],
) -> Result<Core, AllocError>
    requires own { AreTheirs specs.items realms.now }
    requires differ { names_differ specs.items ≡ true }
    ensures begun { IfOk result (λ core. HaveBegun core realms.now) }
    ensures realms { IfOk result (λ core. (place : ℕ) → realm_at core place ≡ option_map
        (λ start. started (starting start))
        (slice_get (starts_of specs.items realms.now) place)) }
{
    let starts = starts_of(alloc, specs, realms)?;
    let mut core = core.start(alloc, starts)?;
    reserve_all(&mut core, realms)?;
    Ok(core)
}

/// Each realm gets room for the transactions of its rows.
fn reserve_all(core: &mut Core, realms: &[Recovery]) -> Result<(), AllocError>
    requires { HaveNames core.old }
    ensures realms { (place : ℕ) → realm_at core.new place ≡ realm_at core.old place }
    ensures room { OnOk result ((place : ℕ) (recovery : Reading) →
        slice_get realms.now place ≡ Some recovery → realm_at core.old place ≢ None →
        length recovery.rows ≤ free_in place core.new) }
    ensures names { HaveNames core.new }
{
    for (place, recovery) in realms.iter().enumerate() {
        core.reserve(place, recovery.rows().len())?;
    }
    Ok(())
}

/// Whether these are at most 64 realms, each with a name of its own.
fn are_hostable(specs: &[RealmSpec]) -> bool
    ensures { result ≡ are_hostable specs.now }
{
    specs.len() <= MOST_REALMS && names_differ(specs)
}

/// Each realm is made known, all epochs rise, and what is stored of each realm is read.
fn open_and_read<S: RowLog>(
    alloc: Global,
    store: &mut S,
    specs: &[RealmSpec],
) -> Result<Vec<Recovery>, LoadFault>
    ensures ok { OnOk result (Goes S.keeping false
        (AreOpened (names_of specs.now)) (IsOnTheWay (names_of specs.now)) store.old
        store.new) }
    ensures err { IfErr result (λ fault. Goes S.keeping
        (is_refusal_to_load fault) (IsOnTheWay (names_of specs.now))
        (IsOnTheWay (names_of specs.now)) store.old store.new) }
    ensures own { IfOk result (λ realms. AreTheirs specs.now realms.items) }
    ensures read { (log : Log) → S.keeping.stands store.old log → S.keeping.is_true store.new →
        IfOk result (λ realms. AreRead (opened (names_of specs.now) log) specs.now realms.items) }
    ensures reason { (log : Log) → S.keeping.stands store.old log → S.keeping.is_true store.new →
        IfErr result (IsReason specs.now log) }
    ensures risen { (log : Log) → S.keeping.stands store.old log → S.keeping.is_true store.new →
        OnOk result ((known : List ℕ) → ¬ IsAtEnd (known_all (names_of specs.now) log) known) }
    ensures hostable { OnOk result (are_hostable specs.now ≡ true) }
    ensures bad_realm { IfErr result (λ fault. is_bad_realm fault ≡ not (are_hostable specs.now)) }
    ensures settled { S.keeping.is_true store.new → OnOk result (IsSettled S.keeping store.new) }
{
    if !are_hostable(specs) {
        return Err(LoadFault::BadRealm);
    }
    match open(store, specs) {
        Ok(()) => read_all(alloc, store, specs),
        Err(fault) => Err(fault),
    }
}
