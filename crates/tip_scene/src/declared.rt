//! The realms of a script, before they start.
ghost use Rattle.std.specs.Prelude.{◌≡◌, ◌≤◌, ◌+◌, ◌++◌, ◌&&◌, true, false, ℕ, List, [], None, Some, length, map, option_map, IfErr, IfOk, OnErr, OnOk, IsErrOf, string_bytes};
ghost use Rattle.std.specs.List.{list_all, position_or_len};
ghost use Rattle.tip_branch.specs.Always.{Always};
ghost use Rattle.tip_line.specs.Fields.{fields_of};
ghost use Rattle.tip_line.specs.Words.{is_address, is_realm};
ghost use Rattle.tip_scene.specs.Acts.{Basis, Declaring as Begins, declaration_of, declared, is_count, is_declared, is_other, labelled, scene_of, starts_text, with_labels};
ghost use Rattle.tip_scene.specs.Blaming.{Blames, HasRefused, IsAtFault, IsSpared, Spares};
ghost use Rattle.tip_scene.specs.Boxes.{AreWilling, box_count};
ghost use Rattle.tip_scene.specs.Hosting.{may_be_hosted};
ghost use Rattle.tip_rows.specs.Logs.{Log};
ghost use Rattle.tip_scene.specs.Leaving.{MayAllRise, OthersStay};
ghost use Rattle.tip_scene.specs.Rising.{AreNew};
ghost use Rattle.tip_scene.specs.Stages.{Declares, IsDeclared, IsBasis, Trusts, spec_of};
ghost use Rattle.tip_scene.specs.Standing.{IsScene};
ghost use Rattle.tip_scene.specs.declared.fault.LineFault.TheVariants.{NotUnderstood, Store};

use crate::branches::{first_branches, labelled_branches};
use crate::counting::count_declared;
use crate::fault::LineFault;
use crate::playing::Playing;
use crate::rising::rise;
use std::alloc::{AllocError, Global};
use std::collections::VecDeque;
use tip_actor::{ActFault, Actor};
use tip_branch::Branch;
use tip_core::Core;
use tip_line::{Address, Realm};
use tip_machine::Limits;
use tip_rows::{Branches, RowLog};
use tip_stored::{RealmSpec, StoredCore};

/// How many realms a script may declare.
const MOST_REALMS: usize = 64;

/// A realm that a script declares.
#[derive(Drop)]
pub struct Declaration {
    pub(crate) name: Realm,
    address: Address,
    limits: Limits,
    branches: Branches,
    /// Its branches have labels that the script names.
    is_labelled: bool,
}

/// The realms declared so far, and the store over which they are to start.
#[derive(Drop)]
pub struct Declared<S, C = Core> {
    core: C,
    pub(crate) store: S,
    declarations: Vec<Declaration>,
}

impl<S: RowLog + Drop> Declared<S, Core> {
    /// None are declared. The core, which has no realms yet, is for their start.
    pub fn new(alloc: Global, core: Core, store: S) -> Declared<S, Core>
        requires { Always }
        ensures store { result.store ≡ store }
        ensures hostable { list_all may_be_hosted result.declarations.items ≡ true }
        ensures none { (basis : Basis) → IsBasis S.keeping basis store →
            IsDeclared S.keeping basis result [] }
    {
        Declared {
            core,
            store,
            declarations: Vec::new(alloc),
        }
    }

    /// One realm more.
    pub fn add(
        &mut self,
        alloc: Global,
        name: &str,
        address: &[u8],
        branches: u32,
        limits: Limits,
    ) -> Result<(), LineFault>
        requires { Always }
        ensures store { self.new.store ≡ self.old.store }
        ensures hostable { list_all may_be_hosted self.old.declarations.items ≡ true →
            list_all may_be_hosted self.new.declarations.items ≡ true }
        ensures declares { Declares
            (declared name.now address.now branches limits self.old.declarations.items)
            self.new.declarations.items result }
    {
        if self.declarations.len() >= MOST_REALMS
            || !is_count(branches)
            || !limits.are_allowed()
            || !is_new(name, &self.declarations)
        {
            return Err(LineFault::NotUnderstood);
        }
        let declaration = declaration_of(alloc, name, address, branches, limits)?;
        self.declarations.push(declaration)?;
        Ok(())
    }

    /// The branches of a realm's transactions have these labels, by number; spaces stand between them.
    pub fn label(&mut self, alloc: Global, name: &str, labels: &[u8]) -> Result<(), LineFault>
        requires { Always }
        ensures store { self.new.store ≡ self.old.store }
        ensures hostable { list_all may_be_hosted self.old.declarations.items ≡ true →
            list_all may_be_hosted self.new.declarations.items ≡ true }
        ensures declares { Declares
            (labelled name.now (fields_of 32 labels.now) self.old.declarations.items)
            self.new.declarations.items result }
    {
        let place = place_of(name, &self.declarations);
        let Some(declaration) = self.declarations.get_mut(place) else {
            return Err(LineFault::NotUnderstood);
        };
        declaration.label(alloc, labels)
    }

    /// The realms start, and say in which epoch; each branch of a stored row has a box out of this pool. The store comes back at a
    /// fault, too.
    pub fn start(
        self,
        alloc: Global,
        pool: &mut Vec<Box<dyn Branch + Send>>,
        printed: &mut String,
    ) -> Result<Playing<StoredCore<S>>, (ActFault, S)>
        requires hostable { list_all may_be_hosted self.declarations.items ≡ true }
        requires willing { AreWilling (map standing pool.old.items) }
        ensures willing { OnOk result (AreWilling (map standing pool.new.items)) }
        ensures running { IfOk result (λ playing. playing.stored_core.is_stopped ≡ false) }
        ensures truth { Trusts S.keeping self.store
            (λ playing. playing.stored_core.store) result }
        ensures leaves { IfOk result (λ playing. S.keeping.is_true playing.stored_core.store →
            (names : List (List ℕ)) →
            OthersStay S.keeping 1 names self.store playing.stored_core.store) }
        ensures counts { IfOk result (λ playing. S.keeping.faults playing.stored_core.store
            ≡ S.keeping.faults self.store) }
        ensures spares { Spares S.keeping ActFault.Memory self.store result }
        ensures blames { (basis : Basis) (declarations : List Declaration) →
            IsDeclared S.keeping basis self declarations →
            box_count None (scene_of basis declarations) ≤ length pool.old.items →
            Blames S.keeping ActFault.Store
            (IsAtFault S.keeping self.store (Begins declarations)) result }
        ensures left { (basis : Basis) (declarations : List Declaration) →
            IsDeclared S.keeping basis self declarations →
            IfOk result (λ playing. S.keeping.is_true playing.stored_core.store →
            length pool.new.items + box_count None (scene_of basis declarations)
            ≡ length pool.old.items) }
        ensures text { (basis : Basis) (declarations : List Declaration) →
            IsDeclared S.keeping basis self declarations →
            IfOk result (λ playing. S.keeping.is_true playing.stored_core.store →
            string_bytes printed.new
            ≡ string_bytes printed.old ++ starts_text basis declarations) }
        ensures scene { (basis : Basis) (declarations : List Declaration) →
            IsDeclared S.keeping basis self declarations →
            IfOk result (λ playing. S.keeping.is_true playing.stored_core.store → IsScene
            S.keeping playing.stored_core playing.actors.items
            (scene_of basis declarations)) }
        ensures halts { IfErr result (λ fault. MayAllRise S.keeping 0 [] self.store fault.1) }
    {
        let Declared {
            core,
            store,
            declarations,
        } = self;
        let Ok((actors, specs)) = parts_of(alloc, declarations) else {
            return Err((ActFault::Memory, store));
        };
        match StoredCore::load(alloc, store, core, specs) {
            Ok(recovering) => rise(alloc, recovering, actors, pool, printed),
            Err((fault, store)) => Err((ActFault::from(fault), store)),
        }
    }

    /// How many boxes a start wants: a willing one for each branch of each stored row, of one realm or of all.
    pub(crate) fn willing(&mut self, only: Option<&str>) -> Result<usize, ActFault>
        requires { Always }
        ensures same { self.new.declarations ≡ self.old.declarations }
        ensures truth { S.keeping.is_true self.new.store → S.keeping.is_true self.old.store }
        ensures stands { (basis : Basis) (declarations : List Declaration) →
            IsDeclared S.keeping basis self.old declarations →
            IsDeclared S.keeping basis self.new declarations }
        ensures stood { (log : Log) → S.keeping.stands self.old.store log →
            S.keeping.stands self.new.store log }
        ensures counts { OnOk result (S.keeping.faults self.new.store
            ≡ S.keeping.faults self.old.store) }
        ensures spared { IsSpared S.keeping ActFault.Memory self.old.store self.new.store result }
        ensures blames { (basis : Basis) (declarations : List Declaration) →
            IsDeclared S.keeping basis self.old declarations → IsErrOf result ActFault.Store →
            S.keeping.is_true self.new.store →
            HasRefused S.keeping self.old.store self.new.store }
        ensures wanted { (basis : Basis) (declarations : List Declaration) →
            IsDeclared S.keeping basis self.old declarations →
            IfOk result (λ count. S.keeping.is_true self.new.store → count
            ≡ box_count (option_map (λ name. name.now) only.entry) (scene_of basis declarations)) }
    {
        count_declared(&mut self.store, &self.declarations, only)
    }
}

impl Declaration {
    /// Its branches have these labels, by number, where none were named before.
    fn label(&mut self, alloc: Global, labels: &[u8]) -> Result<(), LineFault>
        ensures ok { OnOk result (with_labels (fields_of 32 labels.now) self.old ≡ Some self.new) }
        ensures bad { IsErrOf result NotUnderstood →
            with_labels (fields_of 32 labels.now) self.old ≡ None }
        ensures unblamed { IsErrOf result Store → ⊥ }
        ensures same { OnErr result (self.new ≡ self.old) }
    {
        if self.is_labelled {
            return Err(LineFault::NotUnderstood);
        }
        let branches = labelled_branches(alloc, labels)?;
        if branches.as_slice().len() != self.branches.as_slice().len() {
            return Err(LineFault::NotUnderstood);
        }
        self.branches = branches;
        self.is_labelled = true;
        Ok(())
    }

    /// The realm as it is to be hosted. It takes no memory.
    fn into_spec(self) -> RealmSpec
        requires { may_be_hosted self ≡ true }
        ensures { result ≡ spec_of self }
    {
        let Declaration {
            name,
            address,
            limits,
            branches,
            ..
        } = self;
        match RealmSpec::new(name, address, limits, branches) {
            Ok(spec) => spec,
            Err(_) => unreachable!(),
        }
    }
}

/// Whether no realm has this name.
fn is_new(name: &str, declarations: &[Declaration]) -> bool
    ensures { result ≡ list_all (is_other name.now) declarations.now }
{
    declarations
        .iter()
        .all(|declaration| declaration.name.as_str() != name)
}

/// The place of a realm; one behind all realms where it is not declared.
fn place_of(name: &str, declarations: &[Declaration]) -> usize
    ensures { result ≡ position_or_len (is_declared name.now) declarations.now }
{
    for (place, declaration) in declarations.iter().enumerate() {
        if declaration.name.as_str() == name {
            return place;
        }
    }
    declarations.len()
}

/// Whether a transaction may have so many branches.
fn is_count(branches: u32) -> bool
    ensures { result ≡ is_count branches }
{
    (1..=8).contains(&branches)
}

/// A realm that is declared so, with the first branches.
fn declaration_of(
    alloc: Global,
    name: &str,
    address: &[u8],
    branches: u32,
    limits: Limits,
) -> Result<Declaration, LineFault>
    requires { branches ≤ 8 }
    ensures ok { IfOk result (λ declaration. (declaration
        ≡ declaration_of name.now address.now branches limits) × (is_realm name.now ≡ true)
        × (is_address address.now ≡ true)) }
    ensures bad { IsErrOf result NotUnderstood →
        (is_realm name.now && is_address address.now) ≡ false }
    ensures unblamed { IsErrOf result Store → ⊥ }
{
    Ok(Declaration {
        name: Realm::new(alloc, name.as_bytes())?,
        address: Address::new(alloc, address)?,
        limits,
        branches: first_branches(alloc, branches as u8)?,
        is_labelled: false,
    })
}

/// Each realm at its start, and as it is to be hosted.
fn parts_of(
    alloc: Global,
    declarations: Vec<Declaration>,
) -> Result<(Vec<Actor>, Vec<RealmSpec>), AllocError>
    requires { list_all may_be_hosted declarations.items ≡ true }
    ensures { IfOk result (λ parts. ((basis : Basis) →
        AreNew parts.0.items (scene_of basis declarations.items))
        × (parts.1.items ≡ map spec_of declarations.items)) }
{
    let actors = actors_of(alloc, &declarations)?;
    let specs = specs_of(alloc, declarations)?;
    Ok((actors, specs))
}

/// Each realm at its start.
fn actors_of(alloc: Global, declarations: &[Declaration]) -> Result<Vec<Actor>, AllocError>
    ensures { IfOk result
        (λ actors. (basis : Basis) → AreNew actors.items (scene_of basis declarations.now)) }
{
    let mut actors = Vec::with_capacity(alloc, declarations.len())?;
    for declaration in declarations {
        let name = declaration.name.copy()?;
        actors.push(Actor::new(alloc, name, VecDeque::new(alloc)))?;
    }
    Ok(actors)
}

/// Each realm as it is to be hosted.
fn specs_of(alloc: Global, declarations: Vec<Declaration>) -> Result<Vec<RealmSpec>, AllocError>
    requires { list_all may_be_hosted declarations.items ≡ true }
    ensures { IfOk result (λ specs. specs.items ≡ map spec_of declarations.items) }
{
    let mut specs = Vec::with_capacity(alloc, declarations.len())?;
    for declaration in declarations {
        specs.push(declaration.into_spec())?;
    }
    Ok(specs)
}
