//! A realm as it is to be hosted.
ghost use Rattle.std.specs.Prelude.{◌≡◌, ◌+◌, ◌≤◌, true, false, not, length, map, IfOk, OnErr, OnOk};
ghost use Rattle.std.specs.List.{list_all};
ghost use Rattle.std.specs.Str.{bytes_eq};
ghost use Rattle.tip_machine.specs.Starting.{are_counted_from};
ghost use Rattle.tip_stored.specs.Loading.{are_declared, is_allowed, names_differ, spec_of, start_of};

use std::alloc::{AllocError, Global};
use thiserror::Error;
use tip_line::{Address, Realm};
use tip_machine::{Head, Limits, Start};
use tip_rows::{Branches, Label};

/// A limit of the realm is out of its range, or its branches are not one to eight, numbered from 1.
#[derive(Clone, Copy, Debug, Error)]
#[error("a realm may not be declared so")]
pub struct BadRealm;

/// A realm as it is to be hosted: its name, the address at which others reach it, its limits, and the branches of each of its
/// transactions.
#[derive(Drop)]
pub struct RealmSpec {
    pub(crate) name: Realm,
    address: Address,
    limits: Limits,
    branches: Branches,
}

impl RealmSpec {
    /// A realm with these limits and branches, if it may have them.
    pub fn new(
        name: Realm,
        address: Address,
        limits: Limits,
        branches: Branches,
    ) -> Result<RealmSpec, BadRealm>
        ensures ok { IfOk result (λ spec. spec
            ≡ record { name = name; address = address; limits = limits; branches = branches }) }
        ensures allowed { OnOk result (is_allowed limits branches ≡ true) }
        ensures bad { OnErr result (is_allowed limits branches ≡ false) }
    {
        if !limits.are_allowed() || !are_declared(branches.as_slice()) {
            return Err(BadRealm);
        }
        Ok(RealmSpec {
            name,
            address,
            limits,
            branches,
        })
    }

    /// The realm of this head, as it was declared.
    fn of(alloc: Global, head: &Head) -> Result<RealmSpec, AllocError>
        ensures { IfOk result (λ spec. spec ≡ spec_of head.now) }
    {
        Ok(RealmSpec {
            name: head.name.copy()?,
            address: head.address.copy()?,
            limits: head.limits,
            branches: head.branches.copy(alloc)?,
        })
    }

    /// The realm at its start in this epoch. It takes no memory.
    pub(crate) fn into_start(self, epoch: u32) -> Start
        ensures { result ≡ start_of self epoch }
    {
        let RealmSpec {
            name,
            address,
            limits,
            branches,
        } = self;
        Start {
            name,
            address,
            limits,
            branches,
            epoch,
        }
    }
}

/// The realms of these heads, as they were declared.
pub(crate) fn declared(alloc: Global, heads: &[Head]) -> Result<Vec<RealmSpec>, AllocError>
    ensures { IfOk result (λ specs. specs.items ≡ map spec_of heads.now) }
{
    let mut specs = Vec::with_capacity(alloc, heads.len())?;
    for head in heads {
        specs.push_reserved(RealmSpec::of(alloc, head)?);
    }
    Ok(specs)
}

/// Whether no two of these realms have one name.
pub(crate) fn names_differ(specs: &[RealmSpec]) -> bool
    ensures { result ≡ names_differ specs.now }
{
    match specs {
        [] => true,
        [spec, rest @ ..] => is_new(&spec.name, rest) && names_differ(rest),
    }
}

/// Whether no realm has this name.
fn is_new(name: &Realm, specs: &[RealmSpec]) -> bool
    ensures { result ≡ list_all (λ other. not (bytes_eq name.now other.name)) specs.now }
{
    specs.iter().all(|other| *name != other.name)
}

/// Whether branches are one to eight, numbered from 1.
fn are_declared(branches: &[(u8, Label)]) -> bool
    ensures { result ≡ are_declared branches.now }
{
    (1..=8).contains(&branches.len()) && are_counted_from(1, branches)
}

/// Whether branches are numbered from here on, one by one.
fn are_counted_from(number: u8, branches: &[(u8, Label)]) -> bool
    requires { number + length branches.now ≤ 255 }
    ensures { result ≡ are_counted_from number branches.now }
{
    match branches {
        [] => true,
        [(own, _), rest @ ..] => *own == number && are_counted_from(number + 1, rest),
    }
}
