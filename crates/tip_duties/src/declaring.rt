//! The realms of a configuration, as they are to be hosted.
ghost use Rattle.std.specs.Prelude.{◌≡◌, IfOk, map, not};
ghost use Rattle.std.specs.List.{list_all};
ghost use Rattle.std.specs.Str.{bytes_eq};
ghost use Rattle.tip_duties.specs.Declarations.{are_apart, declared};
ghost use Rattle.tip_stored.specs.Loading.{are_hostable};

use std::alloc::{AllocError, Global};
use tip_line::Realm;
use tip_settings::RealmConfig;
use tip_stored::RealmSpec;

/// How many realms a process may host.
const MOST_REALMS: usize = 64;

/// The realms of a configuration, in its order.
pub fn declarations(alloc: Global, realms: &[RealmConfig]) -> Result<Vec<RealmSpec>, AllocError>
    ensures { IfOk result (λ specs. specs.items ≡ map declared realms.now) }
{
    let mut specs = Vec::with_capacity(alloc, realms.len())?;
    for realm in realms {
        specs.push(declaration(alloc, realm)?)?;
    }
    Ok(specs)
}

/// A realm of a configuration, which is allowed as it stands.
fn declaration(alloc: Global, realm: &RealmConfig) -> Result<RealmSpec, AllocError>
    ensures { IfOk result (λ spec. spec ≡ declared realm.now) }
{
    let name = realm.name.copy()?;
    let address = realm.address.copy()?;
    let branches = realm.branches.copy(alloc)?;
    match RealmSpec::new(name, address, realm.limits, branches) {
        Ok(spec) => Ok(spec),
        Err(_) => unreachable!(),
    }
}

/// Whether these are at most 64 realms, each with a name of its own.
#[tactic(auto, using(crate::proofs::Declared::declared_apart, crate::proofs::Declared::as_many_declared))]
pub fn may_be_hosted(realms: &[RealmConfig]) -> bool
    ensures { result ≡ are_hostable (map declared realms.now) }
{
    realms.len() <= MOST_REALMS && are_apart(realms)
}

/// Whether no two of these realms have one name.
fn are_apart(realms: &[RealmConfig]) -> bool
    ensures { result ≡ are_apart realms.now }
{
    match realms {
        [] => true,
        [realm, rest @ ..] => is_new(&realm.name, rest) && are_apart(rest),
    }
}

/// Whether no realm has this name.
fn is_new(name: &Realm, realms: &[RealmConfig]) -> bool
    ensures { result ≡ list_all (λ other. not (bytes_eq name.now other.name)) realms.now }
{
    realms.iter().all(|other| *name != other.name)
}
