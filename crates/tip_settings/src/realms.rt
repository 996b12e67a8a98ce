//! A realm of the configuration.
ghost use Rattle.std.specs.Prelude.{◌≡◌, true, Some, None, IfOk, IfErr, OnErr, MatchResult, option_map, string_bytes};
ghost use Rattle.tip_machine.specs.Heads.{are_allowed};
ghost use Rattle.tip_settings.specs.Faults.{Fails, IsLacking, IsWrongAt, Lacks, Refuses};
ghost use Rattle.tip_settings.specs.Limits.{alone, limit_in, limits_in};
ghost use Rattle.tip_settings.specs.Realms.{address_in, control_in, listen_in, name_in, realm_in, realm_of, setting_of};
ghost use Rattle.tip_settings.specs.Reasons.{first_limit};
ghost use Rattle.tip_settings.specs.declared.fault.Wanted.TheVariants as wanted;
ghost use Rattle.toml.specs.View.{table_view, view};

use crate::branches::{branches_in, plans_in};
use crate::config::RealmConfig;
use crate::documents::{integer_at, text_at, value_at};
use crate::fault::{ConfigFault, RealmFault, Wanted};
use crate::limit::Limit;
use std::alloc::Global;
use tip_line::{Address, Realm, WordFault};
use tip_machine::Limits;
use toml::{Table, Value};

/// The realm that a value is, which stands at this place.
#[tactic(auto, unfolding(crate::specs::Realms::realm_of))]
pub(crate) fn realm_of(
    alloc: Global,
    value: &Value,
    place: usize,
) -> Result<RealmConfig, ConfigFault>
    ensures ok { IfOk result (λ realm. realm_of (view value.now) ≡ Some (setting_of realm)) }
    ensures wrong { IfErr result (λ fault. Refuses fault (realm_of (view value.now))) }
    ensures why { IfErr result (λ fault. IsWrongAt place fault (view value.now)) }
{
    let Some(table) = value.as_table() else {
        return Err(ConfigFault::Realms);
    };
    match realm_in(alloc, table) {
        Ok(realm) => Ok(realm),
        Err(RealmFault::Memory) => Err(ConfigFault::Memory),
        Err(RealmFault::Wrong(wanted)) => Err(ConfigFault::Realm { place, wanted }),
    }
}

#[tactic(auto, unfolding(crate::specs::Realms::realm_in))]
fn realm_in(alloc: Global, table: &Table) -> Result<RealmConfig, RealmFault>
    ensures ok { IfOk result
        (λ realm. realm_in (table_view table.now) ≡ Some (setting_of realm)) }
    ensures wrong { IfErr result (λ fault. Fails fault (realm_in (table_view table.now))) }
    ensures why { IfErr result (λ fault. IsLacking fault (table_view table.now)) }
{
    let name = name_in(alloc, table)?;
    let listen = listen_in(alloc, table)?;
    let address = address_in(alloc, table)?;
    let control = control_in(alloc, table)?;
    let plans = plans_in(alloc, table)?;
    let branches = branches_in(alloc, table, plans.len())?;
    Ok(RealmConfig {
        name,
        listen,
        address,
        control,
        plans,
        branches,
        limits: limits_in(table)?,
    })
}

#[tactic(auto, unfolding(crate::specs::Realms::name_in))]
fn name_in(alloc: Global, table: &Table) -> Result<Realm, RealmFault>
    ensures { MatchResult result (λ name. name_in (table_view table.now) ≡ Some name)
        (λ fault. Lacks wanted.Name fault (name_in (table_view table.now))) }
{
    let Some(text) = text_at(table, "name") else {
        return Err(RealmFault::Wrong(Wanted::Name));
    };
    match Realm::new(alloc, text.as_bytes()) {
        Ok(name) => Ok(name),
        Err(WordFault::NotWord) => Err(RealmFault::Wrong(Wanted::Name)),
        Err(WordFault::Memory) => Err(RealmFault::Memory),
    }
}

#[tactic(auto, unfolding(crate::specs::Realms::listen_in))]
fn listen_in(alloc: Global, table: &Table) -> Result<String, RealmFault>
    ensures { MatchResult result
        (λ listen. listen_in (table_view table.now) ≡ Some (string_bytes listen))
        (λ fault. Lacks wanted.Listen fault (listen_in (table_view table.now))) }
{
    match text_at(table, "listen") {
        Some(text) => Ok(String::from_str(alloc, text)?),
        None => Err(RealmFault::Wrong(Wanted::Listen)),
    }
}

#[tactic(auto, unfolding(crate::specs::Realms::address_in))]
fn address_in(alloc: Global, table: &Table) -> Result<Address, RealmFault>
    ensures { MatchResult result (λ address. address_in (table_view table.now) ≡ Some address)
        (λ fault. Lacks wanted.Address fault (address_in (table_view table.now))) }
{
    let Some(text) = text_at(table, "address") else {
        return Err(RealmFault::Wrong(Wanted::Address));
    };
    match Address::new(alloc, text.as_bytes()) {
        Ok(address) => Ok(address),
        Err(WordFault::NotWord) => Err(RealmFault::Wrong(Wanted::Address)),
        Err(WordFault::Memory) => Err(RealmFault::Memory),
    }
}

#[tactic(auto, unfolding(crate::specs::Realms::control_in))]
fn control_in(alloc: Global, table: &Table) -> Result<Option<String>, RealmFault>
    ensures { MatchResult result
        (λ control. control_in (table_view table.now) ≡ Some (option_map string_bytes control))
        (λ fault. Lacks wanted.Control fault (control_in (table_view table.now))) }
{
    let Some(value) = value_at(table, "control") else {
        return Ok(None);
    };
    match value.as_str() {
        Some(text) => Ok(Some(String::from_str(alloc, text)?)),
        None => Err(RealmFault::Wrong(Wanted::Control)),
    }
}

#[tactic(auto, using(crate::proofs::LimitLemmas::together), unfolding(crate::specs::Limits::limits_in))]
fn limits_in(table: &Table) -> Result<Limits, Limit>
    ensures ok { IfOk result (λ limits. limits_in (table_view table.now) ≡ Some limits) }
    ensures allowed { IfOk result (λ limits. are_allowed limits ≡ true) }
    ensures wrong { OnErr result (limits_in (table_view table.now) ≡ None) }
    ensures why { IfErr result (λ limit. first_limit (table_view table.now) ≡ Some limit) }
{
    Ok(Limits {
        connections: limit_in(table, Limit::Connections)?,
        transactions: limit_in(table, Limit::Transactions)?,
        boxes: limit_in(table, Limit::Boxes)?,
        entries: limit_in(table, Limit::Entries)?,
    })
}

#[tactic(auto, unfolding(crate::specs::Limits::limit_in))]
fn limit_in(table: &Table, limit: Limit) -> Result<u32, Limit>
    ensures ok { IfOk result (λ number. limit_in limit (table_view table.now) ≡ Some number) }
    ensures allowed { IfOk result (λ number. are_allowed (alone limit number) ≡ true) }
    ensures wrong { OnErr result (limit_in limit (table_view table.now) ≡ None) }
    ensures same { IfErr result (λ wrong. wrong ≡ limit) }
{
    let Some(number) = integer_at(table, limit.key()) else {
        return Err(limit);
    };
    match u32::try_from(number) {
        Ok(number) if limit.alone(number).are_allowed() => Ok(number),
        _ => Err(limit),
    }
}
