//! Reading a configuration.
ghost use Rattle.std.specs.Prelude.{◌≡◌, ◌≢◌, ◌+◌, ◌≤◌, Some, None, IfOk, IfErr, length, map, take};
ghost use Rattle.tip_settings.specs.Configurations.{configuration, configuration_in, data_of, realms_in};
ghost use Rattle.tip_settings.specs.Documents.{each_of};
ghost use Rattle.tip_settings.specs.Faults.{IsWrongAmong, Refuses};
ghost use Rattle.tip_settings.specs.Reasons.{IsWhy, IsWrong, line_ends};
ghost use Rattle.tip_settings.specs.Realms.{realm_of, setting_of};
ghost use Rattle.tip_settings.specs.declared.fault.ConfigFault.TheVariants.{Memory};
ghost use Rattle.toml.specs.View.{items_view, table_view};

use crate::config::{Config, RealmConfig};
use crate::documents::{array_at, text_at};
use crate::fault::ConfigFault;
use crate::realms::realm_of;
use std::alloc::Global;
use toml::{Table, Value};

/// The configuration that octets are. Of several things that are wrong the fault names the first.
pub fn read_config(alloc: Global, bytes: &[u8]) -> Result<Config, ConfigFault>
    ensures ok { IfOk result (λ config. configuration bytes.now ≡ Some (data_of config)) }
    ensures refused { IfErr result (λ fault. fault ≢ Memory → configuration bytes.now ≡ None) }
    ensures why { IfErr result (λ fault. IsWhy fault bytes.now) }
{
    match toml::table_from_slice(alloc, bytes) {
        Ok(table) => config_in(alloc, &table),
        Err(error) => match error.span() {
            Some(span) => Err(ConfigFault::Syntax {
                line: line_of(bytes, span.start),
            }),
            None => Err(ConfigFault::Memory),
        },
    }
}

#[tactic(auto, unfolding(crate::specs::Configurations::configuration_in))]
fn config_in(alloc: Global, table: &Table) -> Result<Config, ConfigFault>
    ensures ok { IfOk result
        (λ config. configuration_in (table_view table.now) ≡ Some (data_of config)) }
    ensures wrong { IfErr result
        (λ fault. Refuses fault (configuration_in (table_view table.now))) }
    ensures why { IfErr result (λ fault. IsWrong fault (table_view table.now)) }
{
    let Some(store) = text_at(table, "store") else {
        return Err(ConfigFault::Store);
    };
    let store = String::from_str(alloc, store)?;
    Ok(Config {
        store,
        realms: realms_in(alloc, table)?,
    })
}

#[tactic(auto, unfolding(crate::specs::Configurations::realms_in))]
fn realms_in(alloc: Global, table: &Table) -> Result<Vec<RealmConfig>, ConfigFault>
    ensures ok { IfOk result
        (λ realms. realms_in (table_view table.now) ≡ Some (map setting_of realms.items)) }
    ensures wrong { IfErr result (λ fault. Refuses fault (realms_in (table_view table.now))) }
    ensures why { IfErr result (λ fault. IsWrong fault (table_view table.now)) }
{
    let Some(items) = array_at(table, "realm") else {
        return Err(ConfigFault::Realms);
    };
    let realms = each_realm(alloc, items)?;
    if realms.is_empty() {
        return Err(ConfigFault::Realms);
    }
    Ok(realms)
}

/// The realms that these values are.
fn each_realm(alloc: Global, items: &[Value]) -> Result<Vec<RealmConfig>, ConfigFault>
    ensures ok { IfOk result
        (λ realms. each_of realm_of (items_view items.now) ≡ Some (map setting_of realms.items)) }
    ensures wrong { IfErr result
        (λ fault. Refuses fault (each_of realm_of (items_view items.now))) }
    ensures why { IfErr result (λ fault. IsWrongAmong fault (items_view items.now)) }
{
    let mut realms = Vec::new(alloc);
    for (index, item) in items.iter().enumerate() {
        realms.push(realm_of(alloc, item, index + 1)?)?;
    }
    Ok(realms)
}

/// The line, from 1, of the place behind so many octets.
fn line_of(bytes: &[u8], before: usize) -> usize
    requires { before ≤ length bytes.now }
    ensures { result ≡ 1 + line_ends (take before bytes.now) }
{
    1 + bytes[..before]
        .iter()
        .filter(|octet| **octet == b'\n')
        .count()
}
