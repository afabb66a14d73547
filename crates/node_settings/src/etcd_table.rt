//! The table `lease.etcd`.

ghost use Rattle.std.specs.Prelude.{◌≡◌, Some, None, codes, IsSomeAnd, OnOk, IfErr};
ghost use Rattle.node_settings.specs.declared.settings_fault.SettingsFault.TheVariants as fault;
ghost use Rattle.node_settings.specs.Answers.{Reads};
ghost use Rattle.node_settings.specs.Configuration.{IsEtcd, IsEtcdTable, endpoints_of, etcd_key_of, etcd_keys};
ghost use Rattle.node_settings.specs.Values.{HasOnly, HoldsOr, IsKeyText, IsSomeOf, IsUrls, members_at, section as section_in};

use crate::place::keys_of;
use crate::table::{check_keys, section_at, value_at};
use crate::url_array::urls;
use crate::values::key_text;
use crate::{EtcdPlace, Place, SettingsFault, Urls};
use lf_base::Text;
use std::alloc::Global;
use toml::Table;

/// What the keys of the table say.
#[derive(Drop)]
pub(crate) struct EtcdTable {
    endpoints: Option<Urls>,
    key: Option<Text>,
}

/// Where etcd is, as the table `lease` says it.
pub(crate) fn etcd(alloc: Global, lease: Option<&Table>) -> Result<Option<EtcdPlace>, SettingsFault>
    ensures { Reads (λ etcd. IsSomeAnd (section_in (codes "etcd") (members_at lease.entry)) (λ t. IsEtcd t etcd)) result }
{
    let table = etcd_table(alloc, lease)?;
    place_of(table.endpoints, table.key)
}

/// A key is only there for endpoints.
fn place_of(endpoints: Option<Urls>, key: Option<Text>) -> Result<Option<EtcdPlace>, SettingsFault>
    ensures { Reads (λ etcd. (endpoints_of etcd ≡ endpoints) × (etcd_key_of etcd ≡ key)) result }
{
    match endpoints {
        Some(endpoints) => Ok(Some(EtcdPlace { endpoints, key })),
        None if key.is_some() => Err(SettingsFault::Config),
        None => Ok(None),
    }
}

pub(crate) fn etcd_table(alloc: Global, lease: Option<&Table>) -> Result<EtcdTable, SettingsFault>
    ensures { Reads (λ etcd. IsSomeAnd (section_in (codes "etcd") (members_at lease.entry)) (λ t. IsEtcdTable t etcd.endpoints etcd.key)) result }
{
    let table = section_at(lease, "etcd")?;
    etcd_keys_of(alloc, table)
}

fn etcd_keys_of(alloc: Global, table: Option<&Table>) -> Result<EtcdTable, SettingsFault>
    ensures { Reads (λ etcd. IsEtcdTable (members_at table.entry) etcd.endpoints etcd.key) result }
{
    check_etcd_keys(table)?;
    let endpoints = endpoints(alloc, table)?;
    let key = key(alloc, table)?;
    Ok(EtcdTable { endpoints, key })
}

fn check_etcd_keys(table: Option<&Table>) -> Result<(), SettingsFault>
    ensures ok { OnOk result (HasOnly etcd_keys (members_at table.entry)) }
    ensures fault { IfErr result (λ f. (f ≡ fault.Config) × (HasOnly etcd_keys (members_at table.entry) → ⊥)) }
{
    check_keys(table, keys_of(Place::Etcd))
}

fn endpoints(alloc: Global, table: Option<&Table>) -> Result<Option<Urls>, SettingsFault>
    ensures { Reads (HoldsOr (codes "endpoints") (IsSomeOf IsUrls) None (members_at table.entry)) result }
{
    match value_at(table, "endpoints") {
        Some(value) => Ok(Some(urls(alloc, value)?)),
        None => Ok(None),
    }
}

fn key(alloc: Global, table: Option<&Table>) -> Result<Option<Text>, SettingsFault>
    ensures { Reads (HoldsOr (codes "key") (IsSomeOf IsKeyText) None (members_at table.entry)) result }
{
    match value_at(table, "key") {
        Some(value) => Ok(Some(key_text(alloc, value)?)),
        None => Ok(None),
    }
}
