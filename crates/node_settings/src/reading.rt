//! The configuration read: its text, its root, and the tables in it but that of the lease.

ghost use Rattle.std.specs.Prelude.{◌≡◌, ◌^◌, ◌-◌, Some, true, false, codes, IsSomeAnd, OnOk, IfErr};
ghost use Rattle.toml.specs.View.{table_view};
ghost use Rattle.node_settings.specs.declared.settings_fault.SettingsFault.TheVariants as fault;
ghost use Rattle.node_settings.specs.Answers.{Reads};
ghost use Rattle.node_settings.specs.Complaints.{Answers};
ghost use Rattle.node_settings.specs.Configuration.{IsHttp, IsData, IsRoot, IsStaticRoot, IsConfiguration, IsStaticConfiguration, root_keys};
ghost use Rattle.node_settings.specs.Values.{Holds, HoldsOr, HasOnly, section as section_at, members_at, IsNameText, IsAddressText, IsOff, IsSwitch, IsNumber};
ghost use Rattle.node_settings.specs.Rules.{node_rules, static_rules};

use crate::complaining::{document, refused};
use crate::fuse_table::{FuseSettings, fuse};
use crate::lease_table::lease;
use crate::place::keys_of;
use crate::proxy_table::proxy;
use crate::rules::{node_rules, static_rules};
use crate::table::{check_keys, section, value_at};
use crate::values::{address, name, number, off, switch};
use crate::{Address, LeaseType, Place, Settings, SettingsFault, SettingsRefusal};
use lf_base::Name;
use std::alloc::Global;
use toml::Table;

/// The settings that a configuration says.
pub fn read_settings(alloc: Global, bytes: &[u8]) -> Result<Settings, SettingsRefusal>
    ensures { Answers (IsConfiguration bytes.now) node_rules bytes.now result }
{
    let root = document(alloc, bytes)?;
    match settings(alloc, &root) {
        Ok(settings) => Ok(settings),
        Err(SettingsFault::Config) => Err(refused(alloc, bytes, &root, node_rules())),
        Err(SettingsFault::NoMemory) => Err(SettingsRefusal::NoMemory),
    }
}

/// The settings of a node whose lease is granted by nobody. A configuration of another is refused.
pub fn read_static_settings(alloc: Global, bytes: &[u8]) -> Result<Settings, SettingsRefusal>
    ensures { Answers (IsStaticConfiguration bytes.now) static_rules bytes.now result }
{
    let root = document(alloc, bytes)?;
    match static_settings(alloc, &root) {
        Ok(settings) => Ok(settings),
        Err(SettingsFault::Config) => Err(refused(alloc, bytes, &root, static_rules())),
        Err(SettingsFault::NoMemory) => Err(SettingsRefusal::NoMemory),
    }
}

fn static_settings(alloc: Global, root: &Table) -> Result<Settings, SettingsFault>
    ensures { Reads (IsStaticRoot (table_view root.now)) result }
{
    let settings = settings(alloc, root)?;
    match settings.lease.lease_type {
        LeaseType::Static => Ok(settings),
        LeaseType::Service => Err(SettingsFault::Config),
        LeaseType::Etcd => Err(SettingsFault::Config),
    }
}

fn settings(alloc: Global, root: &Table) -> Result<Settings, SettingsFault>
    ensures { Reads (IsRoot (table_view root.now)) result }
{
    check_root_keys(root)?;
    let database = database(alloc, root)?;
    let log = log(root)?;
    let FuseSettings { socket, mount } = fuse(alloc, root)?;
    let http = http(alloc, root)?;
    let proxy = proxy(alloc, root)?;
    let (compress, retention_files) = kept(root)?;
    let lease = lease(alloc, root)?;
    Ok(Settings {
        database,
        log,
        socket,
        mount,
        http,
        proxy,
        compress,
        retention_files,
        lease,
    })
}

pub(crate) fn check_root_keys(root: &Table) -> Result<(), SettingsFault>
    ensures ok { OnOk result (HasOnly root_keys (table_view root.now)) }
    ensures fault { IfErr result (λ f. (f ≡ fault.Config) × (HasOnly root_keys (table_view root.now) → ⊥)) }
{
    check_keys(Some(root), keys_of(Place::Root))
}

fn database(alloc: Global, root: &Table) -> Result<Name, SettingsFault>
    ensures { Reads (Holds (codes "database") IsNameText (table_view root.now)) result }
{
    match value_at(Some(root), "database") {
        Some(value) => name(alloc, value),
        None => Err(SettingsFault::Config),
    }
}

pub(crate) fn log(root: &Table) -> Result<bool, SettingsFault>
    ensures { Reads (HoldsOr (codes "log") IsSwitch true (table_view root.now)) result }
{
    match value_at(Some(root), "log") {
        Some(value) => switch(value),
        None => Ok(true),
    }
}

/// The table `http`.
pub(crate) fn http(alloc: Global, root: &Table) -> Result<Address, SettingsFault>
    ensures { Reads (λ address. IsSomeAnd (section_at (codes "http") (table_view root.now)) (λ t. IsHttp t address)) result }
{
    let table = section(root, "http")?;
    check_keys(table, &["addr"])?;
    addr(alloc, table)
}

fn addr(alloc: Global, table: Option<&Table>) -> Result<Address, SettingsFault>
    ensures { Reads (HoldsOr (codes "addr") IsAddressText (codes ":20202") (members_at table.entry)) result }
{
    match value_at(table, "addr") {
        Some(value) => address(alloc, value),
        None => Address::read(alloc, ":20202"),
    }
}

/// The table `data`.
pub(crate) fn kept(root: &Table) -> Result<(bool, u64), SettingsFault>
    ensures { Reads (λ kept. IsSomeAnd (section_at (codes "data") (table_view root.now)) (λ t. IsData t kept.0 kept.1)) result }
{
    let table = section(root, "data")?;
    check_keys(table, &["compress", "retention-files"])?;
    let compress = compress(table)?;
    let retention_files = retention_files(table)?;
    Ok((compress, retention_files))
}

fn compress(table: Option<&Table>) -> Result<bool, SettingsFault>
    ensures { Reads (HoldsOr (codes "compress") IsOff false (members_at table.entry)) result }
{
    match value_at(table, "compress") {
        Some(value) => off(value),
        None => Ok(false),
    }
}

fn retention_files(table: Option<&Table>) -> Result<u64, SettingsFault>
    ensures { Reads (HoldsOr (codes "retention-files") (IsNumber 1 (2 ^ 63 - 1)) 1000 (members_at table.entry)) result }
{
    match value_at(table, "retention-files") {
        Some(value) => number(value, 1, (1 << 63) - 1),
        None => Ok(1_000),
    }
}
