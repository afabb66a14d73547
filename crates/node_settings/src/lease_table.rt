//! The table `lease`.

ghost use Rattle.std.specs.Prelude.{◌≡◌, Some, None, false, codes, IsSomeAnd, OnOk, IfErr};
ghost use Rattle.toml.specs.View.{table_view};
ghost use Rattle.node_settings.specs.declared.settings.LeaseType.TheVariants as lease_type;
ghost use Rattle.node_settings.specs.declared.settings_fault.SettingsFault.TheVariants as fault;
ghost use Rattle.node_settings.specs.Answers.{Reads};
ghost use Rattle.node_settings.specs.Configuration.{IsLease, lease_keys};
ghost use Rattle.node_settings.specs.Values.{Holds, HasOnly, HoldsOr, section as section_at, members_at, IsSomeOf, IsText, IsUrlText, IsFlag, IsNumber, IsLeaseType, HasService, HasEtcd, HasTtl};

use crate::etcd_table::etcd;
use crate::place::keys_of;
use crate::table::{check_keys, section, value_at};
use crate::values::{flag, lease_type, number, text, url};
use crate::{EtcdPlace, LeaseSettings, LeaseType, Place, SettingsFault, Url};
use lf_base::Text;
use std::alloc::Global;
use toml::Table;

pub(crate) fn lease(alloc: Global, root: &Table) -> Result<LeaseSettings, SettingsFault>
    ensures { Reads (λ lease. IsSomeAnd (section_at (codes "lease") (table_view root.now)) (λ t. IsLease t lease)) result }
{
    let table = section(root, "lease")?;
    lease_of(alloc, table)
}

fn lease_of(alloc: Global, table: Option<&Table>) -> Result<LeaseSettings, SettingsFault>
    ensures { Reads (IsLease (members_at table.entry)) result }
{
    check_lease_keys(table)?;
    let lease_type = kind(table)?;
    let candidate = candidate(table)?;
    let bootstrap = bootstrap(table)?;
    let advertise_url = advertise_url(alloc, table)?;
    let hostname = hostname(alloc, table)?;
    let service_url = url_at(alloc, table, "service-url")?;
    check_service(lease_type, &service_url)?;
    let ttl = ttl(table)?;
    check_ttl(lease_type, ttl)?;
    let halt_ttl = halt_ttl(table, ttl)?;
    let etcd = etcd(alloc, table)?;
    check_etcd(lease_type, &etcd)?;
    Ok(LeaseSettings {
        lease_type,
        candidate,
        bootstrap,
        advertise_url,
        hostname,
        service_url,
        etcd,
        ttl,
        halt_ttl,
    })
}

pub(crate) fn check_lease_keys(table: Option<&Table>) -> Result<(), SettingsFault>
    ensures ok { OnOk result (HasOnly lease_keys (members_at table.entry)) }
    ensures fault { IfErr result (λ f. (f ≡ fault.Config) × (HasOnly lease_keys (members_at table.entry) → ⊥)) }
{
    check_keys(table, keys_of(Place::Lease))
}

/// A lease that a service keeps has the service's URL.
fn check_service(lease_type: LeaseType, url: &Option<Url>) -> Result<(), SettingsFault>
    ensures ok { OnOk result (HasService lease_type url.now) }
    ensures fault { IfErr result (λ f. (f ≡ fault.Config) × (HasService lease_type url.now → ⊥)) }
{
    match (lease_type, url) {
        (LeaseType::Service, None) => Err(SettingsFault::Config),
        _ => Ok(()),
    }
}

/// A lease that etcd grants has a place where etcd is.
fn check_etcd(lease_type: LeaseType, etcd: &Option<EtcdPlace>) -> Result<(), SettingsFault>
    ensures ok { OnOk result (HasEtcd lease_type etcd.now) }
    ensures fault { IfErr result (λ f. (f ≡ fault.Config) × (HasEtcd lease_type etcd.now → ⊥)) }
{
    match (lease_type, etcd) {
        (LeaseType::Etcd, None) => Err(SettingsFault::Config),
        _ => Ok(()),
    }
}

/// A lease that etcd grants lasts two seconds at least.
fn check_ttl(lease_type: LeaseType, ttl: u64) -> Result<(), SettingsFault>
    ensures ok { OnOk result (HasTtl lease_type ttl) }
    ensures fault { IfErr result (λ f. (f ≡ fault.Config) × (HasTtl lease_type ttl → ⊥)) }
{
    match lease_type {
        LeaseType::Etcd if ttl < 2_000 => Err(SettingsFault::Config),
        _ => Ok(()),
    }
}

pub(crate) fn kind(table: Option<&Table>) -> Result<LeaseType, SettingsFault>
    ensures { Reads (HoldsOr (codes "type") IsLeaseType lease_type.Static (members_at table.entry)) result }
{
    match value_at(table, "type") {
        Some(value) => lease_type(value),
        None => Ok(LeaseType::Static),
    }
}

pub(crate) fn candidate(table: Option<&Table>) -> Result<bool, SettingsFault>
    ensures { Reads (HoldsOr (codes "candidate") IsFlag false (members_at table.entry)) result }
{
    match value_at(table, "candidate") {
        Some(value) => flag(value),
        None => Ok(false),
    }
}

pub(crate) fn bootstrap(table: Option<&Table>) -> Result<bool, SettingsFault>
    ensures { Reads (HoldsOr (codes "bootstrap") IsFlag false (members_at table.entry)) result }
{
    match value_at(table, "bootstrap") {
        Some(value) => flag(value),
        None => Ok(false),
    }
}

fn advertise_url(alloc: Global, table: Option<&Table>) -> Result<Url, SettingsFault>
    ensures { Reads (Holds (codes "advertise-url") IsUrlText (members_at table.entry)) result }
{
    match value_at(table, "advertise-url") {
        Some(value) => url(alloc, value),
        None => Err(SettingsFault::Config),
    }
}

fn hostname(alloc: Global, table: Option<&Table>) -> Result<Text, SettingsFault>
    ensures { Reads (Holds (codes "hostname") IsText (members_at table.entry)) result }
{
    match value_at(table, "hostname") {
        Some(value) => text(alloc, value),
        None => Err(SettingsFault::Config),
    }
}

/// The URL under a key, which may be missing.
pub(crate) fn url_at(
    alloc: Global,
    table: Option<&Table>,
    key: &str,
) -> Result<Option<Url>, SettingsFault>
    ensures { Reads (HoldsOr key.now (IsSomeOf IsUrlText) None (members_at table.entry)) result }
{
    match value_at(table, key) {
        Some(value) => Ok(Some(url(alloc, value)?)),
        None => Ok(None),
    }
}

pub(crate) fn ttl(table: Option<&Table>) -> Result<u64, SettingsFault>
    ensures { Reads (HoldsOr (codes "ttl") (IsNumber 1 86400000) 10000 (members_at table.entry)) result }
{
    match value_at(table, "ttl") {
        Some(value) => number(value, 1, 86_400_000),
        None => Ok(10_000),
    }
}

/// How long a write permit lasts: as a lease, where nothing else is said.
pub(crate) fn halt_ttl(table: Option<&Table>, ttl: u64) -> Result<u64, SettingsFault>
    ensures { Reads (HoldsOr (codes "halt-ttl") (IsNumber 1 86400000) ttl (members_at table.entry)) result }
{
    match value_at(table, "halt-ttl") {
        Some(value) => number(value, 1, 86_400_000),
        None => Ok(ttl),
    }
}
