//! The configuration of a lease service read: where it is served, how long a lease lasts, and
//! whether it says what happens. Every other key is only checked, where it stands.

ghost use Rattle.std.specs.Prelude.{Some, None, codes, IsSomeAnd};
ghost use Rattle.toml.specs.View.{table_view};
ghost use Rattle.node_settings.specs.Answers.{Reads};
ghost use Rattle.node_settings.specs.Complaints.{Answers};
ghost use Rattle.node_settings.specs.Rules.{service_rules};
ghost use Rattle.node_settings.specs.Service.{IsServiceConfiguration, IsServiceLease, IsServiceRoot};
ghost use Rattle.node_settings.specs.Values.{HoldsOr, IsNameText, IsSomeOf, IsText, members_at, section as section_at};

use crate::complaining::{document, refused};
use crate::etcd_table::etcd_table;
use crate::fuse_table::fuse_table;
use crate::lease_table::{bootstrap, candidate, check_lease_keys, halt_ttl, kind, ttl, url_at};
use crate::proxy_table::proxy_table;
use crate::reading::{check_root_keys, http, kept, log};
use crate::rules::service_rules;
use crate::table::{section, value_at};
use crate::values::{name, text};
use crate::{ServiceSettings, SettingsFault, SettingsRefusal};
use lf_base::{Name, Text};
use std::alloc::Global;
use toml::Table;

/// What a configuration says to a lease service.
pub fn read_service_settings(
    alloc: Global,
    bytes: &[u8],
) -> Result<ServiceSettings, SettingsRefusal>
    ensures { Answers (IsServiceConfiguration bytes.now) service_rules bytes.now result }
{
    let root = document(alloc, bytes)?;
    match service_settings(alloc, &root) {
        Ok(settings) => Ok(settings),
        Err(SettingsFault::Config) => Err(refused(alloc, bytes, &root, service_rules())),
        Err(SettingsFault::NoMemory) => Err(SettingsRefusal::NoMemory),
    }
}

fn service_settings(alloc: Global, root: &Table) -> Result<ServiceSettings, SettingsFault>
    ensures { Reads (IsServiceRoot (table_view root.now)) result }
{
    // Of what is not kept, the rules alone are asked, in the order in which they stand.
    check_root_keys(root)?;
    let _database = some_database(alloc, root)?;
    let log = log(root)?;
    let _fuse = fuse_table(alloc, root)?;
    let http = http(alloc, root)?;
    let _proxy = proxy_table(alloc, root)?;
    let _kept = kept(root)?;
    let ttl = lease_time(alloc, root)?;
    Ok(ServiceSettings { log, http, ttl })
}

fn some_database(alloc: Global, root: &Table) -> Result<Option<Name>, SettingsFault>
    ensures { Reads (HoldsOr (codes "database") (IsSomeOf IsNameText) None (table_view root.now)) result }
{
    match value_at(Some(root), "database") {
        Some(value) => Ok(Some(name(alloc, value)?)),
        None => Ok(None),
    }
}

/// The table `lease`, of which the time alone is kept.
fn lease_time(alloc: Global, root: &Table) -> Result<u64, SettingsFault>
    ensures { Reads (λ time. IsSomeAnd (section_at (codes "lease") (table_view root.now)) (λ t. IsServiceLease t time)) result }
{
    let table = section(root, "lease")?;
    time_of(alloc, table)
}

fn time_of(alloc: Global, table: Option<&Table>) -> Result<u64, SettingsFault>
    ensures { Reads (IsServiceLease (members_at table.entry)) result }
{
    // Of what is not kept, the rules alone are asked, in the order in which they stand.
    check_lease_keys(table)?;
    let _type = kind(table)?;
    let _candidate = candidate(table)?;
    let _bootstrap = bootstrap(table)?;
    let _advertised = url_at(alloc, table, "advertise-url")?;
    let _hostname = some_hostname(alloc, table)?;
    let _service = url_at(alloc, table, "service-url")?;
    let ttl = ttl(table)?;
    let _permit = halt_ttl(table, ttl)?;
    let _etcd = etcd_table(alloc, table)?;
    Ok(ttl)
}

fn some_hostname(alloc: Global, table: Option<&Table>) -> Result<Option<Text>, SettingsFault>
    ensures { Reads (HoldsOr (codes "hostname") (IsSomeOf IsText) None (members_at table.entry)) result }
{
    match value_at(table, "hostname") {
        Some(value) => Ok(Some(text(alloc, value)?)),
        None => Ok(None),
    }
}
