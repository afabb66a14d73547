//! The table `proxy`.

ghost use Rattle.std.specs.Prelude.{◌≡◌, Some, None, codes, IsSomeAnd, OnOk, IfErr, option_map};
ghost use Rattle.toml.specs.View.{table_view};
ghost use Rattle.node_settings.specs.declared.settings_fault.SettingsFault.TheVariants as fault;
ghost use Rattle.node_settings.specs.Answers.{Reads};
ghost use Rattle.node_settings.specs.Configuration.{IsProxy, IsProxyTable, proxy_keys};
ghost use Rattle.node_settings.specs.Values.{HasOnly, HoldsOr, IsAddressText, IsSomeOf, IsTargetText, members_at, section as section_at};

use crate::place::keys_of;
use crate::table::{check_keys, section, value_at};
use crate::values::{address, target};
use crate::{Address, Place, ProxySettings, SettingsFault};
use std::alloc::Global;
use toml::Table;

/// What the keys of the table say.
#[derive(Drop)]
pub(crate) struct ProxyTable {
    addr: Option<Address>,
    target: Option<Address>,
}

pub(crate) fn proxy(alloc: Global, root: &Table) -> Result<Option<ProxySettings>, SettingsFault>
    ensures { Reads (λ proxy. IsSomeAnd (section_at (codes "proxy") (table_view root.now)) (λ t. IsProxy t proxy)) result }
{
    let table = proxy_table(alloc, root)?;
    proxy_of(table.addr, table.target)
}

/// Both are there, or neither.
fn proxy_of(
    addr: Option<Address>,
    target: Option<Address>,
) -> Result<Option<ProxySettings>, SettingsFault>
    ensures { Reads (λ proxy. (option_map (λ p. p.addr) proxy ≡ addr) × (option_map (λ p. p.target) proxy ≡ target)) result }
{
    match (addr, target) {
        (Some(addr), Some(target)) => Ok(Some(ProxySettings { addr, target })),
        (None, None) => Ok(None),
        _ => Err(SettingsFault::Config),
    }
}

pub(crate) fn proxy_table(alloc: Global, root: &Table) -> Result<ProxyTable, SettingsFault>
    ensures { Reads (λ proxy. IsSomeAnd (section_at (codes "proxy") (table_view root.now)) (λ t. IsProxyTable t proxy.addr proxy.target)) result }
{
    let table = section(root, "proxy")?;
    proxy_keys_of(alloc, table)
}

fn proxy_keys_of(alloc: Global, table: Option<&Table>) -> Result<ProxyTable, SettingsFault>
    ensures { Reads (λ proxy. IsProxyTable (members_at table.entry) proxy.addr proxy.target) result }
{
    check_proxy_keys(table)?;
    let addr = addr(alloc, table)?;
    let target = target_at(alloc, table)?;
    Ok(ProxyTable { addr, target })
}

fn check_proxy_keys(table: Option<&Table>) -> Result<(), SettingsFault>
    ensures ok { OnOk result (HasOnly proxy_keys (members_at table.entry)) }
    ensures fault { IfErr result (λ f. (f ≡ fault.Config) × (HasOnly proxy_keys (members_at table.entry) → ⊥)) }
{
    check_keys(table, keys_of(Place::Proxy))
}

fn addr(alloc: Global, table: Option<&Table>) -> Result<Option<Address>, SettingsFault>
    ensures { Reads (HoldsOr (codes "addr") (IsSomeOf IsAddressText) None (members_at table.entry)) result }
{
    match value_at(table, "addr") {
        Some(value) => Ok(Some(address(alloc, value)?)),
        None => Ok(None),
    }
}

fn target_at(alloc: Global, table: Option<&Table>) -> Result<Option<Address>, SettingsFault>
    ensures { Reads (HoldsOr (codes "target") (IsSomeOf IsTargetText) None (members_at table.entry)) result }
{
    match value_at(table, "target") {
        Some(value) => Ok(Some(target(alloc, value)?)),
        None => Ok(None),
    }
}
