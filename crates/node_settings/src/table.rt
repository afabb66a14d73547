//! Tables and their keys.

ghost use Rattle.std.specs.Prelude.{◌≡◌, Some, None, not, option_map, map, IfOk, IfErr, OnOk, string_bytes};
ghost use Rattle.std.specs.List.{find, list_all};
ghost use Rattle.std.specs.BTreeMap.{keys as keys_in};
ghost use Rattle.toml.specs.Data.{get_member};
ghost use Rattle.toml.specs.View.{view, table_view};
ghost use Rattle.node_settings.specs.declared.settings_fault.SettingsFault.TheVariants as fault;
ghost use Rattle.node_settings.specs.Rules.{other_key};
ghost use Rattle.node_settings.specs.Values.{HasOnly, has_only, is_among, section as section_at, members_at};

use crate::SettingsFault;
use toml::{Table, Value};

/// The value of a key, in a table that may be missing.
pub(crate) fn value_at<'a>(table: Option<&'a Table>, key: &str) -> Option<&'a Value>
    ensures { option_map (λ v. view v.now) result ≡ get_member key.now (members_at table.entry) }
{
    match table {
        Some(table) => table.get(key),
        None => None,
    }
}

/// The table under a key, which may be missing.
pub(crate) fn section<'a>(root: &'a Table, key: &str) -> Result<Option<&'a Table>, SettingsFault>
    ensures ok { IfOk result (λ table. section_at key.now (table_view root.now) ≡ Some (members_at table)) }
    ensures fault { IfErr result (λ f. (f ≡ fault.Config) × (section_at key.now (table_view root.now) ≡ None)) }
{
    match root.get(key) {
        Some(value) => match value.as_table() {
            Some(table) => Ok(Some(table)),
            None => Err(SettingsFault::Config),
        },
        None => Ok(None),
    }
}

/// The same of a table that may be missing itself.
pub(crate) fn section_at<'a>(
    table: Option<&'a Table>,
    key: &str,
) -> Result<Option<&'a Table>, SettingsFault>
    ensures ok { IfOk result (λ inner. section_at key.now (members_at table.entry) ≡ Some (members_at inner)) }
    ensures fault { IfErr result (λ f. (f ≡ fault.Config) × (section_at key.now (members_at table.entry) ≡ None)) }
{
    match table {
        Some(table) => section(table, key),
        None => Ok(None),
    }
}

/// A table has no other keys than these.
pub(crate) fn check_keys(table: Option<&Table>, keys: &[&str]) -> Result<(), SettingsFault>
    ensures ok { OnOk result (HasOnly (map (λ k. k.now) keys.now) (members_at table.entry)) }
    ensures fault { IfErr result (λ f. (f ≡ fault.Config) × (HasOnly (map (λ k. k.now) keys.now) (members_at table.entry) → ⊥)) }
{
    if has_only(table, keys) {
        Ok(())
    } else {
        Err(SettingsFault::Config)
    }
}

pub(crate) fn has_only(table: Option<&Table>, keys: &[&str]) -> bool
    ensures { result ≡ has_only (map (λ k. k.now) keys.now) (members_at table.entry) }
{
    match table {
        Some(table) => are_among(table, keys),
        None => true,
    }
}

/// Whether each key of the table is one of these.
fn are_among(table: &Table, keys: &[&str]) -> bool
    ensures { result ≡ list_all (λ k. is_among (map (λ w. w.now) keys.now) (string_bytes k)) (keys_in table.now) }
{
    table.keys().all(|key| is_among(keys, key.as_str()))
}

fn is_among(keys: &[&str], key: &str) -> bool
    ensures { result ≡ is_among (map (λ k. k.now) keys.now) key.now }
{
    keys.contains(&key)
}

/// The first key of a table that is none of these.
pub(crate) fn other_key<'a>(table: Option<&'a Table>, keys: &[&str]) -> &'a str
    ensures { result.now ≡ other_key (map (λ k. k.now) keys.now) (members_at table.entry) }
{
    match table {
        Some(table) => other_in(table, keys),
        None => "",
    }
}

fn other_in<'a>(table: &'a Table, keys: &[&str]) -> &'a str
    ensures { result.now ≡ other_key (map (λ k. k.now) keys.now) (table_view table.now) }
{
    match first_other(table, keys) {
        Some(key) => key.as_str(),
        None => "",
    }
}

fn first_other<'a>(table: &'a Table, keys: &[&str]) -> Option<&'a String>
    ensures { option_map (λ k. k.now) result ≡ find (λ k. not (is_among (map (λ w. w.now) keys.now) (string_bytes k))) (keys_in table.now) }
{
    table.keys().find(|key| !is_among(keys, key.as_str()))
}
