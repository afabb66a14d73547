//! Which rule a table breaks first.
ghost use Rattle.std.specs.Prelude.{◌≡◌, ◌↔◌, IfOk, IsTrue, MatchOption, option_map};
ghost use Rattle.node_settings.specs.declared.rule.Rule.TheVariants as rule;
ghost use Rattle.toml.specs.View.{view, table_view};
ghost use Rattle.node_settings.specs.Answers.{Judges};
ghost use Rattle.node_settings.specs.Rules.{AllKept, Brings, Fits, IsFirstBroken, IsTyped, Keeps, value_of as value_at_key};

use crate::key::{name_of, place_of};
use crate::place::{keys_of, section_of, table_at};
use crate::table::{has_only, value_at};
use crate::url_array::urls;
use crate::values::{
    address, flag, key_text, lease_type, name, number, off, path, switch, target, text, url,
};
use crate::{Key, Rule, SettingsFault};
use lf_base::NoMemory;
use std::alloc::Global;
use toml::{Table, Value};

/// The first of these rules that is broken.
pub(crate) fn first_broken(
    alloc: Global,
    rules: &[Rule],
    root: &Table,
) -> Result<Option<Rule>, NoMemory>
    ensures { IfOk result (λ broken. MatchOption broken (AllKept rules.now (table_view root.now)) (IsFirstBroken rules.now (table_view root.now))) }
{
    let [rule, rest @ ..] = rules else {
        return Ok(None);
    };
    if keeps(alloc, *rule, root)? {
        first_broken(alloc, rest, root)
    } else {
        Ok(Some(*rule))
    }
}

fn keeps(alloc: Global, rule: Rule, root: &Table) -> Result<bool, NoMemory>
    ensures { IfOk result (λ kept. IsTrue kept ↔ Keeps rule (table_view root.now)) }
{
    match rule {
        Rule::Table(place) => Ok(section_of(place, root).is_ok()),
        Rule::Keys(place) => Ok(has_only(table_at(place, root), keys_of(place))),
        Rule::There(key) => Ok(value_of(key, root).is_some()),
        Rule::Value(key) => value_fits(alloc, key, root),
        Rule::Dir => Ok(brings(Key::Program, Key::Dir, root)),
        Rule::Addr => Ok(brings(Key::Target, Key::ProxyAddr, root)),
        Rule::Target => Ok(brings(Key::ProxyAddr, Key::Target, root)),
        Rule::Service => {
            Ok(!is_typed("service", root) || value_of(Key::ServiceUrl, root).is_some())
        }
        Rule::Seconds => lasts_seconds(root),
        Rule::Etcd => Ok(!is_typed("etcd", root) || value_of(Key::Endpoints, root).is_some()),
        Rule::Endpoints => Ok(brings(Key::EtcdKey, Key::Endpoints, root)),
        Rule::Static => Ok(!is_typed("service", root) && !is_typed("etcd", root)),
    }
}

/// Whether the other key is there where the one is.
fn brings(one: Key, other: Key, root: &Table) -> bool
    ensures { IsTrue result ↔ Brings one other (table_view root.now) }
{
    value_of(one, root).is_none() || value_of(other, root).is_some()
}

fn value_of(key: Key, root: &Table) -> Option<&Value>
    ensures { option_map (λ v. view v.now) result ≡ value_at_key key (table_view root.now) }
{
    value_at(table_at(place_of(key), root), name_of(key))
}

/// Whether the lease's type is said by this word.
fn is_typed(word: &str, root: &Table) -> bool
    ensures { IsTrue result ↔ IsTyped word.now (table_view root.now) }
{
    match value_of(Key::Type, root) {
        Some(value) => value.as_str() == Some(word),
        None => false,
    }
}

/// Whether a lease that is etcd's lasts two seconds at least.
fn lasts_seconds(root: &Table) -> Result<bool, NoMemory>
    ensures { IfOk result (λ kept. IsTrue kept ↔ Keeps rule.Seconds (table_view root.now)) }
{
    if !is_typed("etcd", root) {
        return Ok(true);
    }
    match value_of(Key::Ttl, root) {
        Some(value) => judged(number(value, 2_000, 86_400_000)),
        None => Ok(true),
    }
}

fn value_fits(alloc: Global, key: Key, root: &Table) -> Result<bool, NoMemory>
    ensures { IfOk result (λ kept. IsTrue kept ↔ Keeps (rule.Value key) (table_view root.now)) }
{
    match value_of(key, root) {
        Some(value) => fits(alloc, key, value),
        None => Ok(true),
    }
}

/// Whether the key may have this value.
fn fits(alloc: Global, key: Key, value: &Value) -> Result<bool, NoMemory>
    ensures { IfOk result (λ kept. IsTrue kept ↔ Fits key (view value.now)) }
{
    match key {
        Key::Database => judged(name(alloc, value)),
        Key::Log => judged(switch(value)),
        Key::Listen => judged(text(alloc, value)),
        Key::Dir => judged(path(alloc, value)),
        Key::Program => judged(path(alloc, value)),
        Key::Addr => judged(address(alloc, value)),
        Key::ProxyAddr => judged(address(alloc, value)),
        Key::Target => judged(target(alloc, value)),
        Key::Compress => judged(off(value)),
        Key::RetentionFiles => judged(number(value, 1, (1 << 63) - 1)),
        Key::Type => judged(lease_type(value)),
        Key::Candidate => judged(flag(value)),
        Key::Bootstrap => judged(flag(value)),
        Key::AdvertiseUrl => judged(url(alloc, value)),
        Key::Hostname => judged(text(alloc, value)),
        Key::ServiceUrl => judged(url(alloc, value)),
        Key::Ttl => judged(number(value, 1, 86_400_000)),
        Key::HaltTtl => judged(number(value, 1, 86_400_000)),
        Key::Endpoints => judged(urls(alloc, value)),
        Key::EtcdKey => judged(key_text(alloc, value)),
    }
}

/// Whether something was read.
fn judged<T: Drop>(read: Result<T, SettingsFault>) -> Result<bool, NoMemory>
    ensures { IfOk result (Judges read) }
{
    match read {
        Ok(_) => Ok(true),
        Err(SettingsFault::Config) => Ok(false),
        Err(SettingsFault::NoMemory) => Err(NoMemory),
    }
}
