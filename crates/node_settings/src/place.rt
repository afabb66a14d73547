ghost use Rattle.std.specs.Prelude.{◌≡◌, ◌↔◌, Some, None, map, IfOk, IfErr, IsTrue};
ghost use Rattle.toml.specs.View.{table_view};
ghost use Rattle.node_settings.specs.Rules.{Stands, keys_of as keys_at, members_in, members_or_none, parent_of, section_of as section_in, prefix_of};
ghost use Rattle.node_settings.specs.Values.{members_at, section as section_under};

use crate::SettingsFault;
use crate::table::{section, section_at, value_at};
use toml::Table;

/// A table of a configuration.
#[derive(Clone, Copy, Debug, PartialEq, Eq)]
pub enum Place {
    /// The text itself.
    Root,
    Fuse,
    Http,
    Proxy,
    Data,
    Lease,
    /// The table `etcd` in the table `lease`.
    Etcd,
}

/// The table that it stands in. The text itself stands in none.
pub(crate) fn parent_of(place: Place) -> Place
    ensures { result ≡ parent_of place }
{
    match place {
        Place::Etcd => Place::Lease,
        Place::Root | Place::Fuse | Place::Http | Place::Proxy | Place::Data | Place::Lease =>
            Place::Root,
    }
}

/// What stands in front of the name of each of its keys.
pub(crate) fn prefix_of(place: Place) -> &'static str
    ensures { result.now ≡ prefix_of place }
{
    match place {
        Place::Root => "",
        Place::Fuse => "fuse.",
        Place::Http => "http.",
        Place::Proxy => "proxy.",
        Place::Data => "data.",
        Place::Lease => "lease.",
        Place::Etcd => "lease.etcd.",
    }
}

const ROOT_KEYS: &[&str] = &["database", "log", "fuse", "http", "proxy", "data", "lease"];

const FUSE_KEYS: &[&str] = &["listen", "dir", "program"];

const HTTP_KEYS: &[&str] = &["addr"];

const PROXY_KEYS: &[&str] = &["addr", "target"];

const DATA_KEYS: &[&str] = &["compress", "retention-files"];

const LEASE_KEYS: &[&str] = &[
    "type",
    "candidate",
    "bootstrap",
    "advertise-url",
    "hostname",
    "service-url",
    "ttl",
    "halt-ttl",
    "etcd",
];

const ETCD_KEYS: &[&str] = &["endpoints", "key"];

/// The names of its keys.
pub(crate) fn keys_of(place: Place) -> &'static [&'static str]
    ensures { map (λ k. k.now) result.now ≡ keys_at place }
{
    match place {
        Place::Root => ROOT_KEYS,
        Place::Fuse => FUSE_KEYS,
        Place::Http => HTTP_KEYS,
        Place::Proxy => PROXY_KEYS,
        Place::Data => DATA_KEYS,
        Place::Lease => LEASE_KEYS,
        Place::Etcd => ETCD_KEYS,
    }
}

/// The table itself, which may be missing.
pub(crate) fn section_of(place: Place, root: &Table) -> Result<Option<&Table>, SettingsFault>
    ensures ok { IfOk result (λ table. section_in place (table_view root.now) ≡ Some (members_at table)) }
    ensures fault { IfErr result (λ _. section_in place (table_view root.now) ≡ None) }
{
    match place {
        Place::Root => Ok(Some(root)),
        Place::Fuse => section(root, "fuse"),
        Place::Http => section(root, "http"),
        Place::Proxy => section(root, "proxy"),
        Place::Data => section(root, "data"),
        Place::Lease => section(root, "lease"),
        Place::Etcd => section_at(table_or_none(root, "lease"), "etcd"),
    }
}

/// The table under a key, and none where something else stands there.
fn table_or_none<'a>(root: &'a Table, key: &str) -> Option<&'a Table>
    ensures { members_at result ≡ members_or_none (section_under key.now (table_view root.now)) }
{
    match section(root, key) {
        Ok(table) => table,
        Err(_) => None,
    }
}

/// The same, and none where something else stands there.
pub(crate) fn table_at(place: Place, root: &Table) -> Option<&Table>
    ensures { members_at result ≡ members_in place (table_view root.now) }
{
    match section_of(place, root) {
        Ok(table) => table,
        Err(_) => None,
    }
}

/// Whether a key of this name stands in it. Without a name none does.
pub(crate) fn stands(place: Place, name: Option<&str>, root: &Table) -> bool
    ensures { IsTrue result ↔ Stands place name.entry (table_view root.now) }
{
    match name {
        Some(name) => value_at(table_at(place, root), name).is_some(),
        None => false,
    }
}
