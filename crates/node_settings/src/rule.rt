//! The rules of a configuration: each has a key that it is about, and says in words what is wanted.
ghost use Rattle.std.specs.Prelude.{◌≡◌};
ghost use Rattle.toml.specs.View.{table_view};
ghost use Rattle.node_settings.specs.Rules.{name_of_place, name_of_rule, place_of_rule};
ghost use Rattle.node_settings.specs.Words.{words_of, words_of_key, words_of_missing};

use crate::key::{name_of, place_of};
use crate::place::{keys_of, parent_of, table_at};
use crate::table::other_key;
use crate::{Key, Place};
use toml::Table;

/// A rule of a configuration.
#[derive(Clone, Copy, Debug, PartialEq, Eq)]
pub enum Rule {
    /// What stands at this place is a table.
    Table(Place),
    /// It has no other keys than those of a configuration.
    Keys(Place),
    /// The key is there.
    There(Key),
    /// Where the key is, its value is one of those that it may have.
    Value(Key),
    /// With `fuse.program` the key `fuse.dir` is there.
    Dir,
    /// With `proxy.target` the key `proxy.addr` is there.
    Addr,
    /// With `proxy.addr` the key `proxy.target` is there.
    Target,
    /// With `lease.type = "service"` the key `lease.service-url` is there.
    Service,
    /// With `lease.type = "etcd"` a lease lasts two seconds at least.
    Seconds,
    /// With `lease.type = "etcd"` the key `lease.etcd.endpoints` is there.
    Etcd,
    /// With `lease.etcd.key` the key `lease.etcd.endpoints` is there.
    Endpoints,
    /// The lease's type is neither `"service"` nor `"etcd"`.
    Static,
}

/// What is wanted, in words.
pub fn words_of(rule: Rule) -> &'static str
    ensures { result.now ≡ words_of rule }
{
    match rule {
        Rule::Table(_) => "a table",
        Rule::Keys(_) => "no key of this name",
        Rule::There(key) => words_of_missing(key),
        Rule::Value(key) => words_of_key(key),
        Rule::Dir => "a path, since fuse.program is there; the key is missing",
        Rule::Addr => "an address, host:port, since proxy.target is there; the key is missing",
        Rule::Target => {
            "an address with a host, host:port, since proxy.addr is there; the key is missing"
        }
        Rule::Service => "a URL, http://host:port, since lease.type is service; the key is missing",
        Rule::Seconds => "a number of milliseconds from 2000 to 86400000, since lease.type is etcd",
        Rule::Etcd => {
            "an array of 1 to 16 URLs, each http://host:port, since lease.type is etcd; the key is missing"
        }
        Rule::Endpoints => {
            "an array of 1 to 16 URLs, each http://host:port, since lease.etcd.key is there; the key is missing"
        }
        Rule::Static => "static",
    }
}

fn words_of_key(key: Key) -> &'static str
    ensures { result.now ≡ words_of_key key }
{
    match key {
        Key::Database => "the name of a database",
        Key::Log => "on or off, as a text",
        Key::Listen | Key::Hostname => "a text",
        Key::Dir | Key::Program => "a path that is not empty",
        Key::Addr | Key::ProxyAddr => "an address, host:port",
        Key::Target => "an address with a host, host:port",
        Key::Compress => "false",
        Key::RetentionFiles => "a number from 1 to 9223372036854775807",
        Key::Type => "static, service or etcd, as a text",
        Key::Candidate | Key::Bootstrap => "true or false",
        Key::AdvertiseUrl | Key::ServiceUrl => "a URL, http://host:port",
        Key::Ttl | Key::HaltTtl => "a number of milliseconds from 1 to 86400000",
        Key::Endpoints => "an array of 1 to 16 URLs, each http://host:port",
        Key::EtcdKey => "a text of 1 to 1000 bytes",
    }
}

/// The same of a key that has to be there.
fn words_of_missing(key: Key) -> &'static str
    ensures { result.now ≡ words_of_missing key }
{
    match key {
        Key::Database => "the name of a database; the key is missing",
        Key::AdvertiseUrl => "a URL, http://host:port; the key is missing",
        Key::Log
        | Key::Listen
        | Key::Dir
        | Key::Program
        | Key::Addr
        | Key::ProxyAddr
        | Key::Target
        | Key::Compress
        | Key::RetentionFiles
        | Key::Type
        | Key::Candidate
        | Key::Bootstrap
        | Key::Hostname
        | Key::ServiceUrl
        | Key::Ttl
        | Key::HaltTtl
        | Key::Endpoints
        | Key::EtcdKey => "a text; the key is missing",
    }
}

/// The table of the key that the rule is about.
pub(crate) fn place_of_rule(rule: Rule) -> Place
    ensures { result ≡ place_of_rule rule }
{
    match rule {
        Rule::Table(place) => parent_of(place),
        Rule::Keys(place) => place,
        Rule::There(key) | Rule::Value(key) => place_of(key),
        Rule::Dir => Place::Fuse,
        Rule::Addr | Rule::Target => Place::Proxy,
        Rule::Service | Rule::Seconds | Rule::Static => Place::Lease,
        Rule::Etcd | Rule::Endpoints => Place::Etcd,
    }
}

/// The name of that key. Of a table's keys it is the first that may not be there.
pub(crate) fn name_of_rule(rule: Rule, root: &Table) -> &str
    ensures { result.now ≡ name_of_rule rule (table_view root.now) }
{
    match rule {
        Rule::Table(place) => name_of_place(place),
        Rule::Keys(place) => other_key(table_at(place, root), keys_of(place)),
        Rule::There(key) | Rule::Value(key) => name_of(key),
        Rule::Dir => "dir",
        Rule::Addr => "addr",
        Rule::Target => "target",
        Rule::Service => "service-url",
        Rule::Seconds => "ttl",
        Rule::Etcd | Rule::Endpoints => "endpoints",
        Rule::Static => "type",
    }
}

fn name_of_place(place: Place) -> &'static str
    ensures { result.now ≡ name_of_place place }
{
    match place {
        Place::Root => "",
        Place::Fuse => "fuse",
        Place::Http => "http",
        Place::Proxy => "proxy",
        Place::Data => "data",
        Place::Lease => "lease",
        Place::Etcd => "etcd",
    }
}
