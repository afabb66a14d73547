//! The rules of a configuration, in their order.
ghost use Rattle.std.specs.Prelude.{◌≡◌};
ghost use Rattle.node_settings.specs.Rules.{node_rules, service_rules, static_rules};

use crate::{Key, Place, Rule};

/// Those of a node whose lease is granted by nobody. All but the last are those of a node.
const RULES: [Rule; 44] = [
    Rule::Keys(Place::Root),
    Rule::There(Key::Database),
    Rule::Value(Key::Database),
    Rule::Value(Key::Log),
    Rule::Table(Place::Fuse),
    Rule::Keys(Place::Fuse),
    Rule::Value(Key::Listen),
    Rule::Dir,
    Rule::Value(Key::Dir),
    Rule::Value(Key::Program),
    Rule::Table(Place::Http),
    Rule::Keys(Place::Http),
    Rule::Value(Key::Addr),
    Rule::Table(Place::Proxy),
    Rule::Keys(Place::Proxy),
    Rule::Addr,
    Rule::Value(Key::ProxyAddr),
    Rule::Target,
    Rule::Value(Key::Target),
    Rule::Table(Place::Data),
    Rule::Keys(Place::Data),
    Rule::Value(Key::Compress),
    Rule::Value(Key::RetentionFiles),
    Rule::Table(Place::Lease),
    Rule::Keys(Place::Lease),
    Rule::Value(Key::Type),
    Rule::Value(Key::Candidate),
    Rule::Value(Key::Bootstrap),
    Rule::There(Key::AdvertiseUrl),
    Rule::Value(Key::AdvertiseUrl),
    Rule::There(Key::Hostname),
    Rule::Value(Key::Hostname),
    Rule::Value(Key::ServiceUrl),
    Rule::Service,
    Rule::Value(Key::Ttl),
    Rule::Seconds,
    Rule::Value(Key::HaltTtl),
    Rule::Table(Place::Etcd),
    Rule::Keys(Place::Etcd),
    Rule::Etcd,
    Rule::Endpoints,
    Rule::Value(Key::Endpoints),
    Rule::Value(Key::EtcdKey),
    Rule::Static,
];

/// Those of a lease service.
const SERVICE_RULES: [Rule; 33] = [
    Rule::Keys(Place::Root),
    Rule::Value(Key::Database),
    Rule::Value(Key::Log),
    Rule::Table(Place::Fuse),
    Rule::Keys(Place::Fuse),
    Rule::Value(Key::Listen),
    Rule::Value(Key::Dir),
    Rule::Value(Key::Program),
    Rule::Table(Place::Http),
    Rule::Keys(Place::Http),
    Rule::Value(Key::Addr),
    Rule::Table(Place::Proxy),
    Rule::Keys(Place::Proxy),
    Rule::Value(Key::ProxyAddr),
    Rule::Value(Key::Target),
    Rule::Table(Place::Data),
    Rule::Keys(Place::Data),
    Rule::Value(Key::Compress),
    Rule::Value(Key::RetentionFiles),
    Rule::Table(Place::Lease),
    Rule::Keys(Place::Lease),
    Rule::Value(Key::Type),
    Rule::Value(Key::Candidate),
    Rule::Value(Key::Bootstrap),
    Rule::Value(Key::AdvertiseUrl),
    Rule::Value(Key::Hostname),
    Rule::Value(Key::ServiceUrl),
    Rule::Value(Key::Ttl),
    Rule::Value(Key::HaltTtl),
    Rule::Table(Place::Etcd),
    Rule::Keys(Place::Etcd),
    Rule::Value(Key::Endpoints),
    Rule::Value(Key::EtcdKey),
];

pub(crate) fn node_rules() -> &'static [Rule]
    ensures { result.now ≡ node_rules }
{
    &RULES[..43]
}

pub(crate) fn static_rules() -> &'static [Rule]
    ensures { result.now ≡ static_rules }
{
    &RULES
}

pub(crate) fn service_rules() -> &'static [Rule]
    ensures { result.now ≡ service_rules }
{
    &SERVICE_RULES
}
