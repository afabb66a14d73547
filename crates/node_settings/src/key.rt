ghost use Rattle.std.specs.Prelude.{◌≡◌};
ghost use Rattle.node_settings.specs.Rules.{name_of, place_of};

use crate::Place;

/// A key of a configuration.
#[derive(Clone, Copy, Debug, PartialEq, Eq)]
pub enum Key {
    Database,
    Log,
    Listen,
    Dir,
    Program,
    Addr,
    ProxyAddr,
    Target,
    Compress,
    RetentionFiles,
    Type,
    Candidate,
    Bootstrap,
    AdvertiseUrl,
    Hostname,
    ServiceUrl,
    Ttl,
    HaltTtl,
    Endpoints,
    EtcdKey,
}

/// The table that it stands in.
pub(crate) fn place_of(key: Key) -> Place
    ensures { result ≡ place_of key }
{
    match key {
        Key::Database | Key::Log => Place::Root,
        Key::Listen | Key::Dir | Key::Program => Place::Fuse,
        Key::Addr => Place::Http,
        Key::ProxyAddr | Key::Target => Place::Proxy,
        Key::Compress | Key::RetentionFiles => Place::Data,
        Key::Type
        | Key::Candidate
        | Key::Bootstrap
        | Key::AdvertiseUrl
        | Key::Hostname
        | Key::ServiceUrl
        | Key::Ttl
        | Key::HaltTtl => Place::Lease,
        Key::Endpoints | Key::EtcdKey => Place::Etcd,
    }
}

/// Its name there.
pub(crate) fn name_of(key: Key) -> &'static str
    ensures { result.now ≡ name_of key }
{
    match key {
        Key::Database => "database",
        Key::Log => "log",
        Key::Listen => "listen",
        Key::Dir => "dir",
        Key::Program => "program",
        Key::Addr | Key::ProxyAddr => "addr",
        Key::Target => "target",
        Key::Compress => "compress",
        Key::RetentionFiles => "retention-files",
        Key::Type => "type",
        Key::Candidate => "candidate",
        Key::Bootstrap => "bootstrap",
        Key::AdvertiseUrl => "advertise-url",
        Key::Hostname => "hostname",
        Key::ServiceUrl => "service-url",
        Key::Ttl => "ttl",
        Key::HaltTtl => "halt-ttl",
        Key::Endpoints => "endpoints",
        Key::EtcdKey => "key",
    }
}
