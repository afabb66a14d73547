use crate::{Address, Url, Urls};
use lf_base::{Name, Text};

/// What a node is told when it is started.
#[derive(Debug, Drop)]
pub struct Settings {
    /// The database that the node keeps.
    pub database: Name,
    /// Whether it says what happens, on standard error.
    pub log: bool,
    /// The path of the Unix socket on which files are served.
    pub socket: Text,
    /// The folder at which the kernel mounts the database, where there is one.
    pub mount: Option<MountSettings>,
    /// Where HTTP is served.
    pub http: Address,
    /// The proxy of an application, where there is one.
    pub proxy: Option<ProxySettings>,
    /// Whether LTX files are compressed, which is never so.
    pub compress: bool,
    /// How many LTX files are kept.
    pub retention_files: u64,
    pub lease: LeaseSettings,
}

/// Where the database is mounted.
#[derive(Debug, Drop)]
pub struct MountSettings {
    /// The path of the folder.
    pub dir: Text,
    /// The path of the program that mounts it, where it is not the one beside the node's own.
    pub program: Option<Text>,
}

/// An application whose requests are passed on.
#[derive(Debug, Drop)]
pub struct ProxySettings {
    /// Where its clients are served.
    pub addr: Address,
    /// Where it is.
    pub target: Address,
}

/// Who may be primary, and where it is found.
#[derive(Debug, Drop)]
pub struct LeaseSettings {
    pub lease_type: LeaseType,
    /// Whether this node may become primary.
    pub candidate: bool,
    /// Whether it asks to be primary at once where it has no database, as the first primary of a new cluster does.
    pub bootstrap: bool,
    /// Where the primary of a static lease is found; where a lease is granted, where this node is.
    pub advertise_url: Url,
    /// The host of the same node.
    pub hostname: Text,
    /// Where the lease service is found.
    pub service_url: Option<Url>,
    /// Where an etcd cluster is found, and its key.
    pub etcd: Option<EtcdPlace>,
    /// How long a lease lasts, in milliseconds.
    pub ttl: u64,
    /// How long a write permit lasts, in milliseconds.
    pub halt_ttl: u64,
}

/// How a primary is found.
#[derive(Clone, Copy, Debug, PartialEq, Eq)]
pub enum LeaseType {
    /// The candidate is primary for good, and every other node follows the advertised URL.
    Static,
    /// The node that the lease service grants it is primary, and tells it where the others find it.
    /// Then the service's URL is there.
    Service,
    /// The node that has the key in etcd is primary. Then the endpoints are there, and a lease lasts
    /// two seconds at least.
    Etcd,
}

/// An etcd cluster that grants leases.
#[derive(Debug, Drop)]
pub struct EtcdPlace {
    /// Its members, in the order in which they are asked: 1 to 16.
    pub endpoints: Urls,
    /// The key that stands for the lease, where one is named, of 1 to 1,000 bytes; else it is
    /// `litefs/DATABASE/primary`.
    pub key: Option<Text>,
}

/// What a lease service is told when it is started.
#[derive(Debug, Drop)]
pub struct ServiceSettings {
    /// Whether it says what happens, on standard error.
    pub log: bool,
    /// Where it is served.
    pub http: Address,
    /// How long a lease lasts, in milliseconds.
    pub ttl: u64,
}
