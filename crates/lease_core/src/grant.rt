use lf_base::Text;

/// A term of the lease: whose it is, where that node is reached, and when it ends.
#[derive(Debug, Drop)]
pub struct Grant {
    pub node: u64,
    /// Where the node's replicas dial it, as `http://host:port`.
    pub url: Text,
    /// The name of its host, as `.primary` shows it.
    pub host: Text,
    /// Terms count up from 1.
    pub term: u64,
    /// The moment at which it ends, in milliseconds of the service's clock.
    pub until: u64,
}
