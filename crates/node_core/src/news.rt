use lf_base::Text;

/// News of the node's own lease, and of who is primary.
#[derive(Debug, Drop)]
pub enum LeaseNews {
    /// The lease service is about to be asked for a term.
    Asked,
    /// What it was asked for last is granted, for so many milliseconds.
    Granted { term: u64, ttl: u64 },
    /// The lease is lost.
    Lost,
    /// This host is the primary. An empty text is none.
    Primary { host: Text },
}
