use lf_base::Text;

/// What a node asks of the lease service.
#[derive(Debug, Drop)]
pub enum LeaseAsk {
    /// A new term, or the renewal of its own.
    Acquire { node: u64, url: Text, host: Text },
    /// A later end of its term.
    Renew { node: u64, term: u64 },
    /// The end of its term now.
    Release { node: u64, term: u64 },
    /// Who holds the lease.
    Info,
}
