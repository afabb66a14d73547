use lf_base::Text;

/// Why the lease service refused.
#[derive(Clone, Copy, Debug, PartialEq, Eq)]
pub enum LeaseKind {
    Held,
    Unknown,
    Late,
    Limit,
}

/// What the lease service answers.
#[derive(Debug, Drop)]
pub enum LeaseReply {
    /// The grant, which lasts `ttl` milliseconds more.
    Grant {
        host: Text,
        term: u64,
        ttl: u64,
        url: Text,
    },
    /// The term lasts `ttl` milliseconds more.
    Renewed {
        ttl: u64,
    },
    /// The term has ended, or nobody holds the lease.
    Empty,
    /// `until` is the end of the grant that stands in the way or has ended, else 0.
    Refused {
        kind: LeaseKind,
        until: u64,
    },
}
