use lf_base::Text;

/// What etcd said, in a whole reply to a call.
#[derive(Debug, Drop)]
pub enum Said {
    /// The key as it is now, if there is one.
    Key(Option<KeyValue>),
    /// A lease of this number, for so many seconds.
    Lease { lease: u64, ttl: u64 },
    /// A lease lasts so many seconds from now on; 0 where it is gone.
    Lasts { ttl: u64 },
    /// It was done, or not.
    Done,
}

/// A key.
#[derive(Debug, Drop)]
pub struct KeyValue {
    /// The revision of its put, which never comes again.
    pub created: u64,
    /// Its lease, 0 for none.
    pub lease: u64,
    /// Its value, in base64.
    pub value: Text,
}
