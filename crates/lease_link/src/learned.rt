use lf_base::Text;

/// What a reply of the lease service tells a node.
#[derive(Debug, Drop)]
pub enum Learned {
    /// It has this term, for so many milliseconds from its asking on.
    Granted { term: u64, ttl: u64 },
    /// Its term is lost.
    Lost,
    /// This host is primary, and is found there.
    Primary { host: Text, url: Text },
    /// Nobody is primary.
    Nobody,
    /// Nothing.
    Nothing,
}
