/// What a follower says of the last file of its log.
#[derive(Clone, Copy, Debug, PartialEq, Eq)]
pub enum LastFile {
    /// It is of the transactions from `min` to `max`, and this is the checksum in its trailer.
    File { min: u64, max: u64, sum: u64 },
    /// Nothing that a primary is to rely on: the follower's position counts as unknown.
    Unknown,
}
