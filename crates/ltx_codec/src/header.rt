/// The fields of an LTX file's header.
#[derive(Clone, Copy, Debug, PartialEq, Eq)]
pub struct Header {
    /// Bytes in a page.
    pub page_size: u32,
    /// Pages of the database after the transaction.
    pub commit: u32,
    /// The first transaction in the file; 1 for a snapshot.
    pub min: u64,
    /// The last transaction in the file.
    pub max: u64,
    /// When it was committed, in milliseconds since the Unix epoch.
    pub stamp: u64,
    /// The sum of the database before the file's transactions.
    pub pre: u64,
    pub wal_offset: u64,
    pub wal_size: u64,
    pub wal_salt1: u32,
    pub wal_salt2: u32,
    /// The node that committed it.
    pub node: u64,
}
