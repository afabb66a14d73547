use lf_sqlite_pages::Change;

/// What a write did.
#[derive(Debug, Drop)]
pub enum WalNews {
    /// The committed frames are as before.
    Stored,
    /// The committed frames grew by this change.
    Committed(Change),
}
