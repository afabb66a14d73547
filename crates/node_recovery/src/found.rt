use crate::outline::Outline;
use crate::tally::Tally;
use txn_log::Entry;

/// Which file decides what the database is. Of a file its pages are not kept.
#[derive(Clone, Copy, Debug)]
pub enum Decider {
    /// A snapshot, whatever else stands there.
    Snapshot(Outline),
    /// The mark of a dropped database, where no snapshot stands.
    Mark,
    /// The last file of the log, where neither stands.
    Last(Outline),
    /// There is no file.
    Nothing,
}

/// What was found in a folder.
#[derive(Drop)]
pub struct Found {
    /// The names of all transaction files, by minimum and then maximum.
    pub names: Vec<Entry>,
    pub decider: Decider,
    /// The log that is decided.
    pub entries: Vec<Entry>,
    /// What is known of the pages that are decided.
    pub tally: Tally,
}
