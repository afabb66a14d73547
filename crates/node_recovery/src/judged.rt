use crate::file_summary::FileSummary;
use txn_log::Entry;

/// A log that was judged: its entries, the oldest first, and its last file with its pages' sums.
#[derive(Drop)]
pub struct Log {
    pub entries: Vec<Entry>,
    pub last: Option<FileSummary>,
}
