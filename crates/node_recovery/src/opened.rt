use page_checksum::Sums;
use txn_log::Entry;

/// What a store is made of, once its disk is at rest.
#[derive(Drop)]
pub struct Opened {
    pub entries: Vec<Entry>,
    pub sums: Sums,
    pub page_size: u32,
    pub commit: u32,
    pub wal: bool,
    pub dropped: bool,
}
