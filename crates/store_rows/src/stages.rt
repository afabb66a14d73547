//! What a store is between two calls.
use lf_disk::Disk;
use lf_sqlite_pages::PageStore;
use txn_log::Store;

/// What a store is between two calls: among others, the byte that each of its pages is full of.
#[derive(Clone, Copy)]
pub struct Stage {
    pub txid: u64,
    pub sum: u64,
    pub pages: &'static [u8],
    pub files: usize,
    pub dropped: bool,
}

pub const NEVER_WRITTEN: Stage = Stage {
    txid: 0,
    sum: 0,
    pages: &[],
    files: 0,
    dropped: false,
};

/// Whether page `n` is full of a byte.
fn is_full<D: Disk>(store: &mut Store<D>, n: u32, byte: u8) -> bool {
    if n == 0 || n > store.commit || store.page_size != 512 {
        return false;
    }
    let mut out = [0u8; 512];
    match store.page(n, &mut out) {
        Ok(()) => out.iter().all(|b| *b == byte),
        Err(_) => false,
    }
}

/// Whether the pages are full of these bytes, and there are no others.
fn holds<D: Disk>(store: &mut Store<D>, bytes: &[u8]) -> bool {
    let mut same = store.commit as usize == bytes.len();
    let mut n = 0u32;
    for byte in bytes {
        n = n.saturating_add(1);
        same = same && is_full(store, n, *byte);
    }
    same
}

/// Whether a store is at a stage, but for how many files its log has.
fn is_at<D: Disk>(store: &mut Store<D>, stage: &Stage) -> bool {
    let stands = store.pos();
    stands.txid == stage.txid
        && stands.sum == stage.sum
        && store.dropped == stage.dropped
        && holds(store, stage.pages)
}

/// Whether a store is at a stage.
pub fn is_just<D: Disk>(store: &mut Store<D>, stage: &Stage) -> bool {
    store.entries.len() == stage.files && is_at(store, stage)
}

/// Which of two stages a store is at. A prune that was stopped leaves a number of files between theirs.
pub fn place_of<D: Disk>(
    store: &mut Store<D>,
    before: &Stage,
    after: &Stage,
) -> Option<&'static str> {
    let files = store.entries.len();
    if files < before.files.min(after.files) || files > before.files.max(after.files) {
        return None;
    }
    if is_at(store, before) {
        return Some("before");
    }
    if is_at(store, after) {
        Some("after")
    } else {
        None
    }
}
