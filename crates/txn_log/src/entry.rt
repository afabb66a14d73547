//! What a store remembers of a file of its log, and of its last call.

use lf_base::Pos;

/// A file of the log: the first and last transaction in it, and the positions that it stands
/// between.
#[derive(Clone, Copy, Debug, PartialEq, Eq)]
pub struct Entry {
    pub min: u64,
    pub max: u64,
    pub pre: Pos,
    pub post: Pos,
}

/// What a changing call of a store tries. While the store is broken, it tells what broke it.
#[derive(Clone, Copy, Debug, PartialEq, Eq)]
pub enum Attempt {
    /// A call whose file is not published yet.
    Unpublished,
    /// A commit, from the rename on.
    Commit,
    /// A drop, from the mark's rename on.
    Drop,
    /// The application of another's file, from the rename on.
    Apply,
    /// The installation of another's snapshot, from the rename on.
    Install,
    /// The removal of all but the last `keep` files.
    Prune { keep: u64 },
}
