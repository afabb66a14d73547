use lf_base::Pos;

/// Why a call of a backup was refused. After each of them but Disk the backup holds what it held;
/// `settle` keeps the compactions that it had made before.
#[derive(Clone, Copy, Debug, PartialEq, Eq)]
pub enum BackupFault {
    /// A disk failed. After it, in `add` or `settle`, the backup is broken until it is opened anew.
    Disk,
    /// A call that changes something answered Disk before.
    Broken,
    /// The file begins neither at the first transaction nor where the backup ends: `have` is the
    /// backup's end, and `want` the position that the file follows.
    NotNext { have: Pos, want: Pos },
    /// No file ends with this transaction. The backup's last one is `last`.
    NoSuchTxid { txid: u64, last: u64 },
    /// The pages have the sum `got`, and the last file says `want`.
    SumDiffers { want: u64, got: u64 },
    /// The file of these transactions on this level is no LTX file, doesn't begin where the one before
    /// it ends, or can't be applied to the pages before it. A snapshot that waits for its name is of
    /// level 0, from 0 to 0.
    Damaged { level: u8, min: u64, max: u64 },
    NoMemory,
}
