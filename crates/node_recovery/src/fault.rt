use lf_disk::FileName;

/// Why a folder is not opened. After each of them the disk is given back.
#[derive(Clone, Copy, Debug, PartialEq, Eq)]
pub enum RecoverFault {
    /// A call of the disk failed.
    Disk,
    /// This file of the log is no LTX file (0, and its fault's number), has other numbers than its
    /// name, does not join the file before it, or is the last one and says another sum than the
    /// pages have; or it is the database file, which has bytes (0, and how many) without a log.
    /// `want` and `got` are the two numbers that differ.
    Damaged { file: FileName, want: u64, got: u64 },
    NoMemory,
}
