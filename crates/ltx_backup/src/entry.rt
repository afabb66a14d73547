//! What is kept in memory of the files on the disks.
ghost use Rattle.std.specs.Prelude.{◌≡◌};
ghost use Rattle.lf_disk.specs.declared.name.FileName.TheVariants as name;
ghost use Rattle.ltx_backup.specs.Entries.{entry_of};

use lf_base::Pos;
use lf_disk::FileName;
use ltx_codec::Ltx;

/// A file: its transactions, and the size of its pages, 0 where it was not read yet.
#[derive(Clone, Copy)]
pub struct Entry {
    pub min: u64,
    pub max: u64,
    pub page_size: u32,
}

/// The files of each level, the oldest first.
#[derive(Drop)]
pub struct Entries {
    pub lows: Vec<Entry>,
    pub middles: Vec<Entry>,
    pub highs: Vec<Entry>,
}

/// The files, and where the last of them ends.
#[derive(Drop)]
pub struct Index {
    pub entries: Entries,
    pub end: Pos,
}

impl Entry {
    /// The entry of a file.
    pub fn of(file: &Ltx) -> Entry
        ensures { result ≡ entry_of file.now }
    {
        Entry {
            min: file.header.min,
            max: file.header.max,
            page_size: file.header.page_size,
        }
    }

    /// The name of the file.
    pub fn name(&self) -> FileName
        ensures { result ≡ name.Ltx self.now.min self.now.max }
    {
        FileName::Ltx {
            min: self.min,
            max: self.max,
        }
    }
}
