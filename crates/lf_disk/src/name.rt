ghost use Rattle.std.specs.Prelude.{◌≡◌};
ghost use Rattle.lf_disk.specs.Folder.{same_name};

/// The files that a disk holds. All others are not looked at.
#[derive(Clone, Copy, Debug, PartialEq, Eq)]
pub enum FileName {
    /// The database file.
    Database,
    /// A file that is being written, before it has its name.
    Staged,
    /// A whole database in one transaction file.
    Snapshot,
    /// The mark of a database that was dropped.
    Dropped,
    /// The transactions `min` to `max`.
    Ltx { min: u64, max: u64 },
}

/// Whether two names are one.
pub(crate) fn is_same(one: FileName, other: FileName) -> bool
    ensures { result ≡ same_name one other }
{
    match (one, other) {
        (FileName::Database, FileName::Database) => true,
        (FileName::Staged, FileName::Staged) => true,
        (FileName::Snapshot, FileName::Snapshot) => true,
        (FileName::Dropped, FileName::Dropped) => true,
        (FileName::Ltx { min: a, max: b }, FileName::Ltx { min: c, max: d }) => a == c && b == d,
        _ => false,
    }
}
