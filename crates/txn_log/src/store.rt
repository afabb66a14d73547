ghost use Rattle.std.specs.Prelude.{◌≡◌, IsTrue};
ghost use Rattle.std.proofs.Props.{props};
ghost use Rattle.lf_sqlite_pages.specs.Header.{image_is_wal};
ghost use Rattle.txn_log.specs.Calls.{RestsAs};
ghost use Rattle.txn_log.specs.Kept.{Ascends-prop};
ghost use Rattle.txn_log.specs.Store.{IsStore, IsShaped, IsSized, state_of, failed_of};
ghost use Rattle.world_laws.specs.Store.{MayBeFound};

use crate::entry::{Attempt, Entry};
use crate::reserved::Reserved;
use lf_disk::Disk;
use page_checksum::Sums;

/// A database on a disk: its image in the database file, and its log in transaction files.
#[derive(Drop)]
pub struct Store<D: Disk> {
    pub disk: D,
    /// The files of the log, the oldest first.
    pub entries: Vec<Entry>,
    /// The sum of each page, 0 for the lock page.
    pub sums: Sums,
    pub page_size: u32,
    /// The number of pages.
    pub commit: u32,
    /// Whether page 1 says that the database is in WAL mode.
    pub wal: bool,
    /// The database was dropped, and nothing was committed since.
    pub dropped: bool,
    /// A changing call answered Disk. Nothing is done any more.
    pub broken: bool,
    /// How many reads of a page were refused since.
    pub refused: u64,
    /// The disk's moment before the last changing call.
    pub whole: u64,
    /// What the last changing call tried, and the disk's moment when it tried to publish.
    pub attempt: Attempt,
    pub tried: u64,
    /// For files that are read page by page, once memory was reserved for them.
    pub decoder: Option<Reserved>,
    ghost shaped: { IsShaped commit entries.items dropped sums.sums },
    ghost sized: { IsSized page_size commit },
    ghost kept: { IsTrue (D.honest disk) → IsStore (D.history disk) page_size commit entries.items dropped sums.sums broken whole tried } by { Prim.hlevel (props, Ascends-prop) },
    ghost left: { IsTrue (D.honest disk)
        → RestsAs (MayBeFound (state_of (D.history disk) page_size commit entries.items dropped broken whole) (failed_of (D.history disk) broken attempt tried))
        (D.history disk) } by { Prim.hlevel props },
    ghost mode: { IsTrue (D.honest disk) → wal ≡ image_is_wal (state_of (D.history disk) page_size commit entries.items dropped broken whole).image } by { Prim.hlevel props },
}
