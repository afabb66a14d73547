//! A store is opened: on a disk without files, or over what recovery found.
ghost use Rattle.std.specs.Prelude.{◌≡◌, None, false, IsTrue};
ghost use Rattle.world_laws.specs.Store.{empty_store};
ghost use Rattle.txn_log.specs.Opening.{IsBlank};
ghost use Rattle.txn_log.specs.Store.{state_of, IsStore, IsShaped, IsSized, image_in, state_in};
ghost use Rattle.lf_disk.specs.History.{now};
ghost use Rattle.lf_sqlite_pages.specs.Header.{image_is_wal};

use crate::entry::{Attempt, Entry};
use crate::store::Store;
use lf_disk::Disk;
use page_checksum::Sums;
use std::alloc::Global;

impl<D: Disk> Store<D> {
    /// The store on a disk without files: a database that was never written.
    pub fn on_blank(alloc: Global, disk: D) -> Store<D>
        requires { IsTrue (D.honest disk) → IsBlank (D.history disk) }
        ensures state { IsTrue (D.honest disk) → state_of (D.history result.disk) result.page_size result.commit
            result.entries.items result.dropped result.broken result.whole ≡ empty_store }
        ensures open_ { result.broken ≡ false }
        ensures disk { result.disk ≡ disk }
    {
        Store {
            disk,
            entries: Vec::new(alloc),
            sums: Sums::new(alloc),
            page_size: 0,
            commit: 0,
            wal: false,
            dropped: false,
            broken: false,
            refused: 0,
            whole: 0,
            attempt: Attempt::Unpublished,
            tried: 0,
            decoder: None,
        }
    }
}

impl<D: Disk> Store<D> {
    /// The store on a disk whose database file holds so many pages of this size, and whose log has
    /// these entries. `sums` are the sums of its pages, and `wal` says what page 1 says.
    pub fn at_rest(
        disk: D,
        entries: Vec<Entry>,
        sums: Sums,
        page_size: u32,
        commit: u32,
        wal: bool,
        dropped: bool,
    ) -> Store<D>
        requires shaped { IsShaped commit entries.items dropped sums.sums }
        requires sized { IsSized page_size commit }
        requires kept { IsTrue (D.honest disk) → IsStore (D.history disk) page_size commit entries.items dropped sums.sums false 0 0 }
        requires mode { IsTrue (D.honest disk) → wal ≡ image_is_wal (image_in page_size commit (now (D.history disk))) }
        ensures state { state_of (D.history result.disk) result.page_size result.commit result.entries.items result.dropped result.broken result.whole
            ≡ state_in page_size commit entries.items dropped (now (D.history disk)) }
        ensures open_ { result.broken ≡ false }
        ensures disk { result.disk ≡ disk }
    {
        Store {
            disk,
            entries,
            sums,
            page_size,
            commit,
            wal,
            dropped,
            broken: false,
            refused: 0,
            whole: 0,
            attempt: Attempt::Unpublished,
            tried: 0,
            decoder: None,
        }
    }
}
