//! A database is dropped.
ghost use Rattle.std.specs.Prelude.{◌≡◌, ◌≤◌, [], IsTrue, OnOk, OnErr, false, true, IsSome, List};
ghost use Rattle.world_laws.specs.Store.{DropAll};
ghost use Rattle.txn_log.specs.Dropping.{IsMarked, NameAll, IsKeptOrDropped, IsMarkReady, Drops};
ghost use Rattle.txn_log.specs.Fields.{CallBreaks, CallWent, DropsBy, HasSameFiles};
ghost use Rattle.txn_log.specs.Store.{end_of_entries};
ghost use Rattle.lf_base.specs.Faults.{CountsFaults};
ghost use Rattle.lf_disk.specs.History.{now, EachMoment, IsSettledBut};
ghost use Rattle.lf_disk.specs.declared.name.FileName.{FileName as Name};
ghost use Rattle.lf_sqlite_pages.specs.Image.{DatabaseImage, empty_image};
ghost use Rattle.txn_log.specs.Kept.{LogFile, IsAtRest};
ghost use Rattle.txn_log.specs.Placing.{CountsPlaced};
ghost use Rattle.txn_log.specs.Putting.{IsSettled};

use crate::entry::{Attempt, Entry};
use crate::fault::StoreFault;
use crate::publishing::Placed;
use crate::settling::empty;
use crate::store::Store;
use lf_base::Failed;
use lf_disk::{Disk, FileName, put_in_place, stage};
use std::alloc::Global;

impl<D: Disk> Store<D> {
    /// Drops the database: its pages and its log go, and a mark stays that it was there. It takes no
    /// memory.
    pub fn drop_all(&mut self) -> Result<(), StoreFault>
        requires { 1 ≤ (end_of_entries self.old.entries.items).txid }
        ensures drops { DropsBy self.old result }
        ensures cause { CallBreaks self.old result self.new }
        ensures mark { IsTrue (D.honest self.old.disk) → OnOk result (IsMarked (D.history self.new.disk)) }
        ensures shape { OnOk result ((self.new.page_size ≡ 0) × (self.new.commit ≡ 0) × (self.new.entries.items ≡ [])) }
        ensures same { OnErr result (HasSameFiles self.old self.new) }

        // What a crash leaves at each moment.
        ensures went { IsTrue (D.honest self.old.disk) → CallWent self.old DropAll result self.new }
        ensures honest { D.honest self.new.disk ≡ D.honest self.old.disk }
    {
        if self.broken {
            return Err(StoreFault::Broken);
        }
        self.whole = self.disk.moment();
        match drop_files(
            *self.entries.allocator(),
            &mut self.disk,
            self.entries.as_slice(),
        ) {
            Placed::Whole => {
                self.page_size = 0;
                self.commit = 0;
                self.wal = false;
                self.dropped = true;
                self.entries.clear();
                self.sums.resize(0);
                Ok(())
            }
            Placed::Unpublished => {
                self.broken = true;
                self.attempt = Attempt::Unpublished;
                self.tried = self.whole;
                Err(StoreFault::Disk)
            }
            Placed::From(tried) => {
                self.broken = true;
                self.attempt = Attempt::Drop;
                self.tried = tried;
                Err(StoreFault::Disk)
            }
        }
    }
}

/// Gives the staged file the name of the mark, removes the files of the log, and cuts the database
/// file to no bytes.
fn put_mark<D: Disk>(alloc: Global, disk: &mut D, entries: &[Entry]) -> Result<(), Failed>
    requires settled { IsTrue (D.honest disk.old) → IsSettled (D.history disk.old) }
    requires there { IsTrue (D.honest disk.old) → IsSome (now (D.history disk.old) Name.Staged) }
    ensures moments { IsTrue (D.honest disk.old) → (image : DatabaseImage) (files : List LogFile)
        → IsMarkReady image files (D.history disk.old)
        → EachMoment (D.history disk.old) (D.history disk.new) (IsKeptOrDropped image files) }
    ensures done { IsTrue (D.honest disk.old) → OnOk result ((image : DatabaseImage) (files : List LogFile)
        → IsMarkReady image files (D.history disk.old) → NameAll entries.now files
        → IsAtRest empty_image [] true (D.history disk.new)) }
    ensures mark { IsTrue (D.honest disk.old) → OnOk result (now (D.history disk.new) Name.Dropped ≡ now (D.history disk.old) Name.Staged) }
    ensures honest { D.honest disk.new ≡ D.honest disk.old }
    ensures cause { CountsFaults (D.faults disk.old) (D.faults disk.new) result }
{
    put_in_place(disk, FileName::Dropped)?;
    empty(alloc, disk, entries)?;
    Ok(())
}

/// Stages the mark of a dropped database and puts it in place; the files of the log go then.
pub fn drop_files<D: Disk>(alloc: Global, disk: &mut D, entries: &[Entry]) -> Placed
    requires { IsTrue (D.honest disk.old) → IsSettledBut Name.Staged (D.history disk.old) }
    ensures drops { IsTrue (D.honest disk.old) → (image : DatabaseImage) (files : List LogFile)
        → IsAtRest image files false (D.history disk.old) → NameAll entries.now files
        → Drops image files (D.history disk.old) result (D.history disk.new) }
    ensures honest { D.honest disk.new ≡ D.honest disk.old }
    ensures cause { CountsPlaced (D.faults disk.old) (D.faults disk.new) result }
{
    match stage(disk, &[0]) {
        Ok(()) => {}
        Err(_) => return Placed::Unpublished,
    }
    let tried = disk.moment();
    match put_mark(alloc, disk, entries) {
        Ok(()) => Placed::Whole,
        Err(_) => Placed::From(tried),
    }
}
