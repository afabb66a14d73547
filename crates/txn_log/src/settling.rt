//! The rest of an install: the files of the old log go, and the pages of the snapshot are written.
ghost use Rattle.std.specs.Prelude.{◌≡◌, false, true, [], ◌∷◌, ℕ, List, IsTrue, IsSome, OnOk, length, drop};
ghost use Rattle.lf_base.specs.Faults.{CountsFaults};
ghost use Rattle.lf_disk.specs.History.{now, EachMoment, IsSettledBut};
ghost use Rattle.lf_disk.specs.declared.name.FileName.{FileName as Name};
ghost use Rattle.lf_sqlite_pages.specs.Image.{DatabaseImage, empty_image};
ghost use Rattle.txn_log.specs.Kept.{IsAtRest, IsByMark, LogFile};
ghost use Rattle.txn_log.specs.Settling.{HasNoOthers, IsUnsettled, IsInstalled, IsThinned, IsCleared};
ghost use Rattle.txn_log.specs.Pruning.{AreFirst, AreFirstOfSome, IsPruned};

use crate::entry::Entry;
use crate::rewriting::rewrite;
use lf_base::Failed;
use lf_disk::{Disk, FileName};
use lf_sqlite_pages::Change;
use std::alloc::Global;

/// The change to a database without pages. It takes no memory.
#[tactic(auto, unfolding(lf_sqlite_pages::specs::PageSize::is_page_size))]
pub fn no_pages(alloc: Global) -> Change
    ensures { result.commit ≡ 0 }
{
    Change::new(alloc, 512, 0)
}

/// Does the rest of an install where a snapshot stands: removes the mark of a dropped database and
/// the transaction files of these entries, writes the snapshot's change over the database file, and
/// gives the snapshot its name in the log.
pub fn settle<D: Disk>(
    alloc: Global,
    disk: &mut D,
    entries: &[Entry],
    min: u64,
    max: u64,
    change: &Change,
) -> Result<(), Failed>
    requires settled { IsTrue (D.honest disk.old) → IsSettledBut Name.Staged (D.history disk.old) }
    requires there { IsTrue (D.honest disk.old) → IsSome (now (D.history disk.old) Name.Snapshot) }
    ensures moments { IsTrue (D.honest disk.old) → (image : DatabaseImage) (encoding : List ℕ)
        → IsUnsettled image encoding entries.now change.now (now (D.history disk.old))
        → EachMoment (D.history disk.old) (D.history disk.new) (IsInstalled image (record { min = min; max = max; encoding = encoding })) }
    ensures done { IsTrue (D.honest disk.old) → OnOk result ((image : DatabaseImage) (encoding : List ℕ)
        → IsUnsettled image encoding entries.now change.now (now (D.history disk.old))
        → IsAtRest image (record { min = min; max = max; encoding = encoding } ∷ []) false (D.history disk.new)) }
    ensures honest { D.honest disk.new ≡ D.honest disk.old }
    ensures cause { CountsFaults (D.faults disk.old) (D.faults disk.new) result }
{
    disk.remove(FileName::Dropped)?;
    clear(disk, entries)?;
    rewrite(alloc, disk, change)?;
    disk.rename(FileName::Snapshot, FileName::Ltx { min, max })?;
    Ok(())
}

/// Does the rest of a drop where the mark stands: removes the transaction files of these entries,
/// and cuts the database file to no bytes.
pub fn empty<D: Disk>(alloc: Global, disk: &mut D, entries: &[Entry]) -> Result<(), Failed>
    requires settled { IsTrue (D.honest disk.old) → IsSettledBut Name.Staged (D.history disk.old) }
    ensures moments { IsTrue (D.honest disk.old) → IsByMark (now (D.history disk.old))
        → EachMoment (D.history disk.old) (D.history disk.new) IsByMark }
    ensures done { IsTrue (D.honest disk.old) → OnOk result (IsByMark (now (D.history disk.old)) → HasNoOthers entries.now (now (D.history disk.old))
        → IsAtRest empty_image [] true (D.history disk.new)) }
    ensures mark { IsTrue (D.honest disk.old) → OnOk result (now (D.history disk.new) Name.Dropped ≡ now (D.history disk.old) Name.Dropped) }
    ensures honest { D.honest disk.new ≡ D.honest disk.old }
    ensures cause { CountsFaults (D.faults disk.old) (D.faults disk.new) result }
{
    clear(disk, entries)?;
    let nothing = no_pages(alloc);
    rewrite(alloc, disk, &nothing)?;
    Ok(())
}

/// Removes the transaction files of these entries, of which some may be absent.
pub fn clear<D: Disk>(disk: &mut D, entries: &[Entry]) -> Result<(), Failed>
    requires { IsTrue (D.honest disk.old) → IsSettledBut Name.Staged (D.history disk.old) }
    ensures moments { IsTrue (D.honest disk.old)
        → EachMoment (D.history disk.old) (D.history disk.new) (IsThinned entries.now (now (D.history disk.old))) }
    ensures done { IsTrue (D.honest disk.old) → OnOk result (IsCleared entries.now (now (D.history disk.old)) (D.history disk.new)) }
    ensures honest { D.honest disk.new ≡ D.honest disk.old }
    ensures cause { CountsFaults (D.faults disk.old) (D.faults disk.new) result }
{
    for entry in entries {
        disk.remove(FileName::Ltx {
            min: entry.min,
            max: entry.max,
        })?;
    }
    Ok(())
}

/// Takes files out of the log, the oldest first. Each becomes the staged file, which the next transaction is
/// written over: its room on the disk is used again.
pub fn remove_files<D: Disk>(disk: &mut D, entries: &[Entry]) -> Result<(), Failed>
    requires { IsTrue (D.honest disk.old) → AreFirstOfSome entries.now (D.history disk.old) }
    ensures moments { IsTrue (D.honest disk.old) → (image : DatabaseImage) (files : List LogFile)
        → AreFirst image files entries.now (D.history disk.old)
        → EachMoment (D.history disk.old) (D.history disk.new) (IsPruned image files (length entries.now)) }
    ensures done { IsTrue (D.honest disk.old) → OnOk result ((image : DatabaseImage) (files : List LogFile)
        → AreFirst image files entries.now (D.history disk.old)
        → IsAtRest image (drop (length entries.now) files) false (D.history disk.new)) }
    ensures honest { D.honest disk.new ≡ D.honest disk.old }
    ensures cause { CountsFaults (D.faults disk.old) (D.faults disk.new) result }
{
    for entry in entries {
        let name = FileName::Ltx {
            min: entry.min,
            max: entry.max,
        };
        disk.rename(name, FileName::Staged)?;
    }
    Ok(())
}
