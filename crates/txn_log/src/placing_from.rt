//! A file that was staged as it came is published, and its pages are written as they are read again.
ghost use Rattle.std.specs.Prelude.{◌≡◌, ◌≤◌, [], List, length, IsTrue, Bool, false, true, ◌∷◌, ◌++◌, ◌<◌, ◌^◌, IsSome, OnOk, ℕ};
ghost use Rattle.lf_disk.specs.Folder.{Folder};
ghost use Rattle.lf_sqlite_pages.specs.Apply.{apply};
ghost use Rattle.lf_sqlite_pages.specs.Change.{PageChange, IsChange};
ghost use Rattle.lf_sqlite_pages.specs.Image.{DatabaseImage};
ghost use Rattle.ltx_codec.specs.Format.{file_encoding, no_meaning};
ghost use Rattle.ltx_codec.specs.declared.file.Ltx.{Ltx};
ghost use Rattle.txn_log.specs.Intake.{HasUpTo, HoldsUpTo};
ghost use Rattle.txn_log.specs.Kept.{LogFile, IsAtRest};
ghost use Rattle.txn_log.specs.PlacingFrom.{IsOverFrom};
ghost use Rattle.txn_log.specs.Placing.{Places, CountsPlaced, IsBetween};
ghost use Rattle.txn_log.specs.BringingAnew.{IsOverAnewFrom};
ghost use Rattle.txn_log.specs.Installing.{PlacesAnew, IsReadyAnew, IsAsBeforeOrInstalled};
ghost use Rattle.lf_base.specs.Faults.{CountsFaults};
ghost use Rattle.lf_disk.specs.History.{now, EachMoment, IsSettledBut};
ghost use Rattle.lf_disk.specs.declared.name.FileName.{FileName as Name};
ghost use Rattle.lf_sqlite_pages.specs.PageSize.{IsPageSize};
ghost use Rattle.txn_log.specs.Putting.{IsSettled, IsReady, IsBeforeOrAfter};
ghost use Rattle.txn_log.specs.Republishing.{HoldsFile};
ghost use Rattle.txn_log.specs.Settling.{IsUnsettled, IsInstalled};

use crate::entry::Entry;
use crate::publishing::Placed;
use crate::receiving::Receiving;
use crate::rewriting_from::rewrite_from;
use crate::settling::clear;
use crate::staging::seal;
use lf_base::Failed;
use lf_disk::{Disk, FileName, put_in_place};
use ltx_codec::Header;
use page_checksum::Sums;

/// Stages what the file that was received lacks behind its last page, over a database of `count`
/// pages, and its trailer; publishes it, and writes its pages over the database file.
pub fn place_from<D: Disk>(
    disk: &mut D,
    dropped: bool,
    received: Receiving,
    sums: &Sums,
    count: u32,
    post: u64,
    page: &mut [u8],
) -> Placed
    requires known { (before : Folder) × (change : PageChange) × IsChange change × HasUpTo received sums.now.sums count change × (change.commit ≡ received.header.commit)
        × (IsTrue (D.honest disk.old) → HoldsUpTo before received change count (D.history disk.old)) }
    requires room { length page.old ≡ 65536 }
    ensures places { IsTrue (D.honest disk.old) → (before : Folder) (image : DatabaseImage) (files : List LogFile) (change : PageChange) (file : Ltx)
        → IsOverFrom before image files dropped received sums.now.sums count post change file → HoldsUpTo before received change count (D.history disk.old)
        → Places image files dropped (apply image file.change) (record { min = received.header.min; max = received.header.max; encoding = file_encoding file no_meaning })
        (D.history disk.old) result (D.history disk.new) }
    ensures honest { D.honest disk.new ≡ D.honest disk.old }
    ensures cause { CountsPlaced (D.faults disk.old) (D.faults disk.new) result }
{
    let mut receiving = received;
    match receiving.pass_rest(disk, sums, count) {
        Ok(()) => {}
        Err(_) => return Placed::Unpublished,
    }
    let mut staging = receiving.staging;
    let len = staging.len;
    match seal(disk, &mut staging, post) {
        Ok(()) => {}
        Err(_) => return Placed::Unpublished,
    }
    let tried = disk.moment();
    match put_staged_from(disk, dropped, &receiving.header, len, page) {
        Ok(()) => Placed::Whole,
        Err(_) => Placed::From(tried),
    }
}

/// Stages what the snapshot that was received lacks behind its last page, and its trailer; publishes
/// it in place of the files of these entries, and writes its pages over the database file.
pub fn place_anew_from<D: Disk>(
    disk: &mut D,
    entries: &[Entry],
    received: Receiving,
    sums: &Sums,
    count: u32,
    post: u64,
    page: &mut [u8],
) -> Placed
    requires known { (before : Folder) × (change : PageChange) × IsChange change × HasUpTo received sums.now.sums count change × (change.commit ≡ received.header.commit)
        × (IsTrue (D.honest disk.old) → HoldsUpTo before received change count (D.history disk.old)) }
    requires room { length page.old ≡ 65536 }
    ensures places { IsTrue (D.honest disk.old) → (before : Folder) (image made : DatabaseImage) (files : List LogFile) (dropped : Bool) (change : PageChange) (file : Ltx)
        → IsOverAnewFrom before image files dropped made received sums.now.sums count entries.now post change file → HoldsUpTo before received change count (D.history disk.old)
        → PlacesAnew image files dropped made (record { min = received.header.min; max = received.header.max; encoding = file_encoding file no_meaning })
        (D.history disk.old) result (D.history disk.new) }
    ensures honest { D.honest disk.new ≡ D.honest disk.old }
    ensures cause { CountsPlaced (D.faults disk.old) (D.faults disk.new) result }
{
    let mut receiving = received;
    match receiving.pass_rest(disk, sums, count) {
        Ok(()) => {}
        Err(_) => return Placed::Unpublished,
    }
    let mut staging = receiving.staging;
    let len = staging.len;
    match seal(disk, &mut staging, post) {
        Ok(()) => {}
        Err(_) => return Placed::Unpublished,
    }
    let tried = disk.moment();
    match put_anew_from(disk, entries, &receiving.header, len, page) {
        Ok(()) => Placed::Whole,
        Err(_) => Placed::From(tried),
    }
}

/// Gives the staged file its name in the log, and then writes its pages over the database file.
pub fn put_from<D: Disk>(
    disk: &mut D,
    header: &Header,
    len: u64,
    page: &mut [u8],
) -> Result<(), Failed>
    requires settled { IsTrue (D.honest disk.old) → IsSettled (D.history disk.old) }
    requires there { IsTrue (D.honest disk.old) → IsSome (now (D.history disk.old) Name.Staged) }
    requires sized { IsPageSize header.now.page_size }
    requires short { len < 2 ^ 63 }
    requires room { length page.old ≡ 65536 }
    ensures moments { IsTrue (D.honest disk.old) → (image : DatabaseImage) (files : List LogFile) (encoding : List ℕ) (file : Ltx)
        → IsReady image files false encoding file.change (D.history disk.old) → HoldsFile Name.Staged header.now len file (now (D.history disk.old))
        → EachMoment (D.history disk.old) (D.history disk.new)
        (IsBeforeOrAfter image files (apply image file.change) (files ++ record { min = header.now.min; max = header.now.max; encoding = encoding } ∷ [])) }
    ensures done { IsTrue (D.honest disk.old) → OnOk result ((image : DatabaseImage) (files : List LogFile) (encoding : List ℕ) (file : Ltx)
        → IsReady image files false encoding file.change (D.history disk.old) → HoldsFile Name.Staged header.now len file (now (D.history disk.old))
        → IsAtRest (apply image file.change) (files ++ record { min = header.now.min; max = header.now.max; encoding = encoding } ∷ []) false (D.history disk.new)) }
    ensures honest { D.honest disk.new ≡ D.honest disk.old }
    ensures cause { CountsFaults (D.faults disk.old) (D.faults disk.new) result }
{
    let name = FileName::Ltx {
        min: header.min,
        max: header.max,
    };
    put_in_place(disk, name)?;
    rewrite_from(disk, name, header, len, page)?;
    Ok(())
}

/// Does the rest of an install where a snapshot of this header stands: removes the mark of a dropped
/// database and the transaction files of these entries, writes the snapshot's pages over the database
/// file, and gives the snapshot its name in the log.
pub fn settle_from<D: Disk>(
    disk: &mut D,
    entries: &[Entry],
    header: &Header,
    len: u64,
    page: &mut [u8],
) -> Result<(), Failed>
    requires settled { IsTrue (D.honest disk.old) → IsSettledBut Name.Staged (D.history disk.old) }
    requires there { IsTrue (D.honest disk.old) → IsSome (now (D.history disk.old) Name.Snapshot) }
    requires sized { IsPageSize header.now.page_size }
    requires short { len < 2 ^ 63 }
    requires room { length page.old ≡ 65536 }
    ensures moments { IsTrue (D.honest disk.old) → (file : Ltx) → HoldsFile Name.Snapshot header.now len file (now (D.history disk.old))
        → (image : DatabaseImage) (encoding : List ℕ) → IsUnsettled image encoding entries.now file.change (now (D.history disk.old))
        → EachMoment (D.history disk.old) (D.history disk.new) (IsInstalled image (record { min = header.now.min; max = header.now.max; encoding = encoding })) }
    ensures done { IsTrue (D.honest disk.old) → OnOk result ((file : Ltx) → HoldsFile Name.Snapshot header.now len file (now (D.history disk.old))
        → (image : DatabaseImage) (encoding : List ℕ) → IsUnsettled image encoding entries.now file.change (now (D.history disk.old))
        → IsAtRest image (record { min = header.now.min; max = header.now.max; encoding = encoding } ∷ []) false (D.history disk.new)) }
    ensures honest { D.honest disk.new ≡ D.honest disk.old }
    ensures cause { CountsFaults (D.faults disk.old) (D.faults disk.new) result }
{
    disk.remove(FileName::Dropped)?;
    clear(disk, entries)?;
    rewrite_from(disk, FileName::Snapshot, header, len, page)?;
    disk.rename(
        FileName::Snapshot,
        FileName::Ltx {
            min: header.min,
            max: header.max,
        },
    )?;
    Ok(())
}

/// Publishes the staged file as a snapshot in place of the transaction files of these entries, and
/// does the rest of an install.
pub fn put_anew_from<D: Disk>(
    disk: &mut D,
    entries: &[Entry],
    header: &Header,
    len: u64,
    page: &mut [u8],
) -> Result<(), Failed>
    requires settled { IsTrue (D.honest disk.old) → IsSettled (D.history disk.old) }
    requires there { IsTrue (D.honest disk.old) → IsSome (now (D.history disk.old) Name.Staged) }
    requires sized { IsPageSize header.now.page_size }
    requires short { len < 2 ^ 63 }
    requires room { length page.old ≡ 65536 }
    ensures moments { IsTrue (D.honest disk.old) → (before : Folder) (image : DatabaseImage) (encoding : List ℕ) (file : Ltx)
        → IsReadyAnew before image encoding entries.now file.change (D.history disk.old) → HoldsFile Name.Staged header.now len file (now (D.history disk.old))
        → EachMoment (D.history disk.old) (D.history disk.new)
        (IsAsBeforeOrInstalled before image (record { min = header.now.min; max = header.now.max; encoding = encoding })) }
    ensures done { IsTrue (D.honest disk.old) → OnOk result ((before : Folder) (image : DatabaseImage) (encoding : List ℕ) (file : Ltx)
        → IsReadyAnew before image encoding entries.now file.change (D.history disk.old) → HoldsFile Name.Staged header.now len file (now (D.history disk.old))
        → IsAtRest image (record { min = header.now.min; max = header.now.max; encoding = encoding } ∷ []) false (D.history disk.new)) }
    ensures honest { D.honest disk.new ≡ D.honest disk.old }
    ensures cause { CountsFaults (D.faults disk.old) (D.faults disk.new) result }
{
    put_in_place(disk, FileName::Snapshot)?;
    settle_from(disk, entries, header, len, page)?;
    Ok(())
}

/// Publishes the staged file: on a store with the mark of a dropped database as a snapshot, else under
/// its name in the log.
pub fn put_staged_from<D: Disk>(
    disk: &mut D,
    dropped: bool,
    header: &Header,
    len: u64,
    page: &mut [u8],
) -> Result<(), Failed>
    requires settled { IsTrue (D.honest disk.old) → IsSettled (D.history disk.old) }
    requires there { IsTrue (D.honest disk.old) → IsSome (now (D.history disk.old) Name.Staged) }
    requires sized { IsPageSize header.now.page_size }
    requires short { len < 2 ^ 63 }
    requires room { length page.old ≡ 65536 }
    ensures moments { IsTrue (D.honest disk.old) → (image : DatabaseImage) (files : List LogFile) (encoding : List ℕ) (file : Ltx)
        → IsReady image files dropped encoding file.change (D.history disk.old) → (dropped ≡ true → files ≡ [])
        → HoldsFile Name.Staged header.now len file (now (D.history disk.old))
        → EachMoment (D.history disk.old) (D.history disk.new)
        (IsBetween image files dropped (apply image file.change) (record { min = header.now.min; max = header.now.max; encoding = encoding })) }
    ensures done { IsTrue (D.honest disk.old) → OnOk result ((image : DatabaseImage) (files : List LogFile) (encoding : List ℕ) (file : Ltx)
        → IsReady image files dropped encoding file.change (D.history disk.old) → (dropped ≡ true → files ≡ [])
        → HoldsFile Name.Staged header.now len file (now (D.history disk.old))
        → IsAtRest (apply image file.change) (files ++ record { min = header.now.min; max = header.now.max; encoding = encoding } ∷ []) false (D.history disk.new)) }
    ensures honest { D.honest disk.new ≡ D.honest disk.old }
    ensures cause { CountsFaults (D.faults disk.old) (D.faults disk.new) result }
{
    if dropped {
        put_anew_from(disk, &[], header, len, page)?;
        return Ok(());
    }
    put_from(disk, header, len, page)?;
    Ok(())
}
