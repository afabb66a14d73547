//! Files are removed that the chain passes over.
ghost use Rattle.std.specs.Prelude.{◌≡◌, ◌∷◌, [], ◌++◌, List, IsTrue, OnOk};
ghost use Rattle.lf_base.specs.Faults.{CountsFaults};
ghost use Rattle.lf_disk.specs.declared.name.FileName.TheVariants as name;
ghost use Rattle.lf_disk.specs.Folder.{Folder};
ghost use Rattle.lf_disk.specs.History.{now, EachMoment, IsSettledBut};
ghost use Rattle.ltx_backup.specs.declared.entry.Entry.{Entry as Kept};
ghost use Rattle.ltx_backup.specs.Trimming.{IsTrimmed, HasTrimmed};

use crate::entry::Entry;
use lf_base::Failed;
use lf_disk::{Disk, FileName};

/// Removes a file that begins with a transaction up to `number`.
fn trim_one<D: Disk>(disk: &mut D, entry: &Entry, number: u64) -> Result<(), Failed>
    ensures moments { IsTrue (D.honest disk.old) → (before : Folder) (entries : List Kept) → HasTrimmed number entries before (D.history disk.old)
        → EachMoment (D.history disk.old) (D.history disk.new) (IsTrimmed number before) }
    ensures done { IsTrue (D.honest disk.old) → (before : Folder) (entries : List Kept) → HasTrimmed number entries before (D.history disk.old)
        → OnOk result (HasTrimmed number (entries ++ entry.now ∷ []) before (D.history disk.new)) }
    ensures honest { D.honest disk.new ≡ D.honest disk.old }
    ensures cause { CountsFaults (D.faults disk.old) (D.faults disk.new) result }
{
    if entry.min > number {
        return Ok(());
    }
    disk.remove(entry.name())?;
    Ok(())
}

/// Removes those files of a level that begin with a transaction up to `number`.
pub fn trim<D: Disk>(disk: &mut D, entries: &[Entry], number: u64) -> Result<(), Failed>
    requires settled { IsTrue (D.honest disk.old) → IsSettledBut name.Staged (D.history disk.old) }
    ensures moments { IsTrue (D.honest disk.old)
        → EachMoment (D.history disk.old) (D.history disk.new) (IsTrimmed number (now (D.history disk.old))) }
    ensures done { IsTrue (D.honest disk.old) → OnOk result
        (HasTrimmed number entries.now (now (D.history disk.old)) (D.history disk.new)) }
    ensures honest { D.honest disk.new ≡ D.honest disk.old }
    ensures cause { CountsFaults (D.faults disk.old) (D.faults disk.new) result }
{
    for entry in entries {
        trim_one(disk, entry, number)?;
    }
    Ok(())
}

/// The same, and removes what was left staged.
pub fn tidy<D: Disk>(disk: &mut D, entries: &[Entry], number: u64) -> Result<(), Failed>
    requires settled { IsTrue (D.honest disk.old) → IsSettledBut name.Staged (D.history disk.old) }
    ensures moments { IsTrue (D.honest disk.old)
        → EachMoment (D.history disk.old) (D.history disk.new) (IsTrimmed number (now (D.history disk.old))) }
    ensures done { IsTrue (D.honest disk.old) → OnOk result
        (HasTrimmed number entries.now (now (D.history disk.old)) (D.history disk.new)) }
    ensures honest { D.honest disk.new ≡ D.honest disk.old }
    ensures cause { CountsFaults (D.faults disk.old) (D.faults disk.new) result }
{
    trim(disk, entries, number)?;
    disk.remove(FileName::Staged)?;
    Ok(())
}
