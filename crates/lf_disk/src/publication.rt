//! A whole file is published: it is staged, synced, and then renamed.
ghost use Rattle.std.specs.Prelude.{◌≡◌, false, ℕ, List, IsTrue, IsSome, OnOk};
ghost use Rattle.lf_base.specs.Faults.{CountsFaults};
ghost use Rattle.lf_disk.specs.Folder.{Folder, SameBut, same_name};
ghost use Rattle.lf_disk.specs.History.{now, EachMoment, IsSettledBut};
ghost use Rattle.lf_disk.specs.Publish.{IsTrimmed, IsStaged, IsOldOrPublished, IsPublished, IsOneOfThree, with_bytes};

use crate::disk::Disk;
use crate::name::FileName;
use lf_base::Failed;

/// Cuts off what stands behind so many bytes in the staged file. What stands there of an earlier file is
/// written over, which costs less than a new file.
fn trim_staged<D: Disk>(disk: &mut D, len: u64) -> Result<(), Failed>
    requires settled { IsTrue (D.honest disk.old)
        → IsSettledBut FileName.Staged (D.history disk.old) }
    ensures moments { IsTrue (D.honest disk.old)
        → EachMoment (D.history disk.old) (D.history disk.new)
        (SameBut FileName.Staged (now (D.history disk.old))) }
    ensures trimmed { IsTrue (D.honest disk.old) → OnOk result
        (IsTrimmed len (now (D.history disk.old)) (D.history disk.new)) }
    ensures honest { D.honest disk.new ≡ D.honest disk.old }
    ensures cause { CountsFaults (D.faults disk.old) (D.faults disk.new) result }
{
    let left = disk.size(FileName::Staged)?.unwrap_or(0);
    if left <= len {
        return Ok(());
    }
    disk.cut(FileName::Staged, len)
}

/// Makes the staged file these bytes, and syncs it. What was left in it before is written over.
pub fn stage<D: Disk>(disk: &mut D, bytes: &[u8]) -> Result<(), Failed>
    requires settled { IsTrue (D.honest disk.old)
        → IsSettledBut FileName.Staged (D.history disk.old) }

    // A crash at each moment leaves every file but the staged one as before.
    ensures moments { IsTrue (D.honest disk.old)
        → EachMoment (D.history disk.old) (D.history disk.new)
        (SameBut FileName.Staged (now (D.history disk.old))) }
    ensures staged { IsTrue (D.honest disk.old) → OnOk result
        (IsStaged (now (D.history disk.old)) bytes.now (D.history disk.new)) }
    ensures honest { D.honest disk.new ≡ D.honest disk.old }
    ensures cause { CountsFaults (D.faults disk.old) (D.faults disk.new) result }
{
    trim_staged(disk, bytes.len() as u64)?;
    disk.write(FileName::Staged, 0, bytes)?;
    disk.sync(FileName::Staged)?;
    Ok(())
}

/// Gives the staged file another name. At no moment is there a part of it under that name.
pub fn put_in_place<D: Disk>(disk: &mut D, name: FileName) -> Result<(), Failed>
    requires other { same_name name FileName.Staged ≡ false }
    requires there { IsTrue (D.honest disk.old)
        → IsSome (now (D.history disk.old) FileName.Staged) }

    // A crash at each moment leaves every file but the staged one as before, or with the file whole.
    ensures moments { IsTrue (D.honest disk.old) → (before : Folder) (bytes : List ℕ)
        → IsStaged before bytes (D.history disk.old)
        → EachMoment (D.history disk.old) (D.history disk.new) (IsOldOrPublished before name bytes) }
    ensures published { IsTrue (D.honest disk.old) → OnOk result ((before : Folder) (bytes : List ℕ)
        → IsStaged before bytes (D.history disk.old)
        → IsPublished before name bytes (D.history disk.new)) }
    ensures honest { D.honest disk.new ≡ D.honest disk.old }
    ensures cause { CountsFaults (D.faults disk.old) (D.faults disk.new) result }
{
    disk.rename(FileName::Staged, name)?;
    Ok(())
}

/// Puts a whole file into place. At no moment is there a part of it under its name.
pub fn publish<D: Disk>(disk: &mut D, name: FileName, bytes: &[u8]) -> Result<(), Failed>
    requires other { same_name name FileName.Staged ≡ false }
    requires settled { IsTrue (D.honest disk.old)
        → IsSettledBut FileName.Staged (D.history disk.old) }

    // A crash at each moment leaves every file but the staged one as before, or with the file whole.
    ensures moments { IsTrue (D.honest disk.old)
        → EachMoment (D.history disk.old) (D.history disk.new)
        (IsOldOrPublished (now (D.history disk.old)) name bytes.now) }
    ensures published { IsTrue (D.honest disk.old) → OnOk result
        (IsPublished (now (D.history disk.old)) name bytes.now (D.history disk.new)) }
    ensures honest { D.honest disk.new ≡ D.honest disk.old }
    ensures cause { CountsFaults (D.faults disk.old) (D.faults disk.new) result }
{
    stage(disk, bytes)?;
    put_in_place(disk, name)?;
    Ok(())
}

/// Two files, one after the other. At no moment is the second there without the first.
pub fn publish_two<D: Disk>(
    disk: &mut D,
    first: FileName,
    first_bytes: &[u8],
    second: FileName,
    second_bytes: &[u8],
) -> Result<(), Failed>
    requires others { (same_name first FileName.Staged ≡ false)
        × (same_name second FileName.Staged ≡ false) }
    requires settled { IsTrue (D.honest disk.old)
        → IsSettledBut FileName.Staged (D.history disk.old) }

    // A crash at each moment leaves every file but the staged one as before, with the first file or with both.
    ensures moments { IsTrue (D.honest disk.old)
        → EachMoment (D.history disk.old) (D.history disk.new)
        (IsOneOfThree (now (D.history disk.old)) first first_bytes.now second second_bytes.now) }
    ensures published { IsTrue (D.honest disk.old) → OnOk result
        (IsPublished (with_bytes first first_bytes.now (now (D.history disk.old)))
        second second_bytes.now (D.history disk.new)) }
    ensures honest { D.honest disk.new ≡ D.honest disk.old }
    ensures cause { CountsFaults (D.faults disk.old) (D.faults disk.new) result }
{
    publish(disk, first, first_bytes)?;
    publish(disk, second, second_bytes)
}
