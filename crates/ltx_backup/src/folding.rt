//! Eight files of a level become one of the next: two disks of a backup.
ghost use Rattle.std.specs.Prelude.{◌≡◌, ◌≢◌, ◌↔◌, ◌≤◌, ◌∷◌, [], ◌++◌, ◌+◌, List, false, IsTrue, IfOk, IfErr, OnOk, length, take, drop, All};
ghost use Rattle.lf_base.specs.declared.pos.Pos.{Pos};
ghost use Rattle.lf_disk.specs.declared.name.FileName.TheVariants as name;
ghost use Rattle.lf_disk.specs.History.{now, Rests, IsSettledBut};
ghost use Rattle.ltx_codec.specs.Format.{IsFile, IsLtx};
ghost use Rattle.ltx_backup.specs.Stored.{stored};
ghost use Rattle.ltx_codec.specs.declared.file.Ltx.{Ltx as File};
ghost use Rattle.ltx_backup.specs.Causes.{HasCause, HasCauses, IsBlameless};
ghost use Rattle.ltx_backup.specs.Entries.{IsLevel, entry_of, entries_of};
ghost use Rattle.ltx_backup.specs.Levels.{AllStand, LeadOn};
ghost use Rattle.ltx_backup.specs.Moving.{AreAlike, AreDue, MovesUp, HasMovedUp, HasFolded, MayFold, IsUnfolded};

use crate::adding::append;
use crate::entry::Entry;
use crate::fault::BackupFault;
use crate::merging::merge;
use crate::reading::read_file;
use crate::trimming::trim;
use lf_disk::Disk;
use ltx_codec::Ltx;
use std::alloc::Global;

/// Whether files have pages of this size.
fn are_alike(entries: &[Entry], size: u32) -> bool
    ensures { IsTrue result ↔ AreAlike size entries.now }
{
    for entry in entries {
        if entry.page_size != size {
            return false;
        }
    }
    true
}

/// The eight oldest.
fn oldest(entries: &[Entry]) -> &[Entry]
    requires { 8 ≤ length entries.now }
    ensures { result.now ≡ take 8 entries.now }
{
    let (front, _) = entries.split_at(8);
    front
}

/// Whether a level has eight files or more, of which the eight oldest have one page size.
pub fn is_due(entries: &[Entry]) -> bool
    ensures due { IsTrue result → AreDue entries.now }
    ensures not_due { result ≡ false → AreDue entries.now → ⊥ }
{
    if entries.len() < 8 {
        return false;
    }
    let front = oldest(entries);
    let size = front[0].page_size;
    are_alike(front, size)
}

/// The files of these entries.
fn read_files<D: Disk>(
    alloc: Global,
    disk: &mut D,
    level: u8,
    entries: &[Entry],
) -> Result<Vec<Ltx>, BackupFault>
    ensures files { IsTrue (D.honest disk.old) → (files : List File) → entries.now ≡ entries_of files → AllStand (now (D.history disk.old)) files
        → IfOk result (λ read. read.items ≡ files) }
    ensures valid { IfOk result (λ read. All IsFile read.items) }
    ensures blameless { IsTrue (D.honest disk.old) → (files : List File) → entries.now ≡ entries_of files → AllStand (now (D.history disk.old)) files
        → IfErr result IsBlameless }
    ensures rests { Rests (D.history disk.old) (D.history disk.new) }
    ensures honest { D.honest disk.new ≡ D.honest disk.old }
    ensures cause { HasCause (D.faults disk.old) (D.faults disk.new) result }
{
    let mut files = Vec::new(alloc);
    for entry in entries {
        let file = match read_file(alloc, disk, level, entry) {
            Ok(file) => file,
            Err(why) => return Err(why),
        };
        match files.push(file) {
            Ok(()) => {}
            Err(_) => return Err(BackupFault::NoMemory),
        }
    }
    Ok(files)
}

/// Leaves out the eight oldest.
fn forget_eight(entries: &mut Vec<Entry>)
    requires { 8 ≤ length entries.old.items }
    ensures { entries.new.items ≡ drop 8 entries.old.items }
{
    for _i in 0..8usize {
        entries.remove(0);
    }
}

/// Puts the one file on the next level, and removes the eight that it stands for.
fn move_up<D: Disk>(
    alloc: Global,
    from: &mut D,
    entries: &mut Vec<Entry>,
    to: &mut D,
    uppers: &mut Vec<Entry>,
    file: &Ltx,
) -> Result<(), BackupFault>
    requires valid { IsFile file.now }
    requires eight { 8 ≤ length entries.old.items }
    requires from_settled { IsTrue (D.honest from.old) → IsSettledBut name.Staged (D.history from.old) }
    requires to_settled { IsTrue (D.honest to.old) → IsSettledBut name.Staged (D.history to.old) }
    ensures entries { OnOk result (entries.new.items ≡ drop 8 entries.old.items) }
    ensures uppers { OnOk result (uppers.new.items ≡ uppers.old.items ++ entry_of file.now ∷ []) }
    ensures same { IfErr result (λ why. why ≢ BackupFault.Disk → (entries.new.items ≡ entries.old.items) × (uppers.new.items ≡ uppers.old.items)
        × (from.new ≡ from.old) × (to.new ≡ to.old)) }
    ensures blameless { IfErr result IsBlameless }
    ensures reads_back { IsLtx (stored file.now) file.now }
    ensures settled { OnOk result ((IsTrue (D.honest from.old) → IsSettledBut name.Staged (D.history from.new)) × (IsTrue (D.honest to.old) → IsSettledBut name.Staged (D.history to.new))) }
    ensures moves { IsTrue (D.honest from.old) → IsTrue (D.honest to.old)
        → MovesUp file.now (D.history from.old) (D.history to.old) (D.history from.new) (D.history to.new) }
    ensures done { IsTrue (D.honest from.old) → IsTrue (D.honest to.old) → OnOk result
        (HasMovedUp file.now entries.old.items (D.history from.old) (D.history to.old) (D.history from.new) (D.history to.new)) }
    ensures honest { (D.honest from.new ≡ D.honest from.old) × (D.honest to.new ≡ D.honest to.old) }
    ensures cause { HasCauses (record { low = D.faults from.old; middle = D.faults to.old; high = 0 })
        (record { low = D.faults from.new; middle = D.faults to.new; high = 0 }) result }
{
    match append(alloc, to, uppers, file) {
        Ok(()) => {}
        Err(why) => return Err(why),
    }
    match trim(from, entries.as_slice(), file.header.max) {
        Ok(()) => {
            forget_eight(entries);
            Ok(())
        }
        Err(_) => Err(BackupFault::Disk),
    }
}

/// Makes the eight oldest files of a level one of the next.
pub fn fold<D: Disk>(
    alloc: Global,
    level: u8,
    from: &mut D,
    entries: &mut Vec<Entry>,
    to: &mut D,
    uppers: &mut Vec<Entry>,
) -> Result<(), BackupFault>
    requires due { AreDue entries.old.items }
    requires from_settled { IsTrue (D.honest from.old) → IsSettledBut name.Staged (D.history from.old) }
    requires to_settled { IsTrue (D.honest to.old) → IsSettledBut name.Staged (D.history to.old) }
    ensures folds { IsTrue (D.honest from.old) → IsTrue (D.honest to.old) → (files : List File) → IsLevel entries.old.items files (D.history from.old)
        → OnOk result (HasFolded files entries.old.items uppers.old.items entries.new.items uppers.new.items
        (D.history from.old) (D.history to.old) (D.history from.new) (D.history to.new)) }
    ensures moves { IsTrue (D.honest from.old) → IsTrue (D.honest to.old) → (files : List File) → IsLevel entries.old.items files (D.history from.old)
        → MayFold files (D.history from.old) (D.history to.old) (D.history from.new) (D.history to.new) }
    ensures why { IsTrue (D.honest from.old) → (files : List File) → IsLevel entries.old.items files (D.history from.old)
        → (here : Pos) → LeadOn here files → IfErr result (IsUnfolded files) }
    ensures same { IfErr result (λ why. why ≢ BackupFault.Disk → (entries.new.items ≡ entries.old.items) × (uppers.new.items ≡ uppers.old.items)
        × Rests (D.history from.old) (D.history from.new) × (to.new ≡ to.old)) }
    ensures settled { OnOk result ((IsTrue (D.honest from.old) → IsSettledBut name.Staged (D.history from.new)) × (IsTrue (D.honest to.old) → IsSettledBut name.Staged (D.history to.new))) }
    ensures honest { (D.honest from.new ≡ D.honest from.old) × (D.honest to.new ≡ D.honest to.old) }
    ensures cause { HasCauses (record { low = D.faults from.old; middle = D.faults to.old; high = 0 })
        (record { low = D.faults from.new; middle = D.faults to.new; high = 0 }) result }
    ensures left { OnOk result (entries.new.items ≡ drop 8 entries.old.items) }
    ensures made { OnOk result (length uppers.new.items ≡ length uppers.old.items + 1) }
{
    let front = oldest(entries.as_slice());
    let first = front[0];
    let files = match read_files(alloc, from, level, front) {
        Ok(files) => files,
        Err(why) => return Err(why),
    };
    let file = match merge(alloc, files, level, first) {
        Ok(file) => file,
        Err(why) => return Err(why),
    };
    match move_up(alloc, from, entries, to, uppers, &file) {
        Ok(()) => Ok(()),
        Err(why) => Err(why),
    }
}
