//! The files of a level are read and judged, one after another, and those up to a transaction applied.
ghost use Rattle.std.specs.Prelude.{◌≡◌, ◌∷◌, [], ◌++◌, List, IsTrue, IfOk, IfErr};
ghost use Rattle.lf_base.specs.declared.pos.Pos.{Pos};
ghost use Rattle.lf_disk.specs.History.{now, Rests};
ghost use Rattle.ltx_backup.specs.Causes.{HasCause};
ghost use Rattle.ltx_codec.specs.Format.{IsFile};
ghost use Rattle.ltx_codec.specs.Positions.{before, after};
ghost use Rattle.ltx_backup.specs.Entries.{entry_of};
ghost use Rattle.ltx_backup.specs.Judging.{IsRefused, IsRefusedPast, IsBroken};
ghost use Rattle.ltx_backup.specs.Levels.{Stands};
ghost use Rattle.ltx_backup.specs.Listing.{AreListed};
ghost use Rattle.ltx_backup.specs.Making.{JudgingInto, IsJudgedInto, MakesLevel};
ghost use Rattle.ltx_backup.specs.declared.entry.Entry.{Entry};
ghost use Rattle.ltx_backup.specs.declared.target.Target.{Target};

use crate::entry::Entry;
use crate::fault::BackupFault;
use crate::reading::read_file;
use crate::target::Target;
use lf_base::Pos;
use lf_disk::Disk;
use ltx_codec::Ltx;
use std::alloc::Global;

/// The files of a level, where the last of them ends, and what was made of them.
#[derive(Drop)]
pub struct Level {
    pub entries: Vec<Entry>,
    pub end: Pos,
    pub target: Target,
}

/// Reads the file under the numbers of an entry. It begins where the one before it ended.
fn judge<D: Disk>(
    alloc: Global,
    disk: &mut D,
    level: u8,
    entry: &Entry,
    here: Pos,
) -> Result<Ltx, BackupFault>
    ensures stands { IsTrue (D.honest disk.old) → IfOk result (Stands (now (D.history disk.old))) }
    ensures joins { IfOk result (λ file. before file ≡ here) }
    ensures valid { IfOk result IsFile }
    ensures min { IfOk result (λ file. file.header.min ≡ entry.now.min) }
    ensures max { IfOk result (λ file. file.header.max ≡ entry.now.max) }
    ensures refused { IsTrue (D.honest disk.old) → IfErr result (IsRefused (now (D.history disk.old)) level entry.now here) }
    ensures rests { Rests (D.history disk.old) (D.history disk.new) }
    ensures honest { D.honest disk.new ≡ D.honest disk.old }
    ensures cause { HasCause (D.faults disk.old) (D.faults disk.new) result }
{
    let file = match read_file(alloc, disk, level, entry) {
        Ok(file) => file,
        Err(why) => return Err(why),
    };
    if file.before() != here {
        return Err(BackupFault::Damaged {
            level,
            min: entry.min,
            max: entry.max,
        });
    }
    Ok(file)
}

/// A file behind those of a level.
fn behind(alloc: Global, level: u8, file: Ltx, found: Level) -> Result<Level, BackupFault>
    requires valid { IsFile file }
    ensures entries { IfOk result (λ next. next.entries.items ≡ found.entries.items ++ entry_of file ∷ []) }
    ensures end { IfOk result (λ next. next.end ≡ after file) }
    ensures makes { IfOk result (λ next. MakesLevel level (file ∷ []) found.target next.target) }
    ensures full { IfErr result (λ why. why ≡ BackupFault.NoMemory) }
{
    let Level {
        mut entries,
        target,
        ..
    } = found;
    let end = file.after();
    match entries.push(Entry::of(&file)) {
        Ok(()) => {}
        Err(_) => return Err(BackupFault::NoMemory),
    }
    match target.after(alloc, level, file) {
        Ok(target) => Ok(Level {
            entries,
            end,
            target,
        }),
        Err(_) => Err(BackupFault::NoMemory),
    }
}

/// Judges the file under the numbers of an entry, where it begins past a number, and puts it behind
/// those that were found. Another file is passed over.
fn judge_next<D: Disk>(
    alloc: Global,
    disk: &mut D,
    level: u8,
    name: &Entry,
    from: u64,
    found: Level,
) -> Result<Level, BackupFault>
    ensures goes_on { IsTrue (D.honest disk.old) → (here : Pos) (names : List Entry) (start : Target) → from ≡ here.txid
        → JudgingInto (now (D.history disk.old)) level here names start found
        → IfOk result (JudgingInto (now (D.history disk.old)) level here (names ++ name.now ∷ []) start) }
    ensures refused { IsTrue (D.honest disk.old) → IfErr result (IsRefusedPast (now (D.history disk.old)) level name.now from found.end) }
    ensures rests { Rests (D.history disk.old) (D.history disk.new) }
    ensures honest { D.honest disk.new ≡ D.honest disk.old }
    ensures cause { HasCause (D.faults disk.old) (D.faults disk.new) result }
{
    if name.min <= from {
        return Ok(found);
    }
    let file = match judge(alloc, disk, level, name, found.end) {
        Ok(file) => file,
        Err(why) => return Err(why),
    };
    match behind(alloc, level, file, found) {
        Ok(found) => Ok(found),
        Err(_) => Err(BackupFault::NoMemory),
    }
}

/// Judges the files of a level that begin past a position. The others are passed over.
pub fn judge_level<D: Disk>(
    alloc: Global,
    disk: &mut D,
    level: u8,
    names: &[Entry],
    here: Pos,
    target: Target,
) -> Result<Level, BackupFault>
    ensures judged { IsTrue (D.honest disk.old) → AreListed names.now (now (D.history disk.old))
        → IfOk result (IsJudgedInto (now (D.history disk.old)) level here target) }
    ensures broken { IsTrue (D.honest disk.old) → AreListed names.now (now (D.history disk.old))
        → IfErr result (IsBroken (now (D.history disk.old)) level here) }
    ensures rests { Rests (D.history disk.old) (D.history disk.new) }
    ensures honest { D.honest disk.new ≡ D.honest disk.old }
    ensures cause { HasCause (D.faults disk.old) (D.faults disk.new) result }
{
    let mut found = Level {
        entries: Vec::new(alloc),
        end: here,
        target,
    };
    for name in names {
        found = match judge_next(alloc, disk, level, name, here.txid, found) {
            Ok(found) => found,
            Err(why) => return Err(why),
        };
    }
    Ok(found)
}
