//! The database at a transaction.
ghost use Rattle.std.specs.Prelude.{◌≡◌, ◌<◌, ◌≤◌, ◌↔◌, List, Err, true, false, IsTrue, IfOk, IfErr};
ghost use Rattle.lf_disk.specs.History.{now, Rests};
ghost use Rattle.ltx_codec.specs.declared.file.Ltx.{Ltx as File};
ghost use Rattle.ltx_backup.specs.Applying.{AppliesOne, IsMisfit, IsMisfitUpTo, AppliesAll, IsMisfitAmong, Ends, EndsIn};
ghost use Rattle.ltx_backup.specs.Causes.{HasCause, HasCauses, AreHonest};
ghost use Rattle.ltx_backup.specs.Entries.{IsKept, entries_of};
ghost use Rattle.ltx_backup.specs.Levels.{Levels, AllStand};
ghost use Rattle.ltx_backup.specs.Restoring.{Restores, up_to};

use crate::backup::Backup;
use crate::entry::{Entries, Entry};
use crate::fault::BackupFault;
use crate::reading::read_file;
use crate::restored::Restored;
use lf_disk::Disk;
use lf_sqlite_pages::Image;
use std::alloc::Global;

/// Applies the file of an entry.
fn restore_file<D: Disk>(
    alloc: Global,
    disk: &mut D,
    level: u8,
    entry: &Entry,
    before: Restored,
) -> Result<Restored, BackupFault>
    ensures restores { IsTrue (D.honest disk.old) → IfOk result (λ next. AppliesOne (now (D.history disk.old)) entry.now before next) }
    ensures misfit { IsTrue (D.honest disk.old) → IfErr result (IsMisfit (now (D.history disk.old)) level entry.now before) }
    ensures rests { Rests (D.history disk.old) (D.history disk.new) }
    ensures honest { D.honest disk.new ≡ D.honest disk.old }
    ensures cause { HasCause (D.faults disk.old) (D.faults disk.new) result }
{
    let file = match read_file(alloc, disk, level, entry) {
        Ok(file) => file,
        Err(why) => return Err(why),
    };
    if !before.image.fits(&file.change) {
        return Err(BackupFault::Damaged {
            level,
            min: entry.min,
            max: entry.max,
        });
    }
    match before.after(alloc, file) {
        Ok(next) => Ok(next),
        Err(_) => Err(BackupFault::NoMemory),
    }
}

/// The same, where the file's last transaction is not past `txid`.
fn restore_next<D: Disk>(
    alloc: Global,
    disk: &mut D,
    level: u8,
    entry: &Entry,
    txid: u64,
    before: Restored,
) -> Result<Restored, BackupFault>
    ensures restores { IsTrue (D.honest disk.old) → entry.now.max ≤ txid → IfOk result (λ next. AppliesOne (now (D.history disk.old)) entry.now before next) }
    ensures passes { txid < entry.now.max → IfOk result (λ next. next ≡ before) }
    ensures misfit { IsTrue (D.honest disk.old) → IfErr result (IsMisfitUpTo (now (D.history disk.old)) level entry.now txid before) }
    ensures rests { Rests (D.history disk.old) (D.history disk.new) }
    ensures honest { D.honest disk.new ≡ D.honest disk.old }
    ensures cause { HasCause (D.faults disk.old) (D.faults disk.new) result }
{
    if entry.max > txid {
        return Ok(before);
    }
    match restore_file(alloc, disk, level, entry, before) {
        Ok(next) => Ok(next),
        Err(why) => Err(why),
    }
}

/// Applies the files of a level whose last transaction is not past `txid`.
fn restore_level<D: Disk>(
    alloc: Global,
    disk: &mut D,
    level: u8,
    entries: &[Entry],
    txid: u64,
    before: Restored,
) -> Result<Restored, BackupFault>
    ensures restores { IsTrue (D.honest disk.old) → (files : List File) → entries.now ≡ entries_of files → AllStand (now (D.history disk.old)) files
        → IfOk result (λ next. AppliesAll (up_to txid files) before next) }
    ensures misfit { IsTrue (D.honest disk.old) → (files : List File) → entries.now ≡ entries_of files → AllStand (now (D.history disk.old)) files
        → IfErr result (IsMisfitAmong (up_to txid files) level before) }
    ensures rests { Rests (D.history disk.old) (D.history disk.new) }
    ensures honest { D.honest disk.new ≡ D.honest disk.old }
    ensures cause { HasCause (D.faults disk.old) (D.faults disk.new) result }
{
    let mut state = before;
    for entry in entries {
        state = match restore_next(alloc, disk, level, entry, txid, state) {
            Ok(next) => next,
            Err(why) => return Err(why),
        };
    }
    Ok(state)
}

/// Whether a file ends with a transaction.
fn ends(entries: &[Entry], txid: u64) -> bool
    ensures { IsTrue result ↔ Ends entries.now txid }
{
    for entry in entries {
        if entry.max == txid {
            return true;
        }
    }
    false
}

/// Whether a file of any level ends with a transaction.
pub fn is_kept(entries: &Entries, txid: u64) -> bool
    ensures yes { IsTrue result → EndsIn entries.now txid }
    ensures no { result ≡ false → EndsIn entries.now txid → ⊥ }
{
    if ends(entries.lows.as_slice(), txid) {
        return true;
    }
    if ends(entries.middles.as_slice(), txid) {
        return true;
    }
    if ends(entries.highs.as_slice(), txid) {
        return true;
    }
    false
}

impl<D: Disk> Backup<D> {
    /// The database at the last transaction of a file. The disks are only read.
    pub fn restore(&mut self, alloc: Global, txid: u64) -> Result<Image, BackupFault>
        ensures restores { AreHonest (D.honest self.old.low) (D.honest self.old.middle) (D.honest self.old.high) → (levels : Levels)
            → IsKept levels self.old.index (D.history self.old.low) (D.history self.old.middle) (D.history self.old.high)
            → self.old.broken ≡ false → Restores levels txid result }
        ensures broken { self.old.broken ≡ true → result ≡ Err BackupFault.Broken }
        ensures same { (self.new.index ≡ self.old.index) × (self.new.broken ≡ self.old.broken) }
        ensures rests { Rests (D.history self.old.low) (D.history self.new.low) × Rests (D.history self.old.middle) (D.history self.new.middle)
            × Rests (D.history self.old.high) (D.history self.new.high) }
        ensures honest { (D.honest self.new.low ≡ D.honest self.old.low) × (D.honest self.new.middle ≡ D.honest self.old.middle) × (D.honest self.new.high ≡ D.honest self.old.high) }
        ensures cause { HasCauses (record { low = D.faults self.old.low; middle = D.faults self.old.middle; high = D.faults self.old.high })
            (record { low = D.faults self.new.low; middle = D.faults self.new.middle; high = D.faults self.new.high }) result }
    {
        let broken = self.broken;
        if broken {
            return Err(BackupFault::Broken);
        }
        if !is_kept(&self.index.entries, txid) {
            let last = self.index.end.txid;
            return Err(BackupFault::NoSuchTxid { txid, last });
        }
        let entries = &self.index.entries;
        let highs = entries.highs.as_slice();
        let middles = entries.middles.as_slice();
        let lows = entries.lows.as_slice();
        let none = Restored::nothing(alloc);
        let high = match restore_level(alloc, &mut self.high, 2, highs, txid, none) {
            Ok(state) => state,
            Err(why) => return Err(why),
        };
        let middle = match restore_level(alloc, &mut self.middle, 1, middles, txid, high) {
            Ok(state) => state,
            Err(why) => return Err(why),
        };
        let low = match restore_level(alloc, &mut self.low, 0, lows, txid, middle) {
            Ok(state) => state,
            Err(why) => return Err(why),
        };
        match low.finish() {
            Ok(image) => Ok(image),
            Err(why) => Err(why),
        }
    }
}
