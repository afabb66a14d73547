//! A file is added.
ghost use Rattle.std.specs.Prelude.{◌≡◌, ◌≢◌, ◌≤◌, ◌⊎◌, ◌∷◌, [], ◌++◌, true, false, IsTrue, IfErr, OnOk};
ghost use Rattle.lf_disk.specs.declared.name.FileName.TheVariants as name;
ghost use Rattle.lf_disk.specs.History.{now, Rests, EachMoment, IsSettledBut};
ghost use Rattle.lf_disk.specs.Publish.{IsOldOrPublished, IsPublished};
ghost use Rattle.ltx_codec.specs.Format.{IsFile, IsLtx};
ghost use Rattle.ltx_codec.specs.Positions.{before, after};
ghost use Rattle.ltx_backup.specs.Adding.{Adds, Breaks, HoldsEither};
ghost use Rattle.ltx_backup.specs.Causes.{HasCause, HasCauses, IsBlameless, AreHonest, AreSettled};
ghost use Rattle.ltx_backup.specs.Entries.{entry_of, IsKept, SameIndex};
ghost use Rattle.ltx_backup.specs.Levels.{Levels, only_low};
ghost use Rattle.ltx_backup.specs.Stops.{Stops};
ghost use Rattle.ltx_backup.specs.Stored.{stored, added};

use crate::backup::Backup;
use crate::encoding::encoded;
use crate::entry::{Entry, Index};
use crate::examining::{Judged, index_of};
use crate::fault::BackupFault;
use crate::finishing::finish_snapshot;
use lf_base::Pos;
use lf_disk::{Disk, FileName, publish};
use ltx_codec::Ltx;
use std::alloc::Global;

/// Puts a file behind those of a level.
pub fn append<D: Disk>(
    alloc: Global,
    disk: &mut D,
    entries: &mut Vec<Entry>,
    file: &Ltx,
) -> Result<(), BackupFault>
    requires valid { IsFile file.now }
    requires settled { IsTrue (D.honest disk.old) → IsSettledBut name.Staged (D.history disk.old) }
    ensures entries { OnOk result (entries.new.items ≡ entries.old.items ++ entry_of file.now ∷ []) }
    ensures same { IfErr result (λ why. why ≢ BackupFault.Disk → (entries.new.items ≡ entries.old.items) × (disk.new ≡ disk.old)) }
    ensures blameless { IfErr result IsBlameless }
    ensures reads_back { IsLtx (stored file.now) file.now }
    ensures moments { IsTrue (D.honest disk.old) → EachMoment (D.history disk.old) (D.history disk.new)
        (IsOldOrPublished (now (D.history disk.old)) (name.Ltx file.now.header.min file.now.header.max) (stored file.now)) }
    ensures published { IsTrue (D.honest disk.old) → OnOk result
        (IsPublished (now (D.history disk.old)) (name.Ltx file.now.header.min file.now.header.max) (stored file.now) (D.history disk.new)) }
    ensures honest { D.honest disk.new ≡ D.honest disk.old }
    ensures cause { HasCause (D.faults disk.old) (D.faults disk.new) result }
{
    let bytes = match encoded(alloc, file) {
        Ok(bytes) => bytes,
        Err(_) => return Err(BackupFault::NoMemory),
    };
    let entry = Entry::of(file);
    match entries.push(entry) {
        Ok(()) => {}
        Err(_) => return Err(BackupFault::NoMemory),
    }
    match publish(disk, entry.name(), bytes.as_slice()) {
        Ok(()) => Ok(()),
        Err(_) => Err(BackupFault::Disk),
    }
}

/// Puts a file from the first transaction on in place of all others.
fn install<D: Disk>(
    alloc: Global,
    low: &mut D,
    middle: &mut D,
    high: &mut D,
    index: &mut Index,
    file: &Ltx,
) -> Result<(), BackupFault>
    requires valid { IsFile file.now }
    requires first { file.now.header.min ≡ 1 }
    requires low_settled { IsTrue (D.honest low.old) → IsSettledBut name.Staged (D.history low.old) }
    requires middle_settled { IsTrue (D.honest middle.old) → IsSettledBut name.Staged (D.history middle.old) }
    requires high_settled { IsTrue (D.honest high.old) → IsSettledBut name.Staged (D.history high.old) }
    ensures installed { AreHonest (D.honest low.old) (D.honest middle.old) (D.honest high.old) → (levels : Levels)
        → IsKept levels index.old (D.history low.old) (D.history middle.old) (D.history high.old)
        → OnOk result (IsKept (only_low file.now) index.new (D.history low.new) (D.history middle.new) (D.history high.new)) }
    ensures stops { AreHonest (D.honest low.old) (D.honest middle.old) (D.honest high.old) → (levels : Levels)
        → IsKept levels index.old (D.history low.old) (D.history middle.old) (D.history high.old)
        → Stops (D.history low.old) (D.history middle.old) (D.history high.old) (D.history low.new) (D.history middle.new) (D.history high.new)
        (HoldsEither levels (only_low file.now)) }
    ensures end { OnOk result (index.new.end ≡ after file.now) }
    ensures same { IfErr result (λ why. why ≢ BackupFault.Disk → SameIndex index.old index.new × (low.new ≡ low.old) × (middle.new ≡ middle.old) × (high.new ≡ high.old)) }
    ensures blameless { IfErr result IsBlameless }
    ensures settled { OnOk result (AreSettled (D.honest low.old) (D.honest middle.old) (D.honest high.old) (D.history low.new) (D.history middle.new) (D.history high.new)) }
    ensures honest { (D.honest low.new ≡ D.honest low.old) × (D.honest middle.new ≡ D.honest middle.old) × (D.honest high.new ≡ D.honest high.old) }
    ensures cause { HasCauses (record { low = D.faults low.old; middle = D.faults middle.old; high = D.faults high.old })
        (record { low = D.faults low.new; middle = D.faults middle.new; high = D.faults high.new }) result }
{
    let bytes = match encoded(alloc, file) {
        Ok(bytes) => bytes,
        Err(_) => return Err(BackupFault::NoMemory),
    };
    let judged = Judged {
        entry: Entry::of(file),
        end: file.after(),
    };
    let whole = match index_of(alloc, &judged) {
        Ok(whole) => whole,
        Err(_) => return Err(BackupFault::NoMemory),
    };
    match publish(low, FileName::Snapshot, bytes.as_slice()) {
        Ok(()) => {}
        Err(_) => return Err(BackupFault::Disk),
    }
    match finish_snapshot(low, middle, high, &index.entries, &judged.entry) {
        Ok(()) => {
            *index = whole;
            Ok(())
        }
        Err(why) => Err(why),
    }
}

/// Puts a file in its place: one from the first transaction on in place of all others, another one
/// behind the last.
fn place<D: Disk>(
    alloc: Global,
    low: &mut D,
    middle: &mut D,
    high: &mut D,
    index: &mut Index,
    file: &Ltx,
) -> Result<(), BackupFault>
    requires valid { IsFile file.now }
    requires low_settled { IsTrue (D.honest low.old) → IsSettledBut name.Staged (D.history low.old) }
    requires middle_settled { IsTrue (D.honest middle.old) → IsSettledBut name.Staged (D.history middle.old) }
    requires high_settled { IsTrue (D.honest high.old) → IsSettledBut name.Staged (D.history high.old) }
    ensures placed { AreHonest (D.honest low.old) (D.honest middle.old) (D.honest high.old) → (levels : Levels)
        → IsKept levels index.old (D.history low.old) (D.history middle.old) (D.history high.old) → (file.now.header.min ≡ 1) ⊎ (before file.now ≡ index.old.end)
        → OnOk result (IsKept (added levels file.now) index.new (D.history low.new) (D.history middle.new) (D.history high.new)) }
    ensures stops { AreHonest (D.honest low.old) (D.honest middle.old) (D.honest high.old) → (levels : Levels)
        → IsKept levels index.old (D.history low.old) (D.history middle.old) (D.history high.old) → (file.now.header.min ≡ 1) ⊎ (before file.now ≡ index.old.end)
        → Stops (D.history low.old) (D.history middle.old) (D.history high.old) (D.history low.new) (D.history middle.new) (D.history high.new)
        (HoldsEither levels (added levels file.now)) }
    ensures end { OnOk result (index.new.end ≡ after file.now) }
    ensures same { IfErr result (λ why. why ≢ BackupFault.Disk → SameIndex index.old index.new × (low.new ≡ low.old) × (middle.new ≡ middle.old) × (high.new ≡ high.old)) }
    ensures blameless { IfErr result IsBlameless }
    ensures settled { OnOk result (AreSettled (D.honest low.old) (D.honest middle.old) (D.honest high.old) (D.history low.new) (D.history middle.new) (D.history high.new)) }
    ensures honest { (D.honest low.new ≡ D.honest low.old) × (D.honest middle.new ≡ D.honest middle.old) × (D.honest high.new ≡ D.honest high.old) }
    ensures cause { HasCauses (record { low = D.faults low.old; middle = D.faults middle.old; high = D.faults high.old })
        (record { low = D.faults low.new; middle = D.faults middle.new; high = D.faults high.new }) result }
{
    let first = file.header.min == 1;
    if first {
        return install(alloc, low, middle, high, index, file);
    }
    match append(alloc, low, &mut index.entries.lows, file) {
        Ok(()) => {
            index.end = file.after();
            Ok(())
        }
        Err(why) => Err(why),
    }
}

/// Whether a disk failed.
pub fn is_disk(why: BackupFault) -> bool
    ensures yes { why ≡ BackupFault.Disk → result ≡ true }
    ensures no { why ≢ BackupFault.Disk → result ≡ false }
{
    match why {
        BackupFault::Disk => true,
        _ => false,
    }
}

/// Whether a file begins at the first transaction, or where a backup ends.
fn joins(file: &Ltx, end: Pos) -> bool
    requires { 1 ≤ file.now.header.min }
    ensures yes { IsTrue result → (file.now.header.min ≡ 1) ⊎ (before file.now ≡ end) }
    ensures no { result ≡ false → (file.now.header.min ≢ 1) × (before file.now ≢ end) }
{
    if file.header.min == 1 {
        return true;
    }
    if file.before() == end {
        return true;
    }
    false
}

impl<D: Disk> Backup<D> {
    /// Adds a file: one from the first transaction on in place of all others, another one behind the
    /// last. It answers where the backup ends then.
    pub fn add(&mut self, alloc: Global, file: &Ltx) -> Result<Pos, BackupFault>
        requires valid { IsFile file.now }
        ensures adds { Adds self.old.broken self.old.index.end file.now result }
        ensures kept { AreHonest (D.honest self.old.low) (D.honest self.old.middle) (D.honest self.old.high) → (levels : Levels)
            → IsKept levels self.old.index (D.history self.old.low) (D.history self.old.middle) (D.history self.old.high)
            → OnOk result (IsKept (added levels file.now) self.new.index (D.history self.new.low) (D.history self.new.middle) (D.history self.new.high)) }
        ensures same { IfErr result (λ why. why ≢ BackupFault.Disk → SameIndex self.old.index self.new.index
            × (self.new.low ≡ self.old.low) × (self.new.middle ≡ self.old.middle) × (self.new.high ≡ self.old.high)) }
        ensures breaks { Breaks self.old.broken result self.new.broken }
        ensures honest { (D.honest self.new.low ≡ D.honest self.old.low) × (D.honest self.new.middle ≡ D.honest self.old.middle) × (D.honest self.new.high ≡ D.honest self.old.high) }
        ensures cause { HasCauses (record { low = D.faults self.old.low; middle = D.faults self.old.middle; high = D.faults self.old.high })
            (record { low = D.faults self.new.low; middle = D.faults self.new.middle; high = D.faults self.new.high }) result }

        // Whatever call stops, the disks hold what they held before, or what they hold after Ok.
        ensures stops { AreHonest (D.honest self.old.low) (D.honest self.old.middle) (D.honest self.old.high) → (levels : Levels)
            → IsKept levels self.old.index (D.history self.old.low) (D.history self.old.middle) (D.history self.old.high)
            → Stops (D.history self.old.low) (D.history self.old.middle) (D.history self.old.high) (D.history self.new.low) (D.history self.new.middle) (D.history self.new.high)
            (HoldsEither levels (added levels file.now)) }
    {
        let broken = self.broken;
        if broken {
            return Err(BackupFault::Broken);
        }
        let have = self.index.end;
        if !joins(file, have) {
            let want = file.before();
            return Err(BackupFault::NotNext { have, want });
        }
        match place(
            alloc,
            &mut self.low,
            &mut self.middle,
            &mut self.high,
            &mut self.index,
            file,
        ) {
            Ok(()) => Ok(self.index.end),
            Err(why) => {
                self.broken = is_disk(why);
                Err(why)
            }
        }
    }
}
