//! A backup settles: eight files of a level become one of the next until no level is due.
ghost use Rattle.std.specs.Prelude.{◌≡◌, ◌+◌, ◌<◌, Err, true, false, IsTrue, IfOk, OnOk, length};
ghost use Rattle.lf_disk.specs.History.{now};
ghost use Rattle.ltx_backup.specs.Adding.{Breaks};
ghost use Rattle.ltx_backup.specs.Causes.{HasCauses, AreHonest};
ghost use Rattle.ltx_backup.specs.Entries.{IsKept};
ghost use Rattle.ltx_backup.specs.Levels.{Levels};
ghost use Rattle.ltx_backup.specs.Moving.{AreDue};
ghost use Rattle.ltx_backup.specs.Settling.{FoldsOnce, GoesOn, HasSettled, HoldsSettled};
ghost use Rattle.ltx_backup.specs.Stops.{Stops};

use crate::adding::is_disk;
use crate::backup::Backup;
use crate::fault::BackupFault;
use crate::folding::{fold, is_due};
use lf_disk::Disk;
use std::alloc::Global;

impl<D: Disk> Backup<D> {
    /// Makes one file of the eight oldest of a level while it has eight of one page size, on the lowest
    /// level and then on the next. It answers how often.
    pub fn settle(&mut self, alloc: Global) -> Result<u64, BackupFault>
        ensures settles { AreHonest (D.honest self.old.low) (D.honest self.old.middle) (D.honest self.old.high) → self.old.broken ≡ false → (levels : Levels)
            → IsKept levels self.old.index (D.history self.old.low) (D.history self.old.middle) (D.history self.old.high)
            → HasSettled levels result self.new.index (D.history self.new.low) (D.history self.new.middle) (D.history self.new.high) }
        ensures broken { self.old.broken ≡ true → (result ≡ Err BackupFault.Broken) × (self.new.index ≡ self.old.index)
            × (self.new.low ≡ self.old.low) × (self.new.middle ≡ self.old.middle) × (self.new.high ≡ self.old.high) }
        ensures end { self.new.index.end ≡ self.old.index.end }
        ensures breaks { Breaks self.old.broken result self.new.broken }
        ensures honest { (D.honest self.new.low ≡ D.honest self.old.low) × (D.honest self.new.middle ≡ D.honest self.old.middle) × (D.honest self.new.high ≡ D.honest self.old.high) }
        ensures cause { HasCauses (record { low = D.faults self.old.low; middle = D.faults self.old.middle; high = D.faults self.old.high })
            (record { low = D.faults self.new.low; middle = D.faults self.new.middle; high = D.faults self.new.high }) result }

        // Whatever call stops, the disks hold what some of the compactions leave.
        ensures stops { AreHonest (D.honest self.old.low) (D.honest self.old.middle) (D.honest self.old.high) → (levels : Levels)
            → IsKept levels self.old.index (D.history self.old.low) (D.history self.old.middle) (D.history self.old.high)
            → Stops (D.history self.old.low) (D.history self.old.middle) (D.history self.old.high) (D.history self.new.low) (D.history self.new.middle) (D.history self.new.high)
            (HoldsSettled levels) }
    {
        let broken = self.broken;
        if broken {
            return Err(BackupFault::Broken);
        }
        let mut count = 0;
        'folds: loop {
            match self.fold_next(alloc) {
                Ok(true) => count += 1,
                Ok(false) => return Ok(count),
                Err(why) => return Err(why),
            }
        }
    }

    /// One compaction, where one is due: of the lowest level before the next. It answers whether.
    fn fold_next(&mut self, alloc: Global) -> Result<bool, BackupFault>
        requires sound { self.old.broken ≡ false }
        ensures goes_on { AreHonest (D.honest self.old.low) (D.honest self.old.middle) (D.honest self.old.high) → (levels : Levels)
            → IsKept levels self.old.index (D.history self.old.low) (D.history self.old.middle) (D.history self.old.high)
            → GoesOn levels result self.new.index (D.history self.new.low) (D.history self.new.middle) (D.history self.new.high) }
        ensures stops { AreHonest (D.honest self.old.low) (D.honest self.old.middle) (D.honest self.old.high) → (levels : Levels)
            → IsKept levels self.old.index (D.history self.old.low) (D.history self.old.middle) (D.history self.old.high)
            → Stops (D.history self.old.low) (D.history self.old.middle) (D.history self.old.high) (D.history self.new.low) (D.history self.new.middle) (D.history self.new.high)
            (HoldsSettled levels) }
        ensures fewer { IfOk result (λ more. IsTrue more
            → length self.new.index.entries.lows.items + length self.new.index.entries.middles.items
            < length self.old.index.entries.lows.items + length self.old.index.entries.middles.items) }
        ensures end { self.new.index.end ≡ self.old.index.end }
        ensures breaks { Breaks self.old.broken result self.new.broken }
        ensures honest { (D.honest self.new.low ≡ D.honest self.old.low) × (D.honest self.new.middle ≡ D.honest self.old.middle) × (D.honest self.new.high ≡ D.honest self.old.high) }
        ensures cause { HasCauses (record { low = D.faults self.old.low; middle = D.faults self.old.middle; high = D.faults self.old.high })
            (record { low = D.faults self.new.low; middle = D.faults self.new.middle; high = D.faults self.new.high }) result }
    {
        if is_due(self.index.entries.lows.as_slice()) {
            return match self.fold_low(alloc) {
                Ok(()) => Ok(true),
                Err(why) => Err(why),
            };
        }
        if is_due(self.index.entries.middles.as_slice()) {
            return match self.fold_middle(alloc) {
                Ok(()) => Ok(true),
                Err(why) => Err(why),
            };
        }
        Ok(false)
    }

    /// The eight oldest files of the lowest level.
    fn fold_low(&mut self, alloc: Global) -> Result<(), BackupFault>
        requires sound { self.old.broken ≡ false }
        requires due { AreDue self.old.index.entries.lows.items }
        ensures folds { AreHonest (D.honest self.old.low) (D.honest self.old.middle) (D.honest self.old.high) → (levels : Levels)
            → IsKept levels self.old.index (D.history self.old.low) (D.history self.old.middle) (D.history self.old.high)
            → FoldsOnce levels.lows levels result self.new.index (D.history self.new.low) (D.history self.new.middle) (D.history self.new.high) }
        ensures stops { AreHonest (D.honest self.old.low) (D.honest self.old.middle) (D.honest self.old.high) → (levels : Levels)
            → IsKept levels self.old.index (D.history self.old.low) (D.history self.old.middle) (D.history self.old.high)
            → Stops (D.history self.old.low) (D.history self.old.middle) (D.history self.old.high) (D.history self.new.low) (D.history self.new.middle) (D.history self.new.high)
            (HoldsSettled levels) }
        ensures fewer { OnOk result (length self.new.index.entries.lows.items + length self.new.index.entries.middles.items
            < length self.old.index.entries.lows.items + length self.old.index.entries.middles.items) }
        ensures end { self.new.index.end ≡ self.old.index.end }
        ensures breaks { Breaks self.old.broken result self.new.broken }
        ensures honest { (D.honest self.new.low ≡ D.honest self.old.low) × (D.honest self.new.middle ≡ D.honest self.old.middle) × (D.honest self.new.high ≡ D.honest self.old.high) }
        ensures cause { HasCauses (record { low = D.faults self.old.low; middle = D.faults self.old.middle; high = D.faults self.old.high })
            (record { low = D.faults self.new.low; middle = D.faults self.new.middle; high = D.faults self.new.high }) result }
    {
        let entries = &mut self.index.entries;
        match fold(
            alloc,
            0,
            &mut self.low,
            &mut entries.lows,
            &mut self.middle,
            &mut entries.middles,
        ) {
            Ok(()) => Ok(()),
            Err(why) => {
                self.broken = is_disk(why);
                Err(why)
            }
        }
    }

    /// The eight oldest files of the level above it.
    fn fold_middle(&mut self, alloc: Global) -> Result<(), BackupFault>
        requires sound { self.old.broken ≡ false }
        requires due { AreDue self.old.index.entries.middles.items }
        ensures folds { AreHonest (D.honest self.old.low) (D.honest self.old.middle) (D.honest self.old.high) → (levels : Levels)
            → IsKept levels self.old.index (D.history self.old.low) (D.history self.old.middle) (D.history self.old.high)
            → FoldsOnce levels.middles levels result self.new.index (D.history self.new.low) (D.history self.new.middle) (D.history self.new.high) }
        ensures stops { AreHonest (D.honest self.old.low) (D.honest self.old.middle) (D.honest self.old.high) → (levels : Levels)
            → IsKept levels self.old.index (D.history self.old.low) (D.history self.old.middle) (D.history self.old.high)
            → Stops (D.history self.old.low) (D.history self.old.middle) (D.history self.old.high) (D.history self.new.low) (D.history self.new.middle) (D.history self.new.high)
            (HoldsSettled levels) }
        ensures fewer { OnOk result (length self.new.index.entries.lows.items + length self.new.index.entries.middles.items
            < length self.old.index.entries.lows.items + length self.old.index.entries.middles.items) }
        ensures end { self.new.index.end ≡ self.old.index.end }
        ensures breaks { Breaks self.old.broken result self.new.broken }
        ensures honest { (D.honest self.new.low ≡ D.honest self.old.low) × (D.honest self.new.middle ≡ D.honest self.old.middle) × (D.honest self.new.high ≡ D.honest self.old.high) }
        ensures cause { HasCauses (record { low = D.faults self.old.low; middle = D.faults self.old.middle; high = D.faults self.old.high })
            (record { low = D.faults self.new.low; middle = D.faults self.new.middle; high = D.faults self.new.high }) result }
    {
        let entries = &mut self.index.entries;
        match fold(
            alloc,
            1,
            &mut self.middle,
            &mut entries.middles,
            &mut self.high,
            &mut entries.highs,
        ) {
            Ok(()) => Ok(()),
            Err(why) => {
                self.broken = is_disk(why);
                Err(why)
            }
        }
    }
}
