//! A backup's database as it was after a transaction.
ghost use Rattle.std.specs.Prelude.{◌≡◌, IsTrue};
ghost use Rattle.lf_disk.specs.History.{now, IsSettledBut};
ghost use Rattle.lf_disk.specs.declared.name.FileName.TheVariants as name;
ghost use Rattle.ltx_backup.specs.Causes.{AreHonest, HasCauses};
ghost use Rattle.backup_link.specs.Restoring.{HasRestored};

use crate::disks::Disks;
use lf_disk::Disk;
use lf_sqlite_pages::Image;
use ltx_backup::{Backup, BackupFault};
use std::alloc::Global;

/// Opens the backup on these disks, and restores it to a transaction meanwhile. The disks come back.
pub fn restore<D: Disk>(
    alloc: Global,
    disks: Disks<D>,
    txid: u64,
) -> (Disks<D>, Result<Image, BackupFault>)
    requires low_settled { IsTrue (D.honest disks.low) → IsSettledBut name.Staged (D.history disks.low) }
    requires middle_settled { IsTrue (D.honest disks.middle) → IsSettledBut name.Staged (D.history disks.middle) }
    requires high_settled { IsTrue (D.honest disks.high) → IsSettledBut name.Staged (D.history disks.high) }
    ensures restored { AreHonest (D.honest disks.low) (D.honest disks.middle) (D.honest disks.high)
        → HasRestored (now (D.history disks.low)) (now (D.history disks.middle)) (now (D.history disks.high))
        (now (D.history result.0.low)) (now (D.history result.0.middle)) (now (D.history result.0.high)) txid result.1 }
    ensures honest { (D.honest result.0.low ≡ D.honest disks.low) × (D.honest result.0.middle ≡ D.honest disks.middle) × (D.honest result.0.high ≡ D.honest disks.high) }
    ensures cause { HasCauses (record { low = D.faults disks.low; middle = D.faults disks.middle; high = D.faults disks.high })
        (record { low = D.faults result.0.low; middle = D.faults result.0.middle; high = D.faults result.0.high }) result.1 }
{
    let Disks { low, middle, high } = disks;
    match Backup::open_at(alloc, low, middle, high, txid) {
        Ok((backup, restored)) => (closed(backup), restored),
        Err((why, low, middle, high)) => (Disks { low, middle, high }, Err(why)),
    }
}

/// The disks of a backup.
pub(crate) fn closed<D: Disk>(backup: Backup<D>) -> Disks<D>
    ensures { (result.low ≡ backup.low) × (result.middle ≡ backup.middle) × (result.high ≡ backup.high) }
{
    let (low, middle, high) = backup.into_disks();
    Disks { low, middle, high }
}
