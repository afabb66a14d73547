//! A snapshot that waits for its name becomes the only file.
ghost use Rattle.std.specs.Prelude.{◌≡◌, IsTrue, IsSome, IfErr, OnOk};
ghost use Rattle.lf_disk.specs.declared.name.FileName.TheVariants as name;
ghost use Rattle.lf_disk.specs.History.{now, IsSettledBut};
ghost use Rattle.ltx_codec.specs.declared.file.Ltx.{Ltx};
ghost use Rattle.ltx_backup.specs.Causes.{HasCauses, IsBlameless, AreHonest, AreSettled};
ghost use Rattle.ltx_backup.specs.Finishing.{AllNamed, Waits, IsAlone, HoldsOnly};
ghost use Rattle.ltx_backup.specs.Stops.{Stops};

use crate::entry::{Entries, Entry};
use crate::fault::BackupFault;
use crate::tidying::{Bounds, tidy_all};
use lf_disk::{Disk, FileName};

/// No number is past this.
const ALL: Bounds = Bounds {
    low: u64::MAX,
    middle: u64::MAX,
    high: u64::MAX,
};

/// Removes all other files, and then gives the snapshot its name.
pub fn finish_snapshot<D: Disk>(
    low: &mut D,
    middle: &mut D,
    high: &mut D,
    names: &Entries,
    entry: &Entry,
) -> Result<(), BackupFault>
    requires low_settled { IsTrue (D.honest low.old) → IsSettledBut name.Staged (D.history low.old) }
    requires middle_settled { IsTrue (D.honest middle.old) → IsSettledBut name.Staged (D.history middle.old) }
    requires high_settled { IsTrue (D.honest high.old) → IsSettledBut name.Staged (D.history high.old) }
    requires there { IsTrue (D.honest low.old) → IsSome (now (D.history low.old) name.Snapshot) }
    ensures stops { AreHonest (D.honest low.old) (D.honest middle.old) (D.honest high.old)
        → AllNamed names.now (now (D.history low.old)) (now (D.history middle.old)) (now (D.history high.old))
        → (file : Ltx) → Waits file entry.now (now (D.history low.old))
        → Stops (D.history low.old) (D.history middle.old) (D.history high.old) (D.history low.new) (D.history middle.new) (D.history high.new) (HoldsOnly file) }
    ensures alone { AreHonest (D.honest low.old) (D.honest middle.old) (D.honest high.old)
        → AllNamed names.now (now (D.history low.old)) (now (D.history middle.old)) (now (D.history high.old))
        → (file : Ltx) → Waits file entry.now (now (D.history low.old))
        → OnOk result (IsAlone file (D.history low.new) (D.history middle.new) (D.history high.new)) }
    ensures blameless { IfErr result IsBlameless }
    ensures disk { IfErr result (λ why. why ≡ BackupFault.Disk) }
    ensures settled { OnOk result (AreSettled (D.honest low.old) (D.honest middle.old) (D.honest high.old) (D.history low.new) (D.history middle.new) (D.history high.new)) }
    ensures honest { (D.honest low.new ≡ D.honest low.old) × (D.honest middle.new ≡ D.honest middle.old) × (D.honest high.new ≡ D.honest high.old) }
    ensures cause { HasCauses (record { low = D.faults low.old; middle = D.faults middle.old; high = D.faults high.old })
        (record { low = D.faults low.new; middle = D.faults middle.new; high = D.faults high.new }) result }
{
    match tidy_all(low, middle, high, names, ALL) {
        Ok(()) => {}
        Err(why) => return Err(why),
    }
    match low.rename(FileName::Snapshot, entry.name()) {
        Ok(()) => Ok(()),
        Err(_) => Err(BackupFault::Disk),
    }
}
