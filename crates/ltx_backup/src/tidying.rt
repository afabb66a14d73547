//! Three disks lose the files that the chain passes over.
ghost use Rattle.std.specs.Prelude.{◌≡◌, IsTrue, IfErr, OnOk};
ghost use Rattle.lf_disk.specs.declared.name.FileName.TheVariants as name;
ghost use Rattle.lf_disk.specs.History.{now, EachMoment, IsSettledBut};
ghost use Rattle.ltx_backup.specs.Causes.{HasCauses, IsBlameless};
ghost use Rattle.ltx_backup.specs.Trimming.{IsTrimmed, HasTrimmed};

use crate::entry::Entries;
use crate::fault::BackupFault;
use crate::trimming::tidy;
use lf_disk::Disk;

/// On each level the number up to which files are passed over.
#[derive(Clone, Copy)]
pub struct Bounds {
    pub low: u64,
    pub middle: u64,
    pub high: u64,
}

/// Removes on each level the files that begin with a transaction up to its number, and what was left
/// staged.
pub fn tidy_all<D: Disk>(
    low: &mut D,
    middle: &mut D,
    high: &mut D,
    names: &Entries,
    bounds: Bounds,
) -> Result<(), BackupFault>
    requires low_settled { IsTrue (D.honest low.old) → IsSettledBut name.Staged (D.history low.old) }
    requires middle_settled { IsTrue (D.honest middle.old) → IsSettledBut name.Staged (D.history middle.old) }
    requires high_settled { IsTrue (D.honest high.old) → IsSettledBut name.Staged (D.history high.old) }
    ensures lows { IsTrue (D.honest low.old) → EachMoment (D.history low.old) (D.history low.new) (IsTrimmed bounds.low (now (D.history low.old))) }
    ensures middles { IsTrue (D.honest middle.old) → EachMoment (D.history middle.old) (D.history middle.new) (IsTrimmed bounds.middle (now (D.history middle.old))) }
    ensures highs { IsTrue (D.honest high.old) → EachMoment (D.history high.old) (D.history high.new) (IsTrimmed bounds.high (now (D.history high.old))) }
    ensures low_done { IsTrue (D.honest low.old) → OnOk result (HasTrimmed bounds.low names.now.lows.items (now (D.history low.old)) (D.history low.new)) }
    ensures middle_done { IsTrue (D.honest middle.old) → OnOk result (HasTrimmed bounds.middle names.now.middles.items (now (D.history middle.old)) (D.history middle.new)) }
    ensures high_done { IsTrue (D.honest high.old) → OnOk result (HasTrimmed bounds.high names.now.highs.items (now (D.history high.old)) (D.history high.new)) }
    ensures blameless { IfErr result IsBlameless }
    ensures disk { IfErr result (λ why. why ≡ BackupFault.Disk) }
    ensures honest { (D.honest low.new ≡ D.honest low.old) × (D.honest middle.new ≡ D.honest middle.old) × (D.honest high.new ≡ D.honest high.old) }
    ensures cause { HasCauses (record { low = D.faults low.old; middle = D.faults middle.old; high = D.faults high.old })
        (record { low = D.faults low.new; middle = D.faults middle.new; high = D.faults high.new }) result }
{
    match tidy(high, names.highs.as_slice(), bounds.high) {
        Ok(()) => {}
        Err(_) => return Err(BackupFault::Disk),
    }
    match tidy(middle, names.middles.as_slice(), bounds.middle) {
        Ok(()) => {}
        Err(_) => return Err(BackupFault::Disk),
    }
    match tidy(low, names.lows.as_slice(), bounds.low) {
        Ok(()) => Ok(()),
        Err(_) => Err(BackupFault::Disk),
    }
}
