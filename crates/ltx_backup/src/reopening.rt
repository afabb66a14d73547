//! What three disks hold is examined, and gets its last form.
ghost use Rattle.std.specs.Prelude.{◌≡◌, None, IsTrue, IsSome, OnOk, IfOk, IfErr};
ghost use Rattle.lf_disk.specs.declared.name.FileName.TheVariants as name;
ghost use Rattle.lf_disk.specs.History.{now, IsSettledBut};
ghost use Rattle.ltx_backup.specs.Causes.{HasCauses, AreHonest, AreSettled};
ghost use Rattle.ltx_backup.specs.Levels.{Levels, Holds};
ghost use Rattle.ltx_backup.specs.Making.{MakesAll};
ghost use Rattle.ltx_backup.specs.Opening.{AllListed, IsOpened, WhyClosed};
ghost use Rattle.ltx_backup.specs.Stops.{Stops};

use crate::entry::{Entries, Index};
use crate::examining::{index_of, is_there, judge_all, judge_snapshot, list_all};
use crate::fault::BackupFault;
use crate::finishing::finish_snapshot;
use crate::target::Target;
use crate::tidying::tidy_all;
use lf_disk::{Disk, FileName};
use std::alloc::Global;

/// The files that are kept, and what was made of them.
#[derive(Drop)]
pub struct Opened {
    pub index: Index,
    pub target: Target,
}

/// Without a snapshot: judges the files, and removes those that are passed over.
fn reopen_files<D: Disk>(
    alloc: Global,
    low: &mut D,
    middle: &mut D,
    high: &mut D,
    names: &Entries,
    target: Target,
) -> Result<Opened, BackupFault>
    requires low_settled { IsTrue (D.honest low.old) → IsSettledBut name.Staged (D.history low.old) }
    requires middle_settled { IsTrue (D.honest middle.old) → IsSettledBut name.Staged (D.history middle.old) }
    requires high_settled { IsTrue (D.honest high.old) → IsSettledBut name.Staged (D.history high.old) }
    requires listed { AreHonest (D.honest low.old) (D.honest middle.old) (D.honest high.old)
        → AllListed names.now (now (D.history low.old)) (now (D.history middle.old)) (now (D.history high.old)) }
    requires no_snapshot { IsTrue (D.honest low.old) → now (D.history low.old) name.Snapshot ≡ None }
    ensures opened { AreHonest (D.honest low.old) (D.honest middle.old) (D.honest high.old) → IfOk result (λ opened. IsOpened opened.index
        (D.history low.old) (D.history middle.old) (D.history high.old) (D.history low.new) (D.history middle.new) (D.history high.new)) }
    ensures why { AreHonest (D.honest low.old) (D.honest middle.old) (D.honest high.old)
        → IfErr result (WhyClosed (now (D.history low.old)) (now (D.history middle.old)) (now (D.history high.old))) }
    ensures makes { AreHonest (D.honest low.old) (D.honest middle.old) (D.honest high.old) → (levels : Levels)
        → Holds levels (now (D.history low.old)) (now (D.history middle.old)) (now (D.history high.old)) → IfOk result (λ opened. MakesAll levels target opened.target) }
    ensures stops { AreHonest (D.honest low.old) (D.honest middle.old) (D.honest high.old) → (levels : Levels)
        → Holds levels (now (D.history low.old)) (now (D.history middle.old)) (now (D.history high.old))
        → Stops (D.history low.old) (D.history middle.old) (D.history high.old) (D.history low.new) (D.history middle.new) (D.history high.new) (Holds levels) }
    ensures settled { OnOk result (AreSettled (D.honest low.old) (D.honest middle.old) (D.honest high.old) (D.history low.new) (D.history middle.new) (D.history high.new)) }
    ensures honest { (D.honest low.new ≡ D.honest low.old) × (D.honest middle.new ≡ D.honest middle.old) × (D.honest high.new ≡ D.honest high.old) }
    ensures cause { HasCauses (record { low = D.faults low.old; middle = D.faults middle.old; high = D.faults high.old })
        (record { low = D.faults low.new; middle = D.faults middle.new; high = D.faults high.new }) result }
{
    let found = match judge_all(alloc, low, middle, high, names, target) {
        Ok(found) => found,
        Err(why) => return Err(why),
    };
    match tidy_all(low, middle, high, names, found.bounds) {
        Ok(()) => Ok(Opened {
            index: found.index,
            target: found.target,
        }),
        Err(why) => Err(why),
    }
}

/// With a snapshot: judges it, and makes it the only file.
fn reopen_snapshot<D: Disk>(
    alloc: Global,
    low: &mut D,
    middle: &mut D,
    high: &mut D,
    names: &Entries,
    target: Target,
) -> Result<Opened, BackupFault>
    requires low_settled { IsTrue (D.honest low.old) → IsSettledBut name.Staged (D.history low.old) }
    requires middle_settled { IsTrue (D.honest middle.old) → IsSettledBut name.Staged (D.history middle.old) }
    requires high_settled { IsTrue (D.honest high.old) → IsSettledBut name.Staged (D.history high.old) }
    requires listed { AreHonest (D.honest low.old) (D.honest middle.old) (D.honest high.old)
        → AllListed names.now (now (D.history low.old)) (now (D.history middle.old)) (now (D.history high.old)) }
    requires snapshot { IsTrue (D.honest low.old) → IsSome (now (D.history low.old) name.Snapshot) }
    ensures opened { AreHonest (D.honest low.old) (D.honest middle.old) (D.honest high.old) → IfOk result (λ opened. IsOpened opened.index
        (D.history low.old) (D.history middle.old) (D.history high.old) (D.history low.new) (D.history middle.new) (D.history high.new)) }
    ensures why { AreHonest (D.honest low.old) (D.honest middle.old) (D.honest high.old)
        → IfErr result (WhyClosed (now (D.history low.old)) (now (D.history middle.old)) (now (D.history high.old))) }
    ensures makes { AreHonest (D.honest low.old) (D.honest middle.old) (D.honest high.old) → (levels : Levels)
        → Holds levels (now (D.history low.old)) (now (D.history middle.old)) (now (D.history high.old)) → IfOk result (λ opened. MakesAll levels target opened.target) }
    ensures stops { AreHonest (D.honest low.old) (D.honest middle.old) (D.honest high.old) → (levels : Levels)
        → Holds levels (now (D.history low.old)) (now (D.history middle.old)) (now (D.history high.old))
        → Stops (D.history low.old) (D.history middle.old) (D.history high.old) (D.history low.new) (D.history middle.new) (D.history high.new) (Holds levels) }
    ensures settled { OnOk result (AreSettled (D.honest low.old) (D.honest middle.old) (D.honest high.old) (D.history low.new) (D.history middle.new) (D.history high.new)) }
    ensures honest { (D.honest low.new ≡ D.honest low.old) × (D.honest middle.new ≡ D.honest middle.old) × (D.honest high.new ≡ D.honest high.old) }
    ensures cause { HasCauses (record { low = D.faults low.old; middle = D.faults middle.old; high = D.faults high.old })
        (record { low = D.faults low.new; middle = D.faults middle.new; high = D.faults high.new }) result }
{
    let whole = match judge_snapshot(alloc, low, target) {
        Ok(whole) => whole,
        Err(why) => return Err(why),
    };
    let index = match index_of(alloc, &whole.judged) {
        Ok(index) => index,
        Err(why) => return Err(why),
    };
    match finish_snapshot(low, middle, high, names, &whole.judged.entry) {
        Ok(()) => Ok(Opened {
            index,
            target: whole.target,
        }),
        Err(why) => Err(why),
    }
}

/// Reads and judges all that stands on three disks, and then gives it its last form.
pub fn reopen<D: Disk>(
    alloc: Global,
    low: &mut D,
    middle: &mut D,
    high: &mut D,
    target: Target,
) -> Result<Opened, BackupFault>
    requires low_settled { IsTrue (D.honest low.old) → IsSettledBut name.Staged (D.history low.old) }
    requires middle_settled { IsTrue (D.honest middle.old) → IsSettledBut name.Staged (D.history middle.old) }
    requires high_settled { IsTrue (D.honest high.old) → IsSettledBut name.Staged (D.history high.old) }
    ensures opened { AreHonest (D.honest low.old) (D.honest middle.old) (D.honest high.old) → IfOk result (λ opened. IsOpened opened.index
        (D.history low.old) (D.history middle.old) (D.history high.old) (D.history low.new) (D.history middle.new) (D.history high.new)) }
    ensures why { AreHonest (D.honest low.old) (D.honest middle.old) (D.honest high.old)
        → IfErr result (WhyClosed (now (D.history low.old)) (now (D.history middle.old)) (now (D.history high.old))) }
    ensures makes { AreHonest (D.honest low.old) (D.honest middle.old) (D.honest high.old) → (levels : Levels)
        → Holds levels (now (D.history low.old)) (now (D.history middle.old)) (now (D.history high.old)) → IfOk result (λ opened. MakesAll levels target opened.target) }
    ensures stops { AreHonest (D.honest low.old) (D.honest middle.old) (D.honest high.old) → (levels : Levels)
        → Holds levels (now (D.history low.old)) (now (D.history middle.old)) (now (D.history high.old))
        → Stops (D.history low.old) (D.history middle.old) (D.history high.old) (D.history low.new) (D.history middle.new) (D.history high.new) (Holds levels) }
    ensures settled { OnOk result (AreSettled (D.honest low.old) (D.honest middle.old) (D.honest high.old) (D.history low.new) (D.history middle.new) (D.history high.new)) }
    ensures honest { (D.honest low.new ≡ D.honest low.old) × (D.honest middle.new ≡ D.honest middle.old) × (D.honest high.new ≡ D.honest high.old) }
    ensures cause { HasCauses (record { low = D.faults low.old; middle = D.faults middle.old; high = D.faults high.old })
        (record { low = D.faults low.new; middle = D.faults middle.new; high = D.faults high.new }) result }
{
    let names = match list_all(alloc, low, middle, high) {
        Ok(names) => names,
        Err(why) => return Err(why),
    };
    let there = match is_there(low, FileName::Snapshot) {
        Ok(there) => there,
        Err(why) => return Err(why),
    };
    if there {
        return reopen_snapshot(alloc, low, middle, high, &names, target);
    }
    reopen_files(alloc, low, middle, high, &names, target)
}
