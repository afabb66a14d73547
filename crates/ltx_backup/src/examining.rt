//! Three disks are examined, and nothing on them is changed.
ghost use Rattle.std.specs.Prelude.{◌≡◌, ◌∷◌, [], None, IsTrue, IfOk, IfErr, is_some};
ghost use Rattle.lf_disk.specs.declared.name.FileName.TheVariants as name;
ghost use Rattle.lf_disk.specs.History.{now, Rests};
ghost use Rattle.ltx_backup.specs.Causes.{HasCause, HasCauses, IsBlameless, AreHonest};
ghost use Rattle.ltx_backup.specs.Making.{FindsInto, SnapshotInto};
ghost use Rattle.ltx_backup.specs.Opening.{AllListed, IsNoSnapshot, WhyClosed};

use crate::entry::{Entries, Entry, Index};
use crate::fault::BackupFault;
use crate::judging::judge_level;
use crate::listing::list_entries;
use crate::reading::read_named;
use crate::target::Target;
use crate::tidying::Bounds;
use lf_base::Pos;
use lf_disk::{Disk, FileName};
use std::alloc::Global;

/// The position of an empty backup.
const NOWHERE: Pos = Pos { txid: 0, sum: 0 };

/// Whether a file stands.
pub fn is_there<D: Disk>(disk: &mut D, name: FileName) -> Result<bool, BackupFault>
    ensures there { IsTrue (D.honest disk.old) → IfOk result (λ there. there ≡ is_some (now (D.history disk.old) name)) }
    ensures blameless { IfErr result IsBlameless }
    ensures rests { Rests (D.history disk.old) (D.history disk.new) }
    ensures honest { D.honest disk.new ≡ D.honest disk.old }
    ensures cause { HasCause (D.faults disk.old) (D.faults disk.new) result }
{
    match disk.size(name) {
        Ok(size) => Ok(size.is_some()),
        Err(_) => Err(BackupFault::Disk),
    }
}

/// The transaction files on three disks.
pub fn list_all<D: Disk>(
    alloc: Global,
    low: &mut D,
    middle: &mut D,
    high: &mut D,
) -> Result<Entries, BackupFault>
    ensures listed { AreHonest (D.honest low.old) (D.honest middle.old) (D.honest high.old)
        → IfOk result (λ names. AllListed names (now (D.history low.old)) (now (D.history middle.old)) (now (D.history high.old))) }
    ensures blameless { IfErr result IsBlameless }
    ensures rests { Rests (D.history low.old) (D.history low.new) × Rests (D.history middle.old) (D.history middle.new) × Rests (D.history high.old) (D.history high.new) }
    ensures honest { (D.honest low.new ≡ D.honest low.old) × (D.honest middle.new ≡ D.honest middle.old) × (D.honest high.new ≡ D.honest high.old) }
    ensures cause { HasCauses (record { low = D.faults low.old; middle = D.faults middle.old; high = D.faults high.old })
        (record { low = D.faults low.new; middle = D.faults middle.new; high = D.faults high.new }) result }
{
    let lows = match list_entries(alloc, low) {
        Ok(lows) => lows,
        Err(why) => return Err(why),
    };
    let middles = match list_entries(alloc, middle) {
        Ok(middles) => middles,
        Err(why) => return Err(why),
    };
    match list_entries(alloc, high) {
        Ok(highs) => Ok(Entries {
            lows,
            middles,
            highs,
        }),
        Err(why) => Err(why),
    }
}

/// Files that count, up to where others are passed over, and what was made of those that count.
#[derive(Drop)]
pub struct Found {
    pub index: Index,
    pub bounds: Bounds,
    pub target: Target,
}

/// A file that is the whole backup, and where it ends.
#[derive(Clone, Copy)]
pub struct Judged {
    pub entry: Entry,
    pub end: Pos,
}

/// The same, and what was made of it.
#[derive(Drop)]
pub struct Whole {
    pub judged: Judged,
    pub target: Target,
}

/// Reads and judges the files of three disks without a snapshot, from the highest level on.
pub fn judge_all<D: Disk>(
    alloc: Global,
    low: &mut D,
    middle: &mut D,
    high: &mut D,
    names: &Entries,
    target: Target,
) -> Result<Found, BackupFault>
    ensures finds { AreHonest (D.honest low.old) (D.honest middle.old) (D.honest high.old)
        → AllListed names.now (now (D.history low.old)) (now (D.history middle.old)) (now (D.history high.old))
        → IfOk result (λ found. FindsInto found.index found.bounds (now (D.history low.old)) (now (D.history middle.old)) (now (D.history high.old)) target found.target) }
    ensures why { AreHonest (D.honest low.old) (D.honest middle.old) (D.honest high.old)
        → AllListed names.now (now (D.history low.old)) (now (D.history middle.old)) (now (D.history high.old))
        → now (D.history low.old) name.Snapshot ≡ None
        → IfErr result (WhyClosed (now (D.history low.old)) (now (D.history middle.old)) (now (D.history high.old))) }
    ensures rests { Rests (D.history low.old) (D.history low.new) × Rests (D.history middle.old) (D.history middle.new) × Rests (D.history high.old) (D.history high.new) }
    ensures honest { (D.honest low.new ≡ D.honest low.old) × (D.honest middle.new ≡ D.honest middle.old) × (D.honest high.new ≡ D.honest high.old) }
    ensures cause { HasCauses (record { low = D.faults low.old; middle = D.faults middle.old; high = D.faults high.old })
        (record { low = D.faults low.new; middle = D.faults middle.new; high = D.faults high.new }) result }
{
    let highs = match judge_level(alloc, high, 2, names.highs.as_slice(), NOWHERE, target) {
        Ok(highs) => highs,
        Err(why) => return Err(why),
    };
    let middles = match judge_level(
        alloc,
        middle,
        1,
        names.middles.as_slice(),
        highs.end,
        highs.target,
    ) {
        Ok(middles) => middles,
        Err(why) => return Err(why),
    };
    let lows = match judge_level(
        alloc,
        low,
        0,
        names.lows.as_slice(),
        middles.end,
        middles.target,
    ) {
        Ok(lows) => lows,
        Err(why) => return Err(why),
    };
    let bounds = Bounds {
        low: middles.end.txid,
        middle: highs.end.txid,
        high: 0,
    };
    let entries = Entries {
        lows: lows.entries,
        middles: middles.entries,
        highs: highs.entries,
    };
    Ok(Found {
        index: Index {
            entries,
            end: lows.end,
        },
        bounds,
        target: lows.target,
    })
}

/// Reads the snapshot that waits for its name, and judges it. Its first transaction is 1.
pub fn judge_snapshot<D: Disk>(
    alloc: Global,
    low: &mut D,
    target: Target,
) -> Result<Whole, BackupFault>
    ensures finds { IsTrue (D.honest low.old) → IfOk result (λ whole. SnapshotInto whole.judged.entry whole.judged.end (now (D.history low.old)) target whole.target) }
    ensures none { IsTrue (D.honest low.old) → IfErr result (IsNoSnapshot (now (D.history low.old))) }
    ensures rests { Rests (D.history low.old) (D.history low.new) }
    ensures honest { D.honest low.new ≡ D.honest low.old }
    ensures cause { HasCause (D.faults low.old) (D.faults low.new) result }
{
    let file = match read_named(alloc, low, FileName::Snapshot, 0, 0, 0) {
        Ok(file) => file,
        Err(why) => return Err(why),
    };
    if file.header.min != 1 {
        return Err(BackupFault::Damaged {
            level: 0,
            min: 0,
            max: 0,
        });
    }
    let judged = Judged {
        entry: Entry::of(&file),
        end: file.after(),
    };
    match target.after(alloc, 0, file) {
        Ok(target) => Ok(Whole { judged, target }),
        Err(_) => Err(BackupFault::NoMemory),
    }
}

/// The index of a file that is the whole backup.
pub fn index_of(alloc: Global, whole: &Judged) -> Result<Index, BackupFault>
    ensures lows { IfOk result (λ index. index.entries.lows.items ≡ whole.now.entry ∷ []) }
    ensures others { IfOk result (λ index. (index.entries.middles.items ≡ []) × (index.entries.highs.items ≡ [])) }
    ensures end { IfOk result (λ index. index.end ≡ whole.now.end) }
    ensures full { IfErr result (λ why. why ≡ BackupFault.NoMemory) }
{
    let mut lows = Vec::new(alloc);
    match lows.push(whole.entry) {
        Ok(()) => {}
        Err(_) => return Err(BackupFault::NoMemory),
    }
    let entries = Entries {
        lows,
        middles: Vec::new(alloc),
        highs: Vec::new(alloc),
    };
    Ok(Index {
        entries,
        end: whole.end,
    })
}
