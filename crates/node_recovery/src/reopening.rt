//! A folder is examined and gets its last form.
ghost use Rattle.std.specs.Prelude.{◌≡◌, ◌==◌, false, IsTrue, IfOk, IfErr, if◌then◌else◌};
ghost use Rattle.lf_disk.specs.History.{now, EachMoment, Rests, IsSettledBut};
ghost use Rattle.lf_disk.specs.declared.name.FileName.{FileName as Name};
ghost use Rattle.world_laws.specs.Store.{StoreState};
ghost use Rattle.txn_log.specs.Durable.{Durable};
ghost use Rattle.node_recovery.specs.Finding.{HasDamage};
ghost use Rattle.node_recovery.specs.Finishing.{size_left, commit_left, is_marked};
ghost use Rattle.node_recovery.specs.Opening.{Opens, IsFitting};
ghost use Rattle.node_recovery.specs.Outcome.{HasCause};

use crate::examining::examine_by;
use crate::fault::RecoverFault;
use crate::finishing::finish;
use crate::found::Decider;
use crate::opened::Opened;
use crate::piece_reader::PieceReader;
use lf_disk::{Disk, FileName};
use std::alloc::Global;

/// The size of a page, how many there are, and whether the mark of a dropped database stays.
fn shape_of(decider: &Decider) -> (u32, u32, bool)
    ensures { (result.0 ≡ size_left decider.now) × (result.1 ≡ commit_left decider.now) × (result.2 ≡ is_marked decider.now) }
{
    match decider {
        Decider::Snapshot(outline) | Decider::Last(outline) => {
            (outline.header.page_size, outline.header.commit, false)
        }
        Decider::Mark => (0, 0, true),
        Decider::Nothing => (0, 0, false),
    }
}

/// Reads and judges all that stands on a disk, and then gives the folder its last form.
pub fn reopen<D: Disk>(alloc: Global, disk: &mut D) -> Result<Opened, RecoverFault>
    requires { IsTrue (D.honest disk.old) → IsSettledBut Name.Staged (D.history disk.old) }
    ensures opens { IsTrue (D.honest disk.old) → Opens (D.history disk.old) (D.history disk.new) result }
    ensures fits { IfOk result IsFitting }
    ensures exact { IsTrue (D.honest disk.old) → IfOk result (λ _. HasDamage (now (D.history disk.old)) → ⊥) }
    ensures untouched { IsTrue (D.honest disk.old) → IfErr result (λ _. HasDamage (now (D.history disk.old))
        → Rests (D.history disk.old) (D.history disk.new)) }
    ensures moments { IsTrue (D.honest disk.old) → (store : StoreState) → Durable (now (D.history disk.old)) store
        → EachMoment (D.history disk.old) (D.history disk.new) (λ c. Durable c store) }
    ensures honest { D.honest disk.new ≡ D.honest disk.old }
    ensures cause { HasCause (D.faults disk.old) (D.faults disk.new) result }
{
    let mut reader = match PieceReader::new(alloc) {
        Ok(reader) => reader,
        Err(_) => return Err(RecoverFault::NoMemory),
    };
    let found = match examine_by(alloc, disk, &mut reader) {
        Ok(found) => found,
        Err(why) => return Err(why),
    };
    match finish(alloc, disk, &mut reader, &found) {
        Ok(()) => {}
        Err(_) => return Err(RecoverFault::Disk),
    }
    match disk.remove(FileName::Staged) {
        Ok(()) => {}
        Err(_) => return Err(RecoverFault::Disk),
    }
    let (page_size, commit, dropped) = shape_of(&found.decider);
    Ok(Opened {
        entries: found.entries,
        sums: found.tally.sums,
        page_size,
        commit,
        wal: found.tally.wal,
        dropped,
    })
}
