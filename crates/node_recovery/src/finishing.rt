//! What decides in a folder gives it its last form.
ghost use Rattle.std.specs.Prelude.{◌≡◌, true, IsTrue, OnOk};
ghost use Rattle.lf_base.specs.Faults.{CountsFaults};
ghost use Rattle.lf_disk.specs.History.{now, EachMoment, IsSettledBut};
ghost use Rattle.lf_disk.specs.declared.name.FileName.{FileName as Name};
ghost use Rattle.world_laws.specs.Store.{StoreState};
ghost use Rattle.txn_log.specs.Durable.{Durable};
ghost use Rattle.node_recovery.specs.Finding.{Finds};
ghost use Rattle.node_recovery.specs.Finishing.{IsFinished, is_marked};

use crate::found::{Decider, Found};
use crate::piece_reader::PieceReader;
use crate::rewriting::rewrite_from;
use crate::settling::settle_from;
use lf_base::Failed;
use lf_disk::Disk;
use std::alloc::Global;
use txn_log::empty;

/// Does the rest of what a stop left: of an install where a snapshot decides, of a drop where the
/// mark does; else it writes the last file's pages again. Without a file nothing is left to do. The
/// file that decides is read a second time.
pub fn finish<D: Disk>(
    alloc: Global,
    disk: &mut D,
    reader: &mut PieceReader,
    found: &Found,
) -> Result<(), Failed>
    requires settled { IsTrue (D.honest disk.old) → IsSettledBut Name.Staged (D.history disk.old) }
    requires finds { IsTrue (D.honest disk.old) → Finds (now (D.history disk.old)) found.now }
    ensures moments { IsTrue (D.honest disk.old) → (store : StoreState) → Durable (now (D.history disk.old)) store
        → EachMoment (D.history disk.old) (D.history disk.new) (λ c. Durable c store) }
    ensures done { IsTrue (D.honest disk.old) → OnOk result
        (IsFinished (now (D.history disk.old)) found.now.decider found.now.names.items (D.history disk.new)) }
    ensures mark { IsTrue (D.honest disk.old) → OnOk result (is_marked found.now.decider ≡ true
        → now (D.history disk.new) Name.Dropped ≡ now (D.history disk.old) Name.Dropped) }
    ensures honest { D.honest disk.new ≡ D.honest disk.old }
    ensures cause { CountsFaults (D.faults disk.old) (D.faults disk.new) result }
{
    match &found.decider {
        Decider::Snapshot(outline) => {
            settle_from(disk, reader, found.names.as_slice(), &outline.header)
        }
        Decider::Mark => empty(alloc, disk, found.names.as_slice()),
        Decider::Last(outline) => rewrite_from(disk, reader, outline.name(), &outline.header),
        Decider::Nothing => Ok(()),
    }
}
