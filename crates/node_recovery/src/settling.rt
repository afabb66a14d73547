//! The rest of an install, from whatever a stop left of it.
ghost use Rattle.std.specs.Prelude.{◌≡◌, ◌∷◌, [], ℕ, List, false, IsTrue, IsSome, OnOk};
ghost use Rattle.lf_base.specs.Faults.{CountsFaults};
ghost use Rattle.lf_disk.specs.History.{now, EachMoment, IsSettledBut};
ghost use Rattle.lf_disk.specs.declared.name.FileName.{FileName as Name};
ghost use Rattle.lf_sqlite_pages.specs.Image.{DatabaseImage};
ghost use Rattle.ltx_codec.specs.declared.file.Ltx.{Ltx};
ghost use Rattle.txn_log.specs.Kept.{IsAtRest};
ghost use Rattle.txn_log.specs.Settling.{IsUnsettled, IsInstalled};
ghost use Rattle.node_recovery.specs.Rewriting.{HoldsFile};

use crate::piece_reader::PieceReader;
use crate::rewriting::rewrite_from;
use lf_base::Failed;
use lf_disk::{Disk, FileName};
use ltx_codec::Header;
use txn_log::{Entry, clear};

/// Does the rest of an install where a snapshot of this header stands: removes the mark of a
/// dropped database and the transaction files of these entries, writes the snapshot's pages over
/// the database file, and gives the snapshot its name in the log.
pub fn settle_from<D: Disk>(
    disk: &mut D,
    reader: &mut PieceReader,
    entries: &[Entry],
    header: &Header,
) -> Result<(), Failed>
    requires settled { IsTrue (D.honest disk.old) → IsSettledBut Name.Staged (D.history disk.old) }
    requires there { IsTrue (D.honest disk.old) → IsSome (now (D.history disk.old) Name.Snapshot) }
    ensures moments { IsTrue (D.honest disk.old) → (file : Ltx) → HoldsFile Name.Snapshot header.now file (now (D.history disk.old))
        → (image : DatabaseImage) (encoding : List ℕ) → IsUnsettled image encoding entries.now file.change (now (D.history disk.old))
        → EachMoment (D.history disk.old) (D.history disk.new) (IsInstalled image (record { min = header.now.min; max = header.now.max; encoding = encoding })) }
    ensures done { IsTrue (D.honest disk.old) → OnOk result ((file : Ltx) → HoldsFile Name.Snapshot header.now file (now (D.history disk.old))
        → (image : DatabaseImage) (encoding : List ℕ) → IsUnsettled image encoding entries.now file.change (now (D.history disk.old))
        → IsAtRest image (record { min = header.now.min; max = header.now.max; encoding = encoding } ∷ []) false (D.history disk.new)) }
    ensures honest { D.honest disk.new ≡ D.honest disk.old }
    ensures cause { CountsFaults (D.faults disk.old) (D.faults disk.new) result }
{
    disk.remove(FileName::Dropped)?;
    clear(disk, entries)?;
    rewrite_from(disk, reader, FileName::Snapshot, header)?;
    disk.rename(
        FileName::Snapshot,
        FileName::Ltx {
            min: header.min,
            max: header.max,
        },
    )?;
    Ok(())
}
