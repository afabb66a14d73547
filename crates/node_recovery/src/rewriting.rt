//! The pages of a file are written over the database file as they are read.
ghost use Rattle.std.specs.Prelude.{◌≡◌, false, IsTrue, OnOk};
ghost use Rattle.lf_base.specs.Faults.{CountsFaults};
ghost use Rattle.lf_disk.specs.Change.{OnFile};
ghost use Rattle.lf_disk.specs.Folder.{same_name, SameBut};
ghost use Rattle.lf_disk.specs.History.{now, IsSettledBut, EachMoment};
ghost use Rattle.lf_disk.specs.Stretch.{Stretch};
ghost use Rattle.lf_disk.specs.declared.name.FileName.{FileName as Name};
ghost use Rattle.ltx_codec.specs.declared.file.Ltx.{Ltx};
ghost use Rattle.txn_log.specs.Pages.{Wears, Patches};
ghost use Rattle.txn_log.specs.Rewriting.{IsWorn, IsRewritten};
ghost use Rattle.node_recovery.specs.Rewriting.{HoldsFile};

use crate::part::Part;
use crate::piece_reader::PieceReader;
use lf_base::Failed;
use lf_disk::{Disk, FileName};
use ltx_codec::Header;

/// Writes each page of the file under a name to its place, as it comes.
fn write_pages<D: Disk>(
    disk: &mut D,
    reader: &mut PieceReader,
    name: FileName,
    header: &Header,
) -> Result<(), Failed>
    requires { same_name name Name.Database ≡ false }
    ensures moments { IsTrue (D.honest disk.old) → (file : Ltx) → HoldsFile name header.now file (now (D.history disk.old))
        → Stretch (OnFile Name.Database (Wears file.change)) (D.history disk.old) (D.history disk.new) }
    ensures seen { IsTrue (D.honest disk.old) → OnOk result ((file : Ltx) → HoldsFile name header.now file (now (D.history disk.old))
        → OnFile Name.Database (Patches file.change.page_size file.change.pages) (now (D.history disk.old)) (now (D.history disk.new))) }
    ensures others { IsTrue (D.honest disk.old) → OnOk result (SameBut Name.Database (now (D.history disk.old)) (now (D.history disk.new))) }
    ensures honest { D.honest disk.new ≡ D.honest disk.old }
    ensures cause { CountsFaults (D.faults disk.old) (D.faults disk.new) result }
{
    reader.open(disk, name)?;
    'parts: loop {
        if !reader.refill(disk, name)? {
            break;
        }
        if let Part::Page { number } = reader.step() {
            let at = u64::from(number - 1) * u64::from(header.page_size);
            disk.write(FileName::Database, at, reader.page())?;
        }
    }
    Ok(())
}

/// Writes the pages of the file under a name over the database file, gives it the size that the
/// file says, and syncs it. The file was read before, and had this header; it is not judged again.
pub fn rewrite_from<D: Disk>(
    disk: &mut D,
    reader: &mut PieceReader,
    name: FileName,
    header: &Header,
) -> Result<(), Failed>
    requires settled { IsTrue (D.honest disk.old) → IsSettledBut Name.Staged (D.history disk.old) }
    requires apart { same_name name Name.Database ≡ false }
    ensures moments { IsTrue (D.honest disk.old) → (file : Ltx) → HoldsFile name header.now file (now (D.history disk.old))
        → EachMoment (D.history disk.old) (D.history disk.new) (IsWorn file.change (now (D.history disk.old))) }
    ensures done { IsTrue (D.honest disk.old) → OnOk result ((file : Ltx) → HoldsFile name header.now file (now (D.history disk.old))
        → IsRewritten file.change (now (D.history disk.old)) (D.history disk.new)) }
    ensures others { IsTrue (D.honest disk.old) → OnOk result (SameBut Name.Database (now (D.history disk.old)) (now (D.history disk.new))) }
    ensures honest { D.honest disk.new ≡ D.honest disk.old }
    ensures cause { CountsFaults (D.faults disk.old) (D.faults disk.new) result }
{
    write_pages(disk, reader, name, header)?;
    let len = u64::from(header.commit) * u64::from(header.page_size);
    disk.cut(FileName::Database, len)?;
    disk.sync(FileName::Database)?;
    Ok(())
}
