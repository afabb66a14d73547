//! The pages of a published file are written over the database file.
ghost use Rattle.std.specs.Prelude.{◌≡◌, ◌<◌, ◌^◌, false, length, IsTrue, OnOk, ◌+◌, ◌≤◌, ℕ, List, IfOk};
ghost use Rattle.lf_base.specs.Faults.{CountsFaults};
ghost use Rattle.lf_disk.specs.Folder.{same_name, SameBut, bytes_of};
ghost use Rattle.lf_disk.specs.History.{now, IsSettledBut, EachMoment, Rests};
ghost use Rattle.lf_disk.specs.declared.name.FileName.{FileName as Name};
ghost use Rattle.lf_sqlite_pages.specs.PageSize.{IsPageSize};
ghost use Rattle.ltx_codec.specs.declared.file.Ltx.{Ltx};
ghost use Rattle.txn_log.specs.Republishing.{HoldsFile, StandsAt};
ghost use Rattle.txn_log.specs.Rewriting.{IsWorn, IsRewritten};
ghost use Rattle.lf_disk.specs.Change.{OnFile};
ghost use Rattle.lf_disk.specs.Stretch.{Stretch};
ghost use Rattle.txn_log.specs.Pages.{Wears, Patches};

use crate::rewriting::fit;
use lf_base::Failed;
use lf_disk::{Disk, FileName};
use ltx_codec::Header;

/// Writes the pages of the file under a name over the database file, gives it the file's size, and
/// syncs it. The file was judged before, and its pages end at this length.
pub fn rewrite_from<D: Disk>(
    disk: &mut D,
    name: FileName,
    header: &Header,
    len: u64,
    page: &mut [u8],
) -> Result<(), Failed>
    requires settled { IsTrue (D.honest disk.old) → IsSettledBut Name.Staged (D.history disk.old) }
    requires apart { same_name name Name.Database ≡ false }
    requires sized { IsPageSize header.now.page_size }
    requires short { len < 2 ^ 63 }
    requires room { length page.old ≡ 65536 }
    ensures moments { IsTrue (D.honest disk.old) → (file : Ltx) → HoldsFile name header.now len file (now (D.history disk.old))
        → EachMoment (D.history disk.old) (D.history disk.new) (IsWorn file.change (now (D.history disk.old))) }
    ensures done { IsTrue (D.honest disk.old) → OnOk result ((file : Ltx) → HoldsFile name header.now len file (now (D.history disk.old))
        → IsRewritten file.change (now (D.history disk.old)) (D.history disk.new)) }
    ensures others { IsTrue (D.honest disk.old) → OnOk result (SameBut Name.Database (now (D.history disk.old)) (now (D.history disk.new))) }
    ensures honest { D.honest disk.new ≡ D.honest disk.old }
    ensures cause { CountsFaults (D.faults disk.old) (D.faults disk.new) result }
{
    copy_pages(disk, name, header, len, page)?;
    let size = u64::from(header.commit) * u64::from(header.page_size);
    fit(disk, size)?;
    disk.sync(FileName::Database)?;
    Ok(())
}

/// Reads the page whose number stands at a place of a file, and gives the number. What a read lacks
/// is zeros.
fn read_block<D: Disk>(
    disk: &mut D,
    name: FileName,
    at: u64,
    page: &mut [u8],
) -> Result<u32, Failed>
    requires { at + 4 < 2 ^ 64 }
    ensures block { IsTrue (D.honest disk.old) → IfOk result (λ n. (number : ℕ) (bytes : List ℕ)
        → StandsAt (bytes_of (now (D.history disk.old) name)) at number bytes → length bytes ≡ length page.old
        → (n ≡ number) × (page.new ≡ bytes)) }
    ensures long { length page.new ≡ length page.old }
    ensures rests { Rests (D.history disk.old) (D.history disk.new) }
    ensures honest { D.honest disk.new ≡ D.honest disk.old }
    ensures cause { CountsFaults (D.faults disk.old) (D.faults disk.new) result }
{
    let mut number = [0u8; 4];
    disk.read(name, at, &mut number)?;
    page.fill(0);
    disk.read(name, at + 4, page)?;
    Ok(u32::from_be_bytes(number))
}

/// Writes each page of the file under a name to its place. The file was judged before, and its pages
/// end at this length.
pub fn copy_pages<D: Disk>(
    disk: &mut D,
    name: FileName,
    header: &Header,
    len: u64,
    page: &mut [u8],
) -> Result<(), Failed>
    requires apart { same_name name Name.Database ≡ false }
    requires sized { IsPageSize header.now.page_size }
    requires short { len < 2 ^ 63 }
    requires room { length page.old ≡ 65536 }
    ensures moments { IsTrue (D.honest disk.old) → (file : Ltx) → HoldsFile name header.now len file (now (D.history disk.old))
        → Stretch (OnFile Name.Database (Wears file.change)) (D.history disk.old) (D.history disk.new) }
    ensures seen { IsTrue (D.honest disk.old) → OnOk result ((file : Ltx) → HoldsFile name header.now len file (now (D.history disk.old))
        → OnFile Name.Database (Patches file.change.page_size file.change.pages) (now (D.history disk.old)) (now (D.history disk.new))) }
    ensures others { IsTrue (D.honest disk.old) → OnOk result (SameBut Name.Database (now (D.history disk.old)) (now (D.history disk.new))) }
    ensures long { length page.new ≡ length page.old }
    ensures honest { D.honest disk.new ≡ D.honest disk.old }
    ensures cause { CountsFaults (D.faults disk.old) (D.faults disk.new) result }
{
    let size = header.page_size;
    let mut at = 100u64;
    while at < len {
        let (room, _) = page.split_at_mut(size as usize);
        let number = read_block(disk, name, at, room)?;
        if number > 0 {
            let place = u64::from(number - 1) * u64::from(size);
            disk.write(FileName::Database, place, room)?;
        }
        at += 4 + u64::from(size);
    }
    Ok(())
}
