//! A page of the database file.
ghost use Rattle.std.specs.Prelude.{◌≡◌, ◌<◌, ◌≤◌, ◌^◌, ℕ, length, replicate, Some, IsTrue, OnOk};
ghost use Rattle.lf_base.specs.Faults.{CountsFaults};
ghost use Rattle.lf_disk.specs.History.{now, Rests};
ghost use Rattle.lf_sqlite_pages.specs.Image.{page_at};
ghost use Rattle.txn_log.specs.Store.{image_in};
ghost use Rattle.snapshot.specs.Pages.{HasPages};

use lf_base::Failed;
use lf_disk::{Disk, FileName};
use lf_sqlite_pages::lock_page;

/// Puts page `n` of the database file into `out`, which is one page long: zeros at the lock page,
/// whatever stands there, and where the file is too short.
pub fn read_page<D: Disk>(disk: &mut D, n: u32, out: &mut [u8]) -> Result<(), Failed>
    requires first { 1 ≤ n }
    requires some { 0 < length out.old }
    requires size { length out.old < 2 ^ 32 }
    ensures bytes { IsTrue (D.honest disk.old) → (commit : ℕ) → n ≤ commit → HasPages (length out.old) commit (now (D.history disk.old))
        → OnOk result (page_at (image_in (length out.old) commit (now (D.history disk.old))) n ≡ Some out.new) }
    ensures length { length out.new ≡ length out.old }
    ensures rests { Rests (D.history disk.old) (D.history disk.new) }
    ensures honest { D.honest disk.new ≡ D.honest disk.old }
    ensures cause { CountsFaults (D.faults disk.old) (D.faults disk.new) result }
{
    let page_size = out.len() as u32;
    zero(out);
    if n == lock_page(page_size) {
        return Ok(());
    }
    let at = u64::from(n - 1) * u64::from(page_size);
    disk.read(FileName::Database, at, out)?;
    Ok(())
}

/// Makes every byte 0.
pub fn zero(out: &mut [u8])
    ensures { out.new ≡ replicate (length out.old) 0 }
{
    out.fill(0);
}
