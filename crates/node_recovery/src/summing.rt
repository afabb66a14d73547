//! The sums of the pages that a change leaves over the database file. Nothing is written.
ghost use Rattle.std.specs.Prelude.{◌≡◌, ◌≤◌, ◌-◌, IsTrue, IfErr, OnOk, length, replicate};
ghost use Rattle.lf_disk.specs.declared.name.FileName.{FileName as Name};
ghost use Rattle.lf_disk.specs.Folder.{bytes_of};
ghost use Rattle.lf_disk.specs.History.{now, Rests};
ghost use Rattle.lf_sqlite_pages.specs.Change.{PageChange, IsChange};
ghost use Rattle.lf_sqlite_pages.specs.PageSize.{IsPageSize};
ghost use Rattle.node_recovery.specs.Outcome.{HasCause, IsBlameless};
ghost use Rattle.node_recovery.specs.Summing.{padded, AreKnown, IsTallied, KnowsPages};

use crate::fault::RecoverFault;
use crate::reading::zeros;
use crate::tally::Tally;
use lf_disk::{Disk, FileName};
use lf_sqlite_pages::lock_page;
use ltx_codec::Header;
use std::alloc::Global;

fn blank(page: &mut [u8])
    ensures { page.new ≡ replicate (length page.old) 0 }
{
    page.fill(0);
}

/// Reads page `n` of the database file, with zeros where the file ends.
pub fn read_page<D: Disk>(
    disk: &mut D,
    size: u32,
    n: u32,
    page: &mut [u8],
) -> Result<(), RecoverFault>
    requires number { 1 ≤ n }
    requires room { length page.old ≡ size }
    ensures page { IsTrue (D.honest disk.old) → OnOk result (page.new ≡ padded size n (bytes_of (now (D.history disk.old) Name.Database))) }
    ensures long { length page.new ≡ length page.old }
    ensures blameless { IfErr result IsBlameless }
    ensures rests { Rests (D.history disk.old) (D.history disk.new) }
    ensures honest { D.honest disk.new ≡ D.honest disk.old }
    ensures cause { HasCause (D.faults disk.old) (D.faults disk.new) result }
{
    blank(page);
    let at = u64::from(n - 1) * u64::from(size);
    match disk.read(FileName::Database, at, page) {
        Ok(_) => Ok(()),
        Err(_) => Err(RecoverFault::Disk),
    }
}

/// Adds page `n` where it is not known yet. The buffer has room for a page.
fn add_page<D: Disk>(
    disk: &mut D,
    size: u32,
    n: u32,
    tally: &mut Tally,
    page: &mut [u8],
) -> Result<(), RecoverFault>
    requires sized { IsPageSize size }
    requires first { 1 ≤ n }
    requires last { n ≤ length tally.old.sums.sums }
    requires room { length page.old ≡ size }
    ensures known { IsTrue (D.honest disk.old) → OnOk result ((change : PageChange) → IsChange change → change.page_size ≡ size
        → AreKnown change (bytes_of (now (D.history disk.old) Name.Database)) (n - 1) tally.old
        → AreKnown change (bytes_of (now (D.history disk.old) Name.Database)) n tally.new) }
    ensures count { length tally.new.sums.sums ≡ length tally.old.sums.sums }
    ensures long { length page.new ≡ length page.old }
    ensures blameless { IfErr result IsBlameless }
    ensures rests { Rests (D.history disk.old) (D.history disk.new) }
    ensures honest { D.honest disk.new ≡ D.honest disk.old }
    ensures cause { HasCause (D.faults disk.old) (D.faults disk.new) result }
{
    if n == lock_page(size) || tally.sums.get(n) != 0 {
        return Ok(());
    }
    read_page(disk, size, n, page)?;
    tally.add(n, page);
    Ok(())
}

/// Adds each page that a file with this header does not hold, from the database file.
pub fn add_pages<D: Disk>(
    alloc: Global,
    disk: &mut D,
    header: &Header,
    tally: &mut Tally,
) -> Result<(), RecoverFault>
    requires sized { IsPageSize header.now.page_size }
    requires count { length tally.old.sums.sums ≡ header.now.commit }
    ensures known { IsTrue (D.honest disk.old) → OnOk result ((change : PageChange) → IsChange change → change.page_size ≡ header.now.page_size
        → IsTallied change tally.old → KnowsPages change (bytes_of (now (D.history disk.old) Name.Database)) tally.new) }
    ensures count { length tally.new.sums.sums ≡ length tally.old.sums.sums }
    ensures blameless { IfErr result IsBlameless }
    ensures rests { Rests (D.history disk.old) (D.history disk.new) }
    ensures honest { D.honest disk.new ≡ D.honest disk.old }
    ensures cause { HasCause (D.faults disk.old) (D.faults disk.new) result }
{
    let mut page = zeros(alloc, header.page_size as usize)?;
    for before in 0..header.commit {
        add_page(
            disk,
            header.page_size,
            before + 1,
            tally,
            page.as_mut_slice(),
        )?;
    }
    Ok(())
}
