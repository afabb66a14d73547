//! A change is written over the database file.
ghost use Rattle.std.specs.Prelude.{◌≡◌, IsTrue, OnOk, ◌+◌, ◌<◌, ◌^◌, [], ℕ, List, length};
ghost use Rattle.lf_base.specs.Faults.{CountsFaults};
ghost use Rattle.lf_disk.specs.History.{now, IsSettledBut, EachMoment};
ghost use Rattle.lf_disk.specs.declared.name.FileName.{FileName, FileName as Name};
ghost use Rattle.lf_sqlite_pages.specs.Change.{IsChange, PageChange};
ghost use Rattle.txn_log.specs.Rewriting.{IsWorn, IsRewritten};
ghost use Rattle.lf_disk.specs.Change.{OnFile, Cuts, CropsFile};
ghost use Rattle.lf_disk.specs.Stretch.{Stretch};
ghost use Rattle.txn_log.specs.Pages.{Wears, Patches};
ghost use Rattle.lf_base.specs.FileBytes.{overwritten, written};
ghost use Rattle.lf_disk.specs.Folder.{bytes_of, SameBut};
ghost use Rattle.txn_log.specs.PageRun.{Gets, LeavesOut};

use lf_base::Failed;
use lf_disk::{Disk, FileName};
use lf_sqlite_pages::Change;
use std::alloc::Global;

/// Writes the pages of a change over the database file, gives it the change's size, and syncs it.
pub fn rewrite<D: Disk>(alloc: Global, disk: &mut D, change: &Change) -> Result<(), Failed>
    requires { IsTrue (D.honest disk.old) → IsSettledBut FileName.Staged (D.history disk.old) }
    ensures valid { IsChange change.now }
    ensures moments { IsTrue (D.honest disk.old)
        → EachMoment (D.history disk.old) (D.history disk.new) (IsWorn change.now (now (D.history disk.old))) }
    ensures done { IsTrue (D.honest disk.old) → OnOk result
        (IsRewritten change.now (now (D.history disk.old)) (D.history disk.new)) }
    ensures honest { D.honest disk.new ≡ D.honest disk.old }
    ensures cause { CountsFaults (D.faults disk.old) (D.faults disk.new) result }
{
    write_pages(alloc, disk, change)?;
    let len = u64::from(change.commit()) * u64::from(change.page_size());
    fit(disk, len)?;
    disk.sync(FileName::Database)?;
    Ok(())
}

/// Writes the pages of a change to their places. Pages that stand side by side are written by one call.
pub fn write_pages<D: Disk>(alloc: Global, disk: &mut D, change: &Change) -> Result<(), Failed>
    ensures valid { IsChange change.now }
    ensures moments { IsTrue (D.honest disk.old)
        → Stretch (OnFile FileName.Database (Wears change.now)) (D.history disk.old) (D.history disk.new) }
    ensures seen { IsTrue (D.honest disk.old) → OnOk result
        (OnFile FileName.Database (Patches change.now.page_size change.now.pages) (now (D.history disk.old)) (now (D.history disk.new))) }
    ensures honest { D.honest disk.new ≡ D.honest disk.old }
    ensures cause { CountsFaults (D.faults disk.old) (D.faults disk.new) result }
{
    let size = u64::from(change.page_size());
    let _commit = change.commit();
    let mut run = begin_run(alloc);
    for page in change.pages() {
        let at = u64::from(page.number - 1) * size;
        put_page(disk, &mut run, at, page.bytes.as_slice())?;
    }
    write_run(disk, &mut run)?;
    Ok(())
}

/// Gives the database file this length, where it has another.
pub fn fit<D: Disk>(disk: &mut D, len: u64) -> Result<(), Failed>
    ensures moments { IsTrue (D.honest disk.old)
        → Stretch (CropsFile FileName.Database len) (D.history disk.old) (D.history disk.new) }
    ensures done { IsTrue (D.honest disk.old) → OnOk result
        (OnFile FileName.Database (Cuts len) (now (D.history disk.old)) (now (D.history disk.new))) }
    ensures honest { D.honest disk.new ≡ D.honest disk.old }
    ensures cause { CountsFaults (D.faults disk.old) (D.faults disk.new) result }
{
    let size = disk.size(FileName::Database)?;
    if size == Some(len) {
        return Ok(());
    }
    disk.cut(FileName::Database, len)?;
    Ok(())
}

/// How many bytes are gathered at most.
const PART: usize = 1 << 17;

/// Pages that stand side by side, on their way into the database file.
#[derive(Drop)]
pub struct PageRun {
    /// The place of the first of them, in bytes.
    pub at: u64,
    pub bytes: Vec<u8>,
}

/// No pages yet.
pub fn begin_run(alloc: Global) -> PageRun
    ensures { (result.at ≡ 0) × (result.bytes.items ≡ []) }
{
    PageRun {
        at: 0,
        bytes: Vec::new(alloc),
    }
}

/// Writes the pages. The run has none then, and ends where it did.
pub fn write_run<D: Disk>(disk: &mut D, run: &mut PageRun) -> Result<(), Failed>
    requires { run.old.at + length run.old.bytes.items < 2 ^ 64 }
    ensures moments { IsTrue (D.honest disk.old) → (change : PageChange) → LeavesOut change run.old.at (length run.old.bytes.items)
        → Stretch (OnFile Name.Database (Wears change)) (D.history disk.old) (D.history disk.new) }
    ensures seen { IsTrue (D.honest disk.old) → OnOk result
        (OnFile Name.Database (Gets run.old.at run.old.bytes.items) (now (D.history disk.old)) (now (D.history disk.new))) }
    ensures ends { OnOk result (run.new.at ≡ run.old.at + length run.old.bytes.items) }
    ensures none { OnOk result (run.new.bytes.items ≡ []) }
    ensures honest { D.honest disk.new ≡ D.honest disk.old }
    ensures cause { CountsFaults (D.faults disk.old) (D.faults disk.new) result }
{
    if run.bytes.is_empty() {
        return Ok(());
    }
    disk.write(FileName::Database, run.at, run.bytes.as_slice())?;
    run.at += run.bytes.len() as u64;
    run.bytes.clear();
    Ok(())
}

/// Makes the run end at a place with room for so many bytes: a run that does not is written, and the next begins there.
fn begin_at<D: Disk>(disk: &mut D, run: &mut PageRun, at: u64, more: usize) -> Result<(), Failed>
    requires { run.old.at + length run.old.bytes.items < 2 ^ 64 }
    ensures moments { IsTrue (D.honest disk.old) → (change : PageChange) → LeavesOut change run.old.at (length run.old.bytes.items)
        → Stretch (OnFile Name.Database (Wears change)) (D.history disk.old) (D.history disk.new) }
    ensures seen { IsTrue (D.honest disk.old) → OnOk result
        (written run.new.at run.new.bytes.items (bytes_of (now (D.history disk.new) Name.Database))
        ≡ written run.old.at run.old.bytes.items (bytes_of (now (D.history disk.old) Name.Database))) }
    ensures others { IsTrue (D.honest disk.old) → OnOk result (SameBut Name.Database (now (D.history disk.old)) (now (D.history disk.new))) }
    ensures ends { OnOk result (run.new.at + length run.new.bytes.items ≡ at) }
    ensures out { OnOk result ((change : PageChange) → LeavesOut change run.old.at (length run.old.bytes.items) → LeavesOut change at more
        → LeavesOut change run.new.at (length run.new.bytes.items)) }
    ensures honest { D.honest disk.new ≡ D.honest disk.old }
    ensures cause { CountsFaults (D.faults disk.old) (D.faults disk.new) result }
{
    if run.at + run.bytes.len() as u64 == at && more.saturating_add(run.bytes.len()) <= PART {
        return Ok(());
    }
    write_run(disk, run)?;
    run.at = at;
    Ok(())
}

/// Writes the pages, and one page behind them.
fn write_behind<D: Disk>(disk: &mut D, run: &mut PageRun, page: &[u8]) -> Result<(), Failed>
    requires some { 0 < length page.now }
    requires room { run.old.at + length run.old.bytes.items + length page.now < 2 ^ 64 }
    ensures moments { IsTrue (D.honest disk.old) → (change : PageChange) → LeavesOut change run.old.at (length run.old.bytes.items)
        → LeavesOut change (run.old.at + length run.old.bytes.items) (length page.now)
        → Stretch (OnFile Name.Database (Wears change)) (D.history disk.old) (D.history disk.new) }
    ensures seen { IsTrue (D.honest disk.old) → OnOk result
        (written run.new.at run.new.bytes.items (bytes_of (now (D.history disk.new) Name.Database))
        ≡ overwritten (run.old.at + length run.old.bytes.items) page.now (written run.old.at run.old.bytes.items (bytes_of (now (D.history disk.old) Name.Database)))) }
    ensures others { IsTrue (D.honest disk.old) → OnOk result (SameBut Name.Database (now (D.history disk.old)) (now (D.history disk.new))) }
    ensures ends { OnOk result (run.new.at + length run.new.bytes.items ≡ run.old.at + length run.old.bytes.items + length page.now) }
    ensures out { OnOk result ((change : PageChange) → 0 < change.page_size → LeavesOut change run.old.at (length run.old.bytes.items)
        → LeavesOut change (run.old.at + length run.old.bytes.items) (length page.now) → LeavesOut change run.new.at (length run.new.bytes.items)) }
    ensures honest { D.honest disk.new ≡ D.honest disk.old }
    ensures cause { CountsFaults (D.faults disk.old) (D.faults disk.new) result }
{
    write_run(disk, run)?;
    disk.write(FileName::Database, run.at, page)?;
    run.at += page.len() as u64;
    Ok(())
}

/// Takes a page behind the others. Without memory for it all are written.
fn take_page<D: Disk>(disk: &mut D, run: &mut PageRun, page: &[u8]) -> Result<(), Failed>
    requires some { 0 < length page.now }
    requires room { run.old.at + length run.old.bytes.items + length page.now < 2 ^ 64 }
    ensures moments { IsTrue (D.honest disk.old) → (change : PageChange) → LeavesOut change run.old.at (length run.old.bytes.items)
        → LeavesOut change (run.old.at + length run.old.bytes.items) (length page.now)
        → Stretch (OnFile Name.Database (Wears change)) (D.history disk.old) (D.history disk.new) }
    ensures seen { IsTrue (D.honest disk.old) → OnOk result
        (written run.new.at run.new.bytes.items (bytes_of (now (D.history disk.new) Name.Database))
        ≡ overwritten (run.old.at + length run.old.bytes.items) page.now (written run.old.at run.old.bytes.items (bytes_of (now (D.history disk.old) Name.Database)))) }
    ensures others { IsTrue (D.honest disk.old) → OnOk result (SameBut Name.Database (now (D.history disk.old)) (now (D.history disk.new))) }
    ensures ends { OnOk result (run.new.at + length run.new.bytes.items ≡ run.old.at + length run.old.bytes.items + length page.now) }
    ensures out { OnOk result ((change : PageChange) → 0 < change.page_size → LeavesOut change run.old.at (length run.old.bytes.items)
        → LeavesOut change (run.old.at + length run.old.bytes.items) (length page.now) → LeavesOut change run.new.at (length run.new.bytes.items)) }
    ensures honest { D.honest disk.new ≡ D.honest disk.old }
    ensures cause { CountsFaults (D.faults disk.old) (D.faults disk.new) result }
{
    match run.bytes.extend_from_slice(page) {
        Ok(()) => Ok(()),
        Err(_) => write_behind(disk, run, page),
    }
}

/// Puts a page at its place: behind the others where they end there, else as the first of a new run.
pub fn put_page<D: Disk>(
    disk: &mut D,
    run: &mut PageRun,
    at: u64,
    page: &[u8],
) -> Result<(), Failed>
    requires some { 0 < length page.now }
    requires room { at + length page.now < 2 ^ 64 }
    requires begun { run.old.at + length run.old.bytes.items < 2 ^ 64 }
    ensures moments { IsTrue (D.honest disk.old) → (change : PageChange) → LeavesOut change run.old.at (length run.old.bytes.items)
        → LeavesOut change at (length page.now)
        → Stretch (OnFile Name.Database (Wears change)) (D.history disk.old) (D.history disk.new) }
    ensures seen { IsTrue (D.honest disk.old) → OnOk result
        (written run.new.at run.new.bytes.items (bytes_of (now (D.history disk.new) Name.Database))
        ≡ overwritten at page.now (written run.old.at run.old.bytes.items (bytes_of (now (D.history disk.old) Name.Database)))) }
    ensures others { IsTrue (D.honest disk.old) → OnOk result (SameBut Name.Database (now (D.history disk.old)) (now (D.history disk.new))) }
    ensures ends { OnOk result (run.new.at + length run.new.bytes.items ≡ at + length page.now) }
    ensures out { OnOk result ((change : PageChange) → 0 < change.page_size → LeavesOut change run.old.at (length run.old.bytes.items)
        → LeavesOut change at (length page.now) → LeavesOut change run.new.at (length run.new.bytes.items)) }
    ensures honest { D.honest disk.new ≡ D.honest disk.old }
    ensures cause { CountsFaults (D.faults disk.old) (D.faults disk.new) result }
{
    begin_at(disk, run, at, page.len())?;
    take_page(disk, run, page)?;
    Ok(())
}
