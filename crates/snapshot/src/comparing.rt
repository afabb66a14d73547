//! The pages of a database beside those of a store.
ghost use Rattle.std.specs.Prelude.{◌≡◌, ◌*◌, ◌<◌, ◌≤◌, ◌^◌, [], length, IsTrue, IfOk, OnOk, if◌then◌else◌};
ghost use Rattle.lf_base.specs.Faults.{CountsFaults};
ghost use Rattle.lf_disk.specs.History.{now, Rests};
ghost use Rattle.lf_sqlite_pages.specs.Change.{last_number, with_page};
ghost use Rattle.lf_sqlite_pages.specs.LockPage.{IsDataPage};
ghost use Rattle.database_file.specs.Commit.{difference, has_page};
ghost use Rattle.txn_log.specs.Pages.{in_place};
ghost use Rattle.txn_log.specs.Store.{image_in};
ghost use Rattle.snapshot.specs.Bytes.{ComparesWith, image_of_pages};
ghost use Rattle.snapshot.specs.Pages.{HasPages};

use crate::fault::ImportFault;
use crate::reading::read_page;
use lf_base::Failed;
use lf_disk::Disk;
use lf_sqlite_pages::{Change, lock_page};
use std::alloc::Global;

/// Whether page `n` of a database file has these bytes. It is read into `standing`.
fn has_page<D: Disk>(
    disk: &mut D,
    page_size: u32,
    commit: u32,
    n: u32,
    page: &[u8],
    standing: &mut [u8],
) -> Result<bool, Failed>
    requires first { 1 ≤ n }
    requires some { 0 < length page.now }
    requires small { length page.now < 2 ^ 32 }
    requires room { length standing.old ≡ length page.now }
    ensures same { IsTrue (D.honest disk.old) → HasPages page_size commit (now (D.history disk.old))
        → IfOk result (λ same. same ≡ has_page (image_in page_size commit (now (D.history disk.old))) n page.now) }
    ensures length { length standing.new ≡ length standing.old }
    ensures rests { Rests (D.history disk.old) (D.history disk.new) }
    ensures honest { D.honest disk.new ≡ D.honest disk.old }
    ensures cause { CountsFaults (D.faults disk.old) (D.faults disk.new) result }
{
    if n > commit {
        return Ok(false);
    }
    if page.len() != page_size as usize {
        return Ok(false);
    }
    read_page(disk, n, standing)?;
    let standing: &[u8] = standing;
    Ok(standing == page)
}

/// Adds page `n` to the change, unless the database file has it there.
fn push_changed<D: Disk>(
    disk: &mut D,
    page_size: u32,
    commit: u32,
    n: u32,
    page: &[u8],
    standing: &mut [u8],
    change: &mut Change,
) -> Result<(), ImportFault>
    requires first { 1 ≤ n }
    requires some { 0 < length page.now }
    requires small { length page.now < 2 ^ 32 }
    requires room { length standing.old ≡ length page.now }
    requires ascending { last_number change.old.pages < n }
    requires within { n ≤ change.old.commit }
    requires holds_data { IsDataPage change.old.page_size n }
    requires whole { length page.now ≡ change.old.page_size }
    ensures pushed { IsTrue (D.honest disk.old) → HasPages page_size commit (now (D.history disk.old))
        → OnOk result (change.new ≡ (if has_page (image_in page_size commit (now (D.history disk.old))) n page.now then change.old else with_page change.old n page.now)) }
    ensures shape { OnOk result ((change.new.page_size ≡ change.old.page_size) × (change.new.commit ≡ change.old.commit) × (last_number change.new.pages ≤ n)) }
    ensures length { length standing.new ≡ length standing.old }
    ensures rests { Rests (D.history disk.old) (D.history disk.new) }
    ensures honest { D.honest disk.new ≡ D.honest disk.old }
    ensures cause { ComparesWith (D.faults disk.old) (D.faults disk.new) result }
{
    match has_page(disk, page_size, commit, n, page, standing) {
        Ok(true) => Ok(()),
        Ok(false) => match change.push(n, page) {
            Ok(()) => Ok(()),
            Err(_) => Err(ImportFault::NoMemory),
        },
        Err(failed) => Err(ImportFault::Store(failed)),
    }
}

/// Page `n` of some bytes that are pages of a size.
fn page_of(bytes: &[u8], size: u32, n: u32) -> &[u8]
    requires first { 1 ≤ n }
    requires within { n * size ≤ length bytes.now }
    ensures value { result.now ≡ in_place size n bytes.now }
    ensures whole { length result.now ≡ size }
{
    let (_, rest) = bytes.split_at((n as usize - 1) * size as usize);
    let (page, _) = rest.split_at(size as usize);
    page
}

/// How many pages' room is asked for at once.
const PAGES_AT_ONCE: u32 = 16;

/// Makes the heap grow by room for many pages, which then take theirs of it without a call of the system: malloc lets the heap of
/// a thread that is not the first one grow by no more than a page needs. Where there is no memory the pages say so.
fn grow_heap(alloc: Global) {
    let _ = Vec::<u8>::with_capacity(alloc, 1 << 16);
}

/// Adds each page of the bytes that the database file does not have at its place.
pub fn push_all<D: Disk>(
    alloc: Global,
    disk: &mut D,
    page_size: u32,
    commit: u32,
    bytes: &[u8],
    standing: &mut [u8],
    change: &mut Change,
) -> Result<(), ImportFault>
    requires empty { change.old.pages ≡ [] }
    requires some { 0 < change.old.page_size }
    requires room { length standing.old ≡ change.old.page_size }
    requires pages { change.old.commit * change.old.page_size ≤ length bytes.now }
    ensures pushed { IsTrue (D.honest disk.old) → HasPages page_size commit (now (D.history disk.old))
        → OnOk result (change.new ≡ difference (image_in page_size commit (now (D.history disk.old))) (image_of_pages change.old.page_size change.old.commit bytes.now)) }
    ensures rests { Rests (D.history disk.old) (D.history disk.new) }
    ensures honest { D.honest disk.new ≡ D.honest disk.old }
    ensures cause { ComparesWith (D.faults disk.old) (D.faults disk.new) result }
{
    let size = change.page_size();
    let count = change.commit();
    let mut number = 0;
    while number < count {
        if number % PAGES_AT_ONCE == 0 {
            grow_heap(alloc);
        }
        number += 1;
        if number != lock_page(size) {
            match push_changed(
                disk,
                page_size,
                commit,
                number,
                page_of(bytes, size, number),
                standing,
                change,
            ) {
                Ok(()) => {}
                Err(fault) => return Err(fault),
            }
        }
    }
    Ok(())
}
