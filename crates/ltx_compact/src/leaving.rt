//! The change that files leave.
ghost use Rattle.std.specs.Prelude.{◌≡◌, ◌<◌, ◌≤◌, ◌==◌, ◌++◌, [], None, if◌then◌else◌, All, IfOk, OnOk, IfSome, length};
ghost use Rattle.std.specs.List.{cons_option};
ghost use Rattle.lf_sqlite_pages.specs.PageSize.{IsPageSize};
ghost use Rattle.lf_sqlite_pages.specs.LockPage.{lock_page_of};
ghost use Rattle.lf_sqlite_pages.specs.Change.{IsChange, last_number};
ghost use Rattle.ltx_compact.specs.Compaction.{pages_of};
ghost use Rattle.ltx_compact.specs.Slots.{page_to_write, pages_in};

use crate::copying::slots_of_copies;
use crate::moving::slots_of_moved;
use lf_base::{Bytes, NoMemory};
use lf_sqlite_pages::{Change, lock_page};
use ltx_codec::Ltx;
use std::alloc::Global;

/// The change to `commit` pages that files of one page size leave: copies of what they leave of its
/// data pages.
pub fn change_of(
    alloc: Global,
    files: &[Ltx],
    page_size: u32,
    commit: u32,
) -> Result<Change, NoMemory>
    requires page_size { IsPageSize page_size }
    requires sizes { All (λ file. file.change.page_size ≡ page_size) files.now }
    requires changes { All (λ file. IsChange file.change) files.now }
    ensures value { IfOk result (λ change. change ≡ record { page_size = page_size; commit = commit; pages = pages_of page_size files.now commit }) }
    ensures valid { IfOk result IsChange }
{
    let slots = slots_of_copies(alloc, files, page_size as usize, commit as usize)?;
    change_in(alloc, slots, page_size, commit)
}

/// The same change, into which the pages of the files are moved.
pub fn change_of_owned(
    alloc: Global,
    files: Vec<Ltx>,
    page_size: u32,
    commit: u32,
) -> Result<Change, NoMemory>
    requires page_size { IsPageSize page_size }
    requires sizes { All (λ file. file.change.page_size ≡ page_size) files.items }
    requires changes { All (λ file. IsChange file.change) files.items }
    ensures value { IfOk result (λ change. change ≡ record { page_size = page_size; commit = commit; pages = pages_of page_size files.items commit }) }
    ensures valid { IfOk result IsChange }
{
    let slots = slots_of_moved(alloc, files, page_size as usize, commit as usize)?;
    change_in(alloc, slots, page_size, commit)
}

/// The change to `commit` pages that writes the data pages that stand in slots.
fn change_in(
    alloc: Global,
    mut slots: Vec<Option<Bytes>>,
    page_size: u32,
    commit: u32,
) -> Result<Change, NoMemory>
    requires page_size { IsPageSize page_size }
    requires count { length slots.items ≡ commit }
    requires whole { All (λ slot. IfSome slot (λ bytes. length bytes ≡ page_size)) slots.items }
    ensures value { IfOk result (λ change. change ≡ record { page_size = page_size; commit = commit; pages = pages_in page_size slots.items commit }) }
    ensures valid { IfOk result IsChange }
{
    let mut change = Change::new(alloc, page_size, commit);
    add_pages(&mut change, slots.as_mut_slice(), commit)?;
    change.sound();
    Ok(change)
}

/// Moves each data page up to `commit` that stands in its slot into an empty change.
fn add_pages(change: &mut Change, slots: &mut [Option<Bytes>], commit: u32) -> Result<(), NoMemory>
    requires empty { change.old.pages ≡ [] }
    requires commit { change.old.commit ≡ commit }
    requires count { length slots.old ≡ commit }
    requires whole { All (λ slot. IfSome slot (λ bytes. length bytes ≡ change.old.page_size)) slots.old }
    ensures { OnOk result (change.new ≡ record change.old { pages = pages_in change.old.page_size slots.old commit }) }
{
    let lock_page = lock_page(change.page_size());
    for before in 0..commit {
        add_page(change, before + 1, lock_page, slots[before as usize].take())?;
    }
    Ok(())
}

/// Adds page `n` where its slot held one, and it is not the lock page.
fn add_page(
    change: &mut Change,
    n: u32,
    lock_page: u32,
    page: Option<Bytes>,
) -> Result<(), NoMemory>
    requires lock { lock_page ≡ lock_page_of change.old.page_size }
    requires above { last_number change.old.pages < n }
    requires within { n ≤ change.old.commit }
    requires whole { IfSome page (λ bytes. length bytes ≡ change.old.page_size) }
    ensures ok { OnOk result (change.new ≡ record change.old { pages = change.old.pages ++ cons_option (page_to_write n (if n == lock_page then None else page)) [] }) }
    ensures last { OnOk result (last_number change.new.pages ≤ n) }
{
    if n == lock_page {
        return Ok(());
    }
    match page {
        Some(bytes) => change.push_page(n, bytes),
        None => Ok(()),
    }
}
