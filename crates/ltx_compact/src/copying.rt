//! Copies of the pages that files leave. The files are taken from the last to the first, since a later
//! file decides before an earlier one.
ghost use Rattle.std.specs.Prelude.{◌≡◌, ◌≤◌, All, IfOk, OnOk, length, replicate, None};
ghost use Rattle.lf_sqlite_pages.specs.Change.{written};
ghost use Rattle.ltx_compact.specs.Slots.{HoldPages, AreFilled};

use crate::slots::{cut, empty_slots, fill_copy, zero_page};
use lf_base::{Bytes, NoMemory};
use lf_sqlite_pages::PageWrite;
use ltx_codec::Ltx;
use std::alloc::Global;

/// The pages from 1 to `commit` that files of one page size leave, copied each into its slot.
pub fn slots_of_copies(
    alloc: Global,
    files: &[Ltx],
    page_size: usize,
    commit: usize,
) -> Result<Vec<Option<Bytes>>, NoMemory>
    requires { All (λ file. file.change.page_size ≡ page_size) files.now }
    ensures { IfOk result (λ slots. HoldPages files.now commit slots.items) }
{
    let zeros = zero_page(alloc, page_size)?;
    let mut slots = empty_slots(alloc, commit)?;
    copy_all(alloc, slots.as_mut_slice(), files, zeros.as_slice())?;
    Ok(slots)
}

/// Fills empty slots with copies of the pages that files leave. `zeros` is a page of zeros.
fn copy_all(
    alloc: Global,
    slots: &mut [Option<Bytes>],
    files: &[Ltx],
    zeros: &[u8],
) -> Result<(), NoMemory>
    requires empty { slots.old ≡ replicate (length slots.old) None }
    requires zeros { All (λ file. zeros.now ≡ replicate file.change.page_size 0) files.now }
    ensures { OnOk result (HoldPages files.now (length slots.old) slots.new) }
{
    // No slot from this place on is empty.
    let mut low = slots.len();
    for index in (0..files.len()).rev() {
        let change = &files[index].change;
        let commit = change.commit() as usize;
        cut(alloc, slots, commit, low, zeros)?;
        copy(alloc, slots, change.pages())?;
        low = low.min(commit);
    }
    Ok(())
}

/// Fills the slots of the pages that a file writes.
fn copy(alloc: Global, slots: &mut [Option<Bytes>], pages: &[PageWrite]) -> Result<(), NoMemory>
    requires { All (λ page. 1 ≤ page.number) pages.now }
    ensures { OnOk result (AreFilled slots.old (written pages.now) slots.new) }
{
    for page in pages {
        fill_copy(
            alloc,
            slots,
            page.number as usize - 1,
            page.bytes.as_slice(),
        )?;
    }
    Ok(())
}
