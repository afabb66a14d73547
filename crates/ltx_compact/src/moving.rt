//! The pages that files leave, moved out of the files. The files are taken from the last to the first,
//! since a later file decides before an earlier one, and a page that does not stay is let go with its
//! file.
ghost use Rattle.std.specs.Prelude.{◌≡◌, ◌≤◌, All, IfOk, OnOk, length, replicate, None};
ghost use Rattle.lf_sqlite_pages.specs.Change.{written};
ghost use Rattle.ltx_compact.specs.Slots.{HoldPages, AreFilled};

use crate::slots::{cut, empty_slots, fill, zero_page};
use lf_base::{Bytes, NoMemory};
use lf_sqlite_pages::PageWrite;
use ltx_codec::Ltx;
use std::alloc::Global;

/// The pages from 1 to `commit` that files of one page size leave, moved each into its slot.
pub fn slots_of_moved(
    alloc: Global,
    files: Vec<Ltx>,
    page_size: usize,
    commit: usize,
) -> Result<Vec<Option<Bytes>>, NoMemory>
    requires { All (λ file. file.change.page_size ≡ page_size) files.items }
    ensures { IfOk result (λ slots. HoldPages files.items commit slots.items) }
{
    let zeros = zero_page(alloc, page_size)?;
    let mut slots = empty_slots(alloc, commit)?;
    move_all(alloc, slots.as_mut_slice(), files, zeros.as_slice())?;
    Ok(slots)
}

/// Moves the pages that files leave into empty slots. `zeros` is a page of zeros.
fn move_all(
    alloc: Global,
    slots: &mut [Option<Bytes>],
    mut files: Vec<Ltx>,
    zeros: &[u8],
) -> Result<(), NoMemory>
    requires empty { slots.old ≡ replicate (length slots.old) None }
    requires zeros { All (λ file. zeros.now ≡ replicate file.change.page_size 0) files.items }
    ensures { OnOk result (HoldPages files.items (length slots.old) slots.new) }
{
    // No slot from this place on is empty.
    let mut low = slots.len();
    while let Some(file) = files.pop() {
        let commit = file.change.commit() as usize;
        cut(alloc, slots, commit, low, zeros)?;
        move_pages(slots, file.change.into_pages());
        low = low.min(commit);
    }
    Ok(())
}

/// Moves the pages that a file writes into their slots.
fn move_pages(slots: &mut [Option<Bytes>], pages: Vec<PageWrite>)
    requires { All (λ page. 1 ≤ page.number) pages.items }
    ensures { AreFilled slots.old (written pages.items) slots.new }
{
    for page in pages {
        let PageWrite { number, bytes } = page;
        fill(slots, number as usize - 1, bytes);
    }
}
