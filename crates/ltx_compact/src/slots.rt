//! Slots for the pages that files leave, one for each page. A slot that is filled stays as it is.
ghost use Rattle.std.specs.Prelude.{◌≡◌, ◌+◌, ◌==◌, IfOk, OnOk, replicate, Some, None, if◌then◌else◌};
ghost use Rattle.ltx_compact.specs.Slots.{AreFilled, cut_page};

use lf_base::{Bytes, NoMemory};
use std::alloc::{AllocError, Global};

/// One slot for each page up to `commit`, with nothing in it.
pub fn empty_slots(alloc: Global, commit: usize) -> Result<Vec<Option<Bytes>>, NoMemory>
    ensures { IfOk result (λ slots. slots.items ≡ replicate commit None) }
{
    let mut slots = Vec::with_capacity(alloc, commit)?;
    for _added in 0..commit {
        slots.push(None)?;
    }
    Ok(slots)
}

pub fn zero_page(alloc: Global, size: usize) -> Result<Vec<u8>, AllocError>
    ensures { IfOk result (λ page. page.items ≡ replicate size 0) }
{
    vec![in alloc; 0u8; size]
}

/// Fills the slots of the pages past `commit`, up to `low`, with copies of a page of zeros.
pub fn cut(
    alloc: Global,
    slots: &mut [Option<Bytes>],
    commit: usize,
    low: usize,
    zeros: &[u8],
) -> Result<(), NoMemory>
    ensures { OnOk result (AreFilled slots.old (cut_page commit low zeros.now) slots.new) }
{
    for index in commit..low {
        fill_copy(alloc, slots, index, zeros)?;
    }
    Ok(())
}

/// Fills a slot with a copy of a page, if the slot is there and empty.
pub fn fill_copy(
    alloc: Global,
    slots: &mut [Option<Bytes>],
    index: usize,
    page: &[u8],
) -> Result<(), NoMemory>
    ensures { OnOk result (AreFilled slots.old (λ n. if n == index + 1 then Some page.now else None) slots.new) }
{
    if index < slots.len() && slots[index].is_none() {
        slots[index] = Some(Bytes::of(Vec::from_slice(alloc, page)?));
    }
    Ok(())
}

/// Moves a page into a slot, if the slot is there and empty. Else the page is let go.
pub fn fill(slots: &mut [Option<Bytes>], index: usize, page: Bytes)
    ensures { AreFilled slots.old (λ n. if n == index + 1 then Some page else None) slots.new }
{
    if index < slots.len() && slots[index].is_none() {
        slots[index] = Some(page);
    }
}
