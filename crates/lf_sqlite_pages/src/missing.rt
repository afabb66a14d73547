//! The pages that a change lacks to be complete.
ghost use Rattle.std.specs.Prelude.{◌≡◌, replicate, IfOk};
ghost use Rattle.lf_sqlite_pages.specs.Steps.{missing_page};
ghost use Rattle.lf_sqlite_pages.specs.Writes.{writes_of};

use crate::change::Change;
use crate::limits::lock_page;
use crate::page_write::PageWrite;
use lf_base::{Bytes, NoMemory};
use std::alloc::Global;

/// Zeros for each data page past `pages` that a change lacks, in ascending order of their numbers.
pub fn missing_pages(alloc: Global, change: &Change, pages: u32) -> Result<Vec<PageWrite>, NoMemory>
    ensures { IfOk result (λ missing. missing.items ≡ writes_of (missing_page change.now pages) change.now.commit) }
{
    let mut missing = Vec::new(alloc);
    let lock_page = lock_page(change.page_size());
    for before in pages..change.commit() {
        let number = before + 1;
        if number != lock_page && change.page(number).is_none() {
            let bytes = zeros(alloc, change.page_size() as usize)?;
            missing.push(PageWrite { number, bytes })?;
        }
    }
    Ok(missing)
}

fn zeros(alloc: Global, size: usize) -> Result<Bytes, NoMemory>
    ensures { IfOk result (λ bytes. bytes ≡ replicate size 0) }
{
    Ok(Bytes::of(vec![in alloc; 0; size]?))
}
