//! The two steps of applying a change to a list of pages: the list gets its new length, then the
//! pages of the change are written over those that stand.
ghost use Rattle.std.specs.Prelude.{◌≡◌, length, replicate, vec_len, IfOk, OnOk, OnErr, All};
ghost use Rattle.lf_sqlite_pages.specs.Change.{IsChange};
ghost use Rattle.lf_sqlite_pages.specs.Steps.{kept, resized, overwritten};

use crate::change::Change;
use crate::page::Page;
use lf_base::NoMemory;
use std::alloc::Global;

fn zero_pages(alloc: Global, size: usize, count: usize) -> Result<Vec<Page>, NoMemory>
    ensures { IfOk result (λ pages. pages.items ≡ replicate count (replicate size 0)) }
{
    let mut pages = Vec::new(alloc);
    for _made in 0..count {
        pages.push(Page::zeros(alloc, size)?)?;
    }
    Ok(pages)
}

fn resize(pages: &mut Vec<Page>, size: usize, count: usize) -> Result<(), NoMemory>
    ensures ok { OnOk result (pages.new.items ≡ resized pages.old.items size count) }
    ensures err { OnErr result (pages.new.items ≡ pages.old.items) }
{
    let before = pages.len();
    if count <= before {
        pages.truncate(count);
        return Ok(());
    }
    let alloc = *pages.allocator();
    let mut fresh = zero_pages(alloc, size, count - before)?;
    pages.append(&mut fresh)?;
    Ok(())
}

/// Leaves `count` pages of `size` bytes: those of `old_size` that can stay, then zeros.
pub fn fit(
    pages: &mut Vec<Page>,
    old_size: usize,
    size: usize,
    count: usize,
) -> Result<(), NoMemory>
    ensures ok { OnOk result (pages.new.items ≡ resized (kept old_size pages.old.items size) size count) }
    ensures err { OnErr result (pages.new.items ≡ pages.old.items) }
{
    if old_size == size {
        resize(pages, size, count)
    } else {
        let alloc = *pages.allocator();
        *pages = zero_pages(alloc, size, count)?;
        Ok(())
    }
}

/// Writes the pages of a change over those that stand.
pub fn overwrite(pages: &mut Vec<Page>, change: &Change)
    requires count { vec_len pages.old ≡ change.now.commit }
    requires whole { All (λ page. length page ≡ change.now.page_size) pages.old.items }
    ensures count { vec_len pages.new ≡ change.now.commit }
    ensures whole { All (λ page. length page ≡ change.now.page_size) pages.new.items }
    ensures valid { IsChange change.now }
    ensures written { pages.new.items ≡ overwritten pages.old.items change.now.pages }
{
    let writes = change.pages();
    for w in writes {
        pages[w.number as usize - 1].overwrite(w.bytes.as_slice());
    }
}
