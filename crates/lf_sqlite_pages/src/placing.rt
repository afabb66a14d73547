//! The pages of a change, moved into a list of pages.
ghost use Rattle.std.specs.Prelude.{◌≡◌, ◌<◌, ◌≤◌, ◌^◌, IfOk, OnOk};
ghost use Rattle.lf_sqlite_pages.specs.Change.{IsChange};
ghost use Rattle.lf_sqlite_pages.specs.Steps.{kept, resized, overwritten, filled, placed};

use crate::change::Change;
use crate::page::Page;
use crate::page_write::PageWrite;
use lf_base::NoMemory;

/// The pages that can stay where the page size changes: all where it does not, else none.
pub fn keep(pages: Vec<Page>, old_size: u32, size: u32) -> Vec<Page>
    ensures { result.items ≡ kept old_size pages.items size }
{
    if old_size == size {
        pages
    } else {
        Vec::new(*pages.allocator())
    }
}

/// Adds pages of zeros until there are `count`.
fn fill(pages: &mut Vec<Page>, size: usize, count: usize) -> Result<(), NoMemory>
    ensures { OnOk result (pages.new.items ≡ filled pages.old.items size count) }
{
    let alloc = *pages.allocator();
    for _added in 0..count.saturating_sub(pages.len()) {
        pages.push(Page::zeros(alloc, size)?)?;
    }
    Ok(())
}

/// Puts a page in its place, over the one that stands there or behind pages of zeros.
fn place(pages: &mut Vec<Page>, size: usize, write: PageWrite) -> Result<(), NoMemory>
    requires { 1 ≤ write.number }
    ensures { OnOk result (pages.new.items ≡ placed pages.old.items size write) }
{
    let PageWrite { number, bytes } = write;
    let at = number as usize - 1;
    fill(pages, size, at)?;
    if at < pages.len() {
        pages[at] = Page::of(bytes);
    } else {
        pages.push(Page::of(bytes))?;
    }
    Ok(())
}

/// The pages after a change, where those before have its page size.
pub fn place_all(mut pages: Vec<Page>, change: Change) -> Result<Vec<Page>, NoMemory>
    ensures made { IfOk result (λ made. made.items ≡ overwritten (resized pages.items change.page_size change.commit) change.pages) }
    ensures valid { IsChange change }
    ensures numbered { change.commit < 2 ^ 32 }
{
    let size = change.page_size() as usize;
    let count = change.commit() as usize;
    pages.truncate(count);
    for write in change.into_pages() {
        place(&mut pages, size, write)?;
    }
    fill(&mut pages, size, count)?;
    Ok(pages)
}
