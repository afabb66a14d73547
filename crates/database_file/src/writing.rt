//! Pages of the database file written, and its size changed.
ghost use Rattle.std.specs.Prelude.{◌≡◌, ◌↔◌, IsTrue, ◌<◌, IfSome, IfErr, OnOk, OnErr};
ghost use Rattle.database_file.specs.DatabaseFile.{FitsShape, KeepsDifferences, as_read};
ghost use Rattle.database_file.specs.Fault.{HasCause, SameBase};
ghost use Rattle.database_file.specs.Writing.{AreDataPages, TakesPages, sized, with_pages};
ghost use Rattle.database_file.specs.WritingParts.{counted};

use crate::comparing::compare;
use crate::database_file::DatabaseFile;
use crate::fault::FileFault;
use crate::keeping::{counted, keep_zeros, put_all};
use crate::reading::zeros;
use crate::span::PageSpan;
use lf_sqlite_pages::{PageStore, is_page_size, lock_page, sound_store};
use std::alloc::Global;

/// Whether some bytes are whole data pages of `page_size` bytes from page `first` on.

pub fn are_data_pages(page_size: u32, first: u32, bytes: &[u8]) -> bool
    requires { 0 < page_size }
    ensures { IsTrue result ↔ AreDataPages page_size first bytes.now }
{
    let count = (bytes.len() / page_size as usize) as u64;
    let whole = bytes.len() % page_size as usize == 0;
    let end = u64::from(first) + count;
    let lock_page = u64::from(lock_page(page_size));
    let holds_data = lock_page < u64::from(first) || end <= lock_page;
    count > 0 && whole && first > 0 && end < 0x1_0000_0000 && holds_data
}

impl DatabaseFile {
    /// Whether the file takes pages of `size` bytes over an image of `commit` pages of `page_size`
    /// bytes: it is a page size, and that of the image and of the file where they have pages.
    pub fn takes_pages(&self, page_size: u32, commit: u32, size: u32) -> bool
        ensures { IsTrue result ↔ TakesPages self.now page_size commit size }
    {
        is_page_size(size)
            && (commit == 0 || size == page_size)
            && (self.count_over(commit) == 0 || size == self.size_over(page_size, commit))
    }

    /// Writes whole data pages of `page_size` bytes from page `first` on. A gap before them holds
    /// zeros. Each page is compared with the image's, and kept only where it is another.
    pub fn write_pages<S: PageStore>(
        &mut self,
        alloc: Global,
        base: &mut S,
        page_size: u32,
        first: u32,
        bytes: &[u8],
    ) -> Result<(), FileFault>
        requires fits { FitsShape self.old (S.page_size base.old) (S.commit base.old) }
        requires size { TakesPages self.old (S.page_size base.old) (S.commit base.old) page_size }
        requires pages { AreDataPages page_size first bytes.now }
        ensures written { OnOk result (IfSome (S.image base.old) (λ i. as_read self.new i ≡ with_pages (as_read self.old i) page_size first bytes.now)) }
        ensures differs { OnOk result (IfSome (S.image base.old) (λ i. KeepsDifferences self.old i → KeepsDifferences self.new i)) }
        ensures fits { OnOk result (FitsShape self.new (S.page_size base.old) (S.commit base.old)) }
        ensures err { OnErr result (self.new ≡ self.old) }
        ensures faults { OnOk result (S.faults base.new ≡ S.faults base.old) }
        ensures cause { IfErr result (HasCause (S.faults base.old) (S.faults base.new)) }
        ensures base { SameBase S.PageStore base.old base.new }
    {
        sound_store(base);
        let commit = base.commit();
        let count = self.count_over(commit);
        let blank = zeros(alloc, page_size as usize)?;
        let mut standing = zeros(alloc, page_size as usize)?;
        let same = compare(alloc, base, page_size, first, bytes)?;
        let before = first - 1;
        let pages = same.len() as u32;
        keep_zeros(
            &mut self.kept,
            base,
            PageSpan {
                before: count,
                after: before.min(commit),
            },
            blank.as_slice(),
            standing.as_mut_slice(),
            pages,
        )?;
        put_all(
            &mut self.kept,
            first,
            bytes,
            page_size as usize,
            same.as_slice(),
        );
        self.settle(page_size, count.max(before + pages), commit);
        Ok(())
    }

    /// Cuts the file to `pages` pages of `page_size` bytes, or grows it to them with zeros.
    pub fn resize<S: PageStore>(
        &mut self,
        alloc: Global,
        base: &mut S,
        page_size: u32,
        pages: u32,
    ) -> Result<(), FileFault>
        requires fits { FitsShape self.old (S.page_size base.old) (S.commit base.old) }
        requires size { TakesPages self.old (S.page_size base.old) (S.commit base.old) page_size }
        ensures sized { OnOk result (IfSome (S.image base.old) (λ i. as_read self.new i ≡ sized (as_read self.old i) page_size pages)) }
        ensures differs { OnOk result (IfSome (S.image base.old) (λ i. KeepsDifferences self.old i → KeepsDifferences self.new i)) }
        ensures fits { OnOk result (FitsShape self.new (S.page_size base.old) (S.commit base.old)) }
        ensures err { OnErr result (self.new ≡ self.old) }
        ensures faults { OnOk result (S.faults base.new ≡ S.faults base.old) }
        ensures cause { IfErr result (HasCause (S.faults base.old) (S.faults base.new)) }
        ensures base { SameBase S.PageStore base.old base.new }
    {
        sound_store(base);
        let commit = base.commit();
        let count = self.count_over(commit);
        let blank = zeros(alloc, page_size as usize)?;
        let mut standing = zeros(alloc, page_size as usize)?;
        keep_zeros(
            &mut self.kept,
            base,
            PageSpan {
                before: count,
                after: pages.min(commit),
            },
            blank.as_slice(),
            standing.as_mut_slice(),
            0,
        )?;
        self.kept.cut(pages);
        self.settle(page_size, pages, commit);
        Ok(())
    }

    /// Notes the size of the pages and their number.
    fn settle(&mut self, page_size: u32, count: u32, commit: u32)
        ensures { self.new ≡ record { kept = self.old.kept; page_size = page_size; count = counted count commit } }
    {
        self.count = counted(count, commit);
        self.page_size = page_size;
    }
}
