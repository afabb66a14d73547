//! The change that commits the database file.
ghost use Rattle.std.specs.Prelude.{◌≡◌, ◌++◌, ◌≤◌, ◌<◌, length, None, Some, Ok, IsTrue, if◌then◌else◌, [], List, ℕ, IsSome, IfSome, IfOk, IfErr, OnOk};
ghost use Rattle.std.specs.Option.{option_copied};
ghost use Rattle.std.specs.FinMap as pages;
ghost use Rattle.lf_base.specs.Faults.{CountsFaults};
ghost use Rattle.lf_sqlite_pages.specs.PageSize.{IsPageSize};
ghost use Rattle.lf_sqlite_pages.specs.LockPage.{IsDataPage};
ghost use Rattle.lf_sqlite_pages.specs.Change.{last_number};
ghost use Rattle.lf_sqlite_pages.specs.Header.{image_header_pages};
ghost use Rattle.lf_sqlite_pages.specs.Writes.{writes_of};
ghost use Rattle.database_file.specs.DatabaseFile.{FitsShape, KeepsDifferences, as_read, count_over, size_over, is_clean};
ghost use Rattle.database_file.specs.Commit.{IsChangeOf, LeadsTo, committed_image};
ghost use Rattle.database_file.specs.CommitParts.{changes_nothing, kept_to, one_write};
ghost use Rattle.database_file.specs.Fault.{HasCause, SameBase};

use crate::database_file::DatabaseFile;
use crate::fault::FileFault;
use crate::reading::zeros;
use lf_base::{Failed, NoMemory};
use lf_sqlite_pages::{Change, PageStore, header_pages, sound_store};
use std::alloc::Global;

/// The change, unless it changes nothing of an image of `commit` pages.
fn unless_nothing(change: Change, commit: u32) -> Option<Change>
    ensures { result ≡ (if changes_nothing change commit then None else Some change) }
{
    if change.commit() == commit && change.pages().is_empty() {
        None
    } else {
        Some(change)
    }
}

impl DatabaseFile {
    /// The change that commits the file: it leads from the image to the file, cut to its header's
    /// size, and writes the data pages that differ. `None` where the file is the image, or is it once
    /// it was cut.
    pub fn commit_change<S: PageStore>(
        &self,
        alloc: Global,
        base: &mut S,
    ) -> Result<Option<Change>, FileFault>
        requires fits { FitsShape self.now (S.page_size base.old) (S.commit base.old) }
        ensures told { IfOk result (λ change. IfSome (S.image base.old) (λ i. KeepsDifferences self.now i → LeadsTo i (committed_image self.now i) change)) }
        ensures value { IfOk result (λ change. IfSome change (IsChangeOf self.now (S.page_size base.old) (S.commit base.old))) }
        ensures clean { IsTrue (is_clean self.now) → result ≡ Ok None }
        ensures faults { OnOk result (S.faults base.new ≡ S.faults base.old) }
        ensures cause { IfErr result (HasCause (S.faults base.old) (S.faults base.new)) }
        ensures base { SameBase S.PageStore base.old base.new }
    {
        if self.is_clean() {
            return Ok(None);
        }
        let commit = base.commit();
        let page_size = self.size_over(base.page_size(), commit);
        let pages = self.header_pages(alloc, base)?;
        let mut change = self.kept_change(alloc, page_size, pages)?;
        change.complete(commit)?;
        Ok(unless_nothing(change, commit))
    }

    /// The number of pages that a commit leaves: the header's size of the file.
    fn header_pages<S: PageStore>(&self, alloc: Global, base: &mut S) -> Result<u32, FileFault>
        requires fits { FitsShape self.now (S.page_size base.old) (S.commit base.old) }
        ensures told { IfOk result (λ pages. IfSome (S.image base.old) (λ i. pages ≡ image_header_pages (as_read self.now i))) }
        ensures within { IfOk result (λ pages. pages ≤ count_over self.now (S.commit base.old)) }
        ensures faults { OnOk result (S.faults base.new ≡ S.faults base.old) }
        ensures cause { IfErr result (HasCause (S.faults base.old) (S.faults base.new)) }
        ensures base { SameBase S.PageStore base.old base.new }
    {
        let commit = base.commit();
        let page_size = self.size_over(base.page_size(), commit);
        let count = self.count_over(commit);
        if count == 0 {
            return Ok(0);
        }
        let mut first = zeros(alloc, page_size as usize)?;
        let pages = self.stated_pages(base, count, first.as_mut_slice())?;
        Ok(pages)
    }

    /// The same for a file that has pages; page 1 is read into a buffer of its size.
    fn stated_pages<S: PageStore>(
        &self,
        base: &mut S,
        count: u32,
        first: &mut [u8],
    ) -> Result<u32, Failed>
        requires fits { FitsShape self.now (S.page_size base.old) (S.commit base.old) }
        requires count { count ≡ count_over self.now (S.commit base.old) }
        requires some { 1 ≤ count }
        requires whole { length first.old ≡ size_over self.now (S.page_size base.old) (S.commit base.old) }
        ensures told { IfOk result (λ pages. IfSome (S.image base.old) (λ i. pages ≡ image_header_pages (as_read self.now i))) }
        ensures within { IfOk result (λ pages. pages ≤ count) }
        ensures cause { CountsFaults (S.faults base.old) (S.faults base.new) result }
        ensures base { SameBase S.PageStore base.old base.new }
    {
        sound_store(base);
        self.read_page(base, 1, first)?;
        Ok(header_pages(first, count))
    }

    /// The change to `count` pages of `page_size` bytes that writes each page that is kept up to them.
    fn kept_change(&self, alloc: Global, page_size: u32, count: u32) -> Result<Change, NoMemory>
        requires size { IsPageSize page_size }
        requires first { (n : ℕ) → (page : List ℕ) → pages.get self.now.kept n ≡ Some page → 1 ≤ n }
        requires whole { (n : ℕ) → (page : List ℕ) → pages.get self.now.kept n ≡ Some page → length page ≡ page_size }
        requires data_pages { (n : ℕ) → (page : List ℕ) → pages.get self.now.kept n ≡ Some page → IsDataPage page_size n }
        ensures { IfOk result (λ change. change ≡ record { page_size = page_size; commit = count; pages = writes_of (pages.get self.now.kept) count }) }
    {
        let numbers = self.kept.numbers()?;
        let mut change = Change::new(alloc, page_size, count);
        self.push_all(&mut change, numbers.as_slice())?;
        Ok(change)
    }

    /// Adds the pages of these numbers, which are those of all kept pages, that lie within the change.
    fn push_all(&self, change: &mut Change, numbers: &[u32]) -> Result<(), NoMemory>
        requires empty { change.old.pages ≡ [] }
        requires numbers { numbers.now ≡ pages.keys self.now.kept }
        requires first { (n : ℕ) → (page : List ℕ) → pages.get self.now.kept n ≡ Some page → 1 ≤ n }
        requires whole { (n : ℕ) → (page : List ℕ) → pages.get self.now.kept n ≡ Some page → length page ≡ change.old.page_size }
        requires data_pages { (n : ℕ) → (page : List ℕ) → pages.get self.now.kept n ≡ Some page → IsDataPage change.old.page_size n }
        ensures { OnOk result (change.new ≡ record change.old { pages = writes_of (pages.get self.now.kept) change.old.commit }) }
    {
        for at in 0..numbers.len() {
            self.push_kept(change, numbers[at])?;
        }
        change.sound();
        Ok(())
    }

    /// Adds page `n`, if it is kept and lies within the change.
    fn push_kept(&self, change: &mut Change, n: u32) -> Result<(), NoMemory>
        requires ascending { last_number change.old.pages < n }
        requires whole { (page : List ℕ) → pages.get self.now.kept n ≡ Some page → length page ≡ change.old.page_size }
        requires data_page { (page : List ℕ) → pages.get self.now.kept n ≡ Some page → IsDataPage change.old.page_size n }
        ensures ok { OnOk result (change.new ≡ record change.old { pages = change.old.pages ++ one_write n (kept_to self.now change.old.commit n) }) }
        ensures last { OnOk result (last_number change.new.pages ≤ n) }
    {
        match self.kept_to(change.commit(), n) {
            Some(page) => change.push(n, page),
            None => Ok(()),
        }
    }

    /// The bytes of page `n`, if it is kept and lies within `count` pages.
    #[tactic(auto, using(crate::proofs::ZeroLemmas::get_cut))]
    fn kept_to(&self, count: u32, n: u32) -> Option<&[u8]>
        ensures value { option_copied result ≡ kept_to self.now count n }
        ensures within { IsSome result → n ≤ count }
        ensures kept { IfSome result (λ page. pages.get self.now.kept n ≡ Some page.now) }
    {
        if n > count { None } else { self.kept.get(n) }
    }
}
