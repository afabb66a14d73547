ghost use Rattle.std.specs.Prelude.{◌↔◌, IsTrue, ◌≡◌, ◌<◌, ◌≤◌, length, OnOk, OnErr};
ghost use Rattle.std.specs.Option.{option_copied};
ghost use Rattle.lf_sqlite_pages.specs.PageSize.{IsPageSize};
ghost use Rattle.lf_sqlite_pages.specs.LockPage.{IsDataPage};
ghost use Rattle.lf_sqlite_pages.specs.Change.{IsChange, empty_change, with_page, last_number, HoldsEveryPage, FitsOver, written};
ghost use Rattle.lf_sqlite_pages.specs.Complete.{completed};

use crate::limits::data_pages_to;
use crate::missing::missing_pages;
use crate::page_write::PageWrite;
use lf_base::{Bytes, NoMemory};
use std::alloc::Global;
use std::marker::Model;

/// What one transaction does to a database: its new number of pages, and the pages that it writes
/// in ascending order of their numbers.
#[derive(Debug, Drop)]
pub struct Change {
    page_size: u32,
    commit: u32,
    pages: Vec<PageWrite>,
}

impl Model for Change {
    ghost use Rattle.lf_sqlite_pages.specs.Change.{PageChange, IsChange};

    ghost Value = { PageChange };

    ghost view = { λ c. record { page_size = c.page_size; commit = c.commit; pages = c.pages.items } };

    ghost invariant = { λ c. IsChange (record { page_size = c.page_size; commit = c.commit; pages = c.pages.items }) };
}

impl Change {
    /// A change to `commit` pages that writes none yet.
    pub fn new(alloc: Global, page_size: u32, commit: u32) -> Change
        requires { IsPageSize page_size }
        ensures { result ≡ empty_change page_size commit }
    {
        Change {
            page_size,
            commit,
            pages: Vec::new(alloc),
        }
    }

    /// Adds a copy of data page `n`. Numbers come in ascending order.
    pub fn push(&mut self, n: u32, bytes: &[u8]) -> Result<(), NoMemory>
        requires ascending { last_number self.old.pages < n }
        requires within { n ≤ self.old.commit }
        requires holds_data { IsDataPage self.old.page_size n }
        requires whole { length bytes.now ≡ self.old.page_size }
        ensures ok { OnOk result (self.new ≡ with_page self.old n bytes.now) }
        ensures last { OnOk result (last_number self.new.pages ≡ n) }
        ensures err { OnErr result (self.new ≡ self.old) }
    {
        let alloc = *self.pages.allocator();
        let bytes = Bytes::of(Vec::from_slice(alloc, bytes)?);
        self.push_page(n, bytes)
    }

    /// Adds data page `n`, whose bytes move in. Numbers come in ascending order. After want of memory
    /// nothing changed, and the page is let go.
    pub fn push_page(&mut self, n: u32, bytes: Bytes) -> Result<(), NoMemory>
        requires ascending { last_number self.old.pages < n }
        requires within { n ≤ self.old.commit }
        requires holds_data { IsDataPage self.old.page_size n }
        requires whole { length bytes ≡ self.old.page_size }
        ensures ok { OnOk result (self.new ≡ with_page self.old n bytes) }
        ensures last { OnOk result (last_number self.new.pages ≡ n) }
        ensures err { OnErr result (self.new ≡ self.old) }
    {
        self.pages.push(PageWrite { number: n, bytes })?;
        Ok(())
    }

    /// Adds, as zeros, each data page past `pages` that this does not write, so that it says all of a
    /// database that had so many pages and grows. After want of memory nothing changed.
    pub fn complete(&mut self, pages: u32) -> Result<(), NoMemory>
        ensures ok { OnOk result (self.new ≡ completed self.old pages) }
        ensures err { OnErr result (self.new ≡ self.old) }
    {
        let alloc = *self.pages.allocator();
        let mut missing = missing_pages(alloc, self, pages)?;
        if !missing.is_empty() {
            self.pages.append(&mut missing)?;
            self.pages.sort_unstable_by_key(|w| w.number);
        }
        Ok(())
    }

    /// The size of each page in bytes.
    pub fn page_size(&self) -> u32
        ensures value { result ≡ self.now.page_size }
        ensures sqlite { IsPageSize result }
    {
        self.page_size
    }

    /// How many pages the database has after this change.
    pub fn commit(&self) -> u32
        ensures { result ≡ self.now.commit }
    {
        self.commit
    }

    /// Whether this writes each data page from 1 to its commit. As its numbers ascend, it does where
    /// it writes that many.
    pub fn holds_every_page(&self) -> bool
        ensures { IsTrue result ↔ HoldsEveryPage self.now }
    {
        self.pages.len() == data_pages_to(self.page_size, self.commit) as usize
    }

    /// Whether this can be applied to a database of `pages` pages of `page_size` bytes: it has the
    /// same page size, or no page of the database stays in place.
    pub fn fits(&self, page_size: u32, pages: u32) -> bool
        ensures { IsTrue result ↔ FitsOver page_size pages self.now }
    {
        page_size == self.page_size || pages == 0 || self.holds_every_page()
    }

    /// Whether both changes are the same: page size, commit, and the pages that they write.
    pub fn equals(&self, other: &Change) -> bool
        ensures { IsTrue result ↔ (self.now ≡ other.now) }
    {
        self.page_size == other.page_size
            && self.commit == other.commit
            && same_writes(self.pages.as_slice(), other.pages.as_slice())
    }

    /// The bytes that this writes at page `n`, if it writes that page.
    pub fn page(&self, n: u32) -> Option<&[u8]>
        ensures { option_copied result ≡ written self.now.pages n }
    {
        let writes = self.pages.as_slice();
        match writes.binary_search_by_key(&n, |w| w.number) {
            Ok(at) => Some(writes[at].bytes.as_slice()),
            Err(_) => None,
        }
    }

    /// The pages that this change writes, in ascending order of their numbers.
    pub fn pages(&self) -> &[PageWrite]
        ensures value { result.now ≡ self.now.pages }
        ensures valid { IsChange self.now }
    {
        self.pages.as_slice()
    }

    /// What is always true of a change. It does nothing: a caller's proof takes the fact from here.
    pub fn sound(&self)
        ensures { IsChange self.now }
    {
        self.pages();
    }

    /// The same pages, taken out of the change.
    pub fn into_pages(self) -> Vec<PageWrite>
        ensures value { result.items ≡ self.pages }
        ensures valid { IsChange self }
    {
        let Change {
            page_size: _,
            commit: _,
            pages,
        } = self;
        pages
    }
}

fn same_writes(ones: &[PageWrite], others: &[PageWrite]) -> bool
    ensures { IsTrue result ↔ (ones.now ≡ others.now) }
{
    if ones.len() != others.len() {
        return false;
    }
    for i in 0..ones.len() {
        if !ones[i].equals(&others[i]) {
            return false;
        }
    }
    true
}
