//! The change of a commit in the write-ahead log.
ghost use Rattle.std.specs.Prelude.{◌≡◌, ◌++◌, ◌≤◌, ◌<◌, length, None, Some, [], List, ℕ, IfOk, OnOk, replicate, unwrap_or};
ghost use Rattle.std.specs.FinMap as pages;
ghost use Rattle.lf_sqlite_pages.specs.LockPage.{IsDataPage};
ghost use Rattle.lf_sqlite_pages.specs.Change.{last_number, written};
ghost use Rattle.database_file.specs.CommitParts.{WritesTo, one_write};
ghost use Rattle.database_file.specs.WalCommit.{change_over, change_page};

use crate::database_file::DatabaseFile;
use crate::reading::zeros;
use crate::within::push_within;
use lf_base::NoMemory;
use lf_sqlite_pages::{Change, lock_page};
use std::alloc::Global;

impl DatabaseFile {
    /// The change of a commit in the log over an image of `commit` pages. `news` has the newest page
    /// of each number that the log writes: of the new frames, and past the image's end of older ones
    /// too. Past that end each other data page is added, as the file has it, else as zeros.
    #[tactic(auto, using(crate::proofs::WalLemmas::over_same))]
    pub fn change_over(&self, alloc: Global, news: Change, commit: u32) -> Result<Change, NoMemory>
        requires whole { (n : ℕ) → (page : List ℕ) → pages.get self.now.kept n ≡ Some page → length page ≡ news.page_size }
        ensures { IfOk result (λ change. change ≡ change_over self.now news commit) }
    {
        news.sound();
        if news.commit() <= commit {
            return Ok(news);
        }
        let page_size = news.page_size();
        let blank = zeros(alloc, page_size as usize)?;
        let mut change = Change::new(alloc, page_size, news.commit());
        self.push_old(&news, &mut change, commit)?;
        self.push_new(&news, &mut change, commit, blank.as_slice())?;
        Ok(change)
    }

    /// Adds the pages of the log within the image.
    fn push_old(&self, news: &Change, change: &mut Change, commit: u32) -> Result<(), NoMemory>
        requires empty { change.old.pages ≡ [] }
        requires size { change.old.page_size ≡ news.now.page_size }
        requires count { change.old.commit ≡ news.now.commit }
        ensures size { OnOk result (change.new.page_size ≡ change.old.page_size) }
        ensures count { OnOk result (change.new.commit ≡ change.old.commit) }
        ensures last { OnOk result (last_number change.new.pages ≤ commit) }
        ensures writes { OnOk result (WritesTo (change_page self.now news.now commit) commit change.new.pages) }
    {
        news.sound();
        push_within(news, change, commit)?;
        Ok(())
    }

    /// Adds each data page past the image.
    fn push_new(
        &self,
        news: &Change,
        change: &mut Change,
        commit: u32,
        blank: &[u8],
    ) -> Result<(), NoMemory>
        requires kept { (n : ℕ) → (page : List ℕ) → pages.get self.now.kept n ≡ Some page → length page ≡ news.now.page_size }
        requires size { change.old.page_size ≡ news.now.page_size }
        requires count { change.old.commit ≡ news.now.commit }
        requires last { last_number change.old.pages ≤ commit }
        requires blank { blank.now ≡ replicate news.now.page_size 0 }
        requires whole { length blank.now ≡ news.now.page_size }
        requires writes { WritesTo (change_page self.now news.now commit) commit change.old.pages }
        ensures { OnOk result (change.new ≡ change_over self.now news.now commit) }
    {
        for before in commit..news.commit() {
            self.push_over(news, change, before + 1, blank)?;
        }
        change.sound();
        Ok(())
    }

    /// Adds page `n` past the image, if it is a data page.
    fn push_over(
        &self,
        news: &Change,
        change: &mut Change,
        n: u32,
        blank: &[u8],
    ) -> Result<(), NoMemory>
        requires kept { (page : List ℕ) → pages.get self.now.kept n ≡ Some page → length page ≡ news.now.page_size }
        requires size { change.old.page_size ≡ news.now.page_size }
        requires count { change.old.commit ≡ news.now.commit }
        requires last { last_number change.old.pages < n }
        requires within { n ≤ news.now.commit }
        requires whole { length blank.now ≡ news.now.page_size }
        requires blank { blank.now ≡ replicate news.now.page_size 0 }
        ensures ok { OnOk result ((commit : ℕ) → commit < n → change.new ≡ record change.old { pages = change.old.pages ++ one_write n (change_page self.now news.now commit n) }) }
        ensures last { OnOk result (last_number change.new.pages ≤ n) }
    {
        if n == lock_page(news.page_size()) {
            return Ok(());
        }
        change.push(n, self.page_past(news, n, blank))
    }

    /// The bytes of page `n` past the image: the log's, else those that are kept, else zeros.
    #[tactic(auto, using(crate::proofs::WalLemmas::news_whole))]
    fn page_past<'a>(&'a self, news: &'a Change, n: u32, blank: &'a [u8]) -> &'a [u8]
        requires kept { (page : List ℕ) → pages.get self.now.kept n ≡ Some page → length page ≡ length blank.now }
        requires size { length blank.now ≡ news.now.page_size }
        ensures value { result.now ≡ unwrap_or (written news.now.pages n) (unwrap_or (pages.get self.now.kept n) blank.now) }
        ensures whole { length result.now ≡ length blank.now }
    {
        news.sound();
        if let Some(page) = news.page(n) {
            return page;
        }
        match self.kept.get(n) {
            Some(page) => page,
            None => blank,
        }
    }
}
