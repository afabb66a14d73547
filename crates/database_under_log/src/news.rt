//! What the log writes over an image, past the image's end by older frames too.
ghost use Rattle.std.specs.Prelude.{◌≡◌, ◌≢◌, ◌+◌, ◌++◌, ◌≤◌, ◌<◌, length, None, Some, [], List, ℕ, IfOk, OnOk, replicate};
ghost use Rattle.lf_sqlite_pages.specs.Change.{last_number, written};
ghost use Rattle.database_file.specs.CommitParts.{WritesTo, one_write};
ghost use Rattle.std.specs.FinMap as pages;
ghost use Rattle.database_file.specs.WalCommit.{change_over};
ghost use Rattle.wal_watch.specs.File.{contents_of};
ghost use Rattle.wal_watch.specs.Frames.{page_size_in, committed_count};
ghost use Rattle.wal_watch.specs.News.{change_of, changed_page, last_size};
ghost use Rattle.lf_sqlite_pages.specs.declared.page_write.PageWrite.{PageWrite};
ghost use Rattle.database_under_log.specs.LogChange.{log_news};
ghost use Rattle.database_under_log.specs.LogChangeParts.{joined};

use database_file::{DatabaseFile, push_within};
use lf_base::NoMemory;
use lf_sqlite_pages::{Change, lock_page};
use std::alloc::Global;
use wal_watch::WalFile;

/// Zeros, so many.
pub(crate) fn zeros(alloc: Global, size: usize) -> Result<Vec<u8>, NoMemory>
    ensures zeros { IfOk result (λ page. page.items ≡ replicate size 0) }
    ensures size { IfOk result (λ page. length page.items ≡ size) }
{
    let bytes = vec![in alloc; 0; size]?;
    Ok(bytes)
}

/// What the log writes over an image of `commit` pages. `news` has the latest of the new frames of
/// each page; past the image's end the latest frame of all counts.
pub(crate) fn with_older(
    alloc: Global,
    log: &WalFile,
    news: Change,
    commit: u32,
) -> Result<Change, NoMemory>
    requires some { 0 < committed_count (contents_of log.now) }
    requires size { news.page_size ≡ page_size_in (contents_of log.now) }
    requires count { news.commit ≡ last_size (contents_of log.now) }
    ensures news { IfOk result (λ change. (first : ℕ) → news ≡ change_of (contents_of log.now) first (committed_count (contents_of log.now)) → change ≡ log_news (contents_of log.now) first commit) }
    ensures size { IfOk result (λ change. change.page_size ≡ news.page_size) }
{
    news.sound();
    if news.commit() <= commit {
        return Ok(news);
    }
    let page_size = news.page_size();
    let mut page = zeros(alloc, page_size as usize)?;
    let mut change = Change::new(alloc, page_size, news.commit());
    push_within(&news, &mut change, commit)?;
    push_past(log, &mut change, commit, page.as_mut_slice())?;
    Ok(change)
}

/// Adds the latest frame of each data page past the first `count` pages. Frames are read into a
/// buffer of their size.
fn push_past(
    log: &WalFile,
    change: &mut Change,
    count: u32,
    page: &mut [u8],
) -> Result<(), NoMemory>
    requires some { 0 < committed_count (contents_of log.now) }
    requires size { change.old.page_size ≡ page_size_in (contents_of log.now) }
    requires commit { change.old.commit ≡ last_size (contents_of log.now) }
    requires last { last_number change.old.pages ≤ count }
    requires whole { length page.old ≡ page_size_in (contents_of log.now) }
    ensures { OnOk result ((writes : List PageWrite) → WritesTo (written writes) count change.old.pages → change.new ≡ joined writes (contents_of log.now) count) }
{
    for before in count..change.commit() {
        push_latest(log, change, before + 1, page)?;
    }
    change.sound();
    Ok(())
}

/// Adds the latest frame of page `n`, if it is a data page and there is one.
fn push_latest(log: &WalFile, change: &mut Change, n: u32, page: &mut [u8]) -> Result<(), NoMemory>
    requires some { 0 < committed_count (contents_of log.now) }
    requires size { change.old.page_size ≡ page_size_in (contents_of log.now) }
    requires last { last_number change.old.pages < n }
    requires within { n ≤ change.old.commit }
    requires whole { length page.old ≡ page_size_in (contents_of log.now) }
    ensures ok { OnOk result (change.new ≡ record change.old { pages = change.old.pages ++ one_write n (changed_page (contents_of log.now) 0 (committed_count (contents_of log.now)) n) }) }
    ensures last { OnOk result (last_number change.new.pages ≤ n) }
    ensures whole { length page.new ≡ length page.old }
{
    if n == lock_page(change.page_size()) || !log.latest(n, page) {
        return Ok(());
    }
    change.push(n, page)
}

/// The change that the log's news make of an image of `commit` pages: past the image's end each data
/// page is in it, as the log or else the file has it.
pub(crate) fn log_change(
    alloc: Global,
    file: &DatabaseFile,
    log: &WalFile,
    news: Change,
    commit: u32,
) -> Result<Change, NoMemory>
    requires some { 0 < committed_count (contents_of log.now) }
    requires size { news.page_size ≡ page_size_in (contents_of log.now) }
    requires count { news.commit ≡ last_size (contents_of log.now) }
    requires whole { (n : ℕ) → (page : List ℕ) → pages.get file.now.kept n ≡ Some page → length page ≡ page_size_in (contents_of log.now) }
    ensures { IfOk result (λ change. (first : ℕ) → news ≡ change_of (contents_of log.now) first (committed_count (contents_of log.now))
        → change ≡ change_over file.now (log_news (contents_of log.now) first commit) commit) }
{
    let newest = with_older(alloc, log, news, commit)?;
    file.change_over(alloc, newest, commit)
}
