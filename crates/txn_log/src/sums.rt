//! The table of page sums.
ghost use Rattle.std.specs.Prelude.{◌≡◌, ◌+◌, ◌<◌, ◌≤◌, ℕ, List, [], length, replicate, slice_index};
ghost use Rattle.page_checksum.specs.Sums.{flagged, joined, page_sum_of};
ghost use Rattle.lf_sqlite_pages.specs.Change.{empty_change};
ghost use Rattle.lf_sqlite_pages.specs.Complete.{completed};
ghost use Rattle.ltx_codec.specs.steps.ChangedSum.{joined_over};
ghost use Rattle.txn_log.specs.Draft.{AreSums, sum_after, sums_after};

use lf_sqlite_pages::{Change, PageWrite, lock_page};
use page_checksum::{CHECKSUM_FLAG, Sums, page_sum};
use std::alloc::Global;

/// The sums of the first `count` pages, taken together, where the page size is this one: its lock
/// page has no sum.
fn total_before(sums: &Sums, page_size: u32, count: u32) -> u64
    requires { 0 < page_size }
    ensures { result ≡ joined_over (sum_after sums.now.sums (empty_change page_size 0)) 1 count }
{
    let total = sums.joined_to(count);
    let lock = lock_page(page_size);
    if lock <= count {
        return total ^ sums.get(lock);
    }
    total
}

/// The sums of the pages of a change, one after another, as far as there is memory for them.
pub fn sums_of(alloc: Global, change: &Change) -> Vec<u64>
    ensures { AreSums result.items change.now.pages }
{
    let mut sums = Vec::new(alloc);
    if sums.reserve(change.pages().len()).is_err() {
        return sums;
    }
    for page in change.pages() {
        match sums.push(page_sum(page.number, page.bytes.as_slice())) {
            Ok(()) => {}
            Err(_) => return sums,
        }
    }
    sums
}

/// The sum of a page, which may be known at its place.
fn sum_of(known: &[u64], at: usize, page: &PageWrite) -> u64
    requires { at < length known.now → slice_index known.now at ≡ page_sum_of page.now.number page.now.bytes }
    ensures { result ≡ page_sum_of page.now.number page.now.bytes }
{
    match known.get(at) {
        Some(sum) => *sum,
        None => page_sum(page.number, page.bytes.as_slice()),
    }
}

/// The sums of the first `count` pages after a change, taken together.
fn total_to(sums: &Sums, change: &Change, known: &[u64], count: u32) -> u64
    requires { AreSums known.now change.now.pages }
    ensures { result ≡ joined_over (sum_after sums.now.sums change.now) 1 count }
{
    let mut total = total_before(sums, change.page_size(), count);
    let mut at = 0;
    for page in change.pages() {
        if page.number <= count {
            total ^= sums.get(page.number) ^ sum_of(known, at, page);
        }
        at += 1;
    }
    total
}

/// The sum of page `n`, past the old size of `count` pages, after a change made complete. `zeros` are
/// a page of zeros.
fn sum_past(change: &Change, zeros: &[u8], count: u32, n: u32) -> u64
    requires past { count < n }
    requires last { n ≤ change.now.commit }
    requires zeros { zeros.now ≡ replicate change.now.page_size 0 }
    ensures { (sums : List ℕ) → result ≡ sum_after sums (completed change.now count) n }
{
    if n == lock_page(change.page_size()) {
        return 0;
    }
    match change.page(n) {
        Some(page) => page_sum(n, page),
        None => page_sum(n, zeros),
    }
}

/// The sum of the database after a change made complete over `count` pages.
pub fn total_behind(sums: &Sums, change: &Change, count: u32) -> u64
    ensures { result ≡ flagged (joined (sums_after sums.now.sums (completed change.now count))) }
{
    let zeros = zeros();
    let (zeros, _) = zeros.split_at(change.page_size() as usize);
    let stay = count.min(change.commit());
    let mut total = total_to(sums, change, &[], stay);
    for page in stay..change.commit() {
        total ^= sum_past(change, zeros, count, page + 1);
    }
    total | CHECKSUM_FLAG
}

/// The sum of the database after a change, of whose pages these sums are known.
pub fn total_after(sums: &Sums, change: &Change, known: &[u64]) -> u64
    requires { AreSums known.now change.now.pages }
    ensures { result ≡ flagged (joined (sums_after sums.now.sums change.now)) }
{
    total_to(sums, change, known, change.commit()) | CHECKSUM_FLAG
}

/// Gives the table so many pages, where the page size is this one: its lock page has no sum.
fn resize(sums: &mut Sums, page_size: u32, count: u32)
    requires room { count ≤ length sums.old.sums + sums.old.spare }
    requires sized { 0 < page_size }
    ensures { sums.new.sums ≡ sums_after sums.old.sums (empty_change page_size count) }
{
    sums.resize(count);
    let lock = lock_page(page_size);
    if lock <= count {
        sums.set(lock, 0);
    }
}

/// Makes the table that of the database after a change, of whose pages these sums are known.
pub fn update(sums: &mut Sums, change: &Change, known: &[u64])
    requires room { change.now.commit ≤ length sums.old.sums + sums.old.spare }
    requires known { AreSums known.now change.now.pages }
    ensures { sums.new.sums ≡ sums_after sums.old.sums change.now }
{
    resize(sums, change.page_size(), change.commit());
    let mut at = 0;
    for page in change.pages() {
        sums.set(page.number, sum_of(known, at, page));
        at += 1;
    }
}

/// As many zeros as SQLite's largest page has bytes.
pub fn zeros() -> [u8; 65536]
    ensures { result ≡ replicate 65536 0 }
{
    [0; 65536]
}
