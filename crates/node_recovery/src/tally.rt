//! What is kept of pages whose bytes are not.
ghost use Rattle.std.specs.Prelude.{◌≡◌, ◌≤◌, ◌==◌, ℕ, [], length, false, IfOk, if◌then◌else◌};
ghost use Rattle.page_checksum.specs.Sums.{page_sum_of};
ghost use Rattle.page_checksum.specs.Table.{with_sum};
ghost use Rattle.lf_sqlite_pages.specs.Change.{empty_change};
ghost use Rattle.lf_sqlite_pages.specs.Header.{is_wal as says_wal};

use lf_base::NoMemory;
use lf_sqlite_pages::is_wal;
use page_checksum::{Sums, page_sum};
use std::alloc::Global;

/// The sum of each page of a database, 0 where it is not known yet, and whether page 1 says that
/// the database is in WAL mode.
#[derive(Drop)]
pub struct Tally {
    pub sums: Sums,
    pub wal: bool,
}

impl Tally {
    ghost use Rattle.node_recovery.specs.Summing.{IsTallied};

    /// No pages.
    pub fn none(alloc: Global) -> Tally
        ensures sums { result.sums.sums ≡ [] }
        ensures wal { result.wal ≡ false }
    {
        Tally {
            sums: Sums::new(alloc),
            wal: false,
        }
    }

    /// So many pages, of which nothing is known yet.
    pub fn of(alloc: Global, pages: u32) -> Result<Tally, NoMemory>
        ensures { IfOk result (λ tally. (size : ℕ) → IsTallied (empty_change size pages) tally) }
    {
        let mut sums = Sums::new(alloc);
        sums.reserve(pages)?;
        sums.resize(pages);
        Ok(Tally { sums, wal: false })
    }

    /// Takes note of page `n`.
    pub fn add(&mut self, n: u32, page: &[u8])
        requires first { 1 ≤ n }
        requires last { n ≤ length self.old.sums.sums }
        ensures sums { self.new.sums ≡ with_sum self.old.sums n (page_sum_of n page.now) }
        ensures wal { self.new.wal ≡ (if n == 1 then says_wal page.now else self.old.wal) }
    {
        self.sums.set(n, page_sum(n, page));
        if n == 1 {
            self.wal = is_wal(page);
        }
    }
}
