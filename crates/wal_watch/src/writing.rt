//! What a write tells, and when it is refused.
ghost use Rattle.std.specs.Prelude.{◌≡◌, ◌≢◌, ◌+◌, ◌≤◌, ◌↔◌, Err, length, take, IsTrue, IsSome, OnOk, OnErr, IfOk, IfErr};
ghost use Rattle.lf_base.specs.FileBytes.{written};
ghost use Rattle.wal_watch.specs.File.{contents_of, after_write, with_room, IsUnchanged};
ghost use Rattle.wal_watch.specs.News.{news_change, change_from, change_between, first_new};
ghost use Rattle.wal_watch.specs.Refusals.{wal_limit, IsSoundWrite, IsWriteFault, KeepsCommitted};

use crate::change::news_from;
use crate::check::{check_write, keeps_header};
use crate::fault::WalFault;
use crate::file::WalFile;
use crate::news::WalNews;
use lf_base::NoMemory;
use std::alloc::Global;

impl WalFile {
    /// The first frame that only the contents after a write may commit, or what stands against it.
    fn first_after(&self, page_size: u32, at: u64, bytes: &[u8]) -> Result<usize, WalFault>
        ensures first { IfOk result (λ first. first ≡ first_new (contents_of self.now) (written at bytes.now (contents_of self.now))) }
        ensures sound { OnOk result (IsSoundWrite (contents_of self.now) page_size at bytes.now) }
        ensures fault { IfErr result (IsWriteFault (contents_of self.now) page_size at bytes.now) }
        ensures memory { result ≢ Err WalFault.NoMemory }
    {
        check_write(
            &self.contents,
            self.committed(),
            self.committed_end() as usize,
            page_size,
            at,
            bytes,
        )
    }

    /// Whether a write would be refused and why, memory aside, told without doing it. `page_size` is
    /// that of the database, or 0 where any will do.
    pub fn check(&self, page_size: u32, at: u64, bytes: &[u8]) -> Result<(), WalFault>
        ensures sound { OnOk result (IsSoundWrite (contents_of self.now) page_size at bytes.now) }
        ensures cause { IfErr result (IsWriteFault (contents_of self.now) page_size at bytes.now) }
        ensures memory { result ≢ Err WalFault.NoMemory }
    {
        match self.first_after(page_size, at, bytes) {
            Ok(_first) => Ok(()),
            Err(fault) => Err(fault),
        }
    }

    /// Whether a write would change the first 32 bytes.
    pub fn changes_header(&self, at: u64, bytes: &[u8]) -> bool
        requires { at + length bytes.now ≤ wal_limit }
        ensures { IsTrue result ↔ (take 32 (written at bytes.now (contents_of self.now)) ≢ take 32 (contents_of self.now)) }
    {
        !keeps_header(&self.contents, at as usize, bytes)
    }

    /// What the committed frames from `first` on tell.
    fn news(&self, alloc: Global, first: usize) -> Result<WalNews, NoMemory>
        ensures { IfOk result (λ news. news_change news ≡ change_from first (contents_of self.now)) }
    {
        self.contents.sound();
        news_from(
            alloc,
            &self.contents,
            &self.index,
            self.page_size(),
            first,
            self.committed(),
        )
    }

    /// Writes bytes at a place and tells what they commit; a gap holds zeros. `page_size` is that of
    /// the database, or 0 where any will do.
    pub fn write(&mut self, page_size: u32, at: u64, bytes: &[u8]) -> Result<WalNews, WalFault>
        requires { IsSome self.old.contents }
        ensures news { IfOk result (λ news. news_change news ≡ change_between (contents_of self.old) (contents_of self.new)) }
        ensures contents { OnOk result (self.new ≡ after_write (with_room self.old at (length bytes.now)) at bytes.now) }
        ensures sound { OnOk result (IsSoundWrite (contents_of self.old) page_size at bytes.now) }
        ensures kept { OnOk result (KeepsCommitted (contents_of self.old) (contents_of self.new)) }

        // A refused write leaves the bytes, and what there was to undo. NoMemory comes only where
        // nothing else would.
        ensures err { OnErr result (IsUnchanged self.old at (length bytes.now) self.new) }
        ensures cause { IfErr result (IsWriteFault (contents_of self.old) page_size at bytes.now) }
        ensures refused { IfErr result (λ fault. fault ≢ WalFault.NoMemory → self.new ≡ self.old) }
    {
        let first = self.first_after(page_size, at, bytes)?;
        let alloc = *self.contents.allocator();
        self.make_room(at, bytes.len() as u64)?;
        self.write_within(at, bytes);
        match self.news(alloc, first) {
            Ok(news) => Ok(news),
            Err(NoMemory) => {
                self.undo();
                Err(WalFault::NoMemory)
            }
        }
    }
}
