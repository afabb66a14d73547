//! The database file, and a write to the log that waits for its commit: the file keeps pages for it
//! until it is finished, forgotten or overtaken by another image. Meanwhile it reads as before.
ghost use Rattle.std.specs.Prelude.{◌≡◌, ◌+◌, ◌≤◌, ◌<◌, is_some, None, Some, Ok, IsSome, IsTrue, IfSome, IfOk, IfErr, OnOk, OnErr, length};
ghost use Rattle.std.specs.FinMap as pages;
ghost use Rattle.std.specs.Option.{option_map};
ghost use Rattle.lf_sqlite_pages.specs.Blocks.{IsWithin};
ghost use Rattle.lf_sqlite_pages.specs.Image.{image_bytes};
ghost use Rattle.database_file.specs.Commit.{IsChangeOf, LeadsTo, committed_image};
ghost use Rattle.database_file.specs.DatabaseFile.{FitsShape, KeepsDifferences, KeepsNothing, as_read, bytes_from, clean, count_over, is_clean, new_file, size_over};
ghost use Rattle.database_file.specs.Fault.{HasCause, SameBase};
ghost use Rattle.database_file.specs.Writing.{AreDataPages, TakesPages, sized, with_pages};
ghost use Rattle.wal_watch.specs.File.{contents_of, after_write};
ghost use Rattle.file_view.specs.DatabaseState.{HeldWrite, overtaken};

use database_file::{DatabaseFile, FileFault};
use database_under_log::{WaitingWrite, finish_log_write, forget_log_write, read_before};
use lf_sqlite_pages::{Change, PageStore};
use std::alloc::Global;
use std::marker::Model;
use wal_watch::WalFile;

/// A write to the log that waits for its commit, of so many bytes at a place.
#[derive(Drop)]
pub(crate) struct Held {
    pub(crate) at: u64,
    pub(crate) len: u64,
    /// How many pages the file kept before, and whether it was the committed image.
    pub(crate) kept: usize,
    pub(crate) clean: bool,
    /// None once another image has come over it.
    pub(crate) write: Option<WaitingWrite>,
}

/// The database file with a write to the log in store.
#[derive(Drop)]
pub(crate) struct Database {
    pub(crate) file: DatabaseFile,
    pub(crate) held: Option<Held>,
}

impl Model for Database {
    ghost use Rattle.std.specs.Coded.{codes};
    ghost use Rattle.database_file.specs.DatabaseFile.{database_code};
    ghost use Rattle.file_view.specs.DatabaseState.{DatabaseState};

    ghost Value = { DatabaseState };

    ghost coded = { Prim.hlevel (codes, database_code) };

    ghost use Rattle.file_view.specs.HeldParts.{state_of, IsKept};

    ghost view = { state_of };

    ghost invariant = { IsKept };
}

impl Database {
    /// A file that keeps nothing, and no write.
    pub(crate) fn new(alloc: Global) -> Database
        ensures value { result ≡ record { file = new_file; held = None } }
        ensures fits { KeepsNothing result.file }
    {
        Database {
            file: DatabaseFile::new(alloc),
            held: None,
        }
    }

    /// Whether the file is the committed image.
    pub(crate) fn is_clean(&self) -> bool
        ensures { result ≡ is_clean self.now.file }
    {
        match &self.held {
            Some(held) => held.clean,
            None => self.file.is_clean(),
        }
    }

    /// How many pages the file keeps.
    pub(crate) fn kept_pages(&self) -> usize
        ensures { result ≡ pages.len self.now.file.kept }
    {
        match &self.held {
            Some(held) => held.kept,
            None => self.file.kept_pages(),
        }
    }

    /// The size of the file's pages over a committed image.
    pub(crate) fn size_over(&self, page_size: u32, commit: u32) -> u32
        ensures { result ≡ size_over self.now.file page_size commit }
    {
        self.file.size_over(page_size, commit)
    }

    /// The file's number of pages over a committed image.
    pub(crate) fn count_over(&self, commit: u32) -> u32
        ensures { result ≡ count_over self.now.file commit }
    {
        self.file.count_over(commit)
    }

    /// Whether a write to the log waits.
    pub(crate) fn waits(&self) -> bool
        ensures { result ≡ is_some self.now.held }
    {
        self.held.is_some()
    }

    /// Reads as many bytes of the file from `at` on as there are, at most `size`.
    pub(crate) fn read<S: PageStore>(
        &self,
        alloc: Global,
        base: &mut S,
        at: u64,
        size: u32,
    ) -> Result<Vec<u8>, FileFault>
        requires fits { FitsShape self.now.file (S.page_size base.old) (S.commit base.old) }
        ensures bytes { IfOk result (λ bytes. IfSome (S.image base.old) (λ i. bytes.items ≡ bytes_from (image_bytes (as_read self.now.file i)) at size)) }
        ensures faults { OnOk result (S.faults base.new ≡ S.faults base.old) }
        ensures cause { IfErr result (HasCause (S.faults base.old) (S.faults base.new)) }
        ensures base { SameBase S.PageStore base.old base.new }
    {
        match &self.held {
            None => self.file.read(alloc, base, at, size),
            Some(held) => match &held.write {
                None => self.file.read(alloc, base, at, size),
                Some(write) => read_before(alloc, &self.file, write, base, at, size),
            },
        }
    }

    /// Makes the file the committed image.
    pub(crate) fn clear(&mut self)
        requires { self.old.held ≡ None }
        ensures value { self.new ≡ record { file = clean self.old.file; held = None } }
        ensures fits { KeepsNothing self.new.file }
    {
        self.file.clear();
    }

    /// Writes whole data pages from page `first` on.
    pub(crate) fn write_pages<S: PageStore>(
        &mut self,
        alloc: Global,
        base: &mut S,
        page_size: u32,
        first: u32,
        bytes: &[u8],
    ) -> Result<(), FileFault>
        requires free { self.old.held ≡ None }
        requires fits { FitsShape self.old.file (S.page_size base.old) (S.commit base.old) }
        requires size { TakesPages self.old.file (S.page_size base.old) (S.commit base.old) page_size }
        requires pages { AreDataPages page_size first bytes.now }
        ensures held { self.new.held ≡ None }
        ensures written { OnOk result (IfSome (S.image base.old) (λ i. as_read self.new.file i ≡ with_pages (as_read self.old.file i) page_size first bytes.now)) }
        ensures differs { OnOk result (IfSome (S.image base.old) (λ i. KeepsDifferences self.old.file i → KeepsDifferences self.new.file i)) }
        ensures fits { OnOk result (FitsShape self.new.file (S.page_size base.old) (S.commit base.old)) }
        ensures err { OnErr result (self.new ≡ self.old) }
        ensures faults { OnOk result (S.faults base.new ≡ S.faults base.old) }
        ensures cause { IfErr result (HasCause (S.faults base.old) (S.faults base.new)) }
        ensures base { SameBase S.PageStore base.old base.new }
    {
        self.file.write_pages(alloc, base, page_size, first, bytes)
    }

    /// Cuts the file to so many pages, or grows it to them with zeros.
    pub(crate) fn resize<S: PageStore>(
        &mut self,
        alloc: Global,
        base: &mut S,
        page_size: u32,
        pages: u32,
    ) -> Result<(), FileFault>
        requires free { self.old.held ≡ None }
        requires fits { FitsShape self.old.file (S.page_size base.old) (S.commit base.old) }
        requires size { TakesPages self.old.file (S.page_size base.old) (S.commit base.old) page_size }
        ensures held { self.new.held ≡ None }
        ensures sized { OnOk result (IfSome (S.image base.old) (λ i. as_read self.new.file i ≡ sized (as_read self.old.file i) page_size pages)) }
        ensures differs { OnOk result (IfSome (S.image base.old) (λ i. KeepsDifferences self.old.file i → KeepsDifferences self.new.file i)) }
        ensures fits { OnOk result (FitsShape self.new.file (S.page_size base.old) (S.commit base.old)) }
        ensures err { OnErr result (self.new ≡ self.old) }
        ensures faults { OnOk result (S.faults base.new ≡ S.faults base.old) }
        ensures cause { IfErr result (HasCause (S.faults base.old) (S.faults base.new)) }
        ensures base { SameBase S.PageStore base.old base.new }
    {
        self.file.resize(alloc, base, page_size, pages)
    }

    /// The change that leads from the committed image to the file, cut to its header's size.
    pub(crate) fn commit_change<S: PageStore>(
        &self,
        alloc: Global,
        base: &mut S,
    ) -> Result<Option<Change>, FileFault>
        requires free { self.now.held ≡ None }
        requires fits { FitsShape self.now.file (S.page_size base.old) (S.commit base.old) }
        ensures told { IfOk result (λ change. IfSome (S.image base.old) (λ i. KeepsDifferences self.now.file i → LeadsTo i (committed_image self.now.file i) change)) }
        ensures value { IfOk result (λ change. IfSome change (IsChangeOf self.now.file (S.page_size base.old) (S.commit base.old))) }
        ensures clean { IsTrue (is_clean self.now.file) → result ≡ Ok None }
        ensures faults { OnOk result (S.faults base.new ≡ S.faults base.old) }
        ensures cause { IfErr result (HasCause (S.faults base.old) (S.faults base.new)) }
        ensures base { SameBase S.PageStore base.old base.new }
    {
        self.file.commit_change(alloc, base)
    }

    /// Forgets the write that waits, if one does.
    pub(crate) fn forget(&mut self)
        ensures { self.new ≡ record { file = self.old.file; held = None } }
    {
        if let Some(held) = self.held.take() {
            if let Some(write) = held.write {
                forget_log_write(&mut self.file, write);
            }
        }
    }

    /// Makes the file the committed image, which is another now, and leaves nothing to write of a write
    /// that waits.
    pub(crate) fn overtake(&mut self)
        ensures value { self.new ≡ record { file = clean self.old.file; held = option_map (overtaken self.old.file) self.old.held } }
        ensures fits { KeepsNothing self.new.file }
    {
        self.file.clear();
        if let Some(held) = self.held.take() {
            self.held = Some(Held {
                at: held.at,
                len: 0,
                kept: 0,
                clean: true,
                write: None,
            });
        }
    }

    /// Does the write that waits: it is in the log, and the file is as it is to be then.
    pub(crate) fn finish(&mut self, log: &mut WalFile)
        requires some { IsSome self.old.held }
        requires there { IsSome log.old.contents }
        requires room { (w : HeldWrite) → self.old.held ≡ Some w → IsWithin log.old.room w.at (length w.bytes) }
        ensures file { (w : HeldWrite) → self.old.held ≡ Some w → self.new ≡ record { file = w.file; held = None } }
        ensures contents { (w : HeldWrite) → self.old.held ≡ Some w → contents_of log.new ≡ contents_of (after_write log.old w.at w.bytes) }
        ensures there { IsSome log.new.contents }
    {
        if let Some(held) = self.held.take() {
            match held.write {
                Some(write) => finish_log_write(&mut self.file, log, write),
                None => self.file.clear(),
            }
        }
    }

    /// The range that the write which waits is to write, if one waits: its place and its length.
    pub(crate) fn held_range(&self) -> Option<(u64, u64)>
        ensures { result ≡ option_map (λ w. (w.at, length w.bytes)) self.now.held }
    {
        let held = self.held.as_ref()?;
        Some((held.at, held.len))
    }
}
