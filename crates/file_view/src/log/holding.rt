//! A write to the log, done at once or held until its commit; and what it would commit, told by a write
//! that is taken back.
ghost use Rattle.std.specs.Prelude.{◌≡◌, ◌+◌, ◌≤◌, ◌<◌, false, None, IsSome, IfSome, IfOk, IfErr, OnOk, OnErr, length};
ghost use Rattle.lf_base.specs.FileBytes.{written};
ghost use Rattle.lf_sqlite_pages.specs.Blocks.{IsWithin};
ghost use Rattle.database_file.specs.DatabaseFile.{FitsShape};
ghost use Rattle.database_file.specs.Fault.{HasCause, SameBase};
ghost use Rattle.database_under_log.specs.Fault.{HasWriteCause, wanted_size};
ghost use Rattle.database_under_log.specs.Over.{FollowsLog};
ghost use Rattle.database_under_log.specs.Staying.{forgotten};
ghost use Rattle.database_under_log.specs.Waiting.{MayChangeHeader};
ghost use Rattle.wal_watch.specs.File.{contents_of};
ghost use Rattle.wal_watch.specs.News.{news_change};
ghost use Rattle.wal_watch.specs.Refusals.{wal_limit, IsSoundWrite};
ghost use Rattle.file_view.specs.HeldParts.{IsSettled, LogWrites, LogWrote};
ghost use Rattle.file_view.specs.LogParts.{makes_too_many};
ghost use Rattle.file_view.specs.LogRules.{commits_too_many};

use crate::database::holding::{Database, Held};
use database_file::{DatabaseFile, FileFault};
use database_under_log::{
    LogCommit, LogWrite, LogWriteFault, forget_log_write, leaves_image, prepare_log_write,
};
use lf_base::NoMemory;
use lf_sqlite_pages::{Change, PageStore, is_within_limit, sound_store};
use std::alloc::Global;
use wal_watch::{WalFile, WalNews};

/// Sees to it that there is room for a write beside the one that waits, which keeps its room.
fn reserve_beside(log: &mut WalFile, held: (u64, u64), at: u64, count: u64) -> Result<(), NoMemory>
    requires held { IsWithin log.old.room held.0 held.1 }
    requires short { at + count ≤ wal_limit }
    ensures contents { log.new.contents ≡ log.old.contents }
    ensures held { IsWithin log.new.room held.0 held.1 }
    ensures room { OnOk result (IsWithin log.new.room at count) }
{
    log.sound_room(held.0, held.1);
    let from = at.min(held.0);
    let to = (at + count).max(held.0 + held.1);
    match log.reserve(from, to - from) {
        Ok(()) => Ok(()),
        Err(_) => Err(NoMemory),
    }
}

/// Whether the change that a write tells makes a database past the limit.
fn makes_too_many(news: &WalNews) -> bool
    ensures { result ≡ makes_too_many (news_change news.now) }
{
    match news {
        WalNews::Stored => false,
        WalNews::Committed(change) => !is_within_limit(change.page_size(), change.commit()),
    }
}

/// Writes to the log and takes that back: whether it commits a database past the limit.
fn tried(log: &mut WalFile, page_size: u32, at: u64, bytes: &[u8]) -> Result<bool, NoMemory>
    requires there { IsSome log.old.contents }
    requires sound { IsSoundWrite (contents_of log.old) page_size at bytes.now }
    ensures value { IfOk result (λ many. many ≡ commits_too_many (contents_of log.old) (written at bytes.now (contents_of log.old))) }
    ensures contents { log.new.contents ≡ log.old.contents }
    ensures room { IsWithin log.old.room at (length bytes.now) → log.new.room ≡ log.old.room }
{
    match log.write(page_size, at, bytes) {
        Ok(news) => {
            log.undo();
            Ok(makes_too_many(&news))
        }
        Err(_) => Err(NoMemory),
    }
}

/// Whether a write to the log commits a database past the limit. Where another one waits, of so many
/// bytes at a place, that keeps its room.
pub fn commits_too_many(
    log: &mut WalFile,
    held: Option<(u64, u64)>,
    page_size: u32,
    at: u64,
    bytes: &[u8],
) -> Result<bool, NoMemory>
    requires there { IsSome log.old.contents }
    requires sound { IsSoundWrite (contents_of log.old) page_size at bytes.now }
    requires held { IfSome held (λ range. IsWithin log.old.room range.0 range.1) }
    ensures value { IfOk result (λ many. many ≡ commits_too_many (contents_of log.old) (written at bytes.now (contents_of log.old))) }
    ensures contents { log.new.contents ≡ log.old.contents }
    ensures held { IfSome held (λ range. IsWithin log.new.room range.0 range.1) }
{
    if let Some(range) = held {
        reserve_beside(log, range, at, bytes.len() as u64)?;
    }
    tried(log, page_size, at, bytes)
}

/// The commit, where it alters the image; else its write is forgotten, as it is after a fault.
fn settle_commit<S: PageStore>(
    alloc: Global,
    file: &mut DatabaseFile,
    base: &mut S,
    commit: LogCommit,
) -> Result<Option<LogCommit>, FileFault>
    requires sized { 0 < S.commit base.old → S.page_size base.old ≡ commit.change.page_size }
    ensures settled { IfOk result (λ c. IsSettled (S.image base.old) (S.commit base.old) commit file.old c file.new) }
    ensures err_file { OnErr result (file.new ≡ forgotten file.old commit.write) }
    ensures cause { IfErr result (HasCause (S.faults base.old) (S.faults base.new)) }
    ensures base { SameBase S.PageStore base.old base.new }
{
    match leaves_image(alloc, base, &commit.change) {
        Ok(false) => Ok(Some(commit)),
        Ok(true) => {
            forget_log_write(file, commit.write);
            Ok(None)
        }
        Err(fault) => {
            forget_log_write(file, commit.write);
            Err(fault)
        }
    }
}

/// Writes bytes to the log at a place: done at once where they commit nothing that alters the image,
/// else prepared for that commit. After a fault file and bytes are as before.
fn write_or_prepare<S: PageStore>(
    alloc: Global,
    file: &mut DatabaseFile,
    log: &mut WalFile,
    base: &mut S,
    at: u64,
    bytes: &[u8],
) -> Result<Option<LogCommit>, LogWriteFault>
    requires there { IsSome log.old.contents }
    requires fits { FitsShape file.old (S.page_size base.old) (S.commit base.old) }
    requires follows { FollowsLog file.old (S.page_size base.old) (S.commit base.old) (contents_of log.old) }
    requires sound { IsSoundWrite (contents_of log.old) (wanted_size (S.page_size base.old) (S.commit base.old)) at bytes.now }
    requires header { MayChangeHeader file.old (contents_of log.old) (written at bytes.now (contents_of log.old)) }
    ensures done { IfOk result (λ c. LogWrites (S.image base.old) (S.page_size base.old) (S.commit base.old) file.old log.old at bytes.now c file.new log.new) }
    ensures limit { OnOk result (commits_too_many (contents_of log.old) (written at bytes.now (contents_of log.old)) ≡ false) }
    ensures err_file { OnErr result (file.new ≡ file.old) }
    ensures err_log { OnErr result (log.new.contents ≡ log.old.contents) }
    ensures cause { IfErr result (HasWriteCause (contents_of log.old) (wanted_size (S.page_size base.old) (S.commit base.old)) at bytes.now (S.faults base.old) (S.faults base.new)) }
    ensures base { SameBase S.PageStore base.old base.new }
{
    sound_store(base);
    match prepare_log_write(alloc, file, log, base, at, bytes)? {
        LogWrite::Stored => Ok(None),
        LogWrite::Waiting(commit) => match settle_commit(alloc, file, base, commit)? {
            Some(commit) => Ok(Some(commit)),
            None => {
                log.write_within(at, bytes);
                Ok(None)
            }
        },
    }
}

impl Database {
    /// Writes bytes to the log at a place. Where they commit a change that alters the image, that is
    /// told, and the write waits for it; else it is done.
    pub(crate) fn write_log<S: PageStore>(
        &mut self,
        alloc: Global,
        log: &mut WalFile,
        base: &mut S,
        at: u64,
        bytes: &[u8],
    ) -> Result<Option<Change>, LogWriteFault>
        requires free { self.old.held ≡ None }
        requires there { IsSome log.old.contents }
        requires fits { FitsShape self.old.file (S.page_size base.old) (S.commit base.old) }
        requires follows { FollowsLog self.old.file (S.page_size base.old) (S.commit base.old) (contents_of log.old) }
        requires sound { IsSoundWrite (contents_of log.old) (wanted_size (S.page_size base.old) (S.commit base.old)) at bytes.now }
        requires header { MayChangeHeader self.old.file (contents_of log.old) (written at bytes.now (contents_of log.old)) }
        ensures done { IfOk result (λ change. LogWrote (S.image base.old) (S.page_size base.old) (S.commit base.old) self.old log.old at bytes.now change self.new log.new) }
        ensures limit { OnOk result (commits_too_many (contents_of log.old) (written at bytes.now (contents_of log.old)) ≡ false) }
        ensures err { OnErr result (self.new ≡ self.old) }
        ensures err_log { OnErr result (log.new.contents ≡ log.old.contents) }
        ensures cause { IfErr result (HasWriteCause (contents_of log.old) (wanted_size (S.page_size base.old) (S.commit base.old)) at bytes.now (S.faults base.old) (S.faults base.new)) }
        ensures base { SameBase S.PageStore base.old base.new }
    {
        let kept = self.file.kept_pages();
        let clean = self.file.is_clean();
        match write_or_prepare(alloc, &mut self.file, log, base, at, bytes)? {
            None => Ok(None),
            Some(commit) => {
                self.held = Some(Held {
                    at,
                    len: bytes.len() as u64,
                    kept,
                    clean,
                    write: Some(commit.write),
                });
                Ok(Some(commit.change))
            }
        }
    }
}
