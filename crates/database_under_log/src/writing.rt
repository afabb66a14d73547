//! A write to the log: done where it commits nothing, else in two halves with the commit between.
ghost use Rattle.std.specs.Prelude.{◌≡◌, ◌≢◌, ℕ, ◌+◌, ◌≤◌, ◌<◌, ◌^◌, ◌==◌, length, IsSome, IfSome, IfOk, IfErr, OnOk, OnErr};
ghost use Rattle.lf_base.specs.FileBytes.{written};
ghost use Rattle.lf_sqlite_pages.specs.Blocks.{IsWithin};
ghost use Rattle.lf_sqlite_pages.specs.LockPage.{IsWithinLimit};
ghost use Rattle.wal_watch.specs.File.{contents_of, after_write};
ghost use Rattle.wal_watch.specs.Frames.{page_size_in, committed_count};
ghost use Rattle.wal_watch.specs.News.{change_of, last_size};
ghost use Rattle.database_file.specs.DatabaseFile.{FitsShape, KeepsDifferences, count_over, size_over};
ghost use Rattle.database_file.specs.Fault.{HasCause, SameBase};
ghost use Rattle.lf_sqlite_pages.specs.PageSize.{IsPageSize};
ghost use Rattle.database_under_log.specs.Fault.{HasWriteCause, HasCommitCause, wanted_size};
ghost use Rattle.database_under_log.specs.LogChange.{log_news};
ghost use Rattle.database_under_log.specs.Over.{Agrees, FollowsLog};
ghost use Rattle.database_under_log.specs.Staying.{finished, forgotten};
ghost use Rattle.database_file.specs.WalCommit.{change_over};
ghost use Rattle.database_under_log.specs.Waiting.{IsLimited, IsPrepared, IsPreparedOver, MayChangeHeader};
ghost use Rattle.database_under_log.specs.WaitingParts.{IsHeld, Stays};

use crate::fault::LogWriteFault;
use crate::holding::{Held, hold_pages, let_go};
use crate::news::{log_change, zeros};
use crate::waiting::{LogCommit, LogWrite, WaitingWrite};
use database_file::{DatabaseFile, FileFault};
use lf_base::{Bytes, NoMemory};
use lf_sqlite_pages::{Change, PageStore, is_within_limit};
use std::alloc::Global;
use wal_watch::{WalFile, WalNews};

/// Finishes a write that waited, once its commit is done: the file stays as it reads. It takes no
/// memory.
pub fn finish_log_write(file: &mut DatabaseFile, log: &mut WalFile, write: WaitingWrite)
    requires there { IsSome log.old.contents }
    requires room { IsWithin log.old.room write.at (length write.bytes) }
    ensures file { file.new ≡ finished file.old write }
    ensures log { log.new ≡ after_write log.old write.at write.bytes }
{
    let count = file.count_over(write.before);
    let_go(file, write.held.same.as_slice());
    file.set_count(count, write.commit);
    log.write_within(write.at, write.bytes.as_slice());
}

/// Forgets a write that waited. It takes no memory.
pub fn forget_log_write(file: &mut DatabaseFile, write: WaitingWrite)
    ensures { file.new ≡ forgotten file.old write }
{
    let_go(file, write.held.added.as_slice());
}

/// Bytes that a write puts into the log, and their place.
#[derive(Clone, Copy, Debug)]
struct LogPiece<'a> {
    at: u64,
    bytes: &'a [u8],
}

/// What a commit in the log needs, and the file with the pages that it keeps for that: the log has the
/// new contents, and `news` the latest new frames. After a fault the file is as before.
fn hold_commit<S: PageStore>(
    alloc: Global,
    file: &mut DatabaseFile,
    log: &WalFile,
    base: &mut S,
    news: Change,
    piece: &LogPiece<'_>,
) -> Result<LogCommit, FileFault>
    requires fits { FitsShape file.old (S.page_size base.old) (S.commit base.old) }
    requires some { 0 < committed_count (contents_of log.now) }
    requires news { (first : ℕ) × (news ≡ change_of (contents_of log.now) first (committed_count (contents_of log.now))) }
    requires sized { 0 < count_over file.old (S.commit base.old) → size_over file.old (S.page_size base.old) (S.commit base.old) ≡ page_size_in (contents_of log.now) }
    ensures change { IfOk result (λ c. (first : ℕ) → news ≡ change_of (contents_of log.now) first (committed_count (contents_of log.now))
        → c.change ≡ change_over file.old (log_news (contents_of log.now) first (S.commit base.old)) (S.commit base.old)) }
    ensures ready { IfOk result (IsHeld file.old file.new (S.page_size base.old) (S.commit base.old) piece.now.at piece.now.bytes.now) }
    ensures told { IfOk result (λ c. IfSome (S.image base.old) (λ i. KeepsDifferences file.old i → Stays file.old file.new i c)) }
    ensures err { OnErr result (file.new ≡ file.old) }
    ensures cause { IfErr result (HasCause (S.faults base.old) (S.faults base.new)) }
    ensures base { SameBase S.PageStore base.old base.new }
    ensures faults { OnOk result (S.faults base.new ≡ S.faults base.old) }
{
    let before = base.commit();
    news.sound();
    let change = log_change(alloc, file, log, news, before)?;
    let bytes = Bytes::of(Vec::from_slice(alloc, piece.bytes).map_err(NoMemory::from)?);
    let mut page = zeros(alloc, change.page_size() as usize)?;
    let mut held = Held::new(alloc);
    match hold_pages(file, base, &mut held, &change, page.as_mut_slice()) {
        Ok(()) => {
            let commit = change.commit();
            let write = WaitingWrite {
                at: piece.at,
                bytes,
                held,
                before,
                commit,
            };
            Ok(LogCommit { change, write })
        }
        Err(fault) => {
            let_go(file, held.added.as_slice());
            Err(fault)
        }
    }
}

/// The same within the limit of a database.
fn limited_commit<S: PageStore>(
    alloc: Global,
    file: &mut DatabaseFile,
    log: &WalFile,
    base: &mut S,
    news: Change,
    piece: &LogPiece<'_>,
) -> Result<LogCommit, LogWriteFault>
    requires fits { FitsShape file.old (S.page_size base.old) (S.commit base.old) }
    requires some { 0 < committed_count (contents_of log.now) }
    requires news { (first : ℕ) × (news ≡ change_of (contents_of log.now) first (committed_count (contents_of log.now))) }
    requires sized { 0 < count_over file.old (S.commit base.old) → size_over file.old (S.page_size base.old) (S.commit base.old) ≡ page_size_in (contents_of log.now) }
    ensures change { IfOk result (λ c. (first : ℕ) → news ≡ change_of (contents_of log.now) first (committed_count (contents_of log.now))
        → c.change ≡ change_over file.old (log_news (contents_of log.now) first (S.commit base.old)) (S.commit base.old)) }
    ensures ready { IfOk result (IsHeld file.old file.new (S.page_size base.old) (S.commit base.old) piece.now.at piece.now.bytes.now) }
    ensures told { IfOk result (λ c. IfSome (S.image base.old) (λ i. KeepsDifferences file.old i → Stays file.old file.new i c)) }
    ensures limit { OnOk result (IsWithinLimit (page_size_in (contents_of log.now)) (last_size (contents_of log.now))) }
    ensures err { OnErr result (file.new ≡ file.old) }
    ensures cause { IfErr result (HasCommitCause (contents_of log.now) (S.faults base.old) (S.faults base.new)) }
    ensures base { SameBase S.PageStore base.old base.new }
    ensures faults { OnOk result (S.faults base.new ≡ S.faults base.old) }
{
    if !is_within_limit(news.page_size(), news.commit()) {
        return Err(LogWriteFault::TooManyPages);
    }
    let commit = hold_commit(alloc, file, log, base, news, piece)?;
    Ok(commit)
}

/// The page size that the log's header has to state: the image's, or 0 for any where that has no
/// pages.
fn wanted_size<S: PageStore>(base: &S) -> u32
    ensures value { result ≡ wanted_size (S.page_size base.now) (S.commit base.now) }
    ensures size { IfSome (S.image base.now) (λ i. S.page_size base.now ≡ i.page_size) }
    ensures count { IfSome (S.image base.now) (λ i. S.commit base.now ≡ length i.pages) }
    ensures sqlite { 0 < S.commit base.now → IsPageSize (S.page_size base.now) }
{
    let page_size = base.page_size();
    if base.commit() == 0 { 0 } else { page_size }
}

/// Writes bytes to the log at a place. Where they commit nothing the write is done. Else it waits: the
/// change of its commit is told, and file and log go on reading as before until it is finished or
/// forgotten. After a fault everything is as before, but for room in the log.
pub fn prepare_log_write<S: PageStore>(
    alloc: Global,
    file: &mut DatabaseFile,
    log: &mut WalFile,
    base: &mut S,
    at: u64,
    bytes: &[u8],
) -> Result<LogWrite, LogWriteFault>
    requires there { IsSome log.old.contents }
    requires fits { FitsShape file.old (S.page_size base.old) (S.commit base.old) }
    requires follows { FollowsLog file.old (S.page_size base.old) (S.commit base.old) (contents_of log.old) }
    ensures ok { IfOk result (IsPrepared file.old file.new log.old log.new (S.page_size base.old) (S.commit base.old) at bytes.now) }
    ensures told { IfOk result (λ w. IfSome (S.image base.old) (λ i. MayChangeHeader file.old (contents_of log.old) (written at bytes.now (contents_of log.old))
        → KeepsDifferences file.old i → Agrees file.old i (contents_of log.old) → IsPreparedOver file.old file.new i (written at bytes.now (contents_of log.old)) w)) }
    ensures limit { IfOk result (IsLimited (written at bytes.now (contents_of log.old))) }
    ensures faults { OnOk result (S.faults base.new ≡ S.faults base.old) }
    ensures err_file { OnErr result (file.new ≡ file.old) }
    ensures err_log { OnErr result (log.new.contents ≡ log.old.contents) }
    ensures cause { IfErr result (HasWriteCause (contents_of log.old) (wanted_size (S.page_size base.old) (S.commit base.old)) at bytes.now (S.faults base.old) (S.faults base.new)) }
    ensures base { SameBase S.PageStore base.old base.new }
{
    let page_size = wanted_size(base);
    match log.write(page_size, at, bytes)? {
        WalNews::Stored => Ok(LogWrite::Stored),
        WalNews::Committed(news) => {
            let piece = LogPiece { at, bytes };
            let commit = limited_commit(alloc, file, log, base, news, &piece);
            log.undo();
            Ok(LogWrite::Waiting(commit?))
        }
    }
}
