//! WRITE to the database file, and the rules of its pages.
ghost use Rattle.std.specs.Prelude.{◌≡◌, ◌+◌, ◌/◌, ◌<◌, ◌^◌, Some, IfSome, IfOk, IfErr, OnOk, OnErr, length, ℕ};
ghost use Rattle.database_file.specs.DatabaseFile.{FitsShape};
ghost use Rattle.database_file.specs.Fault.{SameBase};
ghost use Rattle.database_file.specs.Writing.{TakesPages, page_in};
ghost use Rattle.file_view.specs.DatabaseRules.{write_size, are_pages, most_pages, kept_at_most, is_past_uncommitted, states_other, may_checkpoint, holds_frame, hold_frames};
ghost use Rattle.file_view.specs.DatabaseRules.{uncommitted_rows, checkpoint_rows, sized_write_rows, database_write_rows, writer_after, IsDatabaseWritten};
ghost use Rattle.file_view.specs.DatabaseParts.{MayWrite};
ghost use Rattle.file_view.specs.Needs as needs;
ghost use Rattle.file_view.specs.Refusal.{first_refusal, IsAllowed, HasCause, HasReadCause};
ghost use Rattle.wal_watch.specs.File.{contents_of};
ghost use Rattle.lf_sqlite_pages.specs.PageSize.{IsPageSize};

pub mod holding;
mod resizing;

use crate::asked::Write;
use crate::errno::{EACCES, EAGAIN, EFBIG, EINVAL, EIO, ENOSPC, EPERM, EROFS};
use crate::fault::ViewFault;
use crate::view::{Scene, View, writes};
use byte_locks::{LockId, Owner};
use database_under_log::holds_page;
use holding::Database;
use lf_base::Errno;
use lf_sqlite_pages::{PageStore, lock_page, page_size_of, sound_store};
use std::alloc::Global;
use wal_watch::WalFile;

/// How many bytes of pages may be uncommitted.
const UNCOMMITTED_LIMIT: u64 = 268_435_456;

/// The bytes of the largest LTX file, without those that stand beside all pages.
const LARGEST_FILE: u64 = 2_147_483_528;

/// Whether a write is of whole pages at a whole page, none of them the lock page.
fn are_pages(size: u32, at: u64, len: u64) -> bool
    requires { 0 < size }
    ensures { result ≡ are_pages size at len }
{
    let lock = u64::from(lock_page(size));
    let size = u64::from(size);
    let before = at / size;
    let count = len / size;
    let holds_data = lock <= before || count < lock - before;
    count > 0 && at % size == 0 && len % size == 0 && holds_data
}

/// The most pages of a database.
pub(crate) fn most_pages(size: u32) -> u64
    ensures value { result ≡ most_pages size }
    ensures small { result < 2 ^ 31 }
{
    LARGEST_FILE / (u64::from(size) + 4)
}

/// Pages that are to be uncommitted: of a size, so many more behind the first ones, and whether page 1
/// among them states another size.
#[derive(Clone, Copy, Debug)]
pub(crate) struct Uncommitted {
    pub(crate) size: u32,
    pub(crate) before: u32,
    pub(crate) more: u32,
    pub(crate) states_other: bool,
}

/// Whether more pages may be kept than may be uncommitted, once these were written.
fn is_full(file: &Database, commit: u32, pages: Uncommitted) -> bool
    requires { 0 < pages.size }
    ensures { result ≡ is_past_uncommitted pages.size (kept_at_most file.now.file commit pages.before pages.more) }
{
    let back = pages
        .before
        .min(commit)
        .saturating_sub(file.count_over(commit));
    let kept = (file.kept_pages() as u64).saturating_add(u64::from(back) + u64::from(pages.more));
    UNCOMMITTED_LIMIT / u64::from(pages.size) < kept
}

/// Whether a write of page 1 states another page size.
fn states_other(size: u32, at: u64, bytes: &[u8]) -> bool
    ensures { result ≡ states_other size at bytes.now }
{
    if at != 0 {
        return false;
    }
    match page_size_of(bytes) {
        Some(stated) => stated != size,
        None => false,
    }
}

/// Whether a committed frame of page `n` holds page `at` of some bytes, as the rules test it.
fn holds_frame(log: &WalFile, size: usize, n: u32, bytes: &[u8], at: usize) -> bool
    requires some { 0 < size }
    requires within { at < length bytes.now / size }
    ensures { result ≡ holds_frame (contents_of log.now) n (page_in bytes.now size at) }
{
    holds_page(log, size, n, bytes, at)
}

/// Whether committed frames hold each page of some bytes, from page `first` on.
fn hold_frames(log: &WalFile, size: u32, first: u32, bytes: &[u8]) -> bool
    requires some { 0 < size }
    requires numbered { first + length bytes.now / size < 2 ^ 32 }
    ensures { result ≡ hold_frames (contents_of log.now) size first bytes.now }
{
    let size = size as usize;
    let count = bytes.len() / size;
    for at in 0..count {
        if !holds_frame(log, size, first + at as u32, bytes, at) {
            return false;
        }
    }
    true
}

impl View {
    /// The page size of a write.
    pub(crate) fn write_size(&self, scene: &Scene, at: u64, bytes: &[u8]) -> Option<u32>
        requires fits { FitsShape self.now.database scene.now.page_size scene.now.commit }
        requires sized { 0 < scene.now.commit → IsPageSize scene.now.page_size }
        ensures value { result ≡ write_size self.now scene.now at bytes.now }
        ensures takes { IfSome result (TakesPages self.now.database scene.now.page_size scene.now.commit) }
    {
        if scene.commit != 0 {
            return Some(scene.page_size);
        }
        if self.database.count_over(0) != 0 {
            return Some(self.database.size_over(0, 0));
        }
        match self.journal.page_size() {
            Some(size) => Some(size),
            None if at == 0 => page_size_of(bytes),
            None => None,
        }
    }

    /// Whether the acting owner may checkpoint.
    pub(crate) fn may_checkpoint(&self, scene: &Scene, given: Option<u64>) -> bool
        ensures { result ≡ may_checkpoint self.now scene.now given }
    {
        writes(&self.locks, scene.session, given, LockId::Shared)
            || writes(&self.locks, scene.session, given, LockId::Ckpt)
    }

    /// The rule that refuses uncommitted pages, if one does.
    pub(crate) fn uncommitted_refusal(
        &self,
        scene: &Scene,
        given: Option<u64>,
        pages: Uncommitted,
    ) -> Option<Errno>
        requires { 0 < pages.size }
        ensures { result ≡ first_refusal (uncommitted_rows self.now scene.now given pages.size (kept_at_most self.now.database scene.now.commit pages.before pages.more) pages.states_other) }
    {
        if self.has_committed_frames() && !self.database.is_clean() {
            return Some(EPERM);
        }
        if !writes(&self.locks, scene.session, given, LockId::Shared) {
            return Some(EACCES);
        }
        if self.torn.is_some() {
            return Some(EIO);
        }
        if is_full(&self.database, scene.commit, pages) {
            return Some(ENOSPC);
        }
        if pages.states_other {
            return Some(EPERM);
        }
        if self.waits() {
            return Some(EAGAIN);
        }
        None
    }

    /// The rule that refuses a checkpoint of some pages, if one does.
    fn checkpoint_refusal(&self, scene: &Scene, size: u32, write: &Write<'_>) -> Option<Errno>
        requires some { 0 < size }
        requires numbered { write.now.at / size + length write.now.bytes.now / size < 2 ^ 31 }
        ensures { result ≡ first_refusal (checkpoint_rows self.now scene.now write.now.given size write.now.at write.now.bytes.now) }
    {
        if !self.may_checkpoint(scene, write.given) {
            return Some(EACCES);
        }
        let first = (write.at / u64::from(size)) as u32 + 1;
        if !hold_frames(&self.log, size, first, write.bytes) {
            return Some(EPERM);
        }
        if self.waits() {
            return Some(EAGAIN);
        }
        None
    }

    /// The rule that refuses a write of a page size at whole pages, if one does.
    fn pages_refusal(&self, scene: &Scene, size: u32, write: &Write<'_>) -> Option<Errno>
        requires some { 0 < size }
        ensures { result ≡ first_refusal (sized_write_rows self.now scene.now write.now.given write.now.at write.now.bytes.now (Some size)) }
    {
        let before = write.at / u64::from(size);
        let count = write.bytes.len() as u64 / u64::from(size);
        if !are_pages(size, write.at, write.bytes.len() as u64) {
            return Some(EINVAL);
        }
        let most = most_pages(size);
        if most < before || most - before < count {
            return Some(EFBIG);
        }
        if self.journal.is_active() {
            let pages = Uncommitted {
                size,
                before: before as u32,
                more: count as u32,
                states_other: states_other(size, write.at, write.bytes),
            };
            self.uncommitted_refusal(scene, write.given, pages)
        } else {
            self.checkpoint_refusal(scene, size, write)
        }
    }

    /// The page size of a write that no rule refuses.
    fn write_allowed(&self, scene: &Scene, write: &Write<'_>) -> Result<u32, ViewFault>
        requires fits { FitsShape self.now.database scene.now.page_size scene.now.commit }
        requires sized { 0 < scene.now.commit → IsPageSize scene.now.page_size }
        ensures size { IfOk result (λ size. write_size self.now scene.now write.now.at write.now.bytes.now ≡ Some size) }
        ensures may { IfOk result (MayWrite self.now scene.now write.now.at write.now.bytes.now) }
        ensures allowed { OnOk result (IsAllowed (database_write_rows self.now scene.now write.now.given write.now.at write.now.bytes.now)) }
        ensures cause { IfErr result (HasCause needs.Nothing (database_write_rows self.now scene.now write.now.given write.now.at write.now.bytes.now)) }
    {
        if scene.is_broken {
            return Err(ViewFault::Errno(EIO));
        }
        if scene.role.is_replica() {
            return Err(ViewFault::Errno(EROFS));
        }
        let Some(size) = self.write_size(scene, write.at, write.bytes) else {
            return Err(ViewFault::Errno(EINVAL));
        };
        match self.pages_refusal(scene, size, write) {
            Some(errno) => Err(ViewFault::Errno(errno)),
            None => Ok(size),
        }
    }

    /// Who has uncommitted pages once the database file was changed.
    pub(crate) fn writer_after(&self) -> Option<Owner>
        ensures { result ≡ writer_after self.now }
    {
        if self.journal.is_active() {
            self.locks.writer(LockId::Shared)
        } else {
            self.writer
        }
    }

    /// WRITE to the database file.
    #[tactic(auto, using(crate::proofs::FaultLemmas::read_cause, crate::proofs::FaultLemmas::row_cause))]
    pub(crate) fn write_database<S: PageStore>(
        &mut self,
        alloc: Global,
        scene: &Scene,
        base: &mut S,
        write: &Write<'_>,
    ) -> Result<(), ViewFault>
        requires over { (scene.now.page_size ≡ S.page_size base.old) × (scene.now.commit ≡ S.commit base.old) }
        requires fits { FitsShape self.old.database (S.page_size base.old) (S.commit base.old) }
        ensures done { OnOk result ((size : ℕ) → write_size self.old scene.now write.now.at write.now.bytes.now ≡ Some size → IsDatabaseWritten (S.image base.old) self.old scene.now size write.now.at write.now.bytes.now self.new) }
        ensures allowed { OnOk result (IsAllowed (database_write_rows self.old scene.now write.now.given write.now.at write.now.bytes.now)) }
        ensures cause { IfErr result (HasReadCause needs.Pages (database_write_rows self.old scene.now write.now.given write.now.at write.now.bytes.now) (S.faults base.old) (S.faults base.new)) }
        ensures err { OnErr result (self.new ≡ self.old) }
        ensures base { SameBase S.PageStore base.old base.new }
    {
        sound_store(base);
        let size = self.write_allowed(scene, write)?;
        let first = (write.at / u64::from(size)) as u32 + 1;
        let writer = self.writer_after();
        self.database
            .write_pages(alloc, base, size, first, write.bytes)?;
        self.writer = writer;
        Ok(())
    }
}
