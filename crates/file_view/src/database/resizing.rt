//! SETATTR of a size of the database file.
ghost use Rattle.std.specs.Prelude.{◌≡◌, ◌/◌, ◌<◌, Some, None, [], IfSome, IfOk, IfErr, OnOk, OnErr, ℕ};
ghost use Rattle.database_file.specs.DatabaseFile.{FitsShape};
ghost use Rattle.database_file.specs.Fault.{SameBase, HasCause as HasFileCause};
ghost use Rattle.file_view.specs.DatabaseRules.{write_size, states_size, is_log_size, most_pages, checkpoint_resize_rows, resize_rows, sized_resize_rows, database_size_rows, resizes, DatabaseSized};
ghost use Rattle.file_view.specs.DatabaseParts.{MayResize};
ghost use Rattle.file_view.specs.Needs as needs;
ghost use Rattle.file_view.specs.Refusal.{first_refusal, IsAllowed, HasCause, HasReadCause};
ghost use Rattle.lf_sqlite_pages.specs.PageSize.{IsPageSize};
ghost use Rattle.wal_watch.specs.File.{contents_of};

use crate::database::{Uncommitted, most_pages};
use crate::errno::{EACCES, EAGAIN, EFBIG, EINVAL, EIO, EPERM, EROFS};
use crate::fault::ViewFault;
use crate::view::{Scene, View};
use database_file::FileFault;
use lf_base::Errno;
use lf_sqlite_pages::{PageStore, sound_store};
use std::alloc::Global;
use wal_watch::WalFile;

/// Whether a committed frame states this size of the database.
#[tactic(auto, using(crate::proofs::FrameLemmas::states_size_is))]
fn states_size(log: &WalFile, count: u32) -> bool
    ensures { result ≡ states_size (contents_of log.now) count }
{
    log.has_size(count)
}

/// Whether committed frames state this size of the database: the last commit, or an older one.
fn is_log_size(log: &WalFile, count: u32) -> bool
    ensures { result ≡ is_log_size (contents_of log.now) count }
{
    if log.committed_frames() == 0 {
        return false;
    }
    count == log.last_size() || (count != 0 && states_size(log, count))
}

impl View {
    /// The rule that refuses a resize by a checkpoint, if one does.
    fn checkpoint_resize_refusal(
        &self,
        scene: &Scene,
        given: Option<u64>,
        count: u32,
    ) -> Option<Errno>
        ensures { result ≡ first_refusal (checkpoint_resize_rows self.now scene.now given count) }
    {
        if !self.may_checkpoint(scene, given) {
            return Some(EACCES);
        }
        if !is_log_size(&self.log, count) {
            return Some(EPERM);
        }
        if self.waits() {
            return Some(EAGAIN);
        }
        None
    }

    /// The rule that refuses a resize to so many pages, if one does.
    fn resize_refusal(
        &self,
        scene: &Scene,
        given: Option<u64>,
        size: u32,
        count: u32,
    ) -> Option<Errno>
        requires { 0 < size }
        ensures { result ≡ first_refusal (resize_rows self.now scene.now given size count) }
    {
        if count == self.database.count_over(scene.commit) {
            return if self.waits() { Some(EAGAIN) } else { None };
        }
        if self.journal.is_active() {
            let pages = Uncommitted {
                size,
                before: count,
                more: 0,
                states_other: false,
            };
            self.uncommitted_refusal(scene, given, pages)
        } else {
            self.checkpoint_resize_refusal(scene, given, count)
        }
    }

    /// The rule that refuses a change of the size to so many bytes, if one does.
    fn bytes_refusal(&self, scene: &Scene, given: Option<u64>, size: u32, len: u64) -> Option<Errno>
        requires { 0 < size }
        ensures { result ≡ first_refusal (sized_resize_rows self.now scene.now given len (Some size)) }
    {
        if len % u64::from(size) != 0 {
            return Some(EINVAL);
        }
        let count = len / u64::from(size);
        if most_pages(size) < count {
            return Some(EFBIG);
        }
        self.resize_refusal(scene, given, size, count as u32)
    }

    /// The page size of a change of size that no rule refuses, if there is one.
    fn size_allowed(
        &self,
        scene: &Scene,
        given: Option<u64>,
        len: u64,
    ) -> Result<Option<u32>, ViewFault>
        requires fits { FitsShape self.now.database scene.now.page_size scene.now.commit }
        requires sized { 0 < scene.now.commit → IsPageSize scene.now.page_size }
        ensures size { IfOk result (λ size. write_size self.now scene.now 0 [] ≡ size) }
        ensures may { IfOk result (λ size. IfSome size (MayResize self.now scene.now len)) }
        ensures allowed { OnOk result (IsAllowed (database_size_rows self.now scene.now given len)) }
        ensures cause { IfErr result (HasCause needs.Nothing (database_size_rows self.now scene.now given len)) }
    {
        if scene.is_broken {
            return Err(ViewFault::Errno(EIO));
        }
        if scene.role.is_replica() {
            return Err(ViewFault::Errno(EROFS));
        }
        let Some(size) = self.write_size(scene, 0, &[]) else {
            if len != 0 {
                return Err(ViewFault::Errno(EINVAL));
            }
            if self.waits() {
                return Err(ViewFault::Errno(EAGAIN));
            }
            return Ok(None);
        };
        match self.bytes_refusal(scene, given, size, len) {
            Some(errno) => Err(ViewFault::Errno(errno)),
            None => Ok(Some(size)),
        }
    }

    /// Whether a resize changes anything.
    fn resizes(&self, scene: &Scene, count: u32) -> bool
        ensures { result ≡ resizes self.now scene.now count }
    {
        count != self.database.count_over(scene.commit)
            && (self.journal.is_active() || count == self.log.last_size())
    }

    /// Cuts the database file to the pages of so many bytes, or grows it to them.
    fn resize_pages<S: PageStore>(
        &mut self,
        alloc: Global,
        scene: &Scene,
        base: &mut S,
        len: u64,
        size: u32,
    ) -> Result<(), FileFault>
        requires over { (scene.now.page_size ≡ S.page_size base.old) × (scene.now.commit ≡ S.commit base.old) }
        requires fits { FitsShape self.old.database (S.page_size base.old) (S.commit base.old) }
        requires may { MayResize self.old scene.now len size }
        ensures done { OnOk result (DatabaseSized (S.image base.old) self.old scene.now size (len / size) self.new) }
        ensures cause { IfErr result (HasFileCause (S.faults base.old) (S.faults base.new)) }
        ensures err { OnErr result (self.new ≡ self.old) }
        ensures base { SameBase S.PageStore base.old base.new }
    {
        let count = (len / u64::from(size)) as u32;
        if !self.resizes(scene, count) {
            return Ok(());
        }
        let writer = self.writer_after();
        self.database.resize(alloc, base, size, count)?;
        self.writer = writer;
        Ok(())
    }

    /// SETATTR of a size of the database file.
    #[tactic(auto, using(crate::proofs::FaultLemmas::read_cause, crate::proofs::FaultLemmas::row_cause))]
    pub(crate) fn resize_database<S: PageStore>(
        &mut self,
        alloc: Global,
        scene: &Scene,
        base: &mut S,
        given: Option<u64>,
        len: u64,
    ) -> Result<(), ViewFault>
        requires over { (scene.now.page_size ≡ S.page_size base.old) × (scene.now.commit ≡ S.commit base.old) }
        requires fits { FitsShape self.old.database (S.page_size base.old) (S.commit base.old) }
        ensures none { OnOk result (write_size self.old scene.now 0 [] ≡ None → self.new ≡ self.old) }
        ensures done { OnOk result ((size : ℕ) → write_size self.old scene.now 0 [] ≡ Some size → DatabaseSized (S.image base.old) self.old scene.now size (len / size) self.new) }
        ensures allowed { OnOk result (IsAllowed (database_size_rows self.old scene.now given len)) }
        ensures cause { IfErr result (HasReadCause needs.Pages (database_size_rows self.old scene.now given len) (S.faults base.old) (S.faults base.new)) }
        ensures err { OnErr result (self.new ≡ self.old) }
        ensures base { SameBase S.PageStore base.old base.new }
    {
        sound_store(base);
        match self.size_allowed(scene, given, len)? {
            Some(size) => self.resize_pages(alloc, scene, base, len, size)?,
            None => {}
        }
        Ok(())
    }
}
