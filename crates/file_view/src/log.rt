//! WRITE, SETATTR of a size and UNLINK of the log: the rules, and the commit that a write makes.
ghost use Rattle.std.specs.Prelude.{◌≡◌, ◌+◌, ◌≤◌, true, false, length, None, IsSome, IfNone, IfSome, IfOk, IfErr, OnOk, OnErr};
ghost use Rattle.database_file.specs.DatabaseFile.{FitsShape};
ghost use Rattle.database_file.specs.Fault.{SameBase};
ghost use Rattle.database_under_log.specs.Fault.{wanted_size};
ghost use Rattle.database_under_log.specs.Waiting.{MayChangeHeader};
ghost use Rattle.wal_watch.specs.File.{contents_of};
ghost use Rattle.wal_watch.specs.Refusals.{wal_limit, IsSoundCut, IsSoundWrite};
ghost use Rattle.file_view.specs.LogParts.{begins_anew, log_own_rows, log_owner_rows};
ghost use Rattle.file_view.specs.LogRules.{log_after, log_commit_rows, log_write_rows, FollowsImage, LogDone};
ghost use Rattle.file_view.specs.LogRules.{may_cut_log, commits_by_cut, log_cut_rows, log_unlink_rows, log_cut, log_removed};
ghost use Rattle.file_view.specs.Needs as needs;
ghost use Rattle.file_view.specs.Refusal.{first_refusal, IsAllowed, HasCause, HasReadCause};
ghost use Rattle.file_view.specs.Served.{log_contents, waits};

mod holding;

use crate::asked::Write;
use crate::errno::{EACCES, EAGAIN, EFBIG, EINVAL, EIO, ENOSPC, EPERM, EROFS};
use crate::fault::ViewFault;
use crate::view::{Scene, View, writes};
use byte_locks::{LockId, LockTable};
use holding::commits_too_many;
use lf_base::{Errno, NoMemory};
use lf_sqlite_pages::{Change, PageStore};
use std::alloc::Global;
use wal_watch::{WAL_LIMIT, WalFault, WalFile, committed_frames_say};

/// The page size that the log's header has to state: the image's, or 0 for any where that has no
/// pages.
fn wanted_size(scene: &Scene) -> u32
    ensures { result ≡ wanted_size scene.now.page_size scene.now.commit }
{
    if scene.commit == 0 {
        0
    } else {
        scene.page_size
    }
}

/// The number by which the log itself refuses a write, if it does.
fn own_refusal(log: &WalFile, page_size: u32, at: u64, bytes: &[u8]) -> Option<Errno>
    ensures value { result ≡ first_refusal (log_own_rows (contents_of log.now) page_size at bytes.now) }
    ensures sound { IfNone result (IsSoundWrite (contents_of log.now) page_size at bytes.now) }
{
    match log.check(page_size, at, bytes) {
        Ok(()) => None,
        Err(WalFault::TooLong) => Some(ENOSPC),
        Err(WalFault::Header) => Some(EINVAL),
        Err(WalFault::Part) => Some(EPERM),
        Err(WalFault::NoMemory) => unreachable!(),
    }
}

/// Whether an owner of the session may cut or remove the log.
fn may_cut_log(locks: &LockTable, session: u64) -> bool
    ensures { result ≡ may_cut_log locks.now session }
{
    writes(locks, session, None, LockId::Write)
        || writes(locks, session, None, LockId::Ckpt)
        || writes(locks, session, None, LockId::Shared)
}

/// Whether a cut would leave more committed frames.
fn commits_by_cut(log: &WalFile, len: u64) -> bool
    requires { len ≤ 268435456 }
    ensures { result ≡ commits_by_cut (contents_of log.now) len }
{
    len >= log.committed_end() && log.check_cut(len) == Err(WalFault::Part)
}

impl View {
    /// The rule that refuses a write whatever the log holds, if one does.
    fn log_owner_refusal(&self, scene: &Scene, given: Option<u64>) -> Option<Errno>
        ensures value { result ≡ first_refusal (log_owner_rows self.now scene.now given) }
        ensures writer { IfNone result (self.now.writer ≡ None) }
    {
        if scene.is_broken {
            return Some(EIO);
        }
        if scene.role.is_replica() {
            return Some(EROFS);
        }
        if self.journal.is_active() || self.writer.is_some() {
            return Some(EACCES);
        }
        if !writes(&self.locks, scene.session, given, LockId::Write) {
            return Some(EACCES);
        }
        None
    }

    /// Whether a write leaves another header over a file that isn't the committed image.
    fn begins_anew(&self, at: u64, bytes: &[u8]) -> bool
        requires { at + length bytes.now ≤ wal_limit }
        ensures value { result ≡ begins_anew self.now at bytes.now }
        ensures header { result ≡ false → MayChangeHeader self.now.database (log_contents self.now) (log_after self.now at bytes.now) }
    {
        self.log.changes_header(at, bytes) && !self.database.is_clean()
    }

    /// The rule that refuses a write before its commit is looked at, if one does.
    fn log_write_refusal(&self, scene: &Scene, write: &Write<'_>) -> Option<Errno>
        ensures refused { IfSome result (λ e. first_refusal (log_write_rows self.now scene.now write.now.given write.now.at write.now.bytes.now) ≡ Some e) }
        ensures passed { IfNone result (first_refusal (log_write_rows self.now scene.now write.now.given write.now.at write.now.bytes.now) ≡ first_refusal (log_commit_rows self.now write.now.at write.now.bytes.now)) }
        ensures sound { IfNone result (IsSoundWrite (log_contents self.now) (wanted_size scene.now.page_size scene.now.commit) write.now.at write.now.bytes.now) }
        ensures header { IfNone result (MayChangeHeader self.now.database (log_contents self.now) (log_after self.now write.now.at write.now.bytes.now)) }
        ensures writer { IfNone result (self.now.writer ≡ None) }
    {
        if let Some(errno) = self.log_owner_refusal(scene, write.given) {
            return Some(errno);
        }
        if let Some(errno) = own_refusal(&self.log, wanted_size(scene), write.at, write.bytes) {
            return Some(errno);
        }
        if self.begins_anew(write.at, write.bytes) {
            return Some(EPERM);
        }
        None
    }

    /// The rule that refuses a write which the log takes, while a request waits.
    fn waiting_refusal(&mut self, scene: &Scene, at: u64, bytes: &[u8]) -> Result<Errno, NoMemory>
        requires there { IsSome self.old.log }
        requires sound { IsSoundWrite (log_contents self.old) (wanted_size scene.now.page_size scene.now.commit) at bytes.now }
        requires waits { waits self.old ≡ true }
        ensures value { IfOk result (λ e. first_refusal (log_commit_rows self.old at bytes.now) ≡ Some e) }
        ensures same { self.new ≡ self.old }
    {
        let held = self.database.held_range();
        if commits_too_many(&mut self.log, held, wanted_size(scene), at, bytes)? {
            Ok(EFBIG)
        } else {
            Ok(EAGAIN)
        }
    }

    /// WRITE to the log: the change that it commits, if it commits one.
    pub(crate) fn write_log<S: PageStore>(
        &mut self,
        alloc: Global,
        scene: &Scene,
        base: &mut S,
        write: &Write<'_>,
    ) -> Result<Option<Change>, ViewFault>
        requires over { (scene.now.page_size ≡ S.page_size base.old) × (scene.now.commit ≡ S.commit base.old) }
        requires fits { FitsShape self.old.database (S.page_size base.old) (S.commit base.old) }
        requires follows { FollowsImage (log_contents self.old) (S.page_size base.old) (S.commit base.old) }
        requires there { IsSome self.old.log }
        ensures done { IfOk result (λ change. LogDone (S.image base.old) self.old scene.now write.now.at write.now.bytes.now change self.new) }
        ensures allowed { OnOk result (IsAllowed (log_write_rows self.old scene.now write.now.given write.now.at write.now.bytes.now)) }
        ensures cause { IfErr result (HasReadCause needs.Pages (log_write_rows self.old scene.now write.now.given write.now.at write.now.bytes.now) (S.faults base.old) (S.faults base.new)) }
        ensures err { OnErr result (self.new ≡ self.old) }
        ensures base { SameBase S.PageStore base.old base.new }
    {
        if let Some(errno) = self.log_write_refusal(scene, write) {
            return Err(ViewFault::Errno(errno));
        }
        if self.waits() {
            let errno = self.waiting_refusal(scene, write.at, write.bytes)?;
            return Err(ViewFault::Errno(errno));
        }
        let change = self
            .database
            .write_log(alloc, &mut self.log, base, write.at, write.bytes)?;
        Ok(change)
    }

    /// The rule that refuses a change of the log's size, if one does.
    pub(crate) fn log_cut_refusal(&self, scene: &Scene, len: u64) -> Option<Errno>
        ensures { result ≡ first_refusal (log_cut_rows self.now scene.now len) }
    {
        let frames = self.has_committed_frames();
        if scene.is_broken {
            return Some(EIO);
        }
        if len > WAL_LIMIT {
            return Some(ENOSPC);
        }
        if commits_by_cut(&self.log, len) {
            return Some(EPERM);
        }
        if frames && scene.role.is_replica() {
            return Some(EROFS);
        }
        if frames && len != 0 && len < self.log.committed_end() {
            return Some(EPERM);
        }
        if frames && len == 0 && !self.database.is_clean() {
            return Some(EPERM);
        }
        if frames && !may_cut_log(&self.locks, scene.session) {
            return Some(EACCES);
        }
        if self.waits() {
            return Some(EAGAIN);
        }
        None
    }

    /// The rule that refuses to remove the log, if one does.
    pub(crate) fn log_unlink_refusal(&self, scene: &Scene) -> Option<Errno>
        ensures { result ≡ first_refusal (log_unlink_rows self.now scene.now) }
    {
        let frames = self.has_committed_frames();
        if scene.is_broken {
            return Some(EIO);
        }
        if frames && scene.role.is_replica() {
            return Some(EROFS);
        }
        if frames && !self.database.is_clean() {
            return Some(EPERM);
        }
        if frames && !may_cut_log(&self.locks, scene.session) {
            return Some(EACCES);
        }
        if self.waits() {
            return Some(EAGAIN);
        }
        None
    }

    /// Whether no rule refuses a change of the log's size: then nothing stands against it.
    fn log_cut_allowed(&self, scene: &Scene, len: u64) -> Result<(), ViewFault>
        ensures sound { OnOk result (IsSoundCut (log_contents self.now) len) }
        ensures allowed { OnOk result (IsAllowed (log_cut_rows self.now scene.now len)) }
        ensures cause { IfErr result (HasCause needs.Nothing (log_cut_rows self.now scene.now len)) }
    {
        committed_frames_say();
        match self.log_cut_refusal(scene, len) {
            Some(errno) => Err(ViewFault::Errno(errno)),
            None => Ok(()),
        }
    }

    /// SETATTR of a size of the log.
    pub(crate) fn resize_log(&mut self, scene: &Scene, len: u64) -> Result<(), ViewFault>
        requires { IsSome self.old.log }
        ensures done { OnOk result (self.new ≡ log_cut self.old len) }
        ensures allowed { OnOk result (IsAllowed (log_cut_rows self.old scene.now len)) }
        ensures cause { IfErr result (HasCause needs.Nothing (log_cut_rows self.old scene.now len)) }
        ensures err { OnErr result (self.new ≡ self.old) }
    {
        self.log_cut_allowed(scene, len)?;
        self.log.cut(len).unwrap();
        Ok(())
    }

    /// Whether no rule refuses to remove the log.
    fn log_unlink_allowed(&self, scene: &Scene) -> Result<(), ViewFault>
        ensures allowed { OnOk result (IsAllowed (log_unlink_rows self.now scene.now)) }
        ensures cause { IfErr result (HasCause needs.Nothing (log_unlink_rows self.now scene.now)) }
    {
        match self.log_unlink_refusal(scene) {
            Some(errno) => Err(ViewFault::Errno(errno)),
            None => Ok(()),
        }
    }

    /// UNLINK of the log.
    pub(crate) fn remove_log(&mut self, scene: &Scene) -> Result<(), ViewFault>
        ensures done { OnOk result (self.new ≡ log_removed self.old) }
        ensures allowed { OnOk result (IsAllowed (log_unlink_rows self.old scene.now)) }
        ensures cause { IfErr result (HasCause needs.Nothing (log_unlink_rows self.old scene.now)) }
        ensures err { OnErr result (self.new ≡ self.old) }
    {
        self.log_unlink_allowed(scene)?;
        self.log.remove();
        Ok(())
    }
}
