//! WRITE, SETATTR of a size and UNLINK of the journal: the rules, the call, and the commit that it ends in.
ghost use Rattle.std.specs.Prelude.{◌≡◌, ◌≤◌, None, IsSome, IfNone, IfOk, IfErr, OnOk, OnErr, nat_lt};
ghost use Rattle.database_file.specs.DatabaseFile.{FitsShape};
ghost use Rattle.database_file.specs.Fault.{SameBase, HasCause as HasFileCause};
ghost use Rattle.file_view.specs.JournalState.{reach, call_finishes};
ghost use Rattle.file_view.specs.JournalRules.{may_write_journal, ends_writing, finishing_rows, journal_rows, journal_unlink_rows, JournalCommits, JournalDone};
ghost use Rattle.file_view.specs.Refusal.{first_refusal, IsAllowed, HasReadCause};
ghost use Rattle.file_view.specs.declared.journal.JournalCall.TheVariants as call;
ghost use Rattle.file_view.specs.Needs as needs;

pub mod holding;

use crate::asked::Write;
use crate::errno::{EACCES, EAGAIN, EIO, ENOSPC, EPERM, EROFS};
use crate::fault::ViewFault;
use crate::view::{Scene, View, is_unnamed, writes};
use byte_locks::{LockId, LockTable};
use database_file::FileFault;
use holding::Journal;
use journal_watch::JOURNAL_LIMIT as LIMIT;
use lf_base::{Bytes, Errno, NoMemory};
use lf_sqlite_pages::{Change, PageStore};
use std::alloc::Global;

/// What a request does to the journal.
#[derive(Debug, Drop)]
pub enum JournalCall {
    /// It removes the file.
    Unlink,
    /// It cuts the file to so many bytes, or grows it to them with zeros.
    Cut { len: u64 },
    /// It writes bytes at a place.
    Write { at: u64, bytes: Bytes },
}

impl JournalCall {
    /// Whether the file would pass its limit.
    pub(crate) fn is_past_limit(&self) -> bool
        ensures { result ≡ nat_lt 268435456 (reach self.now) }
    {
        match self {
            JournalCall::Unlink => false,
            JournalCall::Cut { len } => *len > LIMIT,
            JournalCall::Write { at, bytes } => match at.checked_add(
                bytes.as_slice().len() as u64,
            ) {
                Some(end) => end > LIMIT,
                None => true,
            },
        }
    }
}

/// Whether the acting owner of a message may write the journal.
fn may_write_journal(locks: &LockTable, session: u64, given: Option<u64>) -> bool
    ensures { result ≡ may_write_journal locks.now session given }
{
    writes(locks, session, given, LockId::Reserved)
        || writes(locks, session, given, LockId::Pending)
        || writes(locks, session, given, LockId::Shared)
}

/// A copy of some bytes.
fn copied(alloc: Global, bytes: &[u8]) -> Result<Bytes, NoMemory>
    ensures { IfOk result (λ copy. copy ≡ bytes.now) }
{
    let copy = Vec::from_slice(alloc, bytes)?;
    Ok(Bytes::of(copy))
}

impl Journal {
    /// Whether a call would finish the journal.
    pub(crate) fn would_finish(&self, call: &JournalCall) -> bool
        ensures { result ≡ call_finishes self.now.file call.now }
    {
        match call {
            JournalCall::Unlink => self.file.is_active(),
            JournalCall::Cut { len } => self.file.would_finish_cut(*len),
            JournalCall::Write { at, bytes } => {
                self.file.would_finish_write(*at, bytes.as_slice())
            }
        }
    }
}

impl View {
    /// Whether a call ends a transaction that has written pages.
    fn ends_writing(&self, call: &JournalCall) -> bool
        ensures { result ≡ ends_writing self.now call.now }
    {
        self.journal.would_finish(call) && self.writer.is_some()
    }

    /// The rule that refuses a call by which the journal may be finished, if one does.
    fn finishing_refusal(
        &self,
        scene: &Scene,
        given: Option<u64>,
        call: &JournalCall,
    ) -> Option<Errno>
        ensures value { result ≡ first_refusal (finishing_rows self.now scene.now given call.now) }
        ensures free { IfNone result (self.now.journal.waiting ≡ None) }
        ensures unheld { IfNone result (self.now.held_write ≡ None) }
    {
        let ends_writing = self.ends_writing(call);
        if self.journal.would_finish(call) && self.torn.is_some() {
            return Some(EIO);
        }
        if ends_writing && is_unnamed(&self.locks, scene.session, given) {
            return Some(EACCES);
        }
        if ends_writing && !writes(&self.locks, scene.session, given, LockId::Shared) {
            return Some(EACCES);
        }
        if ends_writing && self.has_committed_frames() && !self.database.is_clean() {
            return Some(EPERM);
        }
        if self.waits() {
            return Some(EAGAIN);
        }
        None
    }

    /// The rule that refuses a write to the journal or a change of its size, if one does.
    pub(crate) fn journal_refusal(
        &self,
        scene: &Scene,
        given: Option<u64>,
        call: &JournalCall,
    ) -> Option<Errno>
        ensures value { result ≡ first_refusal (journal_rows self.now scene.now given call.now) }
        ensures free { IfNone result (self.now.journal.waiting ≡ None) }
        ensures unheld { IfNone result (self.now.held_write ≡ None) }
        ensures short { IfNone result (reach call.now ≤ 268435456) }
    {
        if scene.is_broken {
            return Some(EIO);
        }
        if scene.role.is_replica() {
            return Some(EROFS);
        }
        if !may_write_journal(&self.locks, scene.session, given) {
            return Some(EACCES);
        }
        if call.is_past_limit() {
            return Some(ENOSPC);
        }
        self.finishing_refusal(scene, given, call)
    }

    /// The rule that refuses to remove the journal, if one does.
    pub(crate) fn journal_unlink_refusal(&self, scene: &Scene) -> Option<Errno>
        ensures value { result ≡ first_refusal (journal_unlink_rows self.now scene.now) }
        ensures free { IfNone result (self.now.journal.waiting ≡ None) }
        ensures unheld { IfNone result (self.now.held_write ≡ None) }
    {
        let active = self.journal.is_active();
        if scene.is_broken {
            return Some(EIO);
        }
        if active && scene.role.is_replica() {
            return Some(EROFS);
        }
        if active && !may_write_journal(&self.locks, scene.session, None) {
            return Some(EACCES);
        }
        self.finishing_refusal(scene, None, &JournalCall::Unlink)
    }

    /// The change that a call commits, if it commits one.
    fn change_of<S: PageStore>(
        &self,
        alloc: Global,
        scene: &Scene,
        base: &mut S,
        call: &JournalCall,
    ) -> Result<Option<Change>, FileFault>
        requires over { (scene.now.page_size ≡ S.page_size base.old) × (scene.now.commit ≡ S.commit base.old) }
        requires fits { FitsShape self.now.database (S.page_size base.old) (S.commit base.old) }
        requires unheld { self.now.held_write ≡ None }
        ensures commits { IfOk result (JournalCommits (S.image base.old) self.now scene.now call.now) }
        ensures cause { IfErr result (HasFileCause (S.faults base.old) (S.faults base.new)) }
        ensures base { SameBase S.PageStore base.old base.new }
    {
        if !self.ends_writing(call) {
            return Ok(None);
        }
        self.database.commit_change(alloc, base)
    }

    /// Does a call that no rule refuses, or says what it commits.
    pub(crate) fn call_journal<S: PageStore>(
        &mut self,
        alloc: Global,
        scene: &Scene,
        base: &mut S,
        call: JournalCall,
    ) -> Result<Option<Change>, FileFault>
        requires over { (scene.now.page_size ≡ S.page_size base.old) × (scene.now.commit ≡ S.commit base.old) }
        requires fits { FitsShape self.old.database (S.page_size base.old) (S.commit base.old) }
        requires there { IsSome self.old.journal.file }
        requires short { reach call ≤ 268435456 }
        requires free { self.old.journal.waiting ≡ None }
        requires unheld { self.old.held_write ≡ None }
        ensures done { IfOk result (λ change. JournalDone (S.image base.old) self.old scene.now call change self.new) }
        ensures err { OnErr result (self.new ≡ self.old) }
        ensures cause { IfErr result (HasFileCause (S.faults base.old) (S.faults base.new)) }
        ensures base { SameBase S.PageStore base.old base.new }
    {
        match self.change_of(alloc, scene, base, &call)? {
            Some(change) => {
                self.journal.hold(call)?;
                Ok(Some(change))
            }
            None => {
                self.perform_call(&call)?;
                Ok(None)
            }
        }
    }

    /// A write to the journal, or a change of its size.
    #[tactic(auto, using(crate::proofs::FaultLemmas::read_cause))]
    pub(crate) fn change_journal<S: PageStore>(
        &mut self,
        alloc: Global,
        scene: &Scene,
        base: &mut S,
        given: Option<u64>,
        call: JournalCall,
    ) -> Result<Option<Change>, ViewFault>
        requires over { (scene.now.page_size ≡ S.page_size base.old) × (scene.now.commit ≡ S.commit base.old) }
        requires fits { FitsShape self.old.database (S.page_size base.old) (S.commit base.old) }
        requires there { IsSome self.old.journal.file }
        ensures done { IfOk result (λ change. JournalDone (S.image base.old) self.old scene.now call change self.new) }
        ensures allowed { OnOk result (IsAllowed (journal_rows self.old scene.now given call)) }
        ensures cause { IfErr result (HasReadCause needs.Pages (journal_rows self.old scene.now given call) (S.faults base.old) (S.faults base.new)) }
        ensures err { OnErr result (self.new ≡ self.old) }
        ensures base { SameBase S.PageStore base.old base.new }
    {
        if let Some(errno) = self.journal_refusal(scene, given, &call) {
            return Err(ViewFault::Errno(errno));
        }
        let change = self.call_journal(alloc, scene, base, call)?;
        Ok(change)
    }

    /// WRITE to the journal: the change that it commits, if it commits one.
    pub(crate) fn write_journal<S: PageStore>(
        &mut self,
        alloc: Global,
        scene: &Scene,
        base: &mut S,
        write: &Write<'_>,
    ) -> Result<Option<Change>, ViewFault>
        requires over { (scene.now.page_size ≡ S.page_size base.old) × (scene.now.commit ≡ S.commit base.old) }
        requires fits { FitsShape self.old.database (S.page_size base.old) (S.commit base.old) }
        requires there { IsSome self.old.journal.file }
        ensures done { IfOk result (λ change. JournalDone (S.image base.old) self.old scene.now (call.Write write.now.at write.now.bytes.now) change self.new) }
        ensures allowed { OnOk result (IsAllowed (journal_rows self.old scene.now write.now.given (call.Write write.now.at write.now.bytes.now))) }
        ensures cause { IfErr result (HasReadCause needs.Pages (journal_rows self.old scene.now write.now.given (call.Write write.now.at write.now.bytes.now)) (S.faults base.old) (S.faults base.new)) }
        ensures err { OnErr result (self.new ≡ self.old) }
        ensures base { SameBase S.PageStore base.old base.new }
    {
        let bytes = copied(alloc, write.bytes)?;
        let call = JournalCall::Write {
            at: write.at,
            bytes,
        };
        self.change_journal(alloc, scene, base, write.given, call)
    }

    /// UNLINK of the journal: the change that it commits, if it commits one.
    #[tactic(auto, using(crate::proofs::FaultLemmas::read_cause))]
    pub(crate) fn unlink_journal<S: PageStore>(
        &mut self,
        alloc: Global,
        scene: &Scene,
        base: &mut S,
    ) -> Result<Option<Change>, ViewFault>
        requires over { (scene.now.page_size ≡ S.page_size base.old) × (scene.now.commit ≡ S.commit base.old) }
        requires fits { FitsShape self.old.database (S.page_size base.old) (S.commit base.old) }
        requires there { IsSome self.old.journal.file }
        ensures done { IfOk result (λ change. JournalDone (S.image base.old) self.old scene.now call.Unlink change self.new) }
        ensures allowed { OnOk result (IsAllowed (journal_unlink_rows self.old scene.now)) }
        ensures cause { IfErr result (HasReadCause needs.Pages (journal_unlink_rows self.old scene.now) (S.faults base.old) (S.faults base.new)) }
        ensures err { OnErr result (self.new ≡ self.old) }
        ensures base { SameBase S.PageStore base.old base.new }
    {
        if let Some(errno) = self.journal_unlink_refusal(scene) {
            return Err(ViewFault::Errno(errno));
        }
        let change = self.call_journal(alloc, scene, base, JournalCall::Unlink)?;
        Ok(change)
    }
}
