//! GETLK, SETLK and SETLKW, every other change of the locks, and what follows from one.
ghost use Rattle.std.specs.Prelude.{◌≡◌, ◌<◌, None, Some, IfOk, IfErr, OnOk, OnErr, take, drop};
ghost use Rattle.byte_locks.specs.LockEntry.{in_set, on_file, of_session};
ghost use Rattle.byte_locks.specs.LockList.{granted, without, conflict};
ghost use Rattle.fuse_msgs.specs.declared.reply.Reply.TheVariants as reply;
ghost use Rattle.wal_watch.specs.File.{contents_of};
ghost use Rattle.wal_watch.specs.Frames.{committed_count};
ghost use Rattle.file_view.specs.Acting.{is_writer, while_exclusive, settled_database, has_left, is_index_of, settled_index, with_locks};
ghost use Rattle.file_view.specs.Done.{IsReplied};
ghost use Rattle.file_view.specs.HandleRules.{lock_handle_rows};
ghost use Rattle.file_view.specs.LockRules.{locks_at, grant_rows, setlk_rows, after_wish, wish_of, conflict_reply, getlk_reply};
ghost use Rattle.file_view.specs.Needs as needs;
ghost use Rattle.file_view.specs.Needs.{lock_needs};
ghost use Rattle.file_view.specs.Refusal.{IsAllowed, HasCause};
ghost use Rattle.file_view.specs.Requests.{owner_of};

use crate::asked::Lock;
use crate::database::holding::Database;
use crate::errno::{EAGAIN, ENOLCK, EROFS};
use crate::fault::ViewFault;
use crate::requests::Plan;
use crate::view::{Scene, View};
use byte_locks::{FileKind, LockId, LockKind, LockSet, LockTable, Owner, SetFault, locks_of};
use file_handles::file_at;
use fuse_msgs::{LockWish, Reply};
use shm_index::SharedMemory;
use wal_watch::{WalFile, committed_frames_say};

/// The locks of a range on a node's file.
pub fn locks_at(node: u64, start: u64, end: u64) -> LockSet
    ensures { result ≡ locks_at node start end }
{
    match file_at(node) {
        None => locks_of(FileKind::Primary, start, end),
        Some(file) => locks_of(file, start, end),
    }
}

/// How a lock is held, as a reply says it.
fn wish_of(kind: Option<LockKind>) -> LockWish
    ensures { result ≡ wish_of kind }
{
    match kind {
        None => LockWish::Unlock,
        Some(LockKind::Read) => LockWish::Read,
        Some(LockKind::Write) => LockWish::Write,
    }
}

/// Whether an owner holds a lock for writing.
fn is_writer(locks: &LockTable, lock: LockId, owner: Owner) -> bool
    ensures { result ≡ is_writer locks.now lock owner }
{
    match locks.writer(lock) {
        None => false,
        Some(other) => other == owner,
    }
}

/// The owner, while it holds EXCLUSIVE.
fn while_exclusive(locks: &LockTable, owner: Option<Owner>) -> Option<Owner>
    ensures { result ≡ while_exclusive locks.now owner }
{
    let owner = owner?;
    if is_writer(locks, LockId::Shared, owner) {
        Some(owner)
    } else {
        None
    }
}

/// Drops the uncommitted pages of an owner who no longer holds EXCLUSIVE.
pub fn settle_database(database: &mut Database, writer: &mut Option<Owner>, locks: &LockTable)
    requires { (owner : Owner) → writer.old ≡ Some owner → database.old.held ≡ None }
    ensures database { database.new.file ≡ settled_database locks.now writer.old database.old.file }
    ensures held { database.new.held ≡ database.old.held }
    ensures writer { writer.new ≡ while_exclusive locks.now writer.old }
{
    let Some(owner) = *writer else {
        return;
    };
    if !is_writer(locks, LockId::Shared, owner) {
        database.clear();
        *writer = None;
    }
}

/// Forgets the torn owner once it no longer holds EXCLUSIVE.
pub fn settle_torn(torn: &mut Option<Owner>, locks: &LockTable)
    ensures { torn.new ≡ while_exclusive locks.now torn.old }
{
    *torn = while_exclusive(locks, *torn);
}

/// Whether the owner who held WRITE before no longer does.
fn has_left(before: Option<Owner>, locks: &LockTable) -> bool
    ensures { result ≡ has_left before locks.now }
{
    match before {
        None => false,
        Some(owner) => !is_writer(locks, LockId::Write, owner),
    }
}

/// The salts of a log that has committed frames.
fn salts_of(log: &WalFile) -> [u8; 8]
    requires { 0 < committed_count (contents_of log.now) }
    ensures { result ≡ take 8 (drop 16 (contents_of log.now)) }
{
    committed_frames_say();
    let mut salts = [0u8; 8];
    // All eight are there.
    log.read(16, &mut salts);
    salts
}

/// Whether the index is of the committed frames of the log, where there is an index and there are frames.
fn is_index_of(shared: &SharedMemory, log: &WalFile) -> bool
    ensures { result ≡ is_index_of shared.now (contents_of log.now) }
{
    let frames = log.committed_frames();
    if !shared.has_index() || frames == 0 {
        return true;
    }
    shared.names_log(frames, &salts_of(log))
}

/// Makes the header of an index zeros that doesn't name the committed frames, once the owner who held
/// WRITE before has left it.
pub fn settle_index(
    shared: &mut SharedMemory,
    log: &WalFile,
    before: Option<Owner>,
    locks: &LockTable,
)
    ensures { shared.new ≡ settled_index (has_left before locks.now) (contents_of log.now) shared.old }
{
    if has_left(before, locks) && !is_index_of(shared, log) {
        shared.clear_header();
    }
}

impl View {
    fn grant(
        &mut self,
        scene: &Scene,
        owner: Owner,
        locks: LockSet,
        kind: LockKind,
    ) -> Result<(), ViewFault>
        ensures done { OnOk result (self.new ≡ with_locks self.old (granted self.old.locks owner locks kind)) }
        ensures allowed { OnOk result (IsAllowed (grant_rows self.old scene.now owner locks kind)) }
        ensures cause { IfErr result (HasCause needs.Memory (grant_rows self.old scene.now owner locks kind)) }
        ensures err { OnErr result (self.new ≡ self.old) }
    {
        if scene.role.is_replica() && kind == LockKind::Write && locks.has(LockId::Halt) {
            return Err(ViewFault::Errno(EROFS));
        }
        let before = self.locks.writer(LockId::Write);
        match self.locks.set(owner, locks, kind) {
            Ok(()) => {}
            Err(SetFault::Conflict { .. }) => return Err(ViewFault::Errno(EAGAIN)),
            Err(SetFault::Full { .. }) => return Err(ViewFault::Errno(ENOLCK)),
            Err(SetFault::NoMemory) => return Err(ViewFault::NoMemory),
        }
        settle_index(&mut self.shared, &self.log, before, &self.locks);
        settle_torn(&mut self.torn, &self.locks);
        settle_database(&mut self.database, &mut self.writer, &self.locks);
        Ok(())
    }

    fn unlock(&mut self, owner: Owner, locks: LockSet)
        ensures { self.new ≡ with_locks self.old (without (in_set owner locks) self.old.locks) }
    {
        let before = self.locks.writer(LockId::Write);
        self.locks.release(owner, locks);
        settle_index(&mut self.shared, &self.log, before, &self.locks);
        settle_torn(&mut self.torn, &self.locks);
        settle_database(&mut self.database, &mut self.writer, &self.locks);
    }

    /// Releases what the owner holds on a file.
    pub(crate) fn release_file(&mut self, owner: Owner, file: FileKind)
        ensures { self.new ≡ with_locks self.old (without (on_file owner file) self.old.locks) }
    {
        let before = self.locks.writer(LockId::Write);
        self.locks.release_file(owner, file);
        settle_index(&mut self.shared, &self.log, before, &self.locks);
        settle_torn(&mut self.torn, &self.locks);
        settle_database(&mut self.database, &mut self.writer, &self.locks);
    }

    /// Releases what the owners of a session hold.
    pub(crate) fn release_session(&mut self, session: u64)
        ensures { self.new ≡ with_locks self.old (without (of_session session) self.old.locks) }
    {
        let before = self.locks.writer(LockId::Write);
        self.locks.release_session(session);
        settle_index(&mut self.shared, &self.log, before, &self.locks);
        settle_torn(&mut self.torn, &self.locks);
        settle_database(&mut self.database, &mut self.writer, &self.locks);
    }

    /// SETLK and SETLKW.
    pub(crate) fn setlk(&mut self, scene: &Scene, lock: Lock) -> Result<(), ViewFault>
        ensures done { OnOk result (self.new ≡ after_wish self.old (owner_of scene.now lock.owner) (locks_at lock.node lock.start lock.end) lock.wish) }
        ensures allowed { OnOk result (IsAllowed (setlk_rows self.old scene.now lock.node lock.fh (owner_of scene.now lock.owner) (locks_at lock.node lock.start lock.end) lock.wish)) }
        ensures cause { IfErr result (HasCause (lock_needs lock.wish) (setlk_rows self.old scene.now lock.node lock.fh (owner_of scene.now lock.owner) (locks_at lock.node lock.start lock.end) lock.wish)) }
        ensures err { OnErr result (self.new ≡ self.old) }
    {
        self.lock_handle(scene, lock.node, lock.fh)?;
        let owner = scene.owner(lock.owner);
        let locks = locks_at(lock.node, lock.start, lock.end);
        match lock.wish {
            LockWish::Read => self.grant(scene, owner, locks, LockKind::Read),
            LockWish::Write => self.grant(scene, owner, locks, LockKind::Write),
            LockWish::Unlock => {
                self.unlock(owner, locks);
                Ok(())
            }
        }
    }

    /// The lock that is in the way of an owner, or the range where none is.
    fn conflict_reply(&self, scene: &Scene, lock: Lock, kind: LockKind) -> Reply
        ensures { result ≡ conflict_reply self.now.locks lock.start lock.end (conflict self.now.locks (owner_of scene.now lock.owner) (locks_at lock.node lock.start lock.end) kind) }
    {
        let owner = scene.owner(lock.owner);
        let locks = locks_at(lock.node, lock.start, lock.end);
        match self.locks.first_conflict(owner, locks, kind) {
            None => lock.free(),
            Some((found, holder)) => Reply::Lock {
                start: found.first_byte(),
                end: found.last_byte(),
                kind: wish_of(self.locks.holds(holder, found)),
            },
        }
    }

    /// GETLK.
    pub(crate) fn getlk(&self, scene: &Scene, lock: Lock) -> Result<Reply, ViewFault>
        ensures done { IfOk result (λ reply. reply ≡ getlk_reply self.now (owner_of scene.now lock.owner) (locks_at lock.node lock.start lock.end) lock.start lock.end lock.wish) }
        ensures allowed { OnOk result (IsAllowed (lock_handle_rows self.now scene.now lock.node lock.fh)) }
        ensures cause { IfErr result (HasCause needs.Nothing (lock_handle_rows self.now scene.now lock.node lock.fh)) }
    {
        self.lock_handle(scene, lock.node, lock.fh)?;
        Ok(match lock.wish {
            LockWish::Read => self.conflict_reply(scene, lock, LockKind::Read),
            LockWish::Write => self.conflict_reply(scene, lock, LockKind::Write),
            LockWish::Unlock => lock.free(),
        })
    }

    /// GETLK.
    pub(crate) fn answer_getlk(&self, scene: &Scene, lock: Lock) -> Result<Plan, ViewFault>
        ensures done { IfOk result (λ plan. IsReplied plan (getlk_reply self.now (owner_of scene.now lock.owner) (locks_at lock.node lock.start lock.end) lock.start lock.end lock.wish) self.now self.now) }
        ensures allowed { OnOk result (IsAllowed (lock_handle_rows self.now scene.now lock.node lock.fh)) }
        ensures cause { IfErr result (HasCause needs.Nothing (lock_handle_rows self.now scene.now lock.node lock.fh)) }
    {
        let reply = self.getlk(scene, lock)?;
        Ok(Plan::Reply(reply))
    }

    /// SETLK, and SETLKW, which is asked again while it is refused for a conflict.
    pub(crate) fn answer_setlk(&mut self, scene: &Scene, lock: Lock) -> Result<Plan, ViewFault>
        ensures done { IfOk result (λ plan. IsReplied plan reply.Empty (after_wish self.old (owner_of scene.now lock.owner) (locks_at lock.node lock.start lock.end) lock.wish) self.new) }
        ensures allowed { OnOk result (IsAllowed (setlk_rows self.old scene.now lock.node lock.fh (owner_of scene.now lock.owner) (locks_at lock.node lock.start lock.end) lock.wish)) }
        ensures cause { IfErr result (HasCause (lock_needs lock.wish) (setlk_rows self.old scene.now lock.node lock.fh (owner_of scene.now lock.owner) (locks_at lock.node lock.start lock.end) lock.wish)) }
        ensures err { OnErr result (self.new ≡ self.old) }
    {
        self.setlk(scene, lock)?;
        Ok(Plan::Reply(Reply::Empty))
    }
}
