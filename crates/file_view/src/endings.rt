//! What happens to the served files beside requests. None of these takes memory.
ghost use Rattle.std.specs.Prelude.{◌≡◌, ◌≤◌, Some, None, Ok, Err, OnOk, IfErr, []};
ghost use Rattle.std.specs.Option.{option_map};
ghost use Rattle.byte_locks.specs.LockList.{is_held};
ghost use Rattle.byte_locks.specs.ModeLocks.{blocking_locks};
ghost use Rattle.database_file.specs.DatabaseFile.{KeepsNothing};
ghost use Rattle.file_view.specs.Endings.{dropped, ended, committed, abandoned, applied, applied_index, first_blocking, is_inside};

use crate::view::View;
use byte_locks::{LockId, Owner};
use shm_index::SharedMemory;
use wal_watch::{WalFile, committed_frames_say};

/// The locks that hold a frame back where the committed image is in rollback mode.
const ROLLBACK_LOCKS: [LockId; 3] = [LockId::Pending, LockId::Reserved, LockId::Shared];

/// The same where it is in WAL mode.
const WAL_LOCKS: [LockId; 8] = [
    LockId::Write,
    LockId::Ckpt,
    LockId::Recover,
    LockId::Read0,
    LockId::Read1,
    LockId::Read2,
    LockId::Read3,
    LockId::Read4,
];

#[tactic(auto, unfolding(byte_locks::specs::ModeLocks::blocking_locks))]
fn blocking_locks(wal: bool) -> &'static [LockId]
    ensures { result.now ≡ blocking_locks wal }
{
    if wal { &WAL_LOCKS } else { &ROLLBACK_LOCKS }
}

/// Cuts the log to no bytes, if it is there.
fn empty_log(log: &mut WalFile)
    ensures contents { log.new.contents ≡ option_map (λ _. []) log.old.contents }
    ensures room { log.new.room ≡ log.old.room }
{
    if log.len().is_some() {
        committed_frames_say();
        log.cut(0).unwrap();
    }
}

/// Makes the index that of a log without frames over a new image, or none where there is no page size.
fn settle_applied(shared: &mut SharedMemory, page_size: u32, commit: u32)
    requires { page_size ≤ 65536 }
    ensures { shared.new ≡ applied_index page_size commit shared.old }
{
    if page_size == 0 {
        shared.clear_header();
    } else {
        shared.begin_index(page_size, commit);
    }
}

impl View {
    /// Drops the uncommitted pages, since the node is no longer one that writes. Their owner is torn
    /// until it no longer holds EXCLUSIVE.
    pub fn drop_uncommitted(&mut self)
        ensures { self.new ≡ dropped self.old }
    {
        if let Some(owner) = self.writer {
            self.database.clear();
            self.torn = Some(owner);
            self.writer = None;
        }
    }

    /// Takes the handles and the locks of a session, and what goes with them.
    pub fn end_session(&mut self, session: u64)
        ensures { self.new ≡ ended self.old session }
    {
        self.handles.close_session(session);
        self.release_session(session);
    }

    /// Whether anybody holds a lock.
    pub fn held(&self, lock: LockId) -> bool
        ensures { result ≡ is_held self.now.locks lock }
    {
        self.locks.held(lock)
    }

    /// The first lock that holds a frame back, by the mode of the committed image.
    fn first_blocking(&self, wal: bool) -> Option<LockId>
        ensures { result ≡ first_blocking self.now wal }
    {
        blocking_locks(wal)
            .iter()
            .copied()
            .find(|lock| self.locks.held(*lock))
    }

    /// Whether no lock holds a frame back, by the mode of the committed image; else the first that does.
    pub fn apply_clear(&self, wal: bool) -> Result<(), LockId>
        ensures clear { OnOk result (first_blocking self.now wal ≡ None) }
        ensures held { IfErr result (λ lock. first_blocking self.now wal ≡ Some lock) }
    {
        match self.first_blocking(wal) {
            None => Ok(()),
            Some(lock) => Err(lock),
        }
    }

    /// Whether an owner holds a lock that holds a frame back, by the mode of the committed image.
    pub fn is_inside(&self, owner: Owner, wal: bool) -> bool
        ensures { result ≡ is_inside self.now owner wal }
    {
        blocking_locks(wal)
            .iter()
            .any(|lock| self.locks.holds(owner, *lock).is_some())
    }

    /// Does the request that waits, over the committed image that its change has led to.
    pub fn commit_done(&mut self)
        ensures done { self.new ≡ committed self.old }
        ensures fits { self.old.held_write ≡ None → KeepsNothing self.new.database }
    {
        if self.database.waits() {
            self.database.finish(&mut self.log);
            return;
        }
        self.journal.finish();
        self.database.clear();
        self.writer = None;
        self.torn = None;
    }

    /// Gives the request that waits up.
    pub fn abandon(&mut self)
        ensures { self.new ≡ abandoned self.old }
    {
        self.journal.forget();
        self.database.forget();
    }

    /// The committed image is another now, of this page size and number of pages: the database file is
    /// that, and journal and log have no bytes. A page size of 0 says that the database was dropped.
    /// Handles and locks stay, and a request that waits goes on to wait; of a write to the log nothing is
    /// left to write.
    pub fn applied(&mut self, page_size: u32, commit: u32)
        requires { page_size ≤ 65536 }
        ensures done { self.new ≡ applied self.old page_size commit }
        ensures fits { KeepsNothing self.new.database }
    {
        self.database.overtake();
        self.journal.empty();
        empty_log(&mut self.log);
        settle_applied(&mut self.shared, page_size, commit);
        self.writer = None;
    }
}
