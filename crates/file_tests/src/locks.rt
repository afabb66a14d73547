//! Which locks a range of bytes touches, and who is granted what.

use crate::same::same;
use byte_locks::{FileKind, LockId, LockKind, LockSet, LockTable, Owner, SetFault, locks_of};
use std::process::Abort;

const ORDER: [LockId; 14] = [
    LockId::Pending,
    LockId::Reserved,
    LockId::Shared,
    LockId::Write,
    LockId::Ckpt,
    LockId::Recover,
    LockId::Read0,
    LockId::Read1,
    LockId::Read2,
    LockId::Read3,
    LockId::Read4,
    LockId::Dms,
    LockId::Halt,
    LockId::Many,
];

/// `PENDING_BYTE`, `RESERVED_BYTE`, `SHARED_FIRST` and `SHARED_SIZE` of SQLite's os.h, and
/// `WALINDEX_LOCK_OFFSET` and the locks behind it of its wal.c and os_unix.c. A row ends with the
/// places in `ORDER` of the locks in the range: the first, and one past the last.
const RANGES: [(FileKind, u64, u64, usize, usize); 21] = [
    (FileKind::Database, 0x4000_0000, 0x4000_0001, 0, 2),
    (FileKind::Database, 0x4000_0002, 0x4000_01ff, 2, 3),
    (FileKind::Database, 0x4000_01ff, u64::MAX, 2, 3),
    (FileKind::Database, 0x4000_0200, u64::MAX, 0, 0),
    (FileKind::Database, 0, 0x3fff_ffff, 0, 0),
    (FileKind::Database, 0, u64::MAX, 0, 3),
    (FileKind::Database, 0x4000_0100, 0x4000_0050, 0, 0),
    (FileKind::Shm, 120, 120, 3, 4),
    (FileKind::Shm, 123, 123, 6, 7),
    (FileKind::Shm, 124, 127, 7, 11),
    (FileKind::Shm, 128, u64::MAX, 11, 12),
    (FileKind::Shm, 129, u64::MAX, 0, 0),
    (FileKind::Shm, 0, u64::MAX, 3, 12),
    (FileKind::LockFile, 72, 72, 12, 13),
    (FileKind::LockFile, 73, 73, 13, 14),
    (FileKind::LockFile, 72, u64::MAX, 12, 14),
    (FileKind::LockFile, 74, u64::MAX, 0, 0),
    (FileKind::Journal, 0, u64::MAX, 0, 0),
    (FileKind::Wal, 0, u64::MAX, 0, 0),
    (FileKind::PosFile, 0, u64::MAX, 0, 0),
    (FileKind::Primary, 0, u64::MAX, 0, 0),
];

#[test]
fn ranges_touch_locks(rt: HostRuntime) {
    for (row, (file, start, end, first, past)) in RANGES.iter().copied().enumerate() {
        let locks = locks_of(file, start, end);
        for (place, lock) in ORDER.iter().enumerate() {
            let wanted = first <= place && place < past;
            same(rt, (row, place, locks.has(*lock)), (row, place, wanted));
        }
    }
}

fn owner(id: u64) -> Owner {
    Owner { session: 7, id }
}

fn refused(lock: LockId, holder: u64) -> Result<(), SetFault> {
    Err(SetFault::Conflict {
        lock,
        holder: owner(holder),
    })
}

/// Two readers of a database, one of whom wants to write, and a reader of the WAL.
#[test]
fn sessions_meet(rt: HostRuntime) {
    let mut table = LockTable::new(rt.alloc());
    readers_of_a_database_meet(rt, &mut table);
    same(
        rt,
        table.holds(owner(1), LockId::Shared),
        Some(LockKind::Write),
    );
    same(
        rt,
        table.set(owner(2), LockSet::one(LockId::Shared), LockKind::Read),
        refused(LockId::Shared, 1),
    );
    readers_of_a_log_meet(rt, &mut table);
    table.release_session(7);
    same(rt, table.held(LockId::Shared), false);
}

/// The first of two readers writes once the second is gone.
fn readers_of_a_database_meet<R: Copy + Abort>(rt: R, table: &mut LockTable) {
    let shared = LockSet::one(LockId::Shared);
    same(rt, table.set(owner(1), shared, LockKind::Read), Ok(()));
    same(rt, table.set(owner(2), shared, LockKind::Read), Ok(()));
    let refusal = refused(LockId::Shared, 2);
    same(rt, table.set(owner(1), shared, LockKind::Write), refusal);

    // Asking again does not make the first reader the newer one.
    same(rt, table.set(owner(1), shared, LockKind::Read), Ok(()));
    let first = Some((LockId::Shared, owner(1)));
    same(
        rt,
        table.first_conflict(owner(3), shared, LockKind::Write),
        first,
    );

    table.release(owner(2), shared);
    same(rt, table.holds(owner(2), LockId::Shared), None);
    same(rt, table.set(owner(1), shared, LockKind::Write), Ok(()));
}

/// The first session takes the readers' locks of the WAL once the third has let go of its files.
fn readers_of_a_log_meet<R: Copy + Abort>(rt: R, table: &mut LockTable) {
    let readers = locks_of(FileKind::Shm, 124, 127);
    let second = LockSet::one(LockId::Read2);
    same(rt, table.set(owner(3), second, LockKind::Read), Ok(()));
    let refusal = refused(LockId::Read2, 3);
    same(rt, table.set(owner(1), readers, LockKind::Write), refusal);
    same(rt, table.held(LockId::Read1), false);

    table.release_file(owner(3), FileKind::Shm);
    same(rt, table.set(owner(1), readers, LockKind::Write), Ok(()));
    same(rt, table.held(LockId::Read1), true);
}

/// The 1,025th reader is turned away, but a reader may ask again, and a conflict comes first.
#[test]
fn locks_fill_up(rt: HostRuntime) {
    let mut table = LockTable::new(rt.alloc());
    let dms = LockSet::one(LockId::Dms);
    for id in 0..1024 {
        same(rt, table.set(owner(id), dms, LockKind::Read), Ok(()));
    }
    let full = Err(SetFault::Full { lock: LockId::Dms });
    same(rt, table.set(owner(1024), dms, LockKind::Read), full);
    same(rt, table.set(owner(5), dms, LockKind::Read), Ok(()));
    let refusal = refused(LockId::Dms, 0);
    same(rt, table.set(owner(1024), dms, LockKind::Write), refusal);
    table.release(owner(0), dms);
    same(rt, table.set(owner(1024), dms, LockKind::Read), Ok(()));
}

/// Each call on sets and on bytes once.
#[test]
fn sets_and_bytes(rt: HostRuntime) {
    same(rt, LockId::every(), ORDER);
    let bytes = (LockId::Shared.first_byte(), LockId::Shared.last_byte());
    same(rt, bytes, (0x4000_0002, 0x4000_01ff));
    let both = LockSet::one(LockId::Write).union(LockSet::one(LockId::Ckpt));
    same(
        rt,
        (LockSet::none().is_empty(), both.is_empty()),
        (true, false),
    );
    same(
        rt,
        (both.has(LockId::Ckpt), both.has(LockId::Recover)),
        (true, false),
    );
}

/// A lock that is held for writing has a writer.
#[test]
fn the_writer(rt: HostRuntime) {
    let mut table = LockTable::new(rt.alloc());
    let (write, checkpoint) = (LockSet::one(LockId::Write), LockSet::one(LockId::Ckpt));
    same(rt, table.set(owner(1), write, LockKind::Write), Ok(()));
    same(rt, table.set(owner(1), checkpoint, LockKind::Read), Ok(()));
    same(rt, table.writer(LockId::Write), Some(owner(1)));
    same(rt, table.writer(LockId::Ckpt), None);
    same(
        rt,
        (table.held(LockId::Ckpt), table.held(LockId::Recover)),
        (true, false),
    );
}
