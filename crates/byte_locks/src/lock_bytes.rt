ghost use Rattle.std.specs.Prelude.{◌≡◌, ◌<◌, ◌^◌};
ghost use Rattle.byte_locks.specs.LockBytes.{file_of, first_byte, last_byte, byte_count, touches};

use crate::LockId;

/// The files of a database, as far as locks go.
#[derive(Clone, Copy, Debug, PartialEq, Eq)]
pub enum FileKind {
    Database,
    Journal,
    Wal,
    Shm,
    PosFile,
    LockFile,
    Primary,
}

impl LockId {
    /// Its first byte in its file.
    pub fn first_byte(self) -> u64
        ensures { result ≡ first_byte self }
    {
        first_byte(self)
    }

    /// Its last byte in its file.
    pub fn last_byte(self) -> u64
        ensures { result ≡ last_byte self }
    {
        first_byte(self) + byte_count(self) - 1
    }
}

/// Whether the lock lies on the file and has a byte in the range.
pub(crate) fn has_byte_in(lock: LockId, file: FileKind, start: u64, end: u64) -> bool
    ensures { result ≡ touches file start end lock }
{
    let first = first_byte(lock);
    let last = first + byte_count(lock) - 1;
    file_of(lock) == file && start.max(first) <= end.min(last)
}

/// The file on which a lock lies.
pub(crate) fn file_of(lock: LockId) -> FileKind
    ensures { result ≡ file_of lock }
{
    match lock {
        LockId::Pending | LockId::Reserved | LockId::Shared => FileKind::Database,
        LockId::Halt | LockId::Many => FileKind::LockFile,
        _ => FileKind::Shm,
    }
}

/// A lock's first byte in its file.
fn first_byte(lock: LockId) -> u64
    ensures value { result ≡ first_byte lock }
    ensures bound { result < 2 ^ 32 }
{
    match lock {
        LockId::Pending => 0x4000_0000,
        LockId::Reserved => 0x4000_0001,
        LockId::Shared => 0x4000_0002,
        LockId::Write => 120,
        LockId::Ckpt => 121,
        LockId::Recover => 122,
        LockId::Read0 => 123,
        LockId::Read1 => 124,
        LockId::Read2 => 125,
        LockId::Read3 => 126,
        LockId::Read4 => 127,
        LockId::Dms => 128,
        LockId::Halt => 72,
        LockId::Many => 73,
    }
}

/// How many bytes a lock has.
fn byte_count(lock: LockId) -> u64
    ensures value { result ≡ byte_count lock }
    ensures bound { result < 1000 }
{
    match lock {
        LockId::Shared => 510,
        _ => 1,
    }
}
