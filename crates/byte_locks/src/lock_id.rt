ghost use Rattle.std.specs.Prelude.{◌≡◌};
ghost use Rattle.byte_locks.specs.LockId.{place_of, every_lock};

/// A lock, in the order of their bytes: SQLite's, three of the database file and nine of the shared memory;
/// then two of the lock file: that of a halted primary, and the one that a client of many owners holds.
#[derive(Clone, Copy, Debug, PartialEq, Eq)]
pub enum LockId {
    Pending,
    Reserved,
    Shared,
    Write,
    Ckpt,
    Recover,
    Read0,
    Read1,
    Read2,
    Read3,
    Read4,
    Dms,
    Halt,
    Many,
}

/// How many locks there are.
pub const LOCKS: usize = 14;

/// Every lock, in order.
#[tactic(auto, unfolding(crate::specs::LockId::every_lock))]
pub(crate) fn all() -> [LockId; LOCKS]
    ensures { result ≡ every_lock }
{
    [
        LockId::Pending,
        LockId::Reserved,
        LockId::Shared,
        LockId::Write,
        LockId::Ckpt,
        LockId::Recover,
        LockId::Read0,
        LockId::Read1,
        LockId::Read2,
        LockId::Read3,
        LockId::Read4,
        LockId::Dms,
        LockId::Halt,
        LockId::Many,
    ]
}

impl LockId {
    /// Every lock, in order.
    pub fn every() -> [LockId; LOCKS]
        ensures { result ≡ every_lock }
    {
        all()
    }

    /// Its place among all locks.
    pub(crate) fn place(self) -> usize
        ensures { result ≡ place_of self }
    {
        self as usize
    }
}
