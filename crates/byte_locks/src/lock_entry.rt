ghost use Rattle.std.specs.Prelude.{◌≡◌};
ghost use Rattle.byte_locks.specs.LockEntry.{is_of, opposes, writes, is_write, in_kind};

use crate::{LockId, LockKind, LockSet, Owner};

/// A lock that is held: by whom, and how.
#[derive(Clone, Copy, Debug, PartialEq, Eq)]
pub struct LockEntry {
    pub owner: Owner,
    pub lock: LockId,
    pub kind: LockKind,
}

impl LockEntry {
    /// Whether it is this owner's on this lock.
    pub(crate) fn is_of(&self, owner: Owner, lock: LockId) -> bool
        ensures { result ≡ is_of owner lock self.now }
    {
        self.owner == owner && self.lock == lock
    }

    /// Whether it keeps the owner from the lock: another's, and one of the two kinds is for writing.
    pub(crate) fn opposes(&self, owner: Owner, lock: LockId, kind: LockKind) -> bool
        ensures { result ≡ opposes owner lock kind self.now }
    {
        self.lock == lock && self.owner != owner && (is_write(kind) || is_write(self.kind))
    }

    /// Whether it is for writing on this lock.
    pub(crate) fn writes(&self, lock: LockId) -> bool
        ensures { result ≡ writes lock self.now }
    {
        self.lock == lock && is_write(self.kind)
    }

    /// The entry, in this kind where it is the owner's on one of the locks.
    pub(crate) fn in_kind(self, owner: Owner, locks: LockSet, kind: LockKind) -> LockEntry
        ensures { result ≡ in_kind owner locks kind self }
    {
        if self.owner == owner && locks.has(self.lock) {
            LockEntry { kind, ..self }
        } else {
            self
        }
    }
}

fn is_write(kind: LockKind) -> bool
    ensures { result ≡ is_write kind }
{
    matches!(kind, LockKind::Write)
}
