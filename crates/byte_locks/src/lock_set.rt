ghost use Rattle.std.specs.Prelude.{◌≡◌, ◌↔◌, ◌||◌, true, false, Contains, IsTrue, IsFalse};
ghost use Rattle.byte_locks.specs.LockBytes.{Touches};
ghost use Rattle.byte_locks.specs.declared.lock_id.LockId.{LockId};
ghost use Rattle.byte_locks.specs.LockSet.{has, one, none, union, locks_of};

use crate::lock_bytes::has_byte_in;
use crate::lock_id::{LOCKS, all};
use crate::{FileKind, LockId};
use std::marker::Model;

/// A set of locks.
#[derive(Clone, Copy, Debug, PartialEq, Eq)]
pub struct LockSet {
    marks: [bool; LOCKS],
}

impl Model for LockSet {
    ghost use Rattle.std.specs.Prelude.{List, Bool};

    ghost Value = { List Bool };

    ghost view = { λ s. s.marks };

    ghost inverse = { λ marks. record { marks = marks } };
}

impl LockSet {
    /// The set of one lock.
    pub fn one(lock: LockId) -> LockSet
        ensures { result ≡ one lock }
    {
        LockSet {
            marks: all().map(|other| lock == other),
        }
    }

    /// The set of no lock.
    #[tactic(auto, unfolding(crate::specs::LockId::every_lock))]
    pub fn none() -> LockSet
        ensures value { result ≡ none }
        ensures nothing { (lock : LockId) → has result lock ≡ false }
    {
        LockSet {
            marks: [false; LOCKS],
        }
    }

    /// The set of the locks of both sets.
    pub fn union(self, other: LockSet) -> LockSet
        ensures value { result ≡ union self other }
        ensures either { (lock : LockId) → has result lock ≡ (has self lock || has other lock) }
    {
        LockSet {
            marks: all().map(|lock| self.has(lock) || other.has(lock)),
        }
    }

    /// Whether no lock is in the set.
    #[tactic(auto, using(crate::proofs::Tied::in_no_set))]
    pub fn is_empty(&self) -> bool
        ensures value { IsFalse result ↔ Contains self.now true }
        ensures nothing { IsTrue result → (lock : LockId) → has self.now lock ≡ false }
    {
        self.has_no_mark()
    }

    fn has_no_mark(&self) -> bool
        ensures some { IsFalse result → Contains self.now true }
        ensures none { IsTrue result → Contains self.now true → ⊥ }
    {
        !self.marks.contains(&true)
    }

    /// Whether the lock is in the set.
    pub fn has(&self, lock: LockId) -> bool
        ensures { result ≡ has self.now lock }
    {
        self.marks[lock.place()]
    }
}

/// The locks of a file with a byte in the range from `start` to `end`, both included.
pub fn locks_of(file: FileKind, start: u64, end: u64) -> LockSet
    ensures value { result ≡ locks_of file start end }
    ensures touched { (lock : LockId) → IsTrue (has result lock) ↔ Touches file start end lock }
{
    LockSet {
        marks: all().map(|lock| has_byte_in(lock, file, start, end)),
    }
}
