ghost use Rattle.std.specs.Prelude.{◌≡◌, ◌≢◌, [], IfSome, IfNone, IsFalse, OnOk, OnErr, IfErr, Some, None, IsSome, ◌↔◌};
ghost use Rattle.byte_locks.specs.declared.owner.Owner.{Owner};
ghost use Rattle.byte_locks.specs.LockEntry.{in_set, on_file, of_session};
ghost use Rattle.byte_locks.specs.LockList.{IsLockList, kind_held, is_held, is_held_by, writer_of, IsFree, StandsAgainst, IsShared, holder_count, HeldAfter};
ghost use Rattle.byte_locks.specs.LockList.{opponent, first_contested, conflict, is_full, first_full, MayGrant, HasCause, granted, without};

use crate::grant::{grant, kind_held};
use crate::lock_bytes::file_of;
use crate::lock_id::all;
use crate::{FileKind, LockEntry, LockId, LockKind, LockSet, Owner, SetFault};
use std::alloc::Global;
use std::marker::Model;

/// How many may hold one lock.
pub(crate) const MOST_HOLDERS: usize = 1024;

/// Who holds which lock how, in the order of granting.
#[derive(Debug, Drop)]
pub struct LockTable {
    entries: Vec<LockEntry>,
}

impl Model for LockTable {
    ghost use Rattle.byte_locks.specs.LockList.{LockList, IsLockList};

    ghost Value = { LockList };

    ghost view = { λ t. t.entries.items };

    ghost invariant = { λ t. IsLockList t.entries.items };
}

impl LockTable {
    /// The empty table.
    pub fn new(alloc: Global) -> LockTable
        ensures { result ≡ [] }
    {
        LockTable {
            entries: Vec::new(alloc),
        }
    }

    /// Gives the owner the locks in this kind, all or none. A lock that it holds already keeps its
    /// place in the table and changes its kind. After a refusal the table is as before.
    pub fn set(&mut self, owner: Owner, locks: LockSet, kind: LockKind) -> Result<(), SetFault>
        ensures ok { OnOk result (self.new ≡ granted self.old owner locks kind) }
        ensures held { OnOk result (HeldAfter self.old self.new (in_set owner locks) (Some kind)) }
        ensures only_if_free { OnOk result (MayGrant self.old owner locks kind) }

        ensures cause { IfErr result (HasCause self.old owner locks kind) }
        ensures unchanged { OnErr result (self.new ≡ self.old) }
    {
        if let Some((lock, holder)) = self.first_conflict(owner, locks, kind) {
            return Err(SetFault::Conflict { lock, holder });
        }
        if let Some(lock) = self.first_full(owner, locks) {
            return Err(SetFault::Full { lock });
        }
        grant(&mut self.entries, owner, locks, kind)?;
        Ok(())
    }

    /// What `set` would name: the first of the locks in order that another owner keeps this one from,
    /// and the oldest who does.
    #[tactic(auto, using(crate::proofs::Tied::stands_against, crate::proofs::Tied::is_shared))]
    pub fn first_conflict(
        &self,
        owner: Owner,
        locks: LockSet,
        kind: LockKind,
    ) -> Option<(LockId, Owner)>
        ensures value { result ≡ conflict self.now owner locks kind }
        ensures holder { IfSome result (λ found. StandsAgainst self.now owner locks found.0 found.1) }
        ensures none { IfNone result (IsShared self.now owner locks kind) }
    {
        self.conflict(owner, locks, kind)
    }

    fn conflict(&self, owner: Owner, locks: LockSet, kind: LockKind) -> Option<(LockId, Owner)>
        ensures { result ≡ conflict self.now owner locks kind }
    {
        let lock = self.first_contested(owner, locks, kind)?;
        let holder = self.opponent(owner, lock, kind)?;
        Some((lock, holder))
    }

    /// The first of the locks that another owner keeps this one from.
    fn first_contested(&self, owner: Owner, locks: LockSet, kind: LockKind) -> Option<LockId>
        ensures { result ≡ first_contested self.now owner locks kind }
    {
        all().iter().copied().find(|lock| locks.has(*lock)
            && self.opponent(owner, *lock, kind).is_some())
    }

    /// The oldest holder that keeps the owner from the lock.
    fn opponent(&self, owner: Owner, lock: LockId, kind: LockKind) -> Option<Owner>
        ensures { result ≡ opponent self.now owner lock kind }
    {
        self.entries
            .iter()
            .find(|entry| entry.opposes(owner, lock, kind))
            .map(|entry| entry.owner)
    }

    /// How the owner holds the lock, if it does.
    pub fn holds(&self, owner: Owner, lock: LockId) -> Option<LockKind>
        ensures value { result ≡ kind_held self.now owner lock }
        ensures list { IsLockList self.now }
        ensures alone { result ≡ Some LockKind.Write → (other : Owner) → IsSome (kind_held self.now other lock) → other ≡ owner }
    {
        kind_held(&self.entries, owner, lock)
    }

    /// Whether anybody holds the lock.
    #[tactic(auto, using(crate::proofs::Tied::nobody_holds))]
    pub fn held(&self, lock: LockId) -> bool
        ensures value { result ≡ is_held self.now lock }
        ensures nobody { IsFalse result ↔ IsFree self.now lock }
    {
        self.is_held(lock)
    }

    /// Whether an owner of the session holds the lock.
    pub fn held_by(&self, session: u64, lock: LockId) -> bool
        ensures { result ≡ is_held_by self.now session lock }
    {
        self.entries.iter().any(|entry| entry.lock == lock && entry.owner.session == session)
    }

    fn is_held(&self, lock: LockId) -> bool
        ensures { result ≡ is_held self.now lock }
    {
        self.entries.iter().any(|entry| entry.lock == lock)
    }

    /// Who holds the lock for writing, if anybody does.
    #[tactic(auto, using(crate::proofs::Tied::writer_holds, crate::proofs::Tied::no_writer))]
    pub fn writer(&self, lock: LockId) -> Option<Owner>
        ensures value { result ≡ writer_of self.now lock }
        ensures holds { IfSome result (λ owner. kind_held self.now owner lock ≡ Some LockKind.Write) }
        ensures none { IfNone result ((owner : Owner) → kind_held self.now owner lock ≢ Some LockKind.Write) }
    {
        self.sound();
        self.find_writer(lock)
    }

    /// What is always true of the table. It does nothing: a caller's proof takes the fact from here.
    fn sound(&self)
        ensures { IsLockList self.now }
    {
        let _ = &self.entries;
    }

    fn find_writer(&self, lock: LockId) -> Option<Owner>
        ensures { result ≡ writer_of self.now lock }
    {
        self.entries
            .iter()
            .find(|entry| entry.writes(lock))
            .map(|entry| entry.owner)
    }

    /// Releases what the owner holds of the locks.
    pub fn release(&mut self, owner: Owner, locks: LockSet)
        ensures entries { self.new ≡ without (in_set owner locks) self.old }
        ensures held { HeldAfter self.old self.new (in_set owner locks) None }
    {
        self.entries
            .retain(|entry| !(entry.owner == owner && locks.has(entry.lock)));
    }

    /// Releases what the owner holds on the file.
    pub fn release_file(&mut self, owner: Owner, file: FileKind)
        ensures entries { self.new ≡ without (on_file owner file) self.old }
        ensures held { HeldAfter self.old self.new (on_file owner file) None }
    {
        self.entries.retain(|entry| !(entry.owner == owner && file_of(entry.lock) == file));
    }

    /// Releases what all owners of the session hold.
    pub fn release_session(&mut self, session: u64)
        ensures entries { self.new ≡ without (of_session session) self.old }
        ensures held { HeldAfter self.old self.new (of_session session) None }
    {
        self.entries.retain(|entry| entry.owner.session != session);
    }

    /// The first of the locks that has no room for the owner.
    fn first_full(&self, owner: Owner, locks: LockSet) -> Option<LockId>
        ensures { result ≡ first_full self.now owner locks }
    {
        all()
            .iter()
            .copied()
            .find(|lock| locks.has(*lock) && self.is_full(owner, *lock))
    }

    /// Whether the owner lacks the lock and it has as many holders as it may.
    fn is_full(&self, owner: Owner, lock: LockId) -> bool
        ensures { result ≡ is_full self.now owner lock }
    {
        self.holds(owner, lock).is_none() && self.holder_count(lock) >= MOST_HOLDERS
    }

    fn holder_count(&self, lock: LockId) -> usize
        ensures { result ≡ holder_count self.now lock }
    {
        self.entries
            .iter()
            .filter(|entry| entry.lock == lock)
            .count()
    }
}
