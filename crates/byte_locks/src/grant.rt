ghost use Rattle.std.specs.Prelude.{◌≡◌, ◌+◌, ◌++◌, ◌≤◌, map, vec_len, vec_capacity, OnOk, OnErr};
ghost use Rattle.byte_locks.specs.LockEntry.{in_kind};
ghost use Rattle.byte_locks.specs.LockList.{kind_held, is_missing, missing, entries_for, granted};
ghost use Rattle.byte_locks.specs.declared.lock_id.TheConstants.{LOCKS};

use crate::lock_id::{LOCKS, all};
use crate::{LockEntry, LockId, LockKind, LockSet, Owner};
use lf_base::NoMemory;

/// Grants the locks: takes all memory first, and changes the entries only then.
pub(crate) fn grant(
    entries: &mut Vec<LockEntry>,
    owner: Owner,
    locks: LockSet,
    kind: LockKind,
) -> Result<(), NoMemory>
    ensures ok { OnOk result (entries.new.items ≡ granted entries.old.items owner locks kind) }
    ensures err { OnErr result (entries.new.items ≡ entries.old.items) }
{
    make_room(entries)?;
    append_missing(entries, owner, locks, kind);
    change_kinds(entries, owner, locks, kind);
    Ok(())
}

/// Takes the memory for an entry on each lock.
fn make_room(entries: &mut Vec<LockEntry>) -> Result<(), NoMemory>
    ensures same { entries.new.items ≡ entries.old.items }
    ensures room { OnOk result (vec_len entries.new + LOCKS ≤ vec_capacity entries.new) }
{
    entries.reserve(LOCKS).map_err(|_| NoMemory)
}

/// Adds an entry on each of the locks that the owner does not hold.
fn append_missing(entries: &mut Vec<LockEntry>, owner: Owner, locks: LockSet, kind: LockKind)
    requires { vec_len entries.old + LOCKS ≤ vec_capacity entries.old }
    ensures { entries.new.items ≡ entries.old.items ++ entries_for owner (missing entries.old.items owner locks) kind }
{
    let before = entries.len();
    for lock in all() {
        if is_missing(&entries[..before], owner, locks, lock) {
            entries.push_reserved(LockEntry { owner, lock, kind });
        }
    }
}

/// Whether the lock is one of the locks and the owner does not hold it.
fn is_missing(entries: &[LockEntry], owner: Owner, locks: LockSet, lock: LockId) -> bool
    ensures { result ≡ is_missing entries.now owner locks lock }
{
    locks.has(lock) && kind_held(entries, owner, lock).is_none()
}

/// Puts what the owner holds of the locks in this kind.
fn change_kinds(entries: &mut Vec<LockEntry>, owner: Owner, locks: LockSet, kind: LockKind)
    ensures { entries.new.items ≡ map (in_kind owner locks kind) entries.old.items }
{
    for entry in entries.iter_mut() {
        *entry = entry.in_kind(owner, locks, kind);
    }
}

/// How the owner holds the lock, if it does.
pub(crate) fn kind_held(entries: &[LockEntry], owner: Owner, lock: LockId) -> Option<LockKind>
    ensures { result ≡ kind_held entries.now owner lock }
{
    entries
        .iter()
        .find(|entry| entry.is_of(owner, lock))
        .map(|entry| entry.kind)
}
