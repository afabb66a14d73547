//! The changing calls of a disk in memory, as it keeps them.
ghost use Rattle.std.specs.Prelude.{◌≡◌, ◌⊎◌, ◌≤◌, ◌<◌, ◌^◌, vec_len, vec_capacity, ◌++◌, ◌∷◌, [], true, false, length, IsErr, OnOk, OnErr};
ghost use Rattle.lf_disk.specs.Folder.{Same};
ghost use Rattle.lf_disk.specs.Slots.{folder_of, IsOrderly};
ghost use Rattle.lf_disk.specs.Replay.{changed};

use crate::name::FileName;
use crate::slots::{self, Slot};
use lf_base::Bytes;
use std::alloc::{AllocError, Global};

/// At this moment every changing call fails.
pub const LAST_MOMENT: usize = 1 << 62;

/// What a call changes.
#[derive(Debug, Drop)]
pub enum Change {
    Write {
        name: FileName,
        at: u64,
        piece: Bytes,
    },
    Cut {
        name: FileName,
        len: u64,
    },
    Sync {
        name: FileName,
    },
    Rename {
        from: FileName,
        to: FileName,
    },
    Remove {
        name: FileName,
    },
}

/// A changing call, and whether it was done. One that failed may have been, as far as a crash shows.
#[derive(Debug, Drop)]
pub struct Call {
    pub change: Change,
    pub done: bool,
}

/// Makes a change.
pub fn apply(alloc: Global, slots: &mut Vec<Slot>, change: &Change) -> Result<(), AllocError>
    ensures ok { OnOk result
        (Same (changed change.now (folder_of slots.old.items)) (folder_of slots.new.items)) }
    ensures err { OnErr result (Same (folder_of slots.old.items) (folder_of slots.new.items)) }
    ensures orderly { IsOrderly slots.old.items → IsOrderly slots.new.items }
{
    match change {
        Change::Write { name, at, piece } => {
            slots::write(alloc, slots, *name, *at as usize, piece.as_slice())
        }
        Change::Cut { name, len } => slots::cut(alloc, slots, *name, *len as usize),
        Change::Sync { name: _ } => Ok(()),
        Change::Rename { from, to } => slots::rename(slots, *from, *to),
        Change::Remove { name } => Ok(slots::remove(slots, *name)),
    }
}

/// Makes a change and records it.
pub fn enact(
    alloc: Global,
    calls: &mut Vec<Call>,
    slots: &mut Vec<Slot>,
    change: Change,
) -> Result<(), AllocError>
    ensures ok { OnOk result
        (calls.new.items ≡ calls.old.items ++ record { change = change; done = true } ∷ []) }
    ensures folder { OnOk result
        (Same (changed change (folder_of slots.old.items)) (folder_of slots.new.items)) }
    ensures err { OnErr result ((calls.new.items ≡ calls.old.items)
        × Same (folder_of slots.old.items) (folder_of slots.new.items)) }
    ensures orderly { IsOrderly slots.old.items → IsOrderly slots.new.items }
    ensures last { 2 ^ 62 ≤ length calls.old.items → IsErr result }
{
    if calls.len() >= LAST_MOMENT {
        return Err(AllocError);
    }
    calls.reserve(1)?;
    apply(alloc, slots, &change)?;
    match calls.push(Call { change, done: true }) {
        Ok(()) => Ok(()),
        Err(_) => unreachable!(),
    }
}

/// Records a call that failed, wherever there is room for it.
pub fn note_failed(calls: &mut Vec<Call>, change: Change)
    ensures noted { (calls.new.items ≡ calls.old.items)
        ⊎ (calls.new.items ≡ calls.old.items ++ record { change = change; done = false } ∷ []) }
    ensures room { vec_len calls.old < vec_capacity calls.old → vec_len calls.old < 2 ^ 62 →
        calls.new.items ≡ calls.old.items ++ record { change = change; done = false } ∷ [] }
    ensures last { 2 ^ 62 ≤ length calls.old.items → calls.new.items ≡ calls.old.items }
{
    if calls.len() < LAST_MOMENT {
        let _ = calls.push(Call {
            change,
            done: false,
        });
    }
}
