//! What a crash makes of a folder in memory, by choice.
ghost use Rattle.std.specs.Prelude.{◌≡◌, ◌≤◌, min, max, length, IfOk, OnOk};
ghost use Rattle.lf_disk.specs.Folder.{Same, bytes_of};
ghost use Rattle.lf_disk.specs.Slots.{folder_of, IsOrderly};
ghost use Rattle.lf_disk.specs.Change.{TearsFile, CropsFile};
ghost use Rattle.lf_disk.specs.Crash.{choice_of, turned, is_taken, half_way, left_of_write, left_of_cut, left_of, left_as};
ghost use Rattle.lf_disk.specs.Replay.{CrashStep, shown_after, replay, at_rest};

use crate::name::FileName;
use crate::record::{Call, Change, apply};
use crate::slots::{self, Slot};
use std::alloc::{AllocError, Global};

/// How much of a call that was not synced a crash leaves.
#[derive(Clone, Copy, Debug, PartialEq, Eq)]
enum Choice {
    Lost,
    Torn,
    Whole,
}

/// The choice that the last two bits of a number make.
fn choice_of(number: u64) -> Choice
    ensures { result ≡ choice_of number }
{
    if number % 4 == 0 {
        Choice::Lost
    } else if number % 4 == 1 {
        Choice::Torn
    } else {
        Choice::Whole
    }
}

/// The number for the next call: two bits further, round a u64.
fn turned(number: u64) -> u64
    ensures { result ≡ turned number }
{
    number / 4 + number % 4 * (1 << 62)
}

/// Whether a call that is whole or not at all is taken.
fn is_taken(choice: Choice, done: bool) -> bool
    ensures { result ≡ is_taken choice done }
{
    match choice {
        Choice::Whole => true,
        _ => done,
    }
}

/// A write: none of it, its first half, or all.
fn leave_write(
    alloc: Global,
    image: &mut Vec<Slot>,
    name: FileName,
    at: usize,
    piece: &[u8],
    choice: Choice,
) -> Result<(), AllocError>
    ensures step { OnOk result (TearsFile name at (length piece.now)
        (folder_of image.old.items) (folder_of image.new.items)) }
    ensures chosen { OnOk result (Same (left_of_write choice name at piece.now (folder_of image.old.items))
        (folder_of image.new.items)) }
    ensures orderly { IsOrderly image.old.items → IsOrderly image.new.items }
{
    match choice {
        Choice::Lost => Ok(()),
        Choice::Torn => {
            let (half, _) = piece.split_at(piece.len() / 2);
            slots::write(alloc, image, name, at, half)
        }
        Choice::Whole => slots::write(alloc, image, name, at, piece),
    }
}

/// The length half way from one to another.
fn half_way(from: usize, to: usize) -> usize
    ensures low { min from to ≤ result }
    ensures high { result ≤ max from to }
    ensures value { result ≡ half_way from to }
{
    if from < to {
        from + (to - from) / 2
    } else {
        to + (from - to) / 2
    }
}

/// A cut: none of it, a length half way, or all.
fn leave_cut(
    alloc: Global,
    image: &mut Vec<Slot>,
    name: FileName,
    len: usize,
    choice: Choice,
) -> Result<(), AllocError>
    ensures step { OnOk result (CropsFile name len
        (folder_of image.old.items) (folder_of image.new.items)) }
    ensures chosen { OnOk result (Same (left_of_cut choice name len (folder_of image.old.items))
        (folder_of image.new.items)) }
    ensures orderly { IsOrderly image.old.items → IsOrderly image.new.items }
{
    match choice {
        Choice::Lost => Ok(()),
        Choice::Torn => {
            let old = length_of(image, name);
            slots::cut(alloc, image, name, half_way(old, len))
        }
        Choice::Whole => slots::cut(alloc, image, name, len),
    }
}

fn length_of(slots: &[Slot], name: FileName) -> usize
    ensures { result ≡ length (bytes_of (folder_of slots.now name)) }
{
    match slots::find(slots, name) {
        Some(bytes) => bytes.len(),
        None => 0,
    }
}

/// What a crash leaves of a call. `seen` is what the files read as before it.
fn leave(
    alloc: Global,
    image: &mut Vec<Slot>,
    call: &Call,
    seen: &[Slot],
    choice: Choice,
) -> Result<(), AllocError>
    ensures step { OnOk result (CrashStep call.now (folder_of seen.now)
        (folder_of image.old.items) (folder_of image.new.items)) }
    ensures chosen { OnOk result (Same
        (left_of choice call.now.done call.now.change (folder_of seen.now) (folder_of image.old.items))
        (folder_of image.new.items)) }
    ensures orderly { IsOrderly image.old.items → IsOrderly image.new.items }
{
    let is_taken = is_taken(choice, call.done);
    match &call.change {
        Change::Write { name, at, piece } => {
            leave_write(alloc, image, *name, *at as usize, piece.as_slice(), choice)
        }
        Change::Cut { name, len } => leave_cut(alloc, image, *name, *len as usize, choice),
        Change::Sync { name } if is_taken => slots::copy(alloc, image, *name, seen),
        Change::Rename { from, to } if is_taken => slots::rename(image, *from, *to),
        Change::Remove { name } if is_taken => Ok(slots::remove(image, *name)),
        _ => Ok(()),
    }
}

/// What the files read as after a call.
fn follow(alloc: Global, seen: &mut Vec<Slot>, call: &Call) -> Result<(), AllocError>
    ensures { OnOk result
        (Same (shown_after call.now (folder_of seen.old.items)) (folder_of seen.new.items)) }
{
    if call.done {
        apply(alloc, seen, &call.change)
    } else {
        Ok(())
    }
}

/// A folder that a crash after these calls may leave, where nothing was pending before them. The
/// number chooses: two bits for each call, the lowest for the first.
pub fn crashed(
    alloc: Global,
    first: &[Slot],
    calls: &[Call],
    number: u64,
) -> Result<Vec<Slot>, AllocError>
    requires { IsOrderly first.now }
    ensures left { IfOk result
        (λ image. (replay (at_rest (folder_of first.now)) calls.now).leaves (folder_of image.items)) }
    ensures chosen { IfOk result (λ image. Same
        (left_as calls.now number (folder_of first.now) (folder_of first.now)) (folder_of image.items)) }
    ensures orderly { IfOk result (λ image. IsOrderly image.items) }
{
    let mut seen = slots::copied(alloc, first)?;
    let mut image = slots::copied(alloc, first)?;
    let mut choices = number;
    for call in calls {
        leave(alloc, &mut image, call, &seen, choice_of(choices))?;
        follow(alloc, &mut seen, call)?;
        choices = turned(choices);
    }
    Ok(image)
}
