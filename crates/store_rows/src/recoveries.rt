//! A recovery that stops at each call of its disk, is crashed and is done again, behind each stop of the
//! script.
ghost use Rattle.std.specs.Prelude.{◌≡◌, [], IfSome};

use crate::copies::copied;
use crate::drills::ENOUGH;
use crate::script::{STAGES, STEPS};
use crate::steps::Way;
use crate::stores::{MemStore, crashed, opened, recovered};
use crate::trials::{Script, place_at, played};
use lf_disk::MemDisk;
use std::alloc::Global;
use std::io;
use test_base::{Failing, blank};

const SCRIPT: Script = Script {
    way: Way::Whole,
    steps: STEPS,
    stages: STAGES,
};

/// What is left of each call that is pending: nothing, or a part and all in turns.
const CHOICES: [u64; 2] = [0, 0x6666_6666_6666_6666];

/// More calls than a recovery here makes of its disk.
const MOST: u64 = 60;

/// How many recoveries were stopped, and how many of them left another store.
#[derive(Clone, Copy)]
struct Counts {
    stopped: u64,
    other: u64,
}

/// Where a store is: how many steps were done, and whether it is the one before the next or after it.
type Place = Option<(usize, &'static str)>;

/// Which disk was left: how many steps were done on it, and what each crash leaves.
#[derive(Clone, Copy)]
struct Left {
    done: usize,
    choice: u64,
}

fn place_of(store: Option<MemStore>, left: Left) -> Place {
    match store {
        Some(mut store) => {
            let place = place_at(&mut store, &SCRIPT, left.done);
            drop(store);
            place
        }
        None => None,
    }
}

fn is_same(one: Place, other: Place) -> bool {
    match (one, other) {
        (Some((done, here)), Some((wanted, there))) => done == wanted && here == there,
        _ => false,
    }
}

/// The store that a disk has.
fn found(alloc: Global, disk: &mut MemDisk, left: Left) -> Place {
    let copy = copied(alloc, disk)?;
    place_of(opened(alloc, copy).ok(), left)
}

/// A disk that stops at a call.
fn stopping(alloc: Global, disk: &mut MemDisk, stop: u64) -> Option<MemDisk>
    ensures { IfSome result (λ copy. copy.calls ≡ []) }
{
    let mut copy = copied(alloc, disk)?;
    copy.stop_in(stop);
    Some(copy)
}

/// The store of a disk after its recovery stopped at a call. `None` where it makes no such call.
fn found_again(alloc: Global, disk: &mut MemDisk, left: Left, stop: u64) -> Option<Place> {
    match opened(alloc, stopping(alloc, disk, stop)?) {
        Ok(store) => {
            drop(store);
            None
        }
        Err(disk) => Some(place_of(recovered(alloc, disk, left.choice), left)),
    }
}

/// Stops the recovery of a disk at each of its calls.
fn count_each(alloc: Global, disk: &mut MemDisk, left: Left, counts: &mut Counts) {
    let wanted = found(alloc, disk, left);
    for stop in 0..MOST {
        let Some(place) = found_again(alloc, disk, left, stop) else {
            return;
        };
        counts.stopped = counts.stopped.saturating_add(1);
        if !is_same(place, wanted) {
            counts.other = counts.other.saturating_add(1);
        }
    }
}

/// The same, of the disk that a stop of the script leaves.
fn count_behind(alloc: Global, call: u64, choice: u64, counts: &mut Counts) -> Option<()> {
    let disk = blank(alloc, Failing::From, call).ok()?;
    let (disk, done) = played(alloc, disk, &SCRIPT)?;
    let mut disk = crashed(disk, choice)?;
    count_each(alloc, &mut disk, Left { done, choice }, counts);
    Some(())
}

fn print_with(rt: HostRuntime, choice: u64) -> io::Result<()> {
    let mut counts = Counts {
        stopped: 0,
        other: 0,
    };
    let mut behind = 0u64;
    for call in 0..ENOUGH {
        if count_behind(rt.alloc(), call, choice, &mut counts).is_some() {
            behind = behind.saturating_add(1);
        }
    }
    let Counts { stopped, other } = counts;
    println!(rt; "  behind {behind} stops {stopped} times, and {other} times another store")
}

pub fn print_recoveries(rt: HostRuntime) -> io::Result<()> {
    println!(rt;
        "the script, and the recovery behind each stop, stopped at each call of the disk"
    )?;
    for choice in CHOICES {
        print_with(rt, choice)?;
    }
    Ok(())
}
