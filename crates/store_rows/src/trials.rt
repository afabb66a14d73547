//! A script on a disk that fails, a crash, and the store that is recovered after it.
ghost use Rattle.std.specs.Prelude.{◌≡◌, []};

use crate::stages::{Stage, place_of};
use crate::steps::{Step, Way, Went, prunes, run};
use crate::stores::{MemStore, opened, recovered};
use lf_disk::MemDisk;
use std::alloc::Global;
use test_base::{Failing, blank};

/// Calls on a store, and what it is before each of them and after the last.
#[derive(Clone, Copy)]
pub struct Script {
    /// How the files of others come.
    pub way: Way,
    pub steps: &'static [Step],
    pub stages: &'static [Stage],
}

/// Whether the store is done, or refuses a prune as it is broken.
fn is_closed(store: &mut MemStore, went: Went) -> bool {
    match went {
        Went::Done => true,
        Went::Stopped => matches!(prunes(store), Went::Broken),
        _ => false,
    }
}

/// How many steps are done, if behind a failure the store refuses to do more.
fn steps_done(alloc: Global, store: &mut MemStore, script: &Script) -> Option<usize> {
    let (done, went) = run(alloc, store, script.way, script.steps);
    if is_closed(store, went) {
        Some(done)
    } else {
        None
    }
}

/// The disk after the script, and how many steps were done on it.
pub fn played(alloc: Global, disk: MemDisk, script: &Script) -> Option<(MemDisk, usize)>
    requires { disk.calls ≡ [] }
{
    match opened(alloc, disk) {
        Ok(mut store) => match steps_done(alloc, &mut store, script) {
            Some(done) => Some((store.disk, done)),
            None => {
                drop(store);
                None
            }
        },
        Err(disk) => Some((disk, 0)),
    }
}

/// Whether the store is the one before the step that was not done, or the one after it.
pub fn place_at(
    store: &mut MemStore,
    script: &Script,
    done: usize,
) -> Option<(usize, &'static str)> {
    let before = script.stages.get(done)?;
    let after = script.stages.get(done.saturating_add(1)).unwrap_or(before);
    Some((done, place_of(store, before, after)?))
}

/// How many steps are done on a disk that fails at a call, and which store is recovered after a crash.
pub fn trial(
    alloc: Global,
    script: &Script,
    failing: Failing,
    call: u64,
    choice: u64,
) -> Option<(usize, &'static str)> {
    let (disk, done) = played(alloc, blank(alloc, failing, call).ok()?, script)?;
    match recovered(alloc, disk, choice) {
        Some(mut store) => {
            let place = place_at(&mut store, script, done);
            drop(store);
            place
        }
        None => None,
    }
}
