//! Stores in memory: made, stopped and recovered.
ghost use Rattle.std.specs.Prelude.{◌≡◌, [], IfSome};

use crate::steps::{Step, Way, run};
use lf_disk::{Disk, MemDisk};
use node_recovery::recover;
use std::alloc::Global;
use std::io;
use test_base::{Failing, NEVER, blank};
use txn_log::Store;

pub type MemStore = Store<MemDisk>;

/// The store of a disk on which nothing was called, or the disk where it is not recovered.
pub fn opened(alloc: Global, disk: MemDisk) -> Result<MemStore, MemDisk>
    requires { disk.calls ≡ [] }
{
    match recover(alloc, disk) {
        Ok(store) => Ok(store),
        Err((_, disk)) => Err(disk),
    }
}

/// What a crash leaves of a disk, where a number chooses what is left of each call that is pending.
pub fn crashed(disk: MemDisk, choice: u64) -> Option<MemDisk>
    ensures { IfSome result (λ disk. disk.calls ≡ []) }
{
    match disk.reopen_as(choice) {
        Ok(disk) => Some(disk),
        Err(_) => None,
    }
}

/// The store after a crash.
pub fn recovered(alloc: Global, disk: MemDisk, choice: u64) -> Option<MemStore> {
    opened(alloc, crashed(disk, choice)?).ok()
}

/// A store after steps of which just so many are done, since its disk stops at a call.
pub fn stopped(
    alloc: Global,
    call: u64,
    way: Way,
    steps: &[Step],
    count: usize,
) -> Option<MemStore> {
    let mut store = opened(alloc, blank(alloc, Failing::From, call).ok()?).ok()?;
    let (done, _) = run(alloc, &mut store, way, steps);
    if done == count {
        return Some(store);
    }
    drop(store);
    None
}

/// A store after some steps.
pub fn made(alloc: Global, way: Way, steps: &[Step]) -> Option<MemStore> {
    stopped(alloc, NEVER, way, steps, steps.len())
}

/// How many calls a disk has had after some steps, and how many of them change something.
pub fn calls_of(alloc: Global, way: Way, steps: &[Step]) -> Option<(u64, u64)> {
    let store = made(alloc, way, steps)?;
    let calls = (store.disk.calls(), store.disk.moment());
    drop(store);
    Some(calls)
}

/// Prints what is seen of a store, or that there is none.
pub fn print_of<F: FnOnce(&mut MemStore) -> io::Result<()>>(
    rt: HostRuntime,
    store: Option<MemStore>,
    none: &str,
    print: F,
) -> io::Result<()>
    requires { F.IsAlwaysCallable print }
{
    match store {
        Some(mut store) => {
            let printed = print(&mut store);
            drop(store);
            printed
        }
        None => println!(rt; "{none}"),
    }
}
