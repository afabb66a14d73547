//! A node is made of objects in memory, and run to its end.
ghost use Rattle.std.specs.Prelude.{All, IfOk};
ghost use Rattle.node_objects.specs.MemMaker.{IsNewDisk, IsNewDoor, IsNewSpawner};

use crate::clients::CONFIG;
use crate::difference::Difference;
use crate::stage::NOW;
use lf_base::{
    CallSpawner, FixedClock, Handles, ListAcceptor, MemLink, SliceSource, ThreadSpawner,
};
use lf_disk::MemDisk;
use node_mount::mount;
use node_objects::{Maker, MemMaker, MemParts, MemSpawn};
use std::alloc::Global;
use test_base::Fault;

/// Where the jobs of a node run.
#[derive(Clone, Copy)]
pub enum Jobs {
    /// Each in place, so a session ends before the next link is accepted.
    InPlace,
    /// Each in a thread of its own.
    InThreads,
}

fn disks(alloc: Global, disk: MemDisk) -> Result<Vec<MemDisk>, Fault>
    requires { IsNewDisk disk }
    ensures { IfOk result (λ made. All IsNewDisk made.items) }
{
    let mut all = Vec::new(alloc);
    all.push(disk)?;
    Ok(all)
}

fn acceptor(alloc: Global, links: Vec<MemLink>) -> Result<Vec<ListAcceptor>, Fault>
    ensures { IfOk result (λ made. All IsNewDoor made.items) }
{
    let mut all = Vec::new(alloc);
    all.push(ListAcceptor::new(links, Vec::new(alloc))?)?;
    Ok(all)
}

fn spawner(alloc: Global, jobs: Jobs) -> Result<MemSpawn, Fault>
    ensures { IfOk result IsNewSpawner }
{
    match jobs {
        Jobs::InPlace => Ok(MemSpawn::Call(CallSpawner::new(Vec::new(alloc))?)),
        Jobs::InThreads => Ok(MemSpawn::Thread(ThreadSpawner::new(alloc)?)),
    }
}

fn spawners(alloc: Global, jobs: Jobs) -> Result<Vec<MemSpawn>, Fault>
    ensures { IfOk result (λ made. All IsNewSpawner made.items) }
{
    let mut all = Vec::new(alloc);
    all.push(spawner(alloc, jobs)?)?;
    Ok(all)
}

/// A maker of a node over the disk, to which these links come.
pub fn maker_of(
    alloc: Global,
    disk: MemDisk,
    links: Vec<MemLink>,
    jobs: Jobs,
) -> Result<MemMaker, Fault>
    requires { IsNewDisk disk }
{
    let disks = disks(alloc, disk)?;
    let files = acceptor(alloc, links)?;
    let http = acceptor(alloc, Vec::new(alloc))?;
    let spawners = spawners(alloc, jobs)?;
    let parts = MemParts {
        disks,
        files,
        http,
        dialers: Vec::new(alloc),
        spawners,
        clock: FixedClock::new(NOW),
        node: 3,
        places: 8,
        failing: Vec::new(alloc),
    };
    Ok(MemMaker::new(alloc, parts)?)
}

/// Runs a node to its end, and says how it ended, if not well.
pub fn run<R: Handles + Copy + Send + 'static, M: Maker>(
    rt: R,
    alloc: Global,
    maker: &mut M,
) -> Result<Option<Difference>, Fault> {
    let mut config = SliceSource::new(CONFIG, Vec::new(alloc))?;
    match mount(rt, alloc, &mut config, maker) {
        Ok(()) => Ok(None),
        Err(fault) => Ok(Some(Difference::Mount(fault))),
    }
}
