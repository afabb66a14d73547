//! What a run is made of whose objects fail at stated calls.
ghost use Rattle.std.specs.Prelude.{All, IfOk};
ghost use Rattle.node_objects.specs.MemMaker.{IsNewDisk};

use crate::making::{ASKED, dialing_maker, disk_with, door, node_maker, spawners, watched_link};
use crate::nodes::{REQUEST, ROOM};
use lf_base::Watch;
use lf_disk::MemDisk;
use node_objects::MemMaker;
use std::alloc::Global;
use test_base::{Fault, NEVER, one};

/// What fails.
#[derive(Clone, Copy)]
pub enum Object {
    Input,
    Output,
    Dialer,
    Link,
    Configuration,
    Maker,
    Disk,
    FileAcceptor,
    HttpAcceptor,
    FileLink,
    HttpLink,
    Spawner,
}

/// The numbers of the calls that fail. The disk fails from there on.
#[derive(Clone, Copy)]
pub struct Calls {
    pub input: u64,
    pub output: u64,
    pub dialer: u64,
    pub link: u64,
    pub config: u64,
    pub maker: u64,
    pub disk: u64,
    pub file_acceptor: u64,
    pub http_acceptor: u64,
    pub file_link: u64,
    pub http_link: u64,
    pub spawner: u64,
}

/// No call fails.
pub const NONE: Calls = Calls {
    input: NEVER,
    output: NEVER,
    dialer: NEVER,
    link: NEVER,
    config: NEVER,
    maker: NEVER,
    disk: NEVER,
    file_acceptor: NEVER,
    http_acceptor: NEVER,
    file_link: NEVER,
    http_link: NEVER,
    spawner: NEVER,
};

impl Object {
    /// A call of it fails, and no other.
    pub fn fails(self, call: u64) -> Calls {
        let mut calls = NONE;
        match self {
            Object::Input => calls.input = call,
            Object::Output => calls.output = call,
            Object::Dialer => calls.dialer = call,
            Object::Link => calls.link = call,
            Object::Configuration => calls.config = call,
            Object::Maker => calls.maker = call,
            Object::Disk => calls.disk = call,
            Object::FileAcceptor => calls.file_acceptor = call,
            Object::HttpAcceptor => calls.http_acceptor = call,
            Object::FileLink => calls.file_link = call,
            Object::HttpLink => calls.http_link = call,
            Object::Spawner => calls.spawner = call,
        }
        calls
    }
}

/// A maker of a dialer whose link gives a reply, and what shows what the link took.
pub fn asker_on(alloc: Global, reply: &[u8], calls: Calls) -> Result<(MemMaker, Watch), Fault> {
    let (link, watch) = watched_link(alloc, reply, ROOM, calls.link)?;
    let make = dialing_maker(alloc, one(alloc, link)?, calls.dialer)?;
    Ok((make, watch))
}

/// A list of a disk with a file that stops at a call.
fn disks_on(alloc: Global, file: &[u8], stop: u64) -> Result<Vec<MemDisk>, Fault>
    ensures { IfOk result (λ made. All IsNewDisk made.items) }
{
    let mut disk = disk_with(alloc, file)?;
    disk.stop_in(stop);
    Ok(one(alloc, disk)?)
}

/// What a node is made of, and what shows what its two links took.
pub fn node_on(
    alloc: Global,
    file: &[u8],
    calls: Calls,
) -> Result<(MemMaker, Watch, Watch), Fault> {
    let disks = disks_on(alloc, file, calls.disk)?;
    let (accept, link) = (calls.file_acceptor, calls.file_link);
    let (files, file_link) = door(alloc, ASKED, ROOM, accept, link)?;
    let (accept, link) = (calls.http_acceptor, calls.http_link);
    let (http, http_link) = door(alloc, REQUEST, ROOM, accept, link)?;
    let spawners = spawners(alloc, calls.spawner)?;
    let make = node_maker(alloc, disks, files, http, spawners, calls.maker)?;
    Ok((make, file_link, http_link))
}
