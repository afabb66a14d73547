//! How nodes end over memory: a stream from one, and one whose disk fails.
ghost use Rattle.std.specs.Prelude.{All, IfOk};
ghost use Rattle.node_objects.specs.MemMaker.{IsNewDisk, IsNewSpawner};

use crate::mounted::{PRIMARY, door_of, empty_disk, no_links, one_spawner, primary_over};
use crate::replies::NOT_PRIMARY;
use crate::same::same;
use lf_base::{SliceSource, ThreadSpawner};
use lf_disk::{Disk, FileName, MemDisk};
use node_mount::{MountFault, mount};
use node_objects::MemSpawn;
use std::alloc::Global;
use std::net::{TcpListener, TcpStream};
use std::process::Abort;
use test_base::{SNAPSHOT, encoding, one};

const STREAM: &[u8] = b"POST /stream HTTP/1.1\r\nHost: localhost\r\nContent-Length: 38\r\n\r\n\
    app 0000000000000000/0000000000000000\n";

/// A stream of a database that was never written: its head, that its follower is level, and its end.
const STREAMED: &[u8] = b"HTTP/1.1 200 OK\r\nConnection: close\r\n\r\n\
    \0\0\0\x02\0\0\0\x03\0\0\0\0\0\0\0\x10app\0\0\0\0\0\0\0\0\0\0\0\0\0\0\0\0\
    \0\0\0\x03\0\0\0\0\0\0\0\0\0\0\0\0";

/// UNLINK of the database `app`, 3; that it failed (EIO, 5), and that it is done.
const UNLINK: &[u8] = b"\x2c\0\0\0\x0a\0\0\0\x03\0\0\0\0\0\0\0\x01\0\0\0\0\0\0\0\
    \0\0\0\0\0\0\0\0\0\0\0\0\0\0\0\0app\0";

const FAILED: &[u8] = b"\x10\0\0\0\xfb\xff\xff\xff\x03\0\0\0\0\0\0\0";

const DONE: &[u8] = b"\x10\0\0\0\0\0\0\0\x03\0\0\0\0\0\0\0";

/// What a node tells of its start, and of its end where its store broke.
const STARTED: &str = "litefs: start 0.1.0: database app, role primary at \
    0000000000000001/efb1f44fecd99000, files on litefs.sock, http on :20202\n";

const BROKEN: &str = "litefs: store broken\n";

/// One that starts a thread for each job.
fn threads(rt: impl Copy + Abort, alloc: Global) -> Vec<MemSpawn>
    ensures { All IsNewSpawner result.items }
{
    let spawner = ThreadSpawner::new(alloc).expect(&rt, "memory");
    one(alloc, MemSpawn::Thread(spawner)).expect(&rt, "memory")
}

/// A static primary to which no more links come ends a stream whose follower is level, and then its job.
#[test]
fn a_level_stream_ends(rt: HostRuntime) {
    let _named: Option<(TcpListener, TcpStream)> = None;
    let alloc = rt.alloc();
    let (http, watch) = door_of(rt, alloc, STREAM, Vec::new(alloc));
    let mut maker = primary_over(
        rt,
        alloc,
        empty_disk(rt, alloc),
        no_links(rt, alloc),
        http,
        threads(rt, alloc),
    );
    let mut config = SliceSource::new(PRIMARY, Vec::new(alloc)).expect(&rt, "a source");
    same(rt, mount(rt, alloc, &mut config, &mut maker), Ok(()));
    let written = watch.bytes().expect(&rt, "memory");
    let written = written.as_slice();
    // A link that comes behind the end is let go.
    let is_ended = written == STREAMED || written == NOT_PRIMARY || written.is_empty();
    same(rt, is_ended, true);
}

/// A disk with one file of the log, of whose calls all but the next ones fail.
#[tactic(auto, using(node_objects::proofs::DiskLemmas::rests))]
fn disk_that_stops(rt: impl Copy + Abort, alloc: Global, file: &[u8], calls: u64) -> Vec<MemDisk>
    ensures { All IsNewDisk result.items }
{
    let mut disk = MemDisk::new(alloc, Vec::new(alloc), None).expect(&rt, "a disk");
    let name = FileName::Ltx { min: 1, max: 1 };
    let written = disk.write(name, 0, file).is_ok() && disk.sync(name).is_ok();
    same(rt, written, true);
    let mut disk = disk.reopen().ok().expect(&rt, "memory");
    disk.stop_in(calls);
    one(alloc, disk).expect(&rt, "memory")
}

/// How far a node came.
#[derive(Clone, Copy, Debug, PartialEq, Eq, PartialOrd)]
enum Stage {
    /// Its disk failed as it was opened: it told nothing, and answered nobody.
    NotOpened,
    /// Its store broke: it told so, and a client was answered EIO.
    Broke,
    /// Its database was dropped.
    Served,
}

/// What this end, this reply and these lines say.
fn stage_of<R: Copy + Abort>(
    rt: R,
    alloc: Global,
    ended: Result<(), MountFault>,
    replied: &[u8],
    told: &[u8],
) -> Stage {
    if ended.is_ok() {
        same(rt, replied, DONE);
        same(rt, told, STARTED.as_bytes());
        return Stage::Served;
    }
    same(rt, ended, Err(MountFault::Disk));
    if replied.is_empty() {
        same(rt, told.len(), 0);
        return Stage::NotOpened;
    }
    same(rt, replied, FAILED);
    let lines = format!(in alloc; "{STARTED}{BROKEN}").expect(&rt, "memory");
    same(rt, told, lines.as_bytes());
    Stage::Broke
}

/// Each call of its disk fails, and all behind it: the node isn't opened, or ends as its store broke, or serves.
#[test]
fn a_store_that_breaks_ends_its_node(rt: HostRuntime) {
    let _named: Option<(TcpListener, TcpStream)> = None;
    let alloc = rt.alloc();
    let file = encoding(alloc, &SNAPSHOT).expect(&rt, "memory");
    let mut last = Stage::NotOpened;
    let mut broke = 0u64;
    for calls in 0..64u64 {
        let (files, watch) = door_of(rt, alloc, UNLINK, Vec::new(alloc));
        let mut maker = primary_over(
            rt,
            alloc,
            disk_that_stops(rt, alloc, file.as_slice(), calls),
            files,
            no_links(rt, alloc),
            one_spawner(rt, alloc),
        );
        let mut config = SliceSource::new(PRIMARY, Vec::new(alloc)).expect(&rt, "a source");
        let ended = mount(rt, alloc, &mut config, &mut maker);
        let replied = watch.bytes().expect(&rt, "memory");
        let told = maker.lines().expect(&rt, "memory").bytes(&rt, alloc);
        let told = told.expect(&rt, "memory");
        let stage = stage_of(rt, alloc, ended, replied.as_slice(), told.as_slice());
        same(rt, last <= stage, true);
        if stage == Stage::Broke {
            broke = broke.saturating_add(1);
        }
        last = stage;
    }
    same(rt, (last, broke > 0), (Stage::Served, true));
}
