//! Nodes that are mounted: a replica over the system's sockets, and HTTP links in memory.
ghost use Rattle.std.specs.Prelude.{All};
ghost use Rattle.node_objects.specs.MemMaker.{IsNewDisk, IsNewDoor, IsNewSpawner};

use crate::asking::asked_at;
use crate::replies::NOT_FOUND;
use crate::same::same;
use lf_base::{CallSpawner, Closing, FixedClock, Handles, ListAcceptor, Name, SliceSource, Watch};
use lf_disk::MemDisk;
use node_mount::mount;
use node_objects::{Maker, MemMaker, MemParts, MemSpawn, System, SystemMaker};
use std::alloc::Global;
use std::net::{TcpListener, TcpStream};
use std::process::Abort;
use std::time::Duration;
use std::{fs, thread};
use test_base::{SNAPSHOT, encoding, link_of, one};

pub(crate) const PRIMARY: &[u8] = b"database = \"app\"\n[lease]\ncandidate = true\n\
    advertise-url = \"http://localhost:20202\"\nhostname = \"localhost\"\n";

const REQUEST: &[u8] = b"GET /none HTTP/1.1\r\n\r\n";

/// What the primary tells.
pub(crate) const STARTED: &[u8] = b"litefs: start 0.1.0: database app, role primary at \
    0000000000000000/0000000000000000, files on litefs.sock, http on :20202\n";

/// How often a peer looks whether it is dialed, and how many milliseconds lie between.
const LOOKS: u64 = 500;

const NAP: u64 = 20;

/// How often a replica was dialing that is hung up on at once, up to twice. Then its node is ended.
fn count_dials<R: Handles>(rt: &R, listener: &TcpListener, closing: &Closing) -> u64 {
    let mut dials: u64 = 0;
    for _ in 0..LOOKS {
        if listener.accept().is_ok() {
            dials = dials.saturating_add(1);
        }
        if dials == 2 {
            break;
        }
        thread::sleep(rt, Duration::from_millis(NAP));
    }
    closing.close_doors(rt);
    dials
}

/// Counts them in a thread of its own.
fn peer_of<R: Handles + Abort + Copy + Send + 'static>(
    rt: R,
    listener: TcpListener,
    closing: Closing,
) -> thread::JoinHandle<u64> {
    let started = thread::spawn(&rt, move || -> u64 {
        count_dials(&rt, &listener, &closing)
    });
    started.ok().expect(&rt, "a thread")
}

#[test]
fn a_replica_dials_again(rt: HostRuntime) {
    let _named: Option<(TcpListener, TcpStream)> = None;
    let listener = TcpListener::bind(&rt, "127.0.0.1:0").expect(&rt, "a listener");
    let address = listener.local_addr().expect(&rt, "its address");
    listener.set_nonblocking(true).expect(&rt, "no waiting");
    let config = format!(in rt.alloc();
        "database = \"dialing\"\n[fuse]\nlisten = \"node_mount_dialing_socket\"\n\
        [http]\naddr = \"127.0.0.1:0\"\n[lease]\nadvertise-url = \"http://{address}\"\nhostname = \"localhost\"\n"
    )
    .expect(&rt, "memory");
    let closing = Closing::new(rt.alloc()).expect(&rt, "memory");
    let theirs = closing.another().expect(&rt, "memory");
    let mut maker = SystemMaker::new(rt, closing).expect(&rt, "a maker");
    let mut source = SliceSource::new(config.as_bytes(), Vec::new(rt.alloc())).expect(
        &rt, "a source",
    );
    let peer = peer_of(rt, listener, theirs);
    let ended = mount(rt, rt.alloc(), &mut source, &mut maker);
    same(rt, peer.join(&rt), 2);
    same(rt, ended, Ok(()));
    fs::remove_file(&rt, "node_mount_dialing_socket").expect(&rt, "removed");
}

/// A replica whose primary is nowhere, of a database that is there.
const REPLICA: &[u8] = b"database = \"kept\"\n[fuse]\nlisten = \"node_mount_kept_socket\"\n\
    [http]\naddr = \"127.0.0.1:0\"\n[lease]\nadvertise-url = \"http://127.0.0.1:1\"\nhostname = \"localhost\"\n";

const LOG: &str = "dbs/kept/ltx/0000000000000001-0000000000000001.ltx";

/// The data directory of a database, with one file of the log.
fn keep_database<R: System + Copy + Abort + Send + 'static>(rt: R, database: &str, file: &[u8]) {
    let alloc = rt.alloc();
    let closing = Closing::new(alloc).expect(&rt, "memory");
    let mut maker = SystemMaker::new(rt, closing).expect(&rt, "a maker");
    let name = Name::read(alloc, database.as_bytes()).expect(&rt, "a name");
    same(rt, maker.disk(&name).is_ok(), true);
    let log = format!(in alloc; "dbs/{database}/ltx/0000000000000001-0000000000000001.ltx");
    fs::write(&rt, log.expect(&rt, "memory").as_str(), file).expect(&rt, "a file");
}

/// A node that was started and ended has its log and its database as before.
#[test]
fn a_start_keeps_the_database(rt: HostRuntime) {
    let _named: Option<(TcpListener, TcpStream)> = None;
    let file = encoding(rt.alloc(), &SNAPSHOT).expect(&rt, "memory");
    keep_database(rt, "kept", file.as_slice());
    let closing = Closing::new(rt.alloc()).expect(&rt, "memory");
    closing.close();
    let mut maker = SystemMaker::new(rt, closing).expect(&rt, "a maker");
    let mut source = SliceSource::new(REPLICA, Vec::new(rt.alloc())).expect(&rt, "a source");
    same(rt, mount(rt, rt.alloc(), &mut source, &mut maker), Ok(()));
    let log = fs::read(&rt, LOG).expect(&rt, "the log");
    same(rt, log.as_slice(), file.as_slice());
    let database = fs::read(&rt, "dbs/kept/database").expect(&rt, "the database");
    same(rt, database.as_slice(), [0u8; 512].as_slice());
    fs::remove_file(&rt, "node_mount_kept_socket").expect(&rt, "removed");
}

/// An acceptor of one link that gives these bytes, whose calls of these numbers fail, and what shows what is written on the link.
pub(crate) fn door_of(
    rt: impl Copy + Abort,
    alloc: Global,
    input: &[u8],
    failing: Vec<u64>,
) -> (Vec<ListAcceptor>, Watch)
    ensures { All IsNewDoor result.0.items }
{
    let link = link_of(alloc, input, 4096).expect(&rt, "a link");
    let watch = link.watch();
    let links = one(alloc, link).expect(&rt, "memory");
    let accept = ListAcceptor::new(links, failing).unwrap();
    (one(alloc, accept).expect(&rt, "memory"), watch)
}

pub(crate) fn no_links(rt: impl Copy + Abort, alloc: Global) -> Vec<ListAcceptor>
    ensures { All IsNewDoor result.items }
{
    let accept = ListAcceptor::new(Vec::new(alloc), Vec::new(alloc)).unwrap();
    one(alloc, accept).expect(&rt, "memory")
}

#[tactic(auto, using(node_objects::proofs::DiskLemmas::rests))]
pub(crate) fn empty_disk(rt: impl Copy + Abort, alloc: Global) -> Vec<MemDisk>
    ensures { All IsNewDisk result.items }
{
    let disk = MemDisk::new(alloc, Vec::new(alloc), None).expect(&rt, "a disk");
    one(alloc, disk).expect(&rt, "memory")
}

/// One that runs each job in place.
pub(crate) fn one_spawner(rt: impl Copy + Abort, alloc: Global) -> Vec<MemSpawn>
    ensures { All IsNewSpawner result.items }
{
    let spawner = CallSpawner::new(Vec::new(alloc)).unwrap();
    one(alloc, MemSpawn::Call(spawner)).expect(&rt, "memory")
}

/// A primary over these objects.
pub(crate) fn primary_over(
    rt: impl Copy + Abort,
    alloc: Global,
    disks: Vec<MemDisk>,
    files: Vec<ListAcceptor>,
    http: Vec<ListAcceptor>,
    spawners: Vec<MemSpawn>,
) -> MemMaker
    requires disks { All IsNewDisk disks.items }
    requires files { All IsNewDoor files.items }
    requires http { All IsNewDoor http.items }
    requires spawners { All IsNewSpawner spawners.items }
{
    let parts = MemParts {
        disks,
        files,
        http,
        dialers: Vec::new(alloc),
        spawners,
        clock: FixedClock::new(7),
        node: 9,
        places: 8,
        failing: Vec::new(alloc),
    };
    let made = MemMaker::new(alloc, parts);
    made.expect(&rt, "a maker")
}

#[test]
fn http_goes_on_after_a_failed_accept(rt: HostRuntime) {
    let _named: Option<(TcpListener, TcpStream)> = None;
    let alloc = rt.alloc();
    let failing = one(alloc, 0).expect(&rt, "memory");
    let (http, watch) = door_of(rt, alloc, REQUEST, failing);
    let mut maker = primary_over(
        rt,
        alloc,
        empty_disk(rt, alloc),
        no_links(rt, alloc),
        http,
        one_spawner(rt, alloc),
    );
    let mut config = SliceSource::new(PRIMARY, Vec::new(alloc)).expect(&rt, "a source");
    same(rt, mount(rt, alloc, &mut config, &mut maker), Ok(()));
    let written = watch.bytes().expect(&rt, "memory");
    same(rt, written.as_slice(), NOT_FOUND);
    let told = maker.lines().expect(&rt, "memory").bytes(&rt, alloc);
    same(rt, told.expect(&rt, "memory").as_slice(), STARTED);
    let asked = maker.asked().expect(&rt, "told");
    same(rt, asked.len(), 3);
    same(rt, asked_at(rt, asked, 0), ('d', "app", true));
    same(rt, asked_at(rt, asked, 1), ('f', "litefs.sock", true));
    same(rt, asked_at(rt, asked, 2), ('h', ":20202", true));
}
