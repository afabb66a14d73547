//! A maker of the system's objects.
ghost use Rattle.std.specs.Prelude.{◌≡◌, None, Ok, IfOk};
ghost use Rattle.node_objects.specs.Keeping.{told_by};
ghost use Rattle.node_objects.specs.Making.{IsNew};

use crate::counts::Counts;
use crate::data_directory::open_directory;
use crate::failing::{FailedCall, Failing};
use crate::keeping::Keeping;
use crate::listening::{listen_at, listen_on};
use crate::maker::Maker;
use crate::mem_spawn::MemSpawn;
use crate::mount_call::MountCall;
use crate::noting_disk::NotingDisk;
use crate::obstacle::Obstacle;
use crate::returned::Returned;
use crate::system::System;
use crate::system_dial::SystemDial;
use crate::system_line::SystemLine;
use crate::system_mounter::SystemMounter;
use crate::tell::{ErrorLines, ErrorPlace};
use lf_base::{
    Closing, Failed, Name, NoMemory, SleepPause, SystemClock, TcpAccept, Text, ThreadSpawner,
    UnixAccept,
};
use lf_disk::DirDisk;
use node_figures::Tally;
use node_settings::MountSettings;
use std::fs::File;

/// An object that a maker of the system's took back.
pub type SystemReturned<R> = Returned<
    NotingDisk<R, DirDisk<R>>,
    UnixAccept,
    TcpAccept,
    SystemDial,
    MemSpawn,
>;

/// How many objects that come back have a place.
const PLACES: usize = 8;

/// How long a nap takes, in milliseconds. Each follower that is level asks once a nap.
const NAP_MS: u64 = 50;

/// A maker of what a node runs on in the system: a folder below the working directory, listening
/// sockets, threads and the time.
#[derive(Drop)]
pub struct SystemMaker<R: System> {
    rt: R,
    closing: Closing,
    lines: ErrorPlace,
    /// Which call of the disk failed last.
    failing: Failing,
    tally: Tally,
    node: u64,
    /// The lock of the data directory. It is held until the maker goes.
    lock: Option<File>,
    /// Of what it could not make last.
    obstacle: Option<Obstacle>,
    counts: Counts,
    back: Keeping<SystemReturned<R>>,
}

impl<R: System> SystemMaker<R> {
    /// Its acceptors give links until the word is closed. The node's number is drawn anew, and is 0
    /// where the system gives no random bytes.
    pub fn new(rt: R, closing: Closing) -> Result<SystemMaker<R>, NoMemory> {
        let back = Keeping::new(rt.alloc(), PLACES)?;
        let lines = ErrorPlace::new(rt.alloc())?;
        let failing = Failing::new(rt.alloc())?;
        let tally = Tally::new(rt.alloc())?;
        let node = random_number(&rt);
        Ok(SystemMaker {
            rt,
            closing,
            lines,
            failing,
            tally,
            node,
            lock: None,
            obstacle: None,
            counts: Counts::new(),
            back,
        })
    }
}

fn random_number<R: System>(rt: &R) -> u64 {
    let mut bytes = [0; 8];
    match rt.fill_bytes(&mut bytes) {
        Ok(()) => u64::from_be_bytes(bytes),
        Err(_) => 0,
    }
}

/// The data directory of a database, whose calls that fail are noted and whose transactions are counted, and
/// the lock of it.
fn opened_noting<R: System>(
    rt: R,
    name: &Name,
    failing: &Failing,
    tally: &Tally,
) -> Result<(NotingDisk<R, DirDisk<R>>, File), Option<Obstacle>>
    ensures { IfOk result (λ made. (made.0.disk.moment ≡ 0) × (made.0.disk.faults ≡ 0)) }
{
    let (disk, lock) = open_directory(rt, name)?;
    match (failing.another(), tally.another()) {
        (Ok(failing), Ok(tally)) => Ok((NotingDisk::new(rt, disk, failing, tally), lock)),
        _ => Err(None),
    }
}

/// Where it failed nothing is known of what stood in the way.
fn unsaid<T>(made: Result<T, Failed>) -> Result<T, Option<Obstacle>>
    ensures { IfOk result (λ value. made ≡ Ok value) }
{
    match made {
        Ok(value) => Ok(value),
        Err(_) => Err(None),
    }
}

fn accept_at<R: System>(
    rt: &R,
    path: &str,
    closing: &Closing,
) -> Result<UnixAccept, Option<Obstacle>>
    ensures { IfOk result (λ accept. IsNew accept.given accept.faults accept.ended) }
{
    let listener = listen_at(rt, path)?;
    match (Text::of(rt.alloc(), path), closing.another()) {
        (Ok(door), Ok(closing)) => unsaid(UnixAccept::new(rt, listener, door, closing)),
        _ => Err(None),
    }
}

fn accept_on<R: System>(
    rt: &R,
    address: &str,
    closing: &Closing,
    patience: u64,
) -> Result<TcpAccept, Option<Obstacle>>
    ensures { IfOk result (λ accept. IsNew accept.given accept.faults accept.ended) }
{
    let listener = listen_on(rt, address)?;
    match closing.another() {
        Ok(closing) => Ok(unsaid(TcpAccept::new(rt, listener, closing))?.patient(patience)),
        Err(_) => Err(None),
    }
}

impl<R: System + Send + 'static> Maker for SystemMaker<R> {
    type Disk = NotingDisk<R, DirDisk<R>>;

    type FileAccept = UnixAccept;

    type HttpAccept = TcpAccept;

    type Line = SystemLine;

    type Dial = SystemDial;

    type Spawn = MemSpawn;

    type Clock = SystemClock<R>;

    type Pause = SleepPause<R>;

    type Tell = ErrorLines<R>;

    type Mounter = SystemMounter<R>;

    ghost counts = { λ m. m.counts };

    /// What it was asked for is not told.
    ghost asked = { λ _. None };

    ghost number = { λ m. m.node };

    ghost back = { λ m. told_by m.back };

    /// Which disk it gives is not told.
    ghost may_give = { λ _ _. Unit {0} };

    fn disk(&mut self, name: &Name) -> Result<NotingDisk<R, DirDisk<R>>, Failed> {
        match opened_noting(self.rt, name, &self.failing, &self.tally) {
            Ok((disk, lock)) => {
                self.lock = Some(lock);
                Ok(disk)
            }
            Err(why) => {
                self.obstacle = why;
                self.counts.fail_disk();
                Err(Failed)
            }
        }
    }

    fn files(&mut self, path: &Text) -> Result<UnixAccept, Failed> {
        match accept_at(&self.rt, path.as_str(), &self.closing) {
            Ok(accept) => Ok(accept),
            Err(why) => {
                self.obstacle = why;
                self.counts.fail_network();
                Err(Failed)
            }
        }
    }

    fn http(&mut self, address: &Text, patience: u64) -> Result<TcpAccept, Failed> {
        match accept_on(&self.rt, address.as_str(), &self.closing, patience) {
            Ok(accept) => Ok(accept),
            Err(why) => {
                self.obstacle = why;
                self.counts.fail_network();
                Err(Failed)
            }
        }
    }

    fn dialer(&mut self, patience: u64) -> SystemDial {
        SystemDial::new(patience)
    }

    fn spawner(&mut self) -> MemSpawn {
        match ThreadSpawner::new(self.rt.alloc()) {
            Ok(threads) => MemSpawn::Thread(threads),
            Err(_) => MemSpawn::Refusing(0),
        }
    }

    fn clock(&mut self) -> SystemClock<R> {
        SystemClock::new(self.rt)
    }

    fn pause(&mut self) -> SleepPause<R> {
        SleepPause::new(self.rt, NAP_MS)
    }

    fn mounter(
        &mut self,
        database: &Name,
        socket: &Text,
        mount: &MountSettings,
    ) -> SystemMounter<R> {
        SystemMounter::new(self.rt, MountCall::of(database, socket, mount))
    }

    fn tell(&mut self) -> ErrorLines<R> {
        ErrorLines::new(self.rt, &self.lines)
    }

    fn tally(&mut self) -> Result<Tally, NoMemory> {
        self.tally.another()
    }

    fn ending(&mut self) -> Result<Closing, NoMemory> {
        self.closing.another()
    }

    fn broke(&mut self) -> Option<FailedCall> {
        self.counts.fail_disk();
        self.failing.last(&self.rt)
    }

    fn obstacle(&self) -> Option<Obstacle> {
        self.obstacle
    }

    fn node_id(&self) -> u64 {
        self.node
    }

    fn back_disk(&mut self, disk: NotingDisk<R, DirDisk<R>>) {
        self.counts.take_disk(disk.has_failed());
        self.back.put(Returned::Disk(disk));
    }

    fn back_files(&mut self, accept: UnixAccept) {
        self.counts.take_network(accept.has_failed());
        self.back.put(Returned::Files(accept));
    }

    fn back_http(&mut self, accept: TcpAccept) {
        self.counts.take_network(accept.has_failed());
        self.back.put(Returned::Http(accept));
    }

    fn back_dial(&mut self, dial: SystemDial) {
        self.counts.take_network(dial.has_failed());
        self.back.put(Returned::Dialer(dial));
    }

    fn back_spawn(&mut self, spawn: MemSpawn) {
        self.counts.take_spawner(spawn.has_failed());
        self.back.put(Returned::Spawner(spawn));
    }
}
