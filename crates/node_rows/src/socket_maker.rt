//! A maker of a node with a disk in memory, to whose files links come through a Unix socket.
ghost use Rattle.std.specs.Prelude.{None};

use lf_base::{
    Closing, Failed, FixedClock, ListAcceptor, MemDialer, MemLink, Name, NoMemory, SleepPause,
    Text, UnixAccept,
};
use lf_disk::MemDisk;
use node_figures::Tally;
use node_objects::{
    Counts, FailedCall, KeptLines, Maker, MemMaker, MemMounter, MemSpawn, Obstacle, System,
};
use node_settings::MountSettings;
use std::fs;
use std::os::unix::net::UnixListener;

/// How long a nap takes, in milliseconds.
const NAP_MS: u64 = 1;

/// All but the socket is from a maker in memory. What comes back is not told.
#[derive(Drop)]
pub struct SocketMaker<R: System> {
    rt: R,
    memory: MemMaker,
    closing: Closing,
    counts: Counts,
}

impl<R: System> SocketMaker<R> {
    /// Its acceptor gives links until the word is closed.
    pub fn new(rt: R, memory: MemMaker, closing: Closing) -> SocketMaker<R> {
        SocketMaker {
            rt,
            memory,
            closing,
            counts: Counts::new(),
        }
    }
}

impl<R: System + Send + 'static> Maker for SocketMaker<R> {
    type Disk = MemDisk;

    type FileAccept = UnixAccept;

    type HttpAccept = ListAcceptor;

    type Line = MemLink;

    type Dial = MemDialer;

    type Spawn = MemSpawn;

    type Clock = FixedClock;

    type Pause = SleepPause<R>;

    type Tell = KeptLines;

    type Mounter = MemMounter;

    ghost counts = { λ m. m.counts };

    ghost asked = { λ _. None };

    ghost number = { λ m. m.memory.node };

    ghost back = { λ _. None };

    ghost may_give = { λ _ _. Unit {0} };

    fn disk(&mut self, name: &Name) -> Result<MemDisk, Failed> {
        let made = self.memory.disk(name);
        if made.is_err() {
            self.counts.fail_disk();
        }
        made
    }

    /// A socket that is left from before is removed.
    fn files(&mut self, path: &Text) -> Result<UnixAccept, Failed> {
        let _ = fs::remove_file(&self.rt, path.as_str());
        let bound = UnixListener::bind(&self.rt, path.as_str());
        let made = match (bound, path.copy(), self.closing.another()) {
            (Ok(listener), Ok(door), Ok(closing)) => {
                UnixAccept::new(&self.rt, listener, door, closing)
            }
            _ => Err(Failed),
        };
        if made.is_err() {
            self.counts.fail_network();
        }
        made
    }

    fn http(&mut self, address: &Text, patience: u64) -> Result<ListAcceptor, Failed> {
        let made = self.memory.http(address, patience);
        if made.is_err() {
            self.counts.fail_network();
        }
        made
    }

    fn mounter(&mut self, database: &Name, socket: &Text, mount: &MountSettings) -> MemMounter {
        self.memory.mounter(database, socket, mount)
    }

    fn dialer(&mut self, patience: u64) -> MemDialer {
        self.memory.dialer(patience)
    }

    fn spawner(&mut self) -> MemSpawn {
        self.memory.spawner()
    }

    fn clock(&mut self) -> FixedClock {
        self.memory.clock()
    }

    fn pause(&mut self) -> SleepPause<R> {
        SleepPause::new(self.rt, NAP_MS)
    }

    fn tell(&mut self) -> KeptLines {
        self.memory.tell()
    }

    fn tally(&mut self) -> Result<Tally, NoMemory> {
        self.memory.tally()
    }

    /// A word of its own, which is closed: what watches a node in place looks at it once.
    fn ending(&mut self) -> Result<Closing, NoMemory> {
        self.memory.ending()
    }

    fn broke(&mut self) -> Option<FailedCall> {
        self.counts.fail_disk();
        None
    }

    fn obstacle(&self) -> Option<Obstacle> {
        None
    }

    fn node_id(&self) -> u64 {
        self.memory.node_id()
    }

    fn back_disk(&mut self, disk: MemDisk) {
        self.counts.take_disk(disk.has_failed());
    }

    fn back_files(&mut self, accept: UnixAccept) {
        self.counts.take_network(accept.has_failed());
    }

    fn back_http(&mut self, accept: ListAcceptor) {
        self.counts.take_network(accept.has_failed());
    }

    fn back_dial(&mut self, dial: MemDialer) {
        self.counts.take_network(dial.has_failed());
    }

    fn back_spawn(&mut self, spawn: MemSpawn) {
        self.counts.take_spawner(spawn.has_failed());
    }
}
