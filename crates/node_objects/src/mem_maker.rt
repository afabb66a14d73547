//! A maker of objects in memory.
ghost use Rattle.std.specs.Prelude.{◌≡◌, ◌==◌, ◌↔◌, ◌∷◌, [], true, false, None, Some, All, Contains, IfOk, IsErr, IsTrue, MatchOption, if◌then◌else◌};
ghost use Rattle.lf_disk.specs.MemDisk.{history_of};
ghost use Rattle.node_objects.specs.Keeping.{told_by, with};
ghost use Rattle.node_objects.specs.Making.{no_faults, disk_failed, network_failed, spawner_failed, DisksRose, NetworkRose, SpawnersRose, FailsBy, TellsBy, IsAskedFor, IsAtRest, IsNew, TakesBack, gave};
ghost use Rattle.node_objects.specs.MemMaker.{IsNewDisk, IsNewDoor, IsNewPhone, IsNewSpawner, FailsNext, Gives, IsNext, called, no_links};
ghost use Rattle.node_objects.specs.MemSpawn.{faults_of};
ghost use Rattle.node_objects.specs.Mounters.{mount_call};
ghost use Rattle.node_objects.specs.declared.asked.Asked.{Asked};
ghost use Rattle.node_objects.specs.declared.asked.Wanted.{Wanted};
ghost use Rattle.node_objects.specs.declared.asked.Wanted.TheVariants as wants;
ghost use Rattle.node_objects.specs.declared.returned.Returned.TheVariants as returned;

use crate::asked::{Asked, Wanted};
use crate::counts::Counts;
use crate::failing::FailedCall;
use crate::keeping::Keeping;
use crate::maker::Maker;
use crate::mem_mounter::{MemMounter, MemProgram};
use crate::mem_spawn::MemSpawn;
use crate::obstacle::Obstacle;
use crate::returned::Returned;
use crate::tell::{KeptLines, KeptPlace};
use lf_base::{
    Closing, Dialer, Failed, FixedClock, ListAcceptor, MemDialer, MemLink, Name, NoMemory, NoPause,
    Text,
};
use lf_disk::MemDisk;
use node_figures::Tally;
use node_settings::MountSettings;
use std::alloc::Global;
use std::marker::Model;

/// An object that a maker in memory took back.
pub type MemReturned = Returned<MemDisk, ListAcceptor, ListAcceptor, MemDialer, MemSpawn>;

/// What it has beside the objects that it was handed.
#[derive(Drop)]
struct Aside {
    alloc: Global,
    /// Of which a dialer without links is made.
    no_dialer: MemDialer,
    /// Where the lines of its node are kept.
    lines: KeptPlace,
    /// What becomes of the program by which the node's files are mounted.
    program: MemProgram,
    /// It is closed: its acceptors end by themselves.
    ending: Closing,
    /// Its disks count nothing.
    tally: Tally,
}

impl Aside {
    fn new(alloc: Global) -> Result<Aside, NoMemory> {
        let ending = Closing::new(alloc)?;
        ending.close();
        Ok(Aside {
            alloc,
            no_dialer: MemDialer::new(alloc, Vec::new(alloc), 0, Vec::new(alloc))?,
            lines: KeptPlace::new(alloc)?,
            program: MemProgram::Runs,
            ending,
            tally: Tally::new(alloc)?,
        })
    }
}

/// A maker that gives the objects it was handed, those of each kind in order, and tells what it was
/// asked for and what came back.
#[derive(Drop)]
pub struct MemMaker {
    disks: Vec<MemDisk>,
    files: Vec<ListAcceptor>,
    http: Vec<ListAcceptor>,
    dialers: Vec<MemDialer>,
    aside: Aside,
    spawners: Vec<MemSpawn>,
    clock: FixedClock,
    node: u64,
    failing: Vec<u64>,
    calls: u64,
    counts: Counts,
    asked: Keeping<Asked>,
    back: Keeping<MemReturned>,
}

impl Model for MemMaker {
    ghost use Rattle.std.specs.Prelude.{All};
    ghost use Rattle.node_objects.specs.MemMaker.{Making, IsNewDisk, IsNewDoor, IsNewPhone, IsNewSpawner};

    ghost Value = { Making };

    ghost view = { λ m. record { disks = m.disks.items; files = m.files.items; http = m.http.items; dialers = m.dialers.items; spawners = m.spawners.items; clock = m.clock; node = m.node; failing = m.failing.items; calls = m.calls; counts = m.counts; asked = m.asked; back = m.back } };

    ghost invariant = { λ m. All IsNewDisk m.disks.items × All IsNewDoor m.files.items × All IsNewDoor m.http.items × All IsNewPhone m.dialers.items × All IsNewSpawner m.spawners.items };
}

/// Of what a maker in memory is made: the objects that it gives, those of each kind in order, and what it tells.
#[derive(Drop)]
pub struct MemParts {
    pub disks: Vec<MemDisk>,
    pub files: Vec<ListAcceptor>,
    pub http: Vec<ListAcceptor>,
    pub dialers: Vec<MemDialer>,
    pub spawners: Vec<MemSpawn>,
    pub clock: FixedClock,
    pub node: u64,
    /// How many places it has for what comes back, and as many for what it is asked for.
    pub places: usize,
    /// The calls of `disk`, `files` and `http` of these numbers fail, counted together from 0.
    pub failing: Vec<u64>,
}

impl MemMaker {
    /// A maker of these parts.
    pub fn new(alloc: Global, parts: MemParts) -> Result<MemMaker, NoMemory>
        requires disks { All IsNewDisk parts.disks.items }
        requires files { All IsNewDoor parts.files.items }
        requires http { All IsNewDoor parts.http.items }
        requires dialers { All IsNewPhone parts.dialers.items }
        requires spawners { All IsNewSpawner parts.spawners.items }
        ensures { IfOk result (λ m. m ≡ record {
          disks = parts.disks.items;
          files = parts.files.items;
          http = parts.http.items;
          dialers = parts.dialers.items;
          spawners = parts.spawners.items;
          clock = parts.clock;
          node = parts.node;
          failing = parts.failing.items;
          calls = 0;
          counts = no_faults;
          asked = record { values = []; places = parts.places; lost = false };
          back = record { values = []; places = parts.places; lost = false };
        }) }
    {
        let MemParts {
            disks,
            files,
            http,
            dialers,
            spawners,
            clock,
            node,
            places,
            failing,
        } = parts;
        let aside = Aside::new(alloc)?;
        let asked = Keeping::new(alloc, places)?;
        let back = Keeping::new(alloc, places)?;
        Ok(MemMaker {
            disks,
            files,
            http,
            dialers,
            aside,
            spawners,
            clock,
            node,
            failing,
            calls: 0,
            counts: Counts::new(),
            asked,
            back,
        })
    }

    /// What it was asked for, while there was memory and a place for each.
    pub fn asked(&self) -> Option<&[Asked]>
        ensures { MatchOption result (told_by self.now.asked ≡ None) (λ asked. told_by self.now.asked ≡ Some asked.now) }
    {
        self.asked.told()
    }

    /// Where the lines of its node are kept. No clause says which they are.
    pub fn lines(&self) -> Result<KeptPlace, NoMemory> {
        self.aside.lines.another()
    }

    /// From now on this becomes of the program by which the node's files are mounted. Without that it runs for good.
    pub fn set_program(&mut self, program: MemProgram)
        ensures { self.new ≡ self.old }
    {
        self.aside.program = program;
    }

    /// The objects that came back, while there was a place for each.
    pub fn back(&self) -> Option<&[MemReturned]>
        ensures { MatchOption result (told_by self.now.back ≡ None) (λ objects. told_by self.now.back ≡ Some objects.now) }
    {
        self.back.told()
    }

    /// Counts a call that may fail, and answers whether it is to.
    fn begin(&mut self) -> bool
        ensures fails { IsTrue result ↔ Contains self.old.failing self.old.calls }
        ensures called { self.new ≡ called self.old }
    {
        let fails = is_planned(self.failing.as_slice(), self.calls);
        self.calls = self.calls.saturating_add(1);
        fails
    }

    /// Keeps what it was asked for, and whether that is given.
    fn note(&mut self, wanted: Result<Wanted, NoMemory>, given: bool)
        ensures asked { (what : Wanted) → IfOk wanted (λ made. made ≡ what) → TakesBack (record { wanted = what; given = given }) (told_by self.old.asked) (told_by self.new.asked) }
        ensures rest { self.new ≡ record self.old { asked = self.new.asked } }
    {
        match wanted {
            Ok(wanted) => self.asked.put(Asked { wanted, given }),
            Err(_) => self.asked.lose(),
        }
    }
}

/// Whether the call of this number is to fail.
fn is_planned(failing: &[u64], call: u64) -> bool
    ensures { IsTrue result ↔ Contains failing.now call }
{
    failing.contains(&call)
}

impl Maker for MemMaker {
    type Disk = MemDisk;

    type FileAccept = ListAcceptor;

    type HttpAccept = ListAcceptor;

    type Line = MemLink;

    type Dial = MemDialer;

    type Spawn = MemSpawn;

    type Clock = FixedClock;

    type Pause = NoPause;

    type Tell = KeptLines;

    type Mounter = MemMounter;

    ghost counts = { λ m. m.counts };

    ghost asked = { λ m. told_by m.asked };

    ghost number = { λ m. m.node };

    ghost back = { λ m. told_by m.back };

    ghost may_give = { λ m. IsNext m.disks };

    fn disk(&mut self, name: &Name) -> Result<MemDisk, Failed>
        ensures next { IfOk result (IsNext self.old.disks) }
        ensures made { IfOk result (λ disk. disk.plan.faults ≡ 0) }
        ensures rest { IfOk result (λ disk. IsAtRest true (history_of disk)) }
        ensures cause { FailsBy DisksRose self.old.counts self.new.counts result }
        ensures back { told_by self.new.back ≡ told_by self.old.back }
        ensures asked { IsAskedFor (wants.Disk name.now) (told_by self.old.asked) (told_by self.new.asked) result }
        ensures number { self.new.node ≡ self.old.node }

        // It fails where that was planned and where no disk is left, and counts one fault there; else it
        // gives the next disk.
        ensures fails { IsErr result ↔ FailsNext self.old self.old.disks }
        ensures one { IsErr result → self.new ≡ record (called self.old) { counts = disk_failed self.old.counts; asked = self.new.asked } }
        ensures gives { IfOk result (λ disk. (self.old.disks ≡ disk ∷ self.new.disks) × (self.new ≡ record (called self.old) { disks = self.new.disks; asked = self.new.asked })) }
    {
        let wanted = Wanted::disk(name);
        if self.begin() || self.disks.is_empty() {
            self.counts.fail_disk();
            self.note(wanted, false);
            return Err(Failed);
        }
        self.note(wanted, true);
        Ok(self.disks.remove(0))
    }

    fn files(&mut self, path: &Text) -> Result<ListAcceptor, Failed>
        ensures made { IfOk result (λ accept. IsNew accept.given accept.faults accept.ended) }
        ensures cause { FailsBy NetworkRose self.old.counts self.new.counts result }
        ensures back { told_by self.new.back ≡ told_by self.old.back }
        ensures asked { IsAskedFor (wants.Files path.now) (told_by self.old.asked) (told_by self.new.asked) result }
        ensures number { self.new.node ≡ self.old.node }
        ensures fails { IsErr result ↔ FailsNext self.old self.old.files }
        ensures one { IsErr result → self.new ≡ record (called self.old) { counts = network_failed self.old.counts; asked = self.new.asked } }
        ensures gives { IfOk result (λ accept. (self.old.files ≡ accept ∷ self.new.files) × (self.new ≡ record (called self.old) { files = self.new.files; asked = self.new.asked })) }
    {
        let wanted = Wanted::files(path);
        if self.begin() || self.files.is_empty() {
            self.counts.fail_network();
            self.note(wanted, false);
            return Err(Failed);
        }
        self.note(wanted, true);
        Ok(self.files.remove(0))
    }

    fn http(&mut self, address: &Text, _patience: u64) -> Result<ListAcceptor, Failed>
        ensures made { IfOk result (λ accept. IsNew accept.given accept.faults accept.ended) }
        ensures cause { FailsBy NetworkRose self.old.counts self.new.counts result }
        ensures back { told_by self.new.back ≡ told_by self.old.back }
        ensures asked { IsAskedFor (wants.Http address.now) (told_by self.old.asked) (told_by self.new.asked) result }
        ensures number { self.new.node ≡ self.old.node }
        ensures fails { IsErr result ↔ FailsNext self.old self.old.http }
        ensures one { IsErr result → self.new ≡ record (called self.old) { counts = network_failed self.old.counts; asked = self.new.asked } }
        ensures gives { IfOk result (λ accept. (self.old.http ≡ accept ∷ self.new.http) × (self.new ≡ record (called self.old) { http = self.new.http; asked = self.new.asked })) }
    {
        let wanted = Wanted::http(address);
        if self.begin() || self.http.is_empty() {
            self.counts.fail_network();
            self.note(wanted, false);
            return Err(Failed);
        }
        self.note(wanted, true);
        Ok(self.http.remove(0))
    }

    fn mounter(&mut self, database: &Name, socket: &Text, mount: &MountSettings) -> MemMounter
        ensures asked { TakesBack (gave (wants.Mount (mount_call database.now socket.now mount.now))) (told_by self.old.asked) (told_by self.new.asked) }
        ensures rest { self.new ≡ record self.old { asked = self.new.asked } }
    {
        self.note(Wanted::mount(database, socket, mount), true);
        MemMounter::new(self.aside.alloc, self.aside.program)
    }

    /// Where no dialer is left, one without links.
    fn dialer(&mut self, _patience: u64) -> MemDialer
        ensures made { result.faults ≡ 0 }
        ensures same { (self.new.counts ≡ self.old.counts) × (told_by self.new.back ≡ told_by self.old.back) }
        ensures gives { Gives (λ dialer. dialer ≡ no_links) self.old.dialers self.new.dialers result }
        ensures rest { self.new ≡ record self.old { dialers = self.new.dialers } }
    {
        if self.dialers.is_empty() {
            return self.aside.no_dialer.another();
        }
        self.dialers.remove(0)
    }

    /// Where no spawner is left, one that refuses every job.
    fn spawner(&mut self) -> MemSpawn
        ensures made { faults_of result ≡ 0 }
        ensures same { (self.new.counts ≡ self.old.counts) × (told_by self.new.back ≡ told_by self.old.back) }
        ensures gives { Gives (λ spawner. spawner ≡ MemSpawn.Refusing 0) self.old.spawners self.new.spawners result }
        ensures rest { self.new ≡ record self.old { spawners = self.new.spawners } }
    {
        if self.spawners.is_empty() {
            return MemSpawn::Refusing(0);
        }
        self.spawners.remove(0)
    }

    fn clock(&mut self) -> FixedClock
        ensures clock { result ≡ self.old.clock }
        ensures same { self.new ≡ self.old }
    {
        self.clock
    }

    fn pause(&mut self) -> NoPause
        ensures { self.new ≡ self.old }
    {
        NoPause::new()
    }

    fn tell(&mut self) -> KeptLines
        ensures { self.new ≡ self.old }
    {
        KeptLines::new(self.aside.alloc, &self.aside.lines)
    }

    fn tally(&mut self) -> Result<Tally, NoMemory>
        ensures { self.new ≡ self.old }
    {
        self.aside.tally.another()
    }

    fn ending(&mut self) -> Result<Closing, NoMemory>
        ensures { self.new ≡ self.old }
    {
        self.aside.ending.another()
    }

    /// It knows of no call that failed.
    fn broke(&mut self) -> Option<FailedCall>
        ensures cause { DisksRose self.old.counts self.new.counts }
        ensures one { self.new ≡ record self.old { counts = disk_failed self.old.counts } }
    {
        self.counts.fail_disk();
        None
    }

    fn obstacle(&self) -> Option<Obstacle> {
        None
    }

    fn node_id(&self) -> u64
        ensures { result ≡ self.now.node }
    {
        self.node
    }

    fn back_disk(&mut self, disk: MemDisk)
        ensures back { TakesBack (returned.Disk disk) (told_by self.old.back) (told_by self.new.back) }
        ensures cause { TellsBy DisksRose disk.plan.faults self.old.counts self.new.counts }
        ensures kept { self.new ≡ record self.old { back = with (returned.Disk disk) self.old.back; counts = if disk.plan.faults == 0 then self.old.counts else disk_failed self.old.counts } }
    {
        self.counts.take_disk(disk.has_failed());
        self.back.put(Returned::Disk(disk));
    }

    fn back_files(&mut self, accept: ListAcceptor)
        ensures back { TakesBack (returned.Files accept) (told_by self.old.back) (told_by self.new.back) }
        ensures cause { TellsBy NetworkRose accept.faults self.old.counts self.new.counts }
        ensures kept { self.new ≡ record self.old { back = with (returned.Files accept) self.old.back; counts = if accept.faults == 0 then self.old.counts else network_failed self.old.counts } }
    {
        self.counts.take_network(accept.has_failed());
        self.back.put(Returned::Files(accept));
    }

    fn back_http(&mut self, accept: ListAcceptor)
        ensures back { TakesBack (returned.Http accept) (told_by self.old.back) (told_by self.new.back) }
        ensures cause { TellsBy NetworkRose accept.faults self.old.counts self.new.counts }
        ensures kept { self.new ≡ record self.old { back = with (returned.Http accept) self.old.back; counts = if accept.faults == 0 then self.old.counts else network_failed self.old.counts } }
    {
        self.counts.take_network(accept.has_failed());
        self.back.put(Returned::Http(accept));
    }

    fn back_dial(&mut self, dial: MemDialer)
        ensures back { TakesBack (returned.Dialer dial) (told_by self.old.back) (told_by self.new.back) }
        ensures cause { TellsBy NetworkRose dial.faults self.old.counts self.new.counts }
        ensures kept { self.new ≡ record self.old { back = with (returned.Dialer dial) self.old.back; counts = if dial.faults == 0 then self.old.counts else network_failed self.old.counts } }
    {
        self.counts.take_network(dial.has_failed());
        self.back.put(Returned::Dialer(dial));
    }

    fn back_spawn(&mut self, spawn: MemSpawn)
        ensures back { TakesBack (returned.Spawner spawn) (told_by self.old.back) (told_by self.new.back) }
        ensures cause { TellsBy SpawnersRose (faults_of spawn) self.old.counts self.new.counts }
        ensures kept { self.new ≡ record self.old { back = with (returned.Spawner spawn) self.old.back; counts = if faults_of spawn == 0 then self.old.counts else spawner_failed self.old.counts } }
    {
        self.counts.take_spawner(spawn.has_failed());
        self.back.put(Returned::Spawner(spawn));
    }
}
