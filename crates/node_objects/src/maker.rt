ghost use Rattle.std.specs.Prelude.{◌≡◌, ℕ, Option, List, IfOk};
ghost use Rattle.node_objects.specs.declared.asked.Asked.{Asked};
ghost use Rattle.node_objects.specs.declared.counts.Counts.{Counts};
ghost use Rattle.node_objects.specs.Making.{DisksRose, NetworkRose, SpawnersRose, FailsBy, TellsBy, IsAtRest, IsAskedFor, IsNew, TakesBack, gave};
ghost use Rattle.node_objects.specs.Mounters.{mount_call};

use crate::failing::FailedCall;
use crate::mounter::Mounter;
use crate::obstacle::Obstacle;
use crate::tell::Tell;
use lf_base::{
    Acceptor, Clock, Closing, Dialer, Failed, Link, Name, NoMemory, Pause, Spawner, Text,
};
use lf_disk::Disk;
use node_figures::Tally;
use node_settings::MountSettings;

/// Makes what a node runs on, and takes it back. Each object is made without a fault.
pub trait Maker {
    ghost use Rattle.node_objects.specs.declared.asked.Wanted.TheVariants as wants;
    ghost use Rattle.node_objects.specs.declared.returned.Returned.{Returned};
    ghost use Rattle.node_objects.specs.declared.returned.Returned.TheVariants as returned;

    type Disk: Disk + Send + Drop + 'static;

    type FileAccept: Acceptor + Send + Drop + 'static;

    type HttpAccept: Acceptor + Send + Drop + 'static;

    /// A link that it dials.
    type Line: Link + Send + Drop + 'static;

    type Dial: Dialer<L = Self::Line> + Send + Drop + 'static;

    type Spawn: Spawner + Send + Drop + 'static;

    type Clock: Clock + Copy + Send + 'static;

    type Pause: Pause + Copy + Send + 'static;

    type Tell: Tell + Send + Drop + 'static;

    type Mounter: Mounter + Send + Drop + 'static;

    /// How often making failed, and objects came back that had failed.
    ghost counts: { Self → Counts };

    /// What it was asked for by `disk`, `files`, `http` and `mounter`, in order, where it tells that.
    ghost asked: { Self → Option (List Asked) };

    /// The number of its node, the same at each call.
    ghost number: { Self → ℕ };

    /// The objects that came back, in order, where it tells them.
    ghost back: { Self → Option (List (Returned Self.Disk Self.FileAccept Self.HttpAccept Self.Dial Self.Spawn)) };

    /// Whether this disk may be the next that it gives.
    ghost may_give: { Self → Self.Disk → Type 0 };

    /// The data directory of a database. Nothing is pending on it.
    fn disk(&mut self, name: &Name) -> Result<Self::Disk, Failed>
        ensures next { IfOk result (may_give self.old) }
        ensures made { IfOk result (λ disk. Self.Disk.faults disk ≡ 0) }
        ensures rest { IfOk result (λ disk. IsAtRest (Self.Disk.honest disk) (Self.Disk.history disk)) }
        ensures back { back self.new ≡ back self.old }
        ensures asked { IsAskedFor (wants.Disk name.now) (asked self.old) (asked self.new) result }
        ensures number { number self.new ≡ number self.old }
        ensures cause { FailsBy DisksRose (counts self.old) (counts self.new) result };

    /// Where file links come from: a socket of this path.
    fn files(&mut self, path: &Text) -> Result<Self::FileAccept, Failed>
        ensures made { IfOk result (λ accept. IsNew (Self.FileAccept.given accept) (Self.FileAccept.faults accept) (Self.FileAccept.ended accept)) }
        ensures back { back self.new ≡ back self.old }
        ensures asked { IsAskedFor (wants.Files path.now) (asked self.old) (asked self.new) result }
        ensures number { number self.new ≡ number self.old }
        ensures cause { FailsBy NetworkRose (counts self.old) (counts self.new) result };

    /// Where HTTP links come from: this address, as `host:port`. The links fail where they wait for longer
    /// than so many milliseconds; 0 is no limit.
    fn http(&mut self, address: &Text, patience: u64) -> Result<Self::HttpAccept, Failed>
        ensures made { IfOk result (λ accept. IsNew (Self.HttpAccept.given accept) (Self.HttpAccept.faults accept) (Self.HttpAccept.ended accept)) }
        ensures back { back self.new ≡ back self.old }
        ensures asked { IsAskedFor (wants.Http address.now) (asked self.old) (asked self.new) result }
        ensures number { number self.new ≡ number self.old }
        ensures cause { FailsBy NetworkRose (counts self.old) (counts self.new) result };

    /// What mounts the files of this database, served on this socket, as these settings say.
    fn mounter(&mut self, database: &Name, socket: &Text, mount: &MountSettings) -> Self::Mounter
        ensures asked { TakesBack (gave (wants.Mount (mount_call database.now socket.now mount.now))) (asked self.old) (asked self.new) }
        ensures number { number self.new ≡ number self.old }
        ensures same { (counts self.new ≡ counts self.old) × (back self.new ≡ back self.old) };

    /// It fails, and so do its links, where they wait for longer than so many milliseconds; 0 is no limit.
    fn dialer(&mut self, patience: u64) -> Self::Dial
        ensures made { Self.Dial.faults result ≡ 0 }
        ensures kept { (asked self.new ≡ asked self.old) × (number self.new ≡ number self.old) }
        ensures same { (counts self.new ≡ counts self.old) × (back self.new ≡ back self.old) };

    fn spawner(&mut self) -> Self::Spawn
        ensures made { Self.Spawn.faults result ≡ 0 }
        ensures kept { (asked self.new ≡ asked self.old) × (number self.new ≡ number self.old) }
        ensures same { (counts self.new ≡ counts self.old) × (back self.new ≡ back self.old) };

    fn clock(&mut self) -> Self::Clock
        ensures kept { (asked self.new ≡ asked self.old) × (number self.new ≡ number self.old) }
        ensures same { (counts self.new ≡ counts self.old) × (back self.new ≡ back self.old) };

    fn pause(&mut self) -> Self::Pause
        ensures kept { (asked self.new ≡ asked self.old) × (number self.new ≡ number self.old) }
        ensures same { (counts self.new ≡ counts self.old) × (back self.new ≡ back self.old) };

    /// Where the lines of its node go. All that it gives tell at the same place.
    fn tell(&mut self) -> Self::Tell
        ensures kept { (asked self.new ≡ asked self.old) × (number self.new ≡ number self.old) }
        ensures same { (counts self.new ≡ counts self.old) × (back self.new ≡ back self.old) };

    /// Where its disks count, and what else counts for its node. All that it gives are of the same counts.
    fn tally(&mut self) -> Result<Tally, NoMemory>
        ensures kept { (asked self.new ≡ asked self.old) × (number self.new ≡ number self.old) }
        ensures same { (counts self.new ≡ counts self.old) × (back self.new ≡ back self.old) };

    /// The word by which its acceptors say that no more links come. It is closed where they say so by themselves.
    fn ending(&mut self) -> Result<Closing, NoMemory>
        ensures kept { (asked self.new ≡ asked self.old) × (number self.new ≡ number self.old) }
        ensures same { (counts self.new ≡ counts self.old) × (back self.new ≡ back self.old) };

    /// The store broke over a disk that it gave, which does not come back. Answers which call of the disk failed last,
    /// where it knows that.
    fn broke(&mut self) -> Option<FailedCall>
        ensures back { back self.new ≡ back self.old }
        ensures kept { (asked self.new ≡ asked self.old) × (number self.new ≡ number self.old) }
        ensures cause { DisksRose (counts self.old) (counts self.new) };

    /// What stood in the way of what it could not make last, where it knows that. Nothing is told of it.
    fn obstacle(&self) -> Option<Obstacle>;

    /// The number of this node, which its files of the log carry.
    fn node_id(&self) -> u64
        ensures { result ≡ number self.now };

    fn back_disk(&mut self, disk: Self::Disk)
        ensures back { TakesBack (returned.Disk disk) (back self.old) (back self.new) }
        ensures kept { (asked self.new ≡ asked self.old) × (number self.new ≡ number self.old) }
        ensures cause { TellsBy DisksRose (Self.Disk.faults disk) (counts self.old) (counts self.new) };

    fn back_files(&mut self, accept: Self::FileAccept)
        ensures back { TakesBack (returned.Files accept) (back self.old) (back self.new) }
        ensures kept { (asked self.new ≡ asked self.old) × (number self.new ≡ number self.old) }
        ensures cause { TellsBy NetworkRose (Self.FileAccept.faults accept) (counts self.old) (counts self.new) };

    fn back_http(&mut self, accept: Self::HttpAccept)
        ensures back { TakesBack (returned.Http accept) (back self.old) (back self.new) }
        ensures kept { (asked self.new ≡ asked self.old) × (number self.new ≡ number self.old) }
        ensures cause { TellsBy NetworkRose (Self.HttpAccept.faults accept) (counts self.old) (counts self.new) };

    fn back_dial(&mut self, dial: Self::Dial)
        ensures back { TakesBack (returned.Dialer dial) (back self.old) (back self.new) }
        ensures kept { (asked self.new ≡ asked self.old) × (number self.new ≡ number self.old) }
        ensures cause { TellsBy NetworkRose (Self.Dial.faults dial) (counts self.old) (counts self.new) };

    fn back_spawn(&mut self, spawn: Self::Spawn)
        ensures back { TakesBack (returned.Spawner spawn) (back self.old) (back self.new) }
        ensures kept { (asked self.new ≡ asked self.old) × (number self.new ≡ number self.old) }
        ensures cause { TellsBy SpawnersRose (Self.Spawn.faults spawn) (counts self.old) (counts self.new) };
}
