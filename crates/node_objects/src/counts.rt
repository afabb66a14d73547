//! How often what a maker made has failed.
ghost use Rattle.std.specs.Prelude.{◌≡◌, MatchBool, if◌then◌else◌};
ghost use Rattle.node_objects.specs.Making.{no_faults, DisksRose, NetworkRose, SpawnersRose, disk_failed, network_failed, spawner_failed};

/// Three counts of faults. Each stays at the last number of a u64.
#[derive(Clone, Copy, Debug, PartialEq, Eq)]
pub struct Counts {
    pub disks: u64,
    /// Of acceptors and dialers.
    pub network: u64,
    pub spawners: u64,
}

impl Counts {
    pub fn new() -> Counts
        ensures { result ≡ no_faults }
    {
        Counts {
            disks: 0,
            network: 0,
            spawners: 0,
        }
    }

    pub fn fail_disk(&mut self)
        ensures one { self.new ≡ disk_failed self.old }
        ensures rose { DisksRose self.old self.new }
    {
        self.disks = self.disks.saturating_add(1);
    }

    /// Counts a disk that came back, where it has failed.
    pub fn take_disk(&mut self, has_failed: bool)
        ensures one { self.new ≡ (if has_failed then disk_failed self.old else self.old) }
        ensures rose { MatchBool has_failed (DisksRose self.old self.new) (self.new ≡ self.old) }
    {
        if has_failed {
            self.fail_disk();
        }
    }

    pub fn fail_network(&mut self)
        ensures one { self.new ≡ network_failed self.old }
        ensures rose { NetworkRose self.old self.new }
    {
        self.network = self.network.saturating_add(1);
    }

    /// Counts an acceptor or a dialer that came back, where it has failed.
    pub fn take_network(&mut self, has_failed: bool)
        ensures one { self.new ≡ (if has_failed then network_failed self.old else self.old) }
        ensures rose { MatchBool has_failed (NetworkRose self.old self.new) (self.new ≡ self.old) }
    {
        if has_failed {
            self.fail_network();
        }
    }

    pub fn fail_spawner(&mut self)
        ensures one { self.new ≡ spawner_failed self.old }
        ensures rose { SpawnersRose self.old self.new }
    {
        self.spawners = self.spawners.saturating_add(1);
    }

    /// Counts a spawner that came back, where it has failed.
    pub fn take_spawner(&mut self, has_failed: bool)
        ensures one { self.new ≡ (if has_failed then spawner_failed self.old else self.old) }
        ensures rose { MatchBool has_failed (SpawnersRose self.old self.new) (self.new ≡ self.old) }
    {
        if has_failed {
            self.fail_spawner();
        }
    }
}
