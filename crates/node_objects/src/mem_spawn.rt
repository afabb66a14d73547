ghost use Rattle.std.specs.Prelude.{◌≡◌, ◌==◌, not};
ghost use Rattle.node_objects.specs.MemSpawn.{faults_of, has_said, is_refused};

use lf_base::{CallSpawner, Handles, Place, Spawner, ThreadSpawner};

/// A spawner of one kind or another.
#[derive(Drop)]
pub enum MemSpawn {
    /// Runs each job in place.
    Call(CallSpawner),
    /// Starts a thread for each job.
    Thread(ThreadSpawner),
    /// Refuses every job, so often so far.
    Refusing(u64),
}

impl MemSpawn {
    /// Whether its count of faults is not 0.
    pub fn has_failed(&self) -> bool
        ensures { result ≡ not (faults_of self.now == 0) }
    {
        match self {
            MemSpawn::Call(spawner) => spawner.has_failed(),
            MemSpawn::Thread(spawner) => spawner.has_failed(),
            MemSpawn::Refusing(faults) => *faults != 0,
        }
    }
}

impl Spawner for MemSpawn {
    ghost faults = { faults_of };

    ghost says = { has_said };

    ghost refuses = { is_refused };

    fn place(&mut self) -> Place {
        match self {
            MemSpawn::Call(spawner) => spawner.place(),
            MemSpawn::Thread(spawner) => spawner.place(),
            MemSpawn::Refusing(faults) => {
                *faults = faults.saturating_add(1);
                Place::Refused
            }
        }
    }

    fn fail(&mut self) {
        match self {
            MemSpawn::Call(spawner) => spawner.fail(),
            MemSpawn::Thread(spawner) => spawner.fail(),
            MemSpawn::Refusing(faults) => *faults = faults.saturating_add(1),
        }
    }

    fn finish<R: Handles>(&mut self, rt: &R) {
        match self {
            MemSpawn::Call(spawner) => spawner.finish(rt),
            MemSpawn::Thread(spawner) => spawner.finish(rt),
            MemSpawn::Refusing(_) => {}
        }
    }
}
