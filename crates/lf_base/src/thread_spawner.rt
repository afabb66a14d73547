ghost use Rattle.std.specs.Prelude.{◌≡◌, ◌==◌, not, false, IfOk};

use crate::gate::Gate;
use crate::handles::Handles;
use crate::memory::NoMemory;
use crate::spawner::{Place, Spawner};
use std::alloc::Global;
use std::marker::Model;

/// A spawner that starts a thread for each job. It is seen as its count of faults.
#[derive(Drop)]
pub struct ThreadSpawner {
    gate: Gate,
    faults: u64,
}

impl Model for ThreadSpawner {
    ghost use Rattle.std.specs.Prelude.{ℕ};

    ghost Value = { ℕ };

    ghost view = { λ s. s.faults };
}

impl ThreadSpawner {
    pub fn new(alloc: Global) -> Result<ThreadSpawner, NoMemory>
        ensures { IfOk result (λ s. s ≡ 0) }
    {
        let gate = Gate::new(alloc)?;
        Ok(ThreadSpawner { gate, faults: 0 })
    }

    /// Whether its count of faults is not 0.
    pub fn has_failed(&self) -> bool
        ensures { result ≡ not (self.now == 0) }
    {
        self.faults != 0
    }
}

impl Spawner for ThreadSpawner {
    ghost faults = { λ s. s };

    ghost says = { λ _. false };

    ghost refuses = { λ _. ⊥ };

    fn place(&mut self) -> Place {
        match self.gate.another() {
            Ok(gate) => Place::Thread(gate),
            Err(_) => {
                self.fail();
                Place::Refused
            }
        }
    }

    fn fail(&mut self) {
        self.faults = self.faults.saturating_add(1);
    }

    fn finish<R: Handles>(&mut self, rt: &R) {
        self.gate.wait(rt);
    }
}
