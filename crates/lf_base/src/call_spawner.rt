ghost use Rattle.std.specs.Prelude.{◌≡◌, ◌==◌, not, true, IfOk, IsOk, Contains};
ghost use Rattle.lf_base.specs.Faults.{one_more, Rose};
ghost use Rattle.lf_base.specs.Starts.{CountsRefusal, IsAsSaid};

use crate::handles::Handles;
use crate::memory::NoMemory;
use crate::spawner::{Place, Spawner};
use std::marker::Model;

/// A spawner that runs each job in place, and refuses those of stated numbers.
#[derive(Drop)]
pub struct CallSpawner {
    failing: Vec<u64>,
    calls: u64,
    faults: u64,
}

impl Model for CallSpawner {
    ghost use Rattle.lf_base.specs.Feed.{Calls};

    ghost Value = { Calls };

    ghost view = { λ s. record { failing = s.failing.items; calls = s.calls; faults = s.faults } };
}

impl CallSpawner {
    /// `failing` are the numbers of its starts that fail, counted from 0.
    pub fn new(failing: Vec<u64>) -> Result<CallSpawner, NoMemory>
        ensures made { IsOk result }
        ensures spawner { IfOk result (λ s. s ≡ record { failing = failing.items; calls = 0; faults = 0 }) }
    {
        Ok(CallSpawner {
            failing,
            calls: 0,
            faults: 0,
        })
    }

    /// Whether its count of faults is not 0.
    pub fn has_failed(&self) -> bool
        ensures { result ≡ not (self.now.faults == 0) }
    {
        self.faults != 0
    }
}

impl Spawner for CallSpawner {
    ghost faults = { λ s. s.faults };

    ghost says = { λ _. true };

    ghost refuses = { λ s. Contains s.failing s.calls };

    fn place(&mut self) -> Place
        ensures said { IsAsSaid (Contains self.old.failing self.old.calls) result }
        ensures cause { CountsRefusal self.old.faults self.new.faults result }
        ensures counted { self.new ≡ record self.old { calls = one_more self.old.calls; faults = self.new.faults } }
    {
        let fails = self.failing.contains(&self.calls);
        self.calls = self.calls.saturating_add(1);
        if fails {
            self.faults = self.faults.saturating_add(1);
            return Place::Refused;
        }
        Place::Here
    }

    fn fail(&mut self)
        ensures { Rose self.old.faults self.new.faults }
    {
        self.faults = self.faults.saturating_add(1);
    }

    fn finish<R: Handles>(&mut self, rt: &R)
        ensures { self.new ≡ self.old }
    {}
}
