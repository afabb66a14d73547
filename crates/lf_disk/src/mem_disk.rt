//! A disk in memory. It keeps the files that it had at first and each changing call, so that all
//! that a crash may leave at any moment is known.
ghost use Rattle.std.specs.Prelude.{◌≡◌, ◌==◌, ◌⊎◌, not, ◌≤◌, ◌^◌, ◌++◌, ◌∷◌, [], true, false, length, IsErr, IfOk, IsOk, OnOk, OnErr};
ghost use Rattle.lf_base.specs.Faults.{CountsFaults};
ghost use Rattle.lf_disk.specs.Plan.{stopped_in, Follows};
ghost use Rattle.lf_disk.specs.MemDisk.{FailsFor};

mod as_disk;
mod reopen;

use crate::plan::Schedule;
use crate::record::{Call, Change, LAST_MOMENT, enact, note_failed};
use crate::slots::Slot;
use lf_base::{Failed, NoMemory};
use std::alloc::Global;
use std::marker::Model;

/// The files of a folder in memory.
#[derive(Drop)]
pub struct MemDisk {
    alloc: Global,
    first: Vec<Slot>,
    calls: Vec<Call>,
    files: Vec<Slot>,
    schedule: Schedule,
}

impl Model for MemDisk {
    ghost use Rattle.lf_disk.specs.MemDisk.{Recording, IsCurrent};

    ghost Value = { Recording };

    ghost view = { λ d. record { first = d.first.items; calls = d.calls.items; plan = d.schedule } };

    ghost invariant = { λ d. IsCurrent d.first.items d.calls.items d.files.items };
}

impl MemDisk {
    ghost use Rattle.lf_disk.specs.MemDisk.{fresh};

    /// An empty disk. The calls of the numbers `failing` fail, counted from 0, and every call from
    /// `stop_after` on.
    pub fn new(
        alloc: Global,
        failing: Vec<u64>,
        stop_after: Option<u64>,
    ) -> Result<MemDisk, NoMemory>
        ensures empty { IfOk result (λ disk. disk ≡ record (fresh []) {
          plan = record { failing = failing.items; stop_after = stop_after; calls = 0; faults = 0; short = 0; roomless = false; error = None };
        }) }
        ensures made { IsOk result }
    {
        Ok(MemDisk {
            alloc,
            first: Vec::new(alloc),
            calls: Vec::new(alloc),
            files: Vec::new(alloc),
            schedule: Schedule::new(failing, stop_after),
        })
    }

    /// Lets every call after the next `calls` ones fail.
    pub fn stop_in(&mut self, calls: u64)
        ensures { self.new ≡ record self.old { plan = stopped_in calls self.old.plan } }
    {
        self.schedule.stop_in(calls);
    }

    /// Lets its calls that fail from here on say that there is no room.
    pub fn lose_room(&mut self)
        ensures { self.new ≡ record self.old { plan = record self.old.plan { roomless = true } } }
    {
        self.schedule.lose_room();
    }

    /// The number of its calls so far.
    pub fn calls(&self) -> u64
        ensures { result ≡ self.now.plan.calls }
    {
        self.schedule.calls()
    }

    /// How many of its changing calls failed because there was no memory for them.
    pub fn short(&self) -> u64
        ensures { result ≡ self.now.plan.short }
    {
        self.schedule.short()
    }

    /// Whether its count of faults is not 0.
    pub fn has_failed(&self) -> bool
        ensures { result ≡ not (self.now.plan.faults == 0) }
    {
        self.schedule.has_failed()
    }

    /// A changing call.
    fn change(&mut self, change: Change) -> Result<(), Failed>
        ensures done { OnOk result
            (self.new.calls ≡ self.old.calls ++ record { change = change; done = true } ∷ []) }
        ensures failed { OnErr result ((self.new.calls ≡ self.old.calls)
            ⊎ (self.new.calls ≡ self.old.calls ++ record { change = change; done = false } ∷ [])) }
        ensures first { self.new.first ≡ self.old.first }
        ensures last { 2 ^ 62 ≤ length self.old.calls → IsErr result × (self.new.calls ≡ self.old.calls) }
        ensures plan { Follows result self.old.plan self.new.plan }
        ensures cause { CountsFaults self.old.plan.faults self.new.plan.faults result }
        ensures fault { IsErr result → FailsFor self.old self.new }
    {
        if self.schedule.begin() {
            note_failed(&mut self.calls, change);
            return Err(self.schedule.fail());
        }
        if self.calls.len() >= LAST_MOMENT {
            return Err(self.schedule.fail());
        }
        match enact(self.alloc, &mut self.calls, &mut self.files, change) {
            Ok(()) => Ok(()),
            Err(_) => Err(self.schedule.lack()),
        }
    }

    /// A changing call that found no memory.
    fn refuse(&mut self) -> Result<(), Failed>
        ensures failed { IsErr result }
        ensures same { (self.new.first ≡ self.old.first) × (self.new.calls ≡ self.old.calls) }
        ensures plan { Follows result self.old.plan self.new.plan }
        ensures cause { CountsFaults self.old.plan.faults self.new.plan.faults result }
        ensures fault { IsErr result → FailsFor self.old self.new }
    {
        // Whether it was planned to fail or not, there is no memory.
        self.schedule.begin();
        Err(self.schedule.lack())
    }
}
