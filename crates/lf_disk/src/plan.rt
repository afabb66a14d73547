//! Which calls of a disk in memory fail.
ghost use Rattle.std.specs.Prelude.{◌≡◌, ◌==◌, not, true, false, None};
ghost use Rattle.lf_base.specs.Faults.{one_more, Rose};
ghost use Rattle.lf_disk.specs.Plan.{fails_next, stopped_in};
ghost use Rattle.lf_disk.specs.SystemError.{said};

use crate::system_error::ENOSPC;
use lf_base::{Errno, Failed};
use std::marker::Model;

/// The numbers of the calls that fail, and the calls and faults so far.
#[derive(Drop)]
pub struct Schedule {
    failing: Vec<u64>,
    stop_after: Option<u64>,
    calls: u64,
    faults: u64,
    short: u64,
    roomless: bool,
    error: Option<Errno>,
}

impl Model for Schedule {
    ghost use Rattle.lf_disk.specs.Plan.{Plan};

    ghost Value = { Plan };

    ghost view = { λ s. record { failing = s.failing.items; stop_after = s.stop_after; calls = s.calls; faults = s.faults; short = s.short; roomless = s.roomless; error = s.error } };
}

impl Schedule {
    pub fn new(failing: Vec<u64>, stop_after: Option<u64>) -> Schedule
        ensures { result ≡ record { failing = failing.items; stop_after = stop_after; calls = 0; faults = 0; short = 0; roomless = false; error = None } }
    {
        Schedule {
            failing,
            stop_after,
            calls: 0,
            faults: 0,
            short: 0,
            roomless: false,
            error: None,
        }
    }

    /// Counts a call, and answers whether it is to fail.
    pub fn begin(&mut self) -> bool
        ensures fails { result ≡ fails_next self.old }
        ensures counted { self.new ≡ record self.old { calls = one_more self.old.calls } }
    {
        let call = self.calls;
        self.calls = self.calls.saturating_add(1);
        let is_stopped = match self.stop_after {
            Some(stop) => stop <= call,
            None => false,
        };
        self.failing.contains(&call) || is_stopped
    }

    /// The number of calls so far.
    pub fn calls(&self) -> u64
        ensures { result ≡ self.now.calls }
    {
        self.calls
    }

    /// Counts a fault.
    pub fn fail(&mut self) -> Failed
        ensures counted { self.new ≡ record self.old { faults = one_more self.old.faults; error = said self.old.roomless } }
        ensures rose { Rose self.old.faults self.new.faults }
    {
        self.faults = self.faults.saturating_add(1);
        self.error = said(self.roomless);
        Failed
    }

    /// Counts a fault of a call that found no memory.
    pub fn lack(&mut self) -> Failed
        ensures counted { self.new ≡ record self.old { faults = one_more self.old.faults; short = one_more self.old.short; error = said self.old.roomless } }
        ensures rose { Rose self.old.faults self.new.faults }
    {
        self.faults = self.faults.saturating_add(1);
        self.error = said(self.roomless);
        self.short = self.short.saturating_add(1);
        Failed
    }

    /// Whether its count of faults is not 0.
    pub fn has_failed(&self) -> bool
        ensures { result ≡ not (self.now.faults == 0) }
    {
        self.faults != 0
    }

    /// Lets the calls that fail from here on say that there is no room.
    pub fn lose_room(&mut self)
        ensures { self.new ≡ record self.old { roomless = true } }
    {
        self.roomless = true;
    }

    /// What the call that failed last said.
    pub fn last_error(&self) -> Option<Errno>
        ensures { result ≡ self.now.error }
    {
        self.error
    }

    /// How many calls found no memory.
    pub fn short(&self) -> u64
        ensures { result ≡ self.now.short }
    {
        self.short
    }

    /// Lets every call after the next ones fail.
    pub fn stop_in(&mut self, calls: u64)
        ensures { self.new ≡ stopped_in calls self.old }
    {
        let stop = self.calls.saturating_add(calls);
        self.stop_after = match self.stop_after {
            Some(other) => Some(other.min(stop)),
            None => Some(stop),
        };
    }
}

/// What a call that fails says.
fn said(roomless: bool) -> Option<Errno>
    ensures { result ≡ said roomless }
{
    if roomless { Some(ENOSPC) } else { None }
}
