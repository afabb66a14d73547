ghost use Rattle.std.specs.Prelude.{◌≡◌, ◌+◌, ◌<◌, ◌≤◌, ◌⊎◌, [], length, IfOk, IsErr, Contains, Some};
ghost use Rattle.std.specs.Io.{WritesAtMost};
ghost use Rattle.std.specs.Io.KnownBytes.{WriteAppends};
ghost use Rattle.lf_base.specs.Faults.{CountsFaults, one_more};

use crate::memory::NoMemory;
use crate::sink::Sink;
use crate::source::Failed;
use std::alloc::Global;
use std::marker::Model;

/// A sink into reserved memory, whose calls of stated numbers fail, and each past its room.
#[derive(Drop)]
pub struct VecSink {
    taken: Vec<u8>,
    room: usize,
    failing: Vec<u64>,
    calls: u64,
    faults: u64,
}

impl Model for VecSink {
    ghost use Rattle.std.specs.Prelude.{◌≤◌, vec_capacity, vec_len};
    ghost use Rattle.lf_base.specs.Feed.{Tray};

    ghost Value = { Tray };

    ghost view = { λ s. record { taken = s.taken.items; room = s.room; failing = s.failing.items; calls = s.calls; faults = s.faults } };

    ghost invariant = { λ s. (s.room ≤ vec_capacity s.taken) × (vec_len s.taken ≤ s.room) };
}

impl VecSink {
    /// A sink with room for `room` bytes. `failing` are the numbers of its calls that fail, counted
    /// from 0.
    pub fn new(alloc: Global, room: usize, failing: Vec<u64>) -> Result<VecSink, NoMemory>
        ensures { IfOk result (λ s. s ≡ record { taken = []; room = room; failing = failing.items; calls = 0; faults = 0 }) }
    {
        let taken = Vec::with_capacity(alloc, room)?;
        Ok(VecSink {
            taken,
            room,
            failing,
            calls: 0,
            faults: 0,
        })
    }

    /// What it took.
    pub fn taken(&self) -> &[u8]
        ensures { result.now ≡ self.now.taken }
    {
        self.taken.as_slice()
    }
}

impl Sink for VecSink {
    ghost taken = { λ s. Some s.taken };

    ghost faults = { λ s. s.faults };

    fn write(&mut self, piece: &[u8]) -> Result<usize, Failed>
        ensures count { WritesAtMost result piece.now }
        ensures progress { IfOk result (λ n. 0 < length piece.now → 0 < n) }
        ensures bytes { WriteAppends (Some self.old.taken) (Some self.new.taken) result piece.now }
        ensures cause { CountsFaults self.old.faults self.new.faults result }

        // It fails at the planned calls and past its room, and at no other.
        ensures one { IsErr result → self.new.faults ≡ one_more self.old.faults }
        ensures planned { Contains self.old.failing self.old.calls → IsErr result }
        ensures full { self.old.room < length self.old.taken + length piece.now → IsErr result }
        ensures only { IsErr result → Contains self.old.failing self.old.calls ⊎ (self.old.room < length self.old.taken + length piece.now) }
        ensures counted { self.new ≡ record self.new { room = self.old.room; failing = self.old.failing; calls = one_more self.old.calls } }
    {
        let fails = self.failing.contains(&self.calls);
        self.calls = self.calls.saturating_add(1);
        if fails || self.room - self.taken.len() < piece.len() {
            self.faults = self.faults.saturating_add(1);
            return Err(Failed);
        }
        match self.taken.extend_from_slice(piece) {
            Ok(()) => Ok(piece.len()),
            Err(_) => unreachable!(),
        }
    }
}
