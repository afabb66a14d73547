ghost use Rattle.std.specs.Prelude.{◌≡◌, ◌↔◌, IfOk, IsOk, IsErr, Contains, Some};
ghost use Rattle.std.specs.Io.{ReadsAtMost};
ghost use Rattle.std.specs.Io.KnownBytes.{ReadConsumes};
ghost use Rattle.lf_base.specs.Faults.{CountsFaults, one_more};

use crate::memory::NoMemory;
use crate::source::{Failed, Source};
use std::marker::Model;

/// A source over bytes in memory, whose calls of stated numbers fail.
#[derive(Drop)]
pub struct SliceSource<'a> {
    rest: &'a [u8],
    failing: Vec<u64>,
    calls: u64,
    faults: u64,
}

impl<'a> Model for SliceSource<'a> {
    ghost use Rattle.lf_base.specs.Feed.{Feed};

    ghost Value = { Feed };

    ghost view = { λ s. record { left = s.rest.now; failing = s.failing.items; calls = s.calls; faults = s.faults } };
}

impl SliceSource<'_> {
    /// A source of these bytes. `failing` are the numbers of its calls that fail, counted from 0.
    pub fn new(bytes: &[u8], failing: Vec<u64>) -> Result<SliceSource<'_>, NoMemory>
        ensures made { IsOk result }
        ensures source { IfOk result (λ s. s ≡ record { left = bytes.now; failing = failing.items; calls = 0; faults = 0 }) }
    {
        Ok(SliceSource {
            rest: bytes,
            failing,
            calls: 0,
            faults: 0,
        })
    }
}

impl Source for SliceSource<'_> {
    ghost left = { λ s. Some s.left };

    ghost faults = { λ s. s.faults };

    fn read(&mut self, out: &mut [u8]) -> Result<usize, Failed>
        ensures count { ReadsAtMost result out.new }
        ensures bytes { ReadConsumes (Some self.old.left) (Some self.new.left) result out.new }
        ensures cause { CountsFaults self.old.faults self.new.faults result }

        // It fails at the planned calls, and at no other.
        ensures fails { IsErr result ↔ Contains self.old.failing self.old.calls }
        ensures counted { self.new.calls ≡ one_more self.old.calls }
        ensures failing { self.new.failing ≡ self.old.failing }
        ensures one { IsErr result → self.new.faults ≡ one_more self.old.faults }
    {
        let fails = self.failing.contains(&self.calls);
        self.calls = self.calls.saturating_add(1);
        if fails {
            self.faults = self.faults.saturating_add(1);
            return Err(Failed);
        }
        let count = self.rest.len().min(out.len());
        let (front, rest) = self.rest.split_at(count);
        out[..count].copy_from_slice(front);
        self.rest = rest;
        Ok(count)
    }
}
