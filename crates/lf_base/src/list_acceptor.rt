ghost use Rattle.std.specs.Prelude.{◌≡◌, ◌==◌, ◌↔◌, not, ◌∷◌, [], true, false, is_none, IfOk, IsErr, IsNone, IsOk, MatchResult, MatchOption, Contains};
ghost use Rattle.lf_base.specs.Faults.{CountsFaults, one_more};
ghost use Rattle.lf_base.specs.Doors.{CountsLinks};

use crate::acceptor::Acceptor;
use crate::handles::Handles;
use crate::mem_link::MemLink;
use crate::memory::NoMemory;
use crate::source::Failed;
use std::marker::Model;

/// An acceptor over links in memory, whose calls of stated numbers fail.
#[derive(Drop)]
pub struct ListAcceptor {
    links: Vec<MemLink>,
    failing: Vec<u64>,
    calls: u64,
    faults: u64,
    given: u64,
    ended: bool,
}

impl Model for ListAcceptor {
    ghost use Rattle.std.specs.Prelude.{◌≡◌, [], true};
    ghost use Rattle.lf_base.specs.Doors.{Door};

    ghost Value = { Door };

    ghost view = { λ a. record { links = a.links.items; failing = a.failing.items; calls = a.calls; faults = a.faults; given = a.given; ended = a.ended } };

    ghost invariant = { λ a. a.ended ≡ true → a.links.items ≡ [] };
}

impl ListAcceptor {
    /// An acceptor that gives these links, one after another. `failing` are the numbers of its calls
    /// that fail, counted from 0.
    pub fn new(links: Vec<MemLink>, failing: Vec<u64>) -> Result<ListAcceptor, NoMemory>
        ensures made { IsOk result }
        ensures acceptor { IfOk result (λ a. a ≡ record { links = links.items; failing = failing.items; calls = 0; faults = 0; given = 0; ended = false }) }
    {
        Ok(ListAcceptor {
            links,
            failing,
            calls: 0,
            faults: 0,
            given: 0,
            ended: false,
        })
    }

    /// Whether its count of faults is not 0.
    pub fn has_failed(&self) -> bool
        ensures { result ≡ not (self.now.faults == 0) }
    {
        self.faults != 0
    }
}

impl Acceptor for ListAcceptor {
    type L = MemLink;

    ghost faults = { λ a. a.faults };

    ghost ended = { λ a. a.ended };

    ghost given = { λ a. a.given };

    fn accept<R: Handles>(&mut self, rt: &R) -> Result<Option<MemLink>, Failed>
        ensures ended { MatchResult result (λ link. self.new.ended ≡ is_none link) (λ _. self.new.ended ≡ self.old.ended) }
        ensures last { self.old.ended ≡ true → IfOk result IsNone }
        ensures given { CountsLinks self.old.given self.new.given result }
        ensures cause { CountsFaults self.old.faults self.new.faults result }

        // It fails at the planned calls, and at no other, and counts one fault there; else it gives the
        // next link.
        ensures fails { IsErr result ↔ Contains self.old.failing self.old.calls }
        ensures one { IsErr result → self.new ≡ record self.old { calls = one_more self.old.calls; faults = one_more self.old.faults } }
        ensures gives { IfOk result (λ link. MatchOption link (self.old.links ≡ [] × self.new.links ≡ []) (λ first. self.old.links ≡ first ∷ self.new.links)) }
        ensures counted { self.new ≡ record self.old { links = self.new.links; calls = one_more self.old.calls; faults = self.new.faults; given = self.new.given; ended = self.new.ended } }
    {
        let fails = self.failing.contains(&self.calls);
        self.calls = self.calls.saturating_add(1);
        if fails {
            self.faults = self.faults.saturating_add(1);
            return Err(Failed);
        }
        if self.links.is_empty() {
            self.ended = true;
            return Ok(None);
        }
        self.given = self.given.saturating_add(1);
        Ok(Some(self.links.remove(0)))
    }
}
