ghost use Rattle.std.specs.Prelude.{◌≡◌, ◌==◌, ◌↔◌, not, ◌≤◌, ◌∷◌, [], Some, None, All, IfOk, IsErr, IfSome, IfNone, IsNone, MatchResult, MatchBool};
ghost use Rattle.lf_base.specs.Faults.{CountsFaults, Rose, one_more};
ghost use Rattle.lf_base.specs.Dials.{TellsSame, TellsMore, TellsNone, IsFailed, IsHungUp};
ghost use Rattle.lf_base.specs.Doors.{IsUnused, FailsDial, dials_of, noted};
ghost use Rattle.lf_base.specs.Wire.{given_by, left_on};

use crate::dialer::Dialer;
use crate::handles::Handles;
use crate::mem_link::MemLink;
use crate::memory::NoMemory;
use crate::source::Failed;
use crate::text::Text;
use std::alloc::Global;
use std::marker::Model;

/// A dialer that gives links in memory, whose dials of stated numbers fail, and each past its places
/// or its links.
#[derive(Drop)]
pub struct MemDialer {
    alloc: Global,
    links: Vec<MemLink>,
    places: usize,
    failing: Vec<u64>,
    calls: u64,
    faults: u64,
    told: Vec<Option<MemLink>>,
    untold: u64,
}

impl Model for MemDialer {
    ghost use Rattle.std.specs.Prelude.{◌≤◌, vec_capacity, vec_len, All};
    ghost use Rattle.lf_base.specs.Doors.{Phone, IsUnused};

    ghost Value = { Phone };

    ghost view = { λ d. record { links = d.links.items; places = d.places; failing = d.failing.items; calls = d.calls; faults = d.faults; told = d.told.items; untold = d.untold } };

    ghost invariant = { λ d. (d.places ≤ vec_capacity d.told) × (vec_len d.told ≤ d.places) × All IsUnused d.links.items };
}

impl MemDialer {
    /// A dialer that gives these links, one after another, and has places to tell `places` dials.
    /// `failing` are the numbers of its dials that fail, counted from 0.
    pub fn new(
        alloc: Global,
        links: Vec<MemLink>,
        places: usize,
        failing: Vec<u64>,
    ) -> Result<MemDialer, NoMemory>
        requires { All IsUnused links.items }
        ensures { IfOk result (λ d. d ≡ record { links = links.items; places = places; failing = failing.items; calls = 0; faults = 0; told = []; untold = 0 }) }
    {
        let told = Vec::with_capacity(alloc, places)?;
        Ok(MemDialer {
            alloc,
            links,
            places,
            failing,
            calls: 0,
            faults: 0,
            told,
            untold: 0,
        })
    }

    /// Whether its count of faults is not 0.
    pub fn has_failed(&self) -> bool
        ensures { result ≡ not (self.now.faults == 0) }
    {
        self.faults != 0
    }

    /// Tells a dial, where there is a place for it.
    #[tactic(auto, using(crate::proofs::DialLemmas::tells_noted, crate::proofs::DialLemmas::hung_up_as))]
    fn note(&mut self, dial: Option<MemLink>)
        ensures noted { self.new ≡ noted dial self.old }
        ensures failed { IfNone dial (TellsMore IsFailed (dials_of self.old) (dials_of self.new)) }
        ensures hung_up { IfSome dial (λ link. TellsMore (IsHungUp (Some (given_by link)) (Some link.taken) (Some (left_on link)) link.faults) (dials_of self.old) (dials_of self.new)) }
    {
        if self.told.len() == self.places {
            self.untold = self.untold.saturating_add(1);
            return;
        }
        match self.told.push(dial) {
            Ok(()) => {}
            Err(_) => unreachable!(),
        }
    }

    fn fail(&mut self)
        ensures one { self.new ≡ record self.old { faults = one_more self.old.faults } }
        ensures rose { Rose self.old.faults self.new.faults }
    {
        self.faults = self.faults.saturating_add(1);
    }

    /// The next link, where the dial does not fail.
    #[tactic(auto, using(crate::proofs::DialLemmas::unused_given))]
    fn next(&mut self) -> Option<MemLink>
        ensures fails { IsNone result ↔ FailsDial self.old }
        ensures gives { IfSome result (λ link. self.old.links ≡ link ∷ self.new.links) }
        ensures unused { IfSome result (λ link. (link.faults ≡ 0) × (given_by link ≡ []) × (link.taken ≡ [])) }
        ensures none { IfNone result (self.new.links ≡ self.old.links) }
        ensures counted { self.new ≡ record self.old { links = self.new.links; calls = one_more self.old.calls } }
    {
        let fails = self.failing.contains(&self.calls);
        let past = self.calls >= self.places as u64;
        self.calls = self.calls.saturating_add(1);
        if fails || past || self.links.is_empty() {
            return None;
        }
        Some(self.links.remove(0))
    }
}

impl Dialer for MemDialer {
    type L = MemLink;

    ghost faults = { λ d. d.faults };

    ghost dials = { λ d. dials_of d };

    fn dial<R: Handles>(&mut self, rt: &R, address: &Text) -> Result<MemLink, Failed>
        ensures begins { IfOk result (λ link. link.faults ≡ 0) }
        ensures new { IfOk result (λ link. (given_by link ≡ []) × (link.taken ≡ [])) }
        ensures dials { MatchResult result (λ _. TellsSame (dials_of self.old) (dials_of self.new)) (λ _. TellsMore IsFailed (dials_of self.old) (dials_of self.new)) }
        ensures cause { CountsFaults self.old.faults self.new.faults result }

        // It fails at the planned dials, past its places and past its links, and at no other, and counts
        // one fault there; else it gives the next link.
        ensures fails { IsErr result ↔ FailsDial self.old }
        ensures ok { IfOk result (λ link. (self.old.links ≡ link ∷ self.new.links) × (self.new ≡ record self.old { links = self.new.links; calls = one_more self.old.calls })) }
        ensures err { IsErr result → self.new ≡ noted None (record self.old { calls = one_more self.old.calls; faults = one_more self.old.faults }) }
    {
        match self.next() {
            Some(link) => Ok(link),
            None => {
                self.fail();
                self.note(None);
                Err(Failed)
            }
        }
    }

    fn hang_up(&mut self, link: MemLink)
        ensures dials { TellsMore (IsHungUp (Some (given_by link)) (Some link.taken) (Some (left_on link)) link.faults) (dials_of self.old) (dials_of self.new) }
        ensures cause { MatchBool (link.faults == 0) (self.new.faults ≡ self.old.faults) (Rose self.old.faults self.new.faults) }
        ensures noted { self.new ≡ noted (Some link) (record self.old { faults = self.new.faults }) }
    {
        if link.has_failed() {
            self.fail();
        }
        self.note(Some(link));
    }

    fn another(&self) -> MemDialer
        ensures faults { result.faults ≡ 0 }
        ensures dials { TellsNone (dials_of result) }
        ensures empty { result ≡ record { links = []; places = 0; failing = []; calls = 0; faults = 0; told = []; untold = 0 } }
    {
        MemDialer {
            alloc: self.alloc,
            links: Vec::new(self.alloc),
            places: 0,
            failing: Vec::new(self.alloc),
            calls: 0,
            faults: 0,
            told: Vec::new(self.alloc),
            untold: 0,
        }
    }
}
