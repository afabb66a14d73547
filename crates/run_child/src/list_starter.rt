ghost use Rattle.std.specs.Prelude.{◌≡◌, ◌≢◌, ◌↔◌, ◌∷◌, ◌++◌, [], Some, IsTrue, IfOk, OnErr, IsErr, IsOk, MatchResult, Contains};
ghost use Rattle.lf_base.specs.Faults.{CountsFaults, Rose, one_more};
ghost use Rattle.run_child.specs.Started.{TellsOne, TellsSame};

use crate::starter::{ReadyStarter, Starter};
use lf_base::{Failed, Link, NoMemory, Text};
use std::alloc::Global;
use std::marker::Model;
use std::process::Processes;

/// A program that was started, and what it gave.
#[derive(Drop)]
pub struct Told {
    words: Vec<Text>,
    gave: u8,
}

impl Model for Told {
    ghost use Rattle.run_child.specs.Started.{Started};

    ghost Value = { Started };

    ghost view = { λ t. record { words = t.words.items; gave = t.gave } };
}

/// A starter in memory, which runs nothing. It gives these statuses in order; its starts of stated
/// numbers fail, and each past the statuses or for whose record no memory is found.
#[derive(Drop)]
pub struct ListStarter {
    alloc: Global,
    gives: Vec<u8>,
    failing: Vec<u64>,
    calls: u64,
    faults: u64,
    told: Vec<Told>,
}

impl Model for ListStarter {
    ghost use Rattle.run_child.specs.Started.{Roll};

    ghost Value = { Roll };

    ghost view = { λ s. record { gives = s.gives.items; failing = s.failing.items; calls = s.calls; faults = s.faults; told = s.told.items } };
}

impl Told {
    pub fn words(&self) -> &[Text]
        ensures { result.now ≡ self.now.words }
    {
        self.words.as_slice()
    }

    pub fn gave(&self) -> u8
        ensures { result ≡ self.now.gave }
    {
        self.gave
    }
}

impl ListStarter {
    /// `failing` are the numbers of its starts that fail, counted from 0.
    pub fn new(alloc: Global, gives: Vec<u8>, failing: Vec<u64>) -> Result<ListStarter, NoMemory>
        ensures made { IsOk result }
        ensures starter { IfOk result (λ s. s ≡ record { gives = gives.items; failing = failing.items; calls = 0; faults = 0; told = [] }) }
    {
        Ok(ListStarter {
            alloc,
            gives,
            failing,
            calls: 0,
            faults: 0,
            told: Vec::new(alloc),
        })
    }

    /// The programs that it started, in order.
    pub fn started(&self) -> &[Told]
        ensures { result.now ≡ self.now.told }
    {
        self.told.as_slice()
    }

    /// Whether its next start is planned to fail.
    fn is_planned(&self) -> bool
        ensures { IsTrue result ↔ Contains self.now.failing self.now.calls }
    {
        is_among(self.failing.as_slice(), self.calls)
    }

    /// Counts a start, and says whether it is planned to fail.
    fn begin(&mut self) -> bool
        ensures planned { IsTrue result ↔ Contains self.old.failing self.old.calls }
        ensures counted { self.new ≡ record self.old { calls = one_more self.old.calls } }
    {
        let fails = self.is_planned();
        self.calls = self.calls.saturating_add(1);
        fails
    }

    fn fail(&mut self) -> Failed
        ensures one { self.new ≡ record self.old { faults = one_more self.old.faults } }
        ensures rose { Rose self.old.faults self.new.faults }
    {
        self.faults = self.faults.saturating_add(1);
        Failed
    }

    /// Writes down a start that gives the next status.
    fn note(&mut self, words: &[Text]) -> Result<u8, NoMemory>
        requires { self.old.gives ≢ [] }
        ensures noted { IfOk result (λ n. self.new ≡ record self.old { gives = self.new.gives; told = self.old.told ++ (record { words = words.now; gave = n }) ∷ [] }) }
        ensures gives { IfOk result (λ n. self.old.gives ≡ n ∷ self.new.gives) }
        ensures err { OnErr result (self.new ≡ self.old) }
    {
        let gave = self.gives[0];
        let words = copies_of(self.alloc, words)?;
        self.told.push(Told { words, gave })?;
        self.gives.remove(0);
        Ok(gave)
    }
}

fn is_among(numbers: &[u64], number: u64) -> bool
    ensures { IsTrue result ↔ Contains numbers.now number }
{
    numbers.contains(&number)
}

/// The same words once more.
fn copies_of(alloc: Global, words: &[Text]) -> Result<Vec<Text>, NoMemory>
    ensures { IfOk result (λ copies. copies.items ≡ words.now) }
{
    let mut copies = Vec::new(alloc);
    for word in words {
        copies.push(word.copy()?)?;
    }
    Ok(copies)
}

impl Starter for ListStarter {
    ghost starts = { λ s. Some s.told };

    ghost faults = { λ s. s.faults };

    fn start<R: Processes, L: Link>(
        &mut self,
        rt: &R,
        link: &L,
        words: &[Text],
    ) -> Result<u8, Failed>
        ensures told { MatchResult result (λ n. TellsOne (Some self.old.told) (Some self.new.told) (record { words = words.now; gave = n }))
            (λ _. TellsSame (Some self.old.told) (Some self.new.told)) }
        ensures cause { CountsFaults self.old.faults self.new.faults result }

        // A planned failure, and each start past the statuses, is one; where it goes well the next
        // status is given.
        ensures planned { Contains self.old.failing self.old.calls → IsErr result }
        ensures used_up { self.old.gives ≡ [] → IsErr result }
        ensures gives { IfOk result (λ n. self.old.gives ≡ n ∷ self.new.gives) }
        ensures counted { self.new ≡ record self.old { gives = self.new.gives; calls = one_more self.old.calls; faults = self.new.faults; told = self.new.told } }
    {
        if self.begin() || self.gives.is_empty() {
            return Err(self.fail());
        }
        match self.note(words) {
            Ok(gave) => Ok(gave),
            Err(_) => Err(self.fail()),
        }
    }
}

impl ReadyStarter for ListStarter {
    ghost ready = { λ _ _. tt };
}
