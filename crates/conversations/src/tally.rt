//! How much of a conversation was replayed, and how much of it differs.
ghost use Rattle.std.specs.Prelude.{◌≡◌, IfOk, OnErr, IsSome};
ghost use Rattle.conversations.specs.Replaying.{one_more};

use crate::difference::Difference;
use crate::replay::Replay;
use crate::turn::Turn;
use lf_base::NoMemory;
use std::alloc::Global;
use test_base::Fault;

/// A conversation, how many of its lines were taken, and how many of these differ.
#[derive(Drop)]
pub struct Tally {
    replay: Replay,
    turns: u64,
    differ: u64,
}

impl Tally {
    pub fn new(alloc: Global) -> Result<Tally, NoMemory>
        ensures turns { IfOk result (λ tally. tally.turns ≡ 0) }
        ensures differ { IfOk result (λ tally. tally.differ ≡ 0) }
    {
        Ok(Tally {
            replay: Replay::new(alloc)?,
            turns: 0,
            differ: 0,
        })
    }

    pub fn turns(&self) -> u64
        ensures { result ≡ self.now.turns }
    {
        self.turns
    }

    pub fn differ(&self) -> u64
        ensures { result ≡ self.now.differ }
    {
        self.differ
    }

    pub fn transactions(&self) -> u64
        ensures { result ≡ self.now.replay.transactions }
    {
        self.replay.transactions()
    }

    /// Takes one line of a record, and says what differs.
    pub fn take(&mut self, alloc: Global, line: &str) -> Result<Option<Difference>, Fault>
        ensures turns { self.new.turns ≡ one_more self.old.turns }
        ensures same { IfOk result (λ why. why ≡ None → self.new.differ ≡ self.old.differ) }
        ensures differ { IfOk result (λ why. IsSome why → self.new.differ ≡ one_more self.old.differ) }
        ensures err { OnErr result (self.new.differ ≡ self.old.differ) }
    {
        self.turns = self.turns.saturating_add(1);
        let turn = Turn::read(alloc, line)?;
        let difference = self.replay.take(alloc, &turn)?;
        if difference.is_some() {
            self.differ = self.differ.saturating_add(1);
        }
        Ok(difference)
    }
}
