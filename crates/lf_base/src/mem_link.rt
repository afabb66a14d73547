//! A link in memory, and a second view of what it took.
ghost use Rattle.std.specs.Prelude.{◌≡◌, ◌<◌, ◌≤◌, ◌+◌, ◌⊎◌, ◌++◌, [], ◌↔◌, length, min, take, not, ◌==◌, IsTrue, IfOk, IsErr, Contains, Some};
ghost use Rattle.std.specs.Io.{ReadsAtMost, WritesAtMost};
ghost use Rattle.std.specs.Io.KnownBytes.{ReadConsumes, WriteAppends, Keeps};
ghost use Rattle.lf_base.specs.Faults.{CountsFaults, Rose, one_more};
ghost use Rattle.lf_base.specs.Moves.{CountsMoves};
ghost use Rattle.lf_base.specs.Wire.{new_wire, given_by, left_on};

use crate::link::Link;
use crate::memory::NoMemory;
use crate::source::Failed;
use crate::watch::{Board, Watch};
use std::alloc::Global;
use std::marker::Model;

/// A link over bytes in memory, into reserved memory, whose calls of stated numbers fail, and each
/// write past its room.
#[derive(Drop)]
pub struct MemLink {
    input: Vec<u8>,
    at: usize,
    size: usize,
    taken: Vec<u8>,
    room: usize,
    failing: Vec<u64>,
    calls: u64,
    faults: u64,
    moves: u64,
    board: Board,
}

impl Model for MemLink {
    ghost use Rattle.std.specs.Prelude.{◌≤◌, ◌<◌, vec_capacity, vec_len};
    ghost use Rattle.lf_base.specs.Wire.{Wire};

    ghost Value = { Wire };

    ghost view = { λ l. record { input = l.input.items; at = l.at; size = l.size; taken = l.taken.items; room = l.room; failing = l.failing.items; calls = l.calls; faults = l.faults; moves = l.moves } };

    ghost invariant = { λ l. (l.at ≤ vec_len l.input) × (0 < l.size) × (l.room ≤ vec_capacity l.taken) × (vec_len l.taken ≤ l.room) };
}

impl MemLink {
    /// A link that gives the input, and has room for `room` bytes. `failing` are the numbers of its
    /// calls that fail, counted from 0.
    pub fn new(
        alloc: Global,
        input: Vec<u8>,
        room: usize,
        failing: Vec<u64>,
    ) -> Result<MemLink, NoMemory>
        ensures { IfOk result (λ l. l ≡ new_wire input.items room failing.items) }
    {
        let taken = Vec::with_capacity(alloc, room)?;
        let board = Board::new(alloc, room)?;
        Ok(MemLink {
            input,
            at: 0,
            size: usize::MAX,
            taken,
            room,
            failing,
            calls: 0,
            faults: 0,
            moves: 0,
            board,
        })
    }

    /// From now on each read gives at most `size` bytes.
    pub fn cut_into(&mut self, size: usize)
        requires { 0 < size }
        ensures { self.new ≡ record self.old { size = size } }
    {
        self.size = size;
    }

    /// A second view of the bytes that it takes, which stays when the link is moved or dropped.
    pub fn watch(&self) -> Watch {
        self.board.watch()
    }

    /// Whether its count of faults is not 0.
    pub fn has_failed(&self) -> bool
        ensures { result ≡ not (self.now.faults == 0) }
    {
        self.faults != 0
    }

    /// Counts a call, and says whether it is planned to fail.
    fn begin(&mut self) -> bool
        ensures planned { IsTrue result ↔ Contains self.old.failing self.old.calls }
        ensures counted { self.new ≡ record self.old { calls = one_more self.old.calls } }
    {
        let fails = self.failing.contains(&self.calls);
        self.calls = self.calls.saturating_add(1);
        fails
    }

    fn fail(&mut self) -> Failed
        ensures one { self.new ≡ record self.old { faults = one_more self.old.faults } }
        ensures rose { Rose self.old.faults self.new.faults }
    {
        self.faults = self.faults.saturating_add(1);
        Failed
    }

    /// Puts the next bytes in front of `out`.
    #[tactic(auto, using(crate::proofs::WireLemmas::left_less, crate::proofs::WireLemmas::given_more, crate::proofs::WireLemmas::nothing_left))]
    fn give(&mut self, out: &mut [u8]) -> usize
        ensures count { result ≡ min (min self.old.size (length out.old)) (length (left_on self.old)) }
        ensures room { length out.new ≡ length out.old }
        ensures left { left_on self.old ≡ take result out.new ++ left_on self.new }
        ensures given { given_by self.new ≡ given_by self.old ++ take result out.new }
        ensures end { result ≡ 0 → 0 < length out.old → left_on self.new ≡ [] }
        ensures at { self.new ≡ record self.old { at = self.old.at + result } }
    {
        let (_, left) = self.input.split_at(self.at);
        let count = copy_front(left, self.size, out);
        self.at += count;
        count
    }

    /// Counts a call that moved so many bytes.
    fn count(&mut self, moved: usize)
        ensures { self.new ≡ record self.old { moves = min (self.old.moves + min moved 1) 18446744073709551615 } }
    {
        if moved > 0 {
            self.moves = self.moves.saturating_add(1);
        }
    }
}

/// Copies the first bytes in front of `out`, at most `most` of them.
fn copy_front(bytes: &[u8], most: usize, out: &mut [u8]) -> usize
    ensures count { result ≡ min (min most (length out.old)) (length bytes.now) }
    ensures bytes { take result out.new ≡ take result bytes.now }
    ensures room { length out.new ≡ length out.old }
{
    let count = most.min(out.len()).min(bytes.len());
    out[..count].copy_from_slice(&bytes[..count]);
    count
}

impl Link for MemLink {
    ghost left = { λ l. Some (left_on l) };

    ghost given = { λ l. Some (given_by l) };

    ghost taken = { λ l. Some l.taken };

    ghost faults = { λ l. l.faults };

    ghost moves = { λ l. l.moves };

    fn read(&mut self, out: &mut [u8]) -> Result<usize, Failed>
        ensures count { ReadsAtMost result out.new }
        ensures bytes { ReadConsumes (Some (left_on self.old)) (Some (left_on self.new)) result out.new }
        ensures given { WriteAppends (Some (given_by self.old)) (Some (given_by self.new)) result out.new }
        ensures taken { Keeps (Some self.old.taken) (Some self.new.taken) }
        ensures moves { CountsMoves self.old.moves self.new.moves result }
        ensures cause { CountsFaults self.old.faults self.new.faults result }

        // It fails at the planned calls, and at no other, and counts one fault there.
        ensures fails { IsErr result ↔ Contains self.old.failing self.old.calls }
        ensures one { IsErr result → self.new.faults ≡ one_more self.old.faults }
        ensures gives { IfOk result (λ n. n ≡ min (min self.old.size (length out.old)) (length (left_on self.old))) }
        ensures counted { self.new ≡ record self.old { at = self.new.at; calls = one_more self.old.calls; faults = self.new.faults; moves = self.new.moves } }
    {
        if self.begin() {
            return Err(self.fail());
        }
        let count = self.give(out);
        self.count(count);
        Ok(count)
    }

    fn write(&mut self, piece: &[u8]) -> Result<usize, Failed>
        ensures count { WritesAtMost result piece.now × IfOk result (λ n. 0 < length piece.now → 0 < n) }
        ensures bytes { WriteAppends (Some self.old.taken) (Some self.new.taken) result piece.now }
        ensures left { Keeps (Some (left_on self.old)) (Some (left_on self.new)) }
        ensures given { Keeps (Some (given_by self.old)) (Some (given_by self.new)) }
        ensures moves { CountsMoves self.old.moves self.new.moves result }
        ensures cause { CountsFaults self.old.faults self.new.faults result }

        // It fails at the planned calls and past its room, and at no other, and counts one fault there.
        ensures fails { IsErr result ↔ Contains self.old.failing self.old.calls ⊎ (self.old.room < length self.old.taken + length piece.now) }
        ensures one { IsErr result → self.new.faults ≡ one_more self.old.faults }
        ensures whole { IfOk result (λ n. n ≡ length piece.now) }
        ensures counted { self.new ≡ record self.old { taken = self.new.taken; calls = one_more self.old.calls; faults = self.new.faults; moves = self.new.moves } }
    {
        if self.begin() || self.room - self.taken.len() < piece.len() {
            return Err(self.fail());
        }
        match self.taken.extend_from_slice(piece) {
            Ok(()) => {}
            Err(_) => unreachable!(),
        }
        self.board.show(piece);
        self.count(piece.len());
        Ok(piece.len())
    }
}
