//! A list of bytes kept in blocks of 4,096. A block in which nothing was written isn't kept, and reads
//! as zeros.
ghost use Rattle.std.specs.Prelude.{ℕ, ◌≡◌, ◌+◌, ◌≤◌, ◌<◌, ◌↔◌, Some, length, take, drop, IsTrue, IsSome, IsOk, OnOk, OnErr};
ghost use Rattle.lf_base.specs.FileBytes.{Reads};
ghost use Rattle.lf_sqlite_pages.specs.BlockTable.{blocks_in};
ghost use Rattle.lf_sqlite_pages.specs.Blocks.{no_blocks, is_within, room_with, IsWithin, IsWritten, IsUndone, IsResized};

mod block;
mod table;

use block::{BLOCK_SIZE, Block};
use lf_base::NoMemory;
use std::alloc::Global;
use std::marker::Model;

/// The greatest length of a list in blocks.
pub const BLOCKS_LIMIT: u64 = 268_435_456;

/// A list of bytes in blocks. Room for a write is reserved beforehand, and the last write can be taken
/// back.
#[derive(Debug, Drop)]
pub struct Blocks {
    blocks: Vec<Block>,
    len: usize,
    /// The room, and a blank block for each block that it touches and that isn't kept.
    from: usize,
    to: usize,
    ready: Vec<Block>,
    /// The length before the last write, and the bytes that it displaced, from `saved_at` on.
    can_undo: bool,
    old_len: usize,
    saved: Vec<u8>,
    saved_at: usize,
}

impl Model for Blocks {
    ghost use Rattle.lf_sqlite_pages.specs.Blocks.{BlockList};

    ghost Value = { BlockList };

    ghost use Rattle.lf_sqlite_pages.specs.BlockParts.{list_of, IsKept};

    ghost view = { list_of };

    ghost invariant = { IsKept };
}

impl Blocks {
    /// No bytes, and no room.
    pub fn new(alloc: Global) -> Blocks
        ensures { result ≡ no_blocks }
    {
        Blocks {
            blocks: Vec::new(alloc),
            len: 0,
            from: 0,
            to: 0,
            ready: Vec::new(alloc),
            can_undo: false,
            old_len: 0,
            saved: Vec::new(alloc),
            saved_at: 0,
        }
    }

    /// The allocator that the blocks are taken from.
    pub fn allocator(&self) -> &Global {
        self.blocks.allocator()
    }

    /// How many bytes there are.
    pub fn len(&self) -> u64
        ensures value { result ≡ length self.now.bytes }
        ensures limited { result ≤ BLOCKS_LIMIT }
    {
        self.len as u64
    }

    /// What is always true of a list in blocks. It does nothing: a caller's proof takes the facts from
    /// here.
    pub fn sound(&self)
        ensures short { length self.now.bytes ≤ BLOCKS_LIMIT }
        ensures room { (at count : ℕ) → IsWithin self.now.room at count → at + count ≤ BLOCKS_LIMIT }
    {
        let _ = &self.to;
        self.len();
    }

    /// How many blocks are kept for them.
    pub fn held(&self) -> u64
        ensures value { result ≡ self.now.held }
        ensures few { result ≤ blocks_in (length self.now.bytes) }
    {
        self.blocks.iter().filter(|block| block.is_kept()).count() as u64
    }

    /// Reads as many bytes from `at` on as there are and `out` has room for, and answers how many.
    pub fn read(&self, at: u64, out: &mut [u8]) -> usize
        ensures { Reads self.now.bytes at out.old out.new result }
    {
        if at >= self.len as u64 {
            return 0;
        }
        let at = at as usize;
        let count = out.len().min(self.len - at);
        let (front, _) = out.split_at_mut(count);
        table::read(self.blocks.as_slice(), at, front);
        count
    }

    /// Whether these bytes stand from a place on.
    pub fn holds(&self, at: u64, piece: &[u8]) -> bool
        requires { at + length piece.now ≤ length self.now.bytes }
        ensures { IsTrue result ↔ (take (length piece.now) (drop at self.now.bytes) ≡ piece.now) }
    {
        table::holds(self.blocks.as_slice(), at as usize, piece)
    }

    /// Whether a write of `count` bytes at a place takes no memory.
    pub fn has_room(&self, at: u64, count: u64) -> bool
        ensures value { result ≡ is_within self.now.room at count }
        ensures within { IsTrue result ↔ IsWithin self.now.room at count }
        ensures limited { IsTrue result → at + count ≤ BLOCKS_LIMIT }
    {
        match at.checked_add(count) {
            None => false,
            Some(end) => self.from as u64 <= at && end <= self.to as u64,
        }
    }

    /// Sees to it that a write of `count` bytes at a place takes no memory. Where the room doesn't hold
    /// it, it is given up for room for this write alone. After want of memory nothing changed.
    pub fn reserve(&mut self, at: u64, count: u64) -> Result<(), NoMemory>
        requires { at + count ≤ BLOCKS_LIMIT }
        ensures ok { OnOk result (self.new ≡ record self.old { room = room_with self.old.room at count }) }
        ensures err { OnErr result (self.new ≡ self.old) }
        ensures enough { IsWithin self.old.room at count → IsOk result }
    {
        if self.has_room(at, count) {
            return Ok(());
        }
        self.make_room(at as usize, (at + count) as usize)
    }

    /// Makes room for the bytes from one place to another.
    fn make_room(&mut self, from: usize, to: usize) -> Result<(), NoMemory>
        requires order { from ≤ to }
        requires short { to ≤ BLOCKS_LIMIT }
        ensures ok { OnOk result (self.new ≡ record self.old { room = record { from = from; to = to } }) }
        ensures err { OnErr result (self.new ≡ self.old) }
    {
        let end = if from < to { table::blocks_in(to) } else { 0 };
        let alloc = *self.blocks.allocator();
        let ready = table::blanks(alloc, self.blocks.as_slice(), from / BLOCK_SIZE, end)?;
        self.blocks.reserve(end.saturating_sub(self.blocks.len()))?;
        self.saved
            .reserve((to - from).saturating_sub(self.saved.len()))?;
        self.ready = ready;
        self.from = from;
        self.to = to;
        Ok(())
    }

    /// Writes a piece at a place and takes no memory; a gap holds zeros.
    pub fn write_within(&mut self, at: u64, piece: &[u8])
        requires { IsWithin self.old.room at (length piece.now) }
        ensures { IsWritten self.old at piece.now self.new }
    {
        if piece.is_empty() {
            self.save_nothing();
        } else {
            self.write_some(at as usize, piece);
        }
    }

    /// Notes a write that changes nothing.
    fn save_nothing(&mut self)
        ensures { self.new ≡ record self.old { before = Some self.old.bytes } }
    {
        self.saved.clear();
        self.saved_at = 0;
        self.old_len = self.len;
        self.can_undo = true;
    }

    /// Writes a piece that isn't empty.
    fn write_some(&mut self, at: usize, piece: &[u8])
        requires some { 0 < length piece.now }
        requires room { IsWithin self.old.room at (length piece.now) }
        ensures { IsWritten self.old at piece.now self.new }
    {
        let first = self.from / BLOCK_SIZE;
        let end = at + piece.len();
        let ready = self.ready.as_mut_slice();
        table::fill(
            &mut self.blocks,
            ready,
            first,
            at / BLOCK_SIZE,
            table::blocks_in(end),
        );
        let start = at.min(self.len);
        let displaced = piece.len().min(self.len - start);
        table::save(&mut self.saved, self.blocks.as_slice(), start, displaced);
        table::put(self.blocks.as_mut_slice(), at, piece);
        self.saved_at = start;
        self.old_len = self.len;
        self.len = self.len.max(end);
        self.can_undo = true;
    }

    /// Writes a piece at a place; a gap holds zeros. After want of memory nothing changed.
    pub fn write(&mut self, at: u64, piece: &[u8]) -> Result<(), NoMemory>
        requires { at + length piece.now ≤ BLOCKS_LIMIT }
        ensures ok { OnOk result (IsWritten (record self.old { room = room_with self.old.room at (length piece.now) }) at piece.now self.new) }
        ensures err { OnErr result (self.new ≡ self.old) }
        ensures enough { IsWithin self.old.room at (length piece.now) → IsOk result }
    {
        self.reserve(at, piece.len() as u64)?;
        self.write_within(at, piece);
        Ok(())
    }

    /// Takes the last write back. It takes no memory.
    pub fn undo(&mut self)
        requires { IsSome self.old.before }
        ensures { IsUndone self.old self.new }
    {
        table::put(
            self.blocks.as_mut_slice(),
            self.saved_at,
            self.saved.as_slice(),
        );
        let first = self.from / BLOCK_SIZE;
        table::cut(
            &mut self.blocks,
            self.ready.as_mut_slice(),
            first,
            self.old_len,
        );
        self.len = self.old_len;
        self.can_undo = false;
    }

    /// Cuts the bytes to a length, or fills them up to it with zeros. It takes no memory.
    pub fn cut(&mut self, len: u64) -> Result<(), NoMemory>
        requires { len ≤ BLOCKS_LIMIT }
        ensures ok { IsOk result }
        ensures resized { IsResized self.old len self.new }
    {
        let len = len as usize;
        let first = self.from / BLOCK_SIZE;
        table::cut(&mut self.blocks, self.ready.as_mut_slice(), first, len);
        self.len = len;
        self.can_undo = false;
        Ok(())
    }

    /// Drops all bytes and the room.
    pub fn clear(&mut self)
        ensures { self.new ≡ no_blocks }
    {
        let alloc = *self.blocks.allocator();
        *self = Blocks::new(alloc);
    }
}
