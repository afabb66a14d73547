//! One block of bytes in memory.
ghost use Rattle.std.specs.Prelude.{◌≡◌, ◌+◌, ◌<◌, ◌≤◌, ◌↔◌, ℕ, [], false, length, replicate, slice_index, EachIndex, IsTrue, IfOk};
ghost use Rattle.lf_sqlite_pages.specs.BlockTable.{block_size, is_kept, replaced, cleared_from, IsBlank, HoldsAll};

use lf_base::NoMemory;
use std::alloc::Global;
use std::marker::Model;

/// How many bytes a block has.
pub const BLOCK_SIZE: usize = 4096;

/// A block of `BLOCK_SIZE` bytes, or of none where none is kept.
#[derive(Debug, Drop)]
pub struct Block {
    bytes: Vec<u8>,
}

impl Model for Block {
    ghost use Rattle.std.specs.Prelude.{ℕ, List};

    ghost Value = { List ℕ };

    ghost use Rattle.lf_sqlite_pages.specs.BlockTable.{IsBlock};

    ghost view = { λ block. block.bytes.items };

    ghost invariant = { λ block. IsBlock block.bytes.items };
}

/// So many zeros.
fn zeros(alloc: Global, count: usize) -> Result<Vec<u8>, NoMemory>
    ensures { IfOk result (λ bytes. bytes.items ≡ replicate count 0) }
{
    let bytes = vec![in alloc; 0; count]?;
    Ok(bytes)
}

impl Block {
    /// The place of a block that isn't kept. It takes no memory.
    pub fn none(alloc: Global) -> Block
        ensures { result ≡ [] }
    {
        Block {
            bytes: Vec::new(alloc),
        }
    }

    /// A block of zeros.
    pub fn blank(alloc: Global) -> Result<Block, NoMemory>
        ensures { IfOk result IsBlank }
    {
        let bytes = zeros(alloc, BLOCK_SIZE)?;
        Ok(Block { bytes })
    }

    /// Whether the block is kept.
    pub fn is_kept(&self) -> bool
        ensures value { result ≡ is_kept self.now }
        ensures kept { IsTrue result ↔ (length self.now ≡ block_size) }
        ensures none { result ≡ false → self.now ≡ [] }
    {
        !self.bytes.is_empty()
    }

    /// Puts a piece in place of the bytes that lie at a place.
    pub fn put(&mut self, within: usize, piece: &[u8])
        requires { within + length piece.now ≤ length self.old }
        ensures { self.new ≡ replaced within piece.now self.old }
    {
        self.bytes[within..within + piece.len()].copy_from_slice(piece);
    }

    /// Puts zeros in place of the bytes from a place on.
    pub fn clear_from(&mut self, within: usize)
        ensures { self.new ≡ cleared_from within self.old }
    {
        let from = within.min(self.bytes.len());
        let (_, tail) = self.bytes.as_mut_slice().split_at_mut(from);
        tail.fill(0);
    }

    /// Copies the bytes from a place on into `out`, zeros where no block is kept.
    pub fn read(&self, within: usize, out: &mut [u8])
        requires { within + length out.old ≤ block_size }
        ensures { (k : ℕ) → k < length out.old → slice_index out.new k ≡ slice_index self.now (within + k) }
    {
        if self.bytes.is_empty() {
            out.fill(0);
        } else {
            out.copy_from_slice(&self.bytes[within..within + out.len()]);
        }
    }

    /// Whether these bytes stand from a place on, zeros where no block is kept.
    pub fn holds(&self, within: usize, piece: &[u8]) -> bool
        requires { within + length piece.now ≤ block_size }
        ensures { IsTrue result ↔ HoldsAll piece.now (λ k. slice_index self.now (within + k)) }
    {
        if self.bytes.is_empty() {
            is_blank(piece)
        } else {
            &self.bytes[within..within + piece.len()] == piece
        }
    }
}

/// Whether all bytes are zeros.
pub fn is_blank(piece: &[u8]) -> bool
    ensures { IsTrue result ↔ EachIndex piece.now (λ k. slice_index piece.now k ≡ 0) }
{
    piece.iter().all(|byte| *byte == 0)
}
