//! Blocks in a row, seen as one run of bytes: a byte of a block that isn't kept is 0.
ghost use Rattle.std.specs.Prelude.{◌≡◌, ◌+◌, ◌-◌, ◌%◌, ◌<◌, ◌≤◌, ◌^◌, ℕ, length, max, slice_index, vec_len, vec_capacity, ◌⊎◌, ◌↔◌, IsTrue, IfOk};
ghost use Rattle.lf_sqlite_pages.specs.BlockTable.{block_size, blocks_in, block_at, byte_in, kept_in};
ghost use Rattle.lf_sqlite_pages.specs.BlockTable.{AreKept, IsPut, IsReady, IsWhole, IsBlank, IsFilled, IsGivenBack, IsReleased, IsRead, IsSaved, IsTable, IsCut, HoldsAll};

use crate::blocks::block::{BLOCK_SIZE, Block, is_blank};
use lf_base::NoMemory;
use std::alloc::Global;
use std::mem;

/// How many blocks the first `len` bytes touch.
pub fn blocks_in(len: usize) -> usize
    requires { len < 2 ^ 63 }
    ensures { result ≡ blocks_in len }
{
    (len + (BLOCK_SIZE - 1)) / BLOCK_SIZE
}

/// Puts bytes over those from `at` on, all in blocks that are kept.
pub fn put(blocks: &mut [Block], at: usize, bytes: &[u8])
    requires short { at + length bytes.now < 2 ^ 63 }
    requires kept { AreKept blocks.old at (at + length bytes.now) }
    ensures { IsPut blocks.old at (at + length bytes.now) bytes.now blocks.new }
{
    let mut place = at;
    let mut rest = bytes;
    while !rest.is_empty() {
        let within = place % BLOCK_SIZE;
        let (piece, behind) = rest.split_at(rest.len().min(BLOCK_SIZE - within));
        blocks[place / BLOCK_SIZE].put(within, piece);
        place += piece.len();
        rest = behind;
    }
}

/// Copies the bytes from `at` on into `out`.
pub fn read(blocks: &[Block], at: usize, out: &mut [u8])
    requires { at + length out.old < 2 ^ 63 }
    ensures { IsRead blocks.now at (length out.old) out.old out.new }
{
    let mut done = 0;
    while done < out.len() {
        let within = (at + done) % BLOCK_SIZE;
        let count = (out.len() - done).min(BLOCK_SIZE - within);
        read_piece(blocks, at + done, &mut out[done..done + count]);
        done += count;
    }
}

/// Copies bytes of one block into `out`.
fn read_piece(blocks: &[Block], place: usize, out: &mut [u8])
    requires { place % 4096 + length out.old ≤ block_size }
    ensures { (k : ℕ) → k < length out.old → slice_index out.new k ≡ byte_in blocks.now (place + k) }
{
    match blocks.get(place / BLOCK_SIZE) {
        Some(block) => block.read(place % BLOCK_SIZE, out),
        None => out.fill(0),
    }
}

/// Whether these bytes stand from `at` on.
pub fn holds(blocks: &[Block], at: usize, piece: &[u8]) -> bool
    requires { at + length piece.now < 2 ^ 63 }
    ensures { IsTrue result ↔ HoldsAll piece.now (λ k. byte_in blocks.now (at + k)) }
{
    let mut done = 0;
    while done < piece.len() {
        let within = (at + done) % BLOCK_SIZE;
        let count = (piece.len() - done).min(BLOCK_SIZE - within);
        if !holds_piece(blocks, at + done, &piece[done..done + count]) {
            return false;
        }
        done += count;
    }
    true
}

/// Whether these bytes stand in one block.
fn holds_piece(blocks: &[Block], place: usize, piece: &[u8]) -> bool
    requires { place % 4096 + length piece.now ≤ block_size }
    ensures { IsTrue result ↔ HoldsAll piece.now (λ k. byte_in blocks.now (place + k)) }
{
    match blocks.get(place / BLOCK_SIZE) {
        Some(block) => block.holds(place % BLOCK_SIZE, piece),
        None => is_blank(piece),
    }
}

/// Sees to it that there are at least `count` places, within the capacity.
fn lengthen(blocks: &mut Vec<Block>, count: usize)
    requires { count ≤ vec_capacity blocks.old }
    ensures len { vec_len blocks.new ≡ max (vec_len blocks.old) count }
    ensures same { (n : ℕ) → block_at blocks.new.items n ≡ block_at blocks.old.items n }
    ensures count { kept_in blocks.new.items ≡ kept_in blocks.old.items }
    ensures capacity { vec_capacity blocks.old ≤ vec_capacity blocks.new }
{
    let alloc = *blocks.allocator();
    for _added in blocks.len()..count {
        let pushed: Result<(), _> = blocks.push(Block::none(alloc));
        pushed.unwrap();
    }
}

/// Sees to it that the blocks from `from` to `to` are kept: a ready one takes the place of each that
/// isn't.
fn take_ready(blocks: &mut [Block], ready: &mut [Block], first: usize, from: usize, to: usize)
    requires there { to ≤ length blocks.old }
    requires order { (first ≤ from) × (from ≤ to) }
    requires ready { (n : ℕ) → from ≤ n → n < to → IsReady blocks.old first ready.old n }
    ensures { IsFilled blocks.old first ready.old from to blocks.new ready.new }
{
    for n in from..to {
        if !blocks[n].is_kept() {
            mem::swap(&mut blocks[n], &mut ready[n - first]);
        }
    }
}

/// Puts a block that is given up among the ready ones, as zeros, if it has a place there.
fn give_back(ready: &mut [Block], first: usize, n: usize, mut block: Block)
    ensures back { first ≤ n → IsGivenBack ready.old (n - first) block ready.new }
    ensures before { n < first → ready.new ≡ ready.old }
{
    if block.is_kept() && first <= n && n - first < ready.len() {
        block.clear_from(0);
        ready[n - first] = block;
    }
}

/// Gives up the blocks from `count` on.
pub fn release(blocks: &mut Vec<Block>, ready: &mut [Block], first: usize, count: usize)
    ensures released { IsReleased blocks.old.items first ready.old count blocks.new.items ready.new }
    ensures capacity { vec_capacity blocks.old ≤ vec_capacity blocks.new }
{
    while blocks.len() > count {
        let block = blocks.pop().unwrap();
        give_back(ready, first, blocks.len(), block);
    }
}

/// A blank block for block `n`, or none where that is kept.
fn blank_for(alloc: Global, blocks: &[Block], n: usize) -> Result<Block, NoMemory>
    ensures { IfOk result (λ block. IsWhole blocks.now n ⊎ IsBlank block) }
{
    match blocks.get(n) {
        Some(block) if block.is_kept() => Ok(Block::none(alloc)),
        _ => Block::blank(alloc),
    }
}

/// Blank blocks for those from `from` to `to` that aren't kept.
pub fn blanks(
    alloc: Global,
    blocks: &[Block],
    from: usize,
    to: usize,
) -> Result<Vec<Block>, NoMemory>
    ensures len { IfOk result (λ ready. vec_len ready ≡ to - from) }
    ensures ready { IfOk result (λ ready. (n : ℕ) → from ≤ n → n < to → IsReady blocks.now from ready.items n) }
{
    let mut ready = Vec::new(alloc);
    for n in from..to {
        ready.push(blank_for(alloc, blocks, n)?)?;
    }
    Ok(ready)
}

/// Sees to it that the blocks from `from` to `to` are kept, within the capacity.
pub fn fill(blocks: &mut Vec<Block>, ready: &mut [Block], first: usize, from: usize, to: usize)
    requires capacity { to ≤ vec_capacity blocks.old }
    requires order { (first ≤ from) × (from ≤ to) }
    requires ready { (n : ℕ) → from ≤ n → n < to → IsReady blocks.old.items first ready.old n }
    ensures filled { IsFilled blocks.old.items first ready.old from to blocks.new.items ready.new }
    ensures len { vec_len blocks.new ≡ max (vec_len blocks.old) to }
    ensures capacity { vec_capacity blocks.old ≤ vec_capacity blocks.new }
{
    lengthen(blocks, to);
    take_ready(blocks.as_mut_slice(), ready, first, from, to);
}

/// Saves the bytes from `at` on, so many, within the capacity.
pub fn save(saved: &mut Vec<u8>, blocks: &[Block], at: usize, count: usize)
    requires short { at + count < 2 ^ 63 }
    requires capacity { count ≤ vec_capacity saved.old }
    ensures saved { IsSaved blocks.now at count saved.new.items }
    ensures capacity { vec_capacity saved.old ≤ vec_capacity saved.new }
{
    let resized: Result<(), _> = saved.resize(count, 0);
    resized.unwrap();
    read(blocks, at, saved.as_mut_slice());
}

/// Puts zeros in place of the bytes from `len` on in the block that they end in.
fn clear_tail(blocks: &mut [Block], len: usize)
    requires { length blocks.old ≤ blocks_in len }
    ensures table { IsTable blocks.new len }
    ensures same { (i : ℕ) → i < len → byte_in blocks.new i ≡ byte_in blocks.old i }
    ensures sizes { (n : ℕ) → length (block_at blocks.new n) ≡ length (block_at blocks.old n) }
    ensures count { kept_in blocks.new ≡ kept_in blocks.old }
{
    if len / BLOCK_SIZE < blocks.len() {
        blocks[len / BLOCK_SIZE].clear_from(len % BLOCK_SIZE);
    }
}

/// Cuts the bytes to a length.
pub fn cut(blocks: &mut Vec<Block>, ready: &mut [Block], first: usize, len: usize)
    requires short { len < 2 ^ 63 }
    ensures cut { IsCut blocks.old.items first ready.old len blocks.new.items ready.new }
    ensures capacity { vec_capacity blocks.old ≤ vec_capacity blocks.new }
{
    release(blocks, ready, first, blocks_in(len));
    clear_tail(blocks.as_mut_slice(), len);
}
