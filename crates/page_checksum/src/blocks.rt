//! The register over blocks of 256 bytes, by XOR alone.
//!
//! The polynomial is p = x^64 + x^4 + x^3 + x + 1, and its coefficients are bits, so to square it
//! is to double its exponents: p^32 = x^2048 + x^128 + x^96 + x^32 + 1. Hence 256 zero bytes do to
//! the register what 16, 12, 4 and no zero bytes do, taken together by XOR, and a block may be
//! XORed into the 256 bytes after it, in four places. The four make 272 bytes, of which the first
//! 16 stand before those 256. So these 16 are XORed into the end of the block itself first.
ghost use Rattle.std.specs.Prelude.{◌≡◌, ◌++◌, take, replicate};
ghost use Rattle.std.specs.List.{concat};
ghost use Rattle.page_checksum.specs.Blocks.{IsCarried, IsProductInto};
ghost use Rattle.page_checksum.specs.Crc.{after_bytes};

use crate::words::feed_by_words;

/// The register after these blocks. They are folded into one that moves a register of 0 the same.
pub fn feed_blocks(register: u64, blocks: &[[u8; 256]]) -> u64
    ensures { result ≡ after_bytes register (concat blocks.now) }
{
    let [first, rest @ ..] = blocks else {
        return register;
    };
    let mut state = enter_block(register, first);
    fold_all(&mut state, rest);
    feed_by_words(0, &state)
}

/// A block that moves a register of 0 as `block` moves this register.
fn enter_block(register: u64, block: &[u8; 256]) -> [u8; 256]
    ensures { after_bytes 0 result ≡ after_bytes register block.now }
{
    let mut entered = *block;
    let (words, _) = block.as_chunks::<8>();
    entered[..8].copy_from_slice(&enter_word(register, &words[0]));
    entered
}

fn enter_word(register: u64, word: &[u8; 8]) -> [u8; 8]
    ensures { after_bytes 0 result ≡ after_bytes register word.now }
{
    (register ^ u64::from_le_bytes(*word)).to_le_bytes()
}

fn fold_all(state: &mut [u8; 256], blocks: &[[u8; 256]])
    ensures { after_bytes 0 state.new ≡ after_bytes 0 (state.old ++ concat blocks.now) }
{
    for block in blocks {
        fold(state, block);
    }
}

/// Takes in the block that follows.
fn fold(state: &mut [u8; 256], block: &[u8; 256])
    ensures { after_bytes 0 state.new ≡ after_bytes 0 (state.old ++ block.now) }
{
    let end = carry(state);
    fold_carried(state, &end, block);
}

/// The last 16 bytes of a block, with the 16 XORed in that would stand before the next block.
fn carry(block: &[u8; 256]) -> [u8; 16]
    ensures { IsCarried block.now result }
{
    let mut front = [0; 28];
    front[12..].copy_from_slice(&block[..16]);
    let mut end = [0; 16];
    for k in 0..16 {
        end[k] = block[240 + k] ^ (front[k] ^ front[k + 8] ^ front[k + 12]);
    }
    end
}

fn fold_carried(state: &mut [u8; 256], end: &[u8; 16], block: &[u8; 256])
    requires { IsCarried state.old end.now }
    ensures { after_bytes 0 state.new ≡ after_bytes 0 (state.old ++ block.now) }
{
    let padded = pad(state, end);
    multiply(state, &padded, block);
}

/// The block with these last 16 bytes, and 16 zero bytes after it.
fn pad(block: &[u8; 256], end: &[u8; 16]) -> [u8; 272]
    ensures { result ≡ take 240 block.now ++ end.now ++ replicate 16 0 }
{
    let mut padded = [0; 272];
    padded[..240].copy_from_slice(&block[..240]);
    padded[240..256].copy_from_slice(end);
    padded
}

/// The next block XORed with the product of the padded one.
fn multiply(state: &mut [u8; 256], padded: &[u8; 272], block: &[u8; 256])
    ensures { IsProductInto padded.now block.now state.new }
{
    for k in 0..256 {
        state[k] = block[k] ^ (padded[k] ^ padded[k + 4] ^ padded[k + 12] ^ padded[k + 16]);
    }
}
