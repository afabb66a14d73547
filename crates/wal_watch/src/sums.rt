//! The checksums of a write-ahead log (SQLite file format, section 4.2).
ghost use Rattle.std.specs.Prelude.{◌≡◌, ◌+◌, ◌*◌, ◌/◌, ◌≤◌, ◌<◌, ◌^◌, ℕ, length};
ghost use Rattle.lf_base.specs.FileBytes.{resized};
ghost use Rattle.wal_watch.specs.Sums.{word_at, no_sums, with_pair, with_pairs, stand_at};

use crate::reader::fill;
use lf_base::{be32_at, le32_at};
use lf_sqlite_pages::Blocks;

/// The two running sums.
#[derive(Clone, Copy, Debug, PartialEq, Eq)]
pub struct Sums {
    pub first: u32,
    pub second: u32,
}

/// The word of the four bytes from `place` on, in either byte order.
#[tactic(auto, unfolding(crate::specs::Sums::word_at))]
fn word_at(little: bool, contents: &[u8], place: usize) -> u32
    requires { place + 4 ≤ length contents.now }
    ensures { result ≡ word_at little place contents.now }
{
    if little {
        le32_at(contents, place)
    } else {
        be32_at(contents, place)
    }
}

/// The sums with one more pair of words.
#[tactic(auto, unfolding(crate::specs::Sums::with_pair))]
fn with_pair(sums: Sums, a: u32, b: u32) -> Sums
    ensures { result ≡ with_pair sums a b }
{
    let first = (sums.first as u64 + a as u64 + sums.second as u64) % 0x1_0000_0000;
    let second = (sums.second as u64 + b as u64 + first) % 0x1_0000_0000;
    Sums {
        first: first as u32,
        second: second as u32,
    }
}

/// The sums with `count` more pairs of words, which stand from `place` on.
#[tactic(auto, using(crate::proofs::Steps::with_pairs_none, crate::proofs::Steps::with_pairs_more))]
pub fn with_pairs(little: bool, sums: Sums, place: usize, contents: &[u8], count: usize) -> Sums
    requires { place + 8 * count ≤ length contents.now }
    ensures { result ≡ with_pairs little sums place contents.now count }
{
    let mut sums = sums;
    for k in 0..count {
        let at = place + 8 * k;
        sums = with_pair(
            sums,
            word_at(little, contents, at),
            word_at(little, contents, at + 4),
        );
    }
    sums
}

/// Whether the eight bytes from `place` on are these sums.
#[tactic(auto, unfolding(crate::specs::Sums::stand_at))]
pub fn stand_at(sums: Sums, place: usize, contents: &[u8]) -> bool
    requires { place + 8 ≤ length contents.now }
    ensures { result ≡ stand_at sums place contents.now }
{
    sums.first == be32_at(contents, place) && sums.second == be32_at(contents, place + 4)
}

/// The sums with `count` more pairs of words of a file, read by way of a buffer.
fn sums_by(
    blocks: &Blocks,
    little: bool,
    sums: Sums,
    place: usize,
    count: usize,
    buffer: &mut [u8],
) -> Sums
    requires buffer { 8 ≤ length buffer.old }
    requires short { place + 8 * count < 2 ^ 62 }
    ensures { (len : ℕ) → place + 8 * count ≤ len → result ≡ with_pairs little sums place (resized len blocks.now.bytes) count }
{
    let mut sums = sums;
    let mut done = 0;
    while done < count {
        let pairs = (count - done).min(buffer.len() / 8);
        let (part, _) = buffer.split_at_mut(8 * pairs);
        fill(blocks, place + 8 * done, part);
        sums = with_pairs(little, sums, 0, part, pairs);
        done += pairs;
    }
    sums
}

/// The sums with `count` more pairs of words of a file, which stand from `place` on.
pub fn sums_on(blocks: &Blocks, little: bool, sums: Sums, place: usize, count: usize) -> Sums
    requires { place + 8 * count < 2 ^ 62 }
    ensures { (len : ℕ) → place + 8 * count ≤ len → result ≡ with_pairs little sums place (resized len blocks.now.bytes) count }
{
    let mut buffer = [0; 1024];
    sums_by(blocks, little, sums, place, count, &mut buffer)
}

/// The sums of bytes, a multiple of eight, from (0, 0) on, in either byte order.
pub fn sums_of(little: bool, bytes: &[u8]) -> Sums
    ensures { result ≡ with_pairs little no_sums 0 bytes.now (length bytes.now / 8) }
{
    let start = Sums {
        first: 0,
        second: 0,
    };
    with_pairs(little, start, 0, bytes, bytes.len() / 8)
}
