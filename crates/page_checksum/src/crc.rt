ghost use Rattle.std.specs.Prelude.{◌≡◌, ℕ, List, ◌++◌};
ghost use Rattle.page_checksum.specs.Crc.{after_bytes, crc};

use crate::blocks::feed_blocks;
use crate::words::feed_by_words;

/// The register before the first byte. The checksum is the register's complement after
/// the last.
pub const FIRST_REGISTER: u64 = u64::MAX;

/// The CRC-64/GO-ISO of bytes.
#[tactic(auto, unfolding(crate::specs::Crc::crc))]
pub fn crc64(bytes: &[u8]) -> u64
    ensures { result ≡ crc bytes.now }
{
    crc_feed(FIRST_REGISTER, bytes) ^ u64::MAX
}

/// The register after these bytes. To feed two pieces one after another is to feed them joined.
pub fn crc_feed(register: u64, bytes: &[u8]) -> u64
    ensures { result ≡ after_bytes register bytes.now }
{
    let (blocks, rest) = bytes.as_chunks::<256>();
    feed_by_words(feed_blocks(register, blocks), rest)
}

/// To feed two pieces one after another is to feed them joined.
pub fn pieces_join()
    ensures { (register : ℕ) (front back : List ℕ) → after_bytes register (front ++ back) ≡ after_bytes (after_bytes register front) back }
{}
