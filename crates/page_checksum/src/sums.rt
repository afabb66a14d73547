ghost use Rattle.std.specs.Prelude.{◌≡◌};
ghost use Rattle.page_checksum.specs.Sums.{page_sum_of};

use crate::crc::{FIRST_REGISTER, crc_feed};

/// Bit 63, which every sum of an LTX file carries, so that none is 0.
pub const CHECKSUM_FLAG: u64 = 1 << 63;

/// The sum of page `n`: the CRC of its number as four big-endian bytes and its bytes, with bit 63
/// set.
#[tactic(auto, unfolding(crate::specs::Sums::page_sum_of, crate::specs::Crc::crc))]
pub fn page_sum(n: u32, page: &[u8]) -> u64
    ensures { result ≡ page_sum_of n page.now }
{
    let register = crc_feed(FIRST_REGISTER, &n.to_be_bytes());
    (crc_feed(register, page) ^ u64::MAX) | CHECKSUM_FLAG
}
