//! The definition's plain program: the register bit by bit. The tables are tested against it.
ghost use Rattle.std.specs.Prelude.{◌≡◌};
ghost use Rattle.page_checksum.specs.Crc.{after_bit as bit_after, after_byte as byte_after, after_bytes};

/// The polynomial x^64 + x^4 + x^3 + x + 1, its bits reflected.
const POLYNOMIAL: u64 = 0xD800_0000_0000_0000;

/// The register after these bytes, bit by bit.
pub fn feed_by_bits(mut register: u64, bytes: &[u8]) -> u64
    ensures { result ≡ after_bytes register bytes.now }
{
    for byte in bytes {
        register = after_byte(register, *byte);
    }
    register
}

#[tactic(auto, unfolding(crate::specs::Crc::after_byte))]
fn after_byte(mut register: u64, byte: u8) -> u64
    ensures { result ≡ byte_after register byte }
{
    register ^= u64::from(byte);
    for _bit in 0..8u8 {
        register = after_bit(register);
    }
    register
}

#[tactic(auto, unfolding(crate::specs::Crc::after_bit))]
fn after_bit(register: u64) -> u64
    ensures { result ≡ bit_after register }
{
    if register % 2 == 1 {
        (register / 2) ^ POLYNOMIAL
    } else {
        register / 2
    }
}
