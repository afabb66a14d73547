//! The register over eight bytes at a time.
//!
//! Eight bytes move the register as eight zero bytes move the XOR of the register and the number
//! that the bytes make, lowest first. That number is the XOR of its own bytes, each in its place,
//! and a byte in place `k` first shifts down through `k` zero bytes, with none of its bits lost.
ghost use Rattle.std.specs.Prelude.{◌≡◌};
ghost use Rattle.std.specs.List.{concat};
ghost use Rattle.page_checksum.specs.Crc.{after_byte as byte_after, after_bytes};
ghost use Rattle.page_checksum.specs.Zeros.{after_zeros};

use crate::tables::*;

/// The register after these bytes, eight of them at a time.
pub fn feed_by_words(register: u64, bytes: &[u8]) -> u64
    ensures { result ≡ after_bytes register bytes.now }
{
    let (words, rest) = bytes.as_chunks::<8>();
    feed_bytes(feed_words(register, words), rest)
}

fn feed_words(mut register: u64, words: &[[u8; 8]]) -> u64
    ensures { result ≡ after_bytes register (concat words.now) }
{
    for word in words {
        register = after_word(register, word);
    }
    register
}

fn feed_bytes(mut register: u64, bytes: &[u8]) -> u64
    ensures { result ≡ after_bytes register bytes.now }
{
    for byte in bytes {
        register = after_byte(register, *byte);
    }
    register
}

fn after_word(register: u64, word: &[u8; 8]) -> u64
    ensures { result ≡ after_bytes register word.now }
{
    after_eight(register ^ u64::from_le_bytes(*word))
}

/// The register after eight zero bytes.
fn after_eight(register: u64) -> u64
    ensures { result ≡ after_zeros 8 register }
{
    let [b0, b1, b2, b3, b4, b5, b6, b7] = register.to_le_bytes();
    let high = after_zeros_4(b4) ^ (after_zeros_3(b5) ^ (after_zeros_2(b6) ^ after_zeros_1(b7)));
    after_zeros_8(b0) ^ (after_zeros_7(b1) ^ (after_zeros_6(b2) ^ (after_zeros_5(b3) ^ high)))
}

fn after_byte(register: u64, byte: u8) -> u64
    ensures { result ≡ byte_after register byte }
{
    let joined = register ^ u64::from(byte);
    after_zeros_1((joined % 256) as u8) ^ (joined / 256)
}
