//! Tables of what zero bytes do to a register that holds one byte.
//!
//! The register moves linearly over XOR, so where a register is the XOR of several, each may be
//! looked up alone.
ghost use Rattle.std.specs.Prelude.{◌≡◌};
ghost use Rattle.page_checksum.specs.Zeros.{after_zeros};

use crate::entries::*;

/// The register `byte` after one zero byte.
pub fn after_zeros_1(byte: u8) -> u64
    ensures { result ≡ after_zeros 1 byte }
{
    TABLE_1[usize::from(byte)]
}

/// The register `byte` after two zero bytes.
pub fn after_zeros_2(byte: u8) -> u64
    ensures { result ≡ after_zeros 2 byte }
{
    TABLE_2[usize::from(byte)]
}

/// The register `byte` after three zero bytes.
pub fn after_zeros_3(byte: u8) -> u64
    ensures { result ≡ after_zeros 3 byte }
{
    TABLE_3[usize::from(byte)]
}

/// The register `byte` after four zero bytes.
pub fn after_zeros_4(byte: u8) -> u64
    ensures { result ≡ after_zeros 4 byte }
{
    TABLE_4[usize::from(byte)]
}

/// The register `byte` after five zero bytes.
pub fn after_zeros_5(byte: u8) -> u64
    ensures { result ≡ after_zeros 5 byte }
{
    TABLE_5[usize::from(byte)]
}

/// The register `byte` after six zero bytes.
pub fn after_zeros_6(byte: u8) -> u64
    ensures { result ≡ after_zeros 6 byte }
{
    TABLE_6[usize::from(byte)]
}

/// The register `byte` after seven zero bytes.
pub fn after_zeros_7(byte: u8) -> u64
    ensures { result ≡ after_zeros 7 byte }
{
    TABLE_7[usize::from(byte)]
}

/// The register `byte` after eight zero bytes.
pub fn after_zeros_8(byte: u8) -> u64
    ensures { result ≡ after_zeros 8 byte }
{
    TABLE_8[usize::from(byte)]
}
