//! Headers, and heads of frames at page size 4,096. The sums were computed apart from this crate, by the
//! rule of the file format.

use crate::log::fields::{Head, Header, LITTLE_ENDIAN};

/// The salts of each but where others are said.
pub const SALTS: u64 = 0x1122_3344_5566_7788;

/// The header of page size 4,096.
pub const HEADER: Header = Header {
    magic: LITTLE_ENDIAN,
    version: 3_007_000,
    page_size: 4096,
    checkpoints: 0,
    salts: SALTS,
    sums: 0x191a_2524_5979_631e,
};

/// The header of the next generation.
pub const NEXT_HEADER: Header = Header {
    checkpoints: 1,
    salts: 0x1122_3345_99aa_bbcc,
    sums: 0x1b1a_2524_a0bd_a762,
    ..HEADER
};

/// The header with version 3007001.
pub const NEWER_HEADER: Header = Header {
    version: 3_007_001,
    sums: 0x1c1a_2524_5e79_631e,
    ..HEADER
};

/// The header with page size 512.
pub const SMALL_HEADER: Header = Header {
    page_size: 512,
    sums: 0x18fe_2524_594f_631e,
    ..HEADER
};

/// The head of a frame of page 3, which commits nothing; its page is of bytes 3.
pub const THIRD: Head = Head {
    number: 3,
    commit: 0,
    salts: SALTS,
    sums: 0xdbb6_2cb8_39a5_7c1b,
};

/// The head of the frame of page 4 after it, which commits 100 pages; its page is of bytes 4.
pub const FOURTH: Head = Head {
    number: 4,
    commit: 100,
    salts: SALTS,
    sums: 0xf83a_3f90_e9b3_fcf3,
};

/// A third frame, of page 4 again, which commits nothing; its page is of bytes 5.
pub const AGAIN: Head = Head {
    number: 4,
    commit: 0,
    salts: SALTS,
    sums: 0xdd75_2964_acee_b442,
};

/// A fourth frame, of page 5, which commits 3 pages; its page is of bytes 6.
pub const SHRINK: Head = Head {
    number: 5,
    commit: 3,
    salts: SALTS,
    sums: 0x1c61_2fac_4297_8e94,
};

/// The head of a first frame of page 1, which commits 1 page of zeros.
pub const ZEROS: Head = Head {
    number: 1,
    commit: 1,
    salts: SALTS,
    sums: 0xee2b_9564_caae_a516,
};

/// The head of a first frame of page 0.
pub const NONE: Head = Head {
    number: 0,
    commit: 1,
    salts: SALTS,
    sums: 0xbfb6_2cb8_4ea5_7c1b,
};

/// The head of a first frame with other salts.
pub const SALTED: Head = Head {
    number: 3,
    commit: 1,
    salts: 0x1122_3344_5566_7789,
    sums: 0x16b6_2cb8_56a5_7c1b,
};

/// A frame whose sums begin at the header, as if it were the first.
pub const ALONE: Head = Head {
    number: 4,
    commit: 100,
    salts: SALTS,
    sums: 0xa98f_09d4_d9a2_6e72,
};
