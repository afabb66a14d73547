use crate::same::{same, same_at};
use page_checksum::{FIRST_REGISTER, Sums, crc_feed, crc64, page_sum};
use std::alloc::Global;
use std::process::Abort;

/// The check values of CRC-64/GO-ISO that its catalogue and Go's tests give.
#[test]
fn checksums_of_the_catalogue(rt: HostRuntime) {
    for (message, sum) in [
        (b"123456789".as_slice(), 0xb909_56c7_75a4_1001),
        (b"a".as_slice(), 0x3420_0000_0000_0000),
    ] {
        same(rt, crc64(message), sum);
    }
}

#[test]
fn sums_of_empty_pages(rt: HostRuntime) {
    let page = [0u8; 512];
    same(rt, page_sum(1, &page), 0xefb1_f44f_ecd9_9000);
    same(rt, page_sum(2, &page), 0xef63_e89f_ecd9_9000);
}

/// A table of two zero pages, then of the first alone, and of none.
#[test]
fn table_of_two_pages(rt: HostRuntime) {
    let page = [0u8; 512];
    let mut sums = Sums::new(rt.alloc());
    sums.reserve(2).expect(&rt, "memory");
    sums.resize(2);
    sums.set(1, page_sum(1, &page));
    sums.set(2, page_sum(2, &page));
    same(rt, sums.total(), 0x80d2_1cd0_0000_0000);
    sums.resize(1);
    same(rt, sums.total(), 0xefb1_f44f_ecd9_9000);
    sums.resize(0);
    same(rt, sums.total(), 1 << 63);
}

/// Blocks of 256 bytes, words of eight and the tables, as they run, beside the register moved bit by bit.
#[test]
fn blocks_and_tables_beside_bits(rt: HostRuntime) {
    let message = mixed_bytes(&rt, rt.alloc());
    for (shortest, longest) in [
        (0usize, 40usize),
        (255, 260),
        (511, 530),
        (767, 770),
        (4096, 4096),
    ] {
        for length in shortest..=longest {
            let prefix = message.as_slice().get(..length);
            feeds_alike(rt, prefix.expect(&rt, "the message is too short"));
        }
    }
}

/// Feeds the same bytes to both, from several registers.
fn feeds_alike<R: Copy + Abort>(rt: R, bytes: &[u8]) {
    for register in [FIRST_REGISTER, 0, 1 << 63] {
        same_at(
            rt,
            bytes.len(),
            crc_feed(register, bytes),
            fed_by_bits(register, bytes),
        );
    }
}

/// The register after these bytes, each bit moved alone, as the catalogue describes the checksum.
fn fed_by_bits(mut register: u64, bytes: &[u8]) -> u64 {
    for byte in bytes {
        register ^= u64::from(*byte);
        for _bit in 0..8u8 {
            let falls_out = register % 2 == 1;
            register /= 2;
            if falls_out {
                register ^= 0xd800_0000_0000_0000;
            }
        }
    }
    register
}

fn mixed_bytes(rt: &impl Abort, alloc: Global) -> Vec<u8> {
    let mut message = Vec::new(alloc);
    for place in 0..4096u32 {
        message.push((place * 31 % 251) as u8).expect(rt, "memory");
    }
    message
}
