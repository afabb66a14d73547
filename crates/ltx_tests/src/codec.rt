//! Files that are read, written and refused, against the files of `sample`.
mod lock_pages;
mod parts;

use crate::same::{same, same_at};
use crate::sample::changed;
use ltx_codec::{LtxFault, decode, decode_first, encode};
use std::alloc::Global;
use std::process::Abort;
use test_base::{DELTA, EMPTY, FILE_SUM_1, Fields, SNAPSHOT, encoding};

/// WAL fields and node that are not 0, and the file sum of the snapshot with them.
const STAMPED: [u8; 32] = [
    0x11, 0x12, 0x13, 0x14, 0x15, 0x16, 0x17, 0x18, 0x21, 0x22, 0x23, 0x24, 0x25, 0x26, 0x27, 0x28,
    0x31, 0x32, 0x33, 0x34, 0x41, 0x42, 0x43, 0x44, 0x51, 0x52, 0x53, 0x54, 0x55, 0x56, 0x57, 0x58,
];

const STAMPED_SUM: [u8; 8] = [0xbc, 0x6e, 0x30, 0xf3, 0x86, 0xcc, 0x0b, 0x22];

fn refusal(alloc: Global, bytes: &[u8]) -> Option<LtxFault> {
    decode(alloc, bytes).err()
}

/// Looks at what is read in the bytes of a file.
fn reads(rt: &impl Abort, alloc: Global, bytes: &[u8], fields: &Fields) {
    let file = decode(alloc, bytes).expect(rt, "a file");
    same(rt, file.header.commit, fields.commit);
    same(rt, file.header.max, fields.txid);
    same(rt, file.change.pages().is_empty(), fields.page.is_none());
    same(rt, file.post, fields.post);
}

#[test]
fn files_are_read_and_written_again(rt: HostRuntime) {
    for fields in [SNAPSHOT, DELTA, EMPTY] {
        let bytes = encoding(rt.alloc(), &fields).expect(&rt, "memory");
        reads(&rt, rt.alloc(), &bytes, &fields);
        let (_, used) = decode_first(rt.alloc(), &bytes).expect(&rt, "a file");
        same(rt, used, bytes.len());
    }
}

#[test]
fn every_front_of_a_file_is_short(rt: HostRuntime) {
    for fields in [SNAPSHOT, DELTA] {
        let bytes = encoding(rt.alloc(), &fields).expect(&rt, "memory");
        for len in 0..bytes.len() {
            let fault = refusal(rt.alloc(), &bytes[..len]);
            same_at(rt, len, fault, Some(LtxFault::Short));
        }
    }
}

/// Looks at what is refused in the snapshot with bytes replaced from a place on.
fn refused(rt: &impl Abort, alloc: Global, place: usize, with: &[u8], fault: Option<LtxFault>) {
    let bytes = changed(alloc, place, with).expect(rt, "memory");
    same_at(rt, place, refusal(alloc, &bytes), fault);
}

/// The same of a field that is full of one byte.
fn refused_at(
    rt: &impl Abort,
    alloc: Global,
    (place, size): (usize, usize),
    byte: u8,
    fault: Option<LtxFault>,
) {
    let field = vec![in alloc; byte; size].expect(rt, "memory");
    refused(rt, alloc, place, &field, fault);
}

/// That the snapshot's sum is not the one that was computed.
fn seal(want: u64) -> Option<LtxFault> {
    Some(LtxFault::FileSum {
        want,
        got: FILE_SUM_1,
    })
}

/// Each field of the header at 0 and at its greatest: where it stands, its size, and what is
/// refused.
#[test]
fn fields_at_their_ends(rt: HostRuntime) {
    for (place, size, at_zero, at_most) in [
        (0usize, 4usize, Some(LtxFault::Magic), Some(LtxFault::Magic)),
        (4, 4, None, Some(LtxFault::Compressed)),
        (8, 4, Some(LtxFault::PageSize), Some(LtxFault::PageSize)),
        (12, 4, Some(LtxFault::PageRange), Some(LtxFault::Commit)),
        (16, 8, Some(LtxFault::Txid), Some(LtxFault::Txid)),
        (24, 8, Some(LtxFault::Txid), seal(0xcfac_80fa_97d1_a935)),
        (32, 8, None, seal(0xfd5a_7979_7ed0_77bc)),
        (40, 8, None, Some(LtxFault::PreSum)),
        (48, 8, None, seal(0x92cc_1686_7a42_c5b3)),
        (56, 8, None, seal(0xdd95_7586_776d_5843)),
        (64, 4, None, seal(0xe610_eedc_fbb4_876a)),
        (68, 4, None, seal(0xfa1f_eedc_ed7e_a4b3)),
        (72, 8, None, seal(0x8e0c_e586_710b_c7dc)),
        (80, 20, None, seal(0xcf89_cd56_50d2_ef5f)),
    ] {
        refused_at(&rt, rt.alloc(), (place, size), 0, at_zero);
        refused_at(&rt, rt.alloc(), (place, size), 0xff, at_most);
    }
}

/// Single changes of the snapshot: where, to what, and what is refused.
#[test]
fn changes_are_refused(rt: HostRuntime) {
    let file_sum = LtxFault::FileSum {
        want: FILE_SUM_1,
        got: FILE_SUM_1 + 1,
    };
    for (place, byte, fault) in [
        (7usize, 2u8, LtxFault::UnknownFlags),
        (3, b'2', LtxFault::Magic),
        (635, 0x31, file_sum),
        (104, 1, LtxFault::PostSum),
        (15, 2, LtxFault::NotWhole),
        (103, 2, LtxFault::PageRange),
        (620, 0x7f, LtxFault::PostSum),
    ] {
        refused(&rt, rt.alloc(), place, &[byte], Some(fault));
    }
}

#[test]
fn a_byte_behind_the_file_is_its_tail(rt: HostRuntime) {
    let mut bytes = encoding(rt.alloc(), &SNAPSHOT).expect(&rt, "memory");
    assert!(rt; bytes.push(0).is_ok());
    same(rt, refusal(rt.alloc(), &bytes), Some(LtxFault::Tail));
}

/// The fault stands before the end of eight bytes.
#[test]
fn compressed_comes_before_short(rt: HostRuntime) {
    let fault = refusal(rt.alloc(), b"LTX1\0\0\0\x01");
    same(rt, fault, Some(LtxFault::Compressed));
}

/// A file that was read is written as it was, the time, the WAL fields and the node with it.
#[test]
fn every_field_survives(rt: HostRuntime) {
    let alloc = rt.alloc();
    let mut bytes = changed(alloc, 32, &[1, 2, 3, 4, 5, 6, 7, 8]).expect(&rt, "memory");
    for (index, byte) in bytes.iter_mut().enumerate() {
        if index >= 48 && index < 80 {
            *byte = STAMPED[index - 48];
        }
        if index >= 628 && index < 636 {
            *byte = STAMPED_SUM[index - 628];
        }
    }
    let file = decode(alloc, &bytes).expect(&rt, "a file");
    let mut out = Vec::new(alloc);
    encode(&file, &mut out).expect(&rt, "memory");
    same(rt, out.as_slice(), bytes.as_slice());
}
