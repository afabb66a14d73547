//! Write-ahead logs of SQLite 3.40.1, and the pages that it reads back from them.
//!
//! Each was left by `CREATE TABLE t(a INTEGER PRIMARY KEY, b)` and two rows, inserted one by one,
//! under `PRAGMA wal_autocheckpoint=0` on a little-endian machine: a frame of page 1, then three of
//! page 2, each with a row more. The salts and sums are those that SQLite wrote, and hold for no other
//! bytes. Those with big-endian sums are the same frames summed anew by the rule. The pages are those
//! of the database file after a checkpoint of a copy.

use crate::log::fields::{BIG_ENDIAN, Head, Header, LITTLE_ENDIAN};
use crate::log::pages::{first_page, put, second_page};
use std::alloc::Global;
use std::process::Abort;

/// A log of four frames: its sums are those of the header, and those through each frame.
pub struct Log {
    magic: u32,
    pub page_size: u32,
    pub length: usize,
    salts: u64,
    sums: [u64; 5],
}

impl Log {
    pub fn bytes<R: Copy + Abort>(&self, rt: R, alloc: Global) -> Vec<u8> {
        let size = self.page_size as usize;
        let [header, first, second, third, fourth] = self.sums;
        let mut log = Vec::new(alloc);
        put(rt, &mut log, &self.header(header));
        self.put_frame(rt, &mut log, (1, 0, first), first_page(rt, alloc, size));
        self.put_frame(
            rt,
            &mut log,
            (2, 2, second),
            second_page(rt, alloc, size, 0),
        );
        self.put_frame(rt, &mut log, (2, 2, third), second_page(rt, alloc, size, 1));
        self.put_frame(
            rt,
            &mut log,
            (2, 2, fourth),
            second_page(rt, alloc, size, 2),
        );
        log
    }

    fn header(&self, sums: u64) -> [u8; 32] {
        let header = Header {
            magic: self.magic,
            version: 3_007_000,
            page_size: self.page_size,
            checkpoints: 0,
            salts: self.salts,
            sums,
        };
        header.bytes()
    }

    /// Adds the frame of a page, with its number, the size that it commits and the sums through it.
    fn put_frame<R: Copy + Abort>(
        &self,
        rt: R,
        log: &mut Vec<u8>,
        (number, commit, sums): (u32, u32, u64),
        page: Vec<u8>,
    ) {
        let head = Head {
            number,
            commit,
            salts: self.salts,
            sums,
        };
        put(rt, log, &head.bytes());
        put(rt, log, page.as_slice());
    }
}

pub const LOGS: &[Log] = &[
    Log {
        magic: LITTLE_ENDIAN,
        page_size: 512,
        length: 2176,
        salts: 0xfe41_d37b_03e6_a6d1,
        sums: [
            0x509e_4511_da1f_02b9,
            0xf066_5853_b505_bc1e,
            0x7fe8_5651_7d1a_9f34,
            0x34fe_9407_2bab_61e3,
            0x90da_cbea_966e_a40e,
        ],
    },
    Log {
        magic: LITTLE_ENDIAN,
        page_size: 1024,
        length: 4224,
        salts: 0x93c0_22be_3673_179f,
        sums: [
            0x92f1_c3a6_e9e5_0e81,
            0x05b6_a039_caec_01d2,
            0x1117_0d1f_6518_3291,
            0xb0cd_9ecc_9426_b34b,
            0x36a7_ed14_4a25_9c54,
        ],
    },
    Log {
        magic: LITTLE_ENDIAN,
        page_size: 4096,
        length: 16_512,
        salts: 0xd6a4_4703_0dcd_e0da,
        sums: [
            0xd82e_a7e9_6af7_4c9b,
            0x3b77_f8ac_788c_3b28,
            0x9e87_aeb6_fffe_3d67,
            0x9e1b_47e3_2ab2_ce2d,
            0xf27a_43cb_b9ce_b0b2,
        ],
    },
    Log {
        magic: LITTLE_ENDIAN,
        page_size: 65536,
        length: 262_272,
        salts: 0x3042_0be1_8a2a_4054,
        sums: [
            0xb5d2_4743_c1ea_4a72,
            0x7f2b_9136_5465_d3cb,
            0x1e5c_7960_c6b8_6156,
            0x7d08_86bd_c189_ca48,
            0x857c_bf35_1c5b_0969,
        ],
    },
    Log {
        magic: BIG_ENDIAN,
        page_size: 512,
        length: 2176,
        salts: 0xfe41_d37b_03e6_a6d1,
        sums: [
            0x1446_9e52_bf06_1edc,
            0xa73c_b38a_8665_8c0a,
            0xee7d_3ba8_43f3_2372,
            0x4d3e_ee6f_b866_d150,
            0x2c17_3eb9_0568_2634,
        ],
    },
    Log {
        magic: BIG_ENDIAN,
        page_size: 65536,
        length: 262_272,
        salts: 0x3042_0be1_8a2a_4054,
        sums: [
            0x4648_d2b8_774c_eac5,
            0x1aa9_fc2e_a0f3_9f01,
            0xe022_b93e_4650_c22f,
            0xd2fe_ab51_7410_ef59,
            0x57d9_6e22_7ac8_c984,
        ],
    },
];
