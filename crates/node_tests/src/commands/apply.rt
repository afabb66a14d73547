//! What the named call makes of files, and says of those that make no database.

use crate::same::same;
use lf_base::Pos;
use litefs_tool::{Refusal, apply_files};
use std::alloc::Global;
use std::process::Abort;
use test_base::{DELTA, Fields, ONE_PAGE, SNAPSHOT, TWO_PAGES, encode_all};

const START: Pos = Pos { txid: 0, sum: 0 };

const FIRST: Pos = Pos {
    txid: 1,
    sum: ONE_PAGE,
};

/// How files are refused.
fn refused(rt: impl Copy + Abort, alloc: Global, files: &[Fields]) -> Option<Refusal> {
    let bytes = encode_all(alloc, files).expect(&rt, "memory");
    apply_files(alloc, bytes.as_slice()).err()
}

#[test]
fn makes_a_database(rt: HostRuntime) {
    let bytes = encode_all(rt.alloc(), &[SNAPSHOT, DELTA]).expect(&rt, "memory");
    let image = apply_files(rt.alloc(), bytes.as_slice()).expect(&rt, "a database");
    same(rt, (image.page_size(), image.commit()), (512, 2));
}

#[test]
fn names_what_does_not_join(rt: HostRuntime) {
    let alloc = rt.alloc();
    let sum = ONE_PAGE ^ 1;
    let changed = Fields {
        pre: sum,
        sum: 0xf462_8c1f_6d71_0c9f,
        ..DELTA
    };
    let found = refused(rt, alloc, &[SNAPSHOT, changed]);
    same(rt, found, not_next(FIRST, Pos { txid: 1, sum }));
    let found = refused(rt, alloc, &[DELTA]);
    same(rt, found, not_next(START, FIRST));
    let found = refused(rt, alloc, &[SNAPSHOT, SNAPSHOT]);
    same(rt, found, not_next(FIRST, START));
}

fn not_next(have: Pos, want: Pos) -> Option<Refusal> {
    Some(Refusal::NotNext { have, want })
}

#[test]
fn names_what_does_not_fit(rt: HostRuntime) {
    let alloc = rt.alloc();
    let larger = Fields {
        page_size: 1024,
        sum: 0x8287_7a46_5abf_0d22,
        ..DELTA
    };
    let found = refused(rt, alloc, &[SNAPSHOT, larger]);
    same(rt, found, Some(Refusal::PageSize));
    let want = TWO_PAGES ^ 1;
    let got = TWO_PAGES;
    let other = Fields {
        post: want,
        sum: 0xe499_06ba_6d3f_4924,
        ..DELTA
    };
    let found = refused(rt, alloc, &[SNAPSHOT, other]);
    same(rt, found, Some(Refusal::SumDiffers { want, got }));
}
