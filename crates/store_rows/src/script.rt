//! A script of calls, and what a store is between them. The sums were computed by another program.
use crate::samples::{FILLED_TO_6, ONE_AND_TWO, Sample};
use crate::stages::{NEVER_WRITTEN, Stage};
use crate::steps::Step;
use test_base::NO_PAGES;

/// A first commit, one that grows, one that keeps the size, one that shrinks, one to no pages, one
/// that grows again, a prune to two files, a drop, a commit on the dropped store, a file of another,
/// and a snapshot of another.
pub const STEPS: &[Step] = &[
    Step::Commit(2, &[(1, 1), (2, 2)]),
    Step::Commit(4, &[(2, 5), (4, 7)]),
    Step::Commit(4, &[(1, 8), (3, 10)]),
    Step::Commit(1, &[(1, 3)]),
    Step::Commit(0, &[]),
    Step::Commit(3, &[(1, 4), (2, 4), (3, 6)]),
    Step::Prune,
    Step::Drop,
    Step::Commit(2, &[(1, 1), (2, 2)]),
    Step::Apply(SIX),
    Step::Install(FILLED_TO_6),
];

/// A page of 6 behind a page of 1.
const SIX: Sample = Sample {
    page_size: 512,
    min: 2,
    max: 2,
    commit: 2,
    pre: ONE_AND_TWO,
    pages: &[(2, 6)],
    post: ONE_AND_SIX,
};

/// The sum of pages of 1 and 6.
const ONE_AND_SIX: u64 = 0xd078_8458_8888_8888;

const FIRST: Stage = Stage {
    txid: 1,
    sum: ONE_AND_TWO,
    pages: &[1, 2],
    files: 1,
    dropped: false,
};

const GROWN_AGAIN: Stage = Stage {
    txid: 6,
    sum: 0xb400_3999_8abf_f666,
    pages: &[4, 4, 6],
    files: 6,
    dropped: false,
};

/// Before each step, and after the last.
pub const STAGES: &[Stage] = &[
    NEVER_WRITTEN,
    FIRST,
    Stage {
        txid: 2,
        sum: 0xacc7_cdf3_3333_3333,
        pages: &[1, 5, 0, 7],
        files: 2,
        dropped: false,
    },
    Stage {
        txid: 3,
        sum: 0x8138_2ec0_0000_0000,
        pages: &[8, 5, 10, 7],
        files: 3,
        dropped: false,
    },
    Stage {
        txid: 4,
        sum: 0xc24e_177c_dfea_a333,
        pages: &[3],
        files: 4,
        dropped: false,
    },
    Stage {
        txid: 5,
        sum: NO_PAGES,
        pages: &[],
        files: 5,
        dropped: false,
    },
    GROWN_AGAIN,
    Stage {
        files: 2,
        ..GROWN_AGAIN
    },
    Stage {
        dropped: true,
        ..NEVER_WRITTEN
    },
    FIRST,
    Stage {
        txid: 2,
        sum: ONE_AND_SIX,
        pages: &[1, 6],
        files: 2,
        dropped: false,
    },
    Stage { txid: 6, ..FIRST },
];
