//! Lists of files, what becomes of their pages, and why some do not become one. The sums of the first
//! test were computed by another program.
ghost use Rattle.std.specs.Prelude.{All, IfOk};
ghost use Rattle.ltx_codec.specs.Format.{IsFile};

use crate::same::same;
use crate::sample::header;
use lf_base::NoMemory;
use ltx_codec::{Encoder, Header, Ltx, decode};
use ltx_compact::{CompactFault, compact, compact_owned};
use std::alloc::Global;
use std::process::Abort;
use test_base::{ONE_PAGE, TWO_PAGES};

/// The sum of a database without pages. Files that are no snapshots may say it of any database.
const NO_PAGES: u64 = 1 << 63;

const FILE_SUM: u64 = 0x9e66_a912_50ad_8a38;

/// A page that a file holds: its number, 0 for none, and the byte that it is full of.
type Filled = (u32, u8);

const NONE: Filled = (0, 0);

#[derive(Clone, Copy)]
struct Sample {
    page_size: u32,
    commit: u32,
    txid: u64,
    pre: u64,
    pages: [Filled; 3],
    post: u64,
    /// The time and the node.
    stamp: u64,
}

const SNAPSHOT: Sample = Sample {
    page_size: 512,
    commit: 1,
    txid: 1,
    pre: 0,
    pages: [(1, 0), NONE, NONE],
    post: ONE_PAGE,
    stamp: 0,
};

const DELTA: Sample = Sample {
    page_size: 512,
    commit: 2,
    txid: 2,
    pre: ONE_PAGE,
    pages: [(2, 0), NONE, NONE],
    post: TWO_PAGES,
    stamp: 0,
};

fn delta(txid: u64, commit: u32, pages: [Filled; 3]) -> Sample {
    Sample {
        page_size: 512,
        commit,
        txid,
        pre: NO_PAGES,
        pages,
        post: NO_PAGES,
        stamp: txid ^ 1024,
    }
}

fn header_of(sample: &Sample) -> Header {
    Header {
        stamp: sample.stamp,
        wal_offset: 1,
        wal_size: 2,
        wal_salt1: 3,
        wal_salt2: 4,
        node: sample.stamp,
        ..header(sample.page_size, sample.commit, sample.txid, sample.pre)
    }
}

fn encoding_of(rt: &impl Abort, alloc: Global, sample: &Sample) -> Vec<u8> {
    let mut out = Vec::new(alloc);
    let mut encoder = Encoder::start(&header_of(sample), &mut out).expect(rt, "memory");
    for (number, byte) in sample.pages {
        if number != 0 {
            let page = vec![in alloc; byte; sample.page_size as usize].expect(rt, "memory");
            encoder.page(number, &page, &mut out).expect(rt, "memory");
        }
    }
    assert!(rt; encoder.finish(sample.post, &mut out).is_ok());
    out
}

fn file_of(rt: &impl Abort, alloc: Global, sample: &Sample) -> Ltx
    ensures { IsFile result }
{
    let encoding = encoding_of(rt, alloc, sample);
    decode(alloc, encoding.as_slice()).expect(rt, "a file")
}

fn files_of(rt: &impl Abort, alloc: Global, samples: &[Sample]) -> Result<Vec<Ltx>, NoMemory>
    ensures { IfOk result (λ files. All IsFile files.items) }
{
    let mut files = Vec::new(alloc);
    for sample in samples {
        files.push(file_of(rt, alloc, sample))?;
    }
    Ok(files)
}

fn one_of(rt: &impl Abort, alloc: Global, samples: &[Sample]) -> Result<Ltx, CompactFault> {
    let files = files_of(rt, alloc, samples).expect(rt, "memory");
    compact(alloc, files.as_slice())
}

/// The same of files that are given up.
fn moved_of(rt: &impl Abort, alloc: Global, samples: &[Sample]) -> Result<Ltx, CompactFault> {
    let files = files_of(rt, alloc, samples).expect(rt, "memory");
    compact_owned(alloc, files)
}

/// Whether a file holds these pages and no others.
fn holds(file: &Ltx, pages: &[Filled]) -> bool {
    let held = file.change.pages();
    held.len() == pages.len()
        && held.iter().zip(pages).all(|(page, filled)| {
            page.number == filled.0 && page.bytes.as_slice().iter().all(|byte| *byte == filled.1)
        })
}

/// Looks at what files become, lent and given up.
fn expect(
    rt: &impl Abort,
    alloc: Global,
    samples: &[Sample],
    ends: (u64, u64, u32),
    pages: &[Filled],
) {
    let file = one_of(rt, alloc, samples).expect(rt, "one file");
    expect_file(rt, &file, samples, ends, pages);
    let moved = moved_of(rt, alloc, samples).expect(rt, "one file");
    expect_file(rt, &moved, samples, ends, pages);
}

/// Looks at the header and the pages of what files became.
fn expect_file(
    rt: &impl Abort,
    file: &Ltx,
    samples: &[Sample],
    ends: (u64, u64, u32),
    pages: &[Filled],
) {
    let last = samples.last().expect(rt, "a last file");
    let header = file.header;
    same(rt, (header.min, header.max, header.commit), ends);
    same(rt, (header.stamp, header.node), (last.stamp, last.stamp));
    same(rt, (header.wal_offset, header.wal_size), (0, 0));
    same(rt, (header.wal_salt1, header.wal_salt2), (0, 0));
    assert!(rt; holds(file, pages));
}

/// The length of a file's encoding, and its last sum.
fn written(rt: &impl Abort, alloc: Global, file: &Ltx) -> (usize, Option<[u8; 8]>) {
    let mut out = Vec::new(alloc);
    let mut encoder = Encoder::start(&file.header, &mut out).expect(rt, "memory");
    for page in file.change.pages() {
        encoder
            .page(page.number, page.bytes.as_slice(), &mut out)
            .expect(rt, "memory");
    }
    assert!(rt; encoder.finish(file.post, &mut out).is_ok());
    (out.len(), out.as_slice().last_chunk::<8>().copied())
}

#[test]
fn a_snapshot_and_a_delta_become_a_snapshot(rt: HostRuntime) {
    let file = one_of(&rt, rt.alloc(), &[SNAPSHOT, DELTA]).expect(&rt, "one file");
    same(rt, (file.header.pre, file.post), (0, TWO_PAGES));
    assert!(rt; holds(&file, &[(1, 0), (2, 0)]));
    let sum = FILE_SUM.to_be_bytes();
    same(rt, written(&rt, rt.alloc(), &file), (1152, Some(sum)));
}

#[test]
fn one_file_stays(rt: HostRuntime) {
    expect(&rt, rt.alloc(), &[DELTA], (2, 2, 2), &[(2, 0)]);
}

#[test]
fn a_page_that_was_cut_off_comes_back_as_zeros(rt: HostRuntime) {
    let shrink = delta(5, 5, [(1, 1), NONE, NONE]);
    let growth = delta(6, 8, [(1, 2), (6, 3), (8, 4)]);
    let pages = [(1, 2), (6, 3), (7, 0), (8, 4)];
    expect(&rt, rt.alloc(), &[shrink, growth], (5, 6, 8), &pages);
}

#[test]
fn a_database_that_was_emptied_grows_again(rt: HostRuntime) {
    let full = delta(5, 3, [(1, 1), (2, 1), NONE]);
    let empty = delta(6, 0, [NONE; 3]);
    let growth = delta(7, 2, [(1, 7), NONE, NONE]);
    let pages = [(1, 7), (2, 0)];
    expect(&rt, rt.alloc(), &[full, empty], (5, 6, 0), &[]);
    expect(&rt, rt.alloc(), &[full, empty, growth], (5, 7, 2), &pages);
}

#[test]
fn a_page_is_cut_off_twice(rt: HostRuntime) {
    let files = [
        delta(5, 4, [(3, 9), NONE, NONE]),
        delta(6, 2, [NONE; 3]),
        delta(7, 4, [(4, 8), NONE, NONE]),
        delta(8, 3, [NONE; 3]),
        delta(9, 4, [NONE; 3]),
    ];
    expect(&rt, rt.alloc(), &files, (5, 9, 4), &[(3, 0), (4, 0)]);
}

/// The lock page of 65,536 bytes is page 16,385. It is cut off, and does not come back.
#[test]
fn the_lock_page_is_not_held(rt: HostRuntime) {
    let wide = |txid: u64, commit: u32, page: Filled| Sample {
        page_size: 65_536,
        ..delta(txid, commit, [page, NONE, NONE])
    };
    let files = [
        wide(5, 16_387, (16_386, 5)),
        wide(6, 16_384, NONE),
        wide(7, 16_387, (16_387, 7)),
    ];
    let pages = [(16_386, 0), (16_387, 7)];
    expect(&rt, rt.alloc(), &files, (5, 7, 16_387), &pages);
}

/// Looks at why files do not become one, lent and given up.
fn expect_fault(rt: &impl Abort, alloc: Global, samples: &[Sample], fault: CompactFault) {
    same(rt, one_of(rt, alloc, samples).err(), Some(fault));
    same(rt, moved_of(rt, alloc, samples).err(), Some(fault));
}

#[test]
fn the_first_file_that_does_not_join_is_named(rt: HostRuntime) {
    let five = delta(5, 1, [NONE; 3]);
    let six = delta(6, 1, [NONE; 3]);
    let got = NO_PAGES + 1;
    let other = Sample { pre: got, ..six };
    let larger = Sample {
        page_size: 1024,
        ..six
    };
    let late = Sample { txid: 8, ..other };
    let want = NO_PAGES;
    for (files, fault) in [
        ([DELTA, SNAPSHOT, SNAPSHOT], CompactFault::Gap { at: 2 }),
        ([five, six, six], CompactFault::Gap { at: 3 }),
        ([five, late, late], CompactFault::Gap { at: 2 }),
        (
            [five, other, late],
            CompactFault::SumGap { at: 2, want, got },
        ),
        ([five, larger, late], CompactFault::PageSize { at: 2 }),
    ] {
        expect_fault(&rt, rt.alloc(), &files, fault);
    }
    let fault = one_of(&rt, rt.alloc(), &[]).err();
    same(rt, fault, Some(CompactFault::Empty));
}

/// A gap of sums prints both, the one that is got first.
#[test]
fn a_gap_of_sums_prints_both(rt: HostRuntime) {
    let fault = CompactFault::SumGap {
        at: 2,
        want: 0xab,
        got: 0xcd,
    };
    let line = format!(in rt.alloc(); "{fault}").expect(&rt, "memory");
    let got = "file 2 begins with the sum 00000000000000cd";
    let want = ", and the one before it ends with 00000000000000ab";
    same(rt, line.as_str().strip_prefix(got), Some(want));
}
