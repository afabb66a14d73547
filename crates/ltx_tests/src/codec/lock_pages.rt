//! Files past 1 GiB, and the sums of images. The sums were computed by another program.
ghost use Rattle.std.specs.Prelude.{IfOk};
ghost use Rattle.ltx_codec.specs.Format.{IsFile};

use crate::same::{same, same_at};
use crate::sample::header_of;
use lf_base::Pos;
use lf_sqlite_pages::Image;
use ltx_codec::{
    Decoder, Ltx, LtxFault, Seen, changed_sum, decode, header_bytes, sum_after, sum_of_writes,
    trailer_bytes,
};
use std::alloc::Global;
use std::process::Abort;
use test_base::{DELTA, Fields, ONE_PAGE, SNAPSHOT, TWO_PAGES, encoding};

/// A delta of pages of 4,096 bytes from one sum of no pages to another, with one page or none.
fn wide_delta(commit: u32, page: Option<u32>, sum: u64) -> Fields {
    Fields {
        page_size: 4096,
        commit,
        txid: 2,
        pre: 1 << 63,
        page,
        post: 1 << 63,
        sum,
    }
}

fn refusal(rt: &impl Abort, alloc: Global, fields: &Fields) -> Option<LtxFault> {
    let bytes = encoding(alloc, fields).expect(rt, "memory");
    decode(alloc, &bytes).err()
}

/// Commit, page, file sum, and what is refused.
#[test]
fn pages_behind_the_lock_page(rt: HostRuntime) {
    for (commit, page, file_sum, fault) in [
        (262_146u32, Some(262_146u32), 0xdd53_871f_b90f_ecd8u64, None),
        (262_146, Some(262_145), 0, Some(LtxFault::PageRange)),
        (523_776, None, 0xe2f2_6c4e_1550_c643, None),
        (523_777, None, 0, Some(LtxFault::Commit)),
    ] {
        let fields = wide_delta(commit, page, file_sum);
        same_at(rt, commit, refusal(&rt, rt.alloc(), &fields), fault);
    }
}

fn file_of(rt: &impl Abort, alloc: Global, fields: &Fields) -> Ltx
    ensures { IsFile result }
{
    let bytes = encoding(alloc, fields).expect(rt, "memory");
    decode(alloc, bytes.as_slice()).expect(rt, "a file")
}

/// What the files make of a database that was never written: two pages of zeros with the second.
#[test]
#[tactic(auto, using(ltx_codec::proofs::ChangedSumLemmas::sum_of_none))]
fn sums_of_images(rt: HostRuntime) {
    let snapshot = file_of(&rt, rt.alloc(), &SNAPSHOT);
    let delta = file_of(&rt, rt.alloc(), &DELTA);
    same(rt, snapshot.before(), Pos { txid: 0, sum: 0 });
    same(rt, snapshot.after(), delta.before());
    let image = Image::empty(rt.alloc());
    let after = sum_after(rt.alloc(), 0, &image, &snapshot);
    same(rt, after.ok(), Some(ONE_PAGE));
    let after = changed_sum(rt.alloc(), 0, &image, &delta.change);
    same(rt, after.ok(), Some(TWO_PAGES));
    same(rt, sum_of_writes(snapshot.change.pages()), ONE_PAGE);
}

/// The two ends of a file, and the number of a fault.
#[test]
fn ends_of_a_file(rt: HostRuntime) {
    let bytes = encoding(rt.alloc(), &SNAPSHOT).expect(&rt, "memory");
    let header = header_bytes(&header_of(&SNAPSHOT));
    same(rt, Some(header.as_slice()), bytes.get(..100));
    let trailer = trailer_bytes(SNAPSHOT.post, SNAPSHOT.sum);
    same(rt, Some(trailer.as_slice()), bytes.get(620..));
    same(rt, LtxFault::FileSum { want: 1, got: 2 }.number(), 13);
}

/// A decoder that met a fault begins again.
#[test]
fn a_decoder_begins_again(rt: HostRuntime) {
    let bytes = encoding(rt.alloc(), &SNAPSHOT).expect(&rt, "memory");
    let mut decoder = Decoder::new(rt.alloc(), 512).expect(&rt, "memory");
    same(rt, decoder.feed(b"LTX2"), Err(LtxFault::Magic));
    decoder.restart();
    same(rt, decoder.feed(&bytes), Ok(Seen::Header { used: 100 }));
}
