//! Frames of a stream: written, read in pieces, refused.
mod heads;
mod last_files;

use crate::same::{holds, same};
use lf_base::{Bytes, Name, Pos};
use std::alloc::Global;
use std::process::Abort;
use stream_wire::{Fed, Frame, FrameFeed, WireFault, encode_frame};
use test_base::database;

const A: Pos = Pos {
    txid: 1,
    sum: 0xefb1_f44f_ecd9_9000,
};

const DROP_APP: [u8; 19] = [
    0, 0, 0, 4, 0, 0, 0, 3, 0, 0, 0, 0, 0, 0, 0, 0, b'a', b'p', b'p',
];

const READY_APP: [u8; 35] = [
    0, 0, 0, 2, 0, 0, 0, 3, 0, 0, 0, 0, 0, 0, 0, 16, b'a', b'p', b'p', 0, 0, 0, 0, 0, 0, 0, 1,
    0xef, 0xb1, 0xf4, 0x4f, 0xec, 0xd9, 0x90, 0,
];

/// The fields and the name in front of a file of 636 bytes.
const LTX_FRONT: [u8; 19] = [
    0, 0, 0, 1, 0, 0, 0, 3, 0, 0, 0, 0, 0, 0, 2, 0x7c, b'a', b'p', b'p',
];

const END: [u8; 16] = [0, 0, 0, 3, 0, 0, 0, 0, 0, 0, 0, 0, 0, 0, 0, 0];

fn app(rt: impl Copy + Abort, alloc: Global) -> Name {
    database(alloc).expect(&rt, "a name")
}

fn file(rt: impl Copy + Abort, alloc: Global) -> Bytes {
    let mut bytes = Vec::new(alloc);
    bytes.resize(636, 7u8).expect(&rt, "memory");
    Bytes::of(bytes)
}

fn written(rt: impl Copy + Abort, alloc: Global, frame: Frame) -> Vec<u8> {
    let mut out = Vec::new(alloc);
    encode_frame(&frame, &mut out).expect(&rt, "memory");
    out
}

/// A file's frame.
fn ltx_frame(rt: impl Copy + Abort, alloc: Global) -> Vec<u8> {
    let name = app(rt, alloc);
    let bytes = file(rt, alloc);
    written(rt, alloc, Frame::Ltx { name, bytes })
}

/// The frames of a stream as bytes: a file, a position, a drop and the end.
#[test]
fn frames_are_written(rt: HostRuntime) {
    let alloc = rt.alloc();
    let ltx = ltx_frame(rt, alloc);
    holds(rt, ltx.as_slice().starts_with(&LTX_FRONT), "a file's front");
    same(rt, ltx.len(), 19 + 636);
    let name = app(rt, alloc);
    let ready = written(rt, alloc, Frame::Ready { name, pos: A });
    same(rt, ready.as_slice(), READY_APP.as_slice());
    let dropped = written(
        rt,
        alloc,
        Frame::Drop {
            name: app(rt, alloc),
        },
    );
    same(rt, dropped.as_slice(), DROP_APP.as_slice());
    let end = written(rt, alloc, Frame::End);
    same(rt, end.as_slice(), END.as_slice());
}

/// The same frames in pieces of one byte, of seven, and in one.
#[test]
fn frames_come_in_pieces(rt: HostRuntime) {
    let alloc = rt.alloc();
    let mut stream = ltx_frame(rt, alloc);
    for frame in [READY_APP.as_slice(), DROP_APP.as_slice(), END.as_slice()] {
        stream.extend_from_slice(frame).expect(&rt, "memory");
    }
    for size in [1usize, 7, 4096] {
        let (kinds, left) = kinds_in(rt, alloc, stream.as_slice(), size);
        same(rt, kinds.as_slice(), [1usize, 2, 4, 3].as_slice());
        same(rt, left, 0);
    }
}

/// The kinds of the first four frames, which come in pieces of this size, and the number of bytes
/// that are left.
fn kinds_in(
    rt: impl Copy + Abort,
    alloc: Global,
    stream: &[u8],
    size: usize,
) -> (Vec<usize>, usize) {
    let mut feed = FrameFeed::new(alloc, 2_147_483_648).expect(&rt, "a feed");
    let mut left = stream;
    let mut kinds = Vec::new(alloc);
    for _ in 0..stream.len() + 5 {
        left = feed_piece(&mut feed, left, size);
        if let Some(kind) = take_kind(rt, &mut feed) {
            kinds.push(kind).expect(&rt, "memory");
        }
        if kinds.len() >= 4 {
            break;
        }
    }
    (kinds, left.len())
}

/// Feeds a piece of at most this size, and answers what is left behind the bytes that it took.
fn feed_piece<'a>(feed: &mut FrameFeed, left: &'a [u8], size: usize) -> &'a [u8] {
    let (piece, _) = left.split_at(left.len().min(size));
    let used = match feed.feed(piece) {
        Ok(Fed::Whole { used }) => used.min(piece.len()),
        _ => piece.len(),
    };
    let (_, rest) = left.split_at(used);
    rest
}

/// The kind of the frame that is taken, which is so once.
fn take_kind(rt: impl Copy + Abort, feed: &mut FrameFeed) -> Option<usize> {
    let kind = kind_of(&feed.take()?);
    holds(rt, gives_none(feed) && feed.held() == 0, "taken once");
    Some(kind)
}

fn gives_none(feed: &mut FrameFeed) -> bool {
    feed.take().is_none()
}

fn kind_of(frame: &Frame) -> usize {
    match frame {
        Frame::Ltx { .. } => 1,
        Frame::Ready { .. } => 2,
        Frame::End => 3,
        Frame::Drop { .. } => 4,
    }
}

const REFUSED: &[(&[u8], WireFault)] = &[
    (b"\0\0\0\x09", WireFault::Kind { kind: 9 }),
    (b"\0\0\0\0", WireFault::Kind { kind: 0 }),
    (b"\0\0\0\x01\0\0\0\0", WireFault::NameText),
    (b"\0\0\0\x01\0\0\0\x41", WireFault::NameText),
    (b"\0\0\0\x03\0\0\0\x01", WireFault::NameText),
    (b"\0\0\0\x02\0\0\0\x03\0\0\0\0\0\0\0\x0f", WireFault::Length),
    (b"\0\0\0\x03\0\0\0\0\0\0\0\0\0\0\0\x01", WireFault::Length),
    (b"\0\0\0\x04\0\0\0\x03\0\0\0\0\0\0\0\x01", WireFault::Length),
    (
        b"\0\0\0\x01\0\0\0\x03\0\0\0\0\x80\0\0\x01",
        WireFault::TooLong { len: 2_147_483_649 },
    ),
    (
        b"\0\0\0\x02\0\0\0\x03\0\0\0\0\x80\0\0\x01",
        WireFault::TooLong { len: 2_147_483_649 },
    ),
    (
        b"\0\0\0\x01\0\0\0\x03\0\0\0\0\0\0\0\0.ap",
        WireFault::NameText,
    ),
    (
        b"\0\0\0\x01\0\0\0\x07\0\0\0\0\0\0\0\0app-wal",
        WireFault::NameText,
    ),
];

/// Fields that no frame has, each with its fault, which comes with the last byte of the field and again
/// at each later call.
#[test]
fn frames_are_refused(rt: HostRuntime) {
    let alloc = rt.alloc();
    for (bytes, fault) in REFUSED {
        refuses(rt, alloc, bytes, *fault);
    }
}

fn refuses(rt: impl Copy + Abort, alloc: Global, bytes: &[u8], fault: WireFault) {
    let mut feed = FrameFeed::new(alloc, 2_147_483_648).expect(&rt, "a feed");
    let (front, last) = bytes.split_at(bytes.len().saturating_sub(1));
    let begun = (feed.feed(front), feed.held());
    same(rt, begun, (Ok(Fed::More), front.len() as u64));
    let refused = (feed.feed(last), feed.feed(b"app"));
    same(rt, refused, (Err(fault), Err(fault)));
    holds(rt, gives_none(&mut feed), "no frame");
}

/// A body of 2 GiB is announced, and ten bytes of it come: they alone are held.
#[test]
fn a_long_body_takes_no_room_before_it_comes(rt: HostRuntime) {
    let mut feed = FrameFeed::new(rt.alloc(), 2_147_483_648).expect(&rt, "a feed");
    let announced = feed.feed(b"\0\0\0\x01\0\0\0\x03\0\0\0\0\x80\0\0\0app");
    let begun = feed.feed(b"0123456789");
    same(
        rt,
        (announced, begun, feed.held()),
        (Ok(Fed::More), Ok(Fed::More), 29),
    );
    holds(rt, feed.room() <= 64, "room");
}
