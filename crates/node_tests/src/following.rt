//! A table of streams: what came, in pieces of which size, how it ended and what was asked.
mod scripted;

use crate::links::link_of;
use crate::replies::NOT_PRIMARY;
use crate::same::same;
use lf_base::{FixedClock, MemLink, Pos};
use link_session::AtSeat;
use node_core::{Refusal, Whereabouts};
use replica_apply::{Doubt, FollowEnd};
use scripted::{Scripted, Word};
use std::alloc::Global;
use std::process::Abort;
use std::sync::Wait;
use test_nodes::{Answering, desk_of, follow_stream};
use txn_log::{LastFile, StoreFault};

/// The request, from nothing on.
const REQUEST: &[u8] = b"POST /stream HTTP/1.1\r\nHost: localhost\r\nContent-Length: 38\r\n\r\n\
    app 0000000000000000/0000000000000000\n";

const HEAD: &[u8] = b"HTTP/1.1 200 OK\r\nConnection: close\r\n\r\n";

/// The frame of a file of five bytes.
const FILE: &[u8] = b"\0\0\0\x01\0\0\0\x03\0\0\0\0\0\0\0\x05appfive.";

const READY: &[u8] =
    b"\0\0\0\x02\0\0\0\x03\0\0\0\0\0\0\0\x10app\0\0\0\0\0\0\0\x01\xef\xb1\xf4\x4f\xec\xd9\x90\0";

const DROP: &[u8] = b"\0\0\0\x04\0\0\0\x03\0\0\0\0\0\0\0\0app";

const OTHER: &[u8] = b"\0\0\0\x04\0\0\0\x03\0\0\0\0\0\0\0\0apq";

const END: &[u8] = b"\0\0\0\x03\0\0\0\0\0\0\0\0\0\0\0\0";

const NEVER: u64 = 999;

#[derive(Clone, Copy)]
struct Row {
    input: &'static [&'static [u8]],
    /// The most bytes of a read, the call of the link that fails, and the budget.
    size: usize,
    failing: u64,
    budget: u64,
    script: &'static [Word],
    end: FollowEnd,
    asked: &'static [u64],
}

/// What a row is where it says nothing else.
const CUT: Row = Row {
    input: &[],
    size: 99_999,
    failing: NEVER,
    budget: 1_000,
    script: &[],
    end: FollowEnd::Cut,
    asked: &[1],
};

const WORKED: Row = Row {
    input: &[HEAD, FILE, READY, FILE, DROP, END],
    end: FollowEnd::Ended,
    asked: &[1, 5, 5, 0],
    ..CUT
};

const ROWS: &[Row] = &[
    WORKED,
    Row { size: 1, ..WORKED },
    Row {
        input: &[NOT_PRIMARY],
        end: FollowEnd::Status(503),
        asked: &[1],
        ..CUT
    },
    // The input ends behind a frame, inside one, inside the head, and before it.
    Row {
        input: &[HEAD, FILE, READY],
        end: FollowEnd::Cut,
        asked: &[1, 5],
        ..CUT
    },
    Row {
        input: &[HEAD, FILE, b"\0\0\0\x01\0"],
        end: FollowEnd::Cut,
        asked: &[1, 5],
        ..CUT
    },
    Row {
        input: &[b"HTTP/1.1 200"],
        end: FollowEnd::Cut,
        asked: &[1],
        ..CUT
    },
    Row {
        input: &[],
        end: FollowEnd::Cut,
        asked: &[1],
        ..CUT
    },
    // No head, a kind that no frame has, and a frame of another database.
    Row {
        input: &[b"\x01\x02"],
        end: FollowEnd::BadFrame,
        asked: &[1],
        ..CUT
    },
    Row {
        input: &[HEAD, FILE, b"\0\0\0\x09"],
        end: FollowEnd::BadFrame,
        asked: &[1, 5],
        ..CUT
    },
    Row {
        input: &[HEAD, OTHER, FILE],
        end: FollowEnd::BadFrame,
        asked: &[1],
        ..CUT
    },
    // A file that the node has, one that is held back twice, and one that is refused.
    Row {
        script: &[Word::Same],
        ..WORKED
    },
    Row {
        script: &[Word::Held, Word::Held, Word::Applied],
        asked: &[1, 5, 5, 5, 5, 0],
        ..WORKED
    },
    Row {
        script: &[Word::Applied, Word::Disk],
        end: FollowEnd::Refused(Refusal::Store(StoreFault::Disk)),
        asked: &[1, 5, 5],
        ..WORKED
    },
    // The second call is the read.
    Row {
        failing: 1,
        end: FollowEnd::ReadFault,
        asked: &[1],
        ..WORKED
    },
    // Where, a write, a read and the first file.
    Row {
        budget: 4,
        end: FollowEnd::Turns,
        asked: &[1, 5],
        ..WORKED
    },
];

/// How the row's stream ended, and the machine afterwards.
fn followed<R: Wait + Copy + Abort>(
    rt: R,
    alloc: Global,
    link: &mut MemLink,
    row: &Row,
    last: Option<LastFile>,
    unknown: bool,
) -> (FollowEnd, Scripted) {
    let pos = Pos { txid: 0, sum: 0 };
    let script = Vec::from_slice(alloc, row.script).expect(&rt, "memory");
    let by = Scripted::new(alloc, Whereabouts { pos, last }, script);
    let (desk, mut seat) = desk_of(alloc, Answering { by }).expect(&rt, "a desk");
    let mut at = AtSeat {
        rt: &rt,
        desk: &desk,
        seat: &mut seat,
    };
    let mut clock = FixedClock::new(5);
    let end = follow_stream(&mut at, alloc, link, &mut clock, row.budget, unknown);
    (end.expect(&rt, "memory"), desk.close(rt, seat).by)
}

#[test]
fn streams(rt: HostRuntime) {
    for row in ROWS {
        has_stream(rt, rt.alloc(), row);
    }
}

fn has_stream<R: Wait + Copy + Abort>(rt: R, alloc: Global, row: &Row) {
    let input = row.input.concat(alloc).expect(&rt, "memory");
    let mut link = link_of(rt, alloc, &input, row.size, row.failing);
    let watch = link.watch();
    let (end, machine) = followed(rt, alloc, &mut link, row, None, false);
    let written = watch.bytes().expect(&rt, "memory");
    same(rt, written.as_slice(), REQUEST);
    same(rt, (end, machine.asked.as_slice()), (row.end, row.asked));
}

/// The last file of a node's log.
const LAST: LastFile = LastFile::File {
    min: 7,
    max: 10,
    sum: 0xb8dc_e586_6977_8c30,
};

/// The requests with the last file, and of one whose position is unknown.
const WITH_LAST: &[u8] = b"POST /stream HTTP/1.1\r\nHost: localhost\r\nContent-Length: 38\r\n\
    Litefs-Last-File: 0000000000000007-000000000000000a/b8dce58669778c30\r\n\r\n\
    app 0000000000000000/0000000000000000\n";

const WITH_UNKNOWN: &[u8] = b"POST /stream HTTP/1.1\r\nHost: localhost\r\nContent-Length: 38\r\n\
    Litefs-Last-File: unknown\r\n\r\n\
    app 0000000000000000/0000000000000000\n";

/// What the node tells of its last file, whether its position is unknown, and the request.
const SAID: &[(Option<LastFile>, bool, &[u8])] = &[
    (None, false, REQUEST),
    (Some(LAST), false, WITH_LAST),
    (None, true, WITH_UNKNOWN),
    (Some(LAST), true, WITH_UNKNOWN),
];

#[test]
fn last_files(rt: HostRuntime) {
    for (last, unknown, request) in SAID {
        has_said(rt, rt.alloc(), *last, *unknown, *request);
    }
}

fn has_said<R: Wait + Copy + Abort>(
    rt: R,
    alloc: Global,
    last: Option<LastFile>,
    unknown: bool,
    request: &[u8],
) {
    let mut link = link_of(rt, alloc, b"", 99_999, NEVER);
    let watch = link.watch();
    followed(rt, alloc, &mut link, &CUT, last, unknown);
    let written = watch.bytes().expect(&rt, "memory");
    same(rt, written.as_slice(), request);
}

/// How streams ended, one after another, and what speaks against the node's log then.
const DOUBTS: &[(&[FollowEnd], Doubt)] = &[
    (&[FollowEnd::Cut], Doubt::Nothing),
    (&[SUM_DIFFERS], Doubt::Unknown),
    (&[SUM_DIFFERS, FollowEnd::Cut], Doubt::Nothing),
    (&[NOT_NEXT], Doubt::NotNext(NINTH)),
    (&[NOT_NEXT, FollowEnd::Cut], Doubt::NotNext(NINTH)),
    (&[NOT_NEXT, FollowEnd::Cut, NOT_NEXT], Doubt::Unknown),
    (&[NOT_NEXT, NEXT_ELSEWHERE], Doubt::NotNext(TENTH)),
    (&[NOT_NEXT, NOT_NEXT, NOT_NEXT], Doubt::NotNext(NINTH)),
];

const NINTH: Pos = Pos { txid: 9, sum: 1 };

const TENTH: Pos = Pos { txid: 10, sum: 1 };

const NOT_NEXT: FollowEnd = FollowEnd::Refused(Refusal::Store(StoreFault::NotNext {
    have: NINTH,
    want: TENTH,
}));

const NEXT_ELSEWHERE: FollowEnd = FollowEnd::Refused(Refusal::Store(StoreFault::NotNext {
    have: TENTH,
    want: NINTH,
}));

const SUM_DIFFERS: FollowEnd = FollowEnd::Refused(Refusal::Store(StoreFault::SumDiffers {
    want: 1,
    got: 2,
}));

#[test]
fn doubts(rt: HostRuntime) {
    for (ended, doubt) in DOUBTS {
        same(rt, doubt_behind(*ended), *doubt);
    }
}

fn doubt_behind(ended: &[FollowEnd]) -> Doubt {
    let mut doubt = Doubt::Nothing;
    for end in ended {
        doubt = doubt.after(*end);
    }
    doubt
}
