//! A table of sessions on the served files: what came, what was written, how it ended and what was asked.
mod scripted;

use crate::links::link_of;
use crate::same::same;
use lf_base::{FixedClock, Handles, MemLink, SessionEnd};
use link_session::AtSeat;
use scripted::Scripted;
use std::alloc::Global;
use std::net::{TcpListener, TcpStream};
use std::process::Abort;
use test_base::{hex_bytes, nobody};
use test_nodes::{Answering, desk_of, serve_client};

// READ of the position file, 7.
const READ: &[u8] =
    b"50000000 0f000000 0700000000000000 0600000000000000 00000000 00000000 00000000 00000000 \
    0100000000000000 0000000000000000 00100000 00000000 0000000000000000 00000000 00000000";

// FORGET, 2.
const FORGET: &[u8] =
    b"30000000 02000000 0200000000000000 0200000000000000 00000000 00000000 00000000 00000000 \
    0100000000000000";

// LOOKUP of a name, 3.
const LOOKUP: &[u8] =
    b"2c000000 01000000 0300000000000000 0100000000000000 00000000 00000000 00000000 00000000 \
    61707000";

// READLINK, which is not served, 4.
const READLINK: &[u8] =
    b"28000000 05000000 0400000000000000 0100000000000000 00000000 00000000 00000000 00000000";

// SETLKW of byte 120, 5.
const SETLKW: &[u8] =
    b"58000000 21000000 0500000000000000 0700000000000000 00000000 00000000 00000000 00000000 \
    0100000000000000 0100000000000000 7800000000000000 7800000000000000 01000000 00000000 00000000 00000000";

// DESTROY, 6.
const DESTROY: &[u8] =
    b"28000000 26000000 0600000000000000 0100000000000000 00000000 00000000 00000000 00000000";

// GETATTR without its body, 8.
const GETATTR: &[u8] =
    b"28000000 03000000 0800000000000000 0100000000000000 00000000 00000000 00000000 00000000";

// The position in a `fuse_out_header`, the replies to LOOKUP, READLINK and DESTROY.
const POSITION: &[u8] = b"32000000 00000000 0700000000000000 \
    30303030303030303030303030303031 2f 65666231663434666563643939303030 0a";

const NO_NAME: &[u8] = b"10000000 feffffff 0300000000000000";

const NOT_SERVED: &[u8] = b"10000000 daffffff 0400000000000000";

const DONE: &[u8] = b"10000000 00000000 0600000000000000";

const NEVER: u64 = 999;

#[derive(Clone, Copy)]
struct Row {
    input: &'static [&'static [u8]],
    /// The most bytes of a read, the call of the link that fails, and the budget.
    size: usize,
    failing: u64,
    budget: u64,
    written: &'static [&'static [u8]],
    end: SessionEnd,
    asked: &'static [u64],
    steps: u64,
}

/// A read, where a row says nothing else.
const ONE_READ: Row = Row {
    input: &[READ],
    size: 99_999,
    failing: NEVER,
    budget: 100,
    written: &[POSITION],
    end: SessionEnd::Closed,
    asked: &[7, 0],
    steps: 2,
};

const ROWS: &[Row] = &[
    Row {
        input: &[READ, FORGET, LOOKUP, READLINK, DESTROY],
        written: &[POSITION, NO_NAME, NOT_SERVED, DONE],
        asked: &[7, 2, 3, 6, 0],
        steps: 5,
        ..ONE_READ
    },
    Row {
        input: &[READ, FORGET, LOOKUP, READLINK, DESTROY],
        size: 1,
        budget: 1_000,
        written: &[POSITION, NO_NAME, NOT_SERVED, DONE],
        asked: &[7, 2, 3, 6, 0],
        steps: 5,
        ..ONE_READ
    },
    // A lock that is never granted.
    Row {
        input: &[SETLKW],
        budget: 50,
        written: &[],
        end: SessionEnd::Turns,
        asked: &[5, 0],
        steps: 50,
        ..ONE_READ
    },
    // The input ends inside a message.
    Row {
        input: &[READ, b"2c000000 01000000"],
        size: 7,
        end: SessionEnd::BadMessage,
        ..ONE_READ
    },
    // A message without its body.
    Row {
        input: &[READ, GETATTR, LOOKUP],
        end: SessionEnd::BadMessage,
        ..ONE_READ
    },
    // The third call is the second write.
    Row {
        input: &[READ, LOOKUP],
        failing: 2,
        end: SessionEnd::WriteFault,
        asked: &[7, 3, 0],
        steps: 3,
        ..ONE_READ
    },
    // The third call is the second read.
    Row {
        failing: 2,
        end: SessionEnd::ReadFault,
        ..ONE_READ
    },
    Row {
        budget: 0,
        written: &[],
        end: SessionEnd::Turns,
        asked: &[0],
        steps: 1,
        ..ONE_READ
    },
    Row {
        input: &[],
        written: &[],
        asked: &[0],
        steps: 1,
        ..ONE_READ
    },
];

/// The end of the row's session, and the machine afterwards.
fn served<R: Handles + Copy + Abort>(
    rt: R,
    alloc: Global,
    link: &mut MemLink,
    budget: u64,
) -> (SessionEnd, Scripted) {
    let by = Scripted::new(alloc);
    let (desk, mut seat) = desk_of(alloc, Answering { by }).expect(&rt, "a desk");
    let mut at = AtSeat {
        rt: &rt,
        desk: &desk,
        seat: &mut seat,
    };
    let mut clock = FixedClock::new(5);
    let mut dialer = nobody(alloc).expect(&rt, "a dialer");
    let end = serve_client(&mut at, alloc, link, &mut clock, budget, &mut dialer);
    (end.expect(&rt, "memory"), desk.close(rt, seat).by)
}

#[test]
fn sessions(rt: HostRuntime) {
    let _named: Option<(TcpListener, TcpStream)> = None;
    for row in ROWS {
        has_session(rt, rt.alloc(), row);
    }
}

fn has_session<R: Handles + Copy + Abort>(rt: R, alloc: Global, row: &Row) {
    let input = hex_bytes(alloc, row.input).expect(&rt, "memory");
    let mut link = link_of(rt, alloc, &input, row.size, row.failing);
    let watch = link.watch();
    let (end, machine) = served(rt, alloc, &mut link, row.budget);
    let written = watch.bytes().expect(&rt, "memory");
    let wanted = hex_bytes(alloc, row.written).expect(&rt, "memory");
    same(rt, written.as_slice(), wanted.as_slice());
    same(
        rt,
        (end, machine.asked.as_slice(), machine.steps),
        (row.end, row.asked, row.steps),
    );
}
