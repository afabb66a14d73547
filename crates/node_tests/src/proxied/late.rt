//! A read that waits until the node has what its client has seen, and a node that doesn't say where it stands.
use super::session::{Stage, has_left, stage_of};
use super::texts::*;
use super::{READ, Row, WRITE};
use fuse_msgs::{Op, Request};
use lf_base::{Errno, Handles, Pos, SessionEnd};
use node_core::{Answer, Ask, Whereabouts};
use std::alloc::Global;
use std::net::{TcpListener, TcpStream};
use std::process::Abort;
use test_nodes::{Answering, Answers, desk_of};
use txid_proxy::pass_seat;

/// A machine that takes writes, and is one transaction on each time it is asked where it stands. It may keep it for itself.
#[derive(Drop)]
struct Moving {
    asks: u64,
    says: bool,
}

impl Moving {
    fn place(&mut self) -> Answer {
        self.asks = self.asks.saturating_add(1);
        if !self.says {
            return Answer::Quiet;
        }
        let pos = Pos {
            txid: self.asks,
            sum: 1,
        };
        Answer::At(Whereabouts { pos, last: None })
    }
}

/// A request of a size is refused as one of a wrong size, and there is no file.
fn answer_to(request: &Request) -> Answer {
    match request.op {
        Op::Setattr { .. } => Answer::Refuse(Errno(22)),
        _ => Answer::Refuse(Errno(2)),
    }
}

impl Answers for Moving {
    fn answer(&mut self, ask: &Ask) -> Answer {
        match ask {
            Ask::File { request, .. } => answer_to(request),
            Ask::Where => self.place(),
            _ => Answer::Quiet,
        }
    }
}

const SEEN_3: &[u8] = b"GET /a HTTP/1.1\r\nCookie: __txid=0000000000000003\r\n\r\n";

const SEEN_3_PASSED: &[u8] =
    b"GET /a HTTP/1.1\r\nCookie: __txid=0000000000000003\r\nConnection: close\r\n\r\n";

const SEEN_100: &[u8] = b"GET /a HTTP/1.1\r\nCookie: __txid=0000000000000064\r\n\r\n";

const SEEN_100_PASSED: &[u8] =
    b"GET /a HTTP/1.1\r\nCookie: __txid=0000000000000064\r\nConnection: close\r\n\r\n";

const SEEN_101: &[u8] = b"GET /a HTTP/1.1\r\nCookie: __txid=0000000000000065\r\n\r\n";

const SEEN_LAST: &[u8] = b"GET /a HTTP/1.1\r\nCookie: __txid=ffffffffffffffff\r\n\r\n";

/// It comes too late.
const TOO_LATE: Row = Row {
    input: SEEN_101,
    passed: b"",
    written: GATEWAY_TIMEOUT,
    asks: 100,
    ..READ
};

/// What is asked is where the node stands.
const ROWS: &[Row] = &[
    READ,
    Row {
        input: SEEN_1,
        passed: SEEN_1_PASSED,
        ..READ
    },
    Row {
        input: SEEN_3,
        passed: SEEN_3_PASSED,
        asks: 3,
        ..READ
    },
    Row {
        input: SEEN_100,
        passed: SEEN_100_PASSED,
        asks: 100,
        ..READ
    },
    TOO_LATE,
    Row {
        input: SEEN_LAST,
        ..TOO_LATE
    },
    // One turn is for the request, and 49 are for asks.
    Row {
        budget: 50,
        written: b"",
        asks: 49,
        end: SessionEnd::Turns,
        ..TOO_LATE
    },
    Row { asks: 1, ..WRITE },
];

/// The node doesn't say where it stands: no transaction is reached, and a write's reply comes back as it is.
const UNSAID: &[Row] = &[
    READ,
    Row {
        input: SEEN_1,
        ..TOO_LATE
    },
    Row {
        written: REPLY,
        asks: 1,
        ..WRITE
    },
];

/// How the session ends, and how often the machine is asked where it stands.
fn served<R: Handles + Copy + Abort>(
    rt: R,
    alloc: Global,
    stage: &mut Stage,
    says: bool,
) -> (SessionEnd, u64) {
    let by = Moving { asks: 0, says };
    let (desk, mut seat) = desk_of(alloc, Answering { by }).expect(&rt, "a desk");
    let end = pass_seat(
        rt,
        alloc,
        &desk,
        &mut seat,
        &mut stage.link,
        &mut stage.passage,
    );
    let Moving { asks, says: _ } = desk.close(rt, seat).by;
    (end, asks)
}

fn is_waited_for<R: Handles + Copy + Abort>(rt: R, alloc: Global, row: &Row, says: bool) {
    let mut stage = stage_of(rt, alloc, row, 9_999, row.reply);
    let left = served(rt, alloc, &mut stage, says);
    has_left(rt, &stage, row, row.written, left);
}

#[test]
fn the_transaction_is_waited_for(rt: HostRuntime) {
    let _named: Option<(TcpListener, TcpStream)> = None;
    for row in ROWS {
        is_waited_for(rt, rt.alloc(), row, true);
    }
}

#[test]
fn a_node_that_does_not_say_where_it_stands(rt: HostRuntime) {
    let _named: Option<(TcpListener, TcpStream)> = None;
    for row in UNSAID {
        is_waited_for(rt, rt.alloc(), row, false);
    }
}
