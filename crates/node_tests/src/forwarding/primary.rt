//! What the primary replies, what it is asked, and a dialer that reaches it.
ghost use Rattle.std.specs.Prelude.{All};
ghost use Rattle.lf_base.specs.Doors.{IsUnused};

use super::pieces::Piece::{self, Full, Hex, Text};
use crate::replies::{BEHIND, EMPTY, HALT_HELD, HELD, NOT_PRIMARY};
use lf_base::{MemDialer, MemLink, Watch};
use std::alloc::Global;
use std::process::Abort;
use test_base::{link_of, one};

/// What the primary replies.
#[derive(Clone, Copy)]
pub enum Replied {
    Permit,
    Ended,
    Ahead,
    NoLine,
    Cut,
    Empty,
    HaltHeld,
    HeldBack,
    Behind,
    NotPrimary,
    Accepted,
    AcceptedLog,
    Half,
}

/// What it is asked.
#[derive(Clone, Copy)]
pub enum Asked {
    Asks,
    GivesBack,
    Sends,
    SendsLast,
    SendsLog,
}

/// The permit of the number 7 until 1,005, at no position.
const PERMIT: &[u8] = b"HTTP/1.1 200 OK\r\nContent-Length: 68\r\nConnection: close\r\n\r\n\
    0000000000000007 00000000000003ed 0000000000000000/0000000000000000\n";

/// It ends at 5.
const ENDED: &[u8] = b"HTTP/1.1 200 OK\r\nContent-Length: 68\r\nConnection: close\r\n\r\n\
    0000000000000007 0000000000000005 0000000000000000/0000000000000000\n";

/// It is one at the first transaction.
const AHEAD: &[u8] = b"HTTP/1.1 200 OK\r\nContent-Length: 68\r\nConnection: close\r\n\r\n\
    0000000000000007 00000000000003ed 0000000000000001/bf1b6cc764511888\n";

/// Its number is written in upper case.
const NO_LINE: &[u8] = b"HTTP/1.1 200 OK\r\nContent-Length: 68\r\nConnection: close\r\n\r\n\
    000000000000000A 00000000000003ed 0000000000000000/0000000000000000\n";

/// A permit that is cut off before its last byte.
const CUT: &[u8] = b"HTTP/1.1 200 OK\r\nContent-Length: 68\r\nConnection: close\r\n\r\n\
    0000000000000007 00000000000003ed 0000000000000000/0000000000000000";

/// The commit is accepted, and leads to this position.
const ACCEPTED: &[u8] = b"HTTP/1.1 200 OK\r\nContent-Length: 34\r\nConnection: close\r\n\r\n\
    0000000000000001/bf1b6cc764511888\n";

const ACCEPTED_LOG: &[u8] = b"HTTP/1.1 200 OK\r\nContent-Length: 34\r\nConnection: close\r\n\r\n\
    0000000000000001/d9328f592d9e733d\n";

const HALF: &[u8] = b"HTTP/1.1 200 OK\r\nContent-Length: 34\r\nConnection: close\r\n\r\n\
    0000000000000001/";

/// A permit is asked for, for the node 3.
const ASKS: &[Piece] = &[Text(
    b"POST /halt HTTP/1.1\r\nHost: \r\nContent-Length: 21\r\n\r\napp 0000000000000003\n",
)];

/// The permit of the number 7 is given back.
const GIVES_BACK: &[Piece] = &[Text(
    b"DELETE /halt HTTP/1.1\r\nHost: \r\nContent-Length: 21\r\n\r\napp 0000000000000007\n",
)];

/// A commit is sent: the transaction 1 of the node 3 at 5, a page of 512 bytes. The sums were computed by
/// the rule of the file format.
const SENDS: &[Piece] = &[
    Text(b"POST /tx HTTP/1.1\r\nHost: \r\nContent-Length: 657\r\n\r\napp 0000000000000007\n"),
    Hex(b"4c545831 00000000 00000200 00000001 0000000000000001 0000000000000001"),
    Hex(b"0000000000000005 0000000000000000"),
    Full(0, 24),
    Hex(b"0000000000000003"),
    Full(0, 20),
    Hex(b"00000001"),
    Full(7, 512),
    Hex(b"00000000 bf1b6cc764511888 810b2eff8af397bd"),
];

/// The same at 1,004.
const SENDS_LAST: &[Piece] = &[
    Text(b"POST /tx HTTP/1.1\r\nHost: \r\nContent-Length: 657\r\n\r\napp 0000000000000007\n"),
    Hex(b"4c545831 00000000 00000200 00000001 0000000000000001 0000000000000001"),
    Hex(b"00000000000003ec 0000000000000000"),
    Full(0, 24),
    Hex(b"0000000000000003"),
    Full(0, 20),
    Hex(b"00000001"),
    Full(7, 512),
    Hex(b"00000000 bf1b6cc764511888 d7e8abfd459b7a35"),
];

/// The same at 5 of a page of 4,096 zeros.
const SENDS_LOG: &[Piece] = &[
    Text(b"POST /tx HTTP/1.1\r\nHost: \r\nContent-Length: 4241\r\n\r\napp 0000000000000007\n"),
    Hex(b"4c545831 00000000 00001000 00000001 0000000000000001 0000000000000001"),
    Hex(b"0000000000000005 0000000000000000"),
    Full(0, 24),
    Hex(b"0000000000000003"),
    Full(0, 20),
    Hex(b"00000001"),
    Full(0, 4_096),
    Hex(b"00000000 d9328f592d9e733d e98f1228be50589c"),
];

/// The reply.
pub fn reply_of(replied: Replied) -> &'static [u8] {
    match replied {
        Replied::Permit => PERMIT,
        Replied::Ended => ENDED,
        Replied::Ahead => AHEAD,
        Replied::NoLine => NO_LINE,
        Replied::Cut => CUT,
        Replied::Empty => EMPTY,
        Replied::HaltHeld => HALT_HELD,
        Replied::HeldBack => HELD,
        Replied::Behind => BEHIND,
        Replied::NotPrimary => NOT_PRIMARY,
        Replied::Accepted => ACCEPTED,
        Replied::AcceptedLog => ACCEPTED_LOG,
        Replied::Half => HALF,
    }
}

/// The request.
pub fn asked_in(asked: Asked) -> &'static [Piece] {
    match asked {
        Asked::Asks => ASKS,
        Asked::GivesBack => GIVES_BACK,
        Asked::Sends => SENDS,
        Asked::SendsLast => SENDS_LAST,
        Asked::SendsLog => SENDS_LOG,
    }
}

/// The links of a dialer, and what shows what each took.
#[derive(Drop)]
struct Lines {
    links: Vec<MemLink>,
    watches: Vec<Watch>,
}

/// One more link, which gives this reply.
fn add<R: Copy + Abort>(rt: R, alloc: Global, lines: &mut Lines, reply: &[u8])
    requires { All IsUnused lines.old.links.items }
    ensures { All IsUnused lines.new.links.items }
{
    let link = link_of(alloc, reply, 8192).expect(&rt, "a link");
    lines.watches.push(link.watch()).expect(&rt, "memory");
    assert!(rt; lines.links.push(link).is_ok());
}

/// Links that give these replies.
fn lines_of<R: Copy + Abort>(rt: R, alloc: Global, replies: &[&[u8]]) -> Lines
    ensures { All IsUnused result.links.items }
{
    let mut lines = Lines {
        links: Vec::new(alloc),
        watches: Vec::new(alloc),
    };
    for reply in replies {
        add(rt, alloc, &mut lines, reply);
    }
    lines
}

/// A dialer whose dial of the number `failing` fails, and what shows what its links took.
pub fn dialer_of<R: Copy + Abort>(
    rt: R,
    alloc: Global,
    replies: &[&[u8]],
    failing: u64,
) -> (MemDialer, Vec<Watch>) {
    let Lines { links, watches } = lines_of(rt, alloc, replies);
    let failing = one(alloc, failing).expect(&rt, "memory");
    let dialer = MemDialer::new(alloc, links, 200, failing).expect(&rt, "a dialer");
    (dialer, watches)
}

/// What the links took, one after another.
pub fn all_taken<R: Copy + Abort>(rt: R, alloc: Global, watches: &[Watch]) -> Vec<u8> {
    let mut all = Vec::new(alloc);
    for watch in watches {
        let taken = watch.bytes().expect(&rt, "memory");
        all.extend_from_slice(taken.as_slice())
            .expect(&rt, "memory");
    }
    all
}
