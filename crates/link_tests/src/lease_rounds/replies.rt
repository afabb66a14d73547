//! Rounds by what the service replies, whole and cut at each byte.
use super::listener::{Account, Heard, SILENCE};
use super::{CANDIDATE, End, FOLLOWER, HOLDER, NOW, Who, round_of};
use crate::exchange::front;
use crate::same::same;
use lf_base::Handles;
use std::alloc::Global;
use std::net::{TcpListener, TcpStream};
use std::process::Abort;

/// Who asks, the reply, what the machine hears of it, the term then, and whether the url is the second
/// node's, if one is told.
type Row = (Who, &'static str, Heard, u64, Option<bool>);

const GRANTED: &str = "HTTP/1.1 200 OK\r\nContent-Length: 60\r\n\r\n\
    {\"host\":\"db1\",\"term\":1,\"ttl\":10000,\"url\":\"http://db1:20202\"}";

const OTHER: &str = "HTTP/1.1 200 OK\r\nContent-Length: 58\r\n\r\n\
    {\"host\":\"db2\",\"term\":3,\"ttl\":900,\"url\":\"http://db2:20203\"}";

const RENEWED: &str = "HTTP/1.1 200 OK\r\nContent-Length: 13\r\n\r\n{\"ttl\":10000}";

const NONE: &str = "HTTP/1.1 200 OK\r\nContent-Length: 2\r\n\r\n{}";

const HELD: &str =
    "HTTP/1.1 409 Conflict\r\nContent-Length: 30\r\n\r\n{\"error\":\"Held\",\"until\":11000}";

const LATE: &str =
    "HTTP/1.1 409 Conflict\r\nContent-Length: 30\r\n\r\n{\"error\":\"Late\",\"until\":11000}";

/// Replies that tell something.
const TELLING: &[Row] = &[
    (
        CANDIDATE,
        GRANTED,
        Heard::Granted {
            term: 1,
            ttl: 10_000,
        },
        1,
        None,
    ),
    (
        CANDIDATE,
        OTHER,
        Heard::Granted { term: 3, ttl: 900 },
        3,
        None,
    ),
    (
        HOLDER,
        RENEWED,
        Heard::Granted {
            term: 7,
            ttl: 10_000,
        },
        7,
        None,
    ),
    (
        HOLDER,
        "HTTP/1.1 200 OK\r\nContent-Length: 9\r\n\r\n{\"ttl\":1}",
        Heard::Granted { term: 7, ttl: 1 },
        7,
        None,
    ),
    (HOLDER, LATE, Heard::Lost, 0, None),
    (
        HOLDER,
        "HTTP/1.1 409 Conflict\r\nContent-Length: 5\r\n\r\nGone\n",
        Heard::Lost,
        0,
        None,
    ),
    (FOLLOWER, OTHER, Heard::Primary { db2: true }, 0, Some(true)),
    (
        FOLLOWER,
        GRANTED,
        Heard::Primary { db2: false },
        0,
        Some(false),
    ),
];

/// Replies that tell nothing: of a status, or of a shape, that is no answer to what was asked.
const SILENT: &[(Who, &str)] = &[
    (CANDIDATE, HELD),
    (CANDIDATE, RENEWED),
    (CANDIDATE, NONE),
    (CANDIDATE, "HTTP/1.1 200 OK\r\nContent-Length: 0\r\n\r\n"),
    (
        CANDIDATE,
        "HTTP/1.1 200 OK\r\nContent-Length: 29\r\n\r\n{\"error\":\"Held\",\"until\":11000",
    ),
    (
        CANDIDATE,
        "HTTP/1.1 200 OK\r\nContent-Length: 30\r\n\r\n{\"error\":\"Held\",\"until\":11000}",
    ),
    (
        CANDIDATE,
        "HTTP/1.1 201 Created\r\nContent-Length: 60\r\n\r\n\
        {\"host\":\"db1\",\"term\":1,\"ttl\":10000,\"url\":\"http://db1:20202\"}",
    ),
    (HOLDER, GRANTED),
    (HOLDER, NONE),
    (
        HOLDER,
        "HTTP/1.1 200 OK\r\nContent-Length: 12\r\n\r\n{\"ttl\":10.5}",
    ),
    (
        HOLDER,
        "HTTP/1.1 404 Not Found\r\nContent-Length: 0\r\n\r\n",
    ),
    (
        HOLDER,
        "HTTP/1.1 503 Service Unavailable\r\nContent-Length: 13\r\n\r\n{\"ttl\":10000}",
    ),
    (
        HOLDER,
        "HTTP/1.1 409 Conflict\r\nContent-Length: 65537\r\n\r\n",
    ),
    (HOLDER, "SSH-2.0-OpenSSH_9.6\r\n"),
    (FOLLOWER, HELD),
    (FOLLOWER, LATE),
    (FOLLOWER, RENEWED),
    (
        FOLLOWER,
        "HTTP/1.1 200 OK\r\nContent-Length: 5\r\n\r\nhello",
    ),
];

/// What each of them writes.
fn request_of(who: Who) -> &'static str {
    if who.term > 0 {
        return "POST /lease HTTP/1.1\r\nHost: s:1\r\nContent-Length: 49\r\n\r\n\
            {\"node\":\"0000000000000001\",\"op\":\"renew\",\"term\":7}";
    }
    if who.candidate {
        return "POST /lease HTTP/1.1\r\nHost: s:1\r\nContent-Length: 80\r\n\r\n\
            {\"host\":\"db1\",\"node\":\"0000000000000001\",\"op\":\"acquire\",\"url\":\"http://db1:20202\"}";
    }
    "POST /lease HTTP/1.1\r\nHost: s:1\r\nContent-Length: 13\r\n\r\n{\"op\":\"info\"}"
}

/// The account of a machine that heard this.
fn account_of(heard: Heard) -> Account {
    let told = match heard {
        Heard::Nothing => 0,
        _ => 1,
    };
    Account {
        asked: 1,
        told,
        moment: NOW,
        heard,
        ..SILENCE
    }
}

/// A round with this reply in pieces of a size.
fn is_heard<R: Handles + Abort + Copy>(rt: R, alloc: Global, row: &Row, size: usize) {
    let (who, reply, heard, term, db2) = *row;
    let (account, end, written) = round_of(rt, alloc, who, reply, size);
    same(rt, (who, reply, end), (who, reply, End::Done { term, db2 }));
    same(rt, (reply, account), (reply, account_of(heard)));
    same(rt, written.as_slice(), request_of(who).as_bytes());
}

/// The same where nobody is primary: the machine hears nothing, and the end says it.
fn is_nobody<R: Handles + Abort + Copy>(rt: R, alloc: Global, size: usize) {
    let (account, end, written) = round_of(rt, alloc, FOLLOWER, NONE, size);
    same(rt, (size, end), (size, End::Nobody));
    same(rt, (size, account), (size, account_of(Heard::Nothing)));
    same(rt, written.as_slice(), request_of(FOLLOWER).as_bytes());
}

/// The same with a reply that tells nothing: the term stays.
fn is_silent<R: Handles + Abort + Copy>(
    rt: R,
    alloc: Global,
    who: Who,
    reply: &'static str,
    size: usize,
) {
    is_heard(
        rt,
        alloc,
        &(who, reply, Heard::Nothing, who.term, None),
        size,
    );
}

#[test]
fn replies_that_tell(rt: HostRuntime) {
    let _named: Option<(TcpListener, TcpStream)> = None;
    for row in TELLING {
        for size in [1usize, 7, 99_999] {
            is_heard(rt, rt.alloc(), row, size);
        }
    }
}

#[test]
fn a_reply_that_nobody_is_primary(rt: HostRuntime) {
    let _named: Option<(TcpListener, TcpStream)> = None;
    for size in [1usize, 7, 99_999] {
        is_nobody(rt, rt.alloc(), size);
    }
}

#[test]
fn replies_that_tell_nothing(rt: HostRuntime) {
    let _named: Option<(TcpListener, TcpStream)> = None;
    for (who, reply) in SILENT {
        for size in [1usize, 7, 99_999] {
            is_silent(rt, rt.alloc(), *who, *reply, size);
        }
    }
}

/// Each front of a reply that would tell something tells nothing.
fn ends_early<R: Handles + Abort + Copy>(rt: R, alloc: Global, who: Who, reply: &'static str) {
    for (at, _) in reply.char_indices() {
        is_silent(rt, alloc, who, front(&rt, reply, at), 7);
    }
}

#[test]
fn a_grant_that_ends_early(rt: HostRuntime) {
    let _named: Option<(TcpListener, TcpStream)> = None;
    ends_early(rt, rt.alloc(), CANDIDATE, GRANTED);
}

#[test]
fn a_renewal_that_ends_early(rt: HostRuntime) {
    let _named: Option<(TcpListener, TcpStream)> = None;
    ends_early(rt, rt.alloc(), HOLDER, RENEWED);
}

#[test]
fn a_loss_that_ends_early(rt: HostRuntime) {
    let _named: Option<(TcpListener, TcpStream)> = None;
    ends_early(rt, rt.alloc(), HOLDER, LATE);
}

#[test]
fn a_primary_whose_reply_ends_early(rt: HostRuntime) {
    let _named: Option<(TcpListener, TcpStream)> = None;
    ends_early(rt, rt.alloc(), FOLLOWER, OTHER);
}
