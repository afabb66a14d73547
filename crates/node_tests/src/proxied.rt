//! A table of requests that come to the proxy of a node, over links in memory: what the node was told before, what the client
//! sent, what the application was sent and what it replied, what the client was answered, and how often the node was asked.
//! The node has a lease from 100 to 150, commits its first transaction, and then follows `db1`.
mod cookies;
mod ends;
mod late;
mod refused;
mod replies;
mod session;
mod texts;

use crate::leases::Turn;
use crate::leases::client::{Deed, Told};
use lf_base::{Handles, SessionEnd};
use session::has_session;
use std::alloc::Global;
use std::net::{TcpListener, TcpStream};
use std::process::Abort;
use texts::*;

const NEVER: u64 = 999_999;

/// The number of the client's call, of the application's, and of the dial that fails.
#[derive(Clone, Copy)]
struct Fails {
    client: u64,
    target: u64,
    dial: u64,
}

const NOTHING: Fails = Fails {
    client: NEVER,
    target: NEVER,
    dial: NEVER,
};

#[derive(Clone, Copy)]
struct Row {
    /// What the node was told and asked, and the moment of the request.
    turns: &'static [Turn],
    now: u64,
    budget: u64,
    fails: Fails,
    input: &'static [u8],
    reply: &'static [u8],
    /// What the application is sent, and what the client is answered.
    passed: &'static [u8],
    written: &'static [u8],
    /// How often the node is asked.
    asks: u64,
    end: SessionEnd,
}

const LEASED: &[Turn] = &[
    (99, Deed::Primary("db1"), Told::Quiet),
    (100, Deed::Asked, Told::Quiet),
    (105, Deed::Granted(50), Told::Quiet),
    (106, Deed::Open, Told::Done),
    (107, Deed::Exclusive, Told::Done),
    (108, Deed::CreateJournal, Told::Done),
    (109, Deed::Header, Told::Done),
    (110, Deed::Page(7), Told::Done),
    (111, Deed::Unlink, Told::Done),
    (112, Deed::Unlock, Told::Done),
];

/// A primary of a database that was never written.
const UNWRITTEN: &[Turn] = &[
    (100, Deed::Asked, Told::Quiet),
    (105, Deed::Granted(50), Told::Quiet),
];

/// A read at the primary, where a row says nothing else: the node is asked once where it stands.
const READ: Row = Row {
    turns: LEASED,
    now: 149,
    budget: 100_000,
    fails: NOTHING,
    input: GET,
    reply: REPLY,
    passed: GET_PASSED,
    written: REPLY,
    asks: 1,
    end: SessionEnd::Closed,
};

/// A write at the primary: it is asked whether it takes writes, and where it stands.
const WRITE: Row = Row {
    input: POST,
    passed: POST_PASSED,
    written: MARKED,
    asks: 2,
    ..READ
};

/// A write at a replica: it is asked whether it takes writes, and then LOOKUP, OPEN, READ and RELEASE of the host's file.
const DENIED: Row = Row {
    now: 150,
    input: POST,
    passed: b"",
    written: UNAVAILABLE_DB1,
    asks: 5,
    ..READ
};

const ROWS: &[Row] = &[
    READ,
    Row { now: 150, ..READ },
    Row { turns: &[], ..READ },
    Row {
        input: HEAD,
        passed: HEAD_PASSED,
        ..READ
    },
    // Only the first of two requests is passed on.
    Row {
        input: GET_TWICE,
        ..READ
    },
    WRITE,
    Row {
        turns: UNWRITTEN,
        written: MARKED_0,
        ..WRITE
    },
    Row {
        input: DELETE,
        passed: DELETE_PASSED,
        ..WRITE
    },
    // A client that has seen more than the node may write. Lines that are of one link are left out, and Expect.
    Row {
        input: POST_SEEN_2,
        passed: POST_SEEN_2_PASSED,
        ..WRITE
    },
    DENIED,
    Row {
        input: DELETE,
        ..DENIED
    },
    Row {
        input: b"OPTIONS * HTTP/1.1\r\nHost: x\r\n\r\n",
        ..DENIED
    },
    Row {
        input: b"get /a HTTP/1.1\r\nHost: x\r\n\r\n",
        ..DENIED
    },
    // The node knows no host: the first of the four isn't answered.
    Row {
        turns: &[],
        written: UNAVAILABLE,
        asks: 2,
        ..DENIED
    },
];

/// Plays each row, once with links whose reads give seven bytes at most.
fn play_all<R: Handles + Copy + Abort>(rt: R, alloc: Global, rows: &[Row]) {
    for row in rows {
        has_session(rt, alloc, row, 9_999);
        has_session(rt, alloc, row, 7);
    }
}

#[test]
fn requests_are_passed_on(rt: HostRuntime) {
    let _named: Option<(TcpListener, TcpStream)> = None;
    play_all(rt, rt.alloc(), ROWS);
}
