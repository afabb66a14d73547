//! Requests that are refused at once.
use super::texts::*;
use super::{READ, Row, play_all};
use std::net::{TcpListener, TcpStream};

/// A request of which the node isn't asked.
pub const UNASKED: Row = Row {
    passed: b"",
    written: BAD_REQUEST,
    asks: 0,
    ..READ
};

const ROWS: &[Row] = &[
    // A body in chunks.
    Row {
        input: b"POST /w HTTP/1.1\r\nHost: x\r\nTransfer-Encoding: chunked\r\n\r\n1\r\na\r\n0\r\n\r\n",
        ..UNASKED
    },
    Row {
        input: b"GET /a HTTP/1.1\r\nHost: x\r\ntransfer-encoding: identity\r\n\r\n",
        ..UNASKED
    },
    // Another version.
    Row {
        input: b"GET /a HTTP/1.0\r\n\r\n",
        ..UNASKED
    },
    // Lengths that differ, and what is none.
    Row {
        input: b"POST /w HTTP/1.1\r\nContent-Length: 3\r\nContent-Length: 4\r\n\r\nabc",
        ..UNASKED
    },
    Row {
        input: b"POST /w HTTP/1.1\r\nContent-Length: +3\r\n\r\nabc",
        ..UNASKED
    },
    Row {
        input: b"POST /w HTTP/1.1\r\nContent-Length: 18446744073709551616\r\n\r\nabc",
        ..UNASKED
    },
    // No head at all.
    Row {
        input: b"\x16\x03\x01\x02\x00\x01\x00\x01\xfc\x03\x03",
        ..UNASKED
    },
    // A body of a byte more than is passed on.
    Row {
        input: b"POST /w HTTP/1.1\r\nContent-Length: 67108865\r\n\r\nabc",
        written: TOO_LARGE,
        ..UNASKED
    },
];

#[test]
fn requests_are_refused(rt: HostRuntime) {
    let _named: Option<(TcpListener, TcpStream)> = None;
    play_all(rt, rt.alloc(), ROWS);
}
