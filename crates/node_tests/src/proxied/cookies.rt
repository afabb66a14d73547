//! Reads of clients that have seen a transaction, by their cookies.
use super::texts::*;
use super::{READ, Row, play_all};
use std::net::{TcpListener, TcpStream};

/// A read of a client that has seen a transaction that the node hasn't: it is asked 100 times, and then looks for the host's
/// file, which a primary hasn't.
const TOO_EARLY: Row = Row {
    passed: b"",
    written: GATEWAY_TIMEOUT,
    asks: 101,
    ..READ
};

/// At the first transaction.
const REACHED: &[Row] = &[
    Row {
        input: SEEN_1,
        passed: SEEN_1_PASSED,
        ..READ
    },
    Row {
        now: 150,
        input: SEEN_1,
        passed: SEEN_1_PASSED,
        ..READ
    },
    // These name none.
    Row {
        input: UPPER_CASE,
        passed: UPPER_CASE_PASSED,
        ..READ
    },
    Row {
        input: FIFTEEN,
        passed: FIFTEEN_PASSED,
        ..READ
    },
    Row {
        input: SEVENTEEN,
        passed: SEVENTEEN_PASSED,
        ..READ
    },
    Row {
        input: OTHER_NAMES,
        passed: OTHER_NAMES_PASSED,
        ..READ
    },
    // The first that names one counts.
    Row {
        input: FIRST_OF_TWO,
        passed: FIRST_OF_TWO_PASSED,
        ..READ
    },
];

/// Never.
const UNREACHED: &[Row] = &[
    Row {
        input: SEEN_2,
        ..TOO_EARLY
    },
    Row {
        input: HEAD_SEEN_2,
        ..TOO_EARLY
    },
    Row {
        input: HIGH_OF_TWO,
        ..TOO_EARLY
    },
    Row {
        input: SECOND_FIELD,
        ..TOO_EARLY
    },
    Row {
        input: BLANKS,
        ..TOO_EARLY
    },
    // A replica has the host's file: OPEN, READ and RELEASE follow.
    Row {
        now: 150,
        input: SEEN_2,
        written: GATEWAY_TIMEOUT_DB1,
        asks: 104,
        ..TOO_EARLY
    },
    // One that was told nothing hasn't.
    Row {
        turns: &[],
        input: SEEN_1,
        ..TOO_EARLY
    },
];

#[test]
fn what_was_seen_is_there(rt: HostRuntime) {
    let _named: Option<(TcpListener, TcpStream)> = None;
    play_all(rt, rt.alloc(), REACHED);
}

#[test]
fn what_was_seen_is_not_there(rt: HostRuntime) {
    let _named: Option<(TcpListener, TcpStream)> = None;
    play_all(rt, rt.alloc(), UNREACHED);
}
