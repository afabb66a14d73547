//! A table of sessions whose permit ends at 1,005 while a transaction in rollback mode is open. Each message comes a
//! millisecond after the one before.
use super::messages::{Heard, Said};
use super::primary::{Asked, Replied};
use super::sessions::has_session;
use super::{Row, SENT};
use std::net::{TcpListener, TcpStream};

/// It has ended when the call comes that would commit: nothing is sent, and the node is where it was.
const ENDED: Row = Row {
    first: 998,
    later: 1,
    replies: &[Replied::Permit, Replied::Empty],
    written: &[
        Heard::Locked,
        Heard::Begun,
        Heard::PageWritten,
        Heard::NotCommitted,
    ],
    asked: &[Asked::Asks, Asked::GivesBack],
    steps: 13,
    txid: 0,
    ..SENT
};

const ROWS: &[Row] = &[
    ENDED,
    Row {
        input: &[Said::Lock, Said::Begin, Said::Page, Said::Unlink],
        ..ENDED
    },
    // The page before is refused, too, and one that is written again.
    Row {
        first: 999,
        written: &[
            Heard::Locked,
            Heard::Begun,
            Heard::PageRefused,
            Heard::NotCommitted,
        ],
        ..ENDED
    },
    Row {
        input: &[Said::Lock, Said::Begin, Said::Page, Said::Zeros, Said::Page],
        written: &[
            Heard::Locked,
            Heard::Begun,
            Heard::PageWritten,
            Heard::NotCommitted,
            Heard::PageRefused,
        ],
        steps: 14,
        ..ENDED
    },
    // A millisecond before its end it is sent.
    Row {
        first: 997,
        later: 1,
        asked: &[Asked::Asks, Asked::SendsLast, Asked::GivesBack],
        ..SENT
    },
];

#[test]
fn a_permit_ends_inside_a_transaction(rt: HostRuntime) {
    let _named: Option<(TcpListener, TcpStream)> = None;
    for row in ROWS {
        has_session(rt, rt.alloc(), row);
    }
}
