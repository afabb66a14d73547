//! A table of sessions under a permit whose commits are frames of a log.
use super::messages::{Heard, Said};
use super::primary::{Asked, Replied};
use super::sessions::has_session;
use super::{Row, SENT};
use std::net::{TcpListener, TcpStream};

/// A commit of frames is sent, and accepted.
const LOGGED: Row = Row {
    input: &[Said::Lock, Said::BeginLog, Said::Frames],
    replies: &[Replied::Permit, Replied::AcceptedLog, Replied::Empty],
    written: &[Heard::Locked, Heard::LogBegun, Heard::FramesWritten],
    asked: &[Asked::Asks, Asked::SendsLog, Asked::GivesBack],
    steps: 12,
    ..SENT
};

/// It is not accepted.
const NOT_LOGGED: Row = Row {
    replies: &[Replied::Permit, Replied::Behind, Replied::Empty],
    written: &[Heard::Locked, Heard::LogBegun, Heard::Failed],
    txid: 0,
    ..LOGGED
};

const ROWS: &[Row] = &[
    LOGGED,
    // A lock at the primary holds it back.
    Row {
        replies: &[
            Replied::Permit,
            Replied::HeldBack,
            Replied::AcceptedLog,
            Replied::Empty,
        ],
        asked: &[
            Asked::Asks,
            Asked::SendsLog,
            Asked::SendsLog,
            Asked::GivesBack,
        ],
        ..LOGGED
    },
    NOT_LOGGED,
    Row {
        replies: &[Replied::Permit, Replied::Half, Replied::Empty],
        ..NOT_LOGGED
    },
    Row {
        replies: &[Replied::Permit, Replied::Empty],
        failing: 1,
        asked: &[Asked::Asks, Asked::GivesBack],
        ..NOT_LOGGED
    },
    // The log is as it was: the same frames are written and sent again.
    Row {
        input: &[Said::Lock, Said::BeginLog, Said::Frames, Said::FramesAgain],
        replies: &[
            Replied::Permit,
            Replied::Behind,
            Replied::AcceptedLog,
            Replied::Empty,
        ],
        written: &[
            Heard::Locked,
            Heard::LogBegun,
            Heard::Failed,
            Heard::FramesWrittenAgain,
        ],
        asked: &[
            Asked::Asks,
            Asked::SendsLog,
            Asked::SendsLog,
            Asked::GivesBack,
        ],
        steps: 14,
        ..LOGGED
    },
    // The permit ends at 1,005, when the frames come: nothing is sent.
    Row {
        first: 1_000,
        later: 1,
        replies: &[Replied::Permit, Replied::Empty],
        written: &[Heard::Locked, Heard::LogBegun, Heard::NotCommitted],
        asked: &[Asked::Asks, Asked::GivesBack],
        steps: 11,
        ..NOT_LOGGED
    },
];

#[test]
fn frames_are_sent(rt: HostRuntime) {
    let _named: Option<(TcpListener, TcpStream)> = None;
    for row in ROWS {
        has_session(rt, rt.alloc(), row);
    }
}
