//! Sessions whose input ends, whose links fail, or whose turns run out.
use super::refused::UNASKED;
use super::session::has_session;
use super::texts::*;
use super::{Fails, NOTHING, READ, Row, WRITE};
use lf_base::SessionEnd;
use std::net::{TcpListener, TcpStream};

/// No request came, and nothing was answered.
const SILENT: Row = Row {
    written: b"",
    end: SessionEnd::BadMessage,
    ..UNASKED
};

/// The application is not reached, or fails.
const FAILED: Row = Row {
    written: BAD_GATEWAY,
    ..READ
};

const ROWS: &[Row] = &[
    Row {
        input: b"",
        end: SessionEnd::Closed,
        ..SILENT
    },
    Row {
        input: b"GET /a HTTP/1.1\r\nHost: x\r\n",
        ..SILENT
    },
    Row {
        input: b"POST /w HTTP/1.1\r\nContent-Length: 3\r\n\r\na=",
        ..SILENT
    },
    // The first call of the client's link is the read, and the second the write.
    Row {
        fails: Fails {
            client: 0,
            ..NOTHING
        },
        end: SessionEnd::ReadFault,
        ..SILENT
    },
    Row {
        fails: Fails {
            client: 1,
            ..NOTHING
        },
        input: b"GET / HTTP/1.0\r\n\r\n",
        end: SessionEnd::WriteFault,
        ..SILENT
    },
    Row {
        fails: Fails {
            client: 1,
            ..NOTHING
        },
        written: b"",
        end: SessionEnd::WriteFault,
        ..READ
    },
    // Nobody is dialed in vain twice.
    Row {
        fails: Fails { dial: 0, ..NOTHING },
        passed: b"",
        ..FAILED
    },
    Row {
        fails: Fails { dial: 0, ..NOTHING },
        input: POST,
        passed: b"",
        ..FAILED
    },
    // The calls of the application's link are the write, the read of the reply, and the read of its end.
    Row {
        fails: Fails {
            target: 0,
            ..NOTHING
        },
        passed: b"",
        ..FAILED
    },
    Row {
        fails: Fails {
            target: 1,
            ..NOTHING
        },
        ..FAILED
    },
    Row {
        fails: Fails {
            target: 2,
            ..NOTHING
        },
        ..FAILED
    },
    // A write's body is written by a call of its own. The node isn't asked where it stands.
    Row {
        fails: Fails {
            target: 2,
            ..NOTHING
        },
        written: BAD_GATEWAY,
        asks: 1,
        ..WRITE
    },
    // No turn for the request, for an ask, for what is passed on, and for its reply.
    Row {
        budget: 0,
        end: SessionEnd::Turns,
        ..SILENT
    },
    Row {
        budget: 1,
        end: SessionEnd::Turns,
        ..SILENT
    },
    Row {
        budget: 2,
        asks: 1,
        end: SessionEnd::Turns,
        ..SILENT
    },
    Row {
        budget: 3,
        written: b"",
        end: SessionEnd::Turns,
        ..READ
    },
];

#[test]
fn sessions_end(rt: HostRuntime) {
    let _named: Option<(TcpListener, TcpStream)> = None;
    for row in ROWS {
        has_session(rt, rt.alloc(), row, 9_999);
    }
}
