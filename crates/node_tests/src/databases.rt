//! A table of exports and imports over HTTP: what came, in pieces of which size, what was written, how it ended and what
//! the node was asked.
mod stored;

use crate::replies::{
    ABSENT, EMPTY, FAILED, FULL, HELD, LIMIT, NOT_DATABASE, NOT_FOUND, NOT_PRIMARY, ODD, POSITION,
    TOO_LONG,
};
use crate::sessions::{Row, has_session};
use lf_base::SessionEnd;
use stored::{Stored, Word};

const EXPORT: &[u8] = b"GET /export?name=app HTTP/1.1\r\nHost: localhost:20202\r\n\r\n";

const IMPORT: &[u8] = b"POST /import?name=app HTTP/1.1\r\nContent-Length: 3\r\n\r\nabc";

const PAGES: &[u8] = b"HTTP/1.1 200 OK\r\nContent-Length: 5\r\nConnection: close\r\n\r\npages";

const NEVER: u64 = 999;

/// An export, where a row says nothing else.
const EXPORTED: Row<Word> = Row {
    input: EXPORT,
    size: 99_999,
    failing: NEVER,
    budget: 99,
    answers: Word::Pages,
    written: &[PAGES],
    end: SessionEnd::Closed,
    asked: b"export",
};

/// An import, where a row says nothing else.
const IMPORTED: Row<Word> = Row {
    input: IMPORT,
    answers: Word::Applied,
    written: &[POSITION],
    asked: b"import at 5: abc",
    ..EXPORTED
};

/// A request for which the node isn't asked.
const UNASKED: Row<Word> = Row {
    asked: b"",
    ..EXPORTED
};

const ROWS: &[Row<Word>] = &[
    EXPORTED,
    Row {
        size: 1,
        ..EXPORTED
    },
    // A database without pages has a reply without bytes.
    Row {
        answers: Word::NoPages,
        written: &[EMPTY],
        ..EXPORTED
    },
    Row {
        answers: Word::Absent,
        written: &[ABSENT],
        ..EXPORTED
    },
    Row {
        answers: Word::Quiet,
        written: &[ODD],
        ..EXPORTED
    },
    IMPORTED,
    Row {
        size: 1,
        ..IMPORTED
    },
    Row {
        answers: Word::Same,
        ..IMPORTED
    },
    // No bytes are a body like others.
    Row {
        input: b"POST /import?name=app HTTP/1.1\r\n\r\n",
        answers: Word::NotDatabase,
        written: &[NOT_DATABASE],
        asked: b"import at 5: ",
        ..IMPORTED
    },
    Row {
        answers: Word::Held,
        written: &[HELD],
        ..IMPORTED
    },
    Row {
        answers: Word::Limit,
        written: &[LIMIT],
        ..IMPORTED
    },
    Row {
        answers: Word::Failed,
        written: &[FAILED],
        ..IMPORTED
    },
    Row {
        answers: Word::NotPrimary,
        written: &[NOT_PRIMARY],
        ..IMPORTED
    },
    Row {
        answers: Word::NoMemory,
        written: &[FULL],
        ..IMPORTED
    },
    // Another database, another method, and a body that is too long: of the last nothing is read.
    Row {
        input: b"GET /export?name=apq HTTP/1.1\r\n\r\n",
        written: &[NOT_FOUND],
        ..UNASKED
    },
    Row {
        input: b"POST /import?name=apq HTTP/1.1\r\nContent-Length: 3\r\n\r\nabc",
        written: &[NOT_FOUND],
        ..UNASKED
    },
    Row {
        input: b"POST /export?name=app HTTP/1.1\r\n\r\n",
        written: &[NOT_FOUND],
        ..UNASKED
    },
    Row {
        input: b"GET /import?name=app HTTP/1.1\r\n\r\n",
        written: &[NOT_FOUND],
        ..UNASKED
    },
    Row {
        input: b"POST /import?name=app HTTP/1.1\r\nContent-Length: 2147483649\r\n\r\nabc",
        written: &[TOO_LONG],
        ..UNASKED
    },
    // The body ends before its length.
    Row {
        input: b"POST /import?name=app HTTP/1.1\r\nContent-Length: 2147483648\r\n\r\nabc",
        written: &[],
        end: SessionEnd::BadMessage,
        ..UNASKED
    },
    // The second call of the link is the reply's head, and the third its body.
    Row {
        failing: 1,
        written: &[],
        end: SessionEnd::WriteFault,
        ..EXPORTED
    },
    Row {
        failing: 2,
        written: &[b"HTTP/1.1 200 OK\r\nContent-Length: 5\r\nConnection: close\r\n\r\n"],
        end: SessionEnd::WriteFault,
        ..EXPORTED
    },
    // No turn for the ask, and none for the reply.
    Row {
        budget: 1,
        written: &[],
        end: SessionEnd::Turns,
        ..UNASKED
    },
    Row {
        budget: 2,
        written: &[],
        end: SessionEnd::Turns,
        ..EXPORTED
    },
];

#[test]
fn databases(rt: HostRuntime) {
    for row in ROWS {
        has_session(rt, rt.alloc(), row, Stored::new(rt.alloc(), row.answers));
    }
}
