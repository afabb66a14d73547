//! A table of requests over HTTP: what came, in pieces of which size, what was written, how it ended and where
//! the node was asked from.
mod scripted;

use crate::replies::{BAD, DISK, FULL, NOT_FOUND, NOT_PRIMARY};
use crate::sessions::{Row, has_session};
use lf_base::SessionEnd;
use scripted::{Scripted, Word};

const GET: &[u8] = b"GET / HTTP/1.1\r\nHost: a\r\n\r\n";

const STREAM: &[u8] =
    b"POST /stream HTTP/1.1\r\nHost: localhost:20202\r\nContent-Length: 38\r\n\r\n\
    app 0000000000000000/0000000000000000\n";

const STREAM_AT_9: &[u8] = b"POST /stream HTTP/1.1\r\nContent-Length: 38\r\n\r\n\
    app 0000000000000009/8000000000000000\n";

const OTHER: &[u8] = b"POST /stream HTTP/1.1\r\nContent-Length: 38\r\n\r\n\
    apq 0000000000000000/0000000000000000\n";

const UPPER: &[u8] = b"POST /stream HTTP/1.1\r\nContent-Length: 38\r\n\r\n\
    app 0000000000000000/000000000000000A\n";

const SHORT: &[u8] = b"POST /stream HTTP/1.1\r\nContent-Length: 5\r\n\r\nhello";

/// The head of a stream.
const BEGUN: &[u8] = b"HTTP/1.1 200 OK\r\nConnection: close\r\n\r\n";

/// The frame of a file of 636 bytes.
const FILE: &[u8] = b"\0\0\0\x01\0\0\0\x03\0\0\0\0\0\0\x02\x7capp*";

const READY: &[u8] =
    b"\0\0\0\x02\0\0\0\x03\0\0\0\0\0\0\0\x10app\0\0\0\0\0\0\0\x01\xef\xb1\xf4\x4f\xec\xd9\x90\0";

const DROP: &[u8] = b"\0\0\0\x04\0\0\0\x03\0\0\0\0\0\0\0\0app";

const END: &[u8] = b"\0\0\0\x03\0\0\0\0\0\0\0\0\0\0\0\0";

const NEVER: u64 = 999;

/// What a row is where it says nothing else.
const CLOSED: Row<&[Word]> = Row {
    input: b"",
    size: 99_999,
    failing: NEVER,
    budget: 1_000,
    answers: &[],
    written: &[],
    end: SessionEnd::Closed,
    asked: &[],
};

/// The same without an answer, and with few turns.
const SILENT: Row<&[Word]> = Row {
    budget: 9,
    ..CLOSED
};

const WORKED: Row<&[Word]> = Row {
    input: STREAM,
    answers: &[Word::File, Word::Level, Word::NotPrimary],
    written: &[BEGUN, FILE, READY, END],
    asked: &[0, 1, 1],
    ..CLOSED
};

const ROWS: &[Row<&[Word]>] = &[
    WORKED,
    Row { size: 1, ..WORKED },
    // A level is sent once, and a fault ends the stream without a word.
    Row {
        input: STREAM,
        answers: &[Word::File, Word::Level, Word::Level, Word::Disk],
        written: &[BEGUN, FILE, READY],
        asked: &[0, 1, 1, 1],
        ..CLOSED
    },
    // Behind a drop it begins anew.
    Row {
        input: STREAM_AT_9,
        answers: &[Word::Gone, Word::File, Word::File, Word::NotPrimary],
        written: &[BEGUN, DROP, FILE, FILE, END],
        asked: &[9, 0, 1, 2],
        ..CLOSED
    },
    Row {
        input: STREAM,
        answers: &[Word::NotPrimary],
        written: &[NOT_PRIMARY],
        asked: &[0],
        ..CLOSED
    },
    Row {
        input: STREAM,
        answers: &[Word::Disk],
        written: &[DISK],
        asked: &[0],
        ..CLOSED
    },
    Row {
        input: STREAM,
        answers: &[Word::NoMemory],
        written: &[FULL],
        asked: &[0],
        ..CLOSED
    },
    // The second write is that of the file behind its frame's front.
    Row {
        failing: 2,
        end: SessionEnd::WriteFault,
        written: &[BEGUN, b"\0\0\0\x01\0\0\0\x03\0\0\0\0\0\0\x02\x7capp"],
        asked: &[0],
        ..WORKED
    },
    // A follower that stays level: three Hellos, a read and three writes.
    Row {
        answers: &[],
        input: STREAM_AT_9,
        budget: 7,
        end: SessionEnd::Turns,
        written: &[
            BEGUN,
            b"\0\0\0\x02\0\0\0\x03\0\0\0\0\0\0\0\x10app\0\0\0\0\0\0\0\x09\x80\0\0\0\0\0\0\0",
        ],
        asked: &[9, 9, 9, 9, 9],
        ..WORKED
    },
    // One that was level and is gone is found so before the next Hello, by the third call of its link.
    Row {
        answers: &[],
        input: STREAM_AT_9,
        failing: 2,
        end: SessionEnd::WriteFault,
        written: &[
            BEGUN,
            b"\0\0\0\x02\0\0\0\x03\0\0\0\0\0\0\0\x10app\0\0\0\0\0\0\0\x09\x80\0\0\0\0\0\0\0",
        ],
        asked: &[9],
        ..WORKED
    },
    // The calls of its link are a read, two writes for the file, one for the Ready, and then the look.
    Row {
        failing: 4,
        end: SessionEnd::WriteFault,
        written: &[BEGUN, FILE, READY],
        asked: &[0, 1],
        ..WORKED
    },
    // Calls that are not served, and bodies that do not read.
    Row {
        input: GET,
        written: &[NOT_FOUND],
        ..CLOSED
    },
    Row {
        input: OTHER,
        written: &[NOT_FOUND],
        ..CLOSED
    },
    Row {
        input: b"PUT /stream HTTP/1.1\r\nContent-Length: 3\r\n\r\nabc",
        written: &[NOT_FOUND],
        ..CLOSED
    },
    Row {
        input: UPPER,
        written: &[BAD],
        ..CLOSED
    },
    Row {
        input: SHORT,
        written: &[BAD],
        ..CLOSED
    },
    Row {
        size: 1,
        input: SHORT,
        written: &[BAD],
        ..CLOSED
    },
    // A body that is longer than a line of a stream is.
    Row {
        size: 7,
        input: b"POST /stream HTTP/1.1\r\nContent-Length: 100\r\n\r\n\
            app 0000000000000000/0000000000000000\n\
            app 0000000000000000/0000000000000000\n\
            app 0000000000000000/000",
        written: &[BAD],
        ..CLOSED
    },
    // The call that has a name and is not served. Its body is passed over.
    Row {
        size: 3,
        input: b"POST /lease HTTP/1.1\r\nContent-Length: 2\r\n\r\n{}",
        written: &[NOT_FOUND],
        ..CLOSED
    },
    // Another request behind it is not read.
    Row {
        input: b"GET / HTTP/1.0\r\n\r\nGET / HTTP/1.0\r\n\r\n",
        written: &[NOT_FOUND],
        ..CLOSED
    },
    // No input; none of a head, and none of a body, to the end.
    Row {
        input: b"",
        end: SessionEnd::Closed,
        ..SILENT
    },
    Row {
        input: b"GET / HTT",
        size: 4,
        end: SessionEnd::BadMessage,
        ..SILENT
    },
    Row {
        input: b"PUT / HTTP/1.1\r\nContent-Length: 3\r\n\r\nab",
        size: 99,
        end: SessionEnd::BadMessage,
        ..SILENT
    },
    // A head that is not taken.
    Row {
        input: b"GET / HTTP/1.1\r\nTransfer-Encoding: chunked\r\n\r\n",
        size: 99,
        end: SessionEnd::BadMessage,
        ..SILENT
    },
    // The second call is the second read, or the write.
    Row {
        input: GET,
        size: 9,
        failing: 1,
        end: SessionEnd::ReadFault,
        ..SILENT
    },
    Row {
        input: GET,
        size: 99,
        failing: 1,
        end: SessionEnd::WriteFault,
        ..SILENT
    },
    // No turn for the reply, and none for the body.
    Row {
        input: GET,
        size: 99,
        budget: 1,
        end: SessionEnd::Turns,
        ..SILENT
    },
    Row {
        input: SHORT,
        size: 45,
        budget: 1,
        end: SessionEnd::Turns,
        ..SILENT
    },
];

#[test]
fn sessions(rt: HostRuntime) {
    for row in ROWS {
        let alloc = rt.alloc();
        let script = Vec::from_slice(alloc, row.answers).expect(&rt, "memory");
        has_session(rt, alloc, row, Scripted::new(alloc, script));
    }
}
