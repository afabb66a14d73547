//! A table of commits under a write permit over HTTP: what came, what was written, how it ended and what the node was asked.
use crate::halts::{ASKED, Permitting, Word};
use crate::replies::{
    BAD, BEHIND, HALT_GONE, HELD, LIMIT, LTX, NOT_FOUND, NOT_PRIMARY, ODD, POSITION, SUM_DIFFERS,
    TOO_LONG,
};
use crate::sessions::{Row, has_session};
use lf_base::SessionEnd;

/// A commit that is applied, where a row says nothing else. Its file has newlines too.
const FORWARDED: Row<Word> = Row {
    input: b"POST /tx HTTP/1.1\r\nContent-Length: 26\r\n\r\napp 0000000000000001\nLTX\n\n",
    answers: Word::Applied,
    written: &[POSITION],
    asked: b"file of 1 at 5, LTX\n\n",
    ..ASKED
};

/// A request for which the node isn't asked.
const UNASKED: Row<Word> = Row {
    asked: b"",
    ..FORWARDED
};

const ROWS: &[Row<Word>] = &[
    FORWARDED,
    Row {
        answers: Word::Behind,
        written: &[BEHIND],
        ..FORWARDED
    },
    // The permit of another number.
    Row {
        input: b"POST /tx HTTP/1.1\r\nContent-Length: 24\r\n\r\napp 0000000000000002\nLTX",
        answers: Word::HaltGone,
        written: &[HALT_GONE],
        asked: b"file of 2 at 5, LTX",
        ..FORWARDED
    },
    Row {
        answers: Word::Held,
        written: &[HELD],
        ..FORWARDED
    },
    Row {
        answers: Word::SumDiffers,
        written: &[SUM_DIFFERS],
        ..FORWARDED
    },
    Row {
        answers: Word::Ltx,
        written: &[LTX],
        ..FORWARDED
    },
    Row {
        answers: Word::Limit,
        written: &[LIMIT],
        ..FORWARDED
    },
    Row {
        answers: Word::NotPrimary,
        written: &[NOT_PRIMARY],
        ..FORWARDED
    },
    Row {
        answers: Word::Quiet,
        written: &[ODD],
        ..FORWARDED
    },
    // No bytes behind the line.
    Row {
        input: b"POST /tx HTTP/1.1\r\nContent-Length: 21\r\n\r\napp 0000000000000001\n",
        asked: b"file of 1 at 5, ",
        ..FORWARDED
    },
    // The line of another database, and bodies that begin with no such line: digits in upper case, no newline, one too late, and none.
    Row {
        input: b"POST /tx HTTP/1.1\r\nContent-Length: 24\r\n\r\napq 0000000000000001\nLTX",
        written: &[NOT_FOUND],
        ..UNASKED
    },
    Row {
        input: b"POST /tx HTTP/1.1\r\nContent-Length: 24\r\n\r\napp 000000000000000A\nLTX",
        written: &[BAD],
        ..UNASKED
    },
    Row {
        input: b"POST /tx HTTP/1.1\r\nContent-Length: 23\r\n\r\napp 0000000000000001LTX",
        written: &[BAD],
        ..UNASKED
    },
    Row {
        input: b"POST /tx HTTP/1.1\r\nContent-Length: 86\r\n\r\n\
            appappappappappappappappappappappappappappappappappappappappappap 0000000000000001\nLTX",
        written: &[BAD],
        ..UNASKED
    },
    Row {
        input: b"POST /tx HTTP/1.1\r\n\r\n",
        written: &[BAD],
        ..UNASKED
    },
    // A body that is too long is not read, and one that is cut is a bad message.
    Row {
        input: b"POST /tx HTTP/1.1\r\nContent-Length: 2147483649\r\n\r\napp 0000000000000001\nLTX",
        written: &[TOO_LONG],
        ..UNASKED
    },
    Row {
        input: b"POST /tx HTTP/1.1\r\nContent-Length: 26\r\n\r\napp 0000000000000001\nLTX\n",
        written: &[],
        end: SessionEnd::BadMessage,
        ..UNASKED
    },
    // The second call of the link is the reply's head. What was asked stays asked.
    Row {
        failing: 1,
        written: &[],
        end: SessionEnd::WriteFault,
        ..FORWARDED
    },
    // No turn for the ask, and none for the reply.
    Row {
        budget: 1,
        written: &[],
        end: SessionEnd::Turns,
        ..UNASKED
    },
    Row {
        budget: 2,
        written: &[],
        end: SessionEnd::Turns,
        ..FORWARDED
    },
];

#[test]
fn forwards(rt: HostRuntime) {
    for row in ROWS {
        has_session(
            rt,
            rt.alloc(),
            row,
            Permitting::new(rt.alloc(), row.answers),
        );
    }
}
