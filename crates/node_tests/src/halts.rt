//! A table of write permits over HTTP: what came, what was written, how it ended and what the node was asked.
mod permitting;

use crate::replies::{BAD, EMPTY, HALT_GONE, HALT_HELD, HELD, LIMIT, NOT_FOUND, NOT_PRIMARY, ODD};
use crate::sessions::{Row, has_session};
use lf_base::SessionEnd;
pub use permitting::{Permitting, Word};

const ASK: &[u8] = b"POST /halt HTTP/1.1\r\nContent-Length: 21\r\n\r\napp 0000000000000007\n";

const BACK: &[u8] = b"DELETE /halt HTTP/1.1\r\nContent-Length: 21\r\n\r\napp 0000000000000001\n";

const PERMIT: &[u8] = b"HTTP/1.1 200 OK\r\nContent-Length: 68\r\nConnection: close\r\n\r\n\
    0000000000000001 00000000000003ed 0000000000000002/b20aff5e38e38e38\n";

const NEVER: u64 = 999;

/// A permit that is asked for, where a row says nothing else.
pub const ASKED: Row<Word> = Row {
    input: ASK,
    size: 99,
    failing: NEVER,
    budget: 99,
    answers: Word::Pass,
    written: &[PERMIT],
    end: SessionEnd::Closed,
    asked: b"node 7 at 5, where, ",
};

/// One that is refused.
const REFUSED: Row<Word> = Row {
    asked: b"node 7 at 5, ",
    ..ASKED
};

/// One that is given back.
const GIVEN_BACK: Row<Word> = Row {
    input: BACK,
    answers: Word::Quiet,
    written: &[EMPTY],
    asked: b"back 1 at 5, ",
    ..ASKED
};

/// A request for which the node isn't asked.
const UNASKED: Row<Word> = Row {
    asked: b"",
    ..ASKED
};

const ROWS: &[Row<Word>] = &[
    ASKED,
    Row {
        answers: Word::HaltHeld,
        written: &[HALT_HELD],
        ..REFUSED
    },
    Row {
        answers: Word::Held,
        written: &[HELD],
        ..REFUSED
    },
    Row {
        answers: Word::Limit,
        written: &[LIMIT],
        ..REFUSED
    },
    Row {
        answers: Word::NotPrimary,
        written: &[NOT_PRIMARY],
        ..REFUSED
    },
    Row {
        answers: Word::Quiet,
        written: &[ODD],
        ..REFUSED
    },
    GIVEN_BACK,
    Row {
        answers: Word::HaltGone,
        written: &[HALT_GONE],
        ..GIVEN_BACK
    },
    Row {
        answers: Word::NotPrimary,
        written: &[NOT_PRIMARY],
        ..GIVEN_BACK
    },
    Row {
        answers: Word::Pass,
        written: &[ODD],
        ..GIVEN_BACK
    },
    // The line of another database, and bodies that are no such line: digits in upper case, none, and too many bytes.
    Row {
        input: b"POST /halt HTTP/1.1\r\nContent-Length: 21\r\n\r\napq 0000000000000007\n",
        written: &[NOT_FOUND],
        ..UNASKED
    },
    Row {
        input: b"DELETE /halt HTTP/1.1\r\nContent-Length: 21\r\n\r\napq 0000000000000007\n",
        written: &[NOT_FOUND],
        ..UNASKED
    },
    Row {
        input: b"POST /halt HTTP/1.1\r\nContent-Length: 21\r\n\r\napp 000000000000000A\n",
        written: &[BAD],
        ..UNASKED
    },
    Row {
        input: b"DELETE /halt HTTP/1.1\r\n\r\n",
        written: &[BAD],
        ..UNASKED
    },
    Row {
        input: b"POST /halt HTTP/1.1\r\nContent-Length: 83\r\n\r\n\
            appappappappappappappappappappappappappappappappappappappappappap 0000000000000007\n",
        written: &[BAD],
        ..UNASKED
    },
    // The second call of the link is the reply's head.
    Row {
        failing: 1,
        written: &[],
        end: SessionEnd::WriteFault,
        ..ASKED
    },
    // No turn for the ask, none for the position, and none for the reply. A permit that was given stays out.
    Row {
        budget: 1,
        written: &[],
        end: SessionEnd::Turns,
        ..UNASKED
    },
    Row {
        budget: 2,
        written: &[],
        end: SessionEnd::Turns,
        ..REFUSED
    },
    Row {
        budget: 3,
        written: &[],
        end: SessionEnd::Turns,
        ..ASKED
    },
    Row {
        budget: 2,
        written: &[],
        end: SessionEnd::Turns,
        ..GIVEN_BACK
    },
];

#[test]
fn halts(rt: HostRuntime) {
    for row in ROWS {
        has_session(
            rt,
            rt.alloc(),
            row,
            Permitting::new(rt.alloc(), row.answers),
        );
    }
}
