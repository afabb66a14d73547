//! What a request for a stream says of the last file of a log, and the lines of write permits.
use crate::same::{holds, same};
use lf_base::{Pos, Text};
use stream_wire::{
    Call, Heard, LastFile, PassLine, last_file_in, read_named_number, read_pass_line, read_request,
    write_named_number, write_pass_line, write_request_head, write_stream_head,
};
use test_base::database;

/// A request for a stream that says the last file, byte by byte, and what is said without a body.
#[test]
fn a_last_file_is_written(rt: HostRuntime) {
    let alloc = rt.alloc();
    let mut out = Vec::new(alloc);
    let host = Text::of(alloc, "a:1").expect(&rt, "memory");
    let last = LastFile::File {
        min: 10,
        max: 255,
        sum: 0xefb1_f44f_ecd9_9000,
    };
    write_stream_head(alloc, &host, 38, Some(last), &mut out).expect(&rt, "memory");
    let head =
        b"POST /stream HTTP/1.1\r\nHost: a:1\r\nContent-Length: 38\r\nLitefs-Last-File: 000000000000000a-00000000000000ff/efb1f44fecd99000\r\n\r\n";
    same(rt, out.as_slice(), head.as_slice());
    let heard = read_request(alloc, out.as_slice());
    holds(
        rt,
        matches!(&heard, Ok(Heard::Whole { used, call: Call::Stream, length: 38 }) if *used == out.len()),
        "a head",
    );
    same(rt, last_file_in(out.as_slice()), Some(last));
    out.clear();
    write_request_head(alloc, &Call::Tx, &host, 7, &mut out).expect(&rt, "memory");
    let head = b"POST /tx HTTP/1.1\r\nHost: a:1\r\nContent-Length: 7\r\n\r\n";
    same(rt, out.as_slice(), head.as_slice());
    same(rt, last_file_in(out.as_slice()), None);
}

/// What fields say of the last file, behind the request's line.
const LAST_FILES: &[(&str, Option<LastFile>)] = &[
    ("", None),
    ("Litefs-Last-File: unknown\r\n", Some(LastFile::Unknown)),
    (
        "A: b\nlitefs-LAST-file:  0000000000000001-0000000000000002/0000000000000003 \n",
        Some(LastFile::File {
            min: 1,
            max: 2,
            sum: 3,
        }),
    ),
    ("Litefs-Last-File:\r\n", Some(LastFile::Unknown)),
    (
        "Litefs-Last-File: 000000000000000A-000000000000000B/0000000000000003\r\n",
        Some(LastFile::Unknown),
    ),
    (
        "Litefs-Last-File: 0000000000000001/0000000000000002-0000000000000003\r\n",
        Some(LastFile::Unknown),
    ),
    (
        "Litefs-Last-File: 0000000000000001-0000000000000002/0000000000000003\r\nLitefs-Last-File: 0000000000000001-0000000000000002/0000000000000003\r\n",
        Some(LastFile::Unknown),
    ),
];

#[test]
fn last_files_are_read(rt: HostRuntime) {
    let alloc = rt.alloc();
    for (fields, said) in LAST_FILES {
        let head = format!(in alloc; "POST /stream HTTP/1.1\r\n{fields}\r\n").expect(&rt, "memory");
        same(rt, last_file_in(head.as_bytes()), *said);
    }
    same(rt, last_file_in(b"POST /stream HTTP/1.1\r\n"), None);
}

/// The lines of write permits, byte by byte, and read.
#[test]
fn permits_are_written_and_read(rt: HostRuntime) {
    let alloc = rt.alloc();
    let name = database(alloc).expect(&rt, "a name");
    let mut out = Vec::new(alloc);
    write_named_number(&name, 31, &mut out).expect(&rt, "memory");
    same(rt, out.as_slice(), b"app 000000000000001f\n".as_slice());
    let read = read_named_number(alloc, out.as_slice()).expect(&rt, "memory");
    same(rt, read.map(|(_, number)| number), Some(31));
    out.clear();
    let pass = PassLine {
        number: 2,
        until: 10_000,
        pos: Pos { txid: 1, sum: 3 },
    };
    write_pass_line(pass, &mut out).expect(&rt, "memory");
    let line = b"0000000000000002 0000000000002710 0000000000000001/0000000000000003\n";
    same(rt, out.as_slice(), line.as_slice());
    same(rt, read_pass_line(out.as_slice()), Some(pass));
    let behind = b"000000000000002 0000000000002710 0000000000000001/0000000000000003\n";
    same(rt, read_pass_line(behind.as_slice()), None);
    let front = b"0000000000000002 0000000000002710 0000000000000001/0000000000000003";
    same(rt, read_pass_line(front.as_slice()), None);
}
