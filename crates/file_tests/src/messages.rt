//! Tables of messages and of what is read of them, and replies and how they are written.

mod pieces;
mod replies;
mod requests;

use crate::same::same;
use fuse_msgs::{BadMessage, Op, Reply, Request, decode, encode};
use lf_base::Bytes;
use std::alloc::Global;
use std::process::Abort;
use test_base::hex_bytes;

/// Adds bytes.
fn put<R: Copy + Abort>(rt: R, message: &mut Vec<u8>, bytes: &[u8]) {
    message.extend_from_slice(bytes).expect(&rt, "memory");
}

/// Fills up to a size.
fn fill<R: Copy + Abort>(rt: R, message: &mut Vec<u8>, size: usize, byte: u8) {
    message.resize(size, byte).expect(&rt, "memory");
}

/// The bytes that a text of hexadecimal digits and blanks stands for.
fn hex<R: Copy + Abort>(rt: R, alloc: Global, text: &[u8]) -> Vec<u8> {
    hex_bytes(alloc, &[text]).expect(&rt, "memory")
}

/// The first `size` bytes of a message, filled up with ones, with this length field.
fn with_len<R: Copy + Abort>(
    rt: R,
    alloc: Global,
    bytes: &[u8],
    size: usize,
    field: usize,
) -> Vec<u8> {
    let field = u32::try_from(field).unwrap_or(0);
    let mut message = Vec::new(alloc);
    put(rt, &mut message, &field.to_le_bytes());
    put(rt, &mut message, bytes.get(4..).unwrap_or(&[]));
    fill(rt, &mut message, size, 1);
    message
}

/// How the operation prints that is read, or the name of the fault.
fn printed<R: Copy + Abort>(rt: R, alloc: Global, bytes: &[u8]) -> String {
    let text = match decode(alloc, bytes) {
        Ok(request) => {
            let op = request.op;
            format!(in alloc; "{op:?}")
        }
        Err(fault) => String::from_str(alloc, name_of(fault)),
    };
    text.expect(&rt, "memory")
}

fn name_of(fault: BadMessage) -> &'static str {
    match fault {
        BadMessage::Short => "Short",
        BadMessage::Length { .. } => "Length",
        BadMessage::Opcode { .. } => "Opcode",
        BadMessage::Body { .. } => "Body",
        BadMessage::NameText { .. } => "NameText",
        BadMessage::NoMemory => "NoMemory",
    }
}

/// READ of the position file: the request.
fn read_request() -> &'static [u8] {
    b"50000000 0f000000 0700000000000000 0600000000000000 00000000 00000000 00000000 00000000 \
      0100000000000000 0000000000000000 00100000 00000000 0000000000000000 00000000 00000000"
}

/// What it reads.
fn position() -> &'static [u8] {
    b"0000000000000001/efb1f44fecd99000\n"
}

#[test]
fn reads_the_position(rt: HostRuntime) {
    let alloc = rt.alloc();
    let message = hex(rt, alloc, read_request());
    let request = decode(alloc, message.as_slice()).expect(&rt, "a request");
    let wanted = Request {
        unique: 7,
        node: 6,
        pid: 0,
        op: Op::Read {
            fh: 1,
            at: 0,
            size: 4096,
            owner: None,
        },
    };
    same(
        rt,
        (request.equals(&wanted), request.op.equals(&Op::Getattr)),
        (true, false),
    );
}

#[test]
fn tells_the_position(rt: HostRuntime) {
    let alloc = rt.alloc();
    let bytes = Bytes::of(Vec::from_slice(alloc, position()).expect(&rt, "memory"));
    assert!(rt; bytes.as_slice().len() == 34);
    let reply = Reply::Bytes { bytes };
    same(
        rt,
        (reply.equals(&reply), reply.equals(&Reply::Empty)),
        (true, false),
    );
    let mut out = Vec::new(alloc);
    same(rt, encode(alloc, &reply, 7, &mut out).is_ok(), true);
    let mut wanted = hex(rt, alloc, b"32000000 00000000 0700000000000000");
    put(rt, &mut wanted, position());
    same(rt, out.as_slice(), wanted.as_slice());
}

/// The fault of a message.
fn fault(alloc: Global, message: Vec<u8>) -> Option<BadMessage> {
    decode(alloc, message.as_slice()).err()
}

#[test]
fn refuses_the_first_fault(rt: HostRuntime) {
    let alloc = rt.alloc();
    let read = hex(rt, alloc, read_request());
    let short = fault(alloc, with_len(rt, alloc, &read, 39, 39));
    same(rt, short, Some(BadMessage::Short));
    let length = fault(alloc, with_len(rt, alloc, &read, 80, 79));
    same(rt, length, Some(BadMessage::Length { len: 79 }));
    let opcode = fault(
        alloc,
        hex(
            rt,
            alloc,
            b"28000000 1c000000 0700000000000000 0000000000000000 0000000000000000 0000000000000000",
        ),
    );
    same(
        rt,
        opcode,
        Some(BadMessage::Opcode {
            opcode: 28,
            unique: 7,
        }),
    );
    let name = fault(
        alloc,
        hex(
            rt,
            alloc,
            b"2b000000 01000000 0700000000000000 0000000000000000 0000000000000000 0000000000000000 617070",
        ),
    );
    same(rt, name, Some(BadMessage::NameText { unique: 7 }));
}

/// A message of this opcode with a body of this many bytes, each of them 97, before `end`.
fn message<R: Copy + Abort>(
    rt: R,
    alloc: Global,
    opcode: u32,
    fields: &[u8],
    size: usize,
    end: &[u8],
) -> Vec<u8> {
    let mut message = hex(rt, alloc, b"00000000");
    put(rt, &mut message, &opcode.to_le_bytes());
    fill(rt, &mut message, 40, 0);
    put(rt, &mut message, fields);
    let filled = message.len().saturating_add(size);
    fill(rt, &mut message, filled, 97);
    put(rt, &mut message, end);
    let len = message.len();
    with_len(rt, alloc, message.as_slice(), len, len)
}

#[test]
fn bounds_of_names(rt: HostRuntime) {
    let alloc = rt.alloc();
    for (size, good) in [(0usize, false), (1, true), (80, true), (81, false)] {
        let refused = fault(alloc, message(rt, alloc, 1, &[], size, &[0]));
        same(rt, (size, refused.is_none()), (size, good));
    }
}

/// The fields of WRITE with so many bytes.
fn write_fields<R: Copy + Abort>(rt: R, alloc: Global, size: u32) -> Vec<u8> {
    let mut fields = Vec::new(alloc);
    fill(rt, &mut fields, 16, 0);
    put(rt, &mut fields, &size.to_le_bytes());
    fill(rt, &mut fields, 40, 0);
    fields
}

#[test]
fn bounds_of_data(rt: HostRuntime) {
    let alloc = rt.alloc();
    for (size, good) in [(0u32, true), (131_072, true), (131_073, false)] {
        let fields = write_fields(rt, alloc, size);
        let refused = fault(alloc, message(rt, alloc, 16, &fields, size as usize, &[]));
        same(rt, (size, refused.is_none()), (size, good));
    }
}
