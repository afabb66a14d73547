//! Heads of requests without their bodies.

ghost use Rattle.std.specs.Prelude.{◌≡◌, ◌++◌, codes, decimal, OnOk, OnErr};
ghost use Rattle.std.specs.Io.{StartsWith};
ghost use Rattle.stream_wire.specs.Call.{IsNamed};
ghost use Rattle.stream_wire.specs.LastFile.{last_file_text};
ghost use Rattle.stream_wire.specs.Writing.{line, last_line, request_line, request_head, stream_head};

use crate::head_writing::{put, put_length, put_line, put_request_line};
use crate::{Call, LastFile, write_last_file};
use lf_base::{NoMemory, Text};
use std::alloc::Global;

/// Appends the head of a request whose body of `length` bytes is written from where it stands.
pub fn write_request_head(
    alloc: Global,
    call: &Call,
    host: &Text,
    length: u64,
    out: &mut Vec<u8>,
) -> Result<(), NoMemory>
    requires { IsNamed call.now }
    ensures ok { OnOk result (out.new.items ≡ out.old.items ++ request_head call.now host.now length) }
    ensures err { OnErr result (out.new.items ≡ out.old.items) }
{
    let start = out.len();
    if let Err(error) = put_request_head(alloc, call, host, length, out) {
        out.truncate(start);
        return Err(error);
    }
    Ok(())
}

#[tactic(auto, unfolding(crate::specs::Writing::request_head))]
fn put_request_head(
    alloc: Global,
    call: &Call,
    host: &Text,
    length: u64,
    out: &mut Vec<u8>,
) -> Result<(), NoMemory>
    ensures ok { OnOk result (out.new.items ≡ out.old.items ++ request_head call.now host.now length) }
    ensures grows { StartsWith out.new.items out.old.items }
{
    put_request_line(out, call)?;
    put_line(out, b"Host", host.bytes())?;
    put_length(alloc, length, out)?;
    put(out, b"\r\n")
}

/// Appends the head of a request for a stream whose body has `length` bytes, with what is said of the
/// last file of the follower's log.
pub fn write_stream_head(
    alloc: Global,
    host: &Text,
    length: u64,
    last: Option<LastFile>,
    out: &mut Vec<u8>,
) -> Result<(), NoMemory>
    ensures ok { OnOk result (out.new.items ≡ out.old.items ++ stream_head host.now length last) }
    ensures err { OnErr result (out.new.items ≡ out.old.items) }
{
    let start = out.len();
    if let Err(error) = put_stream_head(alloc, host, length, last, out) {
        out.truncate(start);
        return Err(error);
    }
    Ok(())
}

#[tactic(auto, unfolding(crate::specs::Writing::stream_head))]
fn put_stream_head(
    alloc: Global,
    host: &Text,
    length: u64,
    last: Option<LastFile>,
    out: &mut Vec<u8>,
) -> Result<(), NoMemory>
    ensures ok { OnOk result (out.new.items ≡ out.old.items ++ stream_head host.now length last) }
    ensures grows { StartsWith out.new.items out.old.items }
{
    put_request_line(out, &Call::Stream)?;
    put_line(out, b"Host", host.bytes())?;
    put_length(alloc, length, out)?;
    put_last(last, out)?;
    put(out, b"\r\n")
}

fn put_last(last: Option<LastFile>, out: &mut Vec<u8>) -> Result<(), NoMemory>
    ensures ok { OnOk result (out.new.items ≡ out.old.items ++ last_line last) }
    ensures grows { StartsWith out.new.items out.old.items }
{
    match last {
        Some(last) => put_last_line(last, out),
        None => Ok(()),
    }
}

#[tactic(auto, unfolding(crate::specs::Writing::line))]
fn put_last_line(last: LastFile, out: &mut Vec<u8>) -> Result<(), NoMemory>
    ensures ok { OnOk result (out.new.items ≡ out.old.items ++ line (codes "Litefs-Last-File") (last_file_text last)) }
    ensures grows { StartsWith out.new.items out.old.items }
{
    put(out, b"Litefs-Last-File: ")?;
    write_last_file(last, out)?;
    put(out, b"\r\n")
}
