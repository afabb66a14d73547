//! Heads written.

ghost use Rattle.std.specs.Prelude.{◌≡◌, ◌++◌, length, codes, decimal, [], unwrap_or, OnOk, OnErr};
ghost use Rattle.std.specs.Io.{StartsWith};
ghost use Rattle.http.specs.StatusCode.{IsStatusCode, code_digits, reason_phrase};
ghost use Rattle.stream_wire.specs.Call.{IsNamed, method_of, target_of};
ghost use Rattle.stream_wire.specs.Writing.{line, length_line, blank, end_line, version, status_digits, status_line, request_line, reply_head, request_head, type_line, close_lines, typed_head};

use crate::Call;
use http::StatusCode;
use lf_base::{NoMemory, Text};
use std::alloc::Global;

/// Appends the head of a reply. Its body has `length` bytes, or ends with the connection.
pub fn write_head(
    alloc: Global,
    status: u16,
    length: Option<u64>,
    out: &mut Vec<u8>,
) -> Result<(), NoMemory>
    requires { IsStatusCode status }
    ensures ok { OnOk result (out.new.items ≡ out.old.items ++ reply_head status length) }
    ensures err { OnErr result (out.new.items ≡ out.old.items) }
{
    let start = out.len();
    if let Err(error) = put_head(alloc, status, length, out) {
        out.truncate(start);
        return Err(error);
    }
    Ok(())
}

#[tactic(auto, unfolding(crate::specs::Writing::reply_head))]
fn put_head(
    alloc: Global,
    status: u16,
    length: Option<u64>,
    out: &mut Vec<u8>,
) -> Result<(), NoMemory>
    requires { IsStatusCode status }
    ensures ok { OnOk result (out.new.items ≡ out.old.items ++ reply_head status length) }
    ensures grows { StartsWith out.new.items out.old.items }
{
    put_status(out, status)?;
    put_length_if(alloc, length, out)?;
    put_line(out, b"Connection", b"close")?;
    put(out, b"\r\n")
}

#[tactic(auto, unfolding(crate::specs::Writing::status_line))]
fn put_status(out: &mut Vec<u8>, status: u16) -> Result<(), NoMemory>
    requires { IsStatusCode status }
    ensures ok { OnOk result (out.new.items ≡ out.old.items ++ status_line status) }
    ensures grows { StartsWith out.new.items out.old.items }
{
    put_version(out)?;
    put_blank(out)?;
    put_digits(out, status)?;
    put_blank(out)?;
    put(out, reason(status))?;
    put_end(out)
}

/// Appends the head of a reply of this media type. Its body has `length` bytes, or ends with the
/// connection.
pub fn write_typed_head(
    alloc: Global,
    status: u16,
    media_type: &[u8],
    length: Option<u64>,
    out: &mut Vec<u8>,
) -> Result<(), NoMemory>
    requires { IsStatusCode status }
    ensures ok { OnOk result (out.new.items ≡ out.old.items ++ typed_head status media_type.now length) }
    ensures err { OnErr result (out.new.items ≡ out.old.items) }
{
    let start = out.len();
    if let Err(error) = put_typed_head(alloc, status, media_type, length, out) {
        out.truncate(start);
        return Err(error);
    }
    Ok(())
}

#[tactic(auto, unfolding(crate::specs::Writing::typed_head))]
fn put_typed_head(
    alloc: Global,
    status: u16,
    media_type: &[u8],
    length: Option<u64>,
    out: &mut Vec<u8>,
) -> Result<(), NoMemory>
    requires { IsStatusCode status }
    ensures ok { OnOk result (out.new.items ≡ out.old.items ++ typed_head status media_type.now length) }
    ensures grows { StartsWith out.new.items out.old.items }
{
    put_status(out, status)?;
    put_length_if(alloc, length, out)?;
    put_type(out, media_type)?;
    put_close(out)
}

#[tactic(auto, unfolding(crate::specs::Writing::type_line))]
fn put_type(out: &mut Vec<u8>, media_type: &[u8]) -> Result<(), NoMemory>
    ensures ok { OnOk result (out.new.items ≡ out.old.items ++ type_line media_type.now) }
    ensures grows { StartsWith out.new.items out.old.items }
{
    put_line(out, b"Content-Type", media_type)
}

#[tactic(auto, unfolding(crate::specs::Writing::close_lines))]
fn put_close(out: &mut Vec<u8>) -> Result<(), NoMemory>
    ensures ok { OnOk result (out.new.items ≡ out.old.items ++ close_lines) }
    ensures grows { StartsWith out.new.items out.old.items }
{
    put_line(out, b"Connection", b"close")?;
    put(out, b"\r\n")
}

fn put_length_if(alloc: Global, length: Option<u64>, out: &mut Vec<u8>) -> Result<(), NoMemory>
    ensures ok { OnOk result (out.new.items ≡ out.old.items ++ length_line length) }
    ensures grows { StartsWith out.new.items out.old.items }
{
    match length {
        Some(length) => put_length(alloc, length, out),
        None => Ok(()),
    }
}

/// Appends a request with its body.
pub fn write_request(
    alloc: Global,
    call: &Call,
    host: &Text,
    body: &[u8],
    out: &mut Vec<u8>,
) -> Result<(), NoMemory>
    requires { IsNamed call.now }
    ensures ok { OnOk result (out.new.items ≡ out.old.items ++ request_head call.now host.now (length body.now) ++ body.now) }
    ensures err { OnErr result (out.new.items ≡ out.old.items) }
{
    let start = out.len();
    if let Err(error) = put_request(alloc, call, host, body, out) {
        out.truncate(start);
        return Err(error);
    }
    Ok(())
}

#[tactic(auto, unfolding(crate::specs::Writing::request_head))]
fn put_request(
    alloc: Global,
    call: &Call,
    host: &Text,
    body: &[u8],
    out: &mut Vec<u8>,
) -> Result<(), NoMemory>
    ensures ok { OnOk result (out.new.items ≡ out.old.items ++ request_head call.now host.now (length body.now) ++ body.now) }
    ensures grows { StartsWith out.new.items out.old.items }
{
    put_request_line(out, call)?;
    put_line(out, b"Host", host.bytes())?;
    put_length(alloc, body.len() as u64, out)?;
    put(out, b"\r\n")?;
    put(out, body)
}

#[tactic(auto, unfolding(crate::specs::Writing::request_line))]
pub(crate) fn put_request_line(out: &mut Vec<u8>, call: &Call) -> Result<(), NoMemory>
    ensures ok { OnOk result (out.new.items ≡ out.old.items ++ request_line call.now) }
    ensures grows { StartsWith out.new.items out.old.items }
{
    put(out, method_of(call))?;
    put_blank(out)?;
    put_target(call, out)?;
    put_blank(out)?;
    put_version(out)?;
    put_end(out)
}

#[tactic(auto, unfolding(crate::specs::Writing::blank))]
fn put_blank(out: &mut Vec<u8>) -> Result<(), NoMemory>
    ensures ok { OnOk result (out.new.items ≡ out.old.items ++ blank) }
    ensures grows { StartsWith out.new.items out.old.items }
{
    put(out, b" ")
}

#[tactic(auto, unfolding(crate::specs::Writing::end_line))]
fn put_end(out: &mut Vec<u8>) -> Result<(), NoMemory>
    ensures ok { OnOk result (out.new.items ≡ out.old.items ++ end_line) }
    ensures grows { StartsWith out.new.items out.old.items }
{
    put(out, b"\r\n")
}

#[tactic(auto, unfolding(crate::specs::Writing::version))]
fn put_version(out: &mut Vec<u8>) -> Result<(), NoMemory>
    ensures ok { OnOk result (out.new.items ≡ out.old.items ++ version) }
    ensures grows { StartsWith out.new.items out.old.items }
{
    put(out, b"HTTP/1.1")
}

#[tactic(auto, unfolding(crate::specs::Writing::status_digits))]
fn put_digits(out: &mut Vec<u8>, status: u16) -> Result<(), NoMemory>
    requires { IsStatusCode status }
    ensures ok { OnOk result (out.new.items ≡ out.old.items ++ status_digits status) }
    ensures grows { StartsWith out.new.items out.old.items }
{
    put(out, &digits(status))
}

fn method_of(call: &Call) -> &'static [u8]
    ensures { result.now ≡ method_of call.now }
{
    match call {
        Call::HaltBack => b"DELETE",
        Call::Export { .. } | Call::Info | Call::Metrics | Call::Events => b"GET",
        Call::Other => b"",
        _ => b"POST",
    }
}

fn put_target(call: &Call, out: &mut Vec<u8>) -> Result<(), NoMemory>
    ensures ok { OnOk result (out.new.items ≡ out.old.items ++ target_of call.now) }
    ensures grows { StartsWith out.new.items out.old.items }
{
    match call {
        Call::Stream => put(out, b"/stream"),
        Call::Halt | Call::HaltBack => put(out, b"/halt"),
        Call::Tx => put(out, b"/tx"),
        Call::Lease => put(out, b"/lease"),
        Call::Info => put(out, b"/info"),
        Call::Metrics => put(out, b"/metrics"),
        Call::Events => put(out, b"/events"),
        Call::Export { name } => put_both(out, b"/export?name=", name.bytes()),
        Call::Import { name } => put_both(out, b"/import?name=", name.bytes()),
        Call::Other => Ok(()),
    }
}

fn put_both(out: &mut Vec<u8>, path: &[u8], name: &[u8]) -> Result<(), NoMemory>
    ensures ok { OnOk result (out.new.items ≡ out.old.items ++ (path.now ++ name.now)) }
    ensures grows { StartsWith out.new.items out.old.items }
{
    put(out, path)?;
    put(out, name)
}

pub(crate) fn put_length(alloc: Global, length: u64, out: &mut Vec<u8>) -> Result<(), NoMemory>
    ensures ok { OnOk result (out.new.items ≡ out.old.items ++ line (codes "Content-Length") (decimal length)) }
    ensures grows { StartsWith out.new.items out.old.items }
{
    let digits = format!(in alloc; "{length}")?;
    put_line(out, b"Content-Length", digits.as_bytes())
}

#[tactic(auto, unfolding(crate::specs::Writing::line))]
pub(crate) fn put_line(out: &mut Vec<u8>, name: &[u8], value: &[u8]) -> Result<(), NoMemory>
    ensures ok { OnOk result (out.new.items ≡ out.old.items ++ line name.now value.now) }
    ensures grows { StartsWith out.new.items out.old.items }
{
    put(out, name)?;
    put(out, b": ")?;
    put(out, value)?;
    put(out, b"\r\n")
}

pub(crate) fn put(out: &mut Vec<u8>, bytes: &[u8]) -> Result<(), NoMemory>
    ensures ok { OnOk result (out.new.items ≡ out.old.items ++ bytes.now) }
    ensures err { OnErr result (out.new.items ≡ out.old.items) }
    ensures grows { StartsWith out.new.items out.old.items }
{
    out.extend_from_slice(bytes)?;
    Ok(())
}

fn digits(status: u16) -> [u8; 3]
    requires { IsStatusCode status }
    ensures { result ≡ code_digits status }
{
    [
        b'0' + (status / 100) as u8,
        b'0' + (status / 10 % 10) as u8,
        b'0' + (status % 10) as u8,
    ]
}

/// The phrase of the status, as `http` has it.
fn reason(status: u16) -> &'static [u8]
    requires { IsStatusCode status }
    ensures { result.now ≡ unwrap_or (reason_phrase status) [] }
{
    match StatusCode::from_u16(status) {
        Ok(status) => match status.canonical_reason() {
            Some(reason) => reason.as_bytes(),
            None => b"",
        },
        Err(_) => b"",
    }
}
