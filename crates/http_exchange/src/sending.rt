//! Requests and replies written.
ghost use Rattle.std.specs.Prelude.{◌≡◌, ◌≤◌, length};
ghost use Rattle.std.specs.Io.KnownBytes.{Keeps};
ghost use Rattle.http.specs.StatusCode.{IsStatusCode};
ghost use Rattle.link_session.specs.Spending.{MovesFor};
ghost use Rattle.stream_wire.specs.Call.{IsNamed};
ghost use Rattle.http_exchange.specs.Writing.{reply, request_text, typed_reply, EndsSending};

use crate::request::Request;
use lf_base::{Link, SessionEnd};
use link_session::{Turns, write_both, write_whole};
use std::alloc::Global;
use stream_wire::{write_head, write_request_head, write_typed_head};

/// Writes a reply with this status and body: its head, and the body from where it stands. Nothing is
/// written where memory runs out.
pub fn write_reply<L: Link>(
    alloc: Global,
    link: &mut L,
    status: u16,
    body: &[u8],
    turns: &mut Turns,
) -> Result<(), SessionEnd>
    requires { IsStatusCode status }
    ensures end { EndsSending (reply status body.now) (L.taken link.old) (L.taken link.new) (L.faults link.old) (L.faults link.new) turns.new result }
    ensures left { Keeps (L.left link.old) (L.left link.new) × Keeps (L.given link.old) (L.given link.new) }
    ensures spent { MovesFor result turns.old (L.moves link.old) turns.new (L.moves link.new) }
{
    let mut head = Vec::new(alloc);
    match write_head(alloc, status, Some(body.len() as u64), &mut head) {
        Ok(()) => {}
        Err(_) => return Err(SessionEnd::NoMemory),
    }
    write_both(link, head.as_slice(), body, turns)
}

/// The same with status 200 and a body of this media type.
pub fn write_typed_reply<L: Link>(
    alloc: Global,
    link: &mut L,
    media_type: &[u8],
    body: &[u8],
    turns: &mut Turns,
) -> Result<(), SessionEnd>
    ensures end { EndsSending (typed_reply media_type.now body.now) (L.taken link.old) (L.taken link.new) (L.faults link.old) (L.faults link.new) turns.new result }
    ensures left { Keeps (L.left link.old) (L.left link.new) × Keeps (L.given link.old) (L.given link.new) }
    ensures spent { MovesFor result turns.old (L.moves link.old) turns.new (L.moves link.new) }
{
    let mut head = Vec::new(alloc);
    match write_typed_head(alloc, 200, media_type, Some(body.len() as u64), &mut head) {
        Ok(()) => {}
        Err(_) => return Err(SessionEnd::NoMemory),
    }
    write_both(link, head.as_slice(), body, turns)
}

/// Writes a request: its head, and both parts of its body from where they stand. Nothing is written
/// where memory runs out.
pub(crate) fn send<L: Link>(
    alloc: Global,
    link: &mut L,
    request: Request<'_>,
    turns: &mut Turns,
) -> Result<(), SessionEnd>
    requires { IsNamed request.call.now }
    ensures end { EndsSending (request_text request.entry.call.now request.entry.host.now request.entry.front.now request.entry.back.now) (L.taken link.old)
        (L.taken link.new) (L.faults link.old) (L.faults link.new) turns.new result }
    ensures left { Keeps (L.left link.old) (L.left link.new) × Keeps (L.given link.old) (L.given link.new) }
    ensures turns { turns.new ≤ turns.old }
{
    let mut head = Vec::new(alloc);
    let length = request.front.len() as u64 + request.back.len() as u64;
    match write_request_head(alloc, request.call, request.host, length, &mut head) {
        Ok(()) => {}
        Err(_) => return Err(SessionEnd::NoMemory),
    }
    match write_whole(link, head.as_slice(), turns) {
        Ok(()) => write_both(link, request.front, request.back, turns),
        Err(end) => Err(end),
    }
}
