//! A request read to the end of its body.
ghost use Rattle.std.specs.Prelude.{◌≡◌, [], true, drop, ℕ, List, IfOk, MatchBool};
ghost use Rattle.std.specs.Io.KnownBytes.{Keeps};
ghost use Rattle.link_session.specs.Reading.{EndsReading};
ghost use Rattle.link_session.specs.Spending.{MovesFor};
ghost use Rattle.stream_wire.specs.declared.call.Call.{Call};
ghost use Rattle.stream_wire.specs.Head.{IsRequest, NeverTakesRequest};
ghost use Rattle.http_exchange.specs.Called.{IsPart, KeepsBody, LeavesUnread, ReadsBody, WasCalled};
ghost use Rattle.http_exchange.specs.Reading.{EndsFewer};

use crate::body::read_sized;
use crate::call_head::read_call_head;
use crate::called::{Body, Called};
use crate::passing::pass_over;
use crate::wants::{Kept, Wants};
use lf_base::{Bytes, Link, SessionEnd};
use link_session::{Piece, Turns};
use std::alloc::Global;

/// Reads a request to the end of its body, and keeps its head, and of the body what is wanted. Each read
/// is a turn.
///
/// Closed at the end of input before the first byte; BadMessage where the input begins no head that
/// is taken, or ends inside the request. A body that is too long to be kept whole is not read.
pub fn read_call<L: Link, W: Wants>(
    alloc: Global,
    link: &mut L,
    turns: &mut Turns,
    wants: &W,
) -> Result<Called, SessionEnd>
    ensures read { IfOk result (WasCalled W.Wants wants.now (L.left link.old) (L.left link.new)) }
    ensures taken { Keeps (L.taken link.old) (L.taken link.new) }
    ensures spent { MovesFor result turns.old (L.moves link.old) turns.new (L.moves link.new) }
    ensures cause { EndsReading true IsPart NeverTakesRequest (L.left link.old) (L.left link.new) (L.faults link.old) (L.faults link.new) turns.new result }
{
    let mut piece = match Piece::new(alloc) {
        Ok(piece) => piece,
        Err(_) => return Err(SessionEnd::NoMemory),
    };
    let mut held = Vec::new(alloc);
    let head = match read_call_head(alloc, link, &mut piece, &mut held, turns) {
        Ok(head) => head,
        Err(end) => return Err(end),
    };
    let (_, behind) = held.as_slice().split_at(head.used);
    let kept = wants.keeps(&head.call);
    match read_call_body(alloc, link, &mut piece, behind, head.length, kept, turns) {
        Ok(body) => {
            held.truncate(head.used);
            Ok(Called {
                head: Bytes::of(held),
                call: head.call,
                body,
            })
        }
        Err(end) => Err(end),
    }
}

/// Reads the body of a request, of which these bytes came behind its head.
fn read_call_body<L: Link>(
    alloc: Global,
    link: &mut L,
    piece: &mut Piece,
    behind: &[u8],
    length: u64,
    kept: Kept,
    turns: &mut Turns,
) -> Result<Body, SessionEnd>
    requires { piece.old ≡ [] }
    ensures body { IfOk result (λ body. (bytes : List ℕ) (size : ℕ) (call : Call) → IsRequest bytes size call length → behind.now ≡ drop size bytes
        → ReadsBody kept bytes size length (L.left link.old) (L.left link.new) body) }
    ensures taken { Keeps (L.taken link.old) (L.taken link.new) }
    ensures spent { MovesFor result turns.old (L.moves link.old) turns.new (L.moves link.new) }
    ensures cause { EndsFewer L.Link link.old link.new behind.now length turns.new result }
{
    if is_unread(kept, length) {
        return Ok(Body::Unread);
    }
    if !is_kept(kept, length) {
        return match pass_over(link, piece, behind, length, turns) {
            Ok(()) => Ok(Body::Passed),
            Err(end) => Err(end),
        };
    }
    let mut body = match Vec::from_slice(alloc, behind) {
        Ok(body) => body,
        Err(_) => return Err(SessionEnd::NoMemory),
    };
    match read_sized(link, piece, &mut body, length, turns) {
        Ok(()) => Ok(Body::Whole(Bytes::of(body))),
        Err(end) => Err(end),
    }
}

/// Whether a body of this length is not read.
fn is_unread(kept: Kept, length: u64) -> bool
    ensures { MatchBool result (LeavesUnread kept length) (LeavesUnread kept length → ⊥) }
{
    match kept {
        Kept::All(limit) => length > limit,
        Kept::Nothing | Kept::Line(_) => false,
    }
}

/// Whether a body of this length is kept.
fn is_kept(kept: Kept, length: u64) -> bool
    ensures { MatchBool result (KeepsBody kept length) (KeepsBody kept length → ⊥) }
{
    match kept {
        Kept::All(limit) | Kept::Line(limit) => length <= limit,
        Kept::Nothing => false,
    }
}
