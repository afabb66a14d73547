//! `POST /tx`: a commit of a node that has a write permit of the primary, as the file that it makes.
ghost use Rattle.std.specs.Prelude.{◌≡◌, ◌≤◌, ℕ, List, Err, IfOk, IfSome, drop, length};
ghost use Rattle.std.specs.Io.KnownBytes.{Keeps};
ghost use Rattle.lf_base.specs.declared.session_end.SessionEnd.TheVariants as ends;
ghost use Rattle.link_session.specs.Stands.{asker, stand, AsksOn, Spends};
ghost use Rattle.http_exchange.specs.declared.wants.Kept.TheVariants as kept;
ghost use Rattle.stream_primary.specs.ForwardCall.{IsFirstLine, SaysFile, ServesForward, forward_max};
ghost use Rattle.stream_primary.specs.Request.{CameOf};

use crate::asking::ask_once;
use crate::halt_calls::{NUMBER_LINE_MAX, Named, number_of};
use crate::replies::refuse;
use http_exchange::Body;
use lf_base::{Bytes, Clock, Link, Name, NoMemory, SessionEnd};
use link_session::{Steps, Turns};
use node_core::{Answer, Ask};
use std::alloc::Global;

/// The most bytes of the line and the file.
pub const FORWARD_MAX: u64 = 2_147_483_648;

/// The status of a line of another database.
const NOT_FOUND: u16 = 404;

/// The status of a body that begins with no such line.
const BAD_REQUEST: u16 = 400;

/// What a body says to the node of a database.
#[derive(Drop)]
pub enum Forwarded {
    /// This number, by a line of the database, and the file behind the line.
    File { number: u64, bytes: Bytes },
    /// Its line is of another database.
    OtherDatabase,
    /// It begins with no such line.
    NoLine,
}

/// Serves a request that a file be committed under a write permit, to the end of its session.
pub fn serve_forward<S: Steps<Ask = Ask, Answer = Answer>, L: Link, C: Clock>(
    alloc: Global,
    steps: &mut S,
    link: &mut L,
    clock: &mut C,
    said: Forwarded,
    turns: &mut Turns,
) -> SessionEnd
    ensures serves { (name body : List ℕ) → SaysFile name body said → ServesForward (asker S.Steps C.Clock steps.old clock.old) name body
        (stand L.Link link.old (S.entries steps.old)) (stand L.Link link.new (S.entries steps.new)) turns.new result }
    ensures left { Keeps (L.left link.old) (L.left link.new) }
    ensures same { AsksOn S.Steps C.Clock steps.old steps.new clock.old clock.new }
    ensures spent { Spends {T = Unit {0}} turns.old (stand L.Link link.old (S.entries steps.old))
        turns.new (stand L.Link link.new (S.entries steps.new)) (Err result) }
    ensures worn { result ≡ ends.Worn → S.is_worn steps.new }
{
    match said {
        Forwarded::File { number, bytes } => {
            let ask = Ask::Forward {
                now: clock.now_ms(),
                number,
                bytes,
            };
            ask_once(alloc, steps, link, &ask, turns)
        }
        Forwarded::OtherDatabase => refuse(alloc, link, NOT_FOUND, turns),
        Forwarded::NoLine => refuse(alloc, link, BAD_REQUEST, turns),
    }
}

/// What a body says to the node of this database.
pub fn file_in(alloc: Global, name: &Name, body: Body) -> Result<Forwarded, NoMemory>
    ensures { (content : List ℕ) → CameOf (kept.All forward_max) content body → IfOk result (SaysFile name.now content) }
{
    match body {
        Body::Whole(bytes) => file_of(alloc, name, bytes),
        // None is: it is kept whole, or the call isn't served.
        Body::Passed | Body::Unread => Ok(Forwarded::NoLine),
    }
}

/// What this body says. The file stays where the body was.
fn file_of(alloc: Global, name: &Name, body: Bytes) -> Result<Forwarded, NoMemory>
    ensures { IfOk result (SaysFile name.now body) }
{
    let Some(len) = line_len(body.as_slice()) else {
        return Ok(Forwarded::NoLine);
    };
    let (line, _) = body.as_slice().split_at(len);
    match number_of(alloc, name, line) {
        Ok(Named::Number(number)) => Ok(Forwarded::File {
            number,
            bytes: behind(body, len),
        }),
        Ok(Named::OtherDatabase) => Ok(Forwarded::OtherDatabase),
        Ok(Named::NoLine) => Ok(Forwarded::NoLine),
        Err(_) => Err(NoMemory),
    }
}

/// The length of the first line, its newline with it, where one is as short as a line that names a
/// database and a number.
fn line_len(body: &[u8]) -> Option<usize>
    ensures first { IsFirstLine body.now result }
    ensures within { IfSome result (λ len. len ≤ length body.now) }
{
    let most = body.len().min(NUMBER_LINE_MAX as usize);
    for at in 0..most {
        if body[at] == b'\n' {
            return Some(at + 1);
        }
    }
    None
}

/// The bytes behind the first ones, in their place.
fn behind(bytes: Bytes, first: usize) -> Bytes
    requires { first ≤ length bytes }
    ensures { result ≡ drop first bytes }
{
    let mut rest = bytes.into_vec();
    let len = rest.len() - first;
    rest.rotate_left(first);
    rest.truncate(len);
    Bytes::of(rest)
}
