//! `POST /stream`: the stream of the database, to a follower.
ghost use Rattle.std.specs.Prelude.{◌≡◌, Err, IfOk};
ghost use Rattle.std.specs.Io.KnownBytes.{Keeps};
ghost use Rattle.lf_base.specs.Name.{IsName};
ghost use Rattle.lf_base.specs.declared.session_end.SessionEnd.TheVariants as ends;
ghost use Rattle.link_session.specs.Sessions.{asker_of, stand_of, SessionGoesOn};
ghost use Rattle.link_session.specs.Stands.{Spends};
ghost use Rattle.stream_wire.specs.StreamLine.{stream_line};
ghost use Rattle.http_exchange.specs.declared.wants.Kept.TheVariants as kept;
ghost use Rattle.stream_primary.specs.Request.{CameOf, Request};
ghost use Rattle.stream_primary.specs.StreamCall.{heard, Says, ServesStream, Wants, line_max};

use crate::names::is_same;
use crate::replies::refuse;
use crate::streaming::stream;
use http_exchange::Body;
use lf_base::{Bytes, Clock, Link, Name, NoMemory, Pause, Pos, SessionEnd};
use link_session::{Session, Steps};
use node_core::{Answer, Ask, Whereabouts};
use std::alloc::Global;
use stream_wire::{LastFile as Said, last_file_in, read_stream_line};
use txn_log::LastFile;

/// The most bytes of the line that asks for a stream.
pub const LINE_MAX: u64 = 99;

/// The status of the stream of another database.
const NOT_FOUND: u16 = 404;

/// The status of a body that is no line of a stream.
const BAD_REQUEST: u16 = 400;

/// What a request for a stream asks.
#[derive(Clone, Copy, Debug, PartialEq, Eq)]
pub enum Wish {
    /// The stream of the database from this position on.
    Stream(Pos),
    /// The stream of another database.
    OtherDatabase,
    /// Its body is no line that asks for a stream.
    NoLine,
}

/// Serves a request for a stream, to the end of its session.
pub fn serve_stream<S: Steps<Ask = Ask, Answer = Answer>, L: Link, C: Clock, P: Pause>(
    session: &mut Session<L, C, P>,
    steps: &mut S,
    name: &Name,
    head: &Bytes,
    body: &Body,
) -> SessionEnd
    ensures serves { (request : Request) → head.now ≡ request.head → CameOf (kept.Line line_max) request.body body.now
        → ServesStream (asker_of S.Steps C.Clock session.old steps.old) name.now request (stand_of S.Steps L.Link session.old steps.old)
        (stand_of S.Steps L.Link session.new steps.new) session.new.turns result }
    ensures left { Keeps (L.left session.old.link.now) (L.left session.new.link.now) }
    ensures same { SessionGoesOn S.Steps C.Clock session.old session.new steps.old steps.new }
    ensures spent { Spends {T = Unit {0}} session.old.turns (stand_of S.Steps L.Link session.old steps.old) session.new.turns (stand_of S.Steps L.Link session.new steps.new) (Err result) }
    ensures worn { result ≡ ends.Worn → S.is_worn steps.new }
{
    match wish_of(session.alloc, name, body) {
        Ok(Wish::Stream(pos)) => {
            let last = last_in(head.as_slice());
            stream(session, steps, name, Whereabouts { pos, last })
        }
        Ok(Wish::OtherDatabase) => {
            refuse(session.alloc, session.link, NOT_FOUND, &mut session.turns)
        }
        Ok(Wish::NoLine) => { refuse(session.alloc, session.link, BAD_REQUEST, &mut session.turns) }
        Err(_) => SessionEnd::NoMemory,
    }
}

/// What the head of a request says of the follower's last file.
fn last_in(head: &[u8]) -> Option<LastFile>
    ensures { Says head.now result }
{
    heard(last_file_in(head))
}

/// The same as the node is asked.
fn heard(said: Option<Said>) -> Option<LastFile>
    ensures { result ≡ heard said }
{
    match said {
        None => None,
        Some(Said::Unknown) => Some(LastFile::Unknown),
        Some(Said::File { min, max, sum }) => Some(LastFile::File { min, max, sum }),
    }
}

/// What a request for a stream asks, by its body.
fn wish_of(alloc: Global, name: &Name, body: &Body) -> Result<Wish, NoMemory>
    ensures { (request : Request) → CameOf (kept.Line line_max) request.body body.now → IfOk result (Wants name.now request) }
{
    match body {
        Body::Whole(line) => wish_in(alloc, name, line.as_slice()),
        Body::Passed | Body::Unread => Ok(Wish::NoLine),
    }
}

/// What this body asks.
fn wish_in(alloc: Global, name: &Name, body: &[u8]) -> Result<Wish, NoMemory>
    ensures { (request : Request) → body.now ≡ request.body → IfOk result (Wants name.now request) }
{
    match read_stream_line(alloc, body) {
        Ok(Some((other, pos))) => Ok(wish_by(name, &other, pos)),
        Ok(None) => Ok(Wish::NoLine),
        Err(_) => Err(NoMemory),
    }
}

/// What the line of this other database and position asks.
fn wish_by(name: &Name, other: &Name, pos: Pos) -> Wish
    ensures { (request : Request) → IsName other.now → request.body ≡ stream_line other.now pos → Wants name.now request result }
{
    if is_same(other, name) {
        Wish::Stream(pos)
    } else {
        Wish::OtherDatabase
    }
}
