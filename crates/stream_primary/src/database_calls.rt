//! `GET /export` and `POST /import`: the bytes of the database, and a database in its place.
ghost use Rattle.std.specs.Prelude.{◌≡◌, ℕ, List, Err};
ghost use Rattle.std.specs.Io.KnownBytes.{Keeps};
ghost use Rattle.lf_base.specs.declared.session_end.SessionEnd.TheVariants as ends;
ghost use Rattle.link_session.specs.Sessions.{asker_of, stand_of, SessionGoesOn};
ghost use Rattle.link_session.specs.Stands.{stand, GoesOn, Spends};
ghost use Rattle.http_exchange.specs.declared.wants.Kept.TheVariants as kept;
ghost use Rattle.stream_primary.specs.DatabaseCalls.{ServesExport, ServesImport, import_max};
ghost use Rattle.stream_primary.specs.Request.{CameOf};

use crate::asking::ask_once;
use crate::names::is_same;
use crate::replies::refuse;
use http_exchange::Body;
use lf_base::{Clock, Link, Name, SessionEnd};
use link_session::{Session, Steps, Turns};
use node_core::{Answer, Ask};
use std::alloc::Global;

/// The most bytes of a database that is imported.
pub const IMPORT_MAX: u64 = 2_147_483_648;

/// The status of another database.
const NOT_FOUND: u16 = 404;

/// Serves a request for the bytes of the database of this name, to the end of its session.
pub fn serve_export<S: Steps<Ask = Ask, Answer = Answer>, L: Link>(
    alloc: Global,
    steps: &mut S,
    name: &Name,
    link: &mut L,
    other: &Name,
    turns: &mut Turns,
) -> SessionEnd
    ensures serves { ServesExport (S.number steps.old) name.now other.now (stand L.Link link.old (S.entries steps.old)) (stand L.Link link.new (S.entries steps.new)) turns.new result }
    ensures left { Keeps (L.left link.old) (L.left link.new) }
    ensures same { (S.of steps.new ≡ S.of steps.old) × (S.number steps.new ≡ S.number steps.old) × GoesOn S.Steps steps.old steps.new }
    ensures spent { Spends {T = Unit {0}} turns.old (stand L.Link link.old (S.entries steps.old)) turns.new (stand L.Link link.new (S.entries steps.new)) (Err result) }
    ensures worn { result ≡ ends.Worn → S.is_worn steps.new }
{
    if is_same(other, name) {
        ask_once(alloc, steps, link, &Ask::Export, turns)
    } else {
        refuse(alloc, link, NOT_FOUND, turns)
    }
}

/// Serves a request that its body be the database of this name, to the end of its session.
pub fn serve_import<S: Steps<Ask = Ask, Answer = Answer>, L: Link, C: Clock, P>(
    session: &mut Session<L, C, P>,
    steps: &mut S,
    name: &Name,
    other: &Name,
    body: Body,
) -> SessionEnd
    ensures serves { (bytes : List ℕ) → CameOf (kept.All import_max) bytes body
        → ServesImport (asker_of S.Steps C.Clock session.old steps.old) name.now other.now bytes (stand_of S.Steps L.Link session.old steps.old)
        (stand_of S.Steps L.Link session.new steps.new) session.new.turns result }
    ensures left { Keeps (L.left session.old.link.now) (L.left session.new.link.now) }
    ensures same { SessionGoesOn S.Steps C.Clock session.old session.new steps.old steps.new }
    ensures spent { Spends {T = Unit {0}} session.old.turns (stand_of S.Steps L.Link session.old steps.old) session.new.turns (stand_of S.Steps L.Link session.new steps.new) (Err result) }
    ensures worn { result ≡ ends.Worn → S.is_worn steps.new }
{
    if !is_same(other, name) {
        return refuse(session.alloc, session.link, NOT_FOUND, &mut session.turns);
    }
    match body {
        Body::Whole(bytes) => {
            let ask = Ask::Import {
                now: session.clock.now_ms(),
                bytes,
            };
            ask_once(session.alloc, steps, session.link, &ask, &mut session.turns)
        }
        // None is: it is kept whole, or the call isn't served.
        Body::Passed | Body::Unread => {
            refuse(session.alloc, session.link, NOT_FOUND, &mut session.turns)
        }
    }
}
