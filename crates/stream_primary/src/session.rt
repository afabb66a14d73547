//! A session over one that asks steps: one request, and one reply.
ghost use Rattle.std.specs.Prelude.{◌≡◌, Err, MatchBool};
ghost use Rattle.lf_base.specs.declared.session_end.SessionEnd.TheVariants as ends;
ghost use Rattle.link_session.specs.Sessions.{asker_of, stand_of, SessionGoesOn};
ghost use Rattle.link_session.specs.Stands.{Spends};
ghost use Rattle.http_exchange.specs.declared.called.Body.TheVariants as bodies;
ghost use Rattle.stream_primary.specs.Session.{Ends, IsSession};

use crate::about::About;
use crate::calls::{Bodies, serve_call};
use crate::replies::refuse_too_long;
use http_exchange::{Body, read_call};
use lf_base::{Clock, Link, Pause, SessionEnd};
use link_session::{Session, Steps};
use node_core::{Answer, Ask};
use node_figures::Gauge;

/// Serves one request, to the end of its session.
pub fn serve_link<S: Steps<Ask = Ask, Answer = Answer>, L: Link, C: Clock, P: Pause, G: Gauge>(
    session: &mut Session<L, C, P>,
    steps: &mut S,
    about: &About<G>,
) -> SessionEnd
    ensures session { IsSession (asker_of S.Steps C.Clock session.old steps.old) about.now.name session.old.turns
        (stand_of S.Steps L.Link session.old steps.old) (stand_of S.Steps L.Link session.new steps.new) result }
    ensures same { SessionGoesOn S.Steps C.Clock session.old session.new steps.old steps.new }
    ensures worn { result ≡ ends.Worn → S.is_worn steps.new }
{
    converse(session, steps, about)
}

/// Reads a request and serves it.
fn converse<S: Steps<Ask = Ask, Answer = Answer>, L: Link, C: Clock, P: Pause, G: Gauge>(
    session: &mut Session<L, C, P>,
    steps: &mut S,
    about: &About<G>,
) -> SessionEnd
    ensures ends { Ends (asker_of S.Steps C.Clock session.old steps.old) about.now.name (stand_of S.Steps L.Link session.old steps.old)
        (stand_of S.Steps L.Link session.new steps.new) session.new.turns result }
    ensures same { SessionGoesOn S.Steps C.Clock session.old session.new steps.old steps.new }
    ensures spent { Spends {T = Unit {0}} session.old.turns (stand_of S.Steps L.Link session.old steps.old) session.new.turns (stand_of S.Steps L.Link session.new steps.new) (Err result) }
    ensures worn { result ≡ ends.Worn → S.is_worn steps.new }
{
    let called = match read_call(session.alloc, session.link, &mut session.turns, &Bodies) {
        Ok(called) => called,
        Err(end) => return end,
    };
    if is_unread(&called.body) {
        return refuse_too_long(session.alloc, session.link, &mut session.turns);
    }
    serve_call(session, steps, about, called)
}

/// Whether the body is longer than its call keeps.
fn is_unread(body: &Body) -> bool
    ensures { MatchBool result (body.now ≡ bodies.Unread) (body.now ≡ bodies.Unread → ⊥) }
{
    matches!(body, Body::Unread)
}
