//! The calls of a node, one row each in both tables: how much of a call's body is kept, and what
//! serves it.
ghost use Rattle.std.specs.Prelude.{◌≡◌, Err};
ghost use Rattle.std.specs.Io.KnownBytes.{Keeps};
ghost use Rattle.lf_base.specs.declared.session_end.SessionEnd.TheVariants as ends;
ghost use Rattle.link_session.specs.Sessions.{asker_of, stand_of, SessionGoesOn};
ghost use Rattle.link_session.specs.Stands.{Spends};
ghost use Rattle.stream_primary.specs.Calls.{Serves, kept_of};
ghost use Rattle.stream_primary.specs.Request.{CameOfRequest, Request};

use crate::about::About;
use crate::database_calls::{IMPORT_MAX, serve_export, serve_import};
use crate::events::serve_events;
use crate::forward_call::{FORWARD_MAX, file_in, serve_forward};
use crate::halt_calls::{NUMBER_LINE_MAX, number_in, serve_halt, serve_halt_back};
use crate::replies::refuse;
use crate::stream_call::{LINE_MAX, serve_stream};
use crate::watch_call::{serve_info, serve_metrics};
use http_exchange::{Called, Kept, Wants};
use lf_base::{Clock, Link, Pause, SessionEnd};
use link_session::{Session, Steps};
use node_core::{Answer, Ask};
use node_figures::Gauge;
use stream_wire::Call;

/// The status of a call that is not served.
const NOT_FOUND: u16 = 404;

/// The bodies that are kept.
#[derive(Clone, Copy)]
pub struct Bodies;

impl Wants for Bodies {
    ghost keeps = { λ _. kept_of };

    fn keeps(&self, call: &Call) -> Kept {
        match call {
            Call::Stream => Kept::Line(LINE_MAX),
            Call::Halt | Call::HaltBack => Kept::Line(NUMBER_LINE_MAX),
            Call::Tx => Kept::All(FORWARD_MAX),
            Call::Export { .. } => Kept::Nothing,
            Call::Import { .. } => Kept::All(IMPORT_MAX),
            Call::Lease => Kept::Nothing,
            Call::Info => Kept::Nothing,
            Call::Metrics => Kept::Nothing,
            Call::Events => Kept::Nothing,
            Call::Other => Kept::Nothing,
        }
    }
}

/// Serves a request that was read, by its call, to the end of its session.
pub fn serve_call<S: Steps<Ask = Ask, Answer = Answer>, L: Link, C: Clock, P: Pause, G: Gauge>(
    session: &mut Session<L, C, P>,
    steps: &mut S,
    about: &About<G>,
    called: Called,
) -> SessionEnd
    ensures serves { (request : Request) → CameOfRequest (kept_of request.call) request called
        → Serves request.call (asker_of S.Steps C.Clock session.old steps.old) about.now.name request (stand_of S.Steps L.Link session.old steps.old)
        (stand_of S.Steps L.Link session.new steps.new) session.new.turns result }
    ensures left { Keeps (L.left session.old.link.now) (L.left session.new.link.now) }
    ensures same { SessionGoesOn S.Steps C.Clock session.old session.new steps.old steps.new }
    ensures spent { Spends {T = Unit {0}} session.old.turns (stand_of S.Steps L.Link session.old steps.old) session.new.turns (stand_of S.Steps L.Link session.new steps.new) (Err result) }
    ensures worn { result ≡ ends.Worn → S.is_worn steps.new }
{
    let Called { head, call, body } = called;
    let name = &about.name;
    match call {
        Call::Stream => serve_stream(session, steps, name, &head, &body),
        Call::Halt => match number_in(session.alloc, name, &body) {
            Ok(said) => serve_halt(
                session.alloc,
                steps,
                session.link,
                session.clock,
                said,
                &mut session.turns,
            ),
            Err(_) => SessionEnd::NoMemory,
        },
        Call::HaltBack => match number_in(session.alloc, name, &body) {
            Ok(said) => serve_halt_back(
                session.alloc,
                steps,
                session.link,
                session.clock,
                said,
                &mut session.turns,
            ),
            Err(_) => SessionEnd::NoMemory,
        },
        Call::Tx => match file_in(session.alloc, name, body) {
            Ok(said) => serve_forward(
                session.alloc,
                steps,
                session.link,
                session.clock,
                said,
                &mut session.turns,
            ),
            Err(_) => SessionEnd::NoMemory,
        },
        Call::Export { name: other } => serve_export(
            session.alloc,
            steps,
            name,
            session.link,
            &other,
            &mut session.turns,
        ),
        Call::Import { name: other } => serve_import(session, steps, name, &other, body),
        Call::Info => serve_info(session, steps, name, &about.gauge),
        Call::Metrics => serve_metrics(session, steps, &about.gauge),
        Call::Events => serve_events(session, steps, name),
        Call::Lease => refuse(session.alloc, session.link, NOT_FOUND, &mut session.turns),
        Call::Other => refuse(session.alloc, session.link, NOT_FOUND, &mut session.turns),
    }
}
