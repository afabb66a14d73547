//! The calls of a node over HTTP.
ghost use Rattle.std.specs.Prelude.{◌≡◌};
ghost use Rattle.lf_base.specs.declared.session_end.SessionEnd.TheVariants as ends;
ghost use Rattle.link_session.specs.Seats.{FoundWorn, HasGoneOn};
ghost use Rattle.link_session.specs.Sessions.{Borrows};
ghost use Rattle.link_session.specs.Stands.{stand};
ghost use Rattle.turn_desk.specs.Seats.{view, number_of, opened_on};
ghost use Rattle.stream_primary.specs.Session.{IsSession};

use crate::about::About;
use crate::session::serve_link;
use lf_base::{Clock, Link, Pause, SessionEnd};
use link_session::{AtSeat, Session};
use node_core::{Answer, Ask};
use node_figures::Gauge;
use std::sync::Wait;
use turn_desk::Machine;

/// Serves the one request of the session's link, to its end. The seat's desk may be of any machine that
/// answers the asks of a node.
///
/// `POST /stream` with a line `name pos` is served: what a follower at this position lacks, file by
/// file, and then each commit as it is made; and `GET /events`: each commit's line. Any other request is
/// answered once. Each turn of the session is a call of the link that moves bytes, or an ask.
pub fn serve_http<
    R: Wait + Copy,
    M: Machine<Ask = Ask, Answer = Answer>,
    L: Link,
    C: Clock,
    P: Pause,
    G: Gauge,
>(session: &mut Session<L, C, P>, at: &mut AtSeat<M, R>, about: &About<G>) -> SessionEnd
    ensures session { IsSession (record { caller = number_of at.old.seat.now; may = C.may_give session.old.clock.now }) about.now.name session.old.turns
        (stand L.Link session.old.link.now (view at.old.seat.now).mine) (stand L.Link session.new.link.now (view at.new.seat.now).mine) result }
    ensures worn { result ≡ ends.Worn → FoundWorn at.new.seat.now }
    ensures history { HasGoneOn M.steps (opened_on at.old.desk.now) (number_of at.new.seat.now) (view at.old.seat.now) (view at.new.seat.now) }
    ensures seat { (at.new.desk.now ≡ at.old.desk.now) × (at.new.seat.ghost_name ≡ at.old.seat.ghost_name)
        × (number_of at.new.seat.now ≡ number_of at.old.seat.now) }
    ensures clock { C.may_give session.new.clock.now ≡ C.may_give session.old.clock.now }
    ensures borrows { Borrows session.old session.new }
{
    at.look();
    serve_link(session, at, about)
}
