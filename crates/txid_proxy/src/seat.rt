//! A session by a seat of a desk, whose machine answers the asks of a node.
ghost use Rattle.std.specs.Prelude.{◌≡◌};
ghost use Rattle.lf_base.specs.declared.session_end.SessionEnd.TheVariants as ends;
ghost use Rattle.link_session.specs.Seats.{FoundWorn, HasGoneOn};
ghost use Rattle.turn_desk.specs.Seats.{view, number_of, opened_on, IsOf};
ghost use Rattle.http_exchange.specs.Exchange.{LinksTell};
ghost use Rattle.txid_proxy.specs.Session.{IsSession, post};

use crate::passage::Passage;
use crate::session::pass_link;
use lf_base::{Clock, Dialer, Handles, Link, Pause, SessionEnd};
use link_session::AtSeat;
use node_core::{Answer, Ask};
use std::alloc::Global;
use turn_desk::{Desk, Machine, Seat};

/// Serves the one request of a link by the seat, to the end of its session.
pub fn pass_seat<
    R: Handles + Copy,
    M: Machine<Ask = Ask, Answer = Answer>,
    L: Link,
    T: Dialer,
    C: Clock,
    P: Pause,
>(
    rt: R,
    alloc: Global,
    desk: &Desk<M>,
    seat: &mut Seat<M>,
    link: &mut L,
    passage: &mut Passage<T, C, P>,
) -> SessionEnd
    requires { IsOf seat.old desk.now }
    ensures session { IsSession (record { caller = number_of seat.old; may = C.may_give passage.old.clock })
        (LinksTell T.L.given T.L.taken) passage.old.budget (post L.Link link.old (view seat.old).mine (T.dials passage.old.dialer)
        (T.faults passage.old.dialer)) (post L.Link link.new (view seat.new).mine (T.dials passage.new.dialer) (T.faults passage.new.dialer)) result }
    ensures worn { result ≡ ends.Worn → FoundWorn seat.new }
    ensures history { HasGoneOn M.steps (opened_on desk.now) (number_of seat.new) (view seat.old) (view seat.new) }
    ensures seat { IsOf seat.new desk.now × (number_of seat.new ≡ number_of seat.old) }
    ensures clock { C.may_give passage.new.clock ≡ C.may_give passage.old.clock }
{
    // A look at the desk tells that what the seat has seen is the machine's history.
    desk.edition(seat);
    let mut steps = AtSeat {
        rt: &rt,
        desk,
        seat,
    };
    pass_link(rt, alloc, &mut steps, link, passage)
}
