//! The stream of another node, applied to this one.
ghost use Rattle.std.specs.Prelude.{◌≡◌};
ghost use Rattle.link_session.specs.Seats.{FoundWorn, HasGoneOn};
ghost use Rattle.link_session.specs.Sessions.{Borrows};
ghost use Rattle.link_session.specs.Stands.{stand};
ghost use Rattle.turn_desk.specs.Seats.{view, number_of, opened_on};
ghost use Rattle.replica_apply.specs.declared.follow_end.FollowEnd.TheVariants as ends;
ghost use Rattle.replica_apply.specs.Following.{Follows};

use crate::follow_end::FollowEnd;
use crate::following::follow_link;
use lf_base::{Clock, Link, Name, Pause};
use link_session::{AtSeat, Session};
use node_core::{Answer, Ask};
use std::sync::Wait;
use turn_desk::Machine;

/// Follows the stream of another node over the session's link, and applies it to this one, which may be any machine that answers
/// the asks of a node.
///
/// It asks where the node stands, and asks the other for what leads on from there; with that it says what
/// the last file of its log is, or that its position is unknown. It asks the node each
/// file and each drop, again after a nap while a lock holds it back. It goes on only after one is
/// applied. Each turn of the session is a call of the link that moves bytes, or an ask.
pub fn follow<R: Wait + Copy, M: Machine<Ask = Ask, Answer = Answer>, L: Link, C: Clock, P: Pause>(
    session: &mut Session<L, C, P>,
    at: &mut AtSeat<M, R>,
    name: &Name,
    unknown: bool,
) -> FollowEnd
    ensures follows { Follows (record { caller = number_of at.old.seat.now; may = C.may_give session.old.clock.now }) name.now unknown session.old.turns
        (stand L.Link session.old.link.now (view at.old.seat.now).mine) (stand L.Link session.new.link.now (view at.new.seat.now).mine) result }
    ensures worn { result ≡ ends.Worn → FoundWorn at.new.seat.now }
    ensures history { HasGoneOn M.steps (opened_on at.old.desk.now) (number_of at.new.seat.now) (view at.old.seat.now) (view at.new.seat.now) }
    ensures seat { (at.new.desk.now ≡ at.old.desk.now) × (at.new.seat.ghost_name ≡ at.old.seat.ghost_name)
        × (number_of at.new.seat.now ≡ number_of at.old.seat.now) }
    ensures clock { C.may_give session.new.clock.now ≡ C.may_give session.old.clock.now }
    ensures borrows { Borrows session.old session.new }
{
    at.look();
    follow_link(session, at, name, unknown)
}
