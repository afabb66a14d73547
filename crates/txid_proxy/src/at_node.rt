//! The proxy at a node.
ghost use Rattle.std.specs.Prelude.{◌≡◌};
ghost use Rattle.lf_base.specs.declared.session_end.SessionEnd.TheVariants as ends;
ghost use Rattle.link_session.specs.Seats.{FoundWorn, HasGoneOn};
ghost use Rattle.turn_desk.specs.Seats.{view, number_of, opened_on, IsOf};
ghost use Rattle.http_exchange.specs.Exchange.{LinksTell};
ghost use Rattle.txid_proxy.specs.Session.{IsSession, post};

use crate::passage::Passage;
use crate::seat::pass_seat;
use lf_base::{Clock, Dialer, Handles, Link, Pause, SessionEnd};
use lf_disk::Disk;
use node_core::Node;
use std::alloc::Global;
use turn_desk::{Desk, Machine, Seat};

/// Passes the one request of a link on, to the end of its session.
///
/// A read, GET or HEAD, waits until the node has the transaction that its cookie `__txid` names; 504 where it
/// has not. A write is passed on where the node takes writes, else 503; its reply comes back with a cookie that
/// names the transaction at which the node stands then. 400 where the input begins no request of HTTP/1.1 with
/// a length or none; 413 past 67,108,864 bytes of a body; 502 where the target gives no reply.
pub fn pass_on<R: Handles + Copy, D: Disk, L: Link, T: Dialer, C: Clock, P: Pause>(
    rt: R,
    alloc: Global,
    desk: &Desk<Node<D>>,
    seat: &mut Seat<Node<D>>,
    link: &mut L,
    passage: &mut Passage<T, C, P>,
) -> SessionEnd
    requires { IsOf seat.old desk.now }
    ensures session { IsSession (record { caller = number_of seat.old; may = C.may_give passage.old.clock })
        (LinksTell T.L.given T.L.taken) passage.old.budget (post L.Link link.old (view seat.old).mine (T.dials passage.old.dialer)
        (T.faults passage.old.dialer)) (post L.Link link.new (view seat.new).mine (T.dials passage.new.dialer) (T.faults passage.new.dialer)) result }
    ensures worn { result ≡ ends.Worn → FoundWorn seat.new }
    ensures history { HasGoneOn ⟦<Node<D> as Machine>⟧.steps (opened_on desk.now) (number_of seat.new) (view seat.old) (view seat.new) }
    ensures seat { IsOf seat.new desk.now × (number_of seat.new ≡ number_of seat.old) }
    ensures clock { C.may_give passage.new.clock ≡ C.may_give passage.old.clock }
{
    pass_seat(rt, alloc, desk, seat, link, passage)
}
