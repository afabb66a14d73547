//! A node's lease, by a seat of the desk at which its machine is.

ghost use Rattle.std.specs.Prelude.{◌≡◌, IsErr};
ghost use Rattle.http_exchange.specs.Exchange.{LinksTell};
ghost use Rattle.link_session.specs.Seats.{FoundWorn, HasGoneOn};
ghost use Rattle.turn_desk.specs.Seats.{view, number_of, opened_on};
ghost use Rattle.lease_link.specs.declared.keep_end.KeepEnd.TheVariants as ends;
ghost use Rattle.lease_link.specs.Keeping.{GivesUp, IsRound};
ghost use Rattle.lease_link.specs.Learning.{round_ask};
ghost use Rattle.lease_link.specs.Rounds.{Borrows, round_stand};

use crate::bringing::Bringing;
use crate::giving_up::give_up;
use crate::keep_end::KeepEnd;
use crate::keeping::keep;
use crate::round::Round;
use crate::service::Service;
use lease_core::Grant;
use lf_base::{Clock, Dialer, Handles, NoMemory, Pause};
use link_session::AtSeat;
use turn_desk::Machine;

/// One round of a node with its lease.
///
/// The machine is told that the service is about to be asked. Then the service is asked once: for a later
/// end of the term that the node has, without one for a term where it is a candidate, and else who is
/// primary. What is learned the machine is told: a grant, a loss, the primary's host. Of a fault of
/// the link, and of a reply that is none, it is told nothing. Then comes a nap.
///
/// `own` is this node's, with the term that it has, 0 for none.
pub fn keep_lease<
    R: Handles + Copy,
    M: Machine,
    B: Bringing<Ask = M::Ask>,
    V: Service,
    T: Dialer,
    C: Clock,
    P: Pause,
>(
    at: &mut AtSeat<M, R>,
    round: &mut Round<T, V, C, P>,
    bring: &B,
    own: &Grant,
    candidate: bool,
) -> KeepEnd
where
    M::Ask: Drop,
    M::Answer: Drop,
    ensures round { IsRound B.Bringing V.Service (record { caller = number_of at.old.seat.now; may = C.may_give round.old.clock.now }) (LinksTell T.L.given T.L.taken)
        (round_ask own.now candidate) own.now round.old.turns (round_stand T.Dialer (view at.old.seat.now).mine round.old)
        (round_stand T.Dialer (view at.new.seat.now).mine round.new) result }
    ensures worn { result ≡ ends.Worn → FoundWorn at.new.seat.now }
    ensures history { HasGoneOn M.steps (opened_on at.old.desk.now) (number_of at.new.seat.now) (view at.old.seat.now) (view at.new.seat.now) }
    ensures seat { (at.new.desk.now ≡ at.old.desk.now) × (at.new.seat.ghost_name ≡ at.old.seat.ghost_name)
        × (number_of at.new.seat.now ≡ number_of at.old.seat.now) }
    ensures clock { C.may_give round.new.clock.now ≡ C.may_give round.old.clock.now }
    ensures borrows { Borrows round.old round.new }
{
    // A look at the desk tells that what the seat has seen is the machine's history.
    at.look();
    keep(at.rt, at, round, bring, own, candidate)
}

/// Gives a node's lease up: the machine is told that it is lost, and then the service is asked to end its
/// term, where it has one. How that ends is of no account: a term that isn't given back ends by itself.
///
/// The loss comes first: no other node gets the term while this one believes in it.
pub fn give_up_lease<
    R: Handles + Copy,
    M: Machine,
    B: Bringing<Ask = M::Ask>,
    V: Service,
    T: Dialer,
    C: Clock,
    P,
>(
    at: &mut AtSeat<M, R>,
    round: &mut Round<T, V, C, P>,
    bring: &B,
    own: &Grant,
) -> Result<(), NoMemory>
where
    M::Ask: Drop,
    M::Answer: Drop,
    ensures given { GivesUp B.Bringing V.Service (record { caller = number_of at.old.seat.now; may = C.may_give round.old.clock.now }) (LinksTell T.L.given T.L.taken) own.now round.old.turns
        (FoundWorn at.new.seat.now) (round_stand T.Dialer (view at.old.seat.now).mine round.old)
        (round_stand T.Dialer (view at.new.seat.now).mine round.new) (IsErr result) }
    ensures history { HasGoneOn M.steps (opened_on at.old.desk.now) (number_of at.new.seat.now) (view at.old.seat.now) (view at.new.seat.now) }
    ensures seat { (at.new.desk.now ≡ at.old.desk.now) × (at.new.seat.ghost_name ≡ at.old.seat.ghost_name)
        × (number_of at.new.seat.now ≡ number_of at.old.seat.now) }
    ensures clock { C.may_give round.new.clock.now ≡ C.may_give round.old.clock.now }
    ensures borrows { Borrows round.old round.new }
{
    at.look();
    give_up(at.rt, at, round, bring, own)
}
