//! One that asks steps, and is heard.
ghost use Rattle.std.specs.Prelude.{◌≡◌};
ghost use Rattle.link_session.specs.Seats.{FoundWorn, Gives, HasGoneOn, HasSeen};
ghost use Rattle.link_session.specs.Sessions.{Borrows};
ghost use Rattle.link_session.specs.Stands.{stand};
ghost use Rattle.lf_base.specs.declared.session_end.SessionEnd.TheVariants as session_ends;
ghost use Rattle.replica_apply.specs.Following.{Follows};
ghost use Rattle.replica_apply.specs.declared.follow_end.FollowEnd.TheVariants as follow_ends;
ghost use Rattle.stream_primary.specs.Session.{IsSession};
ghost use Rattle.turn_desk.specs.Seats.{view, number_of, opened_on, IsOf};

use lf_base::{Clock, Link, Name, Pause, SessionEnd};
use link_session::{SeatPlace, Session, Steps};
use node_core::{Answer, Ask};
use node_figures::Gauge;
use replica_apply::{FollowEnd, follow_link};
use std::sync::Wait;
use stream_primary::{About, serve_link};
use turn_desk::{Desk, Machine, Seat, Worn};

/// Hears what is asked of a node, and what it answers.
pub trait Hear {
    fn hear(&mut self, ask: &Ask, answer: &Answer);
}

/// Which seat, at which desk, and by whom it is heard. It exists in contracts alone.
pub struct HeardPlace<D> {
    pub place: SeatPlace<D>,
    pub hears: u64,
}

/// A seat at its desk, as one that asks steps. Each ask that is answered is heard.
#[derive(Drop)]
pub struct HeardSeat<'r, 'a, 'h, M: Machine, R, H> {
    pub rt: &'r R,
    pub desk: &'a Desk<M>,
    pub seat: &'a mut Seat<M>,
    pub hears: &'h mut H,
    pub ghost at: { IsOf seat.now desk.now },
}

impl<M: Machine<Ask = Ask, Answer = Answer>, R: Wait + Copy, H: Hear> Steps
    for HeardSeat<'_, '_, '_, M, R, H> {
    type Ask = Ask;

    type Answer = Answer;

    type Outside = HeardPlace<Desk<M>>;

    ghost entries = { λ s. (view s.seat.now).mine };

    ghost number = { λ s. number_of s.seat.now };

    ghost of = { λ s. record { place = record { seat = s.seat.ghost_name; desk = s.desk.now }; hears = s.hears.ghost_name } };

    ghost goes_on = { λ s. HasSeen M.steps (opened_on s.desk.now) (view s.seat.now).seen };

    ghost is_worn = { λ s. FoundWorn s.seat.now };

    ghost gives = { Gives M.steps };

    fn ask(&mut self, ask: &Ask) -> Result<Answer, Worn> {
        let answered = self.desk.step(*self.rt, self.seat, ask);
        tell(self.hears, ask, &answered);
        answered
    }
}

/// A link whose session is heard, and the pause of that session.
#[derive(Drop)]
pub struct Heard<L, P, H> {
    pub link: L,
    pub pause: P,
    pub hears: H,
}

/// Lets an ask be heard that was answered.
fn tell<H: Hear>(hears: &mut H, ask: &Ask, answered: &Result<Answer, Worn>) {
    if let Ok(answer) = answered {
        hears.hear(ask, answer);
    }
}

/// Follows the stream of another node over the session's link, by the seat, to its end; it is heard.
pub fn follow_heard<
    R: Wait + Copy,
    M: Machine<Ask = Ask, Answer = Answer>,
    L: Link,
    C: Clock,
    P: Pause,
    H: Hear,
>(
    session: &mut Session<L, C, P>,
    at: &mut HeardSeat<M, R, H>,
    name: &Name,
    unknown: bool,
) -> FollowEnd
    ensures follows { Follows (record { caller = number_of at.old.seat.now; may = C.may_give session.old.clock.now }) name.now unknown session.old.turns
        (stand L.Link session.old.link.now (view at.old.seat.now).mine) (stand L.Link session.new.link.now (view at.new.seat.now).mine) result }
    ensures worn { result ≡ follow_ends.Worn → FoundWorn at.new.seat.now }
    ensures history { HasGoneOn M.steps (opened_on at.old.desk.now) (number_of at.new.seat.now) (view at.old.seat.now) (view at.new.seat.now) }
    ensures seat { (at.new.desk.now ≡ at.old.desk.now) × (at.new.seat.ghost_name ≡ at.old.seat.ghost_name)
        × (number_of at.new.seat.now ≡ number_of at.old.seat.now) }
    ensures borrows { Borrows session.old session.new × (at.new.hears.ghost_name ≡ at.old.hears.ghost_name) }
{
    // A look at the desk tells that what the seat has seen is the machine's history.
    at.desk.edition(at.seat);
    follow_link(session, at, name, unknown)
}

/// Serves the one request of the session's link by the seat, to its end; it is heard.
pub fn serve_heard<
    R: Wait + Copy,
    M: Machine<Ask = Ask, Answer = Answer>,
    L: Link,
    C: Clock,
    P: Pause,
    G: Gauge,
    H: Hear,
>(session: &mut Session<L, C, P>, at: &mut HeardSeat<M, R, H>, about: &About<G>) -> SessionEnd
    ensures session { IsSession (record { caller = number_of at.old.seat.now; may = C.may_give session.old.clock.now }) about.now.name session.old.turns
        (stand L.Link session.old.link.now (view at.old.seat.now).mine) (stand L.Link session.new.link.now (view at.new.seat.now).mine) result }
    ensures worn { result ≡ session_ends.Worn → FoundWorn at.new.seat.now }
    ensures history { HasGoneOn M.steps (opened_on at.old.desk.now) (number_of at.new.seat.now) (view at.old.seat.now) (view at.new.seat.now) }
    ensures seat { (at.new.desk.now ≡ at.old.desk.now) × (at.new.seat.ghost_name ≡ at.old.seat.ghost_name)
        × (number_of at.new.seat.now ≡ number_of at.old.seat.now) }
    ensures borrows { Borrows session.old session.new × (at.new.hears.ghost_name ≡ at.old.hears.ghost_name) }
{
    at.desk.edition(at.seat);
    serve_link(session, at, about)
}
