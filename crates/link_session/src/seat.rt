//! A seat of a desk, as one that asks steps.
ghost use Rattle.std.specs.Prelude.{◌≡◌};
ghost use Rattle.turn_desk.specs.Calls.{IsSameHistory};
ghost use Rattle.turn_desk.specs.History.{IsLegal};
ghost use Rattle.turn_desk.specs.Seats.{view, number_of, opened_on, IsOf};
ghost use Rattle.link_session.specs.Seats.{FoundWorn, Gives, HasSeen};

use crate::steps::Steps;
use std::sync::Wait;
use turn_desk::{Desk, Machine, Seat, Worn};

/// Which seat, at which desk. It exists in contracts alone.
pub struct SeatPlace<D> {
    pub seat: u64,
    pub desk: D,
}

/// A seat at its desk.
#[derive(Drop)]
pub struct AtSeat<'r, 'a, M: Machine, R> {
    pub rt: &'r R,
    pub desk: &'a Desk<M>,
    pub seat: &'a mut Seat<M>,
    pub ghost at: { IsOf seat.now desk.now },
}

impl<M: Machine, R> AtSeat<'_, '_, M, R> {
    /// A look at the desk: what the seat has seen is the machine's history then.
    pub fn look(&mut self)
        ensures legal { IsLegal M.steps (opened_on self.new.desk.now) (view self.new.seat.now).seen }
        ensures same { IsSameHistory (view self.old.seat.now) (view self.new.seat.now) }
        ensures number { number_of self.new.seat.now ≡ number_of self.old.seat.now }
        ensures seat { self.new.seat.ghost_name ≡ self.old.seat.ghost_name }
        ensures desk { self.new.desk.now ≡ self.old.desk.now }
    {
        self.desk.edition(self.seat);
    }
}

impl<M: Machine, R: Wait + Copy> Steps for AtSeat<'_, '_, M, R> {
    type Ask = M::Ask;

    type Answer = M::Answer;

    type Outside = SeatPlace<Desk<M>>;

    ghost entries = { λ s. (view s.seat.now).mine };

    ghost number = { λ s. number_of s.seat.now };

    ghost of = { λ s. record { seat = s.seat.ghost_name; desk = s.desk.now } };

    ghost goes_on = { λ s. HasSeen M.steps (opened_on s.desk.now) (view s.seat.now).seen };

    ghost is_worn = { λ s. FoundWorn s.seat.now };

    ghost gives = { Gives M.steps };

    fn ask(&mut self, ask: &M::Ask) -> Result<M::Answer, Worn> {
        self.desk.step(*self.rt, self.seat, ask)
    }
}
