//! A caller's place at a desk.
ghost use Rattle.std.specs.Prelude.{◌≡◌};
ghost use Rattle.turn_desk.specs.Calls.{IsSeated};

use crate::machine::Machine;
use crate::slot::SlotValue;
use crate::view::SeatView;

/// A seat at a desk whose slot holds an `S`. `Seat<M>` is an alias of it, as `Desk<M>` is of `DeskOver`.
///
/// Between two calls it has a number and not the turn, and of the history that it has seen just its own calls are its
/// number's.
#[derive(Drop)]
pub struct SeatOver<S, M, Q, A> {
    pub(crate) place: atomic_table::Seat<S, SeatView<M, Q, A>>,
    pub(crate) number: u64,
    ghost seated: { IsSeated place.me number },
}

/// A caller's seat at the desk of a machine.
pub type Seat<M> = SeatOver<
    Option<SlotValue<M, <M as Machine>::Ask, <M as Machine>::Answer>>,
    M,
    <M as Machine>::Ask,
    <M as Machine>::Answer,
>;

impl<S, M, Q, A> SeatOver<S, M, Q, A> {
    ghost use Rattle.turn_desk.specs.Seats.{number_of};

    /// The number under which the machine sees this seat's calls.
    pub fn number(&self) -> u64
        ensures { result ≡ number_of self.now }
    {
        self.number
    }
}
