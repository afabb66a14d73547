//! The atomic moves, by what each tells its seat (`specs/Moves.antt`). Out and home, the two exchanges of the slot, tell
//! nothing more than the table does.
ghost use Rattle.turn_desk.specs.Moves.{turn_loaded, turn_taken, turn_given, number_loaded, number_drawn, met_told, newcomer, spent, joined};

use crate::machine::Machine;
use crate::slot::SlotValue;
use crate::view::SeatView;
use atomic_table::{Join, Play, Split};
use std::marker::PhantomData;

pub struct LoadTurn<M> {
    machine: PhantomData<M>,
}

impl<M: Machine> Play<Option<SlotValue<M, M::Ask, M::Answer>>, SeatView<M, M::Ask, M::Answer>>
    for LoadTurn<M> {
    ghost then = { turn_loaded M.steps };
}

pub struct TakeTurn<M> {
    machine: PhantomData<M>,
}

impl<M: Machine> Play<Option<SlotValue<M, M::Ask, M::Answer>>, SeatView<M, M::Ask, M::Answer>>
    for TakeTurn<M> {
    ghost then = { turn_taken M.steps };
}

pub struct GiveTurn;

impl<M, Q, A> Play<Option<SlotValue<M, Q, A>>, SeatView<M, Q, A>> for GiveTurn {
    ghost then = { turn_given };
}

pub struct LoadNumber;

impl<M, Q, A> Play<Option<SlotValue<M, Q, A>>, SeatView<M, Q, A>> for LoadNumber {
    ghost then = { number_loaded };
}

pub struct DrawNumber;

impl<M, Q, A> Play<Option<SlotValue<M, Q, A>>, SeatView<M, Q, A>> for DrawNumber {
    ghost then = { number_drawn };
}

pub struct LoadAfterJoin;

impl<M, Q, A> Play<Option<SlotValue<M, Q, A>>, SeatView<M, Q, A>> for LoadAfterJoin {
    ghost then = { met_told };
}

pub struct SplitSeat;

impl<M, Q, A> Split<SeatView<M, Q, A>> for SplitSeat {
    ghost left = { λ v. v };

    ghost right = { newcomer };
}

pub struct JoinSeats;

impl<M, Q, A> Join<SeatView<M, Q, A>> for JoinSeats {
    ghost both = { joined };

    ghost spent = { spent };
}
