//! The rule of a desk's table, which each move keeps.
use crate::machine::Machine;
use crate::slot::SlotValue;
use crate::view::SeatView;
use atomic_table::TableRule;
use std::marker::PhantomData;
use std::snapshot::Snapshot;

/// The rule of the desk of a machine: `Kept` of `specs/Rule.antt`, from the machine that the desk was opened on.
pub struct TurnRule<M> {
    machine: PhantomData<M>,
}

impl<M: Machine> TableRule<
    Option<SlotValue<M, M::Ask, M::Answer>>,
    SeatView<M, M::Ask, M::Answer>,
    Snapshot<M>,
> for TurnRule<M> {
    ghost use Rattle.turn_desk.specs.Rule.{Kept, first_view};

    ghost holds = { λ key s. Kept M.steps key.value s };

    ghost first = { λ key. first_view key.value };
}
