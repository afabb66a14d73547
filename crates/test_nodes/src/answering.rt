//! Machines that answer by a table.

use node_core::{Answer, Ask};
use turn_desk::Machine;

/// What answers each ask as a table wants it.
pub trait Answers {
    fn answer(&mut self, ask: &Ask) -> Answer;
}

/// It as a machine, of whose steps nothing is told.
#[derive(Drop)]
pub struct Answering<T> {
    pub by: T,
}

impl<T: Answers> Machine for Answering<T> {
    type Ask = Ask;

    type Answer = Answer;

    ghost steps = { λ before caller ask answer after. Unit {0} };

    fn step(&mut self, _caller: u64, ask: &Ask) -> Answer {
        self.by.answer(ask)
    }

    fn news(&self) -> u64 {
        0
    }
}
