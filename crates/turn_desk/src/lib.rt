//! One sequential machine that many threads step, one step at a time.
//!
//! A `Desk` owns the machine. A caller has a `Seat`, with a number of its own, and asks by it; each answer is what the
//! machine gives at that point of one history, which begins with all that the seat had seen. Seats go to other threads:
//! `split` makes a new one, `join` brings two together. Whoever takes the turn word's turn owns the machine until it
//! gives the turn up.
#![tactic(auto)]

mod desk;
mod fault;
mod history;
mod machine;
mod moves;
mod news;
mod rest;
mod rule;
mod seat;
mod slot;
mod table;
mod turn;
mod view;

pub use desk::Desk;
pub use fault::{SplitFault, Tried, Worn};
pub use history::Entry;
pub use machine::Machine;
pub use news::News;
pub use rest::Rest;
pub use rule::TurnRule;
pub use seat::{Seat, SeatOver};
pub use slot::{LastStep, SlotValue};
pub use table::DeskOver;
pub use view::SeatView;
