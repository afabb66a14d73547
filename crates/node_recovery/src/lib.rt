//! A data directory is opened after a stop.
#![tactic(auto)]

mod agreeing;
mod examining;
mod fault;
mod file_summary;
mod finishing;
mod found;
mod judged;
mod judging;
mod laws;
mod listing;
mod opened;
mod outline;
mod part;
mod piece_reader;
mod reading;
mod recovering;
mod reopening;
mod rewriting;
mod settling;
mod summing;
mod tally;

pub use examining::examine;
pub use fault::RecoverFault;
pub use found::{Decider, Found};
pub use outline::Outline;
pub use recovering::recover;
pub use tally::Tally;
