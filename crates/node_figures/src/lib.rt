//! What a node counts of what it does, and the figures that it tells of that.
#![tactic(auto)]

mod figures;
mod tally;

pub use figures::{Counts, Figures, Gauge, Histogram, Refused};
pub use tally::{Cells, Tally, add, take_one};
