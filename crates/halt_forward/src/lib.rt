//! Write permits: a replica that holds the HALT lock has one from its primary, and writes in its place.
//!
//! The table sits at the primary and decides alone. It reads no clock, each call is given the moment,
//! and takes no memory.
#![tactic(auto)]

mod halt_fault;
mod halt_pass;
mod halt_table;

pub use halt_fault::HaltFault;
pub use halt_pass::HaltPass;
pub use halt_table::HaltTable;
