//! Compaction: LTX files that join one another become one file that does what they do.
//!
//! `Joining` in the specifications says which files join, and `Compaction` what the one file holds,
//! page by page; `Application`, that applying it is applying the others in order.
#![tactic(auto)]

mod compacting;
mod copying;
mod fault;
mod joining;
mod leaving;
mod moving;
mod slots;

pub use compacting::{compact, compact_owned};
pub use fault::CompactFault;
