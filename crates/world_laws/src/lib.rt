//! The laws of a cluster of nodes, over every list of events. Each is the contract of a function that does nothing.
#![tactic(auto)]

mod last_file;
mod laws;

pub use last_file::LastFile;
pub use laws::{
    answer_installs, forwarded_once, moment_is_of_step, only_primaries_commit, reader_steady,
    safe_kept, snapshot_is_sound, something_happens, stops_are_failures,
};
