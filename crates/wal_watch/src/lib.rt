//! The write-ahead log of a SQLite database, watched from its bytes: which frames are committed,
//! and what a write commits.
//!
//! `Frames` in the specifications says what a valid frame is. Nothing here knows a lock, a page of
//! the database file or an index of the log.
#![tactic(auto)]

mod change;
mod check;
mod cutting;
mod fault;
mod file;
mod finding;
mod frames;
mod header;
mod index;
mod laws;
mod news;
mod reader;
mod reading;
mod scan;
mod sums;
mod writing;

pub use check::WAL_LIMIT;
pub use fault::WalFault;
pub use file::WalFile;
pub use laws::{
    committed_frames_say, keep_committed_frames, latest_frame_splits, latest_pages_are_writes,
    scans_begin_at_a_place, scans_go_on,
};
pub use news::WalNews;
pub use scan::Marks;
pub use sums::{Sums, sums_of};
