//! SQLite's `-shm` file, and the index header that it begins with.
//!
//! The file is bytes that connections share. Nothing here reads what they put there, but for the two
//! fields that say which frames of a log the index is of.
#![tactic(auto)]

mod file;
mod header;
mod index;

pub use file::{INDEX_SIZE, SHM_LIMIT, SharedMemory};
