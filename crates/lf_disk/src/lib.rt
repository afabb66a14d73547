//! The files of a node on a disk, and what a crash may leave of them.
//!
//! `Disk` is the contract: its history says what every file read as at each moment, and which
//! folders a crash at that moment may leave. `MemDisk` keeps its history as data, so a test can
//! meet every crash; `DirDisk` is a folder of the system. `publish` shows that the contract is
//! enough to put a file into place whole.
#![tactic(auto)]

mod choice;
mod dir_disk;
mod disk;
mod file;
mod list_fault;
mod listing;
mod mem_disk;
mod name;
mod plan;
mod publication;
mod record;
mod slots;
mod system_error;

pub use dir_disk::DirDisk;
pub use dir_disk::whole::{read_from, write_to};
pub use disk::Disk;
pub use list_fault::ListFault;
pub use listing::{Numbers, list_numbers};
pub use mem_disk::MemDisk;
pub use name::FileName;
pub use publication::{publish, publish_two, put_in_place, stage};
pub use system_error::is_want_of_room;
