//! The database file over a committed image: pages are read, written and cut, and what differs from
//! the image becomes the change of a commit.
//!
//! It keeps those pages alone that differ from the image, and knows no journal, lock or request.
#![tactic(auto)]

mod commit_change;
mod comparing;
mod database_file;
mod fault;
mod holding;
mod keeping;
mod laws;
mod reading;
mod span;
mod wal_change;
mod within;
mod writing;

pub use database_file::DatabaseFile;
pub use fault::FileFault;
pub use laws::{
    change_leads_to_the_file, clean_file_is_the_image, difference_leads_to_the_other_image,
    file_reads_as_an_image, log_change_leads_to_the_database_under_the_log,
};
pub use within::push_within;
pub use writing::are_data_pages;
