//! The database file under its write-ahead log: what a write to the log commits, and how the file
//! stays as it reads while the committed image goes on beneath it.
#![tactic(auto)]

mod altering;
mod checkpoint;
mod fault;
mod holding;
mod laws;
mod news;
mod reading;
mod waiting;
mod writing;

pub use altering::leaves_image;
pub use checkpoint::{are_frames, holds_page};
pub use fault::LogWriteFault;
pub use laws::{
    clean_file_keeps_the_database, commit_leads_to_the_database_under_the_log,
    cut_keeps_the_database, frames_keep_the_database, new_file_agrees, resize_keeps_the_database,
    stored_write_keeps_the_database,
};
pub use reading::read_before;
pub use waiting::{LogCommit, LogWrite, WaitingWrite};
pub use writing::{finish_log_write, forget_log_write, prepare_log_write};
