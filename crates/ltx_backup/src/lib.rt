//! A backup of a database: LTX files in three folders, and the way back to a transaction.
//!
//! `Levels` in the specifications says what three folders hold, `Restoring` which image that gives at a
//! transaction, and `Stops` what a stop of three disks is, of which one changes after another.
#![tactic(auto)]

mod adding;
mod backup;
mod coming;
mod encoding;
mod entry;
mod examining;
mod fault;
mod finishing;
mod folding;
mod judging;
mod laws;
mod listing;
mod merging;
mod reading;
mod reopening;
mod restored;
mod restoring;
mod settling;
mod target;
mod tidying;
mod trimming;

pub use backup::Backup;
pub use entry::{Entries, Entry, Index};
pub use fault::BackupFault;
pub use laws::a_compaction_changes_no_image;
