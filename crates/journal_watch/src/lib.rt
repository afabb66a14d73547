//! The rollback journal of one database as a file of bytes, and the moment at which a call
//! finishes it.
//!
//! A journal that begins with SQLite's magic is active: it can undo the transaction that is being
//! written. The call after which it no longer does so is the commit. Nothing here knows the
//! database that the journal belongs to, nor who may write it.
#![tactic(auto)]

mod fault;
mod file;
mod header;

pub use fault::JournalFault;
pub use file::{JOURNAL_LIMIT, JournalFile};
