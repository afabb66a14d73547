//! The byte-range locks that SQLite takes on the files of a database, and the table that grants them.
//!
//! A request names a set of locks. It is granted whole or not at all, and a refusal says which lock
//! and which holder stood in its way. The table knows nothing of what the files hold.
#![tactic(auto)]

mod grant;
mod lock_bytes;
mod lock_entry;
mod lock_id;
mod lock_kind;
mod lock_set;
mod lock_table;
mod owner;
mod set_fault;

pub use lock_bytes::FileKind;
pub use lock_entry::LockEntry;
pub use lock_id::{LOCKS, LockId};
pub use lock_kind::LockKind;
pub use lock_set::{LockSet, locks_of};
pub use lock_table::LockTable;
pub use owner::Owner;
pub use set_fault::SetFault;
