//! The files of one database as SQLite sees them, served request by request.
//!
//! A view knows what differs from the committed image, the journal, the log, the shared memory, the
//! locks and the handles. It answers a request, or says which change would commit it; it knows nothing
//! of the store that keeps the image.
#![tactic(auto)]

mod asked;
mod database;
mod endings;
mod errno;
mod fault;
mod handles;
mod journal;
mod laws;
mod locks;
mod log;
mod names;
mod reading;
mod requests;
mod shared;
mod sizes;
mod stand_laws;
mod view;

pub use fault::ViewFault;
pub use laws::log_write_keeps_the_database;
pub use locks::locks_at;
pub use requests::Plan;
pub use stand_laws::{
    applied_view_stands, endings_keep_the_image, many_owners_commit_their_own, new_view_stands,
    replica_requests_leave_the_database, waiting_requests_go_on,
};
pub use view::{Role, Scene, View};
