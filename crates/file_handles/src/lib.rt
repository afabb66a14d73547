//! The names of a database's served files, their node numbers, and the handles that sessions have
//! open on them.
//!
//! Nothing here knows what a file holds, or who may open it.
#![tactic(auto)]

mod handles;
mod names;
mod nodes;
mod texts;

pub use handles::Handles;
pub use names::file_named;
pub use nodes::{ROOT, file_at, node_of};
pub use texts::{copied_from, position_line, with_newline};
