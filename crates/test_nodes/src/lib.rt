//! What programs and tests of the sessions at a node share: sessions by a seat, with naps that take no time; a database
//! without figures; and machines that answer by a table.
#![tactic(auto)]

mod answering;
mod figures;
mod sessions;

pub use answering::{Answering, Answers};
pub use figures::{NoFigures, about};
pub use sessions::{desk_of, follow_stream, serve_client, serve_request};
