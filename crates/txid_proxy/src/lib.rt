//! What stands between an application's clients and the application, so that a client reads its own writes at
//! any node: a request is passed on once the node has the transaction that its client has seen, and a write
//! only where the node takes writes.
#![tactic(auto)]

mod asked;
mod asking;
mod at_node;
mod cookies;
mod denial;
mod hearing;
mod host;
mod leave;
mod lines;
mod marking;
mod means;
mod passage;
mod passing;
mod put;
mod replies;
mod reply;
mod requests;
mod returning;
mod seat;
mod serving;
mod session;
mod target;
mod trimming;
mod waiting;
mod wish;
mod words;

pub use at_node::pass_on;
pub use passage::Passage;
pub use seat::pass_seat;
pub use session::pass_link;
