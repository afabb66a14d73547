//! A client of a node's file socket that runs a program while it holds the HALT lock of a database.
//!
//! `encode_request` and `decode_reply` are the client's side of the messages, a `Starter` is what starts
//! programs, and `run_child` is one run: the lock, the program, the end of the session.
#![tactic(auto)]

mod asking;
mod bodies;
mod child_end;
mod closing;
mod encoding;
mod filling;
mod laws;
mod list_starter;
mod lock;
mod opcodes;
mod process_starter;
mod replies;
mod reply_bodies;
mod requests;
mod running;
mod sending;
mod starter;
mod writing;

pub use child_end::ChildEnd;
pub use encoding::encode_request;
pub use laws::{replies_read, seven_messages};
pub use list_starter::{ListStarter, Told};
pub use process_starter::ProcessStarter;
pub use replies::{BadReply, decode_reply};
pub use running::{Run, run_child};
pub use starter::{ReadyStarter, Starter};
