//! FUSE messages as bytes: requests read, replies written, in the profile of FUSE 7.31 that the
//! node's socket speaks.
//!
//! A request is a `fuse_in_header` and the body of its opcode, a reply a `fuse_out_header` and a
//! body; all numbers are little-endian. The crate knows the layouts alone, and nothing of what a
//! request asks for.
#![tactic(auto)]

mod attributes;
mod decoding;
mod encoding;
mod equality;
mod fault;
mod feed;
mod fields;
mod handles;
mod header;
mod init_reply;
mod io;
mod laws;
mod locks;
mod names;
mod opcode;
mod reply;
mod reply_body;
mod request;
mod session;
mod writing;

pub use decoding::decode;
pub use encoding::encode;
pub use fault::BadMessage;
pub use feed::{Fed, MessageFeed};
pub use laws::{any_pieces, refused_for_good, request_encodings, rests_fed_again};
pub use reply::Reply;
pub use request::{LockWish, Op, Request};
