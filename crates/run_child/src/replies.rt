//! Replies from bytes.

ghost use Rattle.std.specs.Prelude.{◌≡◌, ◌⊎◌, Err};
ghost use Rattle.run_child.specs.declared.replies.BadReply.TheVariants as bad;
ghost use Rattle.run_child.specs.Replies.{TakesBytes, reading, refused};

use crate::reply_bodies::said;
use fuse_msgs::{Op, Reply};
use lf_base::{Errno, le32_at};
use std::alloc::Global;

/// The size of a `fuse_out_header`.
pub const HEADER: usize = 16;

/// The least error field: the negated number 4,095.
const LAST_ERRNO: u32 = 4_294_963_201;

/// Why bytes are no reply to an operation: the first that holds, in this order.
#[derive(Clone, Copy, Debug, PartialEq, Eq)]
pub enum BadReply {
    /// Fewer bytes than a header has.
    Short,
    /// The length field isn't the number of bytes.
    Length,
    /// The body hasn't the size of the operation's reply, a lock's type is none, an error has a body, or
    /// the error field is neither 0 nor a negated 1 to 4,095. A FORGET has no reply.
    Body,
    /// Memory ran out for the bytes of a READ.
    NoMemory,
}

/// The reply that all of the bytes are to this operation. Whose request it answers is not looked at.
#[tactic(auto, unfolding(crate::specs::Replies::reading))]
pub fn decode_reply(alloc: Global, bytes: &[u8], asked: &Op) -> Result<Reply, BadReply>
    // What the bytes say is read, and nothing else is; want of memory aside.
    ensures read { (result ≡ reading asked.now bytes.now) ⊎ (result ≡ Err bad.NoMemory) }
    // Memory runs out only for a READ.
    ensures memory { result ≡ Err bad.NoMemory → TakesBytes asked.now }
{
    if bytes.len() < HEADER {
        return Err(BadReply::Short);
    }
    if le32_at(bytes, 0) as usize != bytes.len() {
        return Err(BadReply::Length);
    }
    let field = le32_at(bytes, 4);
    let (_, body) = bytes.split_at(HEADER);
    if field == 0 {
        return said(alloc, body, asked);
    }
    refusal(field, body)
}

/// The refusal of an error field that isn't 0.
fn refusal(field: u32, body: &[u8]) -> Result<Reply, BadReply>
    ensures { result ≡ refused field body.now }
{
    if LAST_ERRNO <= field && body.is_empty() {
        return Ok(Reply::Error(Errno(field.wrapping_neg())));
    }
    Err(BadReply::Body)
}
