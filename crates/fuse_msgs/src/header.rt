//! The head of a request: `fuse_in_header` of fuse.h.

ghost use Rattle.std.specs.Prelude.{◌≡◌, IfOk, IfErr};
ghost use Rattle.fuse_msgs.specs.Message.{is_length};
ghost use Rattle.fuse_msgs.specs.steps.Reading.{HasHeader, LacksHeader};

use crate::fault::BadMessage;
use lf_base::{le32_at, le64_at};

/// The size of a `fuse_in_header`.
pub const HEADER: usize = 40;

/// The most bytes that a message has: a WRITE of 131,072 bytes, and 4,096 to spare.
pub const MESSAGE_MAX: usize = 135_168;

/// What a `fuse_in_header` says, but for its length.
#[derive(Clone, Copy)]
pub struct Header {
    pub opcode: u32,
    pub unique: u64,
    pub node: u64,
    pub pid: u32,
}

/// Whether a message may have this length.
pub fn is_length(len: u32) -> bool
    ensures { result ≡ is_length len }
{
    let len = len as usize;
    HEADER <= len && len <= MESSAGE_MAX
}

/// The header of the bytes, all of which are one message by its length.
pub fn header_in(bytes: &[u8]) -> Result<Header, BadMessage>
    ensures ok { IfOk result (λ h. HasHeader bytes.now h.opcode h.unique h.node h.pid) }
    ensures err { IfErr result (λ fault. LacksHeader bytes.now fault) }
{
    if bytes.len() < HEADER {
        return Err(BadMessage::Short);
    }
    let len = le32_at(bytes, 0);
    if !is_length(len) || len as usize != bytes.len() {
        return Err(BadMessage::Length { len });
    }
    Ok(Header {
        opcode: le32_at(bytes, 4),
        unique: le64_at(bytes, 8),
        node: le64_at(bytes, 16),
        pid: le32_at(bytes, 32),
    })
}
