//! Requests as bytes.

ghost use Rattle.std.specs.Prelude.{◌≡◌, ◌++◌, OnOk, OnErr, IfOk};
ghost use Rattle.fuse_msgs.specs.Encoding.{Fits, request_bytes};
ghost use Rattle.fuse_msgs.specs.Message.{IsMessage};

use crate::bodies::put_body;
use crate::opcodes::opcode_number;
use crate::writing::{put_bytes, put_u32, put_u64, put_zeros};
use fuse_msgs::{Request, request_encodings};
use lf_base::NoMemory;
use std::alloc::Global;

/// The size of a `fuse_in_header`.
const HEADER: usize = 40;

/// Appends the bytes of a request: the ones that `fuse_msgs::decode` reads back as it.
pub fn encode_request(alloc: Global, request: &Request, out: &mut Vec<u8>) -> Result<(), NoMemory>
    requires { Fits request.now }
    ensures ok { OnOk result (out.new.items ≡ out.old.items ++ request_bytes request.now) }
    ensures err { OnErr result (out.new.items ≡ out.old.items) }
    // They are a message of this request, and so of no other.
    ensures message { IsMessage (request_bytes request.now) request.now }
{
    request_encodings();
    let message = message_of(alloc, request)?;
    out.extend_from_slice(message.as_slice())?;
    Ok(())
}

/// The bytes of a request alone.
#[tactic(auto, using(crate::proofs::BodySizes::body_short))]
pub fn message_of(alloc: Global, request: &Request) -> Result<Vec<u8>, NoMemory>
    requires { Fits request.now }
    ensures { IfOk result (λ message. message.items ≡ request_bytes request.now) }
{
    request_encodings();
    let mut body = Vec::new(alloc);
    put_body(&mut body, &request.op)?;
    let mut message = Vec::new(alloc);
    put_u32(&mut message, (HEADER + body.len()) as u32)?;
    put_u32(&mut message, opcode_number(&request.op))?;
    put_u64(&mut message, request.unique)?;
    put_u64(&mut message, request.node)?;
    put_zeros(&mut message, 8)?;
    put_u32(&mut message, request.pid)?;
    put_zeros(&mut message, 4)?;
    put_bytes(&mut message, body.as_slice())?;
    Ok(message)
}
