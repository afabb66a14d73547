//! Replies as bytes.

ghost use Rattle.std.specs.Prelude.{◌≡◌, ◌+◌, ◌-◌, ◌^◌, ◌≤◌, ◌++◌, length, vec_len, vec_capacity, IfOk, OnOk, OnErr};
ghost use Rattle.fuse_msgs.specs.Reply.{IsReply, reply_bytes, reply_body, out_message, HasFixedBody};

use crate::init_reply::put_init;
use crate::reply::Reply;
use crate::reply_body::{put_attr_out, put_entry, put_lock, put_open, put_written};
use lf_base::{NoMemory, le32_bytes, le64_bytes};
use std::alloc::Global;

/// The size of a `fuse_out_header`.
const HEADER: usize = 16;

/// The size of the longest fixed body, that of `Reply::Created`.
const FIXED_BODY: usize = 144;

/// Appends the reply to the request of this number.
#[tactic(auto, using(crate::proofs::Replies::fixed_body_short), unfolding(crate::specs::Reply::reply_bytes))]
pub fn encode(alloc: Global, reply: &Reply, unique: u64, out: &mut Vec<u8>) -> Result<(), NoMemory>
    requires { IsReply reply.now }
    ensures ok { OnOk result (out.new.items ≡ out.old.items ++ reply_bytes reply.now unique) }
    ensures err { OnErr result (out.new.items ≡ out.old.items) }
{
    match reply {
        Reply::Bytes { bytes } => append(out, 0, unique, bytes.as_slice()),
        Reply::Error(errno) => append(out, errno.0.wrapping_neg(), unique, &[]),
        _ => {
            let body = fixed_body(alloc, reply)?;
            append(out, 0, unique, body.as_slice())
        }
    }
}

/// The body of a reply whose body has a fixed size.
fn fixed_body(alloc: Global, reply: &Reply) -> Result<Vec<u8>, NoMemory>
    requires { HasFixedBody reply.now }
    ensures { IfOk result (λ body. body.items ≡ reply_body reply.now) }
{
    let mut body = Vec::with_capacity(alloc, FIXED_BODY)?;
    match reply {
        Reply::Entry { node, size } => put_entry(&mut body, *node, *size)?,
        Reply::Attr { node, size } => put_attr_out(&mut body, *node, *size)?,
        Reply::Opened { fh } => put_open(&mut body, *fh)?,
        Reply::Written { size } => put_written(&mut body, *size)?,
        Reply::Init => put_init(&mut body)?,
        Reply::Lock { start, end, kind } => put_lock(&mut body, *start, *end, *kind)?,
        Reply::Created { node, size, fh } => {
            put_entry(&mut body, *node, *size)?;
            put_open(&mut body, *fh)?
        }
        _ => {}
    }
    Ok(body)
}

/// Appends a `fuse_out_header` and the body, or nothing.
fn append(out: &mut Vec<u8>, error: u32, unique: u64, body: &[u8]) -> Result<(), NoMemory>
    requires { length body.now ≤ 2 ^ 32 - 17 }
    ensures ok { OnOk result (out.new.items ≡ out.old.items ++ out_message error unique body.now) }
    ensures err { OnErr result (out.new.items ≡ out.old.items) }
{
    let len = HEADER + body.len();
    out.reserve(len)?;
    put(out, &le32_bytes(len as u32));
    put(out, &le32_bytes(error));
    put(out, &le64_bytes(unique));
    put(out, body);
    Ok(())
}

/// Appends bytes for which there is room.
fn put(out: &mut Vec<u8>, bytes: &[u8])
    requires { vec_len out.old + length bytes.now ≤ vec_capacity out.old }
    ensures items { out.new.items ≡ out.old.items ++ bytes.now }
    ensures len { vec_len out.new ≡ vec_len out.old + length bytes.now }
    ensures capacity { vec_capacity out.old ≤ vec_capacity out.new }
{
    out.extend_from_slice(bytes).unwrap()
}
