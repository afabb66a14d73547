//! What the bodies of replies say, as fuse.h lays them out.

ghost use Rattle.std.specs.Prelude.{◌≡◌, ◌==◌, ◌⊎◌, false, length, nat_le, Ok, Err, if◌then◌else◌, OnOk, OnErr, IsErrOf};
ghost use Rattle.fuse_msgs.specs.declared.reply.Reply.TheVariants as reply;
ghost use Rattle.lf_base.specs.Endian.{le32_at as le32_there, le64_at as le64_there};
ghost use Rattle.run_child.specs.declared.replies.BadReply.TheVariants as bad;
ghost use Rattle.run_child.specs.Replies.{TakesBytes, said as says, sized as of_size, wish_named, lock_said};

use crate::replies::BadReply;
use fuse_msgs::{LockWish, Op, Reply};
use lf_base::{Bytes, le32_at, le64_at};
use std::alloc::Global;

/// The sizes of `fuse_entry_out`, `fuse_attr_out`, `fuse_open_out`, `fuse_write_out`, `fuse_init_out`
/// and `fuse_lk_out`, and of the first and the third together.
const ENTRY_OUT: usize = 128;

const ATTR_OUT: usize = 104;

const OPEN_OUT: usize = 16;

const WRITE_OUT: usize = 8;

const INIT_OUT: usize = 64;

const LK_OUT: usize = 24;

const CREATE_OUT: usize = 144;

/// What a body says in answer to an operation.
pub fn said(alloc: Global, body: &[u8], asked: &Op) -> Result<Reply, BadReply>
    ensures read { (result ≡ says asked.now body.now) ⊎ (result ≡ Err bad.NoMemory) }
    ensures memory { result ≡ Err bad.NoMemory → TakesBytes asked.now }
{
    match asked {
        Op::Lookup { .. } => entry(body),
        Op::Forget => Err(BadReply::Body),
        Op::Getattr | Op::Setattr { .. } => attributes(body),
        Op::Open => opened(body),
        Op::Read { size, .. } => read(alloc, body, *size),
        Op::Write { .. } => written(body),
        Op::Init { .. } => init(body),
        Op::Getlk { .. } => lock(body),
        Op::Create { .. } => created(body),
        _ => empty(body),
    }
}

fn entry(body: &[u8]) -> Result<Reply, BadReply>
    ensures { result ≡ of_size 128 body.now (reply.Entry (le64_there 0 body.now) (le64_there 48 body.now)) }
{
    sized(body, ENTRY_OUT)?;
    Ok(Reply::Entry {
        node: le64_at(body, 0),
        size: le64_at(body, 48),
    })
}

fn attributes(body: &[u8]) -> Result<Reply, BadReply>
    ensures { result ≡ of_size 104 body.now (reply.Attr (le64_there 16 body.now) (le64_there 24 body.now)) }
{
    sized(body, ATTR_OUT)?;
    Ok(Reply::Attr {
        node: le64_at(body, 16),
        size: le64_at(body, 24),
    })
}

fn opened(body: &[u8]) -> Result<Reply, BadReply>
    ensures { result ≡ of_size 16 body.now (reply.Opened (le64_there 0 body.now)) }
{
    sized(body, OPEN_OUT)?;
    Ok(Reply::Opened {
        fh: le64_at(body, 0),
    })
}

/// What was read: no more than was asked for.
fn read(alloc: Global, body: &[u8], size: u32) -> Result<Reply, BadReply>
    ensures { (result ≡ (if nat_le (length body.now) size then Ok (reply.Bytes body.now) else Err bad.Body)) ⊎ (result ≡ Err bad.NoMemory) }
{
    if body.len() > size as usize {
        return Err(BadReply::Body);
    }
    match Vec::from_slice(alloc, body) {
        Ok(bytes) => Ok(Reply::Bytes {
            bytes: Bytes::of(bytes),
        }),
        Err(_) => Err(BadReply::NoMemory),
    }
}

fn written(body: &[u8]) -> Result<Reply, BadReply>
    ensures { result ≡ of_size 8 body.now (reply.Written (le32_there 0 body.now)) }
{
    sized(body, WRITE_OUT)?;
    Ok(Reply::Written {
        size: le32_at(body, 0),
    })
}

fn init(body: &[u8]) -> Result<Reply, BadReply>
    ensures { result ≡ of_size 64 body.now reply.Init }
{
    sized(body, INIT_OUT)?;
    Ok(Reply::Init)
}

fn lock(body: &[u8]) -> Result<Reply, BadReply>
    ensures { result ≡ (if length body.now == 24 then lock_said (le64_there 0 body.now) (le64_there 8 body.now) (wish_named (le32_there 16 body.now)) else Err bad.Body) }
{
    sized(body, LK_OUT)?;
    let Some(kind) = wish_of(le32_at(body, 16)) else {
        return Err(BadReply::Body);
    };
    Ok(Reply::Lock {
        start: le64_at(body, 0),
        end: le64_at(body, 8),
        kind,
    })
}

fn wish_of(number: u32) -> Option<LockWish>
    ensures { result ≡ wish_named number }
{
    match number {
        0 => Some(LockWish::Read),
        1 => Some(LockWish::Write),
        2 => Some(LockWish::Unlock),
        _ => None,
    }
}

fn created(body: &[u8]) -> Result<Reply, BadReply>
    ensures { result ≡ of_size 144 body.now (reply.Created (le64_there 0 body.now) (le64_there 48 body.now) (le64_there 128 body.now)) }
{
    sized(body, CREATE_OUT)?;
    Ok(Reply::Created {
        node: le64_at(body, 0),
        size: le64_at(body, 48),
        fh: le64_at(body, 128),
    })
}

fn empty(body: &[u8]) -> Result<Reply, BadReply>
    ensures { result ≡ of_size 0 body.now reply.Empty }
{
    sized(body, 0)?;
    Ok(Reply::Empty)
}

/// Tests that a body has this size.
fn sized(body: &[u8], size: usize) -> Result<(), BadReply>
    ensures ok { OnOk result (length body.now ≡ size) }
    ensures err { OnErr result ((length body.now == size) ≡ false) }
    ensures fault { OnErr result (IsErrOf result BadReply.Body) }
{
    if body.len() != size {
        return Err(BadReply::Body);
    }
    Ok(())
}
