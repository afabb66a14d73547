//! GETLK, SETLK and SETLKW.

ghost use Rattle.std.specs.Prelude.{◌≡◌, ◌<◌, false, IfOk, IfSome, IfNone, OnErr, IsErrOf};
ghost use Rattle.fuse_msgs.specs.declared.opcode.Opcode.TheVariants as opcode;
ghost use Rattle.fuse_msgs.specs.Locks.{IsLkIn, has_lock, lock_type};
ghost use Rattle.fuse_msgs.specs.steps.Reading.{IsReading};

use crate::fault::BodyFault;
use crate::fields::sized;
use crate::request::{LockWish, Op};
use lf_base::{le32_at, le64_at};

/// The size of `fuse_lk_in`.
const LK_IN: usize = 48;

/// The meaning of a `fuse_lk_in`.
#[derive(Clone, Copy)]
struct LockIn {
    fh: u64,
    owner: u64,
    start: u64,
    end: u64,
    kind: LockWish,
}

/// The GETLK of a body: a `fuse_lk_in`.
pub fn getlk(body: &[u8]) -> Result<Op, BodyFault>
    ensures { IsReading opcode.Getlk body.now result }
{
    let lock = lock_in(body)?;
    Ok(Op::Getlk {
        fh: lock.fh,
        owner: lock.owner,
        start: lock.start,
        end: lock.end,
        kind: lock.kind,
    })
}

/// The SETLK of a body: a `fuse_lk_in`.
pub fn setlk(body: &[u8]) -> Result<Op, BodyFault>
    ensures { IsReading opcode.Setlk body.now result }
{
    let lock = lock_in(body)?;
    Ok(Op::Setlk {
        fh: lock.fh,
        owner: lock.owner,
        start: lock.start,
        end: lock.end,
        kind: lock.kind,
    })
}

/// The SETLKW of a body: a `fuse_lk_in`.
pub fn setlkw(body: &[u8]) -> Result<Op, BodyFault>
    ensures { IsReading opcode.Setlkw body.now result }
{
    let lock = lock_in(body)?;
    Ok(Op::Setlkw {
        fh: lock.fh,
        owner: lock.owner,
        start: lock.start,
        end: lock.end,
        kind: lock.kind,
    })
}

fn lock_in(body: &[u8]) -> Result<LockIn, BodyFault>
    ensures ok { IfOk result (λ l. IsLkIn body.now l.fh l.owner l.start l.end l.kind) }
    ensures err { OnErr result (has_lock body.now ≡ false) }
    ensures fault { OnErr result (IsErrOf result BodyFault.Shape) }
{
    sized(body, LK_IN)?;
    let Some(kind) = wish_of(le32_at(body, 32)) else {
        return Err(BodyFault::Shape);
    };
    Ok(LockIn {
        fh: le64_at(body, 0),
        owner: le64_at(body, 8),
        start: le64_at(body, 16),
        end: le64_at(body, 24),
        kind,
    })
}

fn wish_of(number: u32) -> Option<LockWish>
    ensures some { IfSome result (λ kind. number ≡ lock_type kind) }
    ensures none { IfNone result (2 < number) }
{
    match number {
        0 => Some(LockWish::Read),
        1 => Some(LockWish::Write),
        2 => Some(LockWish::Unlock),
        _ => None,
    }
}
