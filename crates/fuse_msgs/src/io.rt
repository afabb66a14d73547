//! READ and WRITE.

ghost use Rattle.fuse_msgs.specs.declared.opcode.Opcode.TheVariants as opcode;
ghost use Rattle.fuse_msgs.specs.steps.Reading.{IsReading};

use crate::fault::BodyFault;
use crate::fields::{given, sized};
use crate::request::Op;
use lf_base::{Bytes, le32_at, le64_at};
use std::alloc::Global;

/// The size of `fuse_read_in` and of `fuse_write_in`.
const READ_IN: usize = 40;

/// The most bytes that one WRITE has.
const DATA_MAX: usize = 131_072;

/// The bit of the flags word that says that the lock owner is given: `FUSE_READ_LOCKOWNER` and
/// `FUSE_WRITE_LOCKOWNER`.
const LOCK_OWNER: u32 = 1;

/// The READ of a body: a `fuse_read_in`.
pub fn read(body: &[u8]) -> Result<Op, BodyFault>
    ensures { IsReading opcode.Read body.now result }
{
    sized(body, READ_IN)?;
    Ok(Op::Read {
        fh: le64_at(body, 0),
        at: le64_at(body, 8),
        size: le32_at(body, 16),
        owner: given(le32_at(body, 20), LOCK_OWNER, le64_at(body, 24)),
    })
}

/// The WRITE of a body: a `fuse_write_in` and the data.
pub fn write(alloc: Global, body: &[u8]) -> Result<Op, BodyFault>
    ensures { IsReading opcode.Write body.now result }
{
    if body.len() < READ_IN {
        return Err(BodyFault::Shape);
    }
    let (_, data) = body.split_at(READ_IN);
    if le32_at(body, 16) as usize != data.len() || data.len() > DATA_MAX {
        return Err(BodyFault::Shape);
    }
    let bytes = Bytes::of(Vec::from_slice(alloc, data)?);
    Ok(Op::Write {
        fh: le64_at(body, 0),
        at: le64_at(body, 8),
        owner: given(le32_at(body, 20), LOCK_OWNER, le64_at(body, 24)),
        bytes,
    })
}
