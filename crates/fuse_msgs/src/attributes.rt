//! GETATTR and SETATTR.

ghost use Rattle.fuse_msgs.specs.declared.opcode.Opcode.TheVariants as opcode;
ghost use Rattle.fuse_msgs.specs.steps.Reading.{IsReading};

use crate::fault::BodyFault;
use crate::fields::{given, sized};
use crate::request::Op;
use lf_base::{le32_at, le64_at};

/// The sizes of `fuse_getattr_in` and `fuse_setattr_in`.
const GETATTR_IN: usize = 16;

const SETATTR_IN: usize = 88;

/// The bits of `valid` that say that a field is given: `FATTR_SIZE` and `FATTR_LOCKOWNER`.
const SIZE: u32 = 3;

const LOCK_OWNER: u32 = 9;

/// The GETATTR of a body: a `fuse_getattr_in`.
pub fn getattr(body: &[u8]) -> Result<Op, BodyFault>
    ensures { IsReading opcode.Getattr body.now result }
{
    sized(body, GETATTR_IN)?;
    Ok(Op::Getattr)
}

/// The SETATTR of a body: a `fuse_setattr_in`.
pub fn setattr(body: &[u8]) -> Result<Op, BodyFault>
    ensures { IsReading opcode.Setattr body.now result }
{
    sized(body, SETATTR_IN)?;
    let valid = le32_at(body, 0);
    Ok(Op::Setattr {
        size: given(valid, SIZE, le64_at(body, 16)),
        owner: given(valid, LOCK_OWNER, le64_at(body, 24)),
    })
}
