//! OPEN, RELEASE, FLUSH and FSYNC.

ghost use Rattle.fuse_msgs.specs.declared.opcode.Opcode.TheVariants as opcode;
ghost use Rattle.fuse_msgs.specs.steps.Reading.{IsReading};

use crate::fault::BodyFault;
use crate::fields::sized;
use crate::request::Op;
use lf_base::le64_at;

/// The sizes of `fuse_open_in`, of `fuse_release_in` and `fuse_flush_in`, and of `fuse_fsync_in`.
const OPEN_IN: usize = 8;

const RELEASE_IN: usize = 24;

const FSYNC_IN: usize = 16;

/// The OPEN of a body: a `fuse_open_in`.
pub fn open(body: &[u8]) -> Result<Op, BodyFault>
    ensures { IsReading opcode.Open body.now result }
{
    sized(body, OPEN_IN)?;
    Ok(Op::Open)
}

/// The RELEASE of a body: a `fuse_release_in`.
pub fn release(body: &[u8]) -> Result<Op, BodyFault>
    ensures { IsReading opcode.Release body.now result }
{
    sized(body, RELEASE_IN)?;
    Ok(Op::Release {
        fh: le64_at(body, 0),
        owner: le64_at(body, 16),
    })
}

/// The FLUSH of a body: a `fuse_flush_in`.
pub fn flush(body: &[u8]) -> Result<Op, BodyFault>
    ensures { IsReading opcode.Flush body.now result }
{
    sized(body, RELEASE_IN)?;
    Ok(Op::Flush {
        fh: le64_at(body, 0),
        owner: le64_at(body, 16),
    })
}

/// The FSYNC of a body: a `fuse_fsync_in`.
pub fn fsync(body: &[u8]) -> Result<Op, BodyFault>
    ensures { IsReading opcode.Fsync body.now result }
{
    sized(body, FSYNC_IN)?;
    Ok(Op::Fsync {
        fh: le64_at(body, 0),
    })
}
