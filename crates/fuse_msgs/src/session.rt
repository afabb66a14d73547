//! INIT and FORGET.

ghost use Rattle.fuse_msgs.specs.declared.opcode.Opcode.TheVariants as opcode;
ghost use Rattle.fuse_msgs.specs.steps.Reading.{IsReading};

use crate::fault::BodyFault;
use crate::fields::sized;
use crate::request::Op;
use lf_base::le32_at;

/// The sizes of `fuse_forget_in` and of what each version has of `fuse_init_in`.
const FORGET_IN: usize = 8;

const INIT_IN: usize = 16;

/// The INIT of a body: a `fuse_init_in`, and what later versions have behind it.
pub fn init(body: &[u8]) -> Result<Op, BodyFault>
    ensures { IsReading opcode.Init body.now result }
{
    if body.len() < INIT_IN {
        return Err(BodyFault::Shape);
    }
    Ok(Op::Init {
        major: le32_at(body, 0),
        minor: le32_at(body, 4),
    })
}

/// The FORGET of a body: a `fuse_forget_in`.
pub fn forget(body: &[u8]) -> Result<Op, BodyFault>
    ensures { IsReading opcode.Forget body.now result }
{
    sized(body, FORGET_IN)?;
    Ok(Op::Forget)
}
