//! LOOKUP, UNLINK and CREATE.

ghost use Rattle.std.specs.Prelude.{◌≡◌, IfOk, IfErr};
ghost use Rattle.fuse_msgs.specs.declared.opcode.Opcode.TheVariants as opcode;
ghost use Rattle.fuse_msgs.specs.Names.{is_name, IsTerminatedName};
ghost use Rattle.fuse_msgs.specs.steps.Reading.{LacksName};
ghost use Rattle.fuse_msgs.specs.steps.Reading.{IsReading};

use crate::fault::BodyFault;
use crate::request::Op;
use lf_base::Bytes;
use std::alloc::Global;

/// The most bytes that a name has.
const NAME_MAX: usize = 80;

/// The size of `fuse_create_in`.
const CREATE_IN: usize = 16;

/// The LOOKUP of a body: a name.
pub fn lookup(alloc: Global, body: &[u8]) -> Result<Op, BodyFault>
    ensures { IsReading opcode.Lookup body.now result }
{
    let name = name_in(alloc, body)?;
    Ok(Op::Lookup { name })
}

/// The UNLINK of a body: a name.
pub fn unlink(alloc: Global, body: &[u8]) -> Result<Op, BodyFault>
    ensures { IsReading opcode.Unlink body.now result }
{
    let name = name_in(alloc, body)?;
    Ok(Op::Unlink { name })
}

/// The CREATE of a body: a `fuse_create_in` and a name.
pub fn create(alloc: Global, body: &[u8]) -> Result<Op, BodyFault>
    ensures { IsReading opcode.Create body.now result }
{
    if body.len() < CREATE_IN {
        return Err(BodyFault::Shape);
    }
    let (_, bytes) = body.split_at(CREATE_IN);
    let name = name_in(alloc, bytes)?;
    Ok(Op::Create { name })
}

fn is_name(name: &[u8]) -> bool
    ensures { result ≡ is_name name.now }
{
    1 <= name.len() && name.len() <= NAME_MAX && !name.contains(&0)
}

/// The name that a zero byte ends.
#[tactic(auto, unfolding(crate::specs::Names::is_terminated_name), using(crate::proofs::TerminatedName::name_then_zero))]
fn name_in(alloc: Global, bytes: &[u8]) -> Result<Bytes, BodyFault>
    ensures ok { IfOk result (λ name. IsTerminatedName bytes.now name) }
    ensures err { IfErr result (λ fault. LacksName bytes.now fault) }
{
    if bytes.is_empty() {
        return Err(BodyFault::Name);
    }
    let end = bytes.len() - 1;
    let (name, _) = bytes.split_at(end);
    if !is_name(name) || bytes[end] != 0 {
        return Err(BodyFault::Name);
    }
    Ok(Bytes::of(Vec::from_slice(alloc, name)?))
}
