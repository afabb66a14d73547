//! Requests from bytes.

ghost use Rattle.std.specs.Prelude.{◌≡◌, ◌⊎◌, IfOk, IfErr, Ok, Err, Some};
ghost use Rattle.fuse_msgs.specs.declared.fault.BadMessage.{BadMessage};
ghost use Rattle.fuse_msgs.specs.declared.fault.BadMessage.TheVariants as bad;
ghost use Rattle.fuse_msgs.specs.declared.request.Request.{Request};
ghost use Rattle.fuse_msgs.specs.Message.{IsMessage, refusal};
ghost use Rattle.fuse_msgs.specs.Decoding.{IsUnlessMemory, TakesMemoryToRead};
ghost use Rattle.fuse_msgs.specs.steps.Reading.{IsReading, IsDecoding};

use crate::fault::{BadMessage, BodyFault};
use crate::header::{HEADER, header_in};
use crate::opcode::{Opcode, opcode_of};
use crate::request::{Op, Request};
use crate::{attributes, handles, io, locks, names, session};
use std::alloc::Global;

/// The request of a message, which is all of the bytes.
#[tactic(auto, using(crate::proofs::Answers::accepts, crate::proofs::Answers::refuses, crate::proofs::Answers::takes_memory))]
pub fn decode(alloc: Global, bytes: &[u8]) -> Result<Request, BadMessage>
    // What is read is a message of that request.
    ensures message { IfOk result (λ request. IsMessage bytes.now request) }
    // A message of a request is read as that request.
    ensures accepted { (request : Request) → IsMessage bytes.now request → IsUnlessMemory result (Ok request) }
    // A fault is the first of the bytes, and the first of the bytes is the fault.
    ensures fault { IfErr result (λ fault. (fault ≡ bad.NoMemory) ⊎ (refusal bytes.now ≡ Some fault)) }
    ensures refused { (fault : BadMessage) → refusal bytes.now ≡ Some fault → result ≡ Err fault }
    // Memory runs out only for a message, and one whose reading takes memory.
    ensures memory { result ≡ Err bad.NoMemory → TakesMemoryToRead bytes.now }
{
    request_in(alloc, bytes)
}

#[tactic(auto, unfolding(crate::specs::Message::refusal))]
fn request_in(alloc: Global, bytes: &[u8]) -> Result<Request, BadMessage>
    ensures { IsDecoding bytes.now result }
{
    let header = header_in(bytes)?;
    let unique = header.unique;
    let Some(opcode) = opcode_of(header.opcode) else {
        return Err(BadMessage::Opcode {
            opcode: header.opcode,
            unique,
        });
    };
    let (_, body) = bytes.split_at(HEADER);
    match op_in(alloc, opcode, body) {
        Ok(op) => Ok(Request {
            unique,
            node: header.node,
            pid: header.pid,
            op,
        }),
        Err(BodyFault::Shape) => Err(BadMessage::Body { unique }),
        Err(BodyFault::Name) => Err(BadMessage::NameText { unique }),
        Err(BodyFault::Memory) => Err(BadMessage::NoMemory),
    }
}

/// The operation of a body of this opcode.
fn op_in(alloc: Global, opcode: Opcode, body: &[u8]) -> Result<Op, BodyFault>
    ensures { IsReading opcode body.now result }
{
    match opcode {
        Opcode::Lookup => names::lookup(alloc, body),
        Opcode::Forget => session::forget(body),
        Opcode::Getattr => attributes::getattr(body),
        Opcode::Setattr => attributes::setattr(body),
        Opcode::Unlink => names::unlink(alloc, body),
        Opcode::Open => handles::open(body),
        Opcode::Read => io::read(body),
        Opcode::Write => io::write(alloc, body),
        Opcode::Release => handles::release(body),
        Opcode::Fsync => handles::fsync(body),
        Opcode::Flush => handles::flush(body),
        Opcode::Init => session::init(body),
        Opcode::Getlk => locks::getlk(body),
        Opcode::Setlk => locks::setlk(body),
        Opcode::Setlkw => locks::setlkw(body),
        Opcode::Create => names::create(alloc, body),
        Opcode::Destroy => Ok(Op::Destroy),
    }
}
