//! One request and its reply.

ghost use Rattle.std.specs.Prelude.{◌≡◌, ◌+◌, ◌≤◌, length, take, IfOk, IfErr};
ghost use Rattle.std.specs.Io.KnownBytes.{Keeps};
ghost use Rattle.fuse_msgs.specs.Encoding.{request_bytes};
ghost use Rattle.run_child.specs.Replies.{body_size as size_of};
ghost use Rattle.run_child.specs.Filling.{IsAskable, IsGathered, IsGatheredPart, IsNoError};
ghost use Rattle.run_child.specs.Talk.{Asked, IsJudged, Says, Stopped, place};

use crate::child_end::ChildEnd;
use crate::encoding::message_of;
use crate::filling::{Unfilled, fill};
use crate::replies::{HEADER, decode_reply};
use crate::sending::send;
use fuse_msgs::{Op, Reply, Request};
use lf_base::{Link, le32_at, le64_at};
use std::alloc::Global;

/// The most bytes that the reply to a request of a run has.
const REPLY_MAX: usize = 144;

/// Sends a request and reads its reply; an error is no answer.
pub fn ask<L: Link>(
    alloc: Global,
    link: &mut L,
    request: &Request,
    room: &mut u64,
) -> Result<Reply, ChildEnd>
    requires { IsAskable request.now }
    ensures asked { IfOk result (λ answer. Asked request.now answer (place L.Link link.old room.old) (place L.Link link.new room.new)) }
    ensures answer { IfOk result IsNoError }
    ensures stopped { IfErr result (Stopped request.now (place L.Link link.old room.old) (place L.Link link.new room.new)) }
{
    match message_of(alloc, request) {
        Ok(message) => exchange(alloc, link, message.as_slice(), request, room),
        Err(_) => Err(ChildEnd::NoMemory),
    }
}

/// Sends the bytes of a request and reads its reply.
fn exchange<L: Link>(
    alloc: Global,
    link: &mut L,
    message: &[u8],
    request: &Request,
    room: &mut u64,
) -> Result<Reply, ChildEnd>
    requires askable { IsAskable request.now }
    requires bytes { message.now ≡ request_bytes request.now }
    ensures asked { IfOk result (λ answer. Asked request.now answer (place L.Link link.old room.old) (place L.Link link.new room.new)) }
    ensures answer { IfOk result IsNoError }
    ensures stopped { IfErr result (Stopped request.now (place L.Link link.old room.old) (place L.Link link.new room.new)) }
{
    let mut bytes = [0u8; REPLY_MAX];
    match send(link, message) {
        Ok(()) => match gather(link, &mut bytes, &request.op, room) {
            Ok(count) => judge(alloc, &bytes[..count], request),
            Err(why) => Err(why.end()),
        },
        Err(_) => Err(ChildEnd::WriteFault),
    }
}

/// Reads a reply's head, and the body that it says, in front of `out`; answers how many bytes those are.
#[tactic(auto, using(crate::proofs::Gathering::gathered_head, crate::proofs::Gathering::gathered_both, crate::proofs::Gathering::part_of_head, crate::proofs::Gathering::part_of_body))]
fn gather<L: Link>(
    link: &mut L,
    out: &mut [u8],
    asked: &Op,
    room: &mut u64,
) -> Result<usize, Unfilled>
    requires { 16 + size_of asked.now ≤ length out.old }
    ensures count { IfOk result (λ n. n ≤ length out.new) }
    ensures whole { IfOk result (λ n. IsGathered asked.now (take n out.new) (place L.Link link.old room.old) (place L.Link link.new room.new)) }
    ensures part { IfErr result (IsGatheredPart asked.now (place L.Link link.old room.old) (place L.Link link.new room.new)) }
    ensures taken { Keeps (L.taken link.old) (L.taken link.new) }
{
    let (head, rest) = out.split_at_mut(HEADER);
    fill(link, head, room)?;
    let size = body_size(asked);
    if le32_at(head, 0) as usize != HEADER + size {
        return Ok(HEADER);
    }
    let (body, _) = rest.split_at_mut(size);
    match fill(link, body, room) {
        Ok(()) => Ok(HEADER + size),
        Err(why) => Err(why),
    }
}

/// How many bytes the body of the reply to an operation has; of a READ at most.
fn body_size(asked: &Op) -> usize
    ensures { result ≡ size_of asked.now }
{
    match asked {
        Op::Lookup { .. } => 128,
        Op::Getattr | Op::Setattr { .. } => 104,
        Op::Open => 16,
        Op::Read { size, .. } => *size as usize,
        Op::Write { .. } => 8,
        Op::Init { .. } => 64,
        Op::Getlk { .. } => 24,
        Op::Create { .. } => 144,
        _ => 0,
    }
}

/// What the bytes of a reply say to a request.
fn judge(alloc: Global, bytes: &[u8], request: &Request) -> Result<Reply, ChildEnd>
    requires askable { IsAskable request.now }
    requires head { 16 ≤ length bytes.now }
    ensures said { IfOk result (λ answer. Says request.now bytes.now answer) }
    ensures answer { IfOk result IsNoError }
    ensures refused { IfErr result (IsJudged request.now bytes.now) }
{
    match decode_reply(alloc, bytes, &request.op) {
        Err(_) => Err(ChildEnd::BadMessage),
        Ok(_) if le64_at(bytes, 8) != request.unique => Err(ChildEnd::BadMessage),
        Ok(Reply::Error(errno)) => Err(ChildEnd::Refused(errno)),
        Ok(answer) => Ok(answer),
    }
}
