//! One message: its request is asked, as often as it is, and its reply written.
ghost use Rattle.std.specs.Prelude.{◌≡◌, ◌<◌, IfErr, OnOk, length, OnErr, IsTrue};
ghost use Rattle.std.specs.Io.KnownBytes.{Keeps};
ghost use Rattle.lf_base.specs.declared.session_end.SessionEnd.TheVariants as ends;
ghost use Rattle.fuse_msgs.specs.Message.{IsMessage};
ghost use Rattle.link_session.specs.Sessions.{asker_of, stand_of, SessionGoesOn};
ghost use Rattle.link_session.specs.Spending.{MovesFor};
ghost use Rattle.link_session.specs.Stands.{Spends};
ghost use Rattle.file_session.specs.Message.{EndsMessage};
ghost use Rattle.file_session.specs.Replying.{reply_text, unserved_text, EndsReply, has_bytes, has_reply, reply_of, sendable};
ghost use Rattle.node_core.specs.Moments.{ask_at};
ghost use Rattle.node_core.proofs.Moments.{last_stands};
ghost use Rattle.file_session.specs.Asking.{is_again, tries_of};
ghost use Rattle.fuse_msgs.specs.Reply.{IsReply};

use fuse_msgs::{BadMessage, Op, Reply, Request, decode, encode};
use lf_base::{Clock, Errno, Link, NoMemory, Pause, SessionEnd};
use link_session::{Patience, Session, Steps, Turns, write_whole};
use node_core::{Answer, Ask};
use std::alloc::Global;

/// Answers a message. Its reply is put into the buffer first, and then written.
///
/// BadMessage where the bytes are no message, but for an opcode that is not served, which is answered.
pub fn serve_message<S: Steps<Ask = Ask, Answer = Answer>, L: Link, C: Clock, P: Pause>(
    session: &mut Session<L, C, P>,
    steps: &mut S,
    message: &[u8],
    text: &mut Vec<u8>,
) -> Result<(), SessionEnd>
    ensures end { EndsMessage (asker_of S.Steps C.Clock session.old steps.old) message.now (stand_of S.Steps L.Link session.old steps.old)
        (stand_of S.Steps L.Link session.new steps.new) session.new.turns result }
    ensures left { Keeps (L.left session.old.link.now) (L.left session.new.link.now) }
    ensures same { SessionGoesOn S.Steps C.Clock session.old session.new steps.old steps.new }
    ensures spent { Spends session.old.turns (stand_of S.Steps L.Link session.old steps.old) session.new.turns (stand_of S.Steps L.Link session.new steps.new) result }
    ensures worn { IfErr result (λ end. end ≡ ends.Worn → S.is_worn steps.new) }
{
    match decode(session.alloc, message) {
        Ok(request) => serve_request(session, steps, message, request, text),
        Err(BadMessage::Opcode { unique, .. }) => {
            refuse_opcode(
                session.alloc,
                session.link,
                unique,
                text,
                &mut session.turns,
            )
        }
        Err(BadMessage::NoMemory) => Err(SessionEnd::NoMemory),
        Err(_) => Err(SessionEnd::BadMessage),
    }
}

/// What is due to a request: whether it has a reply, and the request's number in it.
#[derive(Clone, Copy)]
struct Due {
    has_reply: bool,
    unique: u64,
}

/// Asks the message's request, and writes its reply.
fn serve_request<S: Steps<Ask = Ask, Answer = Answer>, L: Link, C: Clock, P: Pause>(
    session: &mut Session<L, C, P>,
    steps: &mut S,
    message: &[u8],
    request: Request,
    text: &mut Vec<u8>,
) -> Result<(), SessionEnd>
    requires { IsMessage message.now request }
    ensures end { EndsMessage (asker_of S.Steps C.Clock session.old steps.old) message.now (stand_of S.Steps L.Link session.old steps.old)
        (stand_of S.Steps L.Link session.new steps.new) session.new.turns result }
    ensures left { Keeps (L.left session.old.link.now) (L.left session.new.link.now) }
    ensures same { SessionGoesOn S.Steps C.Clock session.old session.new steps.old steps.new }
    ensures spent { Spends session.old.turns (stand_of S.Steps L.Link session.old steps.old) session.new.turns (stand_of S.Steps L.Link session.new steps.new) result }
    ensures worn { IfErr result (λ end. end ≡ ends.Worn → S.is_worn steps.new) }
{
    let due = Due {
        has_reply: has_reply(&request.op),
        unique: request.unique,
    };
    let tries = tries_of(&request.op);
    match session.ask_until(steps, Ask::File { now: 0, request }, &tries) {
        Ok(answer) => {
            write_reply(
                session.alloc,
                session.link,
                due,
                answer,
                text,
                &mut session.turns,
            )
        }
        Err(end) => Err(end),
    }
}

/// Writes the reply that the answer is, where there is one.
fn write_reply<L: Link>(
    alloc: Global,
    link: &mut L,
    due: Due,
    answer: Answer,
    text: &mut Vec<u8>,
    turns: &mut Turns,
) -> Result<(), SessionEnd>
    ensures end { EndsReply (reply_text due.has_reply due.unique answer) (L.taken link.old) (L.taken link.new) (L.faults link.old) (L.faults link.new) turns.new result }
    ensures left { Keeps (L.left link.old) (L.left link.new) }
    ensures spent { MovesFor result turns.old (L.moves link.old) turns.new (L.moves link.new) }
{
    match put_reply(alloc, due.has_reply, due.unique, answer, text) {
        Ok(()) => write_whole(link, text.as_slice(), turns),
        Err(_) => Err(SessionEnd::NoMemory),
    }
}

/// Refuses an opcode that is not served.
fn refuse_opcode<L: Link>(
    alloc: Global,
    link: &mut L,
    unique: u64,
    text: &mut Vec<u8>,
    turns: &mut Turns,
) -> Result<(), SessionEnd>
    ensures end { EndsReply (unserved_text unique) (L.taken link.old) (L.taken link.new) (L.faults link.old) (L.faults link.new) turns.new result }
    ensures left { Keeps (L.left link.old) (L.left link.new) }
    ensures spent { MovesFor result turns.old (L.moves link.old) turns.new (L.moves link.new) }
    ensures some { OnOk result (turns.new < turns.old) }
{
    match put_unserved(alloc, unique, text) {
        Ok(()) => write_whole(link, text.as_slice(), turns),
        Err(_) => Err(SessionEnd::NoMemory),
    }
}

/// The error of a lock that another holds, `EAGAIN`.
const HELD: u32 = 11;

/// How often a request is asked.
#[derive(Clone, Copy, Debug, PartialEq, Eq)]
pub enum Tries {
    Once,
    /// Until its lock is not held by another.
    UntilGranted,
}

/// How often this operation is asked.
pub fn tries_of(op: &Op) -> Tries
    ensures { result ≡ tries_of op.now }
{
    match op {
        Op::Setlkw { .. } => Tries::UntilGranted,
        _ => Tries::Once,
    }
}

impl Patience for Tries {
    type Ask = Ask;

    type Answer = Answer;

    ghost at_moment = { ask_at };

    ghost again = { is_again };

    fn set_moment(&self, ask: &mut Ask, moment: u64) {
        ask.set_moment(moment);
    }

    fn is_again(&self, answer: &Answer) -> bool {
        match (self, answer) {
            (Tries::UntilGranted, Answer::Refuse(errno)) => errno.0 == HELD,
            _ => false,
        }
    }

    ghost last_stands = { last_stands };
}

/// An input/output error, `EIO`.
const IO_FAILED: Errno = Errno(5);

/// An answer that is none to a request, `EPROTO`.
const NO_ANSWER: Errno = Errno(71);

/// An opcode that is not served, `ENOSYS`.
const NOT_SERVED: Errno = Errno(38);

/// The most bytes that the reply to a READ has.
const MOST_READ: usize = 4_294_967_279;

/// Whether an operation has a reply.
pub fn has_reply(op: &Op) -> bool
    ensures { result ≡ has_reply op.now }
{
    !matches!(op, Op::Forget)
}

#[tactic(auto, using(crate::proofs::Replies::some_bytes))]
/// Puts the reply to the request of this number in place of what is in the buffer, where it has one.
pub fn put_reply(
    alloc: Global,
    has_reply: bool,
    unique: u64,
    answer: Answer,
    text: &mut Vec<u8>,
) -> Result<(), NoMemory>
    ensures ok { OnOk result (text.new.items ≡ reply_text has_reply unique answer) }
    ensures some { OnErr result (0 < length (reply_text has_reply unique answer)) }
{
    text.clear();
    if !has_reply {
        return Ok(());
    }
    encode(alloc, &reply_of(answer), unique, text)
}

#[tactic(auto, using(crate::proofs::Replies::some_bytes))]
/// Puts the refusal of an opcode that is not served in place of what is in the buffer.
pub fn put_unserved(alloc: Global, unique: u64, text: &mut Vec<u8>) -> Result<(), NoMemory>
    ensures ok { OnOk result (text.new.items ≡ unserved_text unique) }
    ensures some { 0 < length (unserved_text unique) }
{
    text.clear();
    encode(alloc, &Reply::Error(NOT_SERVED), unique, text)
}

/// The reply that an answer is.
fn reply_of(answer: Answer) -> Reply
    ensures is { result ≡ reply_of answer }
    ensures fits { IsReply result }
{
    match answer {
        Answer::Done(reply) => sendable(reply),
        Answer::Refuse(errno) => sendable(Reply::Error(errno)),
        Answer::Quiet
        | Answer::At(_)
        | Answer::Level(_)
        | Answer::Item { .. }
        | Answer::Gone
        | Answer::Applied(_)
        | Answer::Same(_)
        | Answer::Held(_)
        | Answer::Pruned(_)
        | Answer::Send { .. }
        | Answer::Pass(_)
        | Answer::Bytes(_)
        | Answer::Info(_)
        | Answer::Watched { .. }
        | Answer::Refused(_) => Reply::Error(NO_ANSWER),
    }
}

/// The reply, or an input/output error where it has no bytes.
fn sendable(reply: Reply) -> Reply
    ensures is { result ≡ sendable reply }
    ensures fits { IsReply result }
{
    if has_bytes(&reply) {
        reply
    } else {
        Reply::Error(IO_FAILED)
    }
}

fn has_bytes(reply: &Reply) -> bool
    ensures is { result ≡ has_bytes reply.now }
    ensures fits { IsTrue result → IsReply reply.now }
{
    match reply {
        Reply::Bytes { bytes } => bytes.as_slice().len() <= MOST_READ,
        Reply::Error(errno) => 1 <= errno.0 && errno.0 <= 4095,
        _ => true,
    }
}
