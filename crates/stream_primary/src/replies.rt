//! Replies that are no stream.
ghost use Rattle.std.specs.Prelude.{◌≡◌, [], codes, Err, IfOk};
ghost use Rattle.std.specs.Io.KnownBytes.{Keeps};
ghost use Rattle.http.specs.StatusCode.{IsStatusCode};
ghost use Rattle.link_session.specs.Spending.{MovesFor};
ghost use Rattle.http_exchange.specs.Writing.{reply};
ghost use Rattle.stream_primary.specs.Asking.{answer_reply, position_line};
ghost use Rattle.stream_primary.specs.Refusing.{odd_reply, refused_reply, too_long_reply, EndsReply};

use crate::refusals::{line_of, status_of};
use http_exchange::write_reply;
use lf_base::{Link, NoMemory, Pos, SessionEnd, pos_text};
use link_session::Turns;
use node_core::Answer;
use std::alloc::Global;

/// Answers a request that is not served.
pub fn refuse<L: Link>(alloc: Global, link: &mut L, status: u16, turns: &mut Turns) -> SessionEnd
    requires { IsStatusCode status }
    ensures end { EndsReply (reply status []) (L.taken link.old) (L.taken link.new) (L.faults link.old) (L.faults link.new) turns.new result }
    ensures left { Keeps (L.left link.old) (L.left link.new) }
    ensures spent { MovesFor {T = Unit {0}} (Err result) turns.old (L.moves link.old) turns.new (L.moves link.new) }
{
    say(alloc, link, status, b"", turns)
}

/// Answers a request whose body is longer than its call keeps.
pub fn refuse_too_long<L: Link>(alloc: Global, link: &mut L, turns: &mut Turns) -> SessionEnd
    ensures end { EndsReply too_long_reply (L.taken link.old) (L.taken link.new) (L.faults link.old) (L.faults link.new) turns.new result }
    ensures left { Keeps (L.left link.old) (L.left link.new) }
    ensures spent { MovesFor {T = Unit {0}} (Err result) turns.old (L.moves link.old) turns.new (L.moves link.new) }
{
    say(alloc, link, 413, b"TooLong\n", turns)
}

/// Answers a request whose answer is no stream.
pub fn refuse_answer<L: Link>(
    alloc: Global,
    link: &mut L,
    answer: &Answer,
    turns: &mut Turns,
) -> SessionEnd
    ensures end { EndsReply (refused_reply answer.now) (L.taken link.old) (L.taken link.new) (L.faults link.old) (L.faults link.new) turns.new result }
    ensures left { Keeps (L.left link.old) (L.left link.new) }
    ensures spent { MovesFor {T = Unit {0}} (Err result) turns.old (L.moves link.old) turns.new (L.moves link.new) }
{
    match answer {
        Answer::Refused(refusal) => {
            say(alloc, link, status_of(*refusal), line_of(*refusal), turns)
        }
        Answer::Done(_) | Answer::Quiet | Answer::Refuse(_) | Answer::Send { .. } => {
            say_odd(alloc, link, turns)
        }
        Answer::At(_)
        | Answer::Level(_)
        | Answer::Item { .. }
        | Answer::Gone
        | Answer::Applied(_)
        | Answer::Same(_) => say_odd(alloc, link, turns),
        Answer::Held(_)
        | Answer::Pruned(_)
        | Answer::Pass(_)
        | Answer::Bytes(_)
        | Answer::Info(_)
        | Answer::Watched { .. } => say_odd(alloc, link, turns),
    }
}

/// Answers a request whose answer is none to its ask.
fn say_odd<L: Link>(alloc: Global, link: &mut L, turns: &mut Turns) -> SessionEnd
    ensures end { EndsReply odd_reply (L.taken link.old) (L.taken link.new) (L.faults link.old) (L.faults link.new) turns.new result }
    ensures left { Keeps (L.left link.old) (L.left link.new) }
    ensures spent { MovesFor {T = Unit {0}} (Err result) turns.old (L.moves link.old) turns.new (L.moves link.new) }
{
    say(alloc, link, 500, b"OddAnswer\n", turns)
}

/// Answers a request for which the node was asked once.
pub fn reply_to<L: Link>(
    alloc: Global,
    link: &mut L,
    answer: &Answer,
    turns: &mut Turns,
) -> SessionEnd
    ensures end { EndsReply (answer_reply answer.now) (L.taken link.old) (L.taken link.new) (L.faults link.old) (L.faults link.new) turns.new result }
    ensures left { Keeps (L.left link.old) (L.left link.new) }
    ensures spent { MovesFor {T = Unit {0}} (Err result) turns.old (L.moves link.old) turns.new (L.moves link.new) }
{
    match answer {
        Answer::Bytes(bytes) => say(alloc, link, 200, bytes.as_slice(), turns),
        Answer::Applied(pos) | Answer::Same(pos) => say_position(alloc, link, *pos, turns),
        Answer::Held(_) => say(alloc, link, 409, b"Held\n", turns),
        _ => refuse_answer(alloc, link, answer, turns),
    }
}

/// Answers with the position at which the database stands now.
fn say_position<L: Link>(alloc: Global, link: &mut L, pos: Pos, turns: &mut Turns) -> SessionEnd
    ensures end { EndsReply (reply 200 (position_line pos)) (L.taken link.old) (L.taken link.new) (L.faults link.old) (L.faults link.new) turns.new result }
    ensures left { Keeps (L.left link.old) (L.left link.new) }
    ensures spent { MovesFor {T = Unit {0}} (Err result) turns.old (L.moves link.old) turns.new (L.moves link.new) }
{
    match position_line(alloc, pos) {
        Ok(line) => say(alloc, link, 200, line.as_slice(), turns),
        Err(_) => SessionEnd::NoMemory,
    }
}

/// A position as a line.
fn position_line(alloc: Global, pos: Pos) -> Result<Vec<u8>, NoMemory>
    ensures { IfOk result (λ line. line.items ≡ position_line pos) }
{
    let mut line = Vec::from_slice(alloc, &pos_text(pos))?;
    line.push(b'\n')?;
    Ok(line)
}

/// Writes a reply, which ends the session.
pub fn say<L: Link>(
    alloc: Global,
    link: &mut L,
    status: u16,
    body: &[u8],
    turns: &mut Turns,
) -> SessionEnd
    requires { IsStatusCode status }
    ensures end { EndsReply (reply status body.now) (L.taken link.old) (L.taken link.new) (L.faults link.old) (L.faults link.new) turns.new result }
    ensures left { Keeps (L.left link.old) (L.left link.new) }
    ensures spent { MovesFor {T = Unit {0}} (Err result) turns.old (L.moves link.old) turns.new (L.moves link.new) }
{
    match write_reply(alloc, link, status, body, turns) {
        Ok(()) => SessionEnd::Closed,
        Err(end) => end,
    }
}
