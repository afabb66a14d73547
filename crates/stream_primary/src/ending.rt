//! The last words of a stream.
ghost use Rattle.std.specs.Prelude.{Err};
ghost use Rattle.std.specs.Io.KnownBytes.{Keeps};
ghost use Rattle.link_session.specs.Spending.{MovesFor};
ghost use Rattle.stream_primary.specs.Refusing.{EndsReply};
ghost use Rattle.stream_primary.specs.Telling.{end_frame, last_words};

use crate::replies::refuse_answer;
use crate::standing::Sent;
use crate::telling::put_end;
use lf_base::{Link, SessionEnd};
use link_session::{Turns, write_whole};
use node_core::Answer;
use std::alloc::Global;

/// Tells the follower an answer with which its stream ends: the end of the stream, or a reply where none
/// has begun. Nothing is written where memory runs out.
pub fn end_stream<L: Link>(
    alloc: Global,
    link: &mut L,
    sent: Sent,
    answer: &Answer,
    text: &mut Vec<u8>,
    turns: &mut Turns,
) -> SessionEnd
    ensures end { EndsReply (last_words sent answer.now) (L.taken link.old) (L.taken link.new) (L.faults link.old) (L.faults link.new) turns.new result }
    ensures left { Keeps (L.left link.old) (L.left link.new) }
    ensures spent { MovesFor {T = Unit {0}} (Err result) turns.old (L.moves link.old) turns.new (L.moves link.new) }
{
    match sent {
        Sent::Nothing => refuse_answer(alloc, link, answer, turns),
        Sent::Head | Sent::Ready => write_end(link, answer, text, turns),
    }
}

/// Writes the end of a stream that has begun.
fn write_end<L: Link>(
    link: &mut L,
    answer: &Answer,
    text: &mut Vec<u8>,
    turns: &mut Turns,
) -> SessionEnd
    ensures end { EndsReply (end_frame answer.now) (L.taken link.old) (L.taken link.new) (L.faults link.old) (L.faults link.new) turns.new result }
    ensures left { Keeps (L.left link.old) (L.left link.new) }
    ensures spent { MovesFor {T = Unit {0}} (Err result) turns.old (L.moves link.old) turns.new (L.moves link.new) }
{
    text.clear();
    match put_end(answer, text) {
        Ok(()) => {}
        Err(_) => return SessionEnd::NoMemory,
    }
    match write_whole(link, text.as_slice(), turns) {
        Ok(()) => SessionEnd::Closed,
        Err(end) => end,
    }
}
