//! Messages from a stream that comes in pieces.

ghost use Rattle.std.specs.Prelude.{◌≡◌, ◌+◌, ◌-◌, ◌≤◌, ◌++◌, [], true, false, length, take, min, vec_len, vec_capacity, IfOk, IfErr};
ghost use Rattle.fuse_msgs.specs.Feed.{is_whole, unfinished, feed_answer, fed_on, says_whole, UsesSome, TakesAll, BeginsRefused};

use crate::fault::BadMessage;
use crate::header::{MESSAGE_MAX, is_length};
use lf_base::{NoMemory, le32_at};
use std::alloc::Global;
use std::marker::Model;

/// The size of a message's length field.
const LEN_FIELD: usize = 4;

/// What a piece did.
#[derive(Clone, Copy, Debug, PartialEq, Eq)]
pub enum Fed {
    /// The whole piece is taken, and no message is whole.
    More,
    /// The first `used` bytes of the piece are taken, and end a message.
    Whole { used: usize },
}

/// The bytes of the message that is coming. It has room for the longest, and takes no memory after `new`.
#[derive(Debug, Drop)]
pub struct MessageFeed {
    bytes: Vec<u8>,
}

impl Model for MessageFeed {
    ghost use Rattle.std.specs.Prelude.{ℕ, ◌≤◌, List, vec_capacity};

    ghost Value = { List ℕ };

    ghost view = { λ feed. feed.bytes.items };

    ghost invariant = { λ feed. 135168 ≤ vec_capacity feed.bytes };
}

impl MessageFeed {
    /// Holds nothing, with room for one message.
    pub fn new(alloc: Global) -> Result<MessageFeed, NoMemory>
        ensures empty { IfOk result (λ feed. feed ≡ []) }
        ensures unfinished { IfOk result (λ feed. is_whole feed ≡ false) }
    {
        let bytes = Vec::with_capacity(alloc, MESSAGE_MAX)?;
        Ok(MessageFeed { bytes })
    }

    /// Takes a piece of the stream, up to the end of a message. A length field that no message has is
    /// answered by `Length` as soon as its four bytes are there, and again at each later call.
    pub fn feed(&mut self, piece: &[u8]) -> Result<Fed, BadMessage>
        requires { is_whole self.old ≡ false }
        ensures answer { result ≡ feed_answer self.old piece.now }
        ensures held { self.new ≡ fed_on self.old piece.now }
        ensures whole { is_whole self.new ≡ says_whole result }
        ensures used { UsesSome result (length piece.now) }
        // No byte is lost.
        ensures all { IfOk result (TakesAll self.old piece.now self.new) }
        // No message has the length field with which the stream begins, and from then on it is held.
        ensures refused { IfErr result (λ fault. BeginsRefused (self.old ++ piece.now) fault × BeginsRefused self.new fault) }
    {
        feed_into(&mut self.bytes, piece)
    }

    /// The message that is whole.
    pub fn message(&self) -> &[u8]
        requires { is_whole self.now ≡ true }
        ensures { result.now ≡ self.now }
    {
        self.bytes.as_slice()
    }

    /// Begins the next message, where one is whole; an unfinished one stays.
    pub fn clear(&mut self)
        ensures next { self.new ≡ unfinished self.old }
        ensures unfinished { is_whole self.new ≡ false }
    {
        if is_whole(self.bytes.as_slice()) {
            self.bytes.clear();
        }
    }

    /// The number of bytes of the unfinished message.
    pub fn held(&self) -> usize
        ensures { result ≡ length (unfinished self.now) }
    {
        if is_whole(self.bytes.as_slice()) {
            0
        } else {
            self.bytes.len()
        }
    }
}

#[tactic(auto, unfolding(crate::specs::Feed::beginning_of))]
fn is_whole(held: &[u8]) -> bool
    ensures { result ≡ is_whole held.now }
{
    if held.len() < LEN_FIELD {
        return false;
    }
    let len = le32_at(held, 0);
    is_length(len) && len as usize <= held.len()
}

fn feed_into(held: &mut Vec<u8>, piece: &[u8]) -> Result<Fed, BadMessage>
    requires room { 135168 ≤ vec_capacity held.old }
    requires unfinished { is_whole held.old.items ≡ false }
    ensures answer { result ≡ feed_answer held.old.items piece.now }
    ensures held { held.new.items ≡ fed_on held.old.items piece.now }
    ensures capacity { vec_capacity held.old ≤ vec_capacity held.new }
{
    let first = fill(held, LEN_FIELD, piece);
    if held.len() < LEN_FIELD {
        return Ok(Fed::More);
    }
    let len = le32_at(held.as_slice(), 0);
    if !is_length(len) {
        return Err(BadMessage::Length { len });
    }
    let (_, rest) = piece.split_at(first);
    let used = first + fill(held, len as usize, rest);
    if held.len() < len as usize {
        return Ok(Fed::More);
    }
    Ok(Fed::Whole { used })
}

/// Appends bytes of the piece until there are `target`, and tells how many.
fn fill(held: &mut Vec<u8>, target: usize, piece: &[u8]) -> usize
    requires { target ≤ vec_capacity held.old }
    ensures count { result ≡ min (target - vec_len held.old) (length piece.now) }
    ensures items { held.new.items ≡ held.old.items ++ take result piece.now }
    ensures len { vec_len held.new ≡ vec_len held.old + result }
    ensures capacity { vec_capacity held.old ≤ vec_capacity held.new }
{
    let count = target.saturating_sub(held.len()).min(piece.len());
    let (prefix, _) = piece.split_at(count);
    held.extend_from_slice(prefix).unwrap();
    count
}
