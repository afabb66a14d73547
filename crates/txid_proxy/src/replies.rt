//! Replies written to the client.
ghost use Rattle.std.specs.Prelude.{◌≡◌, ◌++◌, [], ℕ, List, Err, Option, OnOk};
ghost use Rattle.std.specs.Io.KnownBytes.{Keeps};
ghost use Rattle.http.specs.StatusCode.{IsStatusCode};
ghost use Rattle.httparse.specs.Grammar.{ReadsResponse, ResponseHead, print_response};
ghost use Rattle.link_session.specs.Spending.{MovesFor};
ghost use Rattle.http_exchange.specs.Writing.{reply};
ghost use Rattle.txid_proxy.specs.Passing.{IsMarked, IsReply};
ghost use Rattle.txid_proxy.specs.Replies.{denial_reply, host_line, status_of, EndsReply};
ghost use Rattle.stream_wire.specs.Writing.{status_line};

use crate::denial::Denial;
use crate::marking::put_marked;
use crate::put::{put, put_line};
use http_exchange::write_reply;
use lf_base::{Bytes, Link, NoMemory, SessionEnd};
use link_session::{Turns, write_both};
use std::alloc::Global;

/// Answers with a status alone.
pub(crate) fn refuse<L: Link>(
    alloc: Global,
    link: &mut L,
    status: u16,
    turns: &mut Turns,
) -> SessionEnd
    requires { IsStatusCode status }
    ensures end { EndsReply (reply status []) (L.taken link.old) (L.taken link.new) (L.faults link.old) (L.faults link.new) turns.new result }
    ensures left { Keeps (L.left link.old) (L.left link.new) }
    ensures spent { MovesFor {T = Unit {0}} (Err result) turns.old (L.moves link.old) turns.new (L.moves link.new) }
{
    match write_reply(alloc, link, status, b"", turns) {
        Ok(()) => SessionEnd::Closed,
        Err(end) => end,
    }
}

/// Answers a request that is not passed on, with the primary's host where it is known.
pub(crate) fn deny<L: Link>(
    alloc: Global,
    link: &mut L,
    why: Denial,
    host: &Option<Bytes>,
    turns: &mut Turns,
) -> SessionEnd
    ensures end { EndsReply (denial_reply why host.now) (L.taken link.old) (L.taken link.new) (L.faults link.old) (L.faults link.new) turns.new result }
    ensures left { Keeps (L.left link.old) (L.left link.new) }
    ensures spent { MovesFor {T = Unit {0}} (Err result) turns.old (L.moves link.old) turns.new (L.moves link.new) }
{
    let mut text = Vec::new(alloc);
    match put_denial(why, host, &mut text) {
        Ok(()) => say(link, text.as_slice(), b"", turns),
        Err(_) => SessionEnd::NoMemory,
    }
}

#[tactic(auto, unfolding(crate::specs::Replies::denial_reply))]
fn put_denial(why: Denial, host: &Option<Bytes>, out: &mut Vec<u8>) -> Result<(), NoMemory>
    ensures { OnOk result (out.new.items ≡ out.old.items ++ denial_reply why host.now) }
{
    put(out, first_line(why))?;
    put_host(host, out)?;
    put_line(out, b"Content-Length", b"0")?;
    put_line(out, b"Connection", b"close")?;
    put(out, b"\r\n")
}

fn first_line(why: Denial) -> &'static [u8]
    ensures { result.now ≡ status_line (status_of why) }
{
    match why {
        Denial::NotPrimary => b"HTTP/1.1 503 Service Unavailable\r\n",
        Denial::Behind => b"HTTP/1.1 504 Gateway Timeout\r\n",
    }
}

fn put_host(host: &Option<Bytes>, out: &mut Vec<u8>) -> Result<(), NoMemory>
    ensures { OnOk result (out.new.items ≡ out.old.items ++ host_line host.now) }
{
    match host {
        Some(host) => put_line(out, b"Litefs-Primary", host.as_slice()),
        None => Ok(()),
    }
}

/// Answers with the target's reply.
pub(crate) fn give_back_as_it_is<L: Link>(
    link: &mut L,
    reply: &[u8],
    turns: &mut Turns,
) -> SessionEnd
    ensures end { EndsReply reply.now (L.taken link.old) (L.taken link.new) (L.faults link.old) (L.faults link.new) turns.new result }
    ensures left { Keeps (L.left link.old) (L.left link.new) }
    ensures spent { MovesFor {T = Unit {0}} (Err result) turns.old (L.moves link.old) turns.new (L.moves link.new) }
{
    say(link, reply, b"", turns)
}

/// Answers with the target's reply, marked with this transaction.
pub(crate) fn give_back_marked<L: Link>(
    alloc: Global,
    link: &mut L,
    reply: &[u8],
    txid: u64,
    turns: &mut Turns,
) -> SessionEnd
    requires { IsReply reply.now }
    ensures end { (text : List ℕ) × IsMarked reply.now txid text × EndsReply text (L.taken link.old) (L.taken link.new) (L.faults link.old) (L.faults link.new) turns.new result }
    ensures left { Keeps (L.left link.old) (L.left link.new) }
    ensures spent { MovesFor {T = Unit {0}} (Err result) turns.old (L.moves link.old) turns.new (L.moves link.new) }
{
    let mut front = Vec::new(alloc);
    match put_marked(reply, txid, &mut front) {
        Ok(size) => {
            let (_, rest) = reply.split_at(size);
            say(link, front.as_slice(), rest, turns)
        }
        Err(_) => SessionEnd::NoMemory,
    }
}

/// Writes a text in two parts, which ends the session.
fn say<L: Link>(link: &mut L, front: &[u8], back: &[u8], turns: &mut Turns) -> SessionEnd
    ensures end { EndsReply (front.now ++ back.now) (L.taken link.old) (L.taken link.new) (L.faults link.old) (L.faults link.new) turns.new result }
    ensures left { Keeps (L.left link.old) (L.left link.new) }
    ensures spent { MovesFor {T = Unit {0}} (Err result) turns.old (L.moves link.old) turns.new (L.moves link.new) }
{
    match write_both(link, front, back, turns) {
        Ok(()) => SessionEnd::Closed,
        Err(end) => end,
    }
}
