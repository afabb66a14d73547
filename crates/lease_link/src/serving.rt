//! The lease service over a link: one request, and one reply.

ghost use Rattle.std.specs.Prelude.{◌≡◌, IfErr, IfOk, Err};
ghost use Rattle.std.specs.Io.KnownBytes.{Keeps};
ghost use Rattle.link_session.specs.Spending.{MovesFor};
ghost use Rattle.lease_core.specs.Leases.{at_moment};
ghost use Rattle.lease_link.specs.Serving.{AsksOf, EndsAsk, EndsLease, EndsReply, IsAskIn, IsLeaseSession, IsNoAsk, IsUnserved, end_of_sending, lease_keeps, told_reply, unserved_line, unserved_reply, unserved_status};

use crate::answering::{answer, status_of};
use crate::unserved::Unserved;
use http_exchange::{Body, Called, Kept, Wants, read_call, write_reply};
use lease_core::{BodyFault, LeaseAsk, LeaseReply, LeaseTable, read_body, write_body};
use lf_base::{Clock, Link, SessionEnd};
use link_session::Turns;
use std::alloc::Global;
use stream_wire::Call;

/// The most bytes of a request's body.
const BODY_MAX: u64 = 65_536;

/// The bodies that are kept.
#[derive(Clone, Copy)]
struct LeaseBodies;

impl Wants for LeaseBodies {
    ghost keeps = { λ _. lease_keeps };

    fn keeps(&self, call: &Call) -> Kept {
        match call {
            Call::Lease => Kept::All(BODY_MAX),
            _ => Kept::Nothing,
        }
    }
}

/// Serves the one request of a link, to the end of its session.
///
/// The table is asked once, at a moment that the clock gives, and the reply is what it answers; a grant
/// lasts from that moment on. Any other call, and a body that is no request, is answered with a status and
/// changes nothing. `budget` is the number of turns: each is a call of the link that moves bytes.
pub fn serve_lease<L: Link, C: Clock>(
    alloc: Global,
    table: &mut LeaseTable,
    link: &mut L,
    clock: &mut C,
    budget: u64,
) -> SessionEnd
    ensures session { IsLeaseSession L.Link (C.may_give clock.old) budget table.old table.new link.old link.new result }
    ensures clock { C.may_give clock.new ≡ C.may_give clock.old }
{
    let mut turns = Turns::new(budget);
    converse(alloc, table, link, clock, &mut turns)
}

/// Reads a request and answers it.
fn converse<L: Link, C: Clock>(
    alloc: Global,
    table: &mut LeaseTable,
    link: &mut L,
    clock: &mut C,
    turns: &mut Turns,
) -> SessionEnd
    ensures ends { EndsLease L.Link (C.may_give clock.old) table.old table.new link.old link.new turns.new result }
    ensures spent { MovesFor {T = Unit {0}} (Err result) turns.old (L.moves link.old) turns.new (L.moves link.new) }
    ensures clock { C.may_give clock.new ≡ C.may_give clock.old }
{
    let called = match read_call(alloc, link, turns, &LeaseBodies) {
        Ok(called) => called,
        Err(end) => return end,
    };
    match asked_by(alloc, &called) {
        Ok(asked) => answer_ask(alloc, table, &asked, clock.now_ms(), link, turns),
        Err(why) => refuse(alloc, link, why, turns),
    }
}

/// What a call asks.
fn asked_by(alloc: Global, called: &Called) -> Result<LeaseAsk, Unserved>
    ensures ok { IfOk result (AsksOf called.now) }
    ensures unserved { IfErr result (IsUnserved called.now) }
{
    match &called.call {
        Call::Lease => ask_in(alloc, &called.body),
        _ => Err(Unserved::OtherCall),
    }
}

/// What a body asks.
fn ask_in(alloc: Global, body: &Body) -> Result<LeaseAsk, Unserved>
    ensures ok { IfOk result (IsAskIn body.now) }
    ensures unserved { IfErr result (IsNoAsk body.now) }
{
    match body {
        Body::Whole(bytes) => match read_body(alloc, bytes.as_slice()) {
            Ok(asked) => Ok(asked),
            Err(BodyFault::Syntax) => Err(Unserved::Syntax),
            Err(BodyFault::Shape) => Err(Unserved::Shape),
            Err(BodyFault::NoMemory) => Err(Unserved::NoMemory),
        },
        Body::Passed | Body::Unread => Err(Unserved::TooLong),
    }
}

/// Asks the table at this moment, and writes what it answers.
fn answer_ask<L: Link>(
    alloc: Global,
    table: &mut LeaseTable,
    asked: &LeaseAsk,
    now: u64,
    link: &mut L,
    turns: &mut Turns,
) -> SessionEnd
    ensures answer { EndsAsk (at_moment now table.old) table.new asked.now (L.taken link.old) (L.taken link.new) (L.faults link.old) (L.faults link.new) turns.new result }
    ensures spent { MovesFor {T = Unit {0}} (Err result) turns.old (L.moves link.old) turns.new (L.moves link.new) }
    ensures left { Keeps (L.left link.old) (L.left link.new) }
{
    match answer(table, now, asked) {
        Ok(told) => tell(alloc, link, &told, turns),
        Err(_) => refuse(alloc, link, Unserved::NoMemory, turns),
    }
}

/// Writes an answer of the table. Nothing is written where memory runs out.
fn tell<L: Link>(alloc: Global, link: &mut L, told: &LeaseReply, turns: &mut Turns) -> SessionEnd
    ensures reply { EndsReply (told_reply told.now) (L.taken link.old) (L.taken link.new) (L.faults link.old) (L.faults link.new) turns.new result }
    ensures spent { MovesFor {T = Unit {0}} (Err result) turns.old (L.moves link.old) turns.new (L.moves link.new) }
    ensures left { Keeps (L.left link.old) (L.left link.new) }
{
    let mut body = Vec::new(alloc);
    match write_body(alloc, told, &mut body) {
        Ok(()) => {}
        Err(_) => return SessionEnd::NoMemory,
    }
    sent(write_reply(alloc, link, status_of(told), body.as_slice(), turns))
}

/// Answers a call that is not served.
fn refuse<L: Link>(alloc: Global, link: &mut L, why: Unserved, turns: &mut Turns) -> SessionEnd
    ensures reply { EndsReply (unserved_reply why) (L.taken link.old) (L.taken link.new) (L.faults link.old) (L.faults link.new) turns.new result }
    ensures spent { MovesFor {T = Unit {0}} (Err result) turns.old (L.moves link.old) turns.new (L.moves link.new) }
    ensures left { Keeps (L.left link.old) (L.left link.new) }
{
    let status = status_of_unserved(why);
    sent(write_reply(alloc, link, status, line_of(why).as_bytes(), turns))
}

fn status_of_unserved(why: Unserved) -> u16
    ensures { result ≡ unserved_status why }
{
    match why {
        Unserved::OtherCall => 404,
        Unserved::TooLong => 413,
        Unserved::Syntax | Unserved::Shape => 400,
        Unserved::NoMemory => 507,
    }
}

fn line_of(why: Unserved) -> &'static str
    ensures { result.now ≡ unserved_line why }
{
    match why {
        Unserved::OtherCall => "",
        Unserved::TooLong => "TooLong\n",
        Unserved::Syntax => "Syntax\n",
        Unserved::Shape => "Shape\n",
        Unserved::NoMemory => "NoMemory\n",
    }
}

/// The end of a session whose reply was written so.
fn sent(written: Result<(), SessionEnd>) -> SessionEnd
    ensures { result ≡ end_of_sending written }
{
    match written {
        Ok(()) => SessionEnd::Closed,
        Err(end) => end,
    }
}
