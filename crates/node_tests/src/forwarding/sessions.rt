//! A session of the table.
ghost use Rattle.turn_desk.specs.Seats.{IsOf};

use super::Row;
use super::messages::{heard_in, said_in};
use super::pieces::append_all;
use super::primary::{all_taken, asked_in, dialer_of, reply_of};
use crate::leases::client::{Deed, Told, ask_of, told_of};
use crate::leases::node::close;
use crate::leases::session::{Counting, opened};
use crate::links::link_of;
use crate::same::same;
use lf_base::{Handles, MemDialer, MemLink, SessionEnd};
use link_session::AtSeat;
use node_core::{Answer, Ask};
use std::alloc::Global;
use std::process::Abort;
use std::sync::Wait;
use test_nodes::serve_client;
use turn_desk::{Desk, Machine, Seat};

/// How a session ended, how many steps the node made, where it is, and what it says to a client that unlinks its
/// database: a node that writes under a permit refuses with 1, and a replica with 30.
type Left = (SessionEnd, (u64, Told, Told));

/// What the node says to a deed, at the moment 6.
fn says<R: Wait + Copy + Abort, M: Machine<Ask = Ask, Answer = Answer>>(
    rt: R,
    alloc: Global,
    desk: &Desk<M>,
    seat: &mut Seat<M>,
    deed: Deed,
) -> Told
    requires { IsOf seat.old desk.now }
    ensures { IsOf seat.new desk.now }
{
    let ask = ask_of(rt, alloc, 6, deed);
    told_of(&desk.step(rt, seat, &ask).ok().expect(&rt, "an answer"))
}

/// Serves the client of a link at a node of the number 3 that was never written.
fn served<R: Handles + Copy + Abort>(
    rt: R,
    alloc: Global,
    link: &mut MemLink,
    dialer: &mut MemDialer,
    clock: &mut Counting,
) -> Left {
    let (desk, mut seat) = opened(rt, alloc);
    let mut at = AtSeat {
        rt: &rt,
        desk: &desk,
        seat: &mut seat,
    };
    let end = serve_client(&mut at, alloc, link, clock, 1_000, dialer);
    let steps = desk.edition(&mut seat);
    let place = says(rt, alloc, &desk, &mut seat, Deed::Where);
    let part = says(rt, alloc, &desk, &mut seat, Deed::UnlinkDatabase);
    close(desk.close(rt, seat));
    (end.expect(&rt, "memory"), (steps, place, part))
}

/// What the client of the row sends.
fn input<R: Copy + Abort>(rt: R, alloc: Global, row: &Row) -> Vec<u8> {
    let mut bytes = Vec::new(alloc);
    for said in row.input {
        append_all(rt, &mut bytes, said_in(*said));
    }
    bytes
}

/// What it is to be answered.
fn wanted<R: Copy + Abort>(rt: R, alloc: Global, row: &Row) -> Vec<u8> {
    let mut bytes = Vec::new(alloc);
    for heard in row.written {
        append_all(rt, &mut bytes, heard_in(*heard));
    }
    bytes
}

/// What the primary is to be asked.
fn requests<R: Copy + Abort>(rt: R, alloc: Global, row: &Row) -> Vec<u8> {
    let mut bytes = Vec::new(alloc);
    for asked in row.asked {
        append_all(rt, &mut bytes, asked_in(*asked));
    }
    bytes
}

/// The session of a row, whose primary replies these texts. What the primary is asked.
pub fn plays<R: Handles + Copy + Abort>(
    rt: R,
    alloc: Global,
    row: &Row,
    replies: &[&[u8]],
) -> Vec<u8> {
    let mut link = link_of(rt, alloc, &input(rt, alloc, row), 99_999, 999);
    let watch = link.watch();
    let (mut dialer, watches) = dialer_of(rt, alloc, replies, row.failing);
    let mut clock = Counting::new(row.first, row.later);
    let left = served(rt, alloc, &mut link, &mut dialer, &mut clock);
    let written = watch.bytes().expect(&rt, "memory");
    same(rt, written.as_slice(), wanted(rt, alloc, row).as_slice());
    let is = (row.steps, Told::At(row.txid), Told::Refuse(30));
    same(rt, left, (SessionEnd::Closed, is));
    all_taken(rt, alloc, &watches)
}

/// What the primary is asked by a row.
pub fn has_asked<R: Copy + Abort>(rt: R, alloc: Global, row: &Row, asked: &[u8]) {
    same(rt, asked, requests(rt, alloc, row).as_slice());
}

/// The replies of a row.
fn texts_of<R: Copy + Abort>(rt: R, alloc: Global, row: &Row) -> Vec<&'static [u8]> {
    let mut texts = Vec::new(alloc);
    for reply in row.replies {
        texts.push(reply_of(*reply)).expect(&rt, "memory");
    }
    texts
}

pub fn has_session<R: Handles + Copy + Abort>(rt: R, alloc: Global, row: &Row) {
    let texts = texts_of(rt, alloc, row);
    let asked = plays(rt, alloc, row, &texts);
    has_asked(rt, alloc, row, &asked);
}
