//! Replies that end before their last byte, and a commit that is held back again and again.
use super::pieces::append_all;
use super::primary::{Asked, Replied, asked_in, reply_of};
use super::sessions::{has_asked, plays};
use super::{NOT_SENT, REFUSED, Row, SENT};
use crate::same::same;
use lf_base::Handles;
use std::alloc::Global;
use std::net::{TcpListener, TcpStream};
use std::process::Abort;

/// The bytes before a place.
fn front<R: Copy + Abort>(rt: R, text: &[u8], at: usize) -> &[u8] {
    text.get(..at).expect(&rt, "a front")
}

/// The reply to the ask for a permit ends there.
fn permit_ends<R: Handles + Copy + Abort>(rt: R, alloc: Global, at: usize) {
    let cut = front(rt, reply_of(Replied::Permit), at);
    let asked = plays(rt, alloc, &REFUSED, &[cut]);
    has_asked(rt, alloc, &REFUSED, &asked);
}

/// The reply to the commit ends there.
fn reply_ends<R: Handles + Copy + Abort>(rt: R, alloc: Global, at: usize) {
    let cut = front(rt, reply_of(Replied::Accepted), at);
    let (permit, empty) = (reply_of(Replied::Permit), reply_of(Replied::Empty));
    let asked = plays(rt, alloc, &NOT_SENT, &[permit, cut, empty]);
    has_asked(rt, alloc, &NOT_SENT, &asked);
}

#[test]
fn permits_end_at_each_byte(rt: HostRuntime) {
    let _named: Option<(TcpListener, TcpStream)> = None;
    for at in 0..reply_of(Replied::Permit).len() {
        permit_ends(rt, rt.alloc(), at);
    }
}

#[test]
fn replies_end_at_each_byte(rt: HostRuntime) {
    let _named: Option<(TcpListener, TcpStream)> = None;
    for at in 0..reply_of(Replied::Accepted).len() {
        reply_ends(rt, rt.alloc(), at);
    }
}

/// A permit, so many times that the commit is held back, and that it is accepted.
fn replies<R: Copy + Abort>(rt: R, alloc: Global, held: usize) -> Vec<&'static [u8]> {
    let mut texts = Vec::new(alloc);
    texts.push(reply_of(Replied::Permit)).expect(&rt, "memory");
    let end = held.saturating_add(1);
    texts
        .resize(end, reply_of(Replied::HeldBack))
        .expect(&rt, "memory");
    texts
        .push(reply_of(Replied::Accepted))
        .expect(&rt, "memory");
    texts.push(reply_of(Replied::Empty)).expect(&rt, "memory");
    texts
}

/// A permit is asked for, the commit is sent 100 times, and the permit is given back.
fn requests<R: Copy + Abort>(rt: R, alloc: Global) -> Vec<u8> {
    let mut bytes = Vec::new(alloc);
    append_all(rt, &mut bytes, asked_in(Asked::Asks));
    for _ in 0..100u64 {
        append_all(rt, &mut bytes, asked_in(Asked::Sends));
    }
    append_all(rt, &mut bytes, asked_in(Asked::GivesBack));
    bytes
}

fn is_held_back<R: Handles + Copy + Abort>(rt: R, alloc: Global, row: &Row, held: usize) {
    let asked = plays(rt, alloc, row, &replies(rt, alloc, held));
    same(rt, asked.as_slice(), requests(rt, alloc).as_slice());
}

#[test]
fn a_commit_is_sent_100_times(rt: HostRuntime) {
    let _named: Option<(TcpListener, TcpStream)> = None;
    is_held_back(rt, rt.alloc(), &SENT, 99);
    is_held_back(rt, rt.alloc(), &NOT_SENT, 100);
    is_held_back(rt, rt.alloc(), &NOT_SENT, 101);
}
