//! One way to play a row: a session over HTTP at the desk of a machine that answers by a table.
ghost use Rattle.turn_desk.specs.Seats.{IsOf};

use crate::links::link_of;
use crate::same::same;
use lf_base::{FixedClock, MemLink, SessionEnd};
use link_session::AtSeat;
use node_core::{Answer, Ask};
use std::alloc::Global;
use std::process::Abort;
use std::sync::Wait;
use test_base::{SNAPSHOT, encoding};
use test_nodes::{Answering, Answers, desk_of, serve_request};
use turn_desk::{Desk, Machine, Seat};

/// A machine that keeps what it was asked.
pub trait Keeps {
    fn asked(&self) -> &[u8];
}

/// What comes, by what the machine answers, what is written, how the session ends, and what the machine was asked.
#[derive(Clone, Copy)]
pub struct Row<W> {
    pub input: &'static [u8],
    /// The most bytes of a read, the call of the link that fails, and the budget.
    pub size: usize,
    pub failing: u64,
    pub budget: u64,
    pub answers: W,
    /// Texts, one behind another; a star at the end of one stands for the file of a page of zeros.
    pub written: &'static [&'static [u8]],
    pub end: SessionEnd,
    pub asked: &'static [u8],
}

/// The texts of a row.
fn joined(rt: impl Copy + Abort, alloc: Global, texts: &[&[u8]]) -> Vec<u8> {
    let file = encoding(alloc, &SNAPSHOT).expect(&rt, "memory");
    let mut bytes = Vec::new(alloc);
    for text in texts {
        bytes.extend_from_slice(text).expect(&rt, "memory");
        if bytes.last() == Some(&b'*') {
            bytes.pop();
            bytes
                .extend_from_slice(file.as_slice())
                .expect(&rt, "memory");
        }
    }
    bytes
}

/// The end of a session by a seat, at the moment 5.
fn served_by<R: Wait + Copy + Abort, M: Machine<Ask = Ask, Answer = Answer>>(
    rt: R,
    alloc: Global,
    desk: &Desk<M>,
    seat: &mut Seat<M>,
    link: &mut MemLink,
    budget: u64,
) -> SessionEnd
    requires { IsOf seat.old desk.now }
    ensures { IsOf seat.new desk.now }
{
    let mut at = AtSeat {
        rt: &rt,
        desk,
        seat,
    };
    let mut clock = FixedClock::new(5);
    serve_request(&mut at, alloc, link, &mut clock, budget).expect(&rt, "memory")
}

/// The end of a session, and the machine afterwards.
fn served<R: Wait + Copy + Abort, T: Answers + Drop>(
    rt: R,
    alloc: Global,
    link: &mut MemLink,
    budget: u64,
    by: T,
) -> (SessionEnd, T) {
    let (desk, mut seat) = desk_of(alloc, Answering { by }).expect(&rt, "a desk");
    let end = served_by(rt, alloc, &desk, &mut seat, link, budget);
    (end, desk.close(rt, seat).by)
}

/// The session of a row, with what answers by its word.
pub fn has_session<R: Wait + Copy + Abort, W, T: Answers + Keeps + Drop>(
    rt: R,
    alloc: Global,
    row: &Row<W>,
    by: T,
) {
    let mut link = link_of(rt, alloc, row.input, row.size, row.failing);
    let watch = link.watch();
    let (end, by) = served(rt, alloc, &mut link, row.budget, by);
    let written = watch.bytes().expect(&rt, "memory");
    let wanted = joined(rt, alloc, row.written);
    same(rt, written.as_slice(), wanted.as_slice());
    same(rt, (end, by.asked()), (row.end, row.asked));
}
