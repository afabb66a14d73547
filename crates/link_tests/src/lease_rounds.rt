//! Rounds of a node with its lease, over links in memory.
ghost use Rattle.lf_base.specs.Doors.{IsUnused};

mod ends;
mod listener;
mod replies;

use crate::exchange::{dialer_of, link_of};
use lease_core::Grant;
use lease_link::{KeepEnd, OwnService, Round, keep_lease};
use lf_base::{FixedClock, Handles, MemDialer, NoPause, Text};
use link_session::{AtSeat, Turns};
use listener::{Account, Bring, News, closed, opened};
use std::alloc::Global;
use std::process::Abort;

/// The moment of every round.
const NOW: u64 = 7;

/// Enough turns for a round in which each byte comes alone.
const TURNS: u64 = 999;

/// The term that a node has, 0 for none, and whether it may get one.
#[derive(Clone, Copy, Debug, PartialEq, Eq)]
struct Who {
    term: u64,
    candidate: bool,
}

/// A node that asks for a term, one that renews its own, and one that asks who is primary.
const CANDIDATE: Who = Who {
    term: 0,
    candidate: true,
};

const HOLDER: Who = Who {
    term: 7,
    candidate: true,
};

const FOLLOWER: Who = Who {
    term: 0,
    candidate: false,
};

/// How a round ended: with a term and a url, or why not.
#[derive(Clone, Copy, Debug, PartialEq, Eq)]
enum End {
    /// `db2` is whether the url is that of the second node, if there is one.
    Done { term: u64, db2: Option<bool> },
    Nobody,
    Turns,
    Other,
}

fn end_of(end: KeepEnd) -> End {
    match end {
        KeepEnd::Done { term, url } => End::Done {
            term,
            db2: url.map(|url| url.as_str() == "http://db2:20203"),
        },
        KeepEnd::Nobody => End::Nobody,
        KeepEnd::Turns => End::Turns,
        KeepEnd::Worn | KeepEnd::NoMemory => End::Other,
    }
}

/// What a node is, with this term.
fn grant_of(rt: &impl Abort, alloc: Global, term: u64) -> Grant {
    Grant {
        node: 1,
        url: Text::of(alloc, "http://db1:20202").expect(rt, "memory"),
        host: Text::of(alloc, "db1").expect(rt, "memory"),
        term,
        until: 0,
    }
}

fn service_of(rt: &impl Abort, alloc: Global) -> OwnService {
    OwnService {
        address: Text::of(alloc, "s:1").expect(rt, "memory"),
    }
}

/// A round of a node by this dialer: what its machine heard, and how the round ended.
fn round<R: Handles + Abort + Copy>(
    rt: R,
    alloc: Global,
    who: Who,
    dialer: &mut MemDialer,
    budget: u64,
) -> (Account, End) {
    let (desk, mut seat) = opened(rt, alloc);
    let own = grant_of(&rt, alloc, who.term);
    let mut service = service_of(&rt, alloc);
    let (mut clock, mut pause) = (FixedClock::new(NOW), NoPause::new());
    let mut at = AtSeat {
        rt: &rt,
        desk: &desk,
        seat: &mut seat,
    };
    let mut round = Round {
        alloc,
        dialer,
        service: &mut service,
        clock: &mut clock,
        pause: &mut pause,
        turns: Turns::new(budget),
    };
    let end = keep_lease(&mut at, &mut round, &Bring, &own, who.candidate);
    (closed(rt, desk, seat), end_of(end))
}

/// A round over a link that gives this reply in pieces of a size: the same, and what was written.
fn round_of<R: Handles + Abort + Copy>(
    rt: R,
    alloc: Global,
    who: Who,
    reply: &str,
    size: usize,
) -> (Account, End, Vec<u8>) {
    let link = link_of(&rt, alloc, reply.as_bytes(), size, 256, TURNS);
    let watch = link.watch();
    let mut dialer = dialer_of(&rt, alloc, link);
    let (account, end) = round(rt, alloc, who, &mut dialer, TURNS);
    (account, end, watch.bytes().expect(&rt, "memory"))
}
