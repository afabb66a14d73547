//! A session of the table.
ghost use Rattle.lf_base.specs.Doors.{IsUnused};

use super::{Fails, Row};
use crate::leases::Turn;
use crate::leases::node::close;
use crate::leases::session::{begin, opened};
use crate::same::same;
use lf_base::{FixedClock, Handles, MemDialer, MemLink, NoPause, SessionEnd, Text, Watch};
use std::alloc::Global;
use std::process::Abort;
use test_base::{link_in_pieces, one};
use txid_proxy::{Passage, pass_on};

/// How many bytes each link takes.
const ROOM: usize = 16_384;

/// The client's link, by what its request is passed on, and what shows what the client's link took, that of the first
/// dial, and that of a second one.
#[derive(Drop)]
pub struct Stage {
    pub link: MemLink,
    pub passage: Passage<MemDialer, FixedClock, NoPause>,
    client: Watch,
    target: Watch,
    second: Watch,
}

/// A dialer that gives two links.
fn dialer_of<R: Copy + Abort>(
    rt: R,
    alloc: Global,
    first: MemLink,
    second: MemLink,
    failing: u64,
) -> MemDialer
    requires first { IsUnused first }
    requires second { IsUnused second }
{
    let mut links = Vec::new(alloc);
    assert!(rt; links.push(first).is_ok());
    assert!(rt; links.push(second).is_ok());
    let failing = one(alloc, failing).expect(&rt, "memory");
    MemDialer::new(alloc, links, 9, failing).expect(&rt, "a dialer")
}

/// The links of a row, whose application replies this. Each read gives at most `size` bytes.
pub fn stage_of<R: Copy + Abort>(
    rt: R,
    alloc: Global,
    row: &Row,
    size: usize,
    reply: &[u8],
) -> Stage {
    let Fails {
        client,
        target,
        dial,
    } = row.fails;
    let link = link_in_pieces(alloc, row.input, ROOM, client, size).expect(&rt, "a link");
    let first = link_in_pieces(alloc, reply, ROOM, target, size).expect(&rt, "a link");
    let second = link_in_pieces(alloc, b"", ROOM, 0, size).expect(&rt, "a link");
    Stage {
        client: link.watch(),
        target: first.watch(),
        second: second.watch(),
        link,
        passage: Passage {
            dialer: dialer_of(rt, alloc, first, second, dial),
            target: Text::of(alloc, "127.0.0.1:3000").expect(&rt, "memory"),
            clock: FixedClock::new(row.now),
            pause: NoPause::new(),
            budget: row.budget,
        },
    }
}

/// The session was as the row says, and the client was answered this. Nobody was dialed twice.
pub fn has_left<R: Copy + Abort>(
    rt: R,
    stage: &Stage,
    row: &Row,
    written: &[u8],
    left: (SessionEnd, u64),
) {
    let answered = stage.client.bytes().expect(&rt, "memory");
    let passed = stage.target.bytes().expect(&rt, "memory");
    let again = stage.second.bytes().expect(&rt, "memory");
    same(rt, answered.as_slice(), written);
    same(rt, passed.as_slice(), row.passed);
    same(rt, again.len(), 0);
    same(rt, left, (row.end, row.asks));
}

/// How a session at a node ends, and how often the node is asked. Before, the node was told and asked these.
fn served<R: Handles + Copy + Abort>(
    rt: R,
    alloc: Global,
    stage: &mut Stage,
    turns: &[Turn],
) -> (SessionEnd, u64) {
    let (desk, mut seat) = opened(rt, alloc);
    begin(rt, alloc, &desk, &mut seat, turns);
    let before = desk.edition(&mut seat);
    let end = pass_on(
        rt,
        alloc,
        &desk,
        &mut seat,
        &mut stage.link,
        &mut stage.passage,
    );
    let after = desk.edition(&mut seat);
    close(desk.close(rt, seat));
    (end, after.saturating_sub(before))
}

/// The session of a row, whose application replies this.
pub fn plays<R: Handles + Copy + Abort>(
    rt: R,
    alloc: Global,
    row: &Row,
    size: usize,
    reply: &[u8],
    written: &[u8],
) {
    let mut stage = stage_of(rt, alloc, row, size, reply);
    let left = served(rt, alloc, &mut stage, row.turns);
    has_left(rt, &stage, row, written, left);
}

pub fn has_session<R: Handles + Copy + Abort>(rt: R, alloc: Global, row: &Row, size: usize) {
    plays(rt, alloc, row, size, row.reply, row.written);
}
