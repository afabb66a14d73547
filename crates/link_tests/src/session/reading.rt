//! Messages read over a link, in pieces of each size.
ghost use Rattle.std.specs.Prelude.{◌≡◌, OnOk};
ghost use Rattle.link_session.specs.declared.stage.Stage.TheVariants as stages;

use crate::same::same;
use fuse_msgs::MessageFeed;
use lf_base::{MemLink, SessionEnd};
use link_session::{Inbox, Turns};
use std::alloc::Global;
use std::process::Abort;
use test_base::link_in_pieces;

/// Bytes that begin with this length field.
fn message(rt: impl Copy + Abort, alloc: Global, len: u32) -> Vec<u8> {
    let mut message = Vec::from_slice(alloc, &len.to_le_bytes()).expect(&rt, "memory");
    message.resize(len as usize, 7).expect(&rt, "memory");
    message
}

/// A message of this length and one of 41 bytes, or as much of both.
fn stream(rt: impl Copy + Abort, alloc: Global, len: u32, count: usize) -> Vec<u8> {
    let mut stream = message(rt, alloc, len);
    stream
        .extend_from_slice(message(rt, alloc, 41).as_slice())
        .expect(&rt, "memory");
    stream.truncate(count);
    stream
}

/// Reads a message and appends it.
fn read_next(
    inbox: &mut Inbox<MessageFeed>,
    link: &mut MemLink,
    turns: &mut Turns,
    bytes: &mut Vec<u8>,
) -> Result<(), SessionEnd>
    requires { inbox.old.stage ≡ stages.Open }
    ensures { OnOk result (inbox.new.stage ≡ stages.Open) }
{
    inbox.read_message(link, turns)?;
    if bytes.extend_from_slice(inbox.message()).is_err() {
        return Err(SessionEnd::NoMemory);
    }
    inbox.next();
    Ok(())
}

fn read_three(
    inbox: &mut Inbox<MessageFeed>,
    link: &mut MemLink,
    turns: &mut Turns,
    bytes: &mut Vec<u8>,
) -> Result<(), SessionEnd>
    requires { inbox.old.stage ≡ stages.Open }
{
    read_next(inbox, link, turns, bytes)?;
    read_next(inbox, link, turns, bytes)?;
    read_next(inbox, link, turns, bytes)
}

/// The messages, how reading ended, and the turns that are left.
fn read_all(
    rt: impl Copy + Abort,
    alloc: Global,
    mut link: MemLink,
    budget: u64,
) -> (Vec<u8>, Result<(), SessionEnd>, u64) {
    let mut inbox = Inbox::of_messages(alloc).expect(&rt, "an inbox");
    let mut turns = Turns::new(budget);
    let mut bytes = Vec::new(alloc);
    let end = read_three(&mut inbox, &mut link, &mut turns, &mut bytes);
    (bytes, end, turns.left())
}

#[test]
fn messages_in_pieces(rt: HostRuntime) {
    let alloc = rt.alloc();
    // The first length, the bytes there are, the size of a piece, the call that fails, the budget; the
    // bytes of messages, the end, the turns left.
    for (len, count, size, failing, budget, read, end, left) in [
        (
            40u32,
            81usize,
            1usize,
            999u64,
            100u64,
            81usize,
            SessionEnd::Closed,
            18u64,
        ),
        (40, 81, 7, 999, 100, 81, SessionEnd::Closed, 87),
        (40, 81, 99_999, 999, 100, 81, SessionEnd::Closed, 98),
        (40, 0, 7, 999, 100, 0, SessionEnd::Closed, 99),
        (40, 81, 7, 5, 100, 0, SessionEnd::ReadFault, 94),
        (40, 81, 7, 6, 100, 40, SessionEnd::ReadFault, 93),
        (40, 81, 1, 999, 50, 40, SessionEnd::Turns, 0),
        (40, 81, 1, 999, 0, 0, SessionEnd::Turns, 0),
        (40, 60, 7, 999, 100, 40, SessionEnd::BadMessage, 90),
        (40, 3, 7, 999, 100, 0, SessionEnd::BadMessage, 98),
        (39, 81, 1, 999, 100, 0, SessionEnd::BadMessage, 96),
    ] {
        let input = stream(rt, alloc, len, count);
        let link = link_in_pieces(alloc, &input, 0, failing, size).expect(&rt, "a link");
        let (messages, ended, turns) = read_all(rt, alloc, link, budget);
        let row = (len, count, size, failing, budget);
        same(rt, (row, ended, turns), (row, Err(end), left));
        same(
            rt,
            messages.as_slice(),
            stream(rt, alloc, len, read).as_slice(),
        );
    }
}
