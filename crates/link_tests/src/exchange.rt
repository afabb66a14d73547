//! Exchanges over links in memory.
ghost use Rattle.lf_base.specs.Doors.{IsUnused};

mod answers;
mod calls;
mod ends;
mod replies;

use http_exchange::{Request, Told, Untold, exchange};
use lf_base::{Handles, MemDialer, MemLink, Text};
use link_session::Turns;
use std::alloc::Global;
use std::process::Abort;
use stream_wire::Call;
use test_base::{link_in_pieces, one};

/// The request of each exchange here, whose body stands in two parts.
const REQUEST: &[u8] = b"POST /tx HTTP/1.1\r\nHost: a:1\r\nContent-Length: 9\r\n\r\nfrontback";

/// The text up to a place.
pub fn front<'a>(rt: &impl Abort, text: &'a str, at: usize) -> &'a str {
    text.get(..at).expect(rt, "a front")
}

/// A link that gives this input in pieces of a size, has room for so many bytes, and fails at the call
/// of this number.
pub fn link_of(
    rt: &impl Abort,
    alloc: Global,
    input: &[u8],
    size: usize,
    room: usize,
    failing: u64,
) -> MemLink
    ensures { IsUnused result }
{
    link_in_pieces(alloc, input, room, failing, size).expect(rt, "a link")
}

/// A dialer of one link.
pub fn dialer_of(rt: &impl Abort, alloc: Global, link: MemLink) -> MemDialer
    requires { IsUnused link }
{
    let links = one(alloc, link).expect(rt, "memory");
    MemDialer::new(alloc, links, 1, Vec::new(alloc)).expect(rt, "a dialer")
}

/// What a reply is taken by, and how many turns there are.
#[derive(Clone, Copy)]
struct Taken {
    sized: bool,
    limit: u64,
    budget: u64,
}

/// Asks by this dialer, and answers the status or why there is none, the body, and the turns left.
fn ask<R: Handles + Abort>(
    rt: &R,
    alloc: Global,
    dialer: &mut MemDialer,
    taken: Taken,
) -> (Result<u16, Untold>, Vec<u8>, u64) {
    let host = Text::of(alloc, "a:1").expect(rt, "memory");
    let request = Request {
        call: &Call::Tx,
        host: &host,
        front: b"front",
        back: b"back",
        sized: taken.sized,
    };
    let mut turns = Turns::new(taken.budget);
    match exchange(rt, alloc, dialer, &host, request, taken.limit, &mut turns) {
        Ok(Told { status, body }) => (Ok(status), body.into_vec(), turns.left()),
        Err(why) => (Err(why), Vec::new(alloc), turns.left()),
    }
}
