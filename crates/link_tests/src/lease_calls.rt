//! Requests to the lease service, over links in memory.

mod bodies;
mod terms;

use crate::exchange::link_of;
use lease_core::LeaseTable;
use lease_link::serve_lease;
use lf_base::{FixedClock, SessionEnd, Watch};
use std::alloc::Global;
use std::process::Abort;

/// Enough turns for a request in which each byte comes alone.
const TURNS: u64 = 99_999;

/// How a link is served: at this moment, in pieces of a size, with room for so many bytes, and so many
/// turns.
#[derive(Clone, Copy)]
struct Served {
    now: u64,
    size: usize,
    room: usize,
    budget: u64,
}

/// At a moment, with ample room and turns, in one piece.
const fn at(now: u64) -> Served {
    Served {
        now,
        size: TURNS as usize,
        room: 256,
        budget: TURNS,
    }
}

/// Serves a link that gives this input: how its session ended, and what shows what it took.
fn serve(
    rt: impl Copy + Abort,
    alloc: Global,
    table: &mut LeaseTable,
    input: &[u8],
    served: Served,
) -> (SessionEnd, Watch) {
    let mut link = link_of(&rt, alloc, input, served.size, served.room, TURNS);
    let watch = link.watch();
    let mut clock = FixedClock::new(served.now);
    let end = serve_lease(alloc, table, &mut link, &mut clock, served.budget);
    (end, watch)
}

/// A request of the lease service with this body.
fn request(rt: impl Copy + Abort, alloc: Global, body: &str) -> String {
    format!(in alloc;
        "POST /lease HTTP/1.1\r\nHost: s:1\r\nContent-Length: {}\r\n\r\n{body}",
        body.len()
    )
    .expect(&rt, "memory")
}

/// A reply with this status and body.
fn reply(rt: impl Copy + Abort, alloc: Global, status: &str, body: &str) -> String {
    format!(in alloc;
        "HTTP/1.1 {status}\r\nContent-Length: {}\r\nConnection: close\r\n\r\n{body}",
        body.len()
    )
    .expect(&rt, "memory")
}
