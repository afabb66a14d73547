//! What is noted of the stream that a node follows.
ghost use Rattle.std.specs.Prelude.{◌≡◌, IfOk, codes};
ghost use Rattle.node_mount.specs.Noting.{begins_line as begins, not_reached_line as not_reached, BeginsWith};

use lf_base::{NoMemory, Text};
use node_core::Refusal;
use node_objects::Line;
use replica_apply::FollowEnd;
use std::alloc::Global;
use txn_log::StoreFault;

/// A primary was dialed at this address.
pub fn begins_line(alloc: Global, address: &Text) -> Result<Line, NoMemory>
    ensures { IfOk result (λ line. line ≡ begins address.now) }
{
    let mut line = Line::of(alloc, b"stream from ")?;
    line.put(address.bytes())?;
    line.put(b" begins")?;
    Ok(line)
}

/// It was not reached.
pub fn not_reached_line(alloc: Global, address: &Text) -> Result<Line, NoMemory>
    ensures { IfOk result (λ line. line ≡ not_reached address.now) }
{
    let mut line = Line::of(alloc, b"primary not reached at ")?;
    line.put(address.bytes())?;
    Ok(line)
}

/// A stream ended so.
pub fn ends_line(alloc: Global, end: FollowEnd) -> Result<Line, NoMemory> {
    let mut line = Line::of(alloc, b"stream ends: ")?;
    match end {
        FollowEnd::Status(status) => put_status(alloc, &mut line, status)?,
        _ => line.put(end_words(end))?,
    }
    Ok(line)
}

fn put_status(alloc: Global, line: &mut Line, status: u16) -> Result<(), NoMemory> {
    let said = format!(in alloc; "status {status}")?;
    line.put(said.as_bytes())?;
    line.put(status_words(status))
}

/// What a status of a node says.
fn status_words(status: u16) -> &'static [u8] {
    match status {
        404 => b", another database, or no node",
        503 => b", not the primary",
        500 => b", its store broke",
        _ => b"",
    }
}

fn end_words(end: FollowEnd) -> &'static [u8] {
    match end {
        FollowEnd::Ended => b"not the primary any longer",
        FollowEnd::Cut => b"cut off",
        FollowEnd::ReadFault => b"link failed, or silent for too long",
        FollowEnd::WriteFault => b"link failed",
        FollowEnd::BadFrame => b"no stream of this database",
        FollowEnd::Refused(why) => refusal_words(why),
        FollowEnd::NoMemory => b"out of memory",
        FollowEnd::Status(_) | FollowEnd::Turns | FollowEnd::Worn | FollowEnd::OddAnswer =>
            b"given up",
    }
}

/// Why this node did not take what it was sent.
fn refusal_words(why: Refusal) -> &'static [u8] {
    match why {
        Refusal::NotReplica => b"this node is primary",
        Refusal::Store(StoreFault::NotNext { .. }) => b"a file that does not join",
        Refusal::Store(StoreFault::SumDiffers { .. }) => b"a file that leads to other pages",
        Refusal::Store(StoreFault::Disk | StoreFault::Broken) => b"this node's disk failed",
        Refusal::NoMemory => b"out of memory",
        _ => b"a file that is refused",
    }
}
