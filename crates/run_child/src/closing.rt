//! The last three requests: the lock given back, the handle closed, the session ended.

ghost use Rattle.std.specs.Prelude.{◌≡◌, ◌≤◌, ◌++◌, IfOk, IsTrue, IsFalse};
ghost use Rattle.std.specs.Io.KnownBytes.{Appends};
ghost use Rattle.lf_base.specs.Faults.{Rose};
ghost use Rattle.run_child.specs.Closing.{IsClosing};
ghost use Rattle.run_child.specs.Talk.{AppendsPart, Wrote, place};

use crate::encoding::message_of;
use crate::filling::fill;
use crate::replies::HEADER;
use crate::requests::{Handle, destroy, release, unlock};
use crate::sending::send;
use lf_base::{Bytes, Link, NoMemory};
use std::alloc::Global;

/// The last three requests as bytes, made before the lock is taken: to end a session takes no memory.
#[derive(Drop)]
pub struct Closing {
    unlock: Bytes,
    release: Bytes,
    destroy: Bytes,
}

impl Closing {
    pub fn of(alloc: Global, handle: Handle) -> Result<Closing, NoMemory>
        ensures { IfOk result (IsClosing handle.node handle.fh) }
    {
        let unlock = message_of(alloc, &unlock(handle))?;
        let release = message_of(alloc, &release(handle))?;
        let destroy = message_of(alloc, &destroy())?;
        Ok(Closing {
            unlock: Bytes::of(unlock),
            release: Bytes::of(release),
            destroy: Bytes::of(destroy),
        })
    }
}

/// Writes the three, each behind the reply to the one before; no reply, and none that is unfit, holds
/// up the next.
#[tactic(auto, using(crate::proofs::Course::first_failed, crate::proofs::Course::then_wrote))]
pub fn close<L: Link>(link: &mut L, closing: &Closing, room: &mut u64)
    ensures { Wrote (closing.now.unlock ++ (closing.now.release ++ closing.now.destroy)) (place L.Link link.old room.old) (place L.Link link.new room.new) }
{
    if say(link, closing.unlock.as_slice(), room) {
        close_handle(link, closing, room);
    }
}

/// Writes the last two.
#[tactic(auto, using(crate::proofs::Course::first_failed, crate::proofs::Course::then_wrote))]
fn close_handle<L: Link>(link: &mut L, closing: &Closing, room: &mut u64)
    ensures { Wrote (closing.now.release ++ closing.now.destroy) (place L.Link link.old room.old) (place L.Link link.new room.new) }
{
    if say(link, closing.release.as_slice(), room) {
        // It is the last: nothing waits for it.
        say(link, closing.destroy.as_slice(), room);
    }
}

/// Writes a message, and passes over its reply, whatever that is. Tells whether the message was
/// written whole.
fn say<L: Link>(link: &mut L, message: &[u8], room: &mut u64) -> bool
    ensures wrote { Wrote message.now (place L.Link link.old room.old) (place L.Link link.new room.new) }
    ensures whole { IsTrue result → Appends (L.taken link.old) (L.taken link.new) message.now }
    ensures part { IsFalse result → AppendsPart (L.taken link.old) (L.taken link.new) message.now × Rose (L.faults link.old) (L.faults link.new) }
    ensures count { L.faults link.old ≤ L.faults link.new }
{
    if send(link, message).is_err() {
        return false;
    }
    let mut reply = [0u8; HEADER];
    // Whatever the reply is, or isn't.
    let _ = fill(link, &mut reply, room);
    true
}
