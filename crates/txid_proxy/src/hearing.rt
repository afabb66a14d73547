//! What bytes begin with, where a request is to come.
ghost use Rattle.std.specs.Prelude.{ℕ, OnOk};
ghost use Rattle.stream_wire.specs.declared.call.Call.{Call};
ghost use Rattle.stream_wire.specs.Head.{IsRequest};
ghost use Rattle.txid_proxy.specs.Requests.{Hears};

use crate::asked::Asked;
use crate::wish::wish_of;
use link_session::FeedFault;
use std::alloc::Global;
use stream_wire::{Heard, WireFault, read_request};

/// The most bytes of a body that is passed on.
const BODY_MAX: u64 = 67_108_864;

/// What the bytes begin with.
pub(crate) fn hear(alloc: Global, bytes: &[u8]) -> Result<Asked, FeedFault>
    ensures { Hears bytes.now result }
{
    match read_request(alloc, bytes) {
        Ok(Heard::Part) => Ok(Asked::Part),
        Ok(
            Heard::Whole {
                used,
                call: _,
                length,
            },
        ) => hear_body(bytes, used, length),
        Err(WireFault::NoMemory) => Err(FeedFault::NoMemory),
        Err(_) => Err(FeedFault::Broken),
    }
}

/// The same behind a head of so many bytes, which says this length.
fn hear_body(bytes: &[u8], size: usize, length: u64) -> Result<Asked, FeedFault>
    ensures { (call : Call) → IsRequest bytes.now size call length → Hears bytes.now result }
{
    if wish_of(bytes).minor == 0 {
        return Err(FeedFault::Broken);
    }
    if length > BODY_MAX {
        return Ok(Asked::TooLong);
    }
    if (bytes.len().saturating_sub(size) as u64) < length {
        return Ok(Asked::Part);
    }
    Ok(Asked::Whole { size, length })
}
