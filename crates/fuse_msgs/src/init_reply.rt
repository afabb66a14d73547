//! The reply to INIT: the version and the limits of this side.

ghost use Rattle.std.specs.Prelude.{◌≡◌, ◌++◌, OnOk};
ghost use Rattle.fuse_msgs.specs.Reply.{init_out};

use crate::writing::{put_u16, put_u32, put_zeros};
use lf_base::NoMemory;

/// The version of the protocol.
const MAJOR: u32 = 7;

const MINOR: u32 = 31;

/// The client need not read ahead.
const MAX_READAHEAD: u32 = 0;

/// Locks are asked for here: `FUSE_POSIX_LOCKS`.
const POSIX_LOCKS: u32 = 2;

/// How many requests may wait in the background, and at how many the client slows down.
const MAX_BACKGROUND: u16 = 16;

const CONGESTION_THRESHOLD: u16 = 12;

/// The most bytes that one WRITE has.
const MAX_WRITE: u32 = 131_072;

/// Times count nanoseconds.
const TIME_GRANULARITY: u32 = 1;

/// A `fuse_init_out`.
pub fn put_init(out: &mut Vec<u8>) -> Result<(), NoMemory>
    ensures { OnOk result (out.new.items ≡ out.old.items ++ init_out) }
{
    put_u32(out, MAJOR)?;
    put_u32(out, MINOR)?;
    put_u32(out, MAX_READAHEAD)?;
    put_u32(out, POSIX_LOCKS)?;
    put_u16(out, MAX_BACKGROUND)?;
    put_u16(out, CONGESTION_THRESHOLD)?;
    put_u32(out, MAX_WRITE)?;
    put_u32(out, TIME_GRANULARITY)?;
    put_zeros(out, 36)
}
