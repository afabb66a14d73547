//! What a reply says.

use crate::request::LockWish;
use lf_base::{Bytes, Errno};

/// A reply, without the number of its request. Sizes and lock ranges are in bytes.
#[derive(Debug, Drop)]
pub enum Reply {
    /// The node of a name, to LOOKUP.
    Entry {
        node: u64,
        size: u64,
    },
    /// The attributes of a node, to GETATTR and SETATTR.
    Attr {
        node: u64,
        size: u64,
    },
    /// A handle, to OPEN.
    Opened {
        fh: u64,
    },
    /// What was read, to READ: at most 4,294,967,279 bytes.
    Bytes {
        bytes: Bytes,
    },
    /// How many bytes were written, to WRITE.
    Written {
        size: u32,
    },
    /// The version and the limits of this side, to INIT.
    Init,
    /// The first conflicting lock, to GETLK; where there is none, the range asked for and `Unlock`.
    Lock {
        start: u64,
        end: u64,
        kind: LockWish,
    },
    /// A new node and a handle of it, to CREATE.
    Created {
        node: u64,
        size: u64,
        fh: u64,
    },
    /// Nothing but that it is done.
    Empty,
    /// A refusal; the number is 1 to 4,095.
    Error(Errno),
}
