//! What a request asks for.

use lf_base::Bytes;

/// A request, without the user and the group that sent it.
#[derive(Debug, Drop)]
pub struct Request {
    /// Names the request; its reply has the same number.
    pub unique: u64,
    /// The node that it is about.
    pub node: u64,
    /// The process that sent it.
    pub pid: u32,
    /// What it asks for.
    pub op: Op,
}

/// The operation of a request, one variant for each opcode that is served.
///
/// Offsets, sizes and lock ranges are in bytes. A name stands without its closing zero byte.
#[derive(Debug, Drop)]
pub enum Op {
    /// Looks a name up in the root.
    Lookup {
        name: Bytes,
    },
    /// Forgets a node; it has no reply.
    Forget,
    /// Asks for the attributes of a node.
    Getattr,
    /// Sets attributes; only a size has an effect.
    Setattr {
        size: Option<u64>,
        owner: Option<u64>,
    },
    /// Removes a name from the root.
    Unlink {
        name: Bytes,
    },
    /// Opens a node.
    Open,
    /// Reads `size` bytes from `at` on.
    Read {
        fh: u64,
        at: u64,
        size: u32,
        owner: Option<u64>,
    },
    /// Writes the bytes from `at` on.
    Write {
        fh: u64,
        at: u64,
        owner: Option<u64>,
        bytes: Bytes,
    },
    /// Closes a handle.
    Release {
        fh: u64,
        owner: u64,
    },
    /// Makes what was written durable.
    Fsync {
        fh: u64,
    },
    /// Comes before a descriptor of the handle is closed.
    Flush {
        fh: u64,
        owner: u64,
    },
    /// Opens the session, with the client's version of the protocol.
    Init {
        major: u32,
        minor: u32,
    },
    /// Asks for a lock that conflicts with this one.
    Getlk {
        fh: u64,
        owner: u64,
        start: u64,
        end: u64,
        kind: LockWish,
    },
    /// Takes or releases a lock at once.
    Setlk {
        fh: u64,
        owner: u64,
        start: u64,
        end: u64,
        kind: LockWish,
    },
    /// Takes or releases a lock, and waits for it.
    Setlkw {
        fh: u64,
        owner: u64,
        start: u64,
        end: u64,
        kind: LockWish,
    },
    /// Makes a name in the root, and opens it.
    Create {
        name: Bytes,
    },
    /// Ends the session.
    Destroy,
}

/// What a lock request wants of its range: `F_RDLCK`, `F_WRLCK` or `F_UNLCK` of `fcntl`.
#[derive(Clone, Copy, Debug, PartialEq, Eq)]
pub enum LockWish {
    Read,
    Write,
    Unlock,
}
