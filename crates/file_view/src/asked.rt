//! What requests ask for, each with the node and the handle by which it asks.

ghost use Rattle.std.specs.Prelude.{◌≡◌};
ghost use Rattle.fuse_msgs.specs.declared.reply.Reply.TheVariants as reply;
ghost use Rattle.fuse_msgs.specs.declared.request.LockWish.TheVariants as wish;

use fuse_msgs::{LockWish, Reply};

/// READ of so many bytes from a place on.
#[derive(Clone, Copy, Debug)]
pub(crate) struct Read {
    pub(crate) node: u64,
    pub(crate) fh: u64,
    pub(crate) at: u64,
    pub(crate) size: u32,
}

/// WRITE of bytes at a place, by the owner of this number where one is given.
#[derive(Clone, Copy, Debug)]
pub(crate) struct Write<'a> {
    pub(crate) node: u64,
    pub(crate) fh: u64,
    pub(crate) given: Option<u64>,
    pub(crate) at: u64,
    pub(crate) bytes: &'a [u8],
}

/// SETATTR of a size, by the owner of this number where one is given.
#[derive(Clone, Copy, Debug)]
pub(crate) struct Resize {
    pub(crate) node: u64,
    pub(crate) given: Option<u64>,
    pub(crate) len: u64,
}

/// GETLK, SETLK and SETLKW of a range, by the owner of this number.
#[derive(Clone, Copy, Debug)]
pub(crate) struct Lock {
    pub(crate) node: u64,
    pub(crate) fh: u64,
    pub(crate) owner: u64,
    pub(crate) start: u64,
    pub(crate) end: u64,
    pub(crate) wish: LockWish,
}

impl Lock {
    /// The reply that nothing is in its way.
    pub(crate) fn free(self) -> Reply
        ensures { result ≡ reply.Lock self.start self.end wish.Unlock }
    {
        Reply::Lock {
            start: self.start,
            end: self.end,
            kind: LockWish::Unlock,
        }
    }
}
