//! The bodies of replies, as fuse.h lays them out.

ghost use Rattle.std.specs.Prelude.{◌≡◌, ◌++◌, OnOk};
ghost use Rattle.fuse_msgs.specs.Reply.{attr, entry_out, attr_out, open_out, write_out, lk_out, mode_of};
ghost use Rattle.fuse_msgs.specs.Locks.{lock_type};

use crate::request::LockWish;
use crate::writing::{put_u32, put_u64, put_zeros};
use lf_base::NoMemory;

/// The node of the root.
const ROOT: u64 = 1;

/// The modes of the root and of a file.
const ROOT_MODE: u32 = 0o40755;

const FILE_MODE: u32 = 0o100644;

/// The preferred size of a read or a write.
const BLOCK_SIZE: u32 = 4096;

/// The handle's reads and writes are not cached: `FOPEN_DIRECT_IO`.
const DIRECT_IO: u32 = 1;

/// A `fuse_entry_out`.
pub fn put_entry(out: &mut Vec<u8>, node: u64, size: u64) -> Result<(), NoMemory>
    ensures { OnOk result (out.new.items ≡ out.old.items ++ entry_out node size) }
{
    put_u64(out, node)?;
    put_zeros(out, 32)?;
    put_attr(out, node, size)
}

/// A `fuse_attr_out`.
pub fn put_attr_out(out: &mut Vec<u8>, node: u64, size: u64) -> Result<(), NoMemory>
    ensures { OnOk result (out.new.items ≡ out.old.items ++ attr_out node size) }
{
    put_zeros(out, 16)?;
    put_attr(out, node, size)
}

/// A `fuse_attr`.
fn put_attr(out: &mut Vec<u8>, node: u64, size: u64) -> Result<(), NoMemory>
    ensures { OnOk result (out.new.items ≡ out.old.items ++ attr node size) }
{
    put_u64(out, node)?;
    put_u64(out, size)?;
    put_u64(out, size.div_ceil(512))?;
    put_zeros(out, 36)?;
    put_u32(out, mode_of(node))?;
    put_u32(out, 1)?;
    put_zeros(out, 12)?;
    put_u32(out, BLOCK_SIZE)?;
    put_zeros(out, 4)
}

fn mode_of(node: u64) -> u32
    ensures { result ≡ mode_of node }
{
    if node == ROOT { ROOT_MODE } else { FILE_MODE }
}

/// A `fuse_open_out`.
pub fn put_open(out: &mut Vec<u8>, fh: u64) -> Result<(), NoMemory>
    ensures { OnOk result (out.new.items ≡ out.old.items ++ open_out fh) }
{
    put_u64(out, fh)?;
    put_u32(out, DIRECT_IO)?;
    put_zeros(out, 4)
}

/// A `fuse_write_out`.
pub fn put_written(out: &mut Vec<u8>, size: u32) -> Result<(), NoMemory>
    ensures { OnOk result (out.new.items ≡ out.old.items ++ write_out size) }
{
    put_u32(out, size)?;
    put_zeros(out, 4)
}

/// A `fuse_lk_out`.
pub fn put_lock(out: &mut Vec<u8>, start: u64, end: u64, kind: LockWish) -> Result<(), NoMemory>
    ensures { OnOk result (out.new.items ≡ out.old.items ++ lk_out start end kind) }
{
    put_u64(out, start)?;
    put_u64(out, end)?;
    put_u32(out, lock_type(kind))?;
    put_zeros(out, 4)
}

fn lock_type(kind: LockWish) -> u32
    ensures { result ≡ lock_type kind }
{
    match kind {
        LockWish::Read => 0,
        LockWish::Write => 1,
        LockWish::Unlock => 2,
    }
}
