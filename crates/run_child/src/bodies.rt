//! The bodies of requests, as fuse.h lays them out.

ghost use Rattle.std.specs.Prelude.{◌≡◌, ℕ, ◌≤◌, ◌^◌, ◌++◌, OnOk};
ghost use Rattle.lf_base.specs.Endian.{le32, le64};
ghost use Rattle.fuse_msgs.specs.Fields.{zeros};
ghost use Rattle.fuse_msgs.specs.Locks.{lock_type as type_of};
ghost use Rattle.fuse_msgs.specs.Encoding.{OpFits, body_bytes, flag as flag_of, lk_in, read_in, release_in, setattr_in, terminated_name};

use crate::writing::{put_bytes, put_u32, put_u64, put_zeros};
use fuse_msgs::{LockWish, Op};
use lf_base::NoMemory;

/// `FUSE_READ_LOCKOWNER` and `FUSE_WRITE_LOCKOWNER`.
const READ_OWNER: u32 = 2;

/// `FATTR_SIZE` and `FATTR_LOCKOWNER`.
const SIZE: u32 = 8;

const SETATTR_OWNER: u32 = 512;

/// Appends the body of an operation.
pub fn put_body(out: &mut Vec<u8>, op: &Op) -> Result<(), NoMemory>
    requires { OpFits op.now }
    ensures { OnOk result (out.new.items ≡ out.old.items ++ body_bytes op.now) }
{
    match op {
        Op::Lookup { name } | Op::Unlink { name } => put_name(out, name.as_slice()),
        Op::Forget => put_u64(out, 1),
        Op::Getattr => put_zeros(out, 16),
        Op::Setattr { size, owner } => put_setattr(out, *size, *owner),
        Op::Open => put_zeros(out, 8),
        Op::Read {
            fh,
            at,
            size,
            owner,
        } => put_read(out, *fh, *at, *size, *owner),
        Op::Write {
            fh,
            at,
            owner,
            bytes,
        } => {
            put_read(out, *fh, *at, bytes.as_slice().len() as u32, *owner)?;
            put_bytes(out, bytes.as_slice())
        }
        Op::Release { fh, owner } | Op::Flush { fh, owner } => put_release(out, *fh, *owner),
        Op::Fsync { fh } => put_fsync(out, *fh),
        Op::Init { major, minor } => put_init(out, *major, *minor),
        Op::Getlk {
            fh,
            owner,
            start,
            end,
            kind,
        }
        | Op::Setlk {
            fh,
            owner,
            start,
            end,
            kind,
        }
        | Op::Setlkw {
            fh,
            owner,
            start,
            end,
            kind,
        } => put_lock(out, *fh, *owner, *start, *end, *kind),
        Op::Create { name } => {
            put_zeros(out, 16)?;
            put_name(out, name.as_slice())
        }
        Op::Destroy => Ok(()),
    }
}

fn put_name(out: &mut Vec<u8>, name: &[u8]) -> Result<(), NoMemory>
    ensures { OnOk result (out.new.items ≡ out.old.items ++ terminated_name name.now) }
{
    put_bytes(out, name)?;
    put_bytes(out, &[0])
}

/// A `fuse_setattr_in`.
fn put_setattr(out: &mut Vec<u8>, size: Option<u64>, owner: Option<u64>) -> Result<(), NoMemory>
    ensures { OnOk result (out.new.items ≡ out.old.items ++ setattr_in size owner) }
{
    put_u32(out, flag(SIZE, size) + flag(SETATTR_OWNER, owner))?;
    put_zeros(out, 12)?;
    put_u64(out, size.unwrap_or(0))?;
    put_u64(out, owner.unwrap_or(0))?;
    put_zeros(out, 56)
}

/// A `fuse_read_in` or a `fuse_write_in`.
fn put_read(
    out: &mut Vec<u8>,
    fh: u64,
    at: u64,
    size: u32,
    owner: Option<u64>,
) -> Result<(), NoMemory>
    ensures { OnOk result (out.new.items ≡ out.old.items ++ read_in fh at size owner) }
{
    put_u64(out, fh)?;
    put_u64(out, at)?;
    put_u32(out, size)?;
    put_u32(out, flag(READ_OWNER, owner))?;
    put_u64(out, owner.unwrap_or(0))?;
    put_zeros(out, 8)
}

/// A `fuse_release_in` or a `fuse_flush_in`.
fn put_release(out: &mut Vec<u8>, fh: u64, owner: u64) -> Result<(), NoMemory>
    ensures { OnOk result (out.new.items ≡ out.old.items ++ release_in fh owner) }
{
    put_u64(out, fh)?;
    put_zeros(out, 8)?;
    put_u64(out, owner)
}

/// A `fuse_fsync_in`.
fn put_fsync(out: &mut Vec<u8>, fh: u64) -> Result<(), NoMemory>
    ensures { OnOk result (out.new.items ≡ out.old.items ++ (le64 fh ++ zeros 8)) }
{
    put_u64(out, fh)?;
    put_zeros(out, 8)
}

/// A `fuse_init_in`.
fn put_init(out: &mut Vec<u8>, major: u32, minor: u32) -> Result<(), NoMemory>
    ensures { OnOk result (out.new.items ≡ out.old.items ++ (le32 major ++ le32 minor ++ zeros 8)) }
{
    put_u32(out, major)?;
    put_u32(out, minor)?;
    put_zeros(out, 8)
}

/// A `fuse_lk_in`.
fn put_lock(
    out: &mut Vec<u8>,
    fh: u64,
    owner: u64,
    start: u64,
    end: u64,
    kind: LockWish,
) -> Result<(), NoMemory>
    ensures { OnOk result (out.new.items ≡ out.old.items ++ lk_in fh owner start end kind) }
{
    put_u64(out, fh)?;
    put_u64(out, owner)?;
    put_u64(out, start)?;
    put_u64(out, end)?;
    put_u32(out, lock_type(kind))?;
    put_zeros(out, 12)
}

fn lock_type(kind: LockWish) -> u32
    ensures { result ≡ type_of kind }
{
    match kind {
        LockWish::Read => 0,
        LockWish::Write => 1,
        LockWish::Unlock => 2,
    }
}

/// The flag, where something is given.
fn flag(flag: u32, given: Option<u64>) -> u32
    ensures value { (bit : ℕ) → flag ≡ 2 ^ bit → result ≡ flag_of bit given }
    ensures most { result ≤ flag }
{
    match given {
        Some(_) => flag,
        None => 0,
    }
}
