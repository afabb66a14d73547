//! The requests of a run, in order.

ghost use Rattle.std.specs.Prelude.{◌≡◌, IfOk};
ghost use Rattle.run_child.specs.Filling.{IsAskable};
ghost use Rattle.run_child.specs.Requests as spec;

use fuse_msgs::{LockWish, Op, Request};
use lf_base::{Bytes, Name, NoMemory};
use std::alloc::Global;

/// The byte of the lock's file that is HALT.
const HALT: u64 = 72;

/// The owner of the lock, and of the handle.
const OWNER: u64 = 1;

/// The root's node.
const ROOT: u64 = 1;

/// The lock's file: its node and a handle of it.
#[derive(Clone, Copy)]
pub struct Handle {
    pub node: u64,
    pub fh: u64,
}

/// INIT of FUSE 7.31.
pub fn init() -> Request
    ensures value { result ≡ spec.init }
    ensures askable { IsAskable result }
{
    Request {
        unique: 1,
        node: 0,
        pid: 0,
        op: Op::Init {
            major: 7,
            minor: 31,
        },
    }
}

/// LOOKUP of the file that stands for the database's locks.
#[tactic(auto, using(crate::proofs::Names::lock_name_fits))]
pub fn look_up(alloc: Global, name: &Name) -> Result<Request, NoMemory>
    ensures value { IfOk result (λ request. request ≡ spec.look_up name.now) }
    ensures askable { IfOk result IsAskable }
{
    let mut file = Vec::from_slice(alloc, name.bytes())?;
    file.extend_from_slice(b"-lock")?;
    Ok(Request {
        unique: 2,
        node: ROOT,
        pid: 0,
        op: Op::Lookup {
            name: Bytes::of(file),
        },
    })
}

/// OPEN of that file.
pub fn open_file(node: u64) -> Request
    ensures value { result ≡ spec.open_file node }
    ensures askable { IsAskable result }
{
    Request {
        unique: 3,
        node,
        pid: 0,
        op: Op::Open,
    }
}

/// SETLKW: the write lock on HALT, waited for.
pub fn take_lock(handle: Handle) -> Request
    ensures value { result ≡ spec.take_lock handle.node handle.fh }
    ensures askable { IsAskable result }
{
    Request {
        unique: 4,
        node: handle.node,
        pid: 0,
        op: Op::Setlkw {
            fh: handle.fh,
            owner: OWNER,
            start: HALT,
            end: HALT,
            kind: LockWish::Write,
        },
    }
}

/// SETLK: HALT unlocked.
pub fn unlock(handle: Handle) -> Request
    ensures value { result ≡ spec.unlock handle.node handle.fh }
    ensures askable { IsAskable result }
{
    Request {
        unique: 5,
        node: handle.node,
        pid: 0,
        op: Op::Setlk {
            fh: handle.fh,
            owner: OWNER,
            start: HALT,
            end: HALT,
            kind: LockWish::Unlock,
        },
    }
}

/// RELEASE of the handle.
pub fn release(handle: Handle) -> Request
    ensures value { result ≡ spec.release handle.node handle.fh }
    ensures askable { IsAskable result }
{
    Request {
        unique: 6,
        node: handle.node,
        pid: 0,
        op: Op::Release {
            fh: handle.fh,
            owner: OWNER,
        },
    }
}

/// DESTROY.
pub fn destroy() -> Request
    ensures value { result ≡ spec.destroy }
    ensures askable { IsAskable result }
{
    Request {
        unique: 7,
        node: 0,
        pid: 0,
        op: Op::Destroy,
    }
}
