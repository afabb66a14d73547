//! What a permit that is out holds back.
ghost use Rattle.std.specs.Prelude.{◌≡◌};
ghost use Rattle.node_core.specs.Locking.{asks_to_write, commit_refusal, is_barred, is_wish, writers_lock};
ghost use Rattle.node_core.specs.Nodes.{parts_of};

use crate::errno::{EAGAIN, EROFS};
use crate::node::Node;
use crate::standing::Standing;
use byte_locks::{LockId, LockSet};
use file_view::{Role, locks_at};
use fuse_msgs::{LockWish, Op, Request};
use lf_base::Errno;
use lf_disk::Disk;

/// Whether a lock is asked for.
fn is_wish(wish: LockWish) -> bool
    ensures { result ≡ is_wish wish }
{
    match wish {
        LockWish::Read | LockWish::Write => true,
        LockWish::Unlock => false,
    }
}

/// Whether a lock that only a writer takes is among them.
fn writers_lock(locks: LockSet) -> bool
    ensures { result ≡ writers_lock locks }
{
    locks.has(LockId::Reserved) || locks.has(LockId::Write)
}

/// Whether an operation asks for such a lock.
fn asks_to_write(node: u64, op: &Op) -> bool
    ensures { result ≡ asks_to_write node op.now }
{
    match op {
        Op::Setlk {
            start,
            end,
            kind,
            ..
        } => is_wish(*kind) && writers_lock(locks_at(node, *start, *end)),
        Op::Setlkw {
            start,
            end,
            kind,
            ..
        } => is_wish(*kind) && writers_lock(locks_at(node, *start, *end)),
        _ => false,
    }
}

impl<D: Disk> Node<D> {
    /// Whether a permit is out that holds the request back.
    pub(crate) fn is_barred(&self, request: &Request) -> bool
        ensures { result ≡ is_barred (parts_of self.now) request.now }
    {
        self.standing.permit_out().is_some() && asks_to_write(request.node, &request.op)
    }
}

impl Standing {
    /// Why the node has no leave to commit, if it has none.
    pub(crate) fn commit_refusal(&self) -> Option<Errno>
        ensures { result ≡ commit_refusal self.now }
    {
        match self.role() {
            Role::Primary => self.permit_out().map(|_| EAGAIN),
            Role::Replica | Role::Halted => Some(EROFS),
        }
    }
}
