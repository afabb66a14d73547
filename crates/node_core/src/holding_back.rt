//! A frame that a lock holds back keeps new readers out, as SQLite's writer does by PENDING.
ghost use Rattle.std.specs.Prelude.{◌≡◌};
ghost use Rattle.std.specs.List.{list_any};
ghost use Rattle.byte_locks.specs.LockSet.{has};
ghost use Rattle.node_core.specs.HoldingBack.{asks_in, comes_in, entering_locks, is_kept_out, noted};
ghost use Rattle.node_core.specs.Nodes.{parts_of};

use crate::answer::Answer;
use crate::held_back::{held_by, keeps_out};
use crate::node::Node;
use byte_locks::{LockId, LockSet, Owner};
use file_view::locks_at;
use fuse_msgs::{LockWish, Op, Request};
use lf_disk::Disk;

/// The locks that a reader comes in by where the image is in rollback mode.
const ROLLBACK_LOCKS: [LockId; 2] = [LockId::Pending, LockId::Shared];

const NO_LOCKS: [LockId; 0] = [];

/// The same where it is in WAL mode.
const WAL_LOCKS: [LockId; 5] = [
    LockId::Read0,
    LockId::Read1,
    LockId::Read2,
    LockId::Read3,
    LockId::Read4,
];

/// The locks that a reader comes in by, as it wishes to hold them.
fn entering_locks(wish: LockWish, wal: bool) -> &'static [LockId]
    ensures { result.now ≡ entering_locks wish wal }
{
    match wish {
        LockWish::Read => { if wal { &WAL_LOCKS } else { &ROLLBACK_LOCKS } }
        LockWish::Write => { if wal { &WAL_LOCKS } else { &NO_LOCKS } }
        LockWish::Unlock => &NO_LOCKS,
    }
}

/// Whether a reader comes in by one of these locks.
fn enters(locks: LockSet, wish: LockWish, wal: bool) -> bool
    ensures { result ≡ list_any (has locks) (entering_locks wish wal) }
{
    entering_locks(wish, wal)
        .iter()
        .any(|lock| locks.has(*lock))
}

/// The owner that a message of the session names.
fn owner_of(session: u64, id: u64) -> Owner
    ensures { result ≡ record { session = session; id = id } }
{
    Owner { session, id }
}

impl<D: Disk> Node<D> {
    /// Notes what this answer to a frame or a drop says of those that are held back.
    pub(crate) fn note(&mut self, answer: &Answer)
        ensures parts { parts_of self.new ≡ noted answer.now (parts_of self.old) }
        ensures store { self.new.store ≡ self.old.store }
    {
        self.held = held_by(answer, self.standing.moment, self.held);
    }

    /// Whether something counts as held back.
    pub(crate) fn is_held_back(&self) -> bool {
        self.held
            .is_some_and(|held| held.is_fresh(self.standing.moment))
    }

    /// Whether an owner who isn't inside asks to come in.
    fn comes_in(&self, owner: Owner, locks: LockSet, wish: LockWish) -> bool
        ensures { result ≡ comes_in (parts_of self.now) owner locks wish }
    {
        let wal = self.store.wal;
        enters(locks, wish, wal) && !self.view.is_inside(owner, wal)
    }

    /// Whether a caller asks to come in.
    fn asks_in(&self, caller: u64, node: u64, op: &Op) -> bool
        ensures { result ≡ asks_in (parts_of self.now) caller node op.now }
    {
        match op {
            Op::Setlk {
                owner,
                start,
                end,
                kind,
                ..
            } => {
                self.comes_in(
                    owner_of(caller, *owner),
                    locks_at(node, *start, *end),
                    *kind,
                )
            }
            Op::Setlkw {
                owner,
                start,
                end,
                kind,
                ..
            } => {
                self.comes_in(
                    owner_of(caller, *owner),
                    locks_at(node, *start, *end),
                    *kind,
                )
            }
            _ => false,
        }
    }

    /// Whether a request asks to come in while a frame is held back.
    pub(crate) fn is_kept_out(&self, caller: u64, request: &Request) -> bool
        ensures { result ≡ is_kept_out (parts_of self.now) caller request.now }
    {
        keeps_out(self.held, self.standing.moment)
            && self.is_replica()
            && self.asks_in(caller, request.node, &request.op)
    }
}
