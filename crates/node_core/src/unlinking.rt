//! UNLINK of the database file drops the database.
ghost use Rattle.std.specs.Prelude.{◌≡◌, IsTrue};
ghost use Rattle.file_view.specs.Refusal.{first_refusal};
ghost use Rattle.node_core.specs.Nodes.{history, parts_of, said_to, seen};
ghost use Rattle.node_core.specs.Safely.{StepsSafely, law_answer};
ghost use Rattle.node_core.specs.Unlinking.{UnlinksDatabase, unlink_rows, unlinks, unlinks_database};
ghost use Rattle.world_laws.specs.Node as laws;

use crate::answer::Answer;
use crate::errno::{EAGAIN, EPERM, EROFS, errno_of_store};
use crate::node::Node;
use crate::sent::overtake;
use file_view::Role;
use fuse_msgs::{Op, Reply, Request};
use lf_base::{Errno, Name};
use lf_disk::Disk;

/// The node of the folder that the files stand in.
const ROOT: u64 = 1;

/// Whether an operation unlinks this name.
fn unlinks(name: &Name, op: &Op) -> bool
    ensures { result ≡ unlinks name.now op.now }
{
    match op {
        Op::Unlink { name: given } => given.as_slice() == name.bytes(),
        _ => false,
    }
}

impl<D: Disk> Node<D> {
    /// Whether a request unlinks the database file.
    pub(crate) fn unlinks_database(&self, request: &Request) -> bool
        ensures { result ≡ unlinks_database self.now.config request.now }
    {
        request.node == ROOT && unlinks(&self.config.name, &request.op)
    }

    /// Why the database file is not unlinked, before the store is asked.
    fn unlink_refusal(&self) -> Option<Errno>
        ensures { result ≡ first_refusal (unlink_rows (parts_of self.now)) }
    {
        match self.role() {
            Role::Replica => return Some(EROFS),
            Role::Halted => return Some(EPERM),
            Role::Primary => {}
        }
        if self.standing.permit_out().is_some() {
            return Some(EAGAIN);
        }
        match self.view.apply_clear(self.store.wal) {
            Ok(()) => None,
            Err(_) => Some(EAGAIN),
        }
    }

    /// Answers UNLINK of the database file. After it is done its files are those of no database.
    pub(crate) fn unlink_database(&mut self) -> Answer
        ensures does { UnlinksDatabase (history self.old) (parts_of self.old) result (history self.new) (parts_of self.new) (said_to self.new) }
        ensures safe { IsTrue (D.honest self.old.store.disk) → StepsSafely (seen (history self.old) (parts_of self.old)) laws.File
            (law_answer result) (seen (history self.new) (parts_of self.new)) (history self.old) (history self.new) }
        ensures standing { self.new.standing ≡ self.old.standing }
        ensures honest { D.honest self.new.store.disk ≡ D.honest self.old.store.disk }
    {
        if let Some(number) = self.unlink_refusal() {
            return Answer::Refuse(number);
        }
        if self.store.pos().txid == 0 {
            return Answer::Done(Reply::Empty);
        }
        match self.store.drop_all() {
            Ok(()) => {
                self.view.applied(0, 0);
                self.view.told_position(self.store.pos());
                overtake(&mut self.sent);
                Answer::Done(Reply::Empty)
            }
            Err(fault) => Answer::Refuse(errno_of_store(&self.store.disk, fault)),
        }
    }
}
