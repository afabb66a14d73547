//! The bytes of the database.
ghost use Rattle.std.specs.Prelude.{◌≡◌, ℕ};
ghost use Rattle.node_core.specs.Nodes.{history, parts_of, said_to};
ghost use Rattle.node_core.specs.Steps.{IsStep};

use crate::answer::Answer;
use crate::ask::Ask;
use crate::node::Node;
use crate::refusal::{Refusal, refusal_of};
use lf_base::Bytes;
use lf_disk::Disk;
use snapshot::export;

impl<D: Disk> Node<D> {
    /// Gives the bytes of a database that was written.
    pub(crate) fn export(&mut self) -> Answer
        ensures step { (caller : ℕ) → IsStep (history self.old) (parts_of self.old) caller Ask.Export result (history self.new) (parts_of self.new) (said_to self.new) }
    {
        if self.store.pos().txid == 0 {
            return Answer::Refused(Refusal::Absent);
        }
        let mut bytes = Vec::new(self.alloc);
        match export(&mut self.store, &mut bytes) {
            Ok(()) => Answer::Bytes(Bytes::of(bytes)),
            Err(fault) => Answer::Refused(refusal_of(fault)),
        }
    }
}
