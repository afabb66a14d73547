//! The log keeps its newest files.
ghost use Rattle.std.specs.Prelude.{◌≡◌, ℕ, max};
ghost use Rattle.node_core.specs.Nodes.{history, parts_of, said_to};
ghost use Rattle.node_core.specs.Steps.{IsStep};

use crate::answer::Answer;
use crate::ask::Ask;
use crate::node::Node;
use crate::refusal::{Refusal, refusal_of};
use lf_disk::Disk;

impl<D: Disk> Node<D> {
    /// Prunes the log to its newest files.
    pub(crate) fn prune(&mut self, keep: u64) -> Answer
        ensures step { (caller : ℕ) → IsStep (history self.old) (parts_of self.old) caller (Ask.Prune keep) result (history self.new) (parts_of self.new) (said_to self.new) }
    {
        if self.store.pos().txid == 0 {
            return Answer::Refused(Refusal::Absent);
        }
        match self.store.prune(keep.max(1)) {
            Ok(count) => Answer::Pruned(count),
            Err(fault) => Answer::Refused(refusal_of(fault)),
        }
    }
}
