//! Word that the database was dropped at another node.
ghost use Rattle.std.specs.Prelude.{◌≡◌, ℕ, IsTrue};
ghost use Rattle.node_core.specs.Dropping.{AnswersDrop};
ghost use Rattle.node_core.specs.Nodes.{history, parts_of, said_to, seen};
ghost use Rattle.node_core.specs.Safely.{StepsSafely, law_answer};
ghost use Rattle.node_core.specs.Steps.{IsStep};
ghost use Rattle.world_laws.specs.Node as laws;

use crate::answer::Answer;
use crate::ask::Ask;
use crate::node::Node;
use crate::refusal::{Refusal, refusal_of};
use crate::sent::overtake;
use lf_base::Pos;
use lf_disk::Disk;
use world_laws::moment_is_of_step;

/// The position of a database that was never written.
const NOWHERE: Pos = Pos { txid: 0, sum: 0 };

impl<D: Disk> Node<D> {
    /// Drops the database, as it was dropped elsewhere. Its files are then those of no database.
    fn drop_here(&mut self) -> Answer
        ensures does { AnswersDrop (history self.old) (parts_of self.old) result (history self.new) (parts_of self.new) }
        ensures safe { IsTrue (D.honest self.old.store.disk) → StepsSafely (seen (history self.old) (parts_of self.old)) laws.Drop
            (law_answer result) (seen (history self.new) (parts_of self.new)) (history self.old) (history self.new) }
        ensures standing { self.new.standing ≡ self.old.standing }
        ensures honest { D.honest self.new.store.disk ≡ D.honest self.old.store.disk }
    {
        if self.leads() {
            return Answer::Refused(Refusal::NotReplica);
        }
        if let Err(lock) = self.view.apply_clear(self.store.wal) {
            return Answer::Held(lock);
        }
        if self.store.pos().txid == 0 {
            return Answer::Applied(NOWHERE);
        }
        match self.store.drop_all() {
            Ok(()) => {
                self.view.applied(0, 0);
                self.view.told_position(self.store.pos());
                overtake(&mut self.sent);
                Answer::Applied(NOWHERE)
            }
            Err(fault) => Answer::Refused(refusal_of(fault)),
        }
    }

    /// Drops the database, at a moment.
    pub(crate) fn answer_drop(&mut self, now: u64) -> Answer
        ensures step { (caller : ℕ) → IsStep (history self.old) (parts_of self.old) caller (Ask.Drop now) result (history self.new) (parts_of self.new) (said_to self.new) }
    {
        moment_is_of_step();
        self.at_moment(now);
        let answer = self.drop_here();
        self.note(&answer);
        answer
    }
}
