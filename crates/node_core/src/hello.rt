//! What is owed to a follower.
ghost use Rattle.std.specs.Prelude.{◌≡◌, ◌<◌, ◌≤◌, ℕ, true, IsTrue};
ghost use Rattle.file_view.specs.declared.view.Role.TheVariants as role;
ghost use Rattle.lf_disk.specs.History.{now as folder};
ghost use Rattle.node_core.specs.Hello.{AnswersHello, IsOwed};
ghost use Rattle.node_core.specs.Nodes.{history, parts_of, role_in, said_to, seen};
ghost use Rattle.node_core.specs.Safely.{StepsSafely, law_answer};
ghost use Rattle.node_core.specs.Steps.{IsStep};
ghost use Rattle.txn_log.specs.LastFile.{Doubts};
ghost use Rattle.txn_log.specs.declared.answering.Answer.TheVariants as owed;
ghost use Rattle.world_laws.specs.Node as laws;

use crate::answer::Answer;
use crate::ask::Ask;
use crate::node::Node;
use crate::octets::are_bytes;
use crate::refusal::{Refusal, refusal_of};
use crate::running::next_from;
use lf_base::{Bytes, Pos};
use lf_disk::Disk;
use ltx_codec::file_is_read;
use snapshot::{make, snapshot_is_a_file};
use txn_log::{Answer as Owed, LastFile};
use world_laws::moment_is_of_step;

impl<D: Disk> Node<D> {
    /// Gives the file at a place of the log, or a run from there on.
    fn give_file(&mut self, from: Pos, last: Option<LastFile>, first: usize) -> Answer
        requires primary { role_in (parts_of self.old) ≡ role.Primary }
        requires owed { IsOwed (history self.old) (parts_of self.old).store from last (owed.Files first) }
        ensures does { AnswersHello (history self.old) (parts_of self.old) from last result (history self.new) (parts_of self.new) }
        ensures safe { IsTrue (D.honest self.old.store.disk) → StepsSafely (seen (history self.old) (parts_of self.old)) (laws.Hello from last)
            (law_answer result) (seen (history self.new) (parts_of self.new)) (history self.old) (history self.new) }
        ensures standing { self.new.standing ≡ self.old.standing }
        ensures honest { D.honest self.new.store.disk ≡ D.honest self.old.store.disk }
    {
        file_is_read();
        match next_from(self.alloc, &mut self.store, first) {
            Ok(next) => {
                are_bytes(next.ltx.as_slice());
                Answer::Item {
                    ltx: next.ltx,
                    after: next.after,
                }
            }
            Err(fault) => Answer::Refused(refusal_of(fault)),
        }
    }

    /// Gives the snapshot.
    fn give_snapshot(&mut self, from: Pos, last: Option<LastFile>) -> Answer
        requires primary { role_in (parts_of self.old) ≡ role.Primary }
        requires owed { IsOwed (history self.old) (parts_of self.old).store from last owed.Snapshot }
        ensures does { AnswersHello (history self.old) (parts_of self.old) from last result (history self.new) (parts_of self.new) }
        ensures safe { IsTrue (D.honest self.old.store.disk) → StepsSafely (seen (history self.old) (parts_of self.old)) (laws.Hello from last)
            (law_answer result) (seen (history self.new) (parts_of self.new)) (history self.old) (history self.new) }
        ensures standing { self.new.standing ≡ self.old.standing }
        ensures honest { D.honest self.new.store.disk ≡ D.honest self.old.store.disk }
    {
        file_is_read();
        snapshot_is_a_file(&self.store);
        let after = self.store.pos();
        let mut bytes = Vec::new(self.alloc);
        match make(&mut self.store, &mut bytes) {
            Ok(()) => {
                are_bytes(bytes.as_slice());
                Answer::Item {
                    ltx: Bytes::of(bytes),
                    after,
                }
            }
            Err(fault) => Answer::Refused(refusal_of(fault)),
        }
    }

    /// Gives a primary's follower what it is owed, once it is known whether its position counts.
    fn give(&mut self, from: Pos, last: Option<LastFile>, doubted: bool) -> Answer
        requires primary { role_in (parts_of self.old) ≡ role.Primary }
        requires doubted { Doubts (D.honest self.old.store.disk) (folder (history self.old)) self.old.store.entries.items last doubted }
        ensures does { AnswersHello (history self.old) (parts_of self.old) from last result (history self.new) (parts_of self.new) }
        ensures safe { IsTrue (D.honest self.old.store.disk) → StepsSafely (seen (history self.old) (parts_of self.old)) (laws.Hello from last)
            (law_answer result) (seen (history self.new) (parts_of self.new)) (history self.old) (history self.new) }
        ensures standing { self.new.standing ≡ self.old.standing }
        ensures honest { D.honest self.new.store.disk ≡ D.honest self.old.store.disk }
    {
        match self.store.answer(from, doubted) {
            Owed::Gone => Answer::Gone,
            Owed::Level => Answer::Level(self.store.pos()),
            Owed::Files { first } => self.give_file(from, last, first),
            Owed::Snapshot => self.give_snapshot(from, last),
        }
    }

    /// Answers a follower at a position, which says this of its last file.
    fn hello(&mut self, from: Pos, last: Option<LastFile>) -> Answer
        ensures does { AnswersHello (history self.old) (parts_of self.old) from last result (history self.new) (parts_of self.new) }
        ensures safe { IsTrue (D.honest self.old.store.disk) → StepsSafely (seen (history self.old) (parts_of self.old)) (laws.Hello from last)
            (law_answer result) (seen (history self.new) (parts_of self.new)) (history self.old) (history self.new) }
        ensures standing { self.new.standing ≡ self.old.standing }
        ensures honest { D.honest self.new.store.disk ≡ D.honest self.old.store.disk }
    {
        if !self.leads() {
            return Answer::Refused(Refusal::NotPrimary);
        }
        match self.store.doubts(last) {
            Ok(doubted) => self.give(from, last, doubted),
            Err(fault) => Answer::Refused(refusal_of(fault)),
        }
    }

    /// Answers a follower at a position, at a moment.
    pub(crate) fn answer_hello(&mut self, now: u64, from: Pos, last: Option<LastFile>) -> Answer
        ensures step { (caller : ℕ) → IsStep (history self.old) (parts_of self.old) caller (Ask.Hello now from last) result (history self.new) (parts_of self.new) (said_to self.new) }
    {
        moment_is_of_step();
        self.at_moment(now);
        self.hello(from, last)
    }
}
