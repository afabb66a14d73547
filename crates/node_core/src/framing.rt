//! An LTX file of another node.
ghost use Rattle.std.specs.Prelude.{◌≡◌, ◌≢◌, ℕ, true, false, IsTrue};
ghost use Rattle.file_view.specs.declared.view.Role.TheVariants as role;
ghost use Rattle.ltx_codec.specs.Format.{IsFile};
ghost use Rattle.txn_log.specs.Calls.{Went};
ghost use Rattle.txn_log.specs.Causes.{Breaks};
ghost use Rattle.world_laws.specs.Answers.{call_of};
ghost use Rattle.world_laws.specs.Node as laws;
ghost use Rattle.node_core.specs.Dropping.{IsFree};
ghost use Rattle.node_core.specs.Framing.{AnswersFrame, AnswersLtx, LeadsHere, Stands, Takes, TakesLtx};
ghost use Rattle.node_core.specs.Nodes.{history, parts_of, role_in, said_to, seen};
ghost use Rattle.node_core.specs.Safely.{IsFrameOf, StepsSafely, law_answer};
ghost use Rattle.node_core.specs.Steps.{IsStep};
ghost use Rattle.node_core.specs.Stores.{failed, fields_of, history_of, state};

use crate::answer::Answer;
use crate::ask::Ask;
use crate::node::Node;
use crate::octets::are_bytes;
use crate::received::Received;
use crate::refusal::{Refusal, refusal_of, refusal_of_encoding};
use crate::sent::overtake;
use lf_base::{Bytes, Pos};
use lf_disk::Disk;
use ltx_codec::{encoding_breaks_no_rule, file_is_read};
use snapshot::install;
use txn_log::{Store, StoreFault};
use world_laws::moment_is_of_step;

/// A store takes a file: a snapshot is installed, any other is applied.
fn take<D: Disk>(store: &mut Store<D>, file: &Received<'_>) -> Result<Pos, StoreFault>
    requires { IsFile file.now }
    ensures answers { Takes (fields_of store.old) file.now result }
    ensures cause { Breaks store.old.broken (D.faults store.old.disk) result store.new.broken (D.faults store.new.disk) }
    ensures stands { Stands (fields_of store.old) file.now result (fields_of store.new) }
    ensures went { IsTrue (D.honest store.old.disk) → Went (state (history_of store.old) (fields_of store.old)) (failed (history_of store.old) (fields_of store.old)) (history_of store.old)
        (call_of (state (history_of store.old) (fields_of store.old)) file.now) result
        (state (history_of store.new) (fields_of store.new)) (failed (history_of store.new) (fields_of store.new)) (history_of store.new) }
    ensures honest { D.honest store.new.disk ≡ D.honest store.old.disk }
{
    match file.pages() {
        Some(other) => store.apply(other),
        None => install(store, file.encoded()),
    }
}

impl<D: Disk> Node<D> {
    /// Whether a file leads to just where the node stands, and is no snapshot.
    fn leads_here(&self, file: &Received<'_>) -> bool
        ensures yes { result ≡ true → LeadsHere (parts_of self.now) file.now }
        ensures no { result ≡ false → LeadsHere (parts_of self.now) file.now → ⊥ }
    {
        file.pages().is_some() && file.after() == self.store.pos()
    }

    /// Takes a file that no lock holds back.
    fn take_file(&mut self, file: &Received<'_>) -> Answer
        requires valid { IsFile file.now }
        requires replica { role_in (parts_of self.old) ≢ role.Primary }
        requires free { IsFree (parts_of self.old) }
        ensures does { TakesLtx (history self.old) (parts_of self.old) file.now result (history self.new) (parts_of self.new) }
        ensures safe { IsTrue (D.honest self.old.store.disk) → StepsSafely (seen (history self.old) (parts_of self.old)) (laws.Frame file.now)
            (law_answer result) (seen (history self.new) (parts_of self.new)) (history self.old) (history self.new) }
        ensures standing { self.new.standing ≡ self.old.standing }
        ensures honest { D.honest self.new.store.disk ≡ D.honest self.old.store.disk }
    {
        match take(&mut self.store, file) {
            Ok(position) => {
                self.view.applied(self.store.page_size, self.store.commit);
                self.view.told_position(self.store.pos());
                overtake(&mut self.sent);
                Answer::Applied(position)
            }
            Err(fault) => Answer::Refused(refusal_of(fault)),
        }
    }

    /// Answers a file.
    fn answer_ltx(&mut self, file: &Received<'_>) -> Answer
        requires valid { IsFile file.now }
        requires replica { role_in (parts_of self.old) ≢ role.Primary }
        ensures does { AnswersLtx (history self.old) (parts_of self.old) file.now result (history self.new) (parts_of self.new) }
        ensures safe { IsTrue (D.honest self.old.store.disk) → StepsSafely (seen (history self.old) (parts_of self.old)) (laws.Frame file.now)
            (law_answer result) (seen (history self.new) (parts_of self.new)) (history self.old) (history self.new) }
        ensures standing { self.new.standing ≡ self.old.standing }
        ensures honest { D.honest self.new.store.disk ≡ D.honest self.old.store.disk }
    {
        if self.leads_here(file) {
            return Answer::Same(self.store.pos());
        }
        match self.view.apply_clear(self.store.wal) {
            Ok(()) => self.take_file(file),
            Err(lock) => Answer::Held(lock),
        }
    }

    /// Answers the bytes of a file.
    fn frame(&mut self, bytes: &Bytes) -> Answer
        ensures does { AnswersFrame (history self.old) (parts_of self.old) bytes.now result (history self.new) (parts_of self.new) }
        ensures safe { IsTrue (D.honest self.old.store.disk) → (law : laws.Ask) → IsFrameOf bytes.now law → StepsSafely (seen (history self.old) (parts_of self.old)) law
            (law_answer result) (seen (history self.new) (parts_of self.new)) (history self.old) (history self.new) }
        ensures standing { self.new.standing ≡ self.old.standing }
        ensures honest { D.honest self.new.store.disk ≡ D.honest self.old.store.disk }
    {
        if self.leads() {
            return Answer::Refused(Refusal::NotReplica);
        }
        file_is_read();
        encoding_breaks_no_rule();
        are_bytes(bytes.as_slice());
        match Received::read(self.alloc, bytes.as_slice()) {
            Ok(file) => self.answer_ltx(&file),
            Err(fault) => Answer::Refused(refusal_of_encoding(fault)),
        }
    }

    /// Answers the bytes of a file, at a moment.
    pub(crate) fn answer_frame(&mut self, now: u64, bytes: &Bytes) -> Answer
        ensures step { (caller : ℕ) → IsStep (history self.old) (parts_of self.old) caller (Ask.Frame now bytes.now) result (history self.new) (parts_of self.new) (said_to self.new) }
    {
        moment_is_of_step();
        self.at_moment(now);
        let answer = self.frame(bytes);
        self.note(&answer);
        answer
    }
}
