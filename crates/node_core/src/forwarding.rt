//! A transaction that another node made under a write permit.
ghost use Rattle.std.specs.Prelude.{◌≡◌, ◌≢◌, ℕ, IsTrue, MatchBool};
ghost use Rattle.ltx_codec.specs.Format.{IsFile};
ghost use Rattle.ltx_codec.specs.Positions.{before};
ghost use Rattle.file_view.specs.declared.view.Role.TheVariants as role;
ghost use Rattle.node_core.specs.Dropping.{IsFree};
ghost use Rattle.node_core.specs.Forwarding.{Accepts, AcceptsBytes, AcceptsFile, AcceptsTransaction, AnswersForward, CommitsNext};
ghost use Rattle.node_core.specs.Nodes.{history, parts_of, role_in, said_to, seen};
ghost use Rattle.node_core.specs.Safely.{IsForwardOf, StepsSafely, law_answer};
ghost use Rattle.node_core.specs.Steps.{IsStep};
ghost use Rattle.node_core.specs.Framing.{Stands};
ghost use Rattle.node_core.specs.Stores.{failed, fields_of, history_of, state};
ghost use Rattle.txn_log.specs.Calls.{Went};
ghost use Rattle.txn_log.specs.Causes.{Breaks};
ghost use Rattle.world_laws.specs.Answers.{completed_over};
ghost use Rattle.world_laws.specs.Store.{Commit};
ghost use Rattle.world_laws.specs.Node as laws;

use crate::answer::Answer;
use crate::ask::Ask;
use crate::node::Node;
use crate::octets::are_bytes;
use crate::refusal::{Refusal, refusal_of, refusal_of_encoding};
use crate::sent::overtake;
use halt_forward::HaltFault;
use lf_base::{Bytes, Pos};
use lf_disk::Disk;
use ltx_codec::{Ltx, LtxFault, decode, encoding_breaks_no_rule, file_is_read};
use txn_log::{Store, StoreFault};
use world_laws::moment_is_of_step;

/// Whether a file follows a position.
pub(crate) fn follows(file: &Ltx, have: Pos) -> bool
    requires { IsFile file.now }
    ensures { MatchBool result (before file.now ≡ have) (before file.now ≢ have) }
{
    file.before() == have
}

/// A store commits a file of one transaction that another made.
fn accept<D: Disk>(store: &mut Store<D>, file: &Ltx) -> Result<Pos, StoreFault>
    requires valid { IsFile file.now }
    requires single { file.now.header.max ≡ file.now.header.min }
    ensures answers { Accepts (fields_of store.old) file.now result }
    ensures cause { Breaks store.old.broken (D.faults store.old.disk) result store.new.broken (D.faults store.new.disk) }
    ensures stands { Stands (fields_of store.old) file.now result (fields_of store.new) }
    ensures went { IsTrue (D.honest store.old.disk) → Went (state (history_of store.old) (fields_of store.old)) (failed (history_of store.old) (fields_of store.old)) (history_of store.old)
        (Commit (completed_over (state (history_of store.old) (fields_of store.old)) file.now)) result
        (state (history_of store.new) (fields_of store.new)) (failed (history_of store.new) (fields_of store.new)) (history_of store.new) }
    ensures honest { D.honest store.new.disk ≡ D.honest store.old.disk }
{
    store.accept(file)
}

impl<D: Disk> Node<D> {
    /// Commits a transaction that follows the position, and that no lock holds back.
    fn commit_forwarded(&mut self, file: &Ltx) -> Answer
        requires valid { IsFile file.now }
        requires primary { role_in (parts_of self.old) ≡ role.Primary }
        requires single { file.now.header.max ≡ file.now.header.min }
        requires free { IsFree (parts_of self.old) }
        ensures does { CommitsNext (history self.old) (parts_of self.old) file.now result (history self.new) (parts_of self.new) }
        ensures safe { IsTrue (D.honest self.old.store.disk) → StepsSafely (seen (history self.old) (parts_of self.old)) (laws.Forward file.now)
            (law_answer result) (seen (history self.new) (parts_of self.new)) (history self.old) (history self.new) }
        ensures standing { self.new.standing ≡ self.old.standing }
        ensures honest { D.honest self.new.store.disk ≡ D.honest self.old.store.disk }
    {
        match accept(&mut self.store, file) {
            Ok(position) => {
                self.view.applied(self.store.page_size, self.store.commit);
                self.view.told_position(self.store.pos());
                overtake(&mut self.sent);
                Answer::Applied(position)
            }
            Err(fault) => Answer::Refused(refusal_of(fault)),
        }
    }

    /// Takes a file of one transaction.
    fn accept_transaction(&mut self, file: &Ltx) -> Answer
        requires valid { IsFile file.now }
        requires primary { role_in (parts_of self.old) ≡ role.Primary }
        requires single { file.now.header.max ≡ file.now.header.min }
        ensures does { AcceptsTransaction (history self.old) (parts_of self.old) file.now result (history self.new) (parts_of self.new) }
        ensures safe { IsTrue (D.honest self.old.store.disk) → StepsSafely (seen (history self.old) (parts_of self.old)) (laws.Forward file.now)
            (law_answer result) (seen (history self.new) (parts_of self.new)) (history self.old) (history self.new) }
        ensures standing { self.new.standing ≡ self.old.standing }
        ensures honest { D.honest self.new.store.disk ≡ D.honest self.old.store.disk }
    {
        let have = self.store.pos();
        if !follows(file, have) {
            let want = file.before();
            return Answer::Refused(Refusal::Halt(HaltFault::Behind { have, want }));
        }
        match self.view.apply_clear(self.store.wal) {
            Ok(()) => self.commit_forwarded(file),
            Err(lock) => Answer::Held(lock),
        }
    }

    /// Takes a file.
    fn accept_file(&mut self, file: &Ltx) -> Answer
        requires valid { IsFile file.now }
        requires primary { role_in (parts_of self.old) ≡ role.Primary }
        ensures does { AcceptsFile (history self.old) (parts_of self.old) file.now result (history self.new) (parts_of self.new) }
        ensures safe { IsTrue (D.honest self.old.store.disk) → StepsSafely (seen (history self.old) (parts_of self.old)) (laws.Forward file.now)
            (law_answer result) (seen (history self.new) (parts_of self.new)) (history self.old) (history self.new) }
        ensures standing { self.new.standing ≡ self.old.standing }
        ensures honest { D.honest self.new.store.disk ≡ D.honest self.old.store.disk }
    {
        if file.header.max == file.header.min {
            self.accept_transaction(file)
        } else {
            Answer::Refused(Refusal::Ltx(LtxFault::Txid))
        }
    }

    /// Takes the bytes of a file.
    fn accept_bytes(&mut self, bytes: &Bytes) -> Answer
        requires primary { role_in (parts_of self.old) ≡ role.Primary }
        ensures does { AcceptsBytes (history self.old) (parts_of self.old) bytes.now result (history self.new) (parts_of self.new) }
        ensures safe { IsTrue (D.honest self.old.store.disk) → (law : laws.Ask) → IsForwardOf bytes.now law → StepsSafely (seen (history self.old) (parts_of self.old)) law
            (law_answer result) (seen (history self.new) (parts_of self.new)) (history self.old) (history self.new) }
        ensures standing { self.new.standing ≡ self.old.standing }
        ensures honest { D.honest self.new.store.disk ≡ D.honest self.old.store.disk }
    {
        file_is_read();
        encoding_breaks_no_rule();
        are_bytes(bytes.as_slice());
        match decode(self.alloc, bytes.as_slice()) {
            Ok(file) => self.accept_file(&file),
            Err(fault) => Answer::Refused(refusal_of_encoding(fault)),
        }
    }

    /// Answers the bytes of a file that comes under the permit of this number.
    fn forward(&mut self, number: u64, bytes: &Bytes) -> Answer
        ensures does { AnswersForward (history self.old) (parts_of self.old) number bytes.now result (history self.new) (parts_of self.new) }
        ensures safe { IsTrue (D.honest self.old.store.disk) → (law : laws.Ask) → IsForwardOf bytes.now law → StepsSafely (seen (history self.old) (parts_of self.old)) law
            (law_answer result) (seen (history self.new) (parts_of self.new)) (history self.old) (history self.new) }
        ensures standing { self.new.standing ≡ self.old.standing }
        ensures honest { D.honest self.new.store.disk ≡ D.honest self.old.store.disk }
    {
        if !self.leads() {
            return Answer::Refused(Refusal::NotPrimary);
        }
        match self.standing.refuses_use(number) {
            Some(fault) => Answer::Refused(Refusal::Halt(fault)),
            None => self.accept_bytes(bytes),
        }
    }

    /// Answers such bytes, at a moment.
    pub(crate) fn answer_forward(&mut self, now: u64, number: u64, bytes: &Bytes) -> Answer
        ensures step { (caller : ℕ) → IsStep (history self.old) (parts_of self.old) caller (Ask.Forward now number bytes.now)
            result (history self.new) (parts_of self.new) (said_to self.new) }
    {
        moment_is_of_step();
        self.at_moment(now);
        self.forward(number, bytes)
    }
}
