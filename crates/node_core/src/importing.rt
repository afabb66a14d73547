//! A database in the place of the primary's.
ghost use Rattle.std.specs.Prelude.{◌≡◌, ℕ, IsTrue};
ghost use Rattle.file_view.specs.declared.view.Role.TheVariants as role;
ghost use Rattle.node_core.specs.Dropping.{IsFree};
ghost use Rattle.node_core.specs.Importing.{AnswersChange, AnswersImport, TakesImport};
ghost use Rattle.node_core.specs.Nodes.{history, parts_of, role_in, said_to, seen};
ghost use Rattle.node_core.specs.Safely.{StepsSafely, law_answer};
ghost use Rattle.node_core.specs.Steps.{IsStep};
ghost use Rattle.world_laws.specs.Node as laws;

use crate::answer::Answer;
use crate::ask::Ask;
use crate::node::Node;
use crate::refusal::{Refusal, refusal_of, refusal_of_import};
use crate::sent::overtake;
use halt_forward::HaltFault;
use lf_base::Bytes;
use lf_disk::Disk;
use lf_sqlite_pages::Change;
use snapshot::import_change;
use world_laws::moment_is_of_step;

impl<D: Disk> Node<D> {
    /// Commits the change that an import is. Its files are then those of the new image.
    fn commit_import(&mut self, change: Change) -> Answer
        requires primary { role_in (parts_of self.old) ≡ role.Primary }
        requires free { IsFree (parts_of self.old) }
        ensures does { AnswersChange (history self.old) (parts_of self.old) change result (history self.new) (parts_of self.new) }
        ensures safe { IsTrue (D.honest self.old.store.disk) → StepsSafely (seen (history self.old) (parts_of self.old)) laws.Import
            (law_answer result) (seen (history self.new) (parts_of self.new)) (history self.old) (history self.new) }
        ensures standing { self.new.standing ≡ self.old.standing }
        ensures honest { D.honest self.new.store.disk ≡ D.honest self.old.store.disk }
    {
        match self
            .store
            .commit(change, self.standing.moment, self.config.node)
        {
            Ok(position) => {
                self.view.applied(self.store.page_size, self.store.commit);
                self.view.told_position(position);
                overtake(&mut self.sent);
                Answer::Applied(position)
            }
            Err(fault) => Answer::Refused(refusal_of(fault)),
        }
    }

    /// Takes bytes that no lock holds back.
    fn take_import(&mut self, bytes: &Bytes) -> Answer
        requires primary { role_in (parts_of self.old) ≡ role.Primary }
        requires free { IsFree (parts_of self.old) }
        ensures does { TakesImport (history self.old) (parts_of self.old) bytes.now result (history self.new) (parts_of self.new) }
        ensures safe { IsTrue (D.honest self.old.store.disk) → StepsSafely (seen (history self.old) (parts_of self.old)) laws.Import
            (law_answer result) (seen (history self.new) (parts_of self.new)) (history self.old) (history self.new) }
        ensures standing { self.new.standing ≡ self.old.standing }
        ensures honest { D.honest self.new.store.disk ≡ D.honest self.old.store.disk }
    {
        match import_change(&mut self.store, bytes.as_slice()) {
            Ok(None) => Answer::Same(self.store.pos()),
            Ok(Some(change)) => self.commit_import(change),
            Err(fault) => Answer::Refused(refusal_of_import(fault)),
        }
    }

    /// Answers the bytes of a database.
    fn import(&mut self, bytes: &Bytes) -> Answer
        ensures does { AnswersImport (history self.old) (parts_of self.old) bytes.now result (history self.new) (parts_of self.new) }
        ensures safe { IsTrue (D.honest self.old.store.disk) → StepsSafely (seen (history self.old) (parts_of self.old)) laws.Import
            (law_answer result) (seen (history self.new) (parts_of self.new)) (history self.old) (history self.new) }
        ensures standing { self.new.standing ≡ self.old.standing }
        ensures honest { D.honest self.new.store.disk ≡ D.honest self.old.store.disk }
    {
        if !self.leads() {
            return Answer::Refused(Refusal::NotPrimary);
        }
        if let Some(pass) = self.standing.permit_out() {
            return Answer::Refused(Refusal::Halt(HaltFault::HaltHeld {
                number: pass.number,
                until: pass.until,
            }));
        }
        match self.view.apply_clear(self.store.wal) {
            Ok(()) => self.take_import(bytes),
            Err(lock) => Answer::Held(lock),
        }
    }

    /// Answers the bytes of a database, at a moment.
    pub(crate) fn answer_import(&mut self, now: u64, bytes: &Bytes) -> Answer
        ensures step { (caller : ℕ) → IsStep (history self.old) (parts_of self.old) caller (Ask.Import now bytes.now) result (history self.new) (parts_of self.new) (said_to self.new) }
    {
        moment_is_of_step();
        self.at_moment(now);
        self.import(bytes)
    }
}
