//! What a node says to one that watches it.
ghost use Rattle.std.specs.Prelude.{◌≡◌, ℕ, drop, IfOk, IsTrue};
ghost use Rattle.node_core.specs.Nodes.{history, parts_of, said_to, seen};
ghost use Rattle.node_core.specs.Safely.{StepsSafely, law_answer};
ghost use Rattle.node_core.specs.Steps.{IsStep};
ghost use Rattle.node_core.specs.Watching.{AreBehind, TellsWatcher};
ghost use Rattle.world_laws.specs.Node as laws;

use crate::answer::Answer;
use crate::ask::Ask;
use crate::files::Files;
use crate::node::Node;
use crate::refusal::Refusal;
use lf_base::{NoMemory, Pos};
use lf_disk::Disk;
use std::alloc::Global;
use txn_log::{Answer as Owed, Entry};
use world_laws::moment_is_of_step;

/// The files from this place on.
fn files_from(alloc: Global, entries: &[Entry], first: usize) -> Result<Files, NoMemory>
    ensures { IfOk result (λ files. files ≡ drop first entries.now) }
{
    match entries.get(first..) {
        Some(files) => Ok(Files::of(Vec::from_slice(alloc, files)?)),
        None => Ok(Files::of(Vec::new(alloc))),
    }
}

impl<D: Disk> Node<D> {
    /// The files of its log behind a position.
    fn files_behind(&self, pos: Pos) -> Result<Files, NoMemory>
        ensures { IfOk result (λ files. AreBehind (parts_of self.now).store pos files) }
    {
        match self.store.answer(pos, false) {
            Owed::Files { first } => {
                files_from(self.alloc, self.store.entries.as_slice(), first)
            }
            Owed::Level | Owed::Gone | Owed::Snapshot => Ok(Files::of(Vec::new(self.alloc))),
        }
    }

    /// What it is, with these files.
    fn tell_watcher(&self, pos: Pos) -> Answer
        ensures tells { TellsWatcher (parts_of self.now) pos result }
        ensures safe { IsTrue (D.honest self.now.store.disk) → StepsSafely (seen (history self.now) (parts_of self.now)) laws.Where
            (law_answer result) (seen (history self.now) (parts_of self.now)) (history self.now) (history self.now) }
    {
        match (self.info(), self.files_behind(pos)) {
            (Ok(info), Ok(files)) => Answer::Watched { info, files },
            _ => Answer::Refused(Refusal::NoMemory),
        }
    }

    /// The same at a moment.
    pub(crate) fn answer_watch(&mut self, now: u64, pos: Pos) -> Answer
        ensures step { (caller : ℕ) → IsStep (history self.old) (parts_of self.old) caller (Ask.Watch now pos) result (history self.new) (parts_of self.new) (said_to self.new) }
    {
        moment_is_of_step();
        self.at_moment(now);
        self.tell_watcher(pos)
    }
}
