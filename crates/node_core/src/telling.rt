//! What a node says of itself.
ghost use Rattle.std.specs.Prelude.{◌≡◌, ℕ, IfOk, IsTrue};
ghost use Rattle.node_core.specs.Nodes.{history, parts_of, said_to, seen};
ghost use Rattle.node_core.specs.Safely.{StepsSafely, law_answer};
ghost use Rattle.node_core.specs.Steps.{IsStep};
ghost use Rattle.node_core.specs.Telling.{TellsInfo, first_of, info_of};
ghost use Rattle.txn_log.specs.declared.entry.Entry.{Entry};
ghost use Rattle.world_laws.specs.Node as laws;

use crate::answer::Answer;
use crate::ask::Ask;
use crate::info::NodeInfo;
use crate::node::Node;
use crate::refusal::Refusal;
use lf_base::NoMemory;
use lf_disk::Disk;
use txn_log::Entry;
use world_laws::moment_is_of_step;

/// The first transaction of a log.
fn first_of(entries: &[Entry]) -> u64
    ensures { result ≡ first_of entries.now }
{
    match entries.first() {
        Some(entry) => entry.min,
        None => 0,
    }
}

impl<D: Disk> Node<D> {
    /// What it is, and where it stands.
    pub(crate) fn info(&self) -> Result<NodeInfo, NoMemory>
        ensures { IfOk result (λ info. info ≡ info_of (parts_of self.now)) }
    {
        let primary = self.view.host()?;
        Ok(NodeInfo {
            role: self.standing.role(),
            pos: self.store.pos(),
            first: first_of(self.store.entries.as_slice()),
            files: self.store.entries.len() as u64,
            page_size: self.store.page_size,
            commit: self.store.commit,
            broken: self.store.broken,
            primary,
        })
    }

    /// The same as an answer.
    fn tell_info(&self) -> Answer
        ensures tells { TellsInfo (parts_of self.now) result }
        ensures safe { IsTrue (D.honest self.now.store.disk) → StepsSafely (seen (history self.now) (parts_of self.now)) laws.Where
            (law_answer result) (seen (history self.now) (parts_of self.now)) (history self.now) (history self.now) }
    {
        match self.info() {
            Ok(info) => Answer::Info(info),
            Err(_) => Answer::Refused(Refusal::NoMemory),
        }
    }

    /// What it is at a moment, and where it stands.
    pub(crate) fn answer_info(&mut self, now: u64) -> Answer
        ensures step { (caller : ℕ) → IsStep (history self.old) (parts_of self.old) caller (Ask.Info now) result (history self.new) (parts_of self.new) (said_to self.new) }
    {
        moment_is_of_step();
        self.at_moment(now);
        self.tell_info()
    }
}
