//! Laws of the definitions, each proved as the contract of a function that does nothing.
ghost use Rattle.std.specs.Prelude.{ℕ, List};
ghost use Rattle.lf_base.specs.declared.session_end.SessionEnd.TheVariants as ends;
ghost use Rattle.link_session.specs.Stands.{Asker, Stand};
ghost use Rattle.node_core.specs.declared.whereabouts.Whereabouts.{Whereabouts};
ghost use Rattle.stream_primary.specs.OneRun.{StreamsAreInOneRun};
ghost use Rattle.stream_primary.specs.Streaming.{NodeEntry, OwesStill, Streams};

use lf_disk::Disk;
use node_core::Node;
use turn_desk::Machine;

/// Where memory ran out nothing is lost to the follower: of the answer that it was owed no byte was written, and a stream
/// from where it stands asks the same first.
pub fn owed_again()
    ensures { (who : Asker) (name : List ℕ) (from : Whereabouts) (old new : Stand NodeEntry) (turns : ℕ) → Streams who name from old new turns ends.NoMemory
        → OwesStill who name from old.place new.place }
{}

/// A stream of a node, over any disk, stands in one run of that node: its Hellos are steps of the run, in their order, each at
/// the position to which the answers before it led, and each is told what the node's log owed a follower there, as the
/// node stood then. What was written is the head, these files and drops, and one Ready where the follower was level first.
pub fn stream_in_one_run<D: Disk>()
    ensures { StreamsAreInOneRun ⟦<Node<D> as Machine>⟧.steps }
{}
