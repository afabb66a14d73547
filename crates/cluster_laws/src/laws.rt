//! Laws of clusters of these nodes, each the contract of a function that calls other laws at most.
ghost use Rattle.cluster_laws.specs.Answering.{AnswersAreMoves, MomentsAreMoves};
ghost use Rattle.cluster_laws.specs.ClusterLaws.{BegunIsStart, ClusterIsKept, ClusterIsLed, DeliveredDropInstalls, DeliveredFileApplies, DeliveredSnapshotInstalls, InterruptedIsRestart, MovesAreEvents, ReaderIsSteady, RecoveredIsOpened, RestartsAreMoves, StepAnswersByWhole, StepsAreMoves, StopsAreMoves, program};
ghost use Rattle.cluster_laws.specs.Forwarding.{FailingLeaves, ForwardedIsOnce, SendingLeaves};
ghost use Rattle.cluster_laws.specs.LeasedLaws.{HolderMayCommit, LeasedBegunIsStart, LeasedIsKept, LeasedMovesAreLed, OneMayCommit, RestartsAreLeasedMoves, ServiceIsServed, StepsAreLeasedMoves, StopsAreLeasedMoves, leasing};
ghost use Rattle.cluster_laws.specs.LeasedRunning.{LeasedRunningHolds};
ghost use Rattle.cluster_laws.specs.Running.{RunningHolds};
ghost use Rattle.cluster_laws.specs.Service.{ServiceIsEvent, ServiceLeads};

use lease_core::holder_believes;
use lf_disk::Disk;
use node_core::Node;
use turn_desk::Machine;
use world_laws::{answer_installs, forwarded_once, reader_steady, safe_kept, stops_are_failures};

/// After every list of steps, deliveries, losses, lease changes, stops and restarts of nodes over any
/// honest disks, each node's committed pages are those of the lineage that its position names, whoever
/// commits. A stop at any moment of a step is among them, whatever the crash leaves, and so is one between
/// two steps. Where each commits as the holder of the lease, the commits of a term are one line.
pub fn cluster_is_safe<D: Disk>()
    ensures events { MovesAreEvents (program ⟦<Node<D> as Machine>⟧.steps (λ old new caller ask answer step. step.safe)) }
    ensures kept { ClusterIsKept (program ⟦<Node<D> as Machine>⟧.steps (λ old new caller ask answer step. step.safe)) }
    ensures led { ClusterIsLed (program ⟦<Node<D> as Machine>⟧.steps (λ old new caller ask answer step. step.safe)) }
    ensures steps { StepsAreMoves (program ⟦<Node<D> as Machine>⟧.steps (λ old new caller ask answer step. step.safe)) }
    ensures stops { StopsAreMoves (program ⟦<Node<D> as Machine>⟧.steps (λ old new caller ask answer step. step.safe)) }
    ensures restarts { RestartsAreMoves (program ⟦<Node<D> as Machine>⟧.steps (λ old new caller ask answer step. step.safe)) }
{
    safe_kept();
    stops_are_failures();
}

/// A node that was opened over a store that was recovered from a folder is one that was opened on this
/// folder, also where a recovery before it was stopped on its way; and nodes that were opened on folders
/// without files are a start.
pub fn cluster_opens<D: Disk>()
    ensures node { RecoveredIsOpened (program ⟦<Node<D> as Machine>⟧.steps (λ old new caller ask answer step. step.safe)) }
    ensures interrupted { InterruptedIsRestart (program ⟦<Node<D> as Machine>⟧.steps (λ old new caller ask answer step. step.safe)) }
    ensures start { BegunIsStart (program ⟦<Node<D> as Machine>⟧.steps (λ old new caller ask answer step. step.safe)) }
{}

/// While an owner is inside at a node that is a plain replica before and after each of its steps,
/// position, image, database file and committed frames stay.
pub fn cluster_reader_steady<D: Disk>()
    ensures { ReaderIsSteady (program ⟦<Node<D> as Machine>⟧.steps (λ old new caller ask answer step. step.safe)) }
{
    reader_steady();
}

/// A primary answers a position that its log lacks by one snapshot, or by word of the drop. What was sent
/// and is delivered waits for a lock or is refused for a fault of the disk, a broken store or want of
/// memory; else it is installed or applied.
pub fn cluster_answers_install<D: Disk>()
    ensures answer { StepAnswersByWhole (program ⟦<Node<D> as Machine>⟧.steps (λ old new caller ask answer step. step.safe)) }
    ensures snapshot { DeliveredSnapshotInstalls (program ⟦<Node<D> as Machine>⟧.steps (λ old new caller ask answer step. step.safe)) }
    ensures dropped { DeliveredDropInstalls (program ⟦<Node<D> as Machine>⟧.steps (λ old new caller ask answer step. step.safe)) }
    ensures file { DeliveredFileApplies (program ⟦<Node<D> as Machine>⟧.steps (λ old new caller ask answer step. step.safe)) }
{
    answer_installs();
}

/// A commit that a node sent under a write permit, and does once it is told that it was accepted, stands
/// once in the lineage that the primary had right after accepting it, and the node then has that lineage's
/// position and pages. A commit that is sent, and one that fails, leaves the node as it was.
pub fn cluster_forwards_once<D: Disk>()
    ensures stands { ForwardedIsOnce (program ⟦<Node<D> as Machine>⟧.steps (λ old new caller ask answer step. step.safe)) }
    ensures sent { SendingLeaves (program ⟦<Node<D> as Machine>⟧.steps (λ old new caller ask answer step. step.safe)) }
    ensures failed { FailingLeaves (program ⟦<Node<D> as Machine>⟧.steps (λ old new caller ask answer step. step.safe)) }
{
    forwarded_once();
}

/// Where the ledger's holder is the owner of the grant that has not ended, each change of the lease
/// service's table is an event of the lease; and a node that may commit, and whose moment is current,
/// commits as the holder.
pub fn service_leads()
    ensures event { ServiceIsEvent }
    ensures leads { ServiceLeads }
{
    holder_believes();
}

/// In a cluster with a lease service every list of moves is one of a cluster, and each of them leads: so
/// whatever is said of clusters and of terms holds without the premise that one node at a time commits.
/// Each node that may commit holds the lease, so no two nodes may commit at once. Every step of a node is
/// such a move, every stop at a moment of a step and between two, whatever the crash leaves and whatever
/// node starts on it, and whatever becomes of the service. It is wanted of the
/// clocks that each is ahead of a common time by an amount which does not change, that nothing is granted
/// before it was asked for in that time, and that no node commits at a moment before the service's; and a
/// term is given back only where its node believes in none.
pub fn leased_cluster_is_safe<D: Disk>()
    ensures moves { LeasedMovesAreLed (leasing ⟦<Node<D> as Machine>⟧.steps (λ old new caller ask answer step. step.safe) (λ old new caller ask answer step. step.role)
        (λ old new caller ask answer step. step.lease)) }
    ensures kept { LeasedIsKept (leasing ⟦<Node<D> as Machine>⟧.steps (λ old new caller ask answer step. step.safe) (λ old new caller ask answer step. step.role)
        (λ old new caller ask answer step. step.lease)) }
    ensures holder { HolderMayCommit (leasing ⟦<Node<D> as Machine>⟧.steps (λ old new caller ask answer step. step.safe) (λ old new caller ask answer step. step.role)
        (λ old new caller ask answer step. step.lease)) }
    ensures one { OneMayCommit (leasing ⟦<Node<D> as Machine>⟧.steps (λ old new caller ask answer step. step.safe) (λ old new caller ask answer step. step.role)
        (λ old new caller ask answer step. step.lease)) }
    ensures steps { StepsAreLeasedMoves (leasing ⟦<Node<D> as Machine>⟧.steps (λ old new caller ask answer step. step.safe) (λ old new caller ask answer step. step.role)
        (λ old new caller ask answer step. step.lease)) }
    ensures stops { StopsAreLeasedMoves (leasing ⟦<Node<D> as Machine>⟧.steps (λ old new caller ask answer step. step.safe) (λ old new caller ask answer step. step.role)
        (λ old new caller ask answer step. step.lease)) }
    ensures restarts { RestartsAreLeasedMoves (leasing ⟦<Node<D> as Machine>⟧.steps (λ old new caller ask answer step. step.safe)
        (λ old new caller ask answer step. step.role) (λ old new caller ask answer step. step.lease)) }
    ensures serves { ServiceIsServed (leasing ⟦<Node<D> as Machine>⟧.steps (λ old new caller ask answer step. step.safe) (λ old new caller ask answer step. step.role)
        (λ old new caller ask answer step. step.lease)) }
    ensures start { LeasedBegunIsStart (leasing ⟦<Node<D> as Machine>⟧.steps (λ old new caller ask answer step. step.safe) (λ old new caller ask answer step. step.role)
        (λ old new caller ask answer step. step.lease)) }
{
    holder_believes();
    safe_kept();
    stops_are_failures();
}

/// Each answer of the lease service to a request is a move of a cluster, and what it tells of a grant is the
/// reply that is still to come to the number that asked; and so it is where only the moment passed. It is
/// wanted of a grant that it was asked for no later than it is given, and of a term that is given back that
/// its node is idle.
pub fn service_answers_are_moves<D: Disk>()
    ensures answers { AnswersAreMoves (leasing ⟦<Node<D> as Machine>⟧.steps (λ old new caller ask answer step. step.safe) (λ old new caller ask answer step. step.role)
        (λ old new caller ask answer step. step.lease)) }
    ensures moment { MomentsAreMoves (leasing ⟦<Node<D> as Machine>⟧.steps (λ old new caller ask answer step. step.safe) (λ old new caller ask answer step. step.role)
        (λ old new caller ask answer step. step.lease)) }
{
    leased_cluster_is_safe::<D>();
}

/// A cluster that begins holds on for any number of things, whatever happens one after another: whatever
/// steps the nodes take, and wherever they are stopped, in the midst of a step or between two, however often
/// a recovery is stopped too. After each a ledger goes along, and each node's committed pages are those of
/// the lineage that its position names. With a lease service whatever becomes of that is among it, and what
/// is said of terms holds on too.
pub fn running_cluster_holds<D: Disk>()
    ensures alone { RunningHolds (program ⟦<Node<D> as Machine>⟧.steps (λ old new caller ask answer step. step.safe)) }
    ensures leased { LeasedRunningHolds (leasing ⟦<Node<D> as Machine>⟧.steps (λ old new caller ask answer step. step.safe) (λ old new caller ask answer step. step.role)
        (λ old new caller ask answer step. step.lease)) }
{
    cluster_is_safe::<D>();
    leased_cluster_is_safe::<D>();
}
