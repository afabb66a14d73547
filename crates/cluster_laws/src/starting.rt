//! A node starts on what a stop has left.
ghost use Rattle.std.specs.Prelude.{◌≡◌, false, IsTrue, IfOk, IfErr};
ghost use Rattle.lf_disk.specs.History.{Since, now};
ghost use Rattle.txn_log.specs.Putting.{IsSettled};
ghost use Rattle.node_core.specs.Nodes.{history, parts_of};
ghost use Rattle.cluster_laws.specs.Cluster.{StandsOn, StartsOn};
ghost use Rattle.cluster_laws.specs.ClusterLaws.{program};
ghost use Rattle.cluster_laws.specs.Leased.{IsUnheard};

use lf_disk::Disk;
use node_core::{Node, NodeConfig};
use node_recovery::recover;
use std::alloc::Global;
use turn_desk::Machine;
use txn_log::Store;

/// Starts a node on what a stop has left, by the two calls that a start of the program makes. Over an
/// honest disk it starts on the disk's folder, as the laws of a cluster want it; where its configuration
/// is no candidate, it stands as before any news of a lease. At each moment of the start, also of one that
/// fails, a crash leaves a folder that stands for all that the first stood for.
pub fn start_node<D: Disk + Drop>(alloc: Global, disk: D, config: NodeConfig) -> Result<Node<D>, D>
    requires settled { IsTrue (D.honest disk) → IsSettled (D.history disk) }
    ensures starts { IsTrue (D.honest disk) → IfOk result (StartsOn (program ⟦<Node<D> as Machine>⟧.steps (λ old new caller ask answer step. step.safe)) (now (D.history disk))) }
    ensures standing { config.candidate ≡ false → IfOk result (λ node. IsUnheard (parts_of node).standing) }

    // What a stop of the start leaves.
    ensures stopped { IsTrue (D.honest disk) → IfOk result (λ node. Since (D.history disk).moment (history node) (StandsOn (now (D.history disk)))) }
    ensures gone { IsTrue (D.honest disk) → IfErr result (λ back. Since (D.history disk).moment (D.history back) (StandsOn (now (D.history disk)))) }
{
    match recover(alloc, disk) {
        Ok(store) => match Node::open(alloc, store, config) {
            Ok(node) => Ok(node),
            Err((_, store)) => Err(disk_of(store)),
        },
        Err((_, disk)) => Err(disk),
    }
}

fn disk_of<D: Disk + Drop>(store: Store<D>) -> D
    ensures { result ≡ store.disk }
{
    store.disk
}
