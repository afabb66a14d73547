//! Laws of a node's steps, each the contract of a function that does nothing else.
ghost use Rattle.node_core.specs.Nodes.{history, parts_of, seen};
ghost use Rattle.node_core.specs.PermitLaw.{PermitIsAlone};
ghost use Rattle.node_core.specs.Runs.{CrashesAreOpened, RunsAreSteps};
ghost use Rattle.node_core.specs.Safely.{EachIsAnAsk};
ghost use Rattle.world_laws.specs.Step.{calls_of};

use crate::node::Node;
use lf_disk::Disk;
use turn_desk::Machine;
use world_laws::stops_are_failures;

/// Each ask is one of the laws, so that what is said of each that it is says something.
pub fn asks_are_of_the_laws()
    ensures { EachIsAnAsk }
{}

/// The history of a desk over a node is a list of steps of this node.
pub fn runs_are_steps<D: Disk>()
    ensures { RunsAreSteps ⟦<Node<D> as Machine>⟧.steps (λ n. D.honest n.store.disk) (λ n. seen (history n) (parts_of n)) (λ n. history n) }
{}

/// Each folder that a crash leaves while a desk's steps are made stands for a store that the node may
/// be opened on, after some of these steps, of which the last may have failed.
pub fn crashes_are_opened<D: Disk>()
    ensures { CrashesAreOpened ⟦<Node<D> as Machine>⟧.steps (λ n. D.honest n.store.disk) (λ n. seen (history n) (parts_of n)) (λ n. history n) }
{
    stops_are_failures();
}

/// While a permit is out, no step of the node that gave it out makes a call but a prune, unless a
/// transaction comes under it.
pub fn permit_is_alone<D: Disk>()
    ensures { PermitIsAlone ⟦<Node<D> as Machine>⟧.steps (λ n. parts_of n)
        (λ old new caller ask answer step disk law is. calls_of (step.safe disk law is).facts) }
{}
