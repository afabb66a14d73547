//! A node is opened over what a disk has kept, at a desk.
ghost use Rattle.std.specs.Prelude.{◌≡◌, IsTrue, IfOk, IfErr};
ghost use Rattle.lf_disk.specs.History.{now};
ghost use Rattle.node_core.specs.Nodes.{history, parts_of, seen};
ghost use Rattle.node_recovery.specs.Finding.{HasDamage};
ghost use Rattle.node_mount.specs.Opening.{config_of as given, primary_host as host_of, seen_anew, ComesBack, IsOpenedBy, IsUnopened};
ghost use Rattle.node_mount.specs.Places.{IsUnused};
ghost use Rattle.std.specs.Arc.{arc_value};
ghost use Rattle.turn_desk.specs.Seats.{opened_on, IsOf};
ghost use Rattle.txn_log.specs.Durable.{Durable};
ghost use Rattle.txn_log.specs.Putting.{IsSettled};
ghost use Rattle.world_laws.specs.Store.{StoreState};

use crate::duties::stands_as_primary;
use crate::place::Place;
use lf_base::{NoMemory, Text};
use lf_disk::Disk;
use node_core::{Answer, Ask, Node, NodeConfig};
use node_recovery::{RecoverFault, recover};
use node_settings::{LeaseType, Settings};
use std::alloc::Global;
use std::sync::Arc;
use turn_desk::{Desk, Machine, Seat};

/// Why no node is opened.
#[derive(Drop)]
pub enum OpenFault<D> {
    /// The disk was not recovered, and comes back.
    Unrecovered(RecoverFault, D),
    NoMemory,
}

/// Opens a node over what a disk has kept. Over an honest disk whose folder stands for a store, the
/// node has this store: nothing has failed, nothing waits, and nobody has used its files. Over any disk
/// it has exactly this configuration.
pub fn open_recovered<D: Disk + Drop>(
    alloc: Global,
    disk: D,
    config: NodeConfig,
) -> Result<Node<D>, OpenFault<D>>
    requires settled { IsTrue (D.honest disk) → IsSettled (D.history disk) }
    ensures seen { IsTrue (D.honest disk) → IfOk result (λ node. (stood : StoreState) → Durable (now (D.history disk)) stood
        → seen (history node) (parts_of node) ≡ seen_anew stood (D.faults disk) config) }
    ensures config { IfOk result (λ node. IsOpenedBy config (parts_of node)) }
    ensures exact { IsTrue (D.honest disk) → IfOk result (λ _. HasDamage (now (D.history disk)) → ⊥) }
    ensures why { IsTrue (D.honest disk) → IfErr result (IsUnopened (now (D.history disk))) }
    ensures back { IfErr result (ComesBack D.honest D.faults disk) }
{
    match recover(alloc, disk) {
        Ok(store) => match Node::open(alloc, store, config) {
            Ok(node) => Ok(node),
            Err(_) => Err(OpenFault::NoMemory),
        },
        Err((why, disk)) => Err(OpenFault::Unrecovered(why, disk)),
    }
}

/// The first seat at the desk of a node. Nobody has asked anything.
pub fn open_place<K: Machine<Ask = Ask, Answer = Answer> + Drop>(
    alloc: Global,
    node: K,
) -> Result<Place<K>, NoMemory>
    ensures opened { IfOk result (λ place. opened_on (arc_value place.desk) ≡ node) }
    ensures unused { IfOk result (λ place. IsUnused place.seat (arc_value place.desk)) }
{
    let (desk, seat) = open_desk(alloc, node)?;
    let desk = Arc::new(alloc, desk)?;
    Ok(Place { desk, seat })
}

fn open_desk<K: Machine<Ask = Ask, Answer = Answer> + Drop>(
    alloc: Global,
    node: K,
) -> Result<(Desk<K>, Seat<K>), NoMemory>
    ensures of { IfOk result (λ made. IsOf made.1 made.0) }
    ensures opened { IfOk result (λ made. opened_on made.0 ≡ node) }
    ensures unused { IfOk result (λ made. IsUnused made.1 made.0) }
{
    match Desk::open(alloc, node) {
        Ok(opened) => Ok(opened),
        Err(_) => Err(NoMemory),
    }
}

/// What a node is given of itself.
pub fn config_of(alloc: Global, settings: &Settings, node: u64) -> Result<NodeConfig, NoMemory>
    ensures { IfOk result (λ config. config ≡ given settings.now node) }
{
    let name = settings.database.copy()?;
    let primary_host = primary_host(alloc, settings)?;
    Ok(NodeConfig {
        name,
        node,
        candidate: stands_as_primary(&settings.lease),
        primary_host,
        halt_ttl: settings.lease.halt_ttl,
        retention: settings.retention_files,
    })
}

/// What a replica calls the primary before it is told. The primary has no name for itself.
fn primary_host(alloc: Global, settings: &Settings) -> Result<Text, NoMemory>
    ensures { IfOk result (λ host. host ≡ host_of settings.now) }
{
    match settings.lease.lease_type {
        LeaseType::Static if !settings.lease.candidate => settings.lease.hostname.copy(),
        _ => Text::of(alloc, ""),
    }
}
