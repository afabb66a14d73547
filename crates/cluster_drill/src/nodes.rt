//! Nodes over disks in memory: opened, stopped and opened again.
ghost use Rattle.std.specs.Prelude.{◌≡◌, [], IsTrue, IfOk, IfSome, IfNone};
ghost use Rattle.node_core.specs.Nodes.{history, parts_of, said_to};
ghost use Rattle.node_core.specs.Steps.{IsStep};
ghost use Rattle.cluster_drill.specs.Nodes.{IsAsBefore, IsUnread, place};

use lf_base::{Name, NoMemory, Pos, Text};
use lf_disk::MemDisk;
use node_core::{Answer, Ask, Node, NodeConfig};
use node_recovery::recover;
use std::alloc::Global;
use std::mem;
use turn_desk::Machine;
use txn_log::Store;

pub type MemNode = Node<MemDisk>;

/// The moment at which everything is asked.
pub(crate) const NOW: u64 = 1_700_000_000_000;

/// How many files of the log a node keeps.
const RETENTION: u64 = 1_000;

/// What a node is in its cluster.
#[derive(Clone, Copy)]
pub(crate) enum Part {
    Primary,
    Replica,
}

fn config(alloc: Global, part: Part) -> Result<NodeConfig, NoMemory> {
    let Ok(name) = Name::read(alloc, b"app") else {
        return Err(NoMemory);
    };
    Ok(NodeConfig {
        name,
        node: 1,
        candidate: matches!(part, Part::Primary),
        primary_host: Text::of(alloc, "")?,
        halt_ttl: 1_000,
        retention: RETENTION,
    })
}

/// A node over a store.
fn node_over(alloc: Global, store: Store<MemDisk>, part: Part) -> Result<MemNode, NoMemory> {
    let config = config(alloc, part)?;
    match Node::open(alloc, store, config) {
        Ok(node) => Ok(node),
        Err(_) => Err(NoMemory),
    }
}

/// The node of a disk on which nothing was called.
fn opened(alloc: Global, disk: MemDisk, part: Part) -> Result<MemNode, NoMemory>
    requires { disk.calls ≡ [] }
{
    match recover(alloc, disk) {
        Ok(store) => node_over(alloc, store, part),
        Err(_) => Err(NoMemory),
    }
}

/// The node of a disk without files.
fn blank_node(alloc: Global, part: Part) -> Result<MemNode, NoMemory> {
    let disk = MemDisk::new(alloc, Vec::new(alloc), None)?;
    opened(alloc, disk, part)
}

/// A node of a database that was never written. It is as want of memory where it stands elsewhere.
pub(crate) fn new_node(alloc: Global, part: Part) -> Result<MemNode, NoMemory>
    ensures { IfOk result (λ node. (place node).txid ≡ 0) }
{
    let mut node = blank_node(alloc, part)?;
    if !is_at(&mut node, 0) {
        stop(node);
        return Err(NoMemory);
    }
    Ok(node)
}

/// The node is stopped. Elsewhere no node is dropped: that is long to prove.
pub(crate) fn stop(node: MemNode) {
    node.into_store();
}

/// Another node comes in its place.
fn put(node: &mut MemNode, next: MemNode) {
    stop(mem::replace(node, next));
}

/// The replica is stopped, and gives its store. It becomes one of a database that was never written.
fn take_store(alloc: Global, node: &mut MemNode) -> Result<Store<MemDisk>, NoMemory> {
    let spare = blank_node(alloc, Part::Replica)?;
    Ok(mem::replace(node, spare).into_store())
}

/// Lets every call of the replica's disk after the next ones fail.
pub(crate) fn stop_in(alloc: Global, node: &mut MemNode, calls: u64) -> Result<(), NoMemory> {
    let mut store = take_store(alloc, node)?;
    store.disk.stop_in(calls);
    put(node, node_over(alloc, store, Part::Replica)?);
    Ok(())
}

/// What a crash leaves of a disk: of what is pending, nothing.
fn crashed(disk: MemDisk) -> Result<MemDisk, NoMemory>
    ensures { IfOk result (λ disk. disk.calls ≡ []) }
{
    match disk.reopen() {
        Ok(disk) => Ok(disk),
        Err(_) => Err(NoMemory),
    }
}

/// The replica is stopped, its disk crashed, and it is opened again.
pub(crate) fn restart(alloc: Global, node: &mut MemNode) -> Result<(), NoMemory> {
    let disk = crashed(take_store(alloc, node)?.disk)?;
    put(node, opened(alloc, disk, Part::Replica)?);
    Ok(())
}

/// One step of a node.
pub(crate) fn ask(node: &mut MemNode, caller: u64, ask: &Ask) -> Answer
    ensures step { IsStep (history node.old) (parts_of node.old) caller ask.now result (history node.new) (parts_of node.new) (said_to node.new) }
{
    node.step(caller, ask)
}

/// Where a node stands, if its disk tells it.
pub(crate) fn position(node: &mut MemNode) -> Option<Pos>
    ensures at { IfSome result (λ at. at ≡ place node.old) }
    ensures unread { IfNone result (IsUnread node.old node.new) }
    ensures kept { IsAsBefore node.old node.new }
{
    match ask(node, 0, &Ask::Where) {
        Answer::At(here) => Some(here.pos),
        _ => None,
    }
}

/// Whether a node stands at a transaction.
pub(crate) fn is_at(node: &mut MemNode, txid: u64) -> bool
    ensures at { IsTrue result → (place node.new).txid ≡ txid }
{
    match position(node) {
        Some(at) => at.txid == txid,
        None => false,
    }
}
