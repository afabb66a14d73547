//! A node over a disk in memory.
ghost use Rattle.std.specs.Prelude.{◌≡◌, []};

use lf_base::{Name, Text};
use lf_disk::MemDisk;
use node_core::{Node, NodeConfig};
use node_recovery::recover;
use std::alloc::Global;
use std::process::Abort;
use txn_log::Store;

fn config<R: Copy + Abort>(rt: R, alloc: Global, candidate: bool) -> NodeConfig {
    NodeConfig {
        name: Name::read(alloc, b"app").expect(&rt, "a name"),
        node: 3,
        candidate,
        primary_host: Text::of(alloc, "").expect(&rt, "memory"),
        halt_ttl: 1_000,
        retention: 100,
    }
}

fn disk<R: Copy + Abort>(rt: R, alloc: Global) -> MemDisk
    ensures { result.calls ≡ [] }
{
    MemDisk::new(alloc, Vec::new(alloc), None).expect(&rt, "a disk")
}

fn store<R: Copy + Abort>(rt: R, alloc: Global, disk: MemDisk) -> Store<MemDisk>
    requires { disk.calls ≡ [] }
{
    match recover(alloc, disk) {
        Ok(store) => store,
        Err(_) => panic!(rt; "a store"),
    }
}

/// A node of a database that was never written.
pub fn open<R: Copy + Abort>(rt: R, alloc: Global, candidate: bool) -> Node<MemDisk> {
    let store = store(rt, alloc, disk(rt, alloc));
    match Node::open(alloc, store, config(rt, alloc, candidate)) {
        Ok(node) => node,
        Err(_) => panic!(rt; "a node"),
    }
}

/// The node is closed. It is no test that drops it: that is long to prove.
pub fn close(node: Node<MemDisk>) {
    node.into_store();
}
