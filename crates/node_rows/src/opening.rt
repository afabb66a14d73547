//! The node that a scene begins with.
ghost use Rattle.std.specs.Prelude.{IfOk, IsTrue};
ghost use Rattle.node_objects.specs.MemMaker.{IsNewDisk};
ghost use Rattle.txn_log.specs.Opening.{IsBlank};

use crate::scene::Start;
use lf_base::Text;
use lf_disk::{Disk, MemDisk};
use lf_sqlite_pages::{Change, is_page_size};
use node_core::{Node, NodeConfig};
use std::alloc::Global;
use test_base::{Fault, database};
use txn_log::Store;

/// The number of the node, which its files carry.
const NODE: u64 = 3;

/// How many files of the log it keeps.
const RETENTION: u64 = 3;

fn config(alloc: Global, start: Start) -> Result<NodeConfig, Fault> {
    let host = if start.is_primary { "" } else { "db1" };
    Ok(NodeConfig {
        name: database(alloc)?,
        node: NODE,
        candidate: start.is_primary,
        primary_host: Text::of(alloc, host)?,
        halt_ttl: 1_000,
        retention: RETENTION,
    })
}

/// Commits the next transaction of a start: the first one makes all pages, and the others change none.
fn commit_next<D: Disk>(
    alloc: Global,
    store: &mut Store<D>,
    start: Start,
    txid: u64,
) -> Result<(), Fault> {
    let page_size = u32::try_from(start.page_size).unwrap_or(0);
    let pages = u32::try_from(start.pages).unwrap_or(0);
    if !is_page_size(page_size) {
        return Err(Fault::Row);
    }
    let change = Change::new(alloc, page_size, pages);
    match store.commit(change, txid.saturating_mul(1_000), NODE) {
        Ok(_) => Ok(()),
        Err(_) => Err(Fault::Start),
    }
}

fn commit_all<D: Disk>(alloc: Global, store: &mut Store<D>, start: Start) -> Result<(), Fault> {
    for txid in 1..=start.transactions {
        commit_next(alloc, store, start, txid)?;
    }
    Ok(())
}

/// The store of a start, on a disk of which every call from a number on fails.
fn store_of(alloc: Global, start: Start, stop: Option<u64>) -> Result<Store<MemDisk>, Fault> {
    let disk = MemDisk::new(alloc, Vec::new(alloc), stop)?;
    store_on(alloc, disk, start)
}

/// The store of a start, on a disk without files.
pub fn store_on<D: Disk + Drop>(alloc: Global, disk: D, start: Start) -> Result<Store<D>, Fault>
    requires { IsTrue (D.honest disk) → IsBlank (D.history disk) }
{
    let mut store = Store::on_blank(alloc, disk);
    match commit_all(alloc, &mut store, start) {
        Ok(()) => Ok(store),
        Err(fault) => {
            drop(store);
            Err(fault)
        }
    }
}

/// The same, where the disk fails after the start, if it is to.
fn stopped_store(alloc: Global, start: Start) -> Result<Store<MemDisk>, Fault> {
    let store = store_of(alloc, start, None)?;
    match start.stop {
        None => Ok(store),
        Some(calls) => {
            let stop = store.disk.calls().saturating_add(calls);
            drop(store);
            store_of(alloc, start, Some(stop))
        }
    }
}

/// The disk of a start, as a node finds it that was stopped.
#[tactic(auto, using(node_objects::proofs::DiskLemmas::rests))]
pub fn stored_disk(alloc: Global, start: Start) -> Result<MemDisk, Fault>
    ensures { IfOk result IsNewDisk }
{
    let store = store_of(alloc, start, None)?;
    Ok(store.disk.reopen()?)
}

/// The node of a start.
pub fn open_node(alloc: Global, start: Start) -> Result<Node<MemDisk>, Fault> {
    let config = config(alloc, start)?;
    let store = stopped_store(alloc, start)?;
    Ok(Node::open(alloc, store, config)?)
}
