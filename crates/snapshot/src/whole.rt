//! The snapshot of a store in memory.
ghost use Rattle.std.specs.Prelude.{◌≡◌, ◌≤◌, ◌++◌, length, IfOk, IsTrue, OnOk, OnErr};
ghost use Rattle.lf_disk.specs.History.{Rests};
ghost use Rattle.ltx_codec.specs.Format.{file_encoding, no_meaning};
ghost use Rattle.world_laws.specs.Answers.{snapshot_of};
ghost use Rattle.txn_log.specs.Fields.{NoCall, state_now};
ghost use Rattle.txn_log.specs.Store.{end_of_entries};
ghost use Rattle.snapshot.specs.Causes.{ReadsWith, fault_in_memory};

use crate::fault::IntoFault;
use crate::growing::Growing;
use crate::making::make_into;
use lf_base::NoMemory;
use lf_disk::Disk;
use std::alloc::Global;
use std::mem;
use txn_log::{Store, StoreFault};

/// The bytes of the largest page.
const LARGEST_PAGE: usize = 65_536;

/// Room for one page.
fn page_room(alloc: Global) -> Result<Vec<u8>, NoMemory>
    ensures { IfOk result (λ page. length page.items ≡ 65536) }
{
    Ok(vec![in alloc; 0; LARGEST_PAGE]?)
}

/// Appends the snapshot of a store, the same bytes that `make_into` writes. After a fault `out` is as
/// before.
pub fn make<D: Disk>(store: &mut Store<D>, out: &mut Vec<u8>) -> Result<(), StoreFault>
    requires written { 1 ≤ (end_of_entries store.old.entries.items).txid }
    ensures bytes { IsTrue (D.honest store.old.disk) → OnOk result
        (out.new.items ≡ out.old.items ++ file_encoding (snapshot_of (state_now store.old)) no_meaning) }
    ensures err { OnErr result (out.new.items ≡ out.old.items) }
    ensures cause { ReadsWith store.old.broken (D.faults store.old.disk) (D.faults store.new.disk) result }

    // The store is as before.
    ensures went { IsTrue (D.honest store.old.disk) → NoCall store.old store.new }
    ensures fields { (store.new.entries.items ≡ store.old.entries.items) × (store.new.sums.sums ≡ store.old.sums.sums) × (store.new.page_size ≡ store.old.page_size)
        × (store.new.commit ≡ store.old.commit) × (store.new.wal ≡ store.old.wal) × (store.new.broken ≡ store.old.broken) }
    ensures marks { (store.new.dropped ≡ store.old.dropped) × (store.new.refused ≡ store.old.refused) × (store.new.whole ≡ store.old.whole)
        × (store.new.attempt ≡ store.old.attempt) × (store.new.tried ≡ store.old.tried) × (store.new.decoder ≡ store.old.decoder) }
    ensures rests { Rests (D.history store.old.disk) (D.history store.new.disk) }
    ensures honest { D.honest store.new.disk ≡ D.honest store.old.disk }
{
    if store.broken {
        return Err(StoreFault::Broken);
    }
    let alloc = *store.entries.allocator();
    let mut page = match page_room(alloc) {
        Ok(page) => page,
        Err(_) => return Err(StoreFault::NoMemory),
    };
    let start = out.len();
    let bytes = mem::replace(out, Vec::new(alloc));
    let mut sink = Growing { bytes, faults: 0 };
    match make_into(store, page.as_mut_slice(), &mut sink) {
        Ok(()) => {
            *out = sink.bytes;
            Ok(())
        }
        Err(fault) => {
            *out = sink.bytes;
            out.truncate(start);
            Err(fault_of(fault))
        }
    }
}

/// The fault of a snapshot into memory.
fn fault_of(fault: IntoFault) -> StoreFault
    ensures { result ≡ fault_in_memory fault }
{
    match fault {
        IntoFault::Sink => StoreFault::NoMemory,
        IntoFault::Store(fault) => fault,
    }
}
