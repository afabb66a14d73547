//! Another's snapshot is installed, from its bytes.
ghost use Rattle.std.specs.Prelude.{◌≡◌, ◌<◌, length, vec_capacity, IsSome, IsTrue, IfOk, OnOk, OnErr};
ghost use Rattle.ltx_codec.specs.Positions.{after};
ghost use Rattle.world_laws.specs.Store.{Install};
ghost use Rattle.txn_log.specs.Fields.{CallBreaks, CallWent, HasSameFiles, HasShape, fields_of};
ghost use Rattle.txn_log.specs.Store.{end_of_entries};
ghost use Rattle.snapshot.specs.Installing.{Installs, store_fault};

use crate::encoded::{EncodedFile, piece_room, source_of};
use crate::installing_from::install_from;
use lf_base::{NoMemory, Pos};
use lf_disk::Disk;
use txn_log::{FromFault, Store, StoreFault};

/// Makes room for a file of so many pages, and for a piece of it.
fn make_room<D: Disk>(store: &mut Store<D>, pages: u32) -> Result<Vec<u8>, NoMemory>
    ensures piece { IfOk result (λ piece. length piece.items ≡ 65536) }
    ensures decoder { OnOk result (IsSome store.new.decoder) }
    ensures entry { OnOk result (length store.new.entries.items < vec_capacity store.new.entries) }
    ensures fields { fields_of store.new ≡ fields_of store.old }
    ensures disk { store.new.disk ≡ store.old.disk }
{
    store.reserve(pages)?;
    match piece_room(*store.entries.allocator()) {
        Some(piece) => Ok(piece),
        None => Err(NoMemory),
    }
}

/// Why a file in memory is not installed: no other fault comes of it.
fn fault_of(fault: FromFault) -> StoreFault
    ensures { result ≡ store_fault fault }
{
    match fault {
        FromFault::Store(fault) => fault,
        _ => StoreFault::NoMemory,
    }
}

/// Makes a snapshot's pages the database, and the snapshot the whole log, whatever the store holds.
pub fn install<D: Disk>(store: &mut Store<D>, ltx: &EncodedFile<'_>) -> Result<Pos, StoreFault>
    requires first { ltx.now.header.min ≡ 1 }
    ensures installs { Installs store.old.broken ltx.now result }
    ensures cause { CallBreaks store.old result store.new }
    ensures shape { OnOk result (HasShape store.new ltx.now.header.page_size ltx.now.header.commit) }
    ensures position { OnOk result (end_of_entries store.new.entries.items ≡ after ltx.now) }
    ensures same { OnErr result (HasSameFiles store.old store.new) }

    // What a crash leaves at each moment.
    ensures went { IsTrue (D.honest store.old.disk) → CallWent store.old (Install ltx.now) result store.new }
    ensures honest { D.honest store.new.disk ≡ D.honest store.old.disk }
{
    if store.broken {
        return Err(StoreFault::Broken);
    }
    let Ok(mut piece) = make_room(store, ltx.header().commit) else {
        return Err(StoreFault::NoMemory);
    };
    let Ok(mut source) = source_of(*store.entries.allocator(), ltx.bytes()) else {
        return Err(StoreFault::NoMemory);
    };
    match install_from(store, &mut source, piece.as_mut_slice()) {
        Ok(position) => Ok(position),
        Err(fault) => Err(fault_of(fault)),
    }
}
