//! The snapshot of a store.
ghost use Rattle.std.specs.Prelude.{◌≡◌, ◌≢◌, ◌<◌, ◌≤◌, ◌++◌, ◌^◌, false, length, IsTrue, OnOk, OnErr};
ghost use Rattle.std.specs.Io.KnownBytes.{Appends};
ghost use Rattle.lf_disk.specs.History.{now, Rests};
ghost use Rattle.lf_sqlite_pages.specs.Writes.{data_writes};
ghost use Rattle.ltx_codec.specs.Format.{file_encoding, no_meaning, pages_encoding};
ghost use Rattle.world_laws.specs.Answers.{snapshot_of};
ghost use Rattle.txn_log.specs.Fields.{NoCall, state_now};
ghost use Rattle.txn_log.specs.Store.{end_of_entries, image_in};
ghost use Rattle.snapshot.specs.Causes.{WritesWith};
ghost use Rattle.snapshot.specs.Output.{AppendsPrefix, AppendsSome};
ghost use Rattle.snapshot.specs.Pages.{HasPages};
ghost use Rattle.snapshot.specs.Parts.{parts_encoding};

use crate::fault::IntoFault;
use crate::writing::{write_end, write_pages, write_part};
use lf_base::{Pos, Sink};
use lf_disk::Disk;
use ltx_codec::{Header, header_bytes, parts_are_the_encoding};
use page_checksum::FIRST_REGISTER;
use txn_log::{Store, StoreFault};

/// Writes the snapshot of a store: the file from the first transaction to its position that writes
/// every data page. `page` is room for one page. It takes no memory. After a fault the sink took a
/// prefix of the file.
pub fn make_into<D: Disk, K: Sink>(
    store: &mut Store<D>,
    page: &mut [u8],
    sink: &mut K,
) -> Result<(), IntoFault>
    requires room { length page.old ≡ 65536 }
    requires written { 1 ≤ (end_of_entries store.old.entries.items).txid }
    ensures whole { IsTrue (D.honest store.old.disk) → OnOk result
        (Appends (K.taken sink.old) (K.taken sink.new) (file_encoding (snapshot_of (state_now store.old)) no_meaning)) }
    ensures prefix { IsTrue (D.honest store.old.disk) → OnErr result
        (AppendsPrefix (K.taken sink.old) (K.taken sink.new) (file_encoding (snapshot_of (state_now store.old)) no_meaning)) }
    ensures grows { AppendsSome (K.taken sink.old) (K.taken sink.new) }
    ensures cause { WritesWith store.old.broken (D.faults store.old.disk) (D.faults store.new.disk) (K.faults sink.old) (K.faults sink.new) result }

    // The store is as before.
    ensures went { IsTrue (D.honest store.old.disk) → NoCall store.old store.new }
    ensures fields { (store.new.entries.items ≡ store.old.entries.items) × (store.new.sums.sums ≡ store.old.sums.sums) × (store.new.page_size ≡ store.old.page_size)
        × (store.new.commit ≡ store.old.commit) × (store.new.wal ≡ store.old.wal) × (store.new.broken ≡ store.old.broken) }
    ensures marks { (store.new.dropped ≡ store.old.dropped) × (store.new.refused ≡ store.old.refused) × (store.new.whole ≡ store.old.whole)
        × (store.new.attempt ≡ store.old.attempt) × (store.new.tried ≡ store.old.tried) × (store.new.decoder ≡ store.old.decoder) }
    ensures rests { Rests (D.history store.old.disk) (D.history store.new.disk) }
    ensures honest { D.honest store.new.disk ≡ D.honest store.old.disk }
{
    if store.broken {
        return Err(IntoFault::Store(StoreFault::Broken));
    }
    parts_are_the_encoding();
    let position = store.pos();
    let header = header_of(store.page_size, store.commit, position);
    let (page, _) = page.split_at_mut(store.page_size as usize);
    write_parts(&mut store.disk, &header, position.sum, page, sink)
}

/// The header of a snapshot.
fn header_of(page_size: u32, commit: u32, position: Pos) -> Header
    ensures { result ≡ record {
      page_size = page_size;
      commit = commit;
      min = 1;
      max = position.txid;
      stamp = 0;
      pre = 0;
      wal_offset = 0;
      wal_size = 0;
      wal_salt1 = 0;
      wal_salt2 = 0;
      node = 0;
    } }
{
    Header {
        page_size,
        commit,
        min: 1,
        max: position.txid,
        stamp: 0,
        pre: 0,
        wal_offset: 0,
        wal_size: 0,
        wal_salt1: 0,
        wal_salt2: 0,
        node: 0,
    }
}

/// Writes a header, the data pages of a database file and the trailer.
fn write_parts<D: Disk, K: Sink>(
    disk: &mut D,
    header: &Header,
    post: u64,
    page: &mut [u8],
    sink: &mut K,
) -> Result<(), IntoFault>
    requires some { 0 < header.now.commit → 0 < length page.old }
    requires size { length page.old < 2 ^ 32 }
    ensures whole { IsTrue (D.honest disk.old) → HasPages (length page.old) header.now.commit (now (D.history disk.old))
        → OnOk result (Appends (K.taken sink.old) (K.taken sink.new)
        (parts_encoding header.now (pages_encoding (data_writes (image_in (length page.old) header.now.commit (now (D.history disk.old))))) post)) }
    ensures prefix { IsTrue (D.honest disk.old) → HasPages (length page.old) header.now.commit (now (D.history disk.old))
        → OnErr result (AppendsPrefix (K.taken sink.old) (K.taken sink.new)
        (parts_encoding header.now (pages_encoding (data_writes (image_in (length page.old) header.now.commit (now (D.history disk.old))))) post)) }
    ensures grows { AppendsSome (K.taken sink.old) (K.taken sink.new) }
    ensures rests { Rests (D.history disk.old) (D.history disk.new) }
    ensures honest { D.honest disk.new ≡ D.honest disk.old }
    ensures cause { WritesWith false (D.faults disk.old) (D.faults disk.new) (K.faults sink.old) (K.faults sink.new) result }
{
    let register = match write_part(sink, &header_bytes(header), FIRST_REGISTER) {
        Ok(register) => register,
        Err(_) => return Err(IntoFault::Sink),
    };
    match write_pages(disk, header.commit, page, sink, register) {
        Ok(register) => match write_end(sink, post, register) {
            Ok(()) => Ok(()),
            Err(_) => Err(IntoFault::Sink),
        },
        Err(fault) => Err(fault),
    }
}
