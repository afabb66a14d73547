//! The bytes of a database: its pages, one after another.
ghost use Rattle.std.specs.Prelude.{◌≡◌, ◌+◌, ◌*◌, ◌<◌, ◌≤◌, ◌++◌, false, length, take, drop, IfOk, IsTrue, OnOk, OnErr};
ghost use Rattle.std.specs.Io.{StartsWith};
ghost use Rattle.lf_disk.specs.Folder.{bytes_of};
ghost use Rattle.lf_disk.specs.History.{now, Rests};
ghost use Rattle.lf_disk.specs.declared.name.FileName.{FileName as Name};
ghost use Rattle.lf_sqlite_pages.specs.Image.{image_bytes};
ghost use Rattle.txn_log.specs.Fields.{NoCall, state_now};
ghost use Rattle.txn_log.specs.Store.{image_in};
ghost use Rattle.snapshot.specs.Bytes.{image_of_pages};
ghost use Rattle.snapshot.specs.Causes.{ReadsWith};
ghost use Rattle.snapshot.specs.Pages.{HasPages};

use crate::reading::zero;
use lf_base::NoMemory;
use lf_disk::{Disk, FileName};
use lf_sqlite_pages::lock_page;
use std::alloc::Global;
use txn_log::{Store, StoreFault};

/// Appends the pages of the database, one after another, with zeros at the lock page. After a fault
/// `out` is as before. Beside `out` it holds one run of the file.
pub fn export<D: Disk>(store: &mut Store<D>, out: &mut Vec<u8>) -> Result<(), StoreFault>
    ensures bytes { IsTrue (D.honest store.old.disk) → OnOk result
        (out.new.items ≡ out.old.items ++ image_bytes (state_now store.old).image) }
    ensures err { OnErr result (out.new.items ≡ out.old.items) }
    ensures cause { ReadsWith store.old.broken (D.faults store.old.disk) (D.faults store.new.disk) result }

    // The store is as before.
    ensures went { IsTrue (D.honest store.old.disk) → NoCall store.old store.new }
    ensures fields { (store.new.entries.items ≡ store.old.entries.items) × (store.new.sums.sums ≡ store.old.sums.sums) × (store.new.page_size ≡ store.old.page_size)
        × (store.new.commit ≡ store.old.commit) × (store.new.wal ≡ store.old.wal) × (store.new.broken ≡ store.old.broken) }
    ensures marks { (store.new.dropped ≡ store.old.dropped) × (store.new.refused ≡ store.old.refused) × (store.new.whole ≡ store.old.whole)
        × (store.new.attempt ≡ store.old.attempt) × (store.new.tried ≡ store.old.tried) × (store.new.decoder ≡ store.old.decoder) }
    ensures rests { Rests (D.history store.old.disk) (D.history store.new.disk) }
    ensures honest { D.honest store.new.disk ≡ D.honest store.old.disk }
{
    if store.broken {
        return Err(StoreFault::Broken);
    }
    let start = out.len();
    match append_pages(&mut store.disk, store.page_size, store.commit, out) {
        Ok(()) => Ok(()),
        Err(fault) => {
            out.truncate(start);
            Err(fault)
        }
    }
}

/// Appends the pages of a database file.
fn append_pages<D: Disk>(
    disk: &mut D,
    page_size: u32,
    commit: u32,
    out: &mut Vec<u8>,
) -> Result<(), StoreFault>
    requires { 0 < commit → 0 < page_size }
    ensures bytes { IsTrue (D.honest disk.old) → HasPages page_size commit (now (D.history disk.old))
        → OnOk result (out.new.items ≡ out.old.items ++ image_bytes (image_in page_size commit (now (D.history disk.old)))) }
    ensures grows { StartsWith out.new.items out.old.items }
    ensures rests { Rests (D.history disk.old) (D.history disk.new) }
    ensures honest { D.honest disk.new ≡ D.honest disk.old }
    ensures cause { ReadsWith false (D.faults disk.old) (D.faults disk.new) result }
{
    let start = out.len();
    match append_front(disk, commit as usize * page_size as usize, out) {
        Ok(()) => {}
        Err(fault) => return Err(fault),
    }
    let (_, pages) = out.as_mut_slice().split_at_mut(start);
    blank_lock_page(page_size, commit, pages);
    Ok(())
}

/// Makes the lock page zeros in the pages of a database.
fn blank_lock_page(page_size: u32, commit: u32, pages: &mut [u8])
    requires some { 0 < commit → 0 < page_size }
    requires whole { length pages.old ≡ commit * page_size }
    ensures { pages.new ≡ image_bytes (image_of_pages page_size commit pages.old) }
{
    if commit == 0 {
        return;
    }
    let lock = lock_page(page_size);
    if lock > commit {
        return;
    }
    let (_, rest) = pages.split_at_mut((lock as usize - 1) * page_size as usize);
    let (page, _) = rest.split_at_mut(page_size as usize);
    zero(page);
}

/// How many bytes are read at once.
const RUN: usize = 1 << 17;

/// Room for one run.
fn run_room(alloc: Global) -> Result<Vec<u8>, NoMemory>
    ensures { IfOk result (λ room. length room.items ≡ 131072) }
{
    Ok(vec![in alloc; 0; RUN]?)
}

/// Appends the first bytes of the database file. Where it is too short there are zeros.
fn append_front<D: Disk>(disk: &mut D, len: usize, out: &mut Vec<u8>) -> Result<(), StoreFault>
    ensures bytes { IsTrue (D.honest disk.old) → len ≡ length (bytes_of (now (D.history disk.old) Name.Database))
        → OnOk result (out.new.items ≡ out.old.items ++ bytes_of (now (D.history disk.old) Name.Database)) }
    ensures grows { StartsWith out.new.items out.old.items }
    ensures counts { OnOk result (length out.new.items ≡ length out.old.items + len) }
    ensures rests { Rests (D.history disk.old) (D.history disk.new) }
    ensures honest { D.honest disk.new ≡ D.honest disk.old }
    ensures cause { ReadsWith false (D.faults disk.old) (D.faults disk.new) result }
{
    if out.reserve(len).is_err() {
        return Err(StoreFault::NoMemory);
    }
    let mut held = match run_room(*out.allocator()) {
        Ok(held) => held,
        Err(_) => return Err(StoreFault::NoMemory),
    };
    let room = held.as_mut_slice();
    let mut done = 0;
    while done < len {
        let (run, _) = room.split_at_mut(RUN.min(len - done));
        match append_run(disk, done, run, out) {
            Ok(()) => done += run.len(),
            Err(fault) => return Err(fault),
        }
    }
    Ok(())
}

/// Appends as many bytes of the database file as the room has, from a place on. Where it is too short
/// there are zeros.
fn append_run<D: Disk>(
    disk: &mut D,
    at: usize,
    room: &mut [u8],
    out: &mut Vec<u8>,
) -> Result<(), StoreFault>
    ensures bytes { IsTrue (D.honest disk.old) → at + length room.old ≤ length (bytes_of (now (D.history disk.old) Name.Database))
        → OnOk result (out.new.items ≡ out.old.items ++ take (length room.old) (drop at (bytes_of (now (D.history disk.old) Name.Database)))) }
    ensures room { length room.new ≡ length room.old }
    ensures grows { StartsWith out.new.items out.old.items }
    ensures counts { OnOk result (length out.new.items ≡ length out.old.items + length room.old) }
    ensures rests { Rests (D.history disk.old) (D.history disk.new) }
    ensures honest { D.honest disk.new ≡ D.honest disk.old }
    ensures cause { ReadsWith false (D.faults disk.old) (D.faults disk.new) result }
{
    room.fill(0);
    if disk.read(FileName::Database, at as u64, room).is_err() {
        return Err(StoreFault::Disk);
    }
    match out.extend_from_slice(room) {
        Ok(()) => Ok(()),
        Err(_) => Err(StoreFault::NoMemory),
    }
}
