//! The change that makes a store's database that of some bytes.
ghost use Rattle.std.specs.Prelude.{◌≡◌, ◌<◌, ◌/◌, length, None, Some, IsTrue, IfSome, IfNone, IfOk, if◌then◌else◌};
ghost use Rattle.database_file.specs.Commit.{LeadsTo};
ghost use Rattle.database_file.specs.CommitParts.{changes_nothing};
ghost use Rattle.lf_disk.specs.History.{Rests};
ghost use Rattle.txn_log.specs.Fields.{NoCall, state_now};
ghost use Rattle.lf_sqlite_pages.specs.Change.{FitsOver};
ghost use Rattle.lf_sqlite_pages.specs.PageSize.{IsPageSize};
ghost use Rattle.lf_sqlite_pages.specs.LockPage.{IsWithinLimit};
ghost use Rattle.snapshot.specs.Bytes.{AreDatabase, ImportsWith, image_of_bytes, size_in};

use crate::comparing::push_all;
use crate::fault::ImportFault;
use lf_base::{Failed, NoMemory};
use lf_disk::Disk;
use lf_sqlite_pages::{Change, is_within_limit, page_size_of};
use std::alloc::Global;
use txn_log::Store;

/// The change that makes the database of the store that of these bytes: the data pages that differ,
/// with those past the image's end. `None` where they are the same. What stands at the lock page of
/// the bytes is of no account.
pub fn import_change<D: Disk>(
    store: &mut Store<D>,
    bytes: &[u8],
) -> Result<Option<Change>, ImportFault>
    ensures leads { IsTrue (D.honest store.old.disk) → IfOk result
        (LeadsTo (state_now store.old).image (image_of_bytes bytes.now)) }
    ensures fits { IsTrue (D.honest store.old.disk) → IfOk result (λ change. IfSome change (FitsOver store.old.page_size store.old.commit)) }
    ensures cause { ImportsWith bytes.now store.old.broken (D.faults store.old.disk) (D.faults store.new.disk) result }

    // The store is as before.
    ensures went { IsTrue (D.honest store.old.disk) → NoCall store.old store.new }
    ensures fields { (store.new.entries.items ≡ store.old.entries.items) × (store.new.sums.sums ≡ store.old.sums.sums) × (store.new.page_size ≡ store.old.page_size)
        × (store.new.commit ≡ store.old.commit) × (store.new.wal ≡ store.old.wal) × (store.new.broken ≡ store.old.broken) }
    ensures marks { (store.new.dropped ≡ store.old.dropped) × (store.new.refused ≡ store.old.refused) × (store.new.whole ≡ store.old.whole)
        × (store.new.attempt ≡ store.old.attempt) × (store.new.tried ≡ store.old.tried) × (store.new.decoder ≡ store.old.decoder) }
    ensures rests { Rests (D.history store.old.disk) (D.history store.new.disk) }
    ensures honest { D.honest store.new.disk ≡ D.honest store.old.disk }
{
    let size = match page_size_in(bytes) {
        Some(size) => size,
        None => return Err(ImportFault::NotDatabase),
    };
    let count = match count_within(bytes, size) {
        Some(count) => count,
        None => return Err(ImportFault::Limit),
    };
    if store.broken {
        return Err(ImportFault::Store(Failed));
    }
    let alloc = *store.entries.allocator();
    let mut standing = match room_for(alloc, size) {
        Ok(standing) => standing,
        Err(_) => return Err(ImportFault::NoMemory),
    };
    let mut change = Change::new(alloc, size, count);
    match push_all(
        alloc,
        &mut store.disk,
        store.page_size,
        store.commit,
        bytes,
        standing.as_mut_slice(),
        &mut change,
    ) {
        Ok(()) => Ok(unless_nothing(change, store.commit)),
        Err(fault) => Err(fault),
    }
}

/// Room for a page.
fn room_for(alloc: Global, size: u32) -> Result<Vec<u8>, NoMemory>
    ensures { IfOk result (λ room. length room.items ≡ size) }
{
    Ok(vec![in alloc; 0; size as usize]?)
}

/// The change, unless it changes nothing of an image of `commit` pages.
fn unless_nothing(change: Change, commit: u32) -> Option<Change>
    ensures { result ≡ (if changes_nothing change commit then None else Some change) }
{
    if change.commit() == commit && change.pages().is_empty() {
        None
    } else {
        Some(change)
    }
}

/// The size of the pages of a database in bytes.
#[tactic(auto, using(crate::proofs::ImportLemmas::stated_size))]
fn page_size_in(bytes: &[u8]) -> Option<u32>
    ensures some { IfSome result (λ size. AreDatabase bytes.now × (size ≡ size_in bytes.now)) }
    ensures sized { IfSome result (λ size. IsPageSize size) }
    ensures none { IfNone result (AreDatabase bytes.now → ⊥) }
{
    let Some(size) = page_size_of(bytes) else {
        return None;
    };
    if bytes.len() < size as usize || bytes.len() % size as usize != 0 {
        return None;
    }
    Some(size)
}

/// How many pages of a size the bytes are, where a database of them is within the limit.
fn count_within(bytes: &[u8], size: u32) -> Option<u32>
    requires { 0 < size }
    ensures some { IfSome result (λ count. (count ≡ length bytes.now / size) × IsWithinLimit size (length bytes.now / size)) }
    ensures none { IfNone result (IsWithinLimit size (length bytes.now / size) → ⊥) }
{
    let count = bytes.len() / size as usize;
    if count > u32::MAX as usize {
        return None;
    }
    if is_within_limit(size, count as u32) {
        Some(count as u32)
    } else {
        None
    }
}
