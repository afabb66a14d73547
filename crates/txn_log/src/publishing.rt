//! A file is published as the next of a store, and its change written over the database file.
ghost use Rattle.std.specs.Prelude.{◌≡◌, ◌∷◌, false, IsTrue, IfOk, IfErr, OnOk, OnErr, true, [], ◌++◌, IsSome, ℕ, List, All};
ghost use Rattle.ltx_codec.specs.Format.{IsFile, file_encoding, no_meaning};
ghost use Rattle.ltx_codec.specs.Positions.{after};
ghost use Rattle.txn_log.specs.Causes.{IsDiskOrMemory};
ghost use Rattle.txn_log.specs.Draft.{AreSums};
ghost use Rattle.txn_log.specs.Fields.{CallBreaks, CallWent, HasSameFiles, HasShape, state_now};
ghost use Rattle.txn_log.specs.Publishing.{Publishes, call_of, CanTake, IsSummedBy};
ghost use Rattle.txn_log.specs.Store.{end_of_entries, entry_of as entry};
ghost use Rattle.lf_base.specs.Faults.{CountsFaults};
ghost use Rattle.lf_disk.specs.History.{now, EachMoment, IsSettledBut};
ghost use Rattle.lf_disk.specs.declared.name.FileName.{FileName as Name, FileName};
ghost use Rattle.lf_sqlite_pages.specs.Image.{DatabaseImage};
ghost use Rattle.lf_sqlite_pages.specs.Apply.{apply};
ghost use Rattle.txn_log.specs.Kept.{LogFile, IsAtRest, file_of};
ghost use Rattle.txn_log.specs.Putting.{IsSettled, IsReady, IsBeforeOrAfter};
ghost use Rattle.txn_log.specs.Placing.{IsOver, IsBetween, Places, CountsPlaced};
ghost use Rattle.lf_disk.specs.Folder.{Folder};
ghost use Rattle.txn_log.specs.Installing.{IsReadyAnew, IsAsBeforeOrInstalled};
ghost use Rattle.ltx_codec.specs.Fields.{AreBytes};
ghost use Rattle.txn_log.specs.Modes.{wal_after as mode_after};

use crate::coming::are_bytes;
use crate::entry::{Attempt, Entry};
use crate::fault::StoreFault;
use crate::file_staging::stage_file;
use crate::rewriting::rewrite;
use crate::settling::settle;
use crate::store::Store;
use crate::sums::update;
use lf_base::{Failed, Pos};
use lf_disk::{Disk, FileName, put_in_place};
use lf_sqlite_pages::{Change, is_wal};
use ltx_codec::Ltx;
use std::alloc::Global;

/// The entry of a file.
pub fn entry_of(file: &Ltx) -> Entry
    requires { IsFile file.now }
    ensures { result ≡ entry file.now }
{
    Entry {
        min: file.header.min,
        max: file.header.max,
        pre: file.before(),
        post: file.after(),
    }
}

/// Publishes a file that follows the store, and writes its change over the database file. Of its pages
/// these sums are known.
pub fn publish<D: Disk>(
    store: &mut Store<D>,
    file: &Ltx,
    known: &[u64],
    attempt: Attempt,
) -> Result<Pos, StoreFault>
    requires open_ { store.old.broken ≡ false }
    requires publishes { Publishes attempt file.now }
    requires valid { IsFile file.now }
    requires sum { IsSummedBy store.old.sums.sums file.now }
    requires known { AreSums known.now file.now.change.pages }
    requires can { IsTrue (D.honest store.old.disk) → CanTake (state_now store.old) file.now }
    ensures went { IsTrue (D.honest store.old.disk) → CallWent store.old (call_of attempt file.now) result store.new }
    ensures told { IfOk result (λ position. position ≡ after file.now) }
    ensures refusal { IfErr result IsDiskOrMemory }
    ensures shape { OnOk result (HasShape store.new file.now.header.page_size file.now.header.commit) }
    ensures position { OnOk result (end_of_entries store.new.entries.items ≡ after file.now) }
    ensures same { OnErr result (HasSameFiles store.old store.new) }
    ensures cause { CallBreaks store.old result store.new }
    ensures honest { D.honest store.new.disk ≡ D.honest store.old.disk }
{
    file_reads_back(file);
    if store.entries.reserve(1).is_err() {
        return Err(StoreFault::NoMemory);
    }
    let more = file.header.commit.saturating_sub(store.commit);
    match store.sums.reserve(more) {
        Ok(()) => {}
        Err(_) => return Err(StoreFault::NoMemory),
    }
    store.whole = store.disk.moment();
    let alloc = *store.entries.allocator();
    match place(alloc, &mut store.disk, store.dropped, file) {
        Placed::Whole => {
            store.page_size = file.header.page_size;
            store.commit = file.header.commit;
            store.wal = wal_after(store.wal, &file.change);
            store.dropped = false;
            store.entries.push_reserved(entry_of(file));
            update(&mut store.sums, &file.change, known);
            Ok(file.after())
        }
        Placed::Unpublished => {
            store.broken = true;
            store.attempt = Attempt::Unpublished;
            store.tried = store.whole;
            Err(StoreFault::Disk)
        }
        Placed::From(tried) => {
            store.broken = true;
            store.attempt = attempt;
            store.tried = tried;
            Err(StoreFault::Disk)
        }
    }
}

/// Publishes the staged file: on a store with the mark of a dropped database as a snapshot, else under
/// its name in the log.
fn put_staged<D: Disk>(
    alloc: Global,
    disk: &mut D,
    dropped: bool,
    min: u64,
    max: u64,
    change: &Change,
) -> Result<(), Failed>
    requires settled { IsTrue (D.honest disk.old) → IsSettled (D.history disk.old) }
    requires there { IsTrue (D.honest disk.old) → IsSome (now (D.history disk.old) Name.Staged) }
    ensures moments { IsTrue (D.honest disk.old) → (image : DatabaseImage) (files : List LogFile) (encoding : List ℕ)
        → IsReady image files dropped encoding change.now (D.history disk.old) → (dropped ≡ true → files ≡ [])
        → EachMoment (D.history disk.old) (D.history disk.new)
        (IsBetween image files dropped (apply image change.now) (record { min = min; max = max; encoding = encoding })) }
    ensures done { IsTrue (D.honest disk.old) → OnOk result ((image : DatabaseImage) (files : List LogFile) (encoding : List ℕ)
        → IsReady image files dropped encoding change.now (D.history disk.old) → (dropped ≡ true → files ≡ [])
        → IsAtRest (apply image change.now) (files ++ record { min = min; max = max; encoding = encoding } ∷ []) false (D.history disk.new)) }
    ensures honest { D.honest disk.new ≡ D.honest disk.old }
    ensures cause { CountsFaults (D.faults disk.old) (D.faults disk.new) result }
{
    if dropped {
        put_anew(alloc, disk, &[], min, max, change)?;
        return Ok(());
    }
    put(alloc, disk, min, max, change)?;
    Ok(())
}

/// Stages a transaction file, publishes it, and writes its change over the database file.
pub fn place<D: Disk>(alloc: Global, disk: &mut D, dropped: bool, file: &Ltx) -> Placed
    requires valid { IsFile file.now }
    requires settled { IsTrue (D.honest disk.old) → IsSettledBut Name.Staged (D.history disk.old) }
    ensures places { IsTrue (D.honest disk.old) → (image : DatabaseImage) (files : List LogFile)
        → IsOver image files dropped (file_encoding file.now no_meaning) file.now.change (D.history disk.old)
        → Places image files dropped (apply image file.now.change)
        (record { min = file.now.header.min; max = file.now.header.max; encoding = file_encoding file.now no_meaning })
        (D.history disk.old) result (D.history disk.new) }
    ensures honest { D.honest disk.new ≡ D.honest disk.old }
    ensures cause { CountsPlaced (D.faults disk.old) (D.faults disk.new) result }
{
    match stage_file(alloc, disk, file) {
        Ok(()) => {}
        Err(_) => return Placed::Unpublished,
    }
    let tried = disk.moment();
    match put_staged(
        alloc,
        disk,
        dropped,
        file.header.min,
        file.header.max,
        &file.change,
    ) {
        Ok(()) => Placed::Whole,
        Err(_) => Placed::From(tried),
    }
}

/// How far a file came on its way into the log.
#[derive(Clone, Copy, Debug, PartialEq, Eq)]
pub enum Placed {
    /// It is in the log, and its change in the database file.
    Whole,
    /// A call of the disk failed, and the file's rename was not tried.
    Unpublished,
    /// A call of the disk failed, from the file's rename on, which was tried at this moment.
    From(u64),
}

/// Gives the staged file its name in the log, and then writes its change over the database file.
pub fn put<D: Disk>(
    alloc: Global,
    disk: &mut D,
    min: u64,
    max: u64,
    change: &Change,
) -> Result<(), Failed>
    requires settled { IsTrue (D.honest disk.old) → IsSettled (D.history disk.old) }
    requires there { IsTrue (D.honest disk.old) → IsSome (now (D.history disk.old) FileName.Staged) }
    ensures moments { IsTrue (D.honest disk.old) → (image : DatabaseImage) (files : List LogFile) (encoding : List ℕ)
        → IsReady image files false encoding change.now (D.history disk.old)
        → EachMoment (D.history disk.old) (D.history disk.new)
        (IsBeforeOrAfter image files (apply image change.now) (files ++ record { min = min; max = max; encoding = encoding } ∷ [])) }
    ensures done { IsTrue (D.honest disk.old) → OnOk result ((image : DatabaseImage) (files : List LogFile) (encoding : List ℕ)
        → IsReady image files false encoding change.now (D.history disk.old)
        → IsAtRest (apply image change.now) (files ++ record { min = min; max = max; encoding = encoding } ∷ []) false (D.history disk.new)) }
    ensures honest { D.honest disk.new ≡ D.honest disk.old }
    ensures cause { CountsFaults (D.faults disk.old) (D.faults disk.new) result }
{
    put_in_place(disk, FileName::Ltx { min, max })?;
    rewrite(alloc, disk, change)?;
    Ok(())
}

/// Publishes the staged file as a snapshot in place of the transaction files of these entries, and
/// does the rest of an install.
pub fn put_anew<D: Disk>(
    alloc: Global,
    disk: &mut D,
    entries: &[Entry],
    min: u64,
    max: u64,
    change: &Change,
) -> Result<(), Failed>
    requires settled { IsTrue (D.honest disk.old) → IsSettled (D.history disk.old) }
    requires there { IsTrue (D.honest disk.old) → IsSome (now (D.history disk.old) Name.Staged) }
    ensures moments { IsTrue (D.honest disk.old) → (before : Folder) (image : DatabaseImage) (encoding : List ℕ)
        → IsReadyAnew before image encoding entries.now change.now (D.history disk.old)
        → EachMoment (D.history disk.old) (D.history disk.new)
        (IsAsBeforeOrInstalled before image (record { min = min; max = max; encoding = encoding })) }
    ensures done { IsTrue (D.honest disk.old) → OnOk result ((before : Folder) (image : DatabaseImage) (encoding : List ℕ)
        → IsReadyAnew before image encoding entries.now change.now (D.history disk.old)
        → IsAtRest image (record { min = min; max = max; encoding = encoding } ∷ []) false (D.history disk.new)) }
    ensures honest { D.honest disk.new ≡ D.honest disk.old }
    ensures cause { CountsFaults (D.faults disk.old) (D.faults disk.new) result }
{
    put_in_place(disk, FileName::Snapshot)?;
    settle(alloc, disk, entries, min, max, change)?;
    Ok(())
}

/// The pages of a change are bytes.
fn pages_are_bytes(change: &Change)
    ensures { All (λ w. AreBytes w.bytes) change.now.pages }
{
    for page in change.pages() {
        are_bytes(page.bytes.as_slice());
    }
}

/// The encoding of a file, as it is written, reads as that file.
pub fn file_reads_back(file: &Ltx)
    requires { IsFile file.now }
    ensures { file_of (file_encoding file.now no_meaning) ≡ file.now }
{
    pages_are_bytes(&file.change);
}

/// Whether a database is in WAL mode after a change.
pub fn wal_after(wal: bool, change: &Change) -> bool
    ensures { result ≡ mode_after wal change.now }
{
    if change.commit() == 0 {
        return false;
    }
    match change.page(1) {
        Some(page) => is_wal(page),
        None => wal,
    }
}
