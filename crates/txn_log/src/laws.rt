//! Laws of the store, each the contract of a function that does nothing.
ghost use Rattle.std.specs.Prelude.{◌≡◌, Bool, List, ◌<◌, ℕ, ◌≤◌, [], Option, Some, Result as ResultOf};
ghost use Rattle.lf_disk.specs.Folder.{Folder};
ghost use Rattle.lf_sqlite_pages.specs.Image.{DatabaseImage};
ghost use Rattle.world_laws.specs.Store.{StoreState, Failure, Apply};
ghost use Rattle.txn_log.specs.declared.entry.Entry.{Entry as EntryOfLog};
ghost use Rattle.txn_log.specs.Kept.{LogFile, file_of, Kept};
ghost use Rattle.txn_log.specs.Durable.{Durable, StandsBySnapshot};
ghost use Rattle.txn_log.specs.Settling.{HasNoOthers, IsInstalled};
ghost use Rattle.txn_log.specs.Store.{files_in};
ghost use Rattle.lf_sqlite_pages.specs.LockPage.{IsDataPage};
ghost use Rattle.lf_sqlite_pages.specs.Change.{PageChange, IsChange, last_number, with_page};
ghost use Rattle.lf_sqlite_pages.specs.Complete.{completed_page};
ghost use Rattle.txn_log.specs.Receiving.{HasPassed, Lacks, ComesNext};
ghost use Rattle.txn_log.specs.declared.receiving.Receiving.{Receiving as Passing};
ghost use Rattle.lf_base.specs.declared.pos.Pos.{Pos as Position};
ghost use Rattle.ltx_codec.specs.Fields.{AreBytes};
ghost use Rattle.ltx_codec.specs.Format.{IsLtx};
ghost use Rattle.ltx_codec.specs.declared.file.Ltx.{Ltx};
ghost use Rattle.txn_log.specs.Apply.{whole_file, Applies};
ghost use Rattle.txn_log.specs.Calls.{Went};
ghost use Rattle.txn_log.specs.From.{AppliesFrom, WentFrom};
ghost use Rattle.txn_log.specs.FromFile.{from_answer, IsDecided, IsOfFile};
ghost use Rattle.txn_log.specs.declared.fault.StoreFault.{StoreFault as Fault};
ghost use Rattle.txn_log.specs.declared.fault.FromFault.{FromFault as SourceAnswer};

use lf_disk::Disk;

/// While a snapshot is settled under its own numbers, each folder that a crash leaves stands for
/// the store of the snapshot.
pub fn settled_stands()
    ensures { (folder c : Folder) (store : StoreState) (by : StandsBySnapshot folder store) (file : LogFile) → file.encoding ≡ by.encoding
        → (file_of by.encoding).header.min ≡ file.min → (file_of by.encoding).header.max ≡ file.max → IsInstalled store.image file c → Durable c store }
{}

/// The entries of a store name all transaction files of its folder.
pub fn entries_name_all()
    ensures { (entries : List EntryOfLog) (image : DatabaseImage) (dropped : Bool) (f : Folder) → Kept image (files_in entries f) dropped f → HasNoOthers entries f }
{}

/// While the pages of a file come, its complete change grows by each of them, and behind the last
/// one it lacks all.
pub fn pages_come_in_order()
    ensures next { (receiving : Passing) (sums : List ℕ) (change : PageChange) (count number : ℕ) (page : List ℕ) → IsChange change
        → last_number change.pages ≡ receiving.passed → receiving.passed < number → IsDataPage change.page_size number
        → receiving.header.page_size ≡ change.page_size → HasPassed receiving sums (completed_page change count)
        → ComesNext receiving sums count (completed_page (with_page change number page) count) number page }
    ensures last { (receiving : Passing) (change : PageChange) (count : ℕ) → IsChange change
        → last_number change.pages ≡ receiving.passed → receiving.header.page_size ≡ change.page_size
        → Lacks receiving count (completed_page change count) change.commit }
{}

/// A source that tells just the encoding of a file, for which there is room, is answered as the file
/// itself: but where the source failed the answer is one for the file, and where neither memory nor
/// the disk decided, the two answer the same.
pub fn a_source_is_its_file()
    ensures of_file { (encoding : List ℕ) (file : Ltx) (left_now : Option (List ℕ)) (room : ℕ) (broken : Bool) (position : Position) (size commit : ℕ) (sums : List ℕ)
        (answer : ResultOf Position SourceAnswer)
        → AreBytes encoding → IsLtx encoding file → file.header.commit ≤ room
        → AppliesFrom (Some encoding) left_now room broken position size commit sums answer → IsOfFile answer }
    ensures as_file { (encoding : List ℕ) (file : Ltx) (left_now : Option (List ℕ)) (room : ℕ) (broken : Bool) (position : Position) (size commit : ℕ) (sums : List ℕ)
        (answer : ResultOf Position Fault)
        → IsLtx encoding file → IsDecided answer
        → AppliesFrom (Some encoding) left_now room broken position size commit sums (from_answer answer) → Applies broken position size commit sums file answer }
    ensures as_source { (encoding : List ℕ) (file : Ltx) (room : ℕ) (broken : Bool) (position : Position) (size commit : ℕ) (sums : List ℕ) (answer : ResultOf Position Fault)
        → IsLtx encoding file → file.header.commit ≤ room → IsDecided answer
        → Applies broken position size commit sums file answer → AppliesFrom (Some encoding) (Some []) room broken position size commit sums (from_answer answer) }
{}

/// What is done between two moments of a disk with such a source is what is done with the file.
pub fn a_source_is_done_as_its_file<D: Disk>(before: &D, after: &D)
    ensures { (encoding : List ℕ) (file : Ltx) (left_now : Option (List ℕ)) (commit : ℕ) (old : StoreState) (was : Option Failure) (answer : ResultOf Position Fault)
        (new : StoreState) (failed : Option Failure)
        → IsLtx encoding file → WentFrom (Some encoding) left_now commit old was (D.history before.now) (from_answer answer) new failed (D.history after.now)
        → Went old was (D.history before.now) (Apply (whole_file commit file)) answer new failed (D.history after.now) }
{}
