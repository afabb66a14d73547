//! A snapshot that a source gives is published in place of a store's image and log, without memory.
ghost use Rattle.std.specs.Prelude.{◌≡◌, ◌<◌, true, length, vec_capacity, IsSome, IsTrue, IfOk, OnOk, OnErr, ◌≤◌, [], ℕ, List, Bool};
ghost use Rattle.lf_disk.specs.History.{IsSettledBut};
ghost use Rattle.lf_disk.specs.declared.name.FileName.{FileName as Name};
ghost use Rattle.txn_log.specs.Bringing.{CountsBrought};
ghost use Rattle.txn_log.specs.BringingAnew.{BringsAnew, JudgesSnapshot};
ghost use Rattle.ltx_codec.specs.declared.file.Ltx.{Ltx};
ghost use Rattle.txn_log.specs.Fields.{CallBreaksFrom, CallWentInstalled, HasSameFiles, HasShape, InstallsFromBy};
ghost use Rattle.txn_log.specs.From.{Gave, CountsRefused};
ghost use Rattle.txn_log.specs.FromSnapshot.{RefusesInstall, broken_or_other};
ghost use Rattle.txn_log.specs.Store.{end_of_entries};
ghost use Rattle.lf_sqlite_pages.specs.Change.{PageChange};
ghost use Rattle.ltx_codec.specs.Fields.{AreBytes};
ghost use Rattle.ltx_codec.specs.Format.{IsLtx};
ghost use Rattle.txn_log.specs.Coming.{HasCome};
ghost use Rattle.txn_log.specs.Reserve.{spare_of};
ghost use Rattle.txn_log.specs.Taking.{TakenIn};

use crate::applying_from::broken_or_room;
use crate::bringing::{Brought, before};
use crate::coming::{Coming, read_source};
use crate::entry::{Attempt, Entry};
use crate::fault::{FromFault, StoreFault};
use crate::outline::{Outline, SourceFault};
use crate::placing_from::place_anew_from;
use crate::publishing::Placed;
use crate::reserved::Reserved;
use crate::store::Store;
use crate::taking_source::{Intake, TakeFault, take_source};
use lf_base::{Pos, Source};
use lf_disk::Disk;
use ltx_codec::Header;
use page_checksum::Sums;
use std::alloc::Global;

/// That it is no snapshot, room, or that the store is broken.
fn broken_or_delta(header: &Header, room: u32) -> FromFault
    ensures { result ≡ broken_or_other header.now.min header.now.commit room }
{
    if header.min == 1 {
        return broken_or_room(header.commit, room);
    }
    FromFault::NotSnapshot
}

/// Why a store that is broken refuses what a source gives. The source is read all the same.
fn refuse_snapshot<S: Source>(
    source: &mut S,
    reserved: Reserved,
    page: &mut [u8],
) -> (FromFault, Reserved)
    requires { length page.old ≡ 65536 }
    ensures refuses { RefusesInstall (S.left source.old) (S.left source.new) reserved.pages true result.0 }
    ensures cause { CountsRefused (S.faults source.old) (S.faults source.new) result.0 }
{
    let Reserved {
        reader,
        sums,
        pages,
    } = reserved;
    let mut coming = Coming::new(reader);
    let why = match read_source(source, &mut coming, page) {
        Ok(outline) => broken_or_delta(&outline.header, pages),
        Err(SourceFault::Source) => FromFault::Source,
        Err(SourceFault::Ltx(fault)) => FromFault::Ltx(fault),
    };
    let left = Reserved {
        reader: coming.reader,
        sums,
        pages,
    };
    (why, left)
}

/// Brings the snapshot that a source gives into the place of the files of these entries, with what is
/// reserved for it.
fn bring_anew_with<D: Disk, S: Source>(
    alloc: Global,
    disk: &mut D,
    source: &mut S,
    reserved: Reserved,
    page: &mut [u8],
    entries: &[Entry],
) -> (Brought, Reserved)
    requires settled { IsTrue (D.honest disk.old) → IsSettledBut Name.Staged (D.history disk.old) }
    requires page { length page.old ≡ 65536 }
    ensures brings { BringsAnew (D.honest disk.old) (S.left source.old) (S.left source.new) (D.history disk.old) reserved.pages entries.now result.1.sums.sums result.0 (D.history disk.new) }
    ensures honest { D.honest disk.new ≡ D.honest disk.old }
    ensures cause { CountsBrought (S.faults source.old) (S.faults source.new) (D.faults disk.old) (D.faults disk.new) result.0 }
{
    let Reserved {
        reader,
        sums: mut table,
        pages,
    } = reserved;
    let mut coming = Coming::new(reader);
    let brought = bring_anew(
        alloc,
        disk,
        source,
        &mut coming,
        &mut table,
        page,
        entries,
        pages,
    );
    let left = Reserved {
        reader: coming.reader,
        sums: table,
        pages,
    };
    (brought, left)
}

/// Publishes the snapshot that a source gives, which is then the whole log, and makes the database
/// file its pages, without memory but for what was reserved and a page of 65,536 bytes. The source is
/// read to its end, or to the fault that stands earliest.
pub fn publish_anew_from<D: Disk, S: Source>(
    store: &mut Store<D>,
    source: &mut S,
    page: &mut [u8],
) -> Result<Pos, FromFault>
    requires reserved { IsSome store.old.decoder }
    requires entry { length store.old.entries.items < vec_capacity store.old.entries }
    requires page { length page.old ≡ 65536 }
    ensures installs { InstallsFromBy store.old (S.left source.old) (S.left source.new) result }
    ensures cause { CallBreaksFrom store.old (S.faults source.old) result store.new (S.faults source.new) }
    ensures shape { OnOk result ((file : Ltx) × Gave (S.left source.old) (S.left source.new) file
        × HasShape store.new file.header.page_size file.header.commit) }
    ensures position { IfOk result (λ told. end_of_entries store.new.entries.items ≡ told) }
    ensures same { OnErr result (HasSameFiles store.old store.new) }
    ensures reader { IsSome store.new.decoder }

    // What a crash leaves at each moment.
    ensures went { IsTrue (D.honest store.old.disk)
        → CallWentInstalled store.old (S.left source.old) (S.left source.new) result store.new }
    ensures honest { D.honest store.new.disk ≡ D.honest store.old.disk }
{
    let Some(reserved) = store.decoder.take() else {
        return Err(FromFault::Source);
    };
    if store.broken {
        let (why, left) = refuse_snapshot(source, reserved, page);
        store.decoder = Some(left);
        return Err(why);
    }
    let start = store.disk.moment();
    let (brought, mut left) = bring_anew_with(
        *store.entries.allocator(),
        &mut store.disk,
        source,
        reserved,
        page,
        store.entries.as_slice(),
    );
    match brought {
        Brought::Whole { outline, wal } => {
            let post = Pos {
                txid: outline.header.max,
                sum: outline.post,
            };
            let entry = Entry {
                min: outline.header.min,
                max: outline.header.max,
                pre: before(&outline),
                post,
            };
            left.exchange(&mut store.sums);
            store.decoder = Some(left);
            store.page_size = outline.header.page_size;
            store.commit = outline.header.commit;
            store.wal = wal;
            store.dropped = false;
            store.entries.clear();
            store.entries.push_reserved(entry);
            Ok(post)
        }
        Brought::Refused(fault) => {
            store.decoder = Some(left);
            Err(fault)
        }
        Brought::Unpublished => {
            store.decoder = Some(left);
            store.broken = true;
            store.whole = start;
            store.attempt = Attempt::Unpublished;
            store.tried = start;
            Err(FromFault::Store(StoreFault::Disk))
        }
        Brought::From(tried) => {
            store.decoder = Some(left);
            store.broken = true;
            store.whole = start;
            store.attempt = Attempt::Install;
            store.tried = tried;
            Err(FromFault::Store(StoreFault::Disk))
        }
    }
}

/// Whether a file that was read is installed.
fn judge_snapshot(outline: &Outline, taken: Option<Intake>, room: u32) -> Result<Intake, FromFault>
    ensures judges { (encoding : List ℕ) (change : PageChange) (table sums : List ℕ) (count : ℕ) (wal : Bool) → AreBytes encoding
        → IsLtx encoding (record { header = outline.now.header; change = change; post = outline.now.post })
        → TakenIn taken table sums count wal room encoding change
        → JudgesSnapshot taken room (record { header = outline.now.header; change = change; post = outline.now.post }) result }
{
    if outline.header.min != 1 {
        return Err(FromFault::NotSnapshot);
    }
    let Some(intake) = taken else {
        return Err(FromFault::Room {
            commit: outline.header.commit,
        });
    };
    Ok(intake)
}

/// Takes in the snapshot that a source gives, and publishes it in place of the files of these entries.
/// No page stands in for one that it does not hold: a snapshot holds every data page, and any other
/// file is refused.
pub fn bring_anew<D: Disk, S: Source>(
    alloc: Global,
    disk: &mut D,
    source: &mut S,
    coming: &mut Coming,
    table: &mut Sums,
    page: &mut [u8],
    entries: &[Entry],
    room: u32,
) -> Brought
    requires settled { IsTrue (D.honest disk.old) → IsSettledBut Name.Staged (D.history disk.old) }
    requires begun { (change : PageChange) × HasCome coming.old [] change }
    requires page { length page.old ≡ 65536 }
    requires room { room ≤ spare_of table.old }
    ensures brings { BringsAnew (D.honest disk.old) (S.left source.old) (S.left source.new) (D.history disk.old) room entries.now table.new.sums result (D.history disk.new) }
    ensures spare { spare_of table.new ≡ spare_of table.old }
    ensures honest { D.honest disk.new ≡ D.honest disk.old }
    ensures cause { CountsBrought (S.faults source.old) (S.faults source.new) (D.faults disk.old) (D.faults disk.new) result }
{
    let nothing = Sums::new(alloc);
    let count = u32::MAX;
    let (outline, taken) = match take_source(
        disk, source, coming, table, page, &nothing, count, false, room,
    ) {
        Ok(it) => it,
        Err(TakeFault::Source) => return Brought::Refused(FromFault::Source),
        Err(TakeFault::Ltx(fault)) => return Brought::Refused(FromFault::Ltx(fault)),
        Err(TakeFault::Disk) => return Brought::Unpublished,
    };
    let intake = match judge_snapshot(&outline, taken, room) {
        Ok(intake) => intake,
        Err(fault) => return Brought::Refused(fault),
    };
    match place_anew_from(
        disk,
        entries,
        intake.receiving,
        &nothing,
        count,
        outline.post,
        page,
    ) {
        Placed::Whole => Brought::Whole {
            outline,
            wal: intake.wal,
        },
        Placed::Unpublished => Brought::Unpublished,
        Placed::From(tried) => Brought::From(tried),
    }
}
