//! A source is read as one file, judged, and published, beside the fields of a store.
ghost use Rattle.std.specs.Prelude.{◌≡◌, ◌↔◌, ◌≤◌, ◌<◌, true, [], ℕ, List, length, IsTrue};
ghost use Rattle.lf_disk.specs.History.{now, IsSettledBut};
ghost use Rattle.lf_disk.specs.declared.name.FileName.{FileName as Name};
ghost use Rattle.lf_sqlite_pages.specs.Change.{PageChange, IsChange, HoldsEveryPage, FitsOver};
ghost use Rattle.lf_sqlite_pages.specs.PageSize.{IsPageSize};
ghost use Rattle.lf_sqlite_pages.specs.LockPage.{data_pages_to as data_pages};
ghost use Rattle.ltx_codec.specs.Fields.{AreBytes};
ghost use Rattle.ltx_codec.specs.Format.{IsLtx};
ghost use Rattle.ltx_codec.specs.Positions.{before as position_before};
ghost use Rattle.txn_log.specs.Bringing.{JudgesTaken, Brings, CountsBrought};
ghost use Rattle.txn_log.specs.Coming.{HasCome};
ghost use Rattle.txn_log.specs.Reserve.{spare_of};
ghost use Rattle.txn_log.specs.Taking.{TakenIn};

use crate::coming::Coming;
use crate::fault::{FromFault, StoreFault};
use crate::outline::Outline;
use crate::placing_from::place_from;
use crate::publishing::Placed;
use crate::taking_source::{Intake, TakeFault, take_source};
use lf_base::{Pos, Source};
use lf_disk::Disk;
use lf_sqlite_pages::lock_page;
use ltx_codec::Header;
use page_checksum::Sums;

/// What a store is, beside its disk and its table of sums.
#[derive(Clone, Copy, Debug)]
pub struct Ground {
    pub position: Pos,
    pub page_size: u32,
    pub commit: u32,
    pub wal: bool,
    pub dropped: bool,
    /// How many pages it can come to have.
    pub room: u32,
}

/// How far a source came on its way into the log.
#[derive(Clone, Copy, Debug)]
pub enum Brought {
    /// Its file is in the log, and its change in the database file.
    Whole { outline: Outline, wal: bool },
    /// It is refused.
    Refused(FromFault),
    /// A call of the disk failed, and the file's rename was not tried.
    Unpublished,
    /// A call of the disk failed, from the file's rename on, which was tried at this moment.
    From(u64),
}

/// How many of the pages from 1 to `n` are data pages.
fn data_pages_to(page_size: u32, n: u32) -> u32
    requires { 0 < page_size }
    ensures { result ≡ data_pages page_size n }
{
    if n < lock_page(page_size) { n } else { n - 1 }
}

/// Whether a file that holds so many pages holds every data page.
fn holds_every(held: u32, header: &Header) -> bool
    requires { IsPageSize header.now.page_size }
    ensures { (change : PageChange) → IsChange change → change.page_size ≡ header.now.page_size → change.commit ≡ header.now.commit → held ≡ length change.pages
        → (IsTrue result ↔ HoldsEveryPage change) }
{
    held == data_pages_to(header.page_size, header.commit)
}

/// Whether it can be applied to a database of `count` pages of `page_size` bytes.
fn fits(held: u32, header: &Header, page_size: u32, count: u32) -> bool
    requires { IsPageSize header.now.page_size }
    ensures { (change : PageChange) → IsChange change → change.page_size ≡ header.now.page_size → change.commit ≡ header.now.commit → held ≡ length change.pages
        → (IsTrue result ↔ FitsOver page_size count change) }
{
    if page_size == header.page_size {
        return true;
    }
    if count == 0 {
        return true;
    }
    holds_every(held, header)
}

/// The position that a file follows.
pub fn before(outline: &Outline) -> Pos
    requires { 1 ≤ outline.now.header.min }
    ensures { (change : PageChange) → result ≡ position_before (record { header = outline.now.header; change = change; post = outline.now.post }) }
{
    Pos {
        txid: outline.header.min - 1,
        sum: outline.header.pre,
    }
}

/// Whether a file that was read is taken.
fn judge_taken(
    outline: &Outline,
    taken: Option<Intake>,
    table: &Sums,
    ground: &Ground,
) -> Result<Intake, FromFault>
    requires is { (encoding : List ℕ) × (change : PageChange) × (sums : List ℕ) × AreBytes encoding × IsLtx encoding (record { header = outline.now.header; change = change; post = outline.now.post })
        × TakenIn taken table.now.sums sums ground.now.commit ground.now.wal ground.now.room encoding change }
    ensures judges { (encoding : List ℕ) (change : PageChange) (sums : List ℕ) → AreBytes encoding
        → IsLtx encoding (record { header = outline.now.header; change = change; post = outline.now.post })
        → TakenIn taken table.now.sums sums ground.now.commit ground.now.wal ground.now.room encoding change
        → JudgesTaken taken ground.now.room ground.now.position ground.now.page_size ground.now.commit sums
        (record { header = outline.now.header; change = change; post = outline.now.post }) result }
{
    let Some(intake) = taken else {
        return Err(FromFault::Room {
            commit: outline.header.commit,
        });
    };
    let have = ground.position;
    let want = before(outline);
    if want != have {
        return Err(FromFault::Store(StoreFault::NotNext { have, want }));
    }
    if !fits(
        intake.held,
        &outline.header,
        ground.page_size,
        ground.commit,
    ) {
        return Err(FromFault::Store(StoreFault::PageSize {
            have: ground.page_size,
            want: outline.header.page_size,
        }));
    }
    let want = outline.post;
    let got = table.total();
    if want != got {
        return Err(FromFault::Store(StoreFault::SumDiffers { want, got }));
    }
    Ok(intake)
}

/// Takes in the file that a source gives, and publishes it where it is taken.
pub fn bring<D: Disk, S: Source>(
    disk: &mut D,
    source: &mut S,
    coming: &mut Coming,
    table: &mut Sums,
    page: &mut [u8],
    sums: &Sums,
    ground: &Ground,
) -> Brought
    requires settled { IsTrue (D.honest disk.old) → IsSettledBut Name.Staged (D.history disk.old) }
    requires begun { (change : PageChange) × HasCome coming.old [] change }
    requires page { length page.old ≡ 65536 }
    requires room { ground.now.room ≤ spare_of table.old }
    ensures brings { Brings (D.honest disk.old) (S.left source.old) (S.left source.new) (D.history disk.old) ground.now sums.now.sums table.new.sums result (D.history disk.new) }
    ensures spare { spare_of table.new ≡ spare_of table.old }
    ensures honest { D.honest disk.new ≡ D.honest disk.old }
    ensures cause { CountsBrought (S.faults source.old) (S.faults source.new) (D.faults disk.old) (D.faults disk.new) result }
{
    let (outline, taken) = match take_source(
        disk,
        source,
        coming,
        table,
        page,
        sums,
        ground.commit,
        ground.wal,
        ground.room,
    ) {
        Ok(it) => it,
        Err(TakeFault::Source) => return Brought::Refused(FromFault::Source),
        Err(TakeFault::Ltx(fault)) => return Brought::Refused(FromFault::Ltx(fault)),
        Err(TakeFault::Disk) => return Brought::Unpublished,
    };
    let intake = match judge_taken(&outline, taken, table, ground) {
        Ok(intake) => intake,
        Err(fault) => return Brought::Refused(fault),
    };
    match place_from(
        disk,
        ground.dropped,
        intake.receiving,
        sums,
        ground.commit,
        outline.post,
        page,
    ) {
        Placed::Whole => Brought::Whole {
            outline,
            wal: intake.wal,
        },
        Placed::Unpublished => Brought::Unpublished,
        Placed::From(tried) => Brought::From(tried),
    }
}
