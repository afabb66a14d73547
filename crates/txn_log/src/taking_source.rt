//! A source is read as one file, which is taken in as it comes.
ghost use Rattle.std.specs.Prelude.{◌≡◌, ◌+◌, ◌<◌, ◌≤◌, ℕ, List, [], Option, take, drop, ◌++◌, length, IsTrue, IfOk, ◌==◌, if◌then◌else◌, Bool, replicate};
ghost use Rattle.std.specs.Io.KnownBytes.{Consumes, IsAtEnd};
ghost use Rattle.lf_base.specs.Faults.{CountsFaults};
ghost use Rattle.lf_disk.specs.Folder.{Folder, SameBut};
ghost use Rattle.lf_disk.specs.History.{now, EachMoment, IsSettledBut};
ghost use Rattle.lf_disk.specs.declared.name.FileName.{FileName as Name};
ghost use Rattle.lf_sqlite_pages.specs.Change.{PageChange, IsChange, empty_change, with_page};
ghost use Rattle.txn_log.specs.Coming.{HasCome, change_after};
ghost use Rattle.txn_log.specs.Reserve.{spare_of};
ghost use Rattle.txn_log.specs.Taking.{TakenIn, StagedIn, TakenUpTo, sums_behind, mode_at_first};
ghost use Rattle.txn_log.specs.TakingSource.{Came, TakesSource, CountsTaking};
ghost use Rattle.lf_sqlite_pages.specs.Complete.{completed};
ghost use Rattle.lf_sqlite_pages.specs.Header.{is_wal as is_wal_page};
ghost use Rattle.lf_sqlite_pages.specs.PageSize.{IsPageSize};
ghost use Rattle.txn_log.specs.Draft.{sum_after};
ghost use Rattle.txn_log.specs.Intake.{HoldsUpTo};

use crate::coming::{Coming, Part};
use crate::outline::Outline;
use crate::passing::begin_receiving;
use crate::receiving::Receiving;
use crate::sums::zeros;
use lf_base::{Failed, Source};
use lf_disk::Disk;
use lf_sqlite_pages::{is_wal, lock_page};
use ltx_codec::{Header, LtxFault};
use page_checksum::{Sums, page_sum};

/// Why a source is not taken in.
#[derive(Clone, Copy, Debug)]
pub enum TakeFault {
    /// The source failed.
    Source,
    /// Its bytes are the encoding of no file.
    Ltx(LtxFault),
    /// The disk failed.
    Disk,
}

/// Takes in what came with a part: nothing of a file whose database is past the room.
fn take_part<D: Disk>(
    disk: &mut D,
    table: &mut Sums,
    taken: Option<Intake>,
    coming: &Coming,
    part: Part,
    old: &Sums,
    count: u32,
    wal: bool,
    room: u32,
) -> Result<Option<Intake>, Failed>
    requires came { (before : Folder) × (encoding : List ℕ) × (longer : List ℕ) × (change : PageChange) × Came coming.now part encoding longer change
        × TakenIn taken table.old.sums old.now.sums count wal room encoding change
        × (IsTrue (D.honest disk.old) → StagedIn taken before change count (D.history disk.old)) }
    requires room { room ≤ spare_of table.old }
    ensures moments { IsTrue (D.honest disk.old) → (before : Folder) (encoding longer : List ℕ) (change : PageChange) → Came coming.now part encoding longer change
        → TakenIn taken table.old.sums old.now.sums count wal room encoding change → StagedIn taken before change count (D.history disk.old)
        → EachMoment (D.history disk.old) (D.history disk.new) (SameBut Name.Staged before) }
    ensures staged { IsTrue (D.honest disk.old) → IfOk result (λ next. (before : Folder) (encoding longer : List ℕ) (change : PageChange) → Came coming.now part encoding longer change
        → TakenIn taken table.old.sums old.now.sums count wal room encoding change → StagedIn taken before change count (D.history disk.old)
        → StagedIn next before (change_after part coming.now change) count (D.history disk.new)) }
    ensures taken { IfOk result (λ next. (encoding longer : List ℕ) (change : PageChange) → Came coming.now part encoding longer change
        → TakenIn taken table.old.sums old.now.sums count wal room encoding change
        → TakenIn next table.new.sums old.now.sums count wal room longer (change_after part coming.now change)) }
    ensures spare { spare_of table.new ≡ spare_of table.old }
    ensures honest { D.honest disk.new ≡ D.honest disk.old }
    ensures cause { CountsFaults (D.faults disk.old) (D.faults disk.new) result }
{
    match part {
        Part::More => Ok(taken),
        Part::Header => {
            let header = coming.header();
            if header.commit > room {
                return Ok(None);
            }
            match take_header(disk, table, old, count, wal, &header) {
                Ok(intake) => Ok(Some(intake)),
                Err(failed) => Err(failed),
            }
        }
        Part::Page { number } => match taken {
            None => Ok(None),
            Some(intake) => {
                match take_page(disk, table, intake, old, count, number, coming.page()) {
                    Ok(next) => Ok(Some(next)),
                    Err(failed) => Err(failed),
                }
            }
        },
    }
}

/// Reads the next bytes of a source where none are left over of the page, and answers where those
/// that are there begin and end; they are none at the end of the source.
fn refill<S: Source>(
    source: &mut S,
    page: &mut [u8],
    at: usize,
    end: usize,
) -> Result<(usize, usize), Failed>
    requires order { (at ≤ end) × (end ≤ length page.old) }
    requires room { 0 < length page.old }
    ensures order { IfOk result (λ it. (it.0 ≤ it.1) × (it.1 ≤ length page.new)) }
    ensures more { IfOk result (λ it. (left : Option (List ℕ)) (encoding : List ℕ) → Consumes left (S.left source.old) (encoding ++ drop at (take end page.old))
        → Consumes left (S.left source.new) (encoding ++ drop it.0 (take it.1 page.new))) }
    ensures ended { IfOk result (λ it. it.0 ≡ it.1 → IsAtEnd (S.left source.new)) }
    ensures long { length page.new ≡ length page.old }
    ensures cause { CountsFaults (S.faults source.old) (S.faults source.new) result }
{
    if at < end {
        return Ok((at, end));
    }
    match source.read(page) {
        Ok(count) => Ok((0, count)),
        Err(failed) => Err(failed),
    }
}

/// Reads a source to its end, or to the fault that stands earliest, and takes in its file. It takes
/// no memory.
pub fn take_source<D: Disk, S: Source>(
    disk: &mut D,
    source: &mut S,
    coming: &mut Coming,
    table: &mut Sums,
    page: &mut [u8],
    old: &Sums,
    count: u32,
    wal: bool,
    room: u32,
) -> Result<(Outline, Option<Intake>), TakeFault>
    requires settled { IsTrue (D.honest disk.old) → IsSettledBut Name.Staged (D.history disk.old) }
    requires begun { (change : PageChange) × HasCome coming.old [] change }
    requires page { length page.old ≡ 65536 }
    requires room { room ≤ spare_of table.old }
    ensures takes { TakesSource (D.honest disk.old) (now (D.history disk.old)) (S.left source.old) (S.left source.new) table.new.sums old.now.sums count wal room result (D.history disk.new) }
    ensures moments { IsTrue (D.honest disk.old)
        → EachMoment (D.history disk.old) (D.history disk.new) (SameBut Name.Staged (now (D.history disk.old))) }
    ensures spare { spare_of table.new ≡ spare_of table.old }
    ensures page { length page.new ≡ length page.old }
    ensures honest { D.honest disk.new ≡ D.honest disk.old }
    ensures cause { CountsTaking (S.faults source.old) (S.faults source.new) (D.faults disk.old) (D.faults disk.new) result }
{
    let mut taken = None;
    let mut at = 0;
    let mut end = 0;
    'parts: loop {
        let (from, to) = match refill(source, page, at, end) {
            Ok(it) => it,
            Err(_) => return Err(TakeFault::Source),
        };
        if from == to {
            break;
        }
        let (front, _) = page.split_at(to);
        let (_, rest) = front.split_at(from);
        let (part, used) = match coming.step(rest) {
            Ok(came) => came,
            Err(fault) => return Err(TakeFault::Ltx(fault)),
        };
        match take_part(disk, table, taken, coming, part, old, count, wal, room) {
            Ok(next) => taken = next,
            Err(_) => return Err(TakeFault::Disk),
        }
        at = from + used;
        end = to;
    }
    match coming.finish() {
        Ok(outline) => Ok((outline, taken)),
        Err(fault) => Err(TakeFault::Ltx(fault)),
    }
}

/// A file that is taken in.
#[derive(Clone, Copy, Debug)]
pub struct Intake {
    pub receiving: Receiving,
    /// How many pages it held so far.
    pub held: u32,
    /// Whether the database is in WAL mode after it.
    pub wal: bool,
}

/// The sum of page `n` where the file holds no page. `zeros` are a page of zeros.
fn first_sum(old: &Sums, size: u32, count: u32, n: u32, zeros: &[u8]) -> u64
    requires sized { IsPageSize size }
    requires first { 1 ≤ n }
    requires zeros { zeros.now ≡ replicate size 0 }
    ensures { (commit : ℕ) → n ≤ commit → result ≡ sum_after old.now.sums (completed (empty_change size commit) count) n }
{
    if n == lock_page(size) {
        return 0;
    }
    if n <= count {
        return old.get(n);
    }
    page_sum(n, zeros)
}

/// Gives the table the sums after a file of this header that holds no page.
fn begin_table(table: &mut Sums, old: &Sums, count: u32, header: &Header)
    requires sized { IsPageSize header.now.page_size }
    requires room { header.now.commit ≤ spare_of table.old }
    ensures sums { table.new.sums ≡ sums_behind count old.now.sums (empty_change header.now.page_size header.now.commit) }
    ensures spare { spare_of table.new ≡ spare_of table.old }
{
    let zeros = zeros();
    let (zeros, _) = zeros.split_at(header.page_size as usize);
    table.resize(0);
    table.resize(header.commit);
    for before in 0..header.commit {
        let n = before + 1;
        table.set(n, first_sum(old, header.page_size, count, n, zeros));
    }
}

/// Whether the database is in WAL mode after a file of this header that holds no page.
fn first_wal(wal: bool, count: u32, header: &Header) -> bool
    ensures { result ≡ mode_at_first wal count header.now.commit }
{
    if header.commit == 0 {
        return false;
    }
    if count == 0 {
        return false;
    }
    wal
}

/// Whether it is once this page came.
fn next_wal(wal: bool, number: u32, page: &[u8]) -> bool
    ensures { result ≡ (if number == 1 then is_wal_page page.now else wal) }
{
    if number == 1 {
        return is_wal(page);
    }
    wal
}

/// Begins to take in a file of this header.
pub fn take_header<D: Disk>(
    disk: &mut D,
    table: &mut Sums,
    old: &Sums,
    count: u32,
    wal: bool,
    header: &Header,
) -> Result<Intake, Failed>
    requires settled { IsTrue (D.honest disk.old) → IsSettledBut Name.Staged (D.history disk.old) }
    requires sized { IsPageSize header.now.page_size }
    requires room { header.now.commit ≤ spare_of table.old }
    ensures moments { IsTrue (D.honest disk.old)
        → EachMoment (D.history disk.old) (D.history disk.new) (SameBut Name.Staged (now (D.history disk.old))) }
    ensures staged { IsTrue (D.honest disk.old) → IfOk result (λ intake. HoldsUpTo (now (D.history disk.old)) intake.receiving
        (empty_change header.now.page_size header.now.commit) count (D.history disk.new)) }
    ensures taken { IfOk result (λ intake. TakenUpTo intake table.new.sums old.now.sums count wal (empty_change header.now.page_size header.now.commit)) }
    ensures header { IfOk result (λ intake. intake.receiving.header ≡ header.now) }
    ensures spare { spare_of table.new ≡ spare_of table.old }
    ensures honest { D.honest disk.new ≡ D.honest disk.old }
    ensures cause { CountsFaults (D.faults disk.old) (D.faults disk.new) result }
{
    match begin_receiving(disk, header) {
        Ok(receiving) => {
            begin_table(table, old, count, header);
            Ok(Intake {
                receiving,
                held: 0,
                wal: first_wal(wal, count, header),
            })
        }
        Err(failed) => Err(failed),
    }
}

/// Takes in the page that comes next.
pub fn take_page<D: Disk>(
    disk: &mut D,
    table: &mut Sums,
    intake: Intake,
    old: &Sums,
    count: u32,
    number: u32,
    page: &[u8],
) -> Result<Intake, Failed>
    requires taken { (wal : Bool) × (change : PageChange) × TakenUpTo intake table.old.sums old.now.sums count wal change × IsChange (with_page change number page.now) }
    ensures moments { IsTrue (D.honest disk.old) → (before : Folder) (wal : Bool) (change : PageChange)
        → TakenUpTo intake table.old.sums old.now.sums count wal change → HoldsUpTo before intake.receiving change count (D.history disk.old)
        → EachMoment (D.history disk.old) (D.history disk.new) (SameBut Name.Staged before) }
    ensures staged { IsTrue (D.honest disk.old) → IfOk result (λ next. (before : Folder) (wal : Bool) (change : PageChange)
        → TakenUpTo intake table.old.sums old.now.sums count wal change → HoldsUpTo before intake.receiving change count (D.history disk.old)
        → HoldsUpTo before next.receiving (with_page change number page.now) count (D.history disk.new)) }
    ensures taken { IfOk result (λ next. (wal : Bool) (change : PageChange) → TakenUpTo intake table.old.sums old.now.sums count wal change
        → IsChange (with_page change number page.now) → TakenUpTo next table.new.sums old.now.sums count wal (with_page change number page.now)) }
    ensures header { IfOk result (λ next. next.receiving.header ≡ intake.receiving.header) }
    ensures spare { spare_of table.new ≡ spare_of table.old }
    ensures honest { D.honest disk.new ≡ D.honest disk.old }
    ensures cause { CountsFaults (D.faults disk.old) (D.faults disk.new) result }
{
    let mut receiving = intake.receiving;
    match receiving.take_next(disk, old, count, number, page) {
        Ok(()) => {}
        Err(failed) => return Err(failed),
    }
    table.set(number, page_sum(number, page));
    Ok(Intake {
        receiving,
        held: intake.held + 1,
        wal: next_wal(intake.wal, number, page),
    })
}
