//! A file that a source gives is applied, without memory.
ghost use Rattle.std.specs.Prelude.{◌≡◌, ◌<◌, ◌≤◌, false, true, ℕ, List, length, vec_capacity, IsSome, IsTrue};
ghost use Rattle.lf_disk.specs.History.{now, IsSettledBut};
ghost use Rattle.lf_disk.specs.declared.name.FileName.{FileName as Name};
ghost use Rattle.txn_log.specs.Bringing.{Brings, CountsBrought};
ghost use Rattle.txn_log.specs.Fields.{AppliesFromBy, CallBreaksFrom, CallWentFrom};
ghost use Rattle.txn_log.specs.From.{RefusesFrom, CountsRefused, broken_or_past};

use crate::bringing::{Brought, Ground, before, bring};
use crate::coming::{Coming, read_source};
use crate::entry::{Attempt, Entry};
use crate::fault::{FromFault, StoreFault};
use crate::outline::SourceFault;
use crate::reserved::Reserved;
use crate::store::Store;
use lf_base::{Pos, Source};
use lf_disk::Disk;
use page_checksum::Sums;

/// Why a store that is broken refuses what a source gives. The source is read all the same.
fn refuse<S: Source>(source: &mut S, reserved: Reserved, page: &mut [u8]) -> (FromFault, Reserved)
    requires { length page.old ≡ 65536 }
    ensures refuses { (position : Pos) (size commit : ℕ) (sums : List ℕ) → RefusesFrom (S.left source.old) (S.left source.new) reserved.pages true position size commit sums result.0 }
    ensures cause { CountsRefused (S.faults source.old) (S.faults source.new) result.0 }
{
    let Reserved {
        reader,
        sums,
        pages,
    } = reserved;
    let mut coming = Coming::new(reader);
    let why = match read_source(source, &mut coming, page) {
        Ok(outline) => broken_or_room(outline.header.commit, pages),
        Err(SourceFault::Source) => FromFault::Source,
        Err(SourceFault::Ltx(fault)) => FromFault::Ltx(fault),
    };
    let left = Reserved {
        reader: coming.reader,
        sums,
        pages,
    };
    (why, left)
}

/// Brings what a source gives into the log, with what is reserved for it.
fn bring_with<D: Disk, S: Source>(
    disk: &mut D,
    source: &mut S,
    reserved: Reserved,
    page: &mut [u8],
    sums: &Sums,
    ground: &Ground,
) -> (Brought, Reserved)
    requires settled { IsTrue (D.honest disk.old) → IsSettledBut Name.Staged (D.history disk.old) }
    requires page { length page.old ≡ 65536 }
    requires room { ground.now.room ≡ reserved.pages }
    ensures brings { Brings (D.honest disk.old) (S.left source.old) (S.left source.new) (D.history disk.old) ground.now sums.now.sums result.1.sums.sums result.0 (D.history disk.new) }
    ensures honest { D.honest disk.new ≡ D.honest disk.old }
    ensures cause { CountsBrought (S.faults source.old) (S.faults source.new) (D.faults disk.old) (D.faults disk.new) result.0 }
{
    let Reserved {
        reader,
        sums: mut table,
        pages,
    } = reserved;
    let mut coming = Coming::new(reader);
    let brought = bring(disk, source, &mut coming, &mut table, page, sums, ground);
    let left = Reserved {
        reader: coming.reader,
        sums: table,
        pages,
    };
    (brought, left)
}

/// Room, or that the store is broken.
pub fn broken_or_room(commit: u32, room: u32) -> FromFault
    ensures { result ≡ broken_or_past commit room }
{
    if commit > room {
        return FromFault::Room { commit };
    }
    FromFault::Store(StoreFault::Broken)
}

impl<D: Disk> Store<D> {
    /// Applies the file that a source gives, as `apply` does, without memory but for what was
    /// reserved and a page of 65,536 bytes. The source is read to its end, or to the fault that stands
    /// earliest.
    pub fn apply_from<S: Source>(
        &mut self,
        source: &mut S,
        page: &mut [u8],
    ) -> Result<Pos, FromFault>
        requires reserved { IsSome self.old.decoder }
        requires entry { length self.old.entries.items < vec_capacity self.old.entries }
        requires page { length page.old ≡ 65536 }
        ensures applies { AppliesFromBy self.old (S.left source.old) (S.left source.new) result }
        ensures cause { CallBreaksFrom self.old (S.faults source.old) result self.new (S.faults source.new) }
        ensures reader { IsSome self.new.decoder }

        // What a crash leaves at each moment.
        ensures went { IsTrue (D.honest self.old.disk)
            → CallWentFrom self.old (S.left source.old) (S.left source.new) result self.new }
        ensures honest { D.honest self.new.disk ≡ D.honest self.old.disk }
    {
        let Some(reserved) = self.decoder.take() else {
            return Err(FromFault::Source);
        };
        if self.broken {
            let (why, left) = refuse(source, reserved, page);
            self.decoder = Some(left);
            return Err(why);
        }
        let start = self.disk.moment();
        let ground = Ground {
            position: self.pos(),
            page_size: self.page_size,
            commit: self.commit,
            wal: self.wal,
            dropped: self.dropped,
            room: reserved.pages,
        };
        let (brought, mut left) = bring_with(
            &mut self.disk,
            source,
            reserved,
            page,
            &self.sums,
            &ground,
        );
        match brought {
            Brought::Whole { outline, wal } => {
                let post = Pos {
                    txid: outline.header.max,
                    sum: outline.post,
                };
                let entry = Entry {
                    min: outline.header.min,
                    max: outline.header.max,
                    pre: before(&outline),
                    post,
                };
                left.exchange(&mut self.sums);
                self.decoder = Some(left);
                self.page_size = outline.header.page_size;
                self.commit = outline.header.commit;
                self.wal = wal;
                self.dropped = false;
                self.entries.push_reserved(entry);
                Ok(post)
            }
            Brought::Refused(fault) => {
                self.decoder = Some(left);
                Err(fault)
            }
            Brought::Unpublished => {
                self.decoder = Some(left);
                self.broken = true;
                self.whole = start;
                self.attempt = Attempt::Unpublished;
                self.tried = start;
                Err(FromFault::Store(StoreFault::Disk))
            }
            Brought::From(tried) => {
                self.decoder = Some(left);
                self.broken = true;
                self.whole = start;
                self.attempt = Attempt::Apply;
                self.tried = tried;
                Err(FromFault::Store(StoreFault::Disk))
            }
        }
    }
}
