//! Another's file is applied.
ghost use Rattle.std.specs.Prelude.{◌≡◌, false, true, IsTrue, IfOk, IfErr, OnOk, OnErr};
ghost use Rattle.lf_sqlite_pages.specs.Change.{IsChange};
ghost use Rattle.lf_sqlite_pages.specs.Complete.{completed};
ghost use Rattle.ltx_codec.specs.Format.{IsFile};
ghost use Rattle.ltx_codec.specs.Positions.{after};
ghost use Rattle.world_laws.specs.Store.{Apply, Commit};
ghost use Rattle.txn_log.specs.Apply.{whole_file, IsTaken, Judges};
ghost use Rattle.txn_log.specs.Causes.{IsDiskOrMemory};
ghost use Rattle.txn_log.specs.Fields.{AppliesBy, CallBreaks, CallWent, HasSameFiles, HasShape};
ghost use Rattle.txn_log.specs.Publishing.{Publishes, call_of};
ghost use Rattle.txn_log.specs.Store.{end_of_entries};

use crate::entry::Attempt;
use crate::fault::StoreFault;
use crate::publishing::publish;
use crate::store::Store;
use crate::sums::total_behind;
use lf_base::{NoMemory, Pos};
use lf_disk::Disk;
use lf_sqlite_pages::Change;
use ltx_codec::Ltx;
use std::alloc::Global;

/// Whether a change plainly is complete over a database of `count` pages: it lacks none past them.
fn is_complete(change: &Change, count: u32) -> bool
    requires { IsChange change.now }
    ensures { result ≡ true → completed change.now count ≡ change.now }
{
    change.commit() <= count || change.holds_every_page()
}

/// A file made complete over a database of `count` pages.
fn whole_of(alloc: Global, file: &Ltx, count: u32) -> Result<Ltx, NoMemory>
    ensures { IfOk result (λ whole. whole ≡ whole_file count file.now) }
{
    let mut change = copy_of(alloc, &file.change)?;
    change.complete(count)?;
    Ok(Ltx {
        header: file.header,
        change,
        post: file.post,
    })
}

impl<D: Disk> Store<D> {
    /// Whether a file is taken.
    fn judge(&self, file: &Ltx) -> Result<(), StoreFault>
        requires { IsFile file.now }
        ensures { Judges self.now.broken (end_of_entries self.now.entries.items) self.now.page_size self.now.commit
            self.now.sums.sums file.now result }
    {
        if self.broken {
            return Err(StoreFault::Broken);
        }
        let have = self.pos();
        let want = file.before();
        if want != have {
            return Err(StoreFault::NotNext { have, want });
        }
        if !file.change.fits(self.page_size, self.commit) {
            return Err(StoreFault::PageSize {
                have: self.page_size,
                want: file.change.page_size(),
            });
        }
        let want = file.post;
        let got = total_behind(&self.sums, &file.change, self.commit);
        if want != got {
            return Err(StoreFault::SumDiffers { want, got });
        }
        Ok(())
    }

    /// Publishes a file that is taken, made complete.
    fn publish_taken(&mut self, file: &Ltx, attempt: Attempt) -> Result<Pos, StoreFault>
        requires open_ { self.old.broken ≡ false }
        requires valid { IsFile file.now }
        requires publishes { Publishes attempt file.now }
        requires taken { IsTaken (end_of_entries self.old.entries.items) self.old.page_size self.old.commit self.old.sums.sums file.now }
        ensures told { IfOk result (λ position. position ≡ after file.now) }
        ensures refusal { IfErr result IsDiskOrMemory }
        ensures cause { CallBreaks self.old result self.new }
        ensures shape { OnOk result (HasShape self.new file.now.header.page_size file.now.header.commit) }
        ensures position { OnOk result (end_of_entries self.new.entries.items ≡ after file.now) }
        ensures same { OnErr result (HasSameFiles self.old self.new) }
        ensures went { IsTrue (D.honest self.old.disk) → CallWent
            self.old (call_of attempt (whole_file self.old.commit file.now)) result self.new }
        ensures honest { D.honest self.new.disk ≡ D.honest self.old.disk }
    {
        if is_complete(&file.change, self.commit) {
            return publish(self, file, &[], attempt);
        }
        match whole_of(*self.entries.allocator(), file, self.commit) {
            Ok(whole) => publish(self, &whole, &[], attempt),
            Err(_) => Err(StoreFault::NoMemory),
        }
    }

    /// Applies another's file that joins, and publishes it made complete: as zeros it then also holds
    /// each data page past the old size that it does not write.
    pub fn apply(&mut self, file: &Ltx) -> Result<Pos, StoreFault>
        requires { IsFile file.now }
        ensures applies { AppliesBy self.old file.now result }
        ensures cause { CallBreaks self.old result self.new }
        ensures shape { OnOk result (HasShape self.new file.now.header.page_size file.now.header.commit) }
        ensures position { OnOk result (end_of_entries self.new.entries.items ≡ after file.now) }
        ensures same { OnErr result (HasSameFiles self.old self.new) }

        // What a crash leaves at each moment.
        ensures went { IsTrue (D.honest self.old.disk) → CallWent
            self.old (Apply (whole_file self.old.commit file.now)) result self.new }
        ensures honest { D.honest self.new.disk ≡ D.honest self.old.disk }
    {
        match self.judge(file) {
            Ok(()) => self.publish_taken(file, Attempt::Apply),
            Err(why) => Err(why),
        }
    }

    /// Accepts a transaction that another made over this database as the next one of the log, and
    /// publishes it made complete, as `apply` does. No store had it before.
    pub fn accept(&mut self, file: &Ltx) -> Result<Pos, StoreFault>
        requires valid { IsFile file.now }
        requires single { file.now.header.max ≡ file.now.header.min }
        ensures applies { AppliesBy self.old file.now result }
        ensures cause { CallBreaks self.old result self.new }
        ensures shape { OnOk result (HasShape self.new file.now.header.page_size file.now.header.commit) }
        ensures position { OnOk result (end_of_entries self.new.entries.items ≡ after file.now) }
        ensures same { OnErr result (HasSameFiles self.old self.new) }

        // What a crash leaves at each moment.
        ensures went { IsTrue (D.honest self.old.disk) → CallWent
            self.old (Commit (whole_file self.old.commit file.now)) result self.new }
        ensures honest { D.honest self.new.disk ≡ D.honest self.old.disk }
    {
        match self.judge(file) {
            Ok(()) => self.publish_taken(file, Attempt::Commit),
            Err(why) => Err(why),
        }
    }
}

/// A copy of a change.
pub fn copy_of(alloc: Global, change: &Change) -> Result<Change, NoMemory>
    ensures same { IfOk result (λ copy. copy ≡ change.now) }
    ensures valid { IsChange change.now }
{
    let mut copy = Change::new(alloc, change.page_size(), change.commit());
    for page in change.pages() {
        copy.push(page.number, page.bytes.as_slice())?;
    }
    Ok(copy)
}
