//! A transaction file is staged as its pages come, and what it lacks past the old size as zeros.
ghost use Rattle.std.specs.Prelude.{◌≡◌, ◌+◌, ◌-◌, ◌<◌, ◌≤◌, ◌^◌, ℕ, List, Option, Some, length, IsTrue, OnOk, IfOk};
ghost use Rattle.lf_base.specs.Faults.{CountsFaults};
ghost use Rattle.lf_disk.specs.Folder.{Folder, SameBut};
ghost use Rattle.lf_disk.specs.History.{EachMoment, now, IsSettledBut};
ghost use Rattle.lf_disk.specs.declared.name.FileName.{FileName as Name};
ghost use Rattle.lf_sqlite_pages.specs.LockPage.{IsDataPage};
ghost use Rattle.lf_sqlite_pages.specs.Complete.{completed_page};
ghost use Rattle.lf_sqlite_pages.specs.Writes.{writes_of};
ghost use Rattle.ltx_codec.specs.declared.file.Ltx.{Ltx as File};
ghost use Rattle.txn_log.specs.Apply.{sum_behind};
ghost use Rattle.txn_log.specs.Receiving.{lacking_page, HasPassed, Lacks};
ghost use Rattle.txn_log.specs.Staging.{HoldsSoFar, front_encoding};
ghost use Rattle.lf_sqlite_pages.specs.Change.{PageChange, IsChange, empty_change, with_page};
ghost use Rattle.lf_sqlite_pages.specs.PageSize.{IsPageSize};
ghost use Rattle.txn_log.specs.Intake.{HasUpTo, HoldsUpTo};

use crate::receiving::Receiving;
use crate::staging::{stage_header, stage_page};
use crate::sums::zeros;
use lf_base::Failed;
use lf_disk::Disk;
use lf_sqlite_pages::lock_page;
use ltx_codec::Header;
use page_checksum::{CHECKSUM_FLAG, Sums, page_sum};

impl Receiving {
    /// Stages the next page.
    pub fn take_page<D: Disk>(
        &mut self,
        disk: &mut D,
        number: u32,
        page: &[u8],
    ) -> Result<(), Failed>
        requires next { self.old.passed + 1 ≡ number }
        requires holds_data { IsDataPage self.old.header.page_size number }
        requires whole { length page.now ≡ self.old.header.page_size }
        ensures moments { IsTrue (D.honest disk.old) → (before : Folder) (sums : List ℕ) (held : ℕ → Option (List ℕ))
            → HasPassed self.old sums held → HoldsSoFar before (front_encoding self.old.header (writes_of held self.old.passed)) (D.history disk.old)
            → EachMoment (D.history disk.old) (D.history disk.new) (SameBut Name.Staged before) }
        ensures staged { IsTrue (D.honest disk.old) → OnOk result ((before : Folder) (sums : List ℕ) (held : ℕ → Option (List ℕ))
            → HasPassed self.old sums held → held number ≡ Some page.now
            → HoldsSoFar before (front_encoding self.old.header (writes_of held self.old.passed)) (D.history disk.old)
            → HoldsSoFar before (front_encoding self.new.header (writes_of held self.new.passed)) (D.history disk.new)) }
        ensures passed { OnOk result ((sums : List ℕ) (held : ℕ → Option (List ℕ)) → HasPassed self.old sums held → held number ≡ Some page.now
            → HasPassed self.new sums held) }
        ensures counts { OnOk result ((self.new.passed ≡ number) × (self.new.header ≡ self.old.header)) }
        ensures honest { D.honest disk.new ≡ D.honest disk.old }
        ensures cause { CountsFaults (D.faults disk.old) (D.faults disk.new) result }
    {
        stage_page(disk, &mut self.staging, number, page)?;
        self.total ^= page_sum(number, page);
        self.passed = number;
        Ok(())
    }

    /// Passes the next page, which the file does not hold, over a database of `count` pages.
    fn pass<D: Disk>(&mut self, disk: &mut D, sums: &Sums, count: u32) -> Result<(), Failed>
        requires { self.old.passed + 1 < 2 ^ 32 }
        ensures moments { IsTrue (D.honest disk.old) → (before : Folder) (held : ℕ → Option (List ℕ))
            → HasPassed self.old sums.now.sums held → HoldsSoFar before (front_encoding self.old.header (writes_of held self.old.passed)) (D.history disk.old)
            → EachMoment (D.history disk.old) (D.history disk.new) (SameBut Name.Staged before) }
        ensures staged { IsTrue (D.honest disk.old) → OnOk result ((before : Folder) (held : ℕ → Option (List ℕ))
            → HasPassed self.old sums.now.sums held → held self.new.passed ≡ lacking_page self.old.header.page_size count self.new.passed
            → HoldsSoFar before (front_encoding self.old.header (writes_of held self.old.passed)) (D.history disk.old)
            → HoldsSoFar before (front_encoding self.new.header (writes_of held self.new.passed)) (D.history disk.new)) }
        ensures passed { OnOk result ((held : ℕ → Option (List ℕ)) → HasPassed self.old sums.now.sums held
            → held self.new.passed ≡ lacking_page self.old.header.page_size count self.new.passed
            → HasPassed self.new sums.now.sums held) }
        ensures counts { OnOk result ((self.new.passed ≡ self.old.passed + 1) × (self.new.header ≡ self.old.header)) }
        ensures honest { D.honest disk.new ≡ D.honest disk.old }
        ensures cause { CountsFaults (D.faults disk.old) (D.faults disk.new) result }
    {
        let number = self.passed + 1;
        let page_size = self.header.page_size;
        if number == lock_page(page_size) {
            self.passed = number;
            return Ok(());
        }
        if number <= count {
            self.total ^= sums.get(number);
            self.passed = number;
            return Ok(());
        }
        let zeros = zeros();
        let (page, _) = zeros.split_at(page_size as usize);
        self.take_page(disk, number, page)?;
        Ok(())
    }

    /// Passes the pages up to this one, which the file does not hold.
    pub fn pass_to<D: Disk>(
        &mut self,
        disk: &mut D,
        sums: &Sums,
        count: u32,
        last: u32,
    ) -> Result<(), Failed>
        requires { self.old.passed ≤ last }
        ensures moments { IsTrue (D.honest disk.old) → (before : Folder) (held : ℕ → Option (List ℕ))
            → HasPassed self.old sums.now.sums held → Lacks self.old count held last
            → HoldsSoFar before (front_encoding self.old.header (writes_of held self.old.passed)) (D.history disk.old)
            → EachMoment (D.history disk.old) (D.history disk.new) (SameBut Name.Staged before) }
        ensures staged { IsTrue (D.honest disk.old) → OnOk result ((before : Folder) (held : ℕ → Option (List ℕ))
            → HasPassed self.old sums.now.sums held → Lacks self.old count held last
            → HoldsSoFar before (front_encoding self.old.header (writes_of held self.old.passed)) (D.history disk.old)
            → HoldsSoFar before (front_encoding self.new.header (writes_of held self.new.passed)) (D.history disk.new)) }
        ensures passed { OnOk result ((held : ℕ → Option (List ℕ)) → HasPassed self.old sums.now.sums held
            → Lacks self.old count held last → HasPassed self.new sums.now.sums held) }
        ensures counts { OnOk result ((self.new.passed ≡ last) × (self.new.header ≡ self.old.header)) }
        ensures honest { D.honest disk.new ≡ D.honest disk.old }
        ensures cause { CountsFaults (D.faults disk.old) (D.faults disk.new) result }
    {
        while self.passed < last {
            self.pass(disk, sums, count)?;
        }
        Ok(())
    }

    /// Stages a page behind those before it, and what the file lacks between them.
    pub fn receive<D: Disk>(
        &mut self,
        disk: &mut D,
        sums: &Sums,
        count: u32,
        number: u32,
        page: &[u8],
    ) -> Result<(), Failed>
        requires next { self.old.passed < number }
        requires holds_data { IsDataPage self.old.header.page_size number }
        requires whole { length page.now ≡ self.old.header.page_size }
        ensures moments { IsTrue (D.honest disk.old) → (before : Folder) (held : ℕ → Option (List ℕ))
            → HasPassed self.old sums.now.sums held → Lacks self.old count held (number - 1)
            → HoldsSoFar before (front_encoding self.old.header (writes_of held self.old.passed)) (D.history disk.old)
            → EachMoment (D.history disk.old) (D.history disk.new) (SameBut Name.Staged before) }
        ensures staged { IsTrue (D.honest disk.old) → OnOk result ((before : Folder) (held : ℕ → Option (List ℕ))
            → HasPassed self.old sums.now.sums held → Lacks self.old count held (number - 1) → held number ≡ Some page.now
            → HoldsSoFar before (front_encoding self.old.header (writes_of held self.old.passed)) (D.history disk.old)
            → HoldsSoFar before (front_encoding self.new.header (writes_of held self.new.passed)) (D.history disk.new)) }
        ensures passed { OnOk result ((held : ℕ → Option (List ℕ)) → HasPassed self.old sums.now.sums held
            → Lacks self.old count held (number - 1) → held number ≡ Some page.now → HasPassed self.new sums.now.sums held) }
        ensures counts { OnOk result ((self.new.passed ≡ number) × (self.new.header ≡ self.old.header)) }
        ensures honest { D.honest disk.new ≡ D.honest disk.old }
        ensures cause { CountsFaults (D.faults disk.old) (D.faults disk.new) result }
    {
        self.pass_to(disk, sums, count, number - 1)?;
        self.take_page(disk, number, page)?;
        Ok(())
    }

    /// The sum of the database after the file, once its last page was passed.
    pub fn sum(&self) -> u64
        ensures { (count : ℕ) (sums : List ℕ) (file : File) → HasPassed self.now sums (completed_page file.change count)
            → self.now.header.page_size ≡ file.change.page_size → self.now.passed ≡ file.change.commit
            → result ≡ sum_behind count sums file }
    {
        self.total | CHECKSUM_FLAG
    }
}

/// Begins to stage a file with this header.
pub fn begin_receiving<D: Disk>(disk: &mut D, header: &Header) -> Result<Receiving, Failed>
    requires settled { IsTrue (D.honest disk.old) → IsSettledBut Name.Staged (D.history disk.old) }
    requires sized { IsPageSize header.now.page_size }
    ensures moments { IsTrue (D.honest disk.old)
        → EachMoment (D.history disk.old) (D.history disk.new) (SameBut Name.Staged (now (D.history disk.old))) }
    ensures staged { IsTrue (D.honest disk.old) → IfOk result (λ receiving. (count : ℕ)
        → HoldsUpTo (now (D.history disk.old)) receiving (empty_change header.now.page_size header.now.commit) count (D.history disk.new)) }
    ensures begun { IfOk result (λ receiving. (sums : List ℕ) (count : ℕ)
        → HasUpTo receiving sums count (empty_change header.now.page_size header.now.commit)) }
    ensures header { IfOk result (λ receiving. receiving.header ≡ header.now) }
    ensures honest { D.honest disk.new ≡ D.honest disk.old }
    ensures cause { CountsFaults (D.faults disk.old) (D.faults disk.new) result }
{
    match stage_header(disk, header) {
        Ok(staging) => Ok(Receiving {
            header: *header,
            staging,
            passed: 0,
            total: 0,
        }),
        Err(failed) => Err(failed),
    }
}

impl Receiving {
    /// Stages the page that comes next, behind what the file lacks before it.
    pub fn take_next<D: Disk>(
        &mut self,
        disk: &mut D,
        sums: &Sums,
        count: u32,
        number: u32,
        page: &[u8],
    ) -> Result<(), Failed>
        requires next { self.old.passed < number }
        requires holds_data { IsDataPage self.old.header.page_size number }
        requires whole { length page.now ≡ self.old.header.page_size }
        ensures moments { IsTrue (D.honest disk.old) → (before : Folder) (change : PageChange) → IsChange change
            → HasUpTo self.old sums.now.sums count change → HoldsUpTo before self.old change count (D.history disk.old)
            → EachMoment (D.history disk.old) (D.history disk.new) (SameBut Name.Staged before) }
        ensures staged { IsTrue (D.honest disk.old) → OnOk result ((before : Folder) (change : PageChange) → IsChange change
            → HasUpTo self.old sums.now.sums count change → HoldsUpTo before self.old change count (D.history disk.old)
            → HoldsUpTo before self.new (with_page change number page.now) count (D.history disk.new)) }
        ensures passed { OnOk result ((change : PageChange) → IsChange change → HasUpTo self.old sums.now.sums count change
            → HasUpTo self.new sums.now.sums count (with_page change number page.now)) }
        ensures header { OnOk result (self.new.header ≡ self.old.header) }
        ensures honest { D.honest disk.new ≡ D.honest disk.old }
        ensures cause { CountsFaults (D.faults disk.old) (D.faults disk.new) result }
    {
        match self.receive(disk, sums, count, number, page) {
            Ok(()) => Ok(()),
            Err(failed) => Err(failed),
        }
    }

    /// Passes what the file lacks behind its last page.
    pub fn pass_rest<D: Disk>(
        &mut self,
        disk: &mut D,
        sums: &Sums,
        count: u32,
    ) -> Result<(), Failed>
        requires { self.old.passed ≤ self.old.header.commit }
        ensures moments { IsTrue (D.honest disk.old) → (before : Folder) (change : PageChange) → IsChange change
            → HasUpTo self.old sums.now.sums count change → HoldsUpTo before self.old change count (D.history disk.old)
            → EachMoment (D.history disk.old) (D.history disk.new) (SameBut Name.Staged before) }
        ensures staged { IsTrue (D.honest disk.old) → OnOk result ((before : Folder) (change : PageChange) → IsChange change
            → HasUpTo self.old sums.now.sums count change → HoldsUpTo before self.old change count (D.history disk.old)
            → HoldsUpTo before self.new change count (D.history disk.new)) }
        ensures passed { OnOk result ((change : PageChange) → IsChange change → HasUpTo self.old sums.now.sums count change
            → HasPassed self.new sums.now.sums (completed_page change count)) }
        ensures counts { OnOk result ((self.new.passed ≡ self.old.header.commit) × (self.new.header ≡ self.old.header)) }
        ensures honest { D.honest disk.new ≡ D.honest disk.old }
        ensures cause { CountsFaults (D.faults disk.old) (D.faults disk.new) result }
    {
        let last = self.header.commit;
        match self.pass_to(disk, sums, count, last) {
            Ok(()) => Ok(()),
            Err(failed) => Err(failed),
        }
    }
}
