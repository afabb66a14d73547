//! A file cut, or made longer with zeros.
ghost use Rattle.std.specs.Prelude.{◌≡◌, ◌≢◌, ◌≤◌, ◌<◌, ◌↔◌, IsSome, IsTrue, IfOk, OnOk, OnErr, IfErr, IfSome};
ghost use Rattle.lf_base.specs.FileBytes.{resized};
ghost use Rattle.wal_watch.specs.File.{contents_of, after_cut};
ghost use Rattle.wal_watch.specs.Frames.{committed_end};
ghost use Rattle.wal_watch.specs.Indexing.{AreShared};
ghost use Rattle.wal_watch.specs.Refusals.{wal_limit, IsSoundCut, IsCutFault};
ghost use Rattle.wal_watch.specs.Scanning.{AreMarks, IsMarked};

use crate::check::WAL_LIMIT;
use crate::fault::WalFault;
use crate::file::WalFile;
use crate::scan::{Marks, committed_in, marks_of};
use lf_sqlite_pages::Blocks;

/// The marks that a cut to a length leaves: those behind the last valid frame or behind the committed
/// ones, if they aren't behind it.
fn marks_within(contents: &Blocks, marks: Option<Marks>, len: usize) -> Option<Marks>
    requires { IsMarked contents.now.bytes marks }
    ensures { IfSome result (AreMarks (resized len contents.now.bytes)) }
{
    let Some(marks) = marks else {
        return None;
    };
    if marks.last.place <= len {
        return Some(marks);
    }
    if marks.committed.place <= len {
        return Some(marks.back());
    }
    None
}

impl WalFile {
    /// Whether a length is below the committed end, and not 0.
    fn ends_below(&self, len: u64) -> bool
        ensures { IsTrue result ↔ ((len ≢ 0) × (len < committed_end (contents_of self.now))) }
    {
        len != 0 && len < self.committed_end()
    }

    /// The marks after a cut to a length.
    fn marks_after(&self, len: u64) -> Option<Marks>
        requires { len ≤ wal_limit }
        ensures { IsMarked (resized len (contents_of self.now)) result }
    {
        let from = marks_within(&self.contents, self.marks, len as usize);
        marks_of(&self.contents, len as usize, from)
    }

    /// The marks after a cut to a length, or what stands against it.
    fn cut_marks(&self, len: u64) -> Result<Option<Marks>, WalFault>
        ensures marks { IfOk result (IsMarked (resized len (contents_of self.now))) }
        ensures sound { OnOk result (IsSoundCut (contents_of self.now) len) }
        ensures cause { IfErr result (IsCutFault (contents_of self.now) len) }
    {
        if len > WAL_LIMIT {
            return Err(WalFault::TooLong);
        }
        if self.ends_below(len) {
            return Err(WalFault::Part);
        }
        let marks = self.marks_after(len);
        if committed_in(marks) > self.committed() {
            return Err(WalFault::Part);
        }
        Ok(marks)
    }

    /// Whether a cut would be refused and why, told without doing it.
    pub fn check_cut(&self, len: u64) -> Result<(), WalFault>
        ensures sound { OnOk result (IsSoundCut (contents_of self.now) len) }
        ensures cause { IfErr result (IsCutFault (contents_of self.now) len) }
    {
        match self.cut_marks(len) {
            Ok(_marks) => Ok(()),
            Err(fault) => Err(fault),
        }
    }

    /// How many committed frames stay in a cut to a length.
    fn shared_with_cut(&self, len: u64) -> usize
        requires { IsSoundCut (contents_of self.now) len }
        ensures { AreShared (contents_of self.now) (resized len (contents_of self.now)) result }
    {
        if len == 0 { 0 } else { self.committed() }
    }

    /// Cuts the file to a length, or fills it up with zeros. It takes no memory.
    pub fn cut(&mut self, len: u64) -> Result<(), WalFault>
        requires { IsSome self.old.contents }
        ensures ok { OnOk result (self.new ≡ after_cut self.old len) }
        ensures sound { OnOk result (IsSoundCut (contents_of self.old) len) }
        ensures err { OnErr result (self.new ≡ self.old) }
        ensures cause { IfErr result (IsCutFault (contents_of self.old) len) }
    {
        let marks = self.cut_marks(len)?;
        let shared = self.shared_with_cut(len);
        self.index.go_over(shared);
        self.contents.cut(len).unwrap();
        self.marks = marks;
        Ok(())
    }
}
