//! A disk in memory meets the contract of a disk, and fails the calls that are planned to fail.
ghost use Rattle.std.specs.Prelude.{◌≡◌, ◌↔◌, ◌≤◌, length, true, None, option_map, IsTrue, IsSome, IsErr, IsErrOf, IfOk, OnOk, OnErr, Contains};
ghost use Rattle.std.specs.List.{IsDistinct};
ghost use Rattle.lf_base.specs.Faults.{CountsFaults, one_more};
ghost use Rattle.lf_disk.specs.ListFault.{CountsListFaults, KeepsUnlessFailed};
ghost use Rattle.lf_disk.specs.declared.name.FileName.{FileName as Name};
ghost use Rattle.lf_base.specs.FileBytes.{Reads};
ghost use Rattle.lf_disk.specs.Folder.{same_name, Same, bytes_of};
ghost use Rattle.lf_disk.specs.Change.{OnFile, Perhaps, Writes, Cuts, Renames, TearsFile, CropsFile, SetsFile};
ghost use Rattle.lf_disk.specs.History.{now, Rests, Ticks, Moves};
ghost use Rattle.lf_disk.specs.MemDisk.{history_of, FailsFor};
ghost use Rattle.lf_disk.specs.Plan.{fails_next, Follows};
ghost use Rattle.lf_disk.specs.SystemError.{said};
ghost use Rattle.lf_disk.specs.Laws.{as_it_read};

use crate::disk::Disk;
use crate::list_fault::ListFault;
use crate::mem_disk::MemDisk;
use crate::name::FileName;
use crate::record::Change;
use crate::slots;
use lf_base::{Bytes, Errno, Failed};

impl Disk for MemDisk {
    ghost honest = { λ _. true };

    ghost history = { λ d. history_of d };

    ghost faults = { λ d. d.plan.faults };

    ghost error = { λ d. d.plan.error };

    ghost as_it_read = { λ d t _ _. as_it_read d t };

    fn size(&mut self, name: FileName) -> Result<Option<u64>, Failed>
        ensures size { IfOk result (λ size. size ≡ option_map length (now (history_of self.old) name)) }
        ensures rests { Rests (history_of self.old) (history_of self.new) }
        ensures cause { CountsFaults self.old.plan.faults self.new.plan.faults result }
        ensures plan { Follows result self.old.plan self.new.plan }
        ensures only { IsErr result → IsTrue (fails_next self.old.plan) }
        ensures one { IsErr result → self.new.plan.faults ≡ one_more self.old.plan.faults }
        ensures kind { IsErr result → self.new.plan.error ≡ said self.old.plan.roomless }
    {
        if self.schedule.begin() {
            return Err(self.schedule.fail());
        }
        Ok(slots::find(&self.files, name).map(|bytes| bytes.len() as u64))
    }

    fn read(&mut self, name: FileName, at: u64, out: &mut [u8]) -> Result<usize, Failed>
        ensures read { IfOk result (Reads (bytes_of (now (history_of self.old) name)) at out.old out.new) }
        ensures count { IfOk result (λ n. n ≤ length out.new) }
        ensures rests { Rests (history_of self.old) (history_of self.new) }
        ensures cause { CountsFaults self.old.plan.faults self.new.plan.faults result }
        ensures plan { Follows result self.old.plan self.new.plan }
        ensures only { IsErr result → IsTrue (fails_next self.old.plan) }
        ensures one { IsErr result → self.new.plan.faults ≡ one_more self.old.plan.faults }
        ensures kind { IsErr result → self.new.plan.error ≡ said self.old.plan.roomless }
    {
        if self.schedule.begin() {
            return Err(self.schedule.fail());
        }
        Ok(read_from(
            slots::find(&self.files, name).unwrap_or(&[]),
            at as usize,
            out,
        ))
    }

    fn write(&mut self, name: FileName, at: u64, bytes: &[u8]) -> Result<(), Failed>
        ensures done { OnOk result (Moves (OnFile name (Writes at bytes.now)) (TearsFile name at (length bytes.now))
            (history_of self.old) (history_of self.new)) }
        ensures failed { OnErr result (Moves (TearsFile name at (length bytes.now)) (TearsFile name at (length bytes.now))
            (history_of self.old) (history_of self.new)) }
        ensures ticks { Ticks result (history_of self.old) (history_of self.new) }
        ensures cause { CountsFaults self.old.plan.faults self.new.plan.faults result }
        ensures plan { Follows result self.old.plan self.new.plan }
        ensures fault { IsErr result → FailsFor self.old self.new }
    {
        match Vec::from_slice(self.alloc, bytes) {
            Ok(copy) => self.change(Change::Write {
                name,
                at,
                piece: Bytes::of(copy),
            }),
            Err(_) => self.refuse(),
        }
    }

    fn cut(&mut self, name: FileName, len: u64) -> Result<(), Failed>
        ensures done { OnOk result (Moves (OnFile name (Cuts len)) (CropsFile name len)
            (history_of self.old) (history_of self.new)) }
        ensures failed { OnErr result (Moves (CropsFile name len) (CropsFile name len)
            (history_of self.old) (history_of self.new)) }
        ensures ticks { Ticks result (history_of self.old) (history_of self.new) }
        ensures cause { CountsFaults self.old.plan.faults self.new.plan.faults result }
        ensures plan { Follows result self.old.plan self.new.plan }
        ensures fault { IsErr result → FailsFor self.old self.new }
    {
        self.change(Change::Cut { name, len })
    }

    fn sync(&mut self, name: FileName) -> Result<(), Failed>
        ensures done { OnOk result (Moves Same (SetsFile name (now (history_of self.old) name))
            (history_of self.old) (history_of self.new)) }
        ensures failed { OnErr result (Moves Same (Perhaps (SetsFile name (now (history_of self.old) name)))
            (history_of self.old) (history_of self.new)) }
        ensures ticks { Ticks result (history_of self.old) (history_of self.new) }
        ensures cause { CountsFaults self.old.plan.faults self.new.plan.faults result }
        ensures plan { Follows result self.old.plan self.new.plan }
        ensures fault { IsErr result → FailsFor self.old self.new }
    {
        self.change(Change::Sync { name })
    }

    fn rename(&mut self, from: FileName, to: FileName) -> Result<(), Failed>
        requires { IsTrue true → IsSome (now (history_of self.old) from) }
        ensures done { OnOk result (Moves (Renames from to) (Renames from to)
            (history_of self.old) (history_of self.new)) }
        ensures failed { OnErr result (Moves (Perhaps (Renames from to)) (Perhaps (Renames from to))
            (history_of self.old) (history_of self.new)) }
        ensures ticks { Ticks result (history_of self.old) (history_of self.new) }
        ensures cause { CountsFaults self.old.plan.faults self.new.plan.faults result }
        ensures plan { Follows result self.old.plan self.new.plan }
        ensures fault { IsErr result → FailsFor self.old self.new }
    {
        self.change(Change::Rename { from, to })
    }

    fn remove(&mut self, name: FileName) -> Result<(), Failed>
        ensures done { OnOk result (Moves (SetsFile name None) (SetsFile name None)
            (history_of self.old) (history_of self.new)) }
        ensures failed { OnErr result (Moves (Perhaps (SetsFile name None)) (Perhaps (SetsFile name None))
            (history_of self.old) (history_of self.new)) }
        ensures ticks { Ticks result (history_of self.old) (history_of self.new) }
        ensures cause { CountsFaults self.old.plan.faults self.new.plan.faults result }
        ensures plan { Follows result self.old.plan self.new.plan }
        ensures fault { IsErr result → FailsFor self.old self.new }
    {
        self.change(Change::Remove { name })
    }

    fn list(&mut self) -> Result<Vec<FileName>, ListFault>
        ensures names { IfOk result
            (λ names. (n : Name) → Contains names.items n ↔ IsSome (now (history_of self.old) n)) }
        ensures distinct { IfOk result (λ names. IsDistinct same_name names.items) }
        ensures rests { Rests (history_of self.old) (history_of self.new) }
        ensures cause { CountsListFaults self.old.plan.faults self.new.plan.faults result }
        ensures only { IsErrOf result ListFault.Failed → IsTrue (fails_next self.old.plan) }
        ensures error { KeepsUnlessFailed self.old.plan.error self.new.plan.error result }
        ensures kind { IsErrOf result ListFault.Failed → self.new.plan.error ≡ said self.old.plan.roomless }
        ensures plan { Follows result self.old.plan self.new.plan }
    {
        if self.schedule.begin() {
            // It is counted there; the list names it in its own words.
            self.schedule.fail();
            return Err(ListFault::Failed);
        }
        Ok(slots::names(self.alloc, &self.files)?)
    }

    fn last_error(&self) -> Option<Errno> {
        self.schedule.last_error()
    }

    fn moment(&self) -> u64 {
        self.calls.len() as u64
    }
}

/// Puts the bytes from an offset on in front of `out`, and answers how many.
#[tactic(auto, using(crate::proofs::Reading::read_front))]
fn read_from(bytes: &[u8], at: usize, out: &mut [u8]) -> usize
    ensures { Reads bytes.now at out.old out.new result }
{
    let start = at.min(bytes.len());
    let count = out.len().min(bytes.len() - start);
    out[..count].copy_from_slice(&bytes[start..start + count]);
    count
}
