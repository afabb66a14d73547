//! A disk in memory after a crash.
ghost use Rattle.std.specs.Prelude.{◌≡◌, IfOk, IfErr};
ghost use Rattle.lf_disk.specs.Slots.{folder_of, IsOrderly};
ghost use Rattle.lf_disk.specs.Folder.{Same};
ghost use Rattle.lf_disk.specs.Crash.{left_as};
ghost use Rattle.lf_disk.specs.History.{may_leave};
ghost use Rattle.lf_disk.specs.MemDisk.{history_of, fresh};

use crate::choice::crashed;
use crate::mem_disk::MemDisk;
use crate::plan::Schedule;
use crate::slots::{self, Slot};
use lf_base::NoMemory;
use std::alloc::AllocError;

impl MemDisk {
    /// The disk with what a crash may leave of it: of what was pending, nothing. No call of it is
    /// to fail. A refusal hands the disk back as it was.
    pub fn reopen(self) -> Result<MemDisk, (NoMemory, MemDisk)>
        ensures left { IfOk result (λ disk. may_leave (history_of self) (folder_of disk.first)) }
        ensures lost { IfOk result (λ disk. Same (left_as self.calls 0 (folder_of self.first) (folder_of self.first)) (folder_of disk.first)) }
        ensures fresh { IfOk result (λ disk. disk ≡ fresh disk.first) }
        ensures back { IfErr result (λ e. e.1 ≡ self) }
    {
        self.reopen_as(0)
    }

    /// The same, where a number chooses what is left of each call that was pending. It has two bits
    /// for each call, the lowest for the first, and after 32 calls they come again: 0 is none of
    /// it, 1 a part, and 2 and 3 all.
    pub fn reopen_as(self, number: u64) -> Result<MemDisk, (NoMemory, MemDisk)>
        ensures left { IfOk result (λ disk. may_leave (history_of self) (folder_of disk.first)) }
        ensures chosen { IfOk result (λ disk. Same (left_as self.calls number (folder_of self.first) (folder_of self.first)) (folder_of disk.first)) }
        ensures fresh { IfOk result (λ disk. disk ≡ fresh disk.first) }
        ensures back { IfErr result (λ e. e.1 ≡ self) }
    {
        match self.left(number) {
            Ok((first, files)) => Ok(MemDisk {
                alloc: self.alloc,
                first,
                calls: Vec::new(self.alloc),
                files,
                schedule: Schedule::new(Vec::new(self.alloc), None),
            }),
            Err(_) => Err((NoMemory, self)),
        }
    }

    /// What a crash leaves, twice.
    fn left(&self, number: u64) -> Result<(Vec<Slot>, Vec<Slot>), AllocError>
        ensures left { IfOk result (λ both. may_leave (history_of self.now) (folder_of both.0.items)) }
        ensures chosen { IfOk result (λ both. Same (left_as self.now.calls number (folder_of self.now.first) (folder_of self.now.first)) (folder_of both.0.items)) }
        ensures orderly { IfOk result (λ both. IsOrderly both.0.items) }
        ensures same { IfOk result (λ both. both.1.items ≡ both.0.items) }
    {
        let image = crashed(self.alloc, &self.first, &self.calls, number)?;
        let copy = slots::copied(self.alloc, &image)?;
        Ok((image, copy))
    }
}
