//! Disks in memory without files.
ghost use Rattle.std.specs.Prelude.{◌≡◌, [], IfOk};

use crate::lists::one;
use lf_base::NoMemory;
use lf_disk::MemDisk;
use std::alloc::Global;

/// How a disk fails.
#[derive(Clone, Copy)]
pub enum Failing {
    /// At the call of a number alone.
    At,
    /// From there on.
    From,
}

/// A disk on which nothing was called, and which fails at a call.
pub fn blank(alloc: Global, failing: Failing, call: u64) -> Result<MemDisk, NoMemory>
    ensures { IfOk result (λ disk. disk.calls ≡ []) }
{
    match failing {
        Failing::At => MemDisk::new(alloc, one(alloc, call)?, None),
        Failing::From => MemDisk::new(alloc, Vec::new(alloc), Some(call)),
    }
}
