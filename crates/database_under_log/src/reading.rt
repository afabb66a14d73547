//! The file read while a write waits.
ghost use Rattle.std.specs.Prelude.{◌≡◌, IfSome, IfOk, IfErr, OnOk};
ghost use Rattle.lf_sqlite_pages.specs.Image.{image_bytes};
ghost use Rattle.database_file.specs.DatabaseFile.{FitsShape, as_read, bytes_from};
ghost use Rattle.database_file.specs.Fault.{HasCause, SameBase};
ghost use Rattle.database_under_log.specs.Staying.{forgotten};

use crate::waiting::WaitingWrite;
use database_file::{DatabaseFile, FileFault};
use lf_sqlite_pages::PageStore;
use std::alloc::Global;

/// Reads as many bytes from `at` on as there are, at most `size`, of the file as it was before a write
/// waited: over every image, also one that the write knows nothing of.
pub fn read_before<S: PageStore>(
    alloc: Global,
    file: &DatabaseFile,
    write: &WaitingWrite,
    base: &mut S,
    at: u64,
    size: u32,
) -> Result<Vec<u8>, FileFault>
    requires fits { FitsShape (forgotten file.now write.now) (S.page_size base.old) (S.commit base.old) }
    ensures bytes { IfOk result (λ bytes. IfSome (S.image base.old) (λ i. bytes.items ≡ bytes_from (image_bytes (as_read (forgotten file.now write.now) i)) at size)) }
    ensures faults { OnOk result (S.faults base.new ≡ S.faults base.old) }
    ensures cause { IfErr result (HasCause (S.faults base.old) (S.faults base.new)) }
    ensures base { SameBase S.PageStore base.old base.new }
{
    file.read_without(alloc, write.held.added.as_slice(), base, at, size)
}
