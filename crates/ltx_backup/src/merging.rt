//! Files become one.
ghost use Rattle.std.specs.Prelude.{◌≡◌, List, All, IfOk, IfErr};
ghost use Rattle.ltx_codec.specs.Format.{IsFile};
ghost use Rattle.ltx_codec.specs.declared.file.Ltx.{Ltx as File};
ghost use Rattle.ltx_compact.specs.Joining.{IsWhy};
ghost use Rattle.ltx_compact.specs.Compaction.{Compacts, IsFileButSum};
ghost use Rattle.ltx_compact.specs.Application.{DoesAsFiles};
ghost use Rattle.ltx_backup.specs.Merging.{IsWrongSum, IsUnmerged};

use crate::entry::Entry;
use crate::fault::BackupFault;
use ltx_codec::{Ltx, sum_of_writes};
use ltx_compact::{CompactFault, compact_owned};
use std::alloc::Global;

/// A file from the first transaction on says the sum of its pages.
fn sealed(file: Ltx) -> Result<Ltx, BackupFault>
    requires { IsFileButSum file }
    ensures same { IfOk result (λ same. same ≡ file) }
    ensures valid { IfOk result IsFile }
    ensures wrong { IfErr result (IsWrongSum file) }
{
    if file.header.min == 1 {
        let want = file.post;
        let got = sum_of_writes(file.change.pages());
        if want != got {
            return Err(BackupFault::SumDiffers { want, got });
        }
    }
    Ok(file)
}

/// Why files of a level, that begin with the file of this entry, don't become one.
fn unmerged(why: CompactFault, level: u8, first: Entry) -> BackupFault
    ensures { (files : List File) → IsWhy files why → IsUnmerged files result }
{
    match why {
        CompactFault::NoMemory => BackupFault::NoMemory,
        _ => BackupFault::Damaged {
            level,
            min: first.min,
            max: first.max,
        },
    }
}

/// One file in place of several of a level, that begin with the file of this entry.
pub fn merge(alloc: Global, files: Vec<Ltx>, level: u8, first: Entry) -> Result<Ltx, BackupFault>
    requires { All IsFile files.items }
    ensures compacts { IfOk result (Compacts files.items) }
    ensures does { IfOk result (λ file. DoesAsFiles files.items file.change) }
    ensures valid { IfOk result IsFile }
    ensures unmerged { IfErr result (IsUnmerged files.items) }
{
    match compact_owned(alloc, files) {
        Ok(file) => sealed(file),
        Err(why) => Err(unmerged(why, level, first)),
    }
}
