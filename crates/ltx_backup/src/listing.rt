//! Which transaction files stand on a disk.
ghost use Rattle.std.specs.Prelude.{◌≡◌, IsTrue, IfOk, IfErr, map};
ghost use Rattle.lf_disk.specs.History.{now, Rests};
ghost use Rattle.ltx_backup.specs.Causes.{HasCause, IsBlameless};
ghost use Rattle.ltx_backup.specs.Entries.{numbers_of};
ghost use Rattle.ltx_backup.specs.Listing.{AreListed};

use crate::entry::Entry;
use crate::fault::BackupFault;
use lf_base::NoMemory;
use lf_disk::{Disk, ListFault, Numbers, list_numbers};
use std::alloc::Global;

/// An entry for each file of these numbers. Their page sizes are not known yet.
fn entries_of(alloc: Global, names: &[Numbers]) -> Result<Vec<Entry>, NoMemory>
    ensures { IfOk result (λ entries. map numbers_of entries.items ≡ names.now) }
{
    let mut entries = Vec::new(alloc);
    for name in names {
        entries.push(Entry {
            min: name.min,
            max: name.max,
            page_size: 0,
        })?;
    }
    Ok(entries)
}

/// The transaction files on a disk, by the first transaction.
pub fn list_entries<D: Disk>(alloc: Global, disk: &mut D) -> Result<Vec<Entry>, BackupFault>
    ensures listed { IsTrue (D.honest disk.old) → IfOk result (λ entries. AreListed entries.items (now (D.history disk.old))) }
    ensures blameless { IfErr result IsBlameless }
    ensures rests { Rests (D.history disk.old) (D.history disk.new) }
    ensures honest { D.honest disk.new ≡ D.honest disk.old }
    ensures cause { HasCause (D.faults disk.old) (D.faults disk.new) result }
{
    let names = match list_numbers(alloc, disk) {
        Ok(names) => names,
        Err(ListFault::Failed) => return Err(BackupFault::Disk),
        Err(ListFault::NoMemory) => return Err(BackupFault::NoMemory),
    };
    match entries_of(alloc, names.as_slice()) {
        Ok(entries) => Ok(entries),
        Err(_) => Err(BackupFault::NoMemory),
    }
}
